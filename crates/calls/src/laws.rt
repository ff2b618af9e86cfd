// Reading undoes writing, and writing undoes reading, of calls and of answers; and worked cases of what is told of bytes: the theorems, each named by a contract.
ghost use Rattle.calls.specs.Laws.{CallsAreReadAgain, CallsAreWrittenAgain, WholeActsAreRead, RepliesAreReadAgain, RepliesAreWrittenAgain};
ghost use Rattle.calls.specs.Cases.{WorkedScreens};

// A call that is written is read again as that call; bytes that are read as a call are those that it is written as. Bytes that are just so many acts are those acts.
pub fn calls_round() -> u8
    ensures read { CallsAreReadAgain }
    ensures written { CallsAreWrittenAgain }
    ensures acts { WholeActsAreRead }
{
    0
}

// The same of answers.
pub fn replies_round() -> u8
    ensures read { RepliesAreReadAgain }
    ensures written { RepliesAreWrittenAgain }
{
    0
}

// What is told of bytes that are let in, aren't built, or are no call: the worked cases.
pub fn screens_worked() -> u8
    ensures { WorkedScreens }
{
    0
}
