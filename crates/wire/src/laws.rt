// Reading undoes writing, and writing undoes reading: the theorems, each named by a contract.
ghost use Rattle.wire.specs.Laws.{TreeAgain, TreeBack, MessageAgain, MessageBack, StartSendable, NextSendable, MemoryWritesAlike};
ghost use Rattle.wire.specs.Whole.{SaidIsRead, WholeInBytes};

// A tree that is written is read again as that tree.
pub fn trees_are_read_again() -> u8
    ensures { TreeAgain }
{
    0
}

// Bytes that are a tree are those that it is written as.
pub fn trees_are_written_again() -> u8
    ensures { TreeBack }
{
    0
}

// A message whose numbers fit, and whose tree can be sent, is read again as that message.
pub fn messages_are_read_again() -> u8
    ensures { MessageAgain }
{
    0
}

// Bytes that are read as a message are those that it is written as.
pub fn messages_are_written_again() -> u8
    ensures { MessageBack }
{
    0
}

// Every state that a run of the service comes to can be sent: the first, and what a call makes of one that may be changed.
pub fn states_can_be_sent() -> u8
    ensures { StartSendable × NextSendable }
{
    0
}

// A message in lent memory that stands for one of the machine is written as that one's bytes.
pub fn memory_writes_alike() -> u8
    ensures { MemoryWritesAlike }
{
    0
}

// Whatever is said in a run is read again as what was said.
pub fn said_is_read() -> u8
    ensures { SaidIsRead }
{
    0
}

// The whole promise, of the machine that keeps the tree with calls, answers and messages as bytes.
pub fn whole_in_bytes() -> u8
    ensures { WholeInBytes }
{
    0
}
