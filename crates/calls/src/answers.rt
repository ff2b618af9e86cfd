// Answers as bytes.
ghost use Rattle.std.specs.Prelude.{◌≡◌};
ghost use Rattle.model.specs.Tree.{No};
ghost use Rattle.calls.specs.Format.{encode_reply};

// The answer to what is refused: at which act, and the number that says why.
// kept: the number is that of one of several enums (a refusal, or why bytes are not let in), and one byte of the answer
pub fn refused(act: u8, reason: u8) -> [u8; 3]
    ensures { result ≡ encode_reply (No act reason) }
{
    [0, act, reason]
}
