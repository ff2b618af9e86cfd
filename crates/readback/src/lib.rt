// That calls in words read back.
#![tactic(auto)]

ghost use Rattle.readback.specs.ReadsBack.{CallsReadBack};

// A call in words reads back as the call that it was written of.
pub fn calls_read_back() -> u8
    ensures { CallsReadBack }
{
    0
}
