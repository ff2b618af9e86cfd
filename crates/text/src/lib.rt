// What the programs read and write, between bytes and words.
#![tactic(auto)]

ghost use Rattle.text.specs.ReadsBack.{HexReadsBack, DecimalReadsBack, FrameReadsBack};

pub mod command;
pub mod decimal;
pub mod frame;
pub mod hex;
pub mod line;
pub mod words;

// What is written reads back as what it was written of.
pub fn reads_back() -> u8
    ensures hex { HexReadsBack }
    ensures decimal { DecimalReadsBack }
    ensures frame { FrameReadsBack }
{
    0
}
