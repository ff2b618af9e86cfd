// The lines that the program of one replica writes.
ghost use Rattle.std.specs.Prelude.{◌≡◌, ◌++◌, OnOk};
ghost use Rattle.text.specs.Line.{line_of, answer_line, letter_line};

use crate::frame::{FrameFault, push_frame};
use crate::hex::push_hex;
use std::alloc::{AllocError, Global};
use std::io::Write;

// kept: a Display of the bytes would be a second writer of digits, beside push_hex, which says more where it fails
fn push_line(out: &mut Vec<u8>, word: &str, number: u64, bytes: &[u8]) -> Result<(), AllocError>
    ensures { OnOk result (out.new.items ≡ out.old.items ++ line_of word.now number bytes.now) }
{
    write!(out, "{word}{number} ").map_err(|_| AllocError)?;
    push_hex(out, bytes)?;
    out.extend_from_slice(b"\n")?;
    Ok(())
}

// An answer to the client with this number.
// kept: push_line prints the line; this makes the frame that stands in it
pub fn push_answer(
    heap: Global,
    out: &mut Vec<u8>,
    number: u64,
    answer: &[u8],
) -> Result<(), FrameFault>
    ensures { OnOk result (out.new.items ≡ out.old.items ++ answer_line number answer.now) }
{
    let mut frame = Vec::new(heap);
    push_frame(&mut frame, number, answer)?;
    push_line(out, "answer ", number, &frame)?;
    Ok(())
}

// A letter to another replica.
// kept: push_line prints the line
pub fn push_letter(out: &mut Vec<u8>, to: u8, letter: &[u8]) -> Result<(), AllocError>
    ensures { OnOk result (out.new.items ≡ out.old.items ++ letter_line to letter.now) }
{
    push_line(out, "to ", to as u64, letter)
}
