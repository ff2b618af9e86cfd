// A call or an answer on a line: the length of the rest, the client's number, the bytes.
ghost use Rattle.std.specs.Prelude.{◌≡◌};
ghost use Rattle.text.specs.Frame.{unframe, frame_read, FramePushed};
ghost use Rattle.text.specs.declared.frame.FrameFault.TheVariants.{Memory};

use lent_bytes::numbers::{read_u32, read_u64};
use std::alloc::AllocError;
use thiserror::Error;

#[derive(Clone, Copy)]
pub struct Frame<'a> {
    pub number: u64,
    pub call: &'a [u8],
}

// Why bytes are no frame, or a call has none.
#[derive(Clone, Copy, Debug, PartialEq, Eq, Error)]
pub enum FrameFault {
    // fewer than 12 bytes: a length, and a number behind it
    #[error("fewer than 12 bytes: a length and a number are wanted")]
    Short,
    // another length than the rest has
    #[error("the length does not match")]
    Length,
    // 2^32 bytes or more behind the length
    #[error("too long for a length of 4 bytes")]
    Long,
    #[error("no memory")]
    Memory,
}

// kept: clauses name the fault that ? makes, and only a From by hand says it
impl From<AllocError> for FrameFault {
    ghost from_gives = { λ _ r. r ≡ Memory };

    fn from(_e: AllocError) -> FrameFault {
        FrameFault::Memory
    }
}

pub fn read_frame(bytes: &[u8]) -> Result<Frame<'_>, FrameFault>
    ensures { frame_read result ≡ unframe bytes.now }
{
    if bytes.len() < 12 {
        return Err(FrameFault::Short);
    }
    if read_u32(bytes, 0) as usize + 4 != bytes.len() {
        return Err(FrameFault::Length);
    }
    let number = read_u64(bytes, 4);
    let (_, call) = bytes.split_at(12);
    Ok(Frame { number, call })
}

// Writes the call's frame behind what is there.
// kept: a frame is bytes, not text
pub fn push_frame(out: &mut Vec<u8>, number: u64, call: &[u8]) -> Result<(), FrameFault>
    ensures { FramePushed result number call.now out.old.items out.new.items }
{
    if call.len() > 0xffff_fff7 {
        return Err(FrameFault::Long);
    }
    let long = 8 + call.len() as u32;
    out.extend_from_slice(&long.to_be_bytes())?;
    out.extend_from_slice(&number.to_be_bytes())?;
    out.extend_from_slice(call)?;
    Ok(())
}
