// Bytes as hexadecimal digits.
ghost use Rattle.std.specs.Prelude.{◌≡◌, ℕ, ◌+◌, ◌^◌, ◌<◌, IfSome};
ghost use Rattle.text.specs.Hex.{hex_digit, hex_value, hex_of, byte_of, unhex, Unhexed};
ghost use Rattle.text.specs.Pushed.{Pushed};
ghost use Rattle.text.specs.declared.hex.HexFault.TheVariants.{Memory};

use std::alloc::{AllocError, AllocFailed, Global};
use thiserror::Error;

// Why a text is no bytes, with the place in it.
#[derive(Clone, Copy, Debug, PartialEq, Eq, Error)]
pub enum HexFault {
    // the last digit has no second one
    #[error("the hexadecimal digit at {0} stands alone")]
    Odd(usize),
    // no hexadecimal digit
    #[error("no hexadecimal digit at {0}")]
    Digit(usize),
    #[error("no memory")]
    Memory,
}

// kept: clauses name the fault that ? makes, and only a From by hand says it
impl<T: Drop> From<AllocFailed<T>> for HexFault {
    ghost from_gives = { λ _ r. r ≡ Memory };

    fn from(_e: AllocFailed<T>) -> HexFault {
        HexFault::Memory
    }
}

pub fn hex_digit(n: u8) -> u8
    requires { n < 16 }
    ensures { result ≡ hex_digit n }
{
    if n < 10 { b'0' + n } else { b'a' + (n - 10) }
}

pub fn hex_value(c: u8) -> Option<u8>
    ensures value { result ≡ hex_value c }
    ensures small { IfSome result (λ v. v < 16) }
{
    match c {
        b'0'..=b'9' => Some(c - b'0'),
        b'a'..=b'f' => Some(c - b'a' + 10),
        b'A'..=b'F' => Some(c - b'A' + 10),
        _ => None,
    }
}

// Writes two digits for each byte behind what is there.
// kept: where `write!` fails, nothing is known of what was there, and the clause says that it stays
pub fn push_hex(out: &mut Vec<u8>, bytes: &[u8]) -> Result<(), AllocError>
    ensures { Pushed result out.old.items out.new.items (hex_of bytes.now) }
{
    for b in bytes {
        out.extend_from_slice(&[hex_digit(*b / 16), hex_digit(*b % 16)])?;
    }
    Ok(())
}

// The byte of two digits, the first of which is at this place.
fn read_byte(at: usize, high: u8, low: u8) -> Result<u8, HexFault>
    requires { at + 1 < 2 ^ 64 }
    ensures { result ≡ byte_of at (hex_value high) (hex_value low) }
{
    let high = hex_value(high).ok_or(HexFault::Digit(at))?;
    let low = hex_value(low).ok_or(HexFault::Digit(at + 1))?;
    Ok(16 * high + low)
}

// The bytes that the digits write.
pub fn read_hex(heap: Global, text: &[u8]) -> Result<Vec<u8>, HexFault>
    ensures { Unhexed result (unhex text.now) }
{
    let (pairs, last) = text.as_chunks::<2>();
    let mut out = Vec::new(heap);
    for (i, [high, low]) in pairs.iter().enumerate() {
        out.push(read_byte(2 * i, *high, *low)?)?;
    }
    if last.is_empty() {
        Ok(out)
    } else {
        Err(HexFault::Odd(text.len() - 1))
    }
}
