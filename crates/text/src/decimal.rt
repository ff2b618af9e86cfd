// Numbers of 64 bits as decimal digits.
ghost use Rattle.std.specs.Prelude.{◌≡◌, decimal as digits};
ghost use Rattle.text.specs.Decimal.{undecimal};
ghost use Rattle.text.specs.Pushed.{Pushed};

use std::alloc::{AllocError, Global};
use thiserror::Error;

// Why a text is no number, with the place in it.
#[derive(Clone, Copy, Debug, PartialEq, Eq, Error)]
pub enum DecimalFault {
    #[error("no number")]
    Empty,
    // no decimal digit
    #[error("no decimal digit at {0} of the number")]
    Digit(usize),
    // 2^64 or more
    #[error("a number of more than 64 bits")]
    Large,
}

// Writes the number's digits behind what is there.
// kept: where `write!` fails, nothing is known of what was there, and the clause says that it stays
pub fn push_decimal(heap: Global, out: &mut Vec<u8>, n: u64) -> Result<(), AllocError>
    ensures { Pushed result out.old.items out.new.items (digits n) }
{
    let text = n.to_string(heap)?;
    out.extend_from_slice(text.as_bytes())
}

// The number that the digits write.
pub fn read_decimal(text: &[u8]) -> Result<u64, DecimalFault>
    ensures { result ≡ undecimal text.now }
{
    if text.is_empty() {
        return Err(DecimalFault::Empty);
    }
    let mut n: u64 = 0;
    for (i, c) in text.iter().enumerate() {
        if !c.is_ascii_digit() {
            return Err(DecimalFault::Digit(i));
        }
        let digit = (*c - b'0') as u64;
        if n > (u64::MAX - digit) / 10 {
            return Err(DecimalFault::Large);
        }
        n = 10 * n + digit;
    }
    Ok(n)
}
