// Answers that are of one size, and entries, read from their bytes.
ghost use Rattle.std.specs.Prelude.{◌≡◌};
ghost use Rattle.std.specs.Option.{option_map};
ghost use Rattle.model.specs.Tree.{Session};
ghost use Rattle.calls.specs.Format.{refused_at, entry_at, session_at};
ghost use Rattle.replies.specs.Reading.{refusal_of, entry_of};

use calls::reading::{byte, number, value, wholly};

// What was refused: at which act, and why.
#[derive(Clone, Copy)]
pub(crate) struct Refusal {
    pub act: u8,
    // kept: the number itself is printed too, also one that is no reason
    pub reason: u8,
}

// An entry: its value, and its counts.
#[derive(Clone, Copy)]
pub(crate) struct Entry<'a> {
    pub value: &'a [u8],
    pub version: u64,
    pub made: u64,
    pub changed: u64,
    pub kids: u64,
    pub session: u64,
}

pub(crate) fn read_refusal(bytes: &[u8]) -> Option<Refusal>
    ensures { option_map refusal_of result ≡ refused_at bytes.now }
{
    let (act, rest) = byte(bytes)?;
    let (reason, rest) = byte(rest)?;
    wholly(Refusal { act, reason }, rest)
}

pub(crate) fn read_session(bytes: &[u8]) -> Option<u64>
    ensures { option_map Session result ≡ session_at bytes.now }
{
    let (session, rest) = number(bytes)?;
    wholly(session, rest)
}

pub(crate) fn read_entry(bytes: &[u8]) -> Option<Entry<'_>>
    ensures { option_map entry_of result ≡ entry_at bytes.now }
{
    let (value, rest) = value(bytes)?;
    let (version, rest) = number(rest)?;
    let (made, rest) = number(rest)?;
    let (changed, rest) = number(rest)?;
    let (kids, rest) = number(rest)?;
    let (session, rest) = number(rest)?;
    let entry = Entry {
        value,
        version,
        made,
        changed,
        kids,
        session,
    };
    wholly(entry, rest)
}
