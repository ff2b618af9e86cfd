// Which bytes are let through to the tree.
ghost use Rattle.std.specs.Prelude.{◌≡◌};
ghost use Rattle.model.specs.Tree.{one};
ghost use Rattle.calls.specs.Reading.{acts_in};
ghost use Rattle.calls.specs.Screening.{plain_kind, core_call, front_not_built, screened, screen_of, number_of};

use crate::reading::{read_act, read_call};
use crate::types::{ActKind, Acts, Call};

// Why bytes that a client sent as a call are not let in: they are no call, or of a kind that isn't built yet. Each with the number that is said to it.
#[derive(Clone, Copy, PartialEq, Eq)]
pub enum NotLetIn {
    NoCall = 1,
    NotBuilt = 12,
}

impl NotLetIn {
    // The number that is said to it.
    pub fn number(self) -> u8
        ensures { result ≡ number_of self }
    {
        self as u8
    }
}

// Does the front of the bytes tell that this isn't built.
fn front_not_built(bytes: &[u8]) -> bool
    ensures { result ≡ front_not_built bytes.now }
{
    match bytes {
        [4, ..] | [5, ..] => true,
        [1, count, ..] => *count != 1,
        _ => false,
    }
}

// Is this no numbered making and none for a session.
fn is_plain(kind: ActKind) -> bool
    ensures { result ≡ plain_kind kind }
{
    match kind {
        ActKind::Make { numbered, session } => !numbered && session.0 == 0,
        ActKind::Put(_) | ActKind::Drop(_) | ActKind::Check(_) => true,
    }
}

// Is this one such act.
fn is_one(acts: Acts<'_>) -> bool
    ensures { result ≡ one (acts_in acts.entry.count acts.entry.bytes.now) }
{
    if acts.count != 1 {
        return false;
    }
    // kept: where bytes are no call, the reader's answer is taken apart by let .. else
    let Some((act, _)) = read_act(acts.bytes) else {
        return false;
    };
    is_plain(act.kind)
}

// Is this a call that the tree answers.
fn is_core(call: Call<'_>) -> bool
    ensures { result ≡ core_call call.entry }
{
    match call {
        Call::Do(acts) => is_one(acts),
        Call::Look(_) | Call::Kids(_) => true,
        Call::Open | Call::End(_) => false,
    }
}

// The call that the tree answers, if the bytes are one. What isn't built is told first, then what is no call.
pub fn screen(bytes: &[u8]) -> Result<Call<'_>, NotLetIn>
    ensures { screen_of result ≡ screened bytes.now }
{
    if front_not_built(bytes) {
        return Err(NotLetIn::NotBuilt);
    }
    // kept: where bytes are no call, the reader's answer is taken apart by let .. else
    let Some(call) = read_call(bytes) else {
        return Err(NotLetIn::NoCall);
    };
    if is_core(call) {
        Ok(call)
    } else {
        Err(NotLetIn::NotBuilt)
    }
}
