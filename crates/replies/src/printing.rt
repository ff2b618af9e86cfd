// Refusals and entries in words.
ghost use Rattle.std.specs.Prelude.{◌≡◌, Some};
ghost use Rattle.replies.specs.Answers.{reason_spelled, refused_spelled, entry_spelled};

use crate::reading::{Entry, Refusal};
use spelling::wording::Quoted;
use std::fmt;

// What a refusal's number means.
// kept: the number comes from bytes and is printed itself, also where it is no reason
fn reason(number: u8) -> &'static str
    ensures { result.now ≡ reason_spelled number }
{
    match number {
        1 => "out of range, or no call",
        2 => "is not there",
        3 => "is there",
        4 => "another version",
        5 => "entries are under it",
        6 => "no such session",
        7 => "under an entry that goes with a session",
        8 => "no more of these",
        9 => "no room",
        11 => "eight calls wait here",
        12 => "not built yet",
        _ => "for no reason that is known",
    }
}

// kept: a derive would not state the text
impl fmt::Display for Refusal {
    ghost output = { λ r. Some (refused_spelled r.act r.reason) };

    fn fmt<W: fmt::Write>(&self, f: &mut fmt::Formatter<W>) -> fmt::Result {
        let why = reason(self.reason);
        write!(f, "refused {} at act {}: {why}", self.reason, self.act)
    }
}

// kept: a derive would not state the text
impl fmt::Display for Entry<'_> {
    ghost output = { λ e. Some (entry_spelled e.value.now e.version e.made e.changed e.kids e.session) };

    fn fmt<W: fmt::Write>(&self, f: &mut fmt::Formatter<W>) -> fmt::Result {
        write!(
            f,
            "entry {} version {} made {} changed {} kids {} session {}",
            Quoted(self.value),
            self.version,
            self.made,
            self.changed,
            self.kids,
            self.session,
        )
    }
}
