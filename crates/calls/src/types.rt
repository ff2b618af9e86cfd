// Calls, with their paths, values and acts as parts of the bytes that they were read from.
ghost use Rattle.std.specs.Prelude.{◌≡◌, [], Some};
ghost use Rattle.calls.specs.Format.{act_at, past};

use lent_bytes::counts::{Session, Version};
use lent_bytes::paths::Path;

// Which version of an entry an act is for.
// kept: a rule of the repository: what is expected is an enum of its own inside an act's kind.
#[derive(Clone, Copy, PartialEq, Eq)]
pub enum Expected {
    Any,
    Exactly(Version),
}

// What an act does to the tree.
#[derive(Clone, Copy)]
pub enum ActKind {
    // numbered: ten digits are put behind the last name; session: the one that the entry goes with, or 0
    Make { numbered: bool, session: Session },
    Put(Expected),
    Drop(Expected),
    Check(Expected),
}

// An act, with its path (the names only, without their number in front) and its value (empty where the kind has none).
#[derive(Clone, Copy)]
pub struct Act<'a> {
    pub kind: ActKind,
    pub path: Path<'a>,
    pub value: &'a [u8],
}

// The bytes of so many acts, and nothing behind them.
#[derive(Clone, Copy)]
pub struct Acts<'a> {
    pub count: u8,
    pub bytes: &'a [u8],
    ghost whole: { past act_at count bytes.now ≡ Some [] },
}

// A call.
#[derive(Clone, Copy)]
pub enum Call<'a> {
    Do(Acts<'a>),
    Look(Path<'a>),
    Kids(Path<'a>),
    Open,
    End(Session),
}
