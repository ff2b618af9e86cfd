// Calls as values: what the words of a script say.
ghost use Rattle.std.specs.Prelude.{◌≡◌};
ghost use Rattle.words.specs.declared.types.Fault.TheVariants as fault;

use calls::types::Expected;
use lent_bytes::counts::Session;
use std::alloc::{AllocError, AllocFailed};
use thiserror::Error;

#[derive(Drop)]
pub struct Name(pub Vec<u8>);

#[derive(Drop)]
pub struct Path(pub Vec<Name>);

#[derive(Drop)]
pub enum Act {
    Make {
        path: Path,
        value: Vec<u8>,
        numbered: bool,
        session: Session,
    },
    Put {
        path: Path,
        value: Vec<u8>,
        expected: Expected,
    },
    Drop {
        path: Path,
        expected: Expected,
    },
    Check {
        path: Path,
        expected: Expected,
    },
}

#[derive(Drop)]
pub enum Call {
    Do(Vec<Act>),
    Look(Path),
    Kids(Path),
    Open,
    End(Session),
}

// What is wrong with a line.
#[derive(Clone, Copy, Debug, PartialEq, Eq, Error)]
pub enum Wrong {
    #[error("no such line, or not said so")]
    Command,
    #[error("no such call")]
    Call,
    #[error("no such call: make, put, drop, check, do, look, kids, open or end is wanted")]
    Act,
    #[error("a number of 64 bits is wanted")]
    Number,
    #[error("houses N is wanted, or houses N room BYTES, with 1 to 7 of them")]
    Houses,
    #[error("a house's number is wanted, from 0 to 6")]
    House,
    #[error("a path is wanted, as /gate/lock")]
    Path,
    #[error("a name has one byte at least")]
    Name,
    #[error("a value in quotes is wanted")]
    Value,
    #[error("behind a backslash only \" \\ n and xHH are known")]
    Escape,
    #[error("acts in braces are wanted, with a ; between them")]
    Braces,
    #[error("something is left over at the line's end")]
    Behind,
    #[error("longer than its length can be written")]
    Long,
}

// Why a line is not read.
// kept: both cases are errors, and no memory is no absence of one
#[derive(Clone, Copy, Debug, PartialEq, Eq, Error)]
pub enum Fault {
    #[error("no memory")]
    Memory,
    #[error(transparent)]
    Wrong(Wrong),
}

// kept: clauses name the fault that ? makes, and only a From by hand says it
impl From<Wrong> for Fault {
    ghost from_gives = { λ w r. r ≡ fault.Wrong w };

    fn from(wrong: Wrong) -> Fault {
        Fault::Wrong(wrong)
    }
}

// kept: clauses name the fault that ? makes, and only a From by hand says it
impl From<AllocError> for Fault {
    ghost from_gives = { λ _ r. r ≡ fault.Memory };

    fn from(_e: AllocError) -> Fault {
        Fault::Memory
    }
}

// kept: clauses name the fault that ? makes, and only a From by hand says it
impl<T: Drop> From<AllocFailed<T>> for Fault {
    ghost from_gives = { λ _ r. r ≡ fault.Memory };

    fn from(_e: AllocFailed<T>) -> Fault {
        Fault::Memory
    }
}
