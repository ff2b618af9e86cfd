// Messages of replicas, with the trees and calls that they carry as parts of bytes.
ghost use Rattle.std.specs.Prelude.{◌≡◌};
ghost use Rattle.wire.specs.Kinds.{kind_number, IsKind};

use agreement::{Joining, Place, ProposalId, View};
use service::outcome::Outcome;

// The kinds of messages, each with the byte that says so.
#[derive(Clone, Copy, PartialEq, Eq)]
pub enum Kind {
    Prepare = 1,
    Promise = 2,
    Propose = 3,
    Alive = 4,
    Accepted = 5,
    Join = 6,
    Forward = 7,
}

impl Kind {
    // The byte that says which kind it is.
    pub fn number(self) -> u8
        ensures { result ≡ kind_number self }
    {
        self as u8
    }
}

// A byte that is no kind's.
#[derive(Clone, Copy, PartialEq, Eq)]
pub struct NoKind(pub u8);

// kept: std has no way from a number to an enum, and the clause says which number is whose
impl TryFrom<u8> for Kind {
    type Error = NoKind;

    ghost try_from_gives = { IsKind };

    fn try_from(number: u8) -> Result<Kind, NoKind> {
        // kept: a number is no step to run, and std has no way from it to an enum
        match number {
            1 => Ok(Kind::Prepare),
            2 => Ok(Kind::Promise),
            3 => Ok(Kind::Propose),
            4 => Ok(Kind::Alive),
            5 => Ok(Kind::Accepted),
            6 => Ok(Kind::Join),
            7 => Ok(Kind::Forward),
            _ => Err(NoKind(number)),
        }
    }
}

// For each replica its place, and what is kept of its last write.
// kept: the machine's definitions have places and outcomes as two lists side by side, and agreement's places are an array.
#[derive(Clone, Copy)]
pub struct Seats {
    pub places: [Place; 7],
    pub outcomes: [Option<Outcome>; 7],
}

// A proposal, with the bytes of its tree.
#[derive(Clone, Copy)]
pub struct Proposal<'a> {
    pub id: ProposalId,
    pub seats: Seats,
    pub tree: &'a [u8],
}

// A call of a replica: which incarnation asks, its number among that one's calls, the client's number, and the bytes of the call.
#[derive(Clone, Copy)]
pub struct Forwarded<'a> {
    pub incarnation: u64,
    pub no: u64,
    pub number: u64,
    pub call: &'a [u8],
}

// What one replica says to another.
#[derive(Clone, Copy)]
pub enum Message<'a> {
    // promise this view to its leader
    Prepare(View),
    // I accept nothing below this view; this is the highest proposal that I hold
    Promise {
        view: View,
        incarnation: u64,
        proposal: Proposal<'a>,
    },
    // accept this; or: this is chosen, hold it
    Propose {
        proposal: Proposal<'a>,
        chosen: bool,
    },
    // I still lead, and what I hold has this id; your place names this incarnation
    Alive {
        id: ProposalId,
        chosen: bool,
        named: u64,
    },
    // I hold this
    Accepted {
        id: ProposalId,
        incarnation: u64,
    },
    // write me in
    Join(Joining),
    // do my call
    Forward(Forwarded<'a>),
}
