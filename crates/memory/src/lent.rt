// The memory that is lent to a replica, and what is where in it.
ghost use Rattle.std.specs.Prelude.{◌≡◌};
ghost use Rattle.memory.specs.Rooms.{other_side};

use cells::draft::Size;
use service::outcome::Outcome;

// A buffer for a tree, and one for the places of its entries.
#[derive(Drop)]
pub struct TreeRoom<'b, 'p> {
    pub bytes: &'b mut [u8],
    pub places: &'p mut [u32],
}

// The memory: two rooms for trees, calls in fifteen slots of equal size with how long each is, the answers of this turn.
pub struct Memory<'l, 'r, 'p, 'q, 'c, 'e, 'a> {
    pub left: TreeRoom<'l, 'p>,
    pub right: TreeRoom<'r, 'q>,
    pub calls: &'c mut [u8],
    pub ends: &'e mut [u32],
    pub replies: &'a mut [u8],
}

// The room in which the tree stands; the next is written into the other.
#[derive(Clone, Copy, PartialEq, Eq)]
pub enum Side {
    Left,
    Right,
}

impl Side {
    // The room beside it.
    // kept: std turns no enum of two cases over, and a bool would say less than their names
    pub fn other(self) -> Side
        ensures { result ≡ other_side self }
    {
        match self {
            Side::Left => Side::Right,
            Side::Right => Side::Left,
        }
    }
}

// A call that a replica forwarded: by which incarnation, its number there, and its client's number.
#[derive(Clone, Copy)]
pub struct Queued {
    pub incarnation: u64,
    pub no: u64,
    pub number: u64,
}

// What is where: the bytes of a slot, in which room the tree stands and how much of it the tree takes, what is kept of the last write of each replica,
// the ring of calls that wait (from `first` on, `count` of them, with their clients' numbers), what was forwarded by each replica, and where the answers end.
// kept: fixed memory, with no heap in a turn: ring, queue and outcomes are arrays of fixed length.
#[derive(Clone, Copy)]
pub struct Kept {
    pub room: u64,
    pub slot: usize,
    pub stands: Side,
    pub size: Size,
    pub outcomes: [Option<Outcome>; 7],
    pub first: usize,
    pub count: usize,
    pub numbers: [u64; 8],
    pub queue: [Option<Queued>; 7],
    pub replied: usize,
}
