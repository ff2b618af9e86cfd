// One replica alone: its tree lies in one buffer, and the next is written into another, which then is the tree.
#![tactic(auto)]

ghost use Rattle.std.specs.Prelude.{◌≡◌, ◌≤◌, min, true, false, length, take, IfSome, IfOk};
ghost use Rattle.model.specs.Tree.{blank};
ghost use Rattle.content.specs.Content.{is_tree};
ghost use Rattle.service.specs.Answering.{AnsweredBy};
ghost use Rattle.alone.specs.Standing.{stands_for, Roomy, Speaks, Told};
ghost use Rattle.alone.specs.Turning.{used_by, pick};

use cells::draft::Size;
use drafts::writing::start_blank;
use service::clerk::{Answered, answer};
use std::alloc::{AllocError, Global};
use std::mem;

// Memory for a call: for the places of the last tree's entries, for those of the next, and for the answer.
#[derive(Drop)]
struct Desk {
    last: Vec<u32>,
    places: Vec<u32>,
    reply: Vec<u8>,
}

// kept: both buffers are as long from the start as the room wants, so that no call takes memory; a length says how much of one is in use
#[derive(Drop)]
pub struct Alone {
    room: u64,
    // how much of the first buffer is the tree
    used: usize,
    // how long the last answer is
    said: usize,
    tree: Vec<u8>,
    next: Vec<u8>,
    desk: Desk,
    ghost is: { is_tree room (take used tree.items) ≡ true },
    ghost inside: { used ≤ length tree.items },
    ghost first: { Roomy room tree.items desk.last.items },
    ghost second: { Roomy room next.items desk.places.items },
    ghost speaks: { Speaks room said desk.reply.items },
}

// Answers a call from a tree's bytes, in the memory of a desk and what is lent for the next tree.
fn answer_at(
    desk: &mut Desk,
    bytes: &[u8],
    room: u64,
    call: &[u8],
    next: &mut [u8],
) -> Option<Answered>
    ensures answered { AnsweredBy room bytes.now call.now result desk.new.last.items next.new desk.new.places.items desk.new.reply.items }
    ensures long { (length desk.new.last.items ≡ length desk.old.last.items) × (length desk.new.places.items ≡ length desk.old.places.items) × (length desk.new.reply.items ≡ length desk.old.reply.items) }
{
    let Desk {
        last,
        places,
        reply,
    } = desk;
    answer(
        bytes,
        room,
        call,
        last.as_mut_slice(),
        next,
        places.as_mut_slice(),
        reply.as_mut_slice(),
    )
}

impl Alone {
    // Memory for a tree of this room, of 64 MiB at most, with the first tree in it.
    pub fn new(heap: Global, room: u64) -> Result<Alone, AllocError>
        ensures { IfOk result (λ a. (a.room ≡ min room 67108864) × (stands_for a.tree.items a.used ≡ blank)) }
    {
        let room = room.min(67108864);
        let n = room as usize;
        let mut tree = vec![in heap; 0u8; n + 32796]?;
        let mut last = vec![in heap; 0u32; n / 1280 + 2]?;
        let next = vec![in heap; 0u8; n + 32796]?;
        let places = vec![in heap; 0u32; n / 1280 + 2]?;
        let reply = vec![in heap; 0u8; n + 65581]?;
        let size = start_blank(tree.as_mut_slice(), last.as_mut_slice());
        let desk = Desk {
            last,
            places,
            reply,
        };
        Ok(Alone {
            room,
            used: size.used,
            said: 0,
            tree,
            next,
            desk,
        })
    }

    // The tree that was written into the other buffer, if one was, is the tree from now on.
    fn turn(&mut self, size: Option<Size>)
        requires { IfSome size (λ z. (is_tree self.old.room (take z.used self.old.next.items) ≡ true) × (z.used ≤ length self.old.next.items)) }
        ensures tree { (self.new.tree.items ≡ pick self.old.tree.items self.old.next.items size) × (self.new.used ≡ used_by self.old.used size) }
        ensures next { self.new.next.items ≡ pick self.old.next.items self.old.tree.items size }
        ensures kept { (self.new.room ≡ self.old.room) × (self.new.said ≡ self.old.said) × (self.new.desk ≡ self.old.desk) }
    {
        if let Some(size) = size {
            let Alone { tree, next, .. } = self;
            mem::swap(tree, next);
            self.used = size.used;
        }
    }

    // Answers a call, and says whether there is an answer; where no more changes can be counted there is none, the tree is what it was, and nothing is left to be read of the last answer.
    // kept: no clause can say what the replica is afterwards where a part of it is handed out, so the answer is read by reply
    pub fn ask(&mut self, call: &[u8]) -> bool
        ensures room { self.new.room ≡ self.old.room }
        ensures told { Told self.old.room call.now (stands_for self.old.tree.items self.old.used) result (stands_for self.new.tree.items self.new.used) (take self.new.said self.new.desk.reply.items) }
        ensures silent { result ≡ false → self.new.said ≡ 0 }
    {
        let Alone {
            room,
            used,
            tree,
            next,
            desk,
            ..
        } = self;
        let bytes = &tree.as_slice()[..*used];
        let Some(answered) = answer_at(desk, bytes, *room, call, next.as_mut_slice()) else {
            self.said = 0;
            return false;
        };
        self.said = answered.reply;
        self.turn(answered.next);
        true
    }

    // The last answer.
    pub fn reply(&self) -> &[u8]
        ensures { result.now ≡ take self.now.said self.now.desk.reply.items }
    {
        &self.desk.reply.as_slice()[0..self.said]
    }
}
