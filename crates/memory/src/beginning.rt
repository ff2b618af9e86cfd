// Memory as it is lent, whatever lies in it: the first tree, and nothing that waits.
ghost use Rattle.std.specs.Prelude.{◌≡◌, ℕ, ◌<◌, ◌≤◌, length, Decides, slice_index};
ghost use Rattle.memory.specs.Keeps.{Lent, LentCalls, Answering, BegunAs};

use crate::lent::{Kept, Memory, Side};
use drafts::writing::start_blank;
use service::clerk::suits_tree;

// Is there room for two answers.
fn suits_answers(room: u64, replies: &[u8]) -> bool
    ensures { Decides result (Answering room replies.now) }
{
    if replies.len() > 4294967295 || room > 4294967295 {
        return false;
    }
    2 * (room as usize + 65581) <= replies.len()
}

// Are there fifteen slots for calls.
fn suits_calls(calls: &[u8], ends: &[u32]) -> bool
    ensures { Decides result (LentCalls calls.now ends.now) }
{
    ends.len() >= 15 && calls.len() >= 999090 && calls.len() < 4294967296
}

// Is the lent memory long enough for the room.
fn suits(room: u64, memory: &Memory) -> bool
    ensures { Decides result (Lent room memory.now) }
{
    suits_tree(room, memory.left.bytes, memory.left.places)
        && suits_tree(room, memory.right.bytes, memory.right.places)
        && suits_calls(memory.calls, memory.ends)
        && suits_answers(room, memory.replies)
}

// No call lies in any slot.
fn clear(ends: &mut [u32])
    requires { 15 ≤ length ends.old }
    ensures { (k : ℕ) → k < 15 → slice_index ends.new k ≡ 0 }
{
    ends[..15].fill(0);
}

// What is where in memory as it was lent: the first tree stands, and nothing waits. Nothing where the memory is too short for the room.
pub fn begin(room: u64, memory: &mut Memory) -> Option<Kept>
    ensures { BegunAs room memory.old result memory.new }
{
    if !suits(room, memory) {
        return None;
    }
    // kept: one call may be lent one field of what is behind a &mut: so the places are taken out, and put back
    let places = std::mem::replace(&mut memory.left.places, &mut []);
    let size = start_blank(memory.left.bytes, places);
    memory.left.places = places;
    clear(memory.ends);
    Some(Kept {
        room,
        slot: memory.calls.len() / 15,
        stands: Side::Left,
        size,
        outcomes: [None; 7],
        first: 0,
        count: 0,
        numbers: [0; 8],
        queue: [None; 7],
        replied: 0,
    })
}
