// The answer to a call that waits, written behind the answers of this turn.
ghost use Rattle.std.specs.Prelude.{◌≡◌, ◌+◌, ◌<◌, ◌≤◌, length, take, None};
ghost use Rattle.cells.specs.Entries.{tree_state};
ghost use Rattle.cells.specs.Fits.{Fits};
ghost use Rattle.calls.specs.Screening.{screened};
ghost use Rattle.service.specs.Service.{at_once};
ghost use Rattle.memory.specs.Keeps.{slot_at, state_in, Sound, Unmoved};
ghost use Rattle.serving.specs.Replying.{reply_from, IsMachines, SaidAs, SaidBehind, AnsweredAs};

use cells::held::Tree;
use memory::lent::{Kept, Memory};
use memory::trees::tree;
use memory::waiting::call_at;
use service::answering::{say_kids, say_look, say_write};
use service::asking::{Asked, ask};
use service::outcome::Outcome;

// What is said to a call, from a tree and from what was kept of the call.
// kept: a call is taken apart by match
fn say(
    tree: Tree,
    room: u64,
    call: &[u8],
    outcome: Option<Outcome>,
    out: &mut [u8],
) -> Option<usize>
    requires fits { Fits room (tree_state tree) }
    requires waits { at_once (screened call.now) ≡ None }
    requires room { room + 65581 ≤ length out.old }
    requires small { length out.old < 4294967296 }
    ensures { SaidAs (reply_from room call.now (tree_state tree.entry) outcome) out.new result }
{
    let asked = ask(call).ok()?;
    match asked {
        Asked::Look(path) => Some(say_look(tree, path, out)),
        Asked::Kids(path) => Some(say_kids(tree, path, out)),
        Asked::Write(act) => Some(say_write(act, outcome?, out)),
    }
}

// The same, from a place of a buffer on; where it ends.
fn say_behind(
    tree: Tree,
    room: u64,
    call: &[u8],
    outcome: Option<Outcome>,
    at: usize,
    replies: &mut [u8],
) -> Option<usize>
    requires fits { Fits room (tree_state tree) }
    requires waits { at_once (screened call.now) ≡ None }
    requires room { at + (room + 65581) ≤ length replies.old }
    requires small { length replies.old < 4294967296 }
    ensures said { SaidBehind (reply_from room call.now (tree_state tree.entry) outcome) at (room + 65581) replies.new result }
    ensures before { take at replies.new ≡ take at replies.old }
{
    let end = at + room as usize + 65581;
    let part = &mut replies[at..end];
    Some(at + say(tree, room, call, outcome, part)?)
}

// Answers the call in a slot behind the answers of this turn: from the tree that stands if it only looks, else from what was kept of it; nothing is said where nothing was kept.
pub fn answer(
    mut kept: Kept,
    memory: &mut Memory,
    slot: usize,
    outcome: Option<Outcome>,
) -> Option<Kept>
    requires sound { Sound kept memory.old }
    requires there { slot < 15 }
    requires waits { at_once (screened (slot_at kept memory.old slot)) ≡ None }
    requires one { kept.replied ≤ kept.room + 65581 }
    ensures answered { AnsweredAs kept memory.old (reply_from kept.room (slot_at kept memory.old slot) (state_in kept memory.old) outcome) result memory.new }
    ensures before { Unmoved kept memory.old memory.new }
{
    let replies = std::mem::replace(&mut memory.replies, &mut []);
    let from = tree(kept, memory);
    let call = call_at(kept, memory, slot);
    let said = say_behind(from, kept.room, call, outcome, kept.replied, replies);
    memory.replies = replies;
    kept.replied = said?;
    Some(kept)
}

// What is said to a call is what the machine says.
pub fn replies_are_the_machines() -> u8
    ensures { IsMachines }
{
    0
}
