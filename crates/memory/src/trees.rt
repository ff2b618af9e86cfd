// The tree that stands, and the next beside it.
ghost use Rattle.std.specs.Prelude.{◌≡◌, length};
ghost use Rattle.cells.specs.Fits.{Suits};
ghost use Rattle.service.specs.Service.{is_calm};
ghost use Rattle.memory.specs.Keeps.{standing, state_in, Stands, Sound, HeldAs, TakenTo, TakenBeside, AcceptedAs, Unmoved, turned_to};

use crate::lent::{Kept, Memory, Side, TreeRoom};
use cells::draft::Size;
use cells::held::Tree;
use lent_bytes::writing::append_bytes;

// The tree that stands.
pub fn tree<'b>(kept: Kept, memory: &'b Memory) -> Tree<'b>
    requires { Stands kept.room (standing kept memory.now) }
    ensures { HeldAs kept.room (state_in kept memory.now) result.bytes.now result.places.now }
{
    match kept.stands {
        Side::Left => kept.size.tree_in(memory.left.bytes, memory.left.places),
        Side::Right => kept.size.tree_in(memory.right.bytes, memory.right.places),
    }
}

// May there be another change of the tree that stands.
pub fn is_calm(kept: Kept, memory: &Memory) -> bool
    requires { Sound kept memory.now }
    ensures { result ≡ is_calm (state_in kept memory.now) }
{
    doing::is_calm(tree(kept, memory))
}

// Takes bytes over to a room, if they are a tree that fits.
fn take_tree(body: &[u8], room: u64, next: &mut TreeRoom) -> Option<Size>
    requires { Suits room next.old.bytes.now next.old.places.now }
    ensures taken { TakenTo room body.now next.new.bytes.now next.new.places.now result }
    ensures bytes { length next.new.bytes.now ≡ length next.old.bytes.now }
    ensures places { length next.new.places.now ≡ length next.old.places.now }
{
    let count = content::accept(body, room, next.places)?;
    let used = append_bytes(next.bytes, 0, body);
    Some(Size { used, count })
}

// The tree that was written beside the one that stands, if one was, stands from now on.
pub fn turned(kept: Kept, next: Option<Size>) -> Kept
    ensures { result ≡ turned_to next kept }
{
    match next {
        Some(size) => Kept {
            stands: kept.stands.other(),
            size,
            ..kept
        },
        None => kept,
    }
}

// Takes bytes over to the room in which no tree stands, if they are a tree that fits.
fn take_beside(kept: Kept, memory: &mut Memory, body: &[u8]) -> Option<Size>
    requires { Sound kept memory.old }
    ensures taken { TakenBeside kept body.now memory.new result }
    ensures before { Unmoved kept memory.old memory.new }
{
    match kept.stands {
        Side::Left => take_tree(body, kept.room, &mut memory.right),
        Side::Right => take_tree(body, kept.room, &mut memory.left),
    }
}

// Bytes that are a tree that fits the room stand from now on; the tree before still lies beside them.
pub fn accept(kept: Kept, memory: &mut Memory, body: &[u8]) -> Option<Kept>
    requires { Sound kept memory.old }
    ensures accepted { AcceptedAs kept memory.old body.now result memory.new }
    ensures before { Unmoved kept memory.old memory.new }
{
    let size = take_beside(kept, memory, body)?;
    Some(turned(kept, Some(size)))
}
