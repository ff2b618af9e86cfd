// Doing a call that lies in a slot.
ghost use Rattle.std.specs.Prelude.{◌≡◌, ◌<◌, false};
ghost use Rattle.cells.specs.Entries.{tree_state};
ghost use Rattle.cells.specs.Fits.{Calm, Suits};
ghost use Rattle.calls.specs.Screening.{screened};
ghost use Rattle.service.specs.Service.{looks};
ghost use Rattle.memory.specs.Keeps.{slot_at, state_in, Sound, Unmoved};
ghost use Rattle.serving.specs.Doing.{WroteCall, WroteBeside, DidCall};

use cells::draft::Size;
use cells::held::Current;
use doing::do_one;
use memory::lent::{Kept, Memory, Side, TreeRoom};
use memory::trees::{tree, turned};
use memory::waiting::call_at;
use service::asking::{Asked, ask};
use service::outcome::Outcome;
use tree::refusal::Refusal;

// What is kept after a call was done, and what is kept of the call.
#[derive(Clone, Copy)]
pub struct Did {
    pub kept: Kept,
    pub outcome: Outcome,
}

// Does a call that writes, beside the tree that stands.
fn write_call(
    current: Current<'_>,
    call: &[u8],
    out: &mut [u8],
    places: &mut [u32],
) -> Result<Size, Refusal>
    requires suits { Suits current.room out.old places.old }
    requires writes { looks (screened call.now) ≡ false }
    ensures { WroteCall current.entry.room call.now (tree_state current.entry.tree) result out.new places.new }
{
    let asked = ask(call)?;
    match asked {
        Asked::Look(_) | Asked::Kids(_) => unreachable!(),
        Asked::Write(act) => do_one(current, act, out, places),
    }
}

// A room of no bytes, left where another was while that one is written.
fn no_room<'b, 'p>() -> TreeRoom<'b, 'p> {
    TreeRoom {
        bytes: &mut [],
        places: &mut [],
    }
}

// Does the write that lies in a slot, into the room beside the tree that stands.
fn write_beside(kept: Kept, memory: &mut Memory, slot: usize) -> Result<Size, Refusal>
    requires sound { Sound kept memory.old }
    requires there { slot < 15 }
    requires calm { Calm (state_in kept memory.old) }
    requires writes { looks (screened (slot_at kept memory.old slot)) ≡ false }
    ensures wrote { WroteBeside kept memory.old (slot_at kept memory.old slot) result memory.new }
    ensures before { Unmoved kept memory.old memory.new }
{
    // kept: one call may be lent one field of what is behind a &mut: so the room is taken out, and put back
    match kept.stands {
        Side::Left => {
            let TreeRoom { bytes, places } = std::mem::replace(&mut memory.right, no_room());
            let current = Current {
                tree: tree(kept, memory),
                room: kept.room,
            };
            let call = call_at(kept, memory, slot);
            let written = write_call(current, call, bytes, places);
            memory.right = TreeRoom { bytes, places };
            written
        }
        Side::Right => {
            let TreeRoom { bytes, places } = std::mem::replace(&mut memory.left, no_room());
            let current = Current {
                tree: tree(kept, memory),
                room: kept.room,
            };
            let call = call_at(kept, memory, slot);
            let written = write_call(current, call, bytes, places);
            memory.left = TreeRoom { bytes, places };
            written
        }
    }
}

// Does the write that lies in a slot: the tree that it leaves stands from now on, and the one before still lies beside it. What is refused leaves the tree as it is.
pub fn do_call(kept: Kept, memory: &mut Memory, slot: usize) -> Did
    requires sound { Sound kept memory.old }
    requires there { slot < 15 }
    requires calm { Calm (state_in kept memory.old) }
    requires writes { looks (screened (slot_at kept memory.old slot)) ≡ false }
    ensures { DidCall kept memory.old (slot_at kept memory.old slot) result memory.new }
{
    let written = write_beside(kept, memory, slot);
    Did {
        kept: turned(kept, written.ok()),
        outcome: written.map(|_| ()),
    }
}
