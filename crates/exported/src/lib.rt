// The tree's calls for C, to measure them from outside (bench/). A C caller is held to no `requires`.
#![tactic(auto)]

ghost use Rattle.std.specs.Prelude.{◌≡◌, ◌≤◌, false, length};
ghost use Rattle.lent_bytes.specs.Paths.{Spells};
ghost use Rattle.cells.specs.Layout.{Holds, state_of};
ghost use Rattle.cells.specs.Fits.{Calm, Fits, Suits};
ghost use Rattle.tree.specs.Answers.{numbered};

use calls::types::{Act, ActKind, Expected};
use cells::held::{Current, Tree};
use doing::do_one;
use drafts::writing::start_blank;
use lent_bytes::counts::Session;
use lent_bytes::paths::Path;
use scan::scanning::scan;
use tree::looking::look;

// How many bytes the first tree takes.
#[unsafe(no_mangle)]
pub extern "C" fn tree_blank(out: &mut [u8], out_places: &mut [u32]) -> usize
    requires room { 28 ≤ length out.old }
    requires more { 1 ≤ length out_places.old }
{
    start_blank(out, out_places).used
}

// How many bytes the next tree takes, or 0 where the act is refused.
fn used_by(current: Current<'_>, act: Act<'_>, out: &mut [u8], places: &mut [u32]) -> usize
    requires suits { Suits current.room out.old places.old }
    requires plain { numbered act.kind ≡ false }
{
    match do_one(current, act, out, places) {
        Ok(size) => size.used,
        Err(_) => 0,
    }
}

// Puts a value; how many bytes the next tree takes, or 0.
// kept: C hands over bytes and places, so what a tree and a path keep is asked of it here
#[unsafe(no_mangle)]
pub extern "C" fn tree_put<'t, 'c>(
    bytes: &'t [u8],
    places: &'t [u32],
    room: u64,
    path: &'c [u8],
    value: &'c [u8],
    out: &mut [u8],
    lent: &mut [u32],
) -> usize
    requires holds { Holds bytes.now places.now }
    requires fits { Fits room (state_of bytes.now places.now) }
    requires calm { Calm (state_of bytes.now places.now) }
    requires suits { Suits room out.old lent.old }
    requires spells { Spells path.now }
{
    let current = Current {
        tree: Tree { bytes, places },
        room,
    };
    let act = Act {
        kind: ActKind::Put(Expected::Any),
        path: Path { names: path },
        value,
    };
    used_by(current, act, out, lent)
}

// Makes an entry; how many bytes the next tree takes, or 0.
// kept: C hands over bytes and places, as above
#[unsafe(no_mangle)]
pub extern "C" fn tree_make<'t, 'c>(
    bytes: &'t [u8],
    places: &'t [u32],
    room: u64,
    path: &'c [u8],
    value: &'c [u8],
    out: &mut [u8],
    lent: &mut [u32],
) -> usize
    requires holds { Holds bytes.now places.now }
    requires fits { Fits room (state_of bytes.now places.now) }
    requires calm { Calm (state_of bytes.now places.now) }
    requires suits { Suits room out.old lent.old }
    requires spells { Spells path.now }
{
    let current = Current {
        tree: Tree { bytes, places },
        room,
    };
    let act = Act {
        kind: ActKind::Make {
            numbered: false,
            session: Session(0),
        },
        path: Path { names: path },
        value,
    };
    used_by(current, act, out, lent)
}

// Looks for an entry; how long its value is, or 2^32.
// kept: C hands over bytes and places, as above
#[unsafe(no_mangle)]
pub extern "C" fn tree_look<'t>(bytes: &'t [u8], places: &'t [u32], path: &[u8]) -> u64
    requires holds { Holds bytes.now places.now }
    requires spells { Spells path.now }
{
    match look(Tree { bytes, places }, Path { names: path }) {
        Ok(seen) => seen.value.len() as u64,
        Err(_) => 4294967296,
    }
}

// Accepts bytes as a tree; how many entries it has, or 2^32.
#[unsafe(no_mangle)]
pub extern "C" fn tree_scan(bytes: &[u8], room: u64, places: &mut [u32]) -> u64 {
    match scan(bytes, room, places) {
        Some(count) => count as u64,
        None => 4294967296,
    }
}
