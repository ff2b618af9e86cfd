// Opening a session: its number stands behind those that are open.
ghost use Rattle.std.specs.Prelude.{◌≡◌, ◌+◌, ◌<◌, ◌≤◌, length, drop, IfOk, slice_index};
ghost use Rattle.model.specs.Tree.{does, Open};
ghost use Rattle.cells.specs.Layout.{prelude_of};
ghost use Rattle.cells.specs.Entries.{tree_state};
ghost use Rattle.cells.specs.Drafts.{Begun, drafting, Drafts};
ghost use Rattle.cells.specs.Fits.{Fits, Suits};
ghost use Rattle.sessions.specs.Opening.{opened, opened_of};

use cells::draft::Size;
use cells::held::{Current, Tree};
use drafts::writing::push_cells;
use lent_bytes::counts::{Count, Session};
use lent_bytes::writing::{append_bytes, append_u32, append_u64};
use tree::refusal::Refusal;

// The number that was given, and how much the tree with it takes.
#[derive(Clone, Copy)]
pub struct Opened {
    pub session: Session,
    pub size: Size,
}

// Begins the next tree, with one session more.
fn start_opened(
    tree: Tree<'_>,
    changes: Count,
    session: Session,
    out: &mut [u8],
    places: &mut [u32],
) -> Size
    requires few { length (tree_state tree).sessions < 4096 }
    requires room { slice_index tree.places.now 0 + 8 ≤ length out.old }
    requires small { length out.old < 4294967296 }
    requires more { 1 ≤ length places.old }
    ensures begun { Begun (opened changes.0 (tree_state tree.entry).top session.0 (length (tree_state tree.entry).sessions + 1) (drop 28 (prelude_of tree.entry.bytes.now tree.entry.places.now))) out.new places.new result }
    ensures used { result.used ≡ slice_index tree.entry.places.now 0 + 8 }
{
    let prelude = tree.prelude().bytes;
    let a = append_u64(out, 0, changes.0);
    let b = append_u64(out, a, tree.top().0);
    let c = append_u64(out, b, session.0);
    let d = append_u32(out, c, tree.session_count() + 1);
    let e = append_bytes(out, d, &prelude[28..]);
    let used = append_u64(out, e, session.0);
    places[0] = used as u32;
    Size { used, count: 0 }
}

// Opens a session, unless 4,096 are open.
pub fn open(current: Current<'_>, out: &mut [u8], places: &mut [u32]) -> Result<Opened, Refusal>
    requires { Suits current.room out.old places.old }
    ensures answer { opened_of result out.new places.new (tree_state current.entry.tree) ≡ does current.entry.room Open (tree_state current.entry.tree) }
    ensures drafts { IfOk result (λ o. Drafts out.new places.new o.size) }
    ensures fits { IfOk result (λ o. Fits current.entry.room (drafting out.new places.new o.size)) }
{
    let tree = current.tree;
    if tree.session_count() >= 4096 {
        return Err(Refusal::UsedUp);
    }
    let session = Session(tree.prelude().last_session().0 + 1);
    let changes = Count(tree.changes().0 + 1);
    let begun = start_opened(tree, changes, session, out, places);
    let size = push_cells(tree, 0, tree.len(), out, places, begun);
    Ok(Opened { session, size })
}
