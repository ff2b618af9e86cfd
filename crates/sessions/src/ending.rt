// Ending a session: it is no longer open, and all that goes with it is dropped.
ghost use Rattle.std.specs.Prelude.{◌≡◌, ◌+◌, ◌-◌, ◌*◌, ◌<◌, ◌≤◌, not, length, IfOk, ◌==◌, slice_index};
ghost use Rattle.model.specs.Tree.{does, keep, End, Entry};
ghost use Rattle.lent_bytes.specs.Numbers.{be32};
ghost use Rattle.lent_bytes.specs.Writing.{Added};
ghost use Rattle.cells.specs.Layout.{sessions_in};
ghost use Rattle.cells.specs.Entries.{tree_entries, tree_state};
ghost use Rattle.cells.specs.Drafts.{Begun, drafting, Drafts, Grown};
ghost use Rattle.cells.specs.Fits.{Fits, Suits};
ghost use Rattle.sessions.specs.Ending.{ended, ended_of, numbers_bytes, others};

use cells::draft::Size;
use cells::held::{Current, Tree};
use cells::prelude::Prelude;
use drafts::writing::push_cell;
use lent_bytes::counts::{Count, Session};
use lent_bytes::writing::{append_u32, append_u64};
use tree::refusal::Refusal;

// How many sessions are open besides one.
fn count_others(prelude: Prelude<'_>, session: Session) -> u32
    ensures count { result ≡ length (others session.0 (sessions_in prelude.entry.bytes.now)) }
    ensures few { result ≤ be32 prelude.entry.bytes.now 24 }
{
    let mut left = prelude.session_count();
    for open in prelude.sessions() {
        if session.0 == open.0 {
            left -= 1;
        }
    }
    left
}

// Writes the sessions that are open besides one.
fn append_others(prelude: Prelude<'_>, session: Session, out: &mut [u8], at: usize) -> usize
    requires { at + 8 * be32 prelude.bytes.now 24 ≤ length out.old }
    ensures end { result ≤ at + 8 * be32 prelude.entry.bytes.now 24 }
    ensures added { Added at out.old (numbers_bytes (others session.0 (sessions_in prelude.entry.bytes.now))) result out.new }
{
    let mut end = at;
    for open in prelude.sessions() {
        if session.0 != open.0 {
            end = append_u64(out, end, open.0);
        }
    }
    end
}

// Begins the next tree, with one session fewer.
fn start_ended(
    tree: Tree<'_>,
    changes: Count,
    session: Session,
    out: &mut [u8],
    places: &mut [u32],
) -> Size
    requires room { slice_index tree.places.now 0 ≤ length out.old }
    requires small { length out.old < 4294967296 }
    requires more { 1 ≤ length places.old }
    ensures begun { Begun (ended changes.0 (tree_state tree.entry).top (tree_state tree.entry).last_session (others session.0 (tree_state tree.entry).sessions)) out.new places.new result }
    ensures used { result.used ≤ slice_index tree.entry.places.now 0 }
{
    let prelude = tree.prelude();
    let a = append_u64(out, 0, changes.0);
    let b = append_u64(out, a, tree.top().0);
    let c = append_u64(out, b, prelude.last_session().0);
    let d = append_u32(out, c, count_others(prelude, session));
    let used = append_others(prelude, session, out, d);
    places[0] = used as u32;
    Size { used, count: 0 }
}

// The entries of a tree that do not go with a session.
fn push_unowned(
    tree: Tree<'_>,
    session: Session,
    out: &mut [u8],
    places: &mut [u32],
    size: Size,
) -> Size
    requires drafts { Drafts out.old places.old size }
    requires room { size.used + length tree.bytes.now ≤ length out.old + slice_index tree.places.now 0 }
    requires small { length out.old < 4294967296 }
    requires more { size.count + length tree.places.now ≤ length places.old }
    ensures { Grown out.old places.old size (keep (λ (e : Entry). not (session.0 == e.owner)) (tree_entries tree.entry)) (result.used - size.used) out.new places.new result }
{
    let mut next = size;
    for cell in tree.cells() {
        if session.0 != cell.head().owner.0 {
            next = push_cell(out, places, next, cell);
        }
    }
    next
}

// Ends a session that is open.
pub fn end(
    current: Current<'_>,
    session: Session,
    out: &mut [u8],
    places: &mut [u32],
) -> Result<Size, Refusal>
    requires { Suits current.room out.old places.old }
    ensures answer { ended_of result out.new places.new (tree_state current.entry.tree) ≡ does current.entry.room (End session.0) (tree_state current.entry.tree) }
    ensures drafts { IfOk result (λ s. Drafts out.new places.new s) }
    ensures fits { IfOk result (λ s. Fits current.entry.room (drafting out.new places.new s)) }
{
    let tree = current.tree;
    if !tree.is_open(session) {
        return Err(Refusal::NoSession);
    }
    let changes = Count(tree.changes().0 + 1);
    let begun = start_ended(tree, changes, session, out, places);
    Ok(push_unowned(tree, session, out, places, begun))
}
