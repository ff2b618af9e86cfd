// Making entries: what refuses it, and the tree with one entry more.
#![tactic(auto)]

ghost use Rattle.std.specs.Prelude.{◌≡◌, ◌+◌, ◌<◌, ◌≤◌, true, false, not, ◌&&◌, [], ◌∷◌, length, is_some, IfSome, IfOk, ◌==◌, nat_eq, slice_index_or};
ghost use Rattle.std.specs.List.{AllByRecursion};
ghost use Rattle.model.specs.Tree.{above, acts, at, none, path_ok, some, Make};
ghost use Rattle.lent_bytes.specs.Paths.{path_of};
ghost use Rattle.cells.specs.Layout.{entry_from, entry_of, prelude_of, prelude_with};
ghost use Rattle.cells.specs.Entries.{tree_entries, tree_state};
ghost use Rattle.cells.specs.Drafts.{drafting, Drafts, Next, replaced};
ghost use Rattle.cells.specs.Fits.{CountsTo, Suits};
ghost use Rattle.cells.specs.Searches.{Found};
ghost use Rattle.tree.specs.Answers.{step_of};
ghost use Rattle.making.specs.Making.{Above, Hindered, kid_made, with_made};
ghost use Rattle.tree.specs.Steps.{at_count, counting, weighed};

use cells::cell::Head;
use cells::draft::Size;
use cells::held::Tree;
use changing::acts::copy_all;
use drafts::writing::{push_entry, replace, start};
use lent_bytes::counts::{Count, Session, Version};
use lent_bytes::paths::Path;
use tree::base::Base;
use tree::refusal::Refusal;
use tree::weighing::has_room;

// The entry under which a path is; none at the top.
fn find_above(tree: Tree<'_>, path: Path<'_>) -> Result<Option<usize>, Refusal>
    requires some { 0 < length path.names.now }
    ensures above { Above (path_of path.entry.names.now) (tree_state tree.entry) result }
    ensures within { IfOk result (λ o. IfSome o (λ i. i + 1 < length tree.entry.places.now)) }
{
    let n = path.last_name();
    if n == 0 {
        return Ok(None);
    }
    let above = Path {
        names: &path.names[0..n],
    };
    let i = tree.find(above).ok_or(Refusal::NotThere)?;
    Ok(Some(i))
}

// May an entry go with that session: it is none, or open.
fn may_own(tree: Tree<'_>, session: Session) -> bool
    ensures { result ≡ not (not (session.0 == 0) && not (some (nat_eq session.0) (tree_state tree.entry).sessions)) }
{
    session.0 == 0 || tree.is_open(session)
}

// Is nothing in the way of a making: the path isn't there, the session is open, what is above goes with none.
fn check_free(
    tree: Tree<'_>,
    path: Path<'_>,
    session: Session,
    parent: Option<usize>,
) -> Result<(), Refusal>
    requires above { Found (at (above (path_of path.names.now))) (tree_entries tree) parent }
    requires within { IfSome parent (λ i. i + 1 < length tree.places.now) }
    ensures { Hindered (path_of path.entry.names.now) session.0 (tree_state tree.entry) result }
{
    if tree.find(path).is_some() {
        return Err(Refusal::AlreadyThere);
    }
    if !may_own(tree, session) {
        return Err(Refusal::NoSession);
    }
    match parent {
        None => Ok(()),
        Some(i) => {
            if tree.cell(i).head().owner.0 == 0 {
                Ok(())
            } else {
                Err(Refusal::UnderSession)
            }
        }
    }
}

// The same tree, with one entry more counted under one of its entries.
fn count_kid(tree: Tree<'_>, i: usize, changes: Count, out: &mut [u8], places: &mut [u32]) -> Size
    requires within { i + 1 < length tree.places.now }
    requires counts { AllByRecursion (CountsTo 18446744073709551614) (tree_entries tree) }
    requires bytes { length tree.bytes.now ≤ length out.old }
    requires small { length out.old < 4294967296 }
    requires words { length tree.places.now ≤ length places.old }
    ensures next { Next (prelude_with changes.0 (tree_state tree.entry).top (prelude_of tree.entry.bytes.now tree.entry.places.now)) (replaced i (kid_made (slice_index_or (tree_entries tree.entry) i (entry_of []))) (tree_entries tree.entry)) out.new places.new result }
    ensures used { result.used ≡ length tree.entry.bytes.now }
    ensures count { result.count + 1 ≡ length tree.entry.places.now }
{
    let cell = tree.cell(i);
    let old = cell.head();
    let head = Head {
        kids: Count(old.kids.0 + 1),
        ..old
    };
    let begun = start(tree, changes, tree.top(), out, places);
    replace(tree, i, head, cell.path(), cell.value(), out, places, begun)
}

// The tree with one entry more, counted under the one above it.
fn write_made(
    tree: Tree<'_>,
    parent: Option<usize>,
    head: Head,
    path: Path<'_>,
    value: &[u8],
    changes: Count,
    out: &mut [u8],
    places: &mut [u32],
) -> Size
    requires ok { path_ok (path_of path.names.now) ≡ true }
    requires names { head.path_len ≡ length path.names.now }
    requires values { head.value_len ≡ length value.now }
    requires few { length value.now ≤ 65536 }
    requires above { Found (at (above (path_of path.names.now))) (tree_entries tree) parent }
    requires top { is_some parent ≡ not (none (above (path_of path.names.now))) }
    requires within { IfSome parent (λ i. i + 1 < length tree.places.now) }
    requires counts { AllByRecursion (CountsTo 18446744073709551614) (tree_entries tree) }
    requires tops { (tree_state tree).top ≤ 18446744073709551614 }
    requires bytes { length tree.bytes.now + 48 + length path.names.now + length value.now ≤ length out.old }
    requires small { length out.old < 4294967296 }
    requires words { length tree.places.now + 1 ≤ length places.old }
    ensures state { drafting out.new places.new result ≡ at_count changes.0 (with_made (path_of path.entry.names.now) (entry_from head path.entry.names.now value.now) (tree_state tree.entry)) }
    ensures drafts { Drafts out.new places.new result }
{
    match parent {
        None => {
            let top = Count(tree.top().0 + 1);
            let size = copy_all(tree, changes, top, out, places);
            push_entry(out, places, size, head, path, value)
        }
        Some(i) => {
            let size = count_kid(tree, i, changes, out, places);
            push_entry(out, places, size, head, path, value)
        }
    }
}

// Makes an entry.
pub fn make(
    base: Base<'_>,
    path: Path<'_>,
    value: &[u8],
    session: Session,
    out: &mut [u8],
    places: &mut [u32],
) -> Result<Size, Refusal>
    requires { Suits base.room out.old places.old }
    ensures step { step_of (path_of path.entry.names.now ∷ []) result out.new places.new ≡ counting base.entry.changes.0 (weighed base.entry.room (tree_state base.entry.tree) (acts (Make (path_of path.entry.names.now) value.now false session.0) (tree_state base.entry.tree))) }
    ensures drafts { IfOk result (λ s. Drafts out.new places.new s) }
{
    if value.len() > 65536 {
        return Err(Refusal::OutOfRange);
    }
    if !path.is_ok() {
        return Err(Refusal::OutOfRange);
    }
    let tree = base.tree;
    let parent = find_above(tree, path)?;
    check_free(tree, path, session, parent)?;
    if !has_room(tree, base.room, 1280 + value.len() as u64, 0) {
        return Err(Refusal::Full);
    }
    let count = Count(tree.changes().0 + 1);
    let head = Head {
        value_len: value.len() as u32,
        path_len: path.names.len() as u32,
        version: Version(0),
        made: count,
        changed: count,
        kids: Count(0),
        owner: session,
    };
    Ok(write_made(tree, parent, head, path, value, base.changes, out, places))
}
