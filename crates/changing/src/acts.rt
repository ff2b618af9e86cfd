// Acts: each writes the next tree beside the last, or is refused and writes nothing that counts.
ghost use Rattle.std.specs.Prelude.{◌≡◌, ◌+◌, ◌<◌, ◌≤◌, [], length, IfOk};
ghost use Rattle.model.specs.Tree.{acts, Put, Drop, Check};
ghost use Rattle.lent_bytes.specs.Paths.{path_of};
ghost use Rattle.calls.specs.Reading.{expect_of};
ghost use Rattle.cells.specs.Layout.{prelude_of, prelude_with};
ghost use Rattle.cells.specs.Entries.{tree_entries, tree_state};
ghost use Rattle.cells.specs.Drafts.{Drafts, Next};
ghost use Rattle.cells.specs.Fits.{Suits};
ghost use Rattle.tree.specs.Answers.{step_of};
ghost use Rattle.tree.specs.Steps.{counting, weighed};

use calls::types::Expected;
use cells::cell::Head;
use cells::draft::Size;
use cells::held::Tree;
use drafts::writing::{push_cells, push_others, replace, start};
use lent_bytes::counts::{Count, Version};
use lent_bytes::paths::Path;
use tree::base::Base;
use tree::refusal::Refusal;
use tree::seeking::find_expected;
use tree::weighing::has_room;

// The same tree, with these counts.
pub fn copy_all(
    tree: Tree<'_>,
    changes: Count,
    top: Count,
    out: &mut [u8],
    places: &mut [u32],
) -> Size
    requires bytes { length tree.bytes.now ≤ length out.old }
    requires small { length out.old < 4294967296 }
    requires words { length tree.places.now ≤ length places.old }
    ensures next { Next (prelude_with changes.0 top.0 (prelude_of tree.entry.bytes.now tree.entry.places.now)) (tree_entries tree.entry) out.new places.new result }
    ensures used { result.used ≡ length tree.entry.bytes.now }
    ensures count { result.count + 1 ≡ length tree.entry.places.now }
{
    let begun = start(tree, changes, top, out, places);
    push_cells(tree, 0, tree.len(), out, places, begun)
}

// Checks that an entry is there and of a version.
pub fn check(
    base: Base<'_>,
    path: Path<'_>,
    expected: Expected,
    out: &mut [u8],
    places: &mut [u32],
) -> Result<Size, Refusal>
    requires { Suits base.room out.old places.old }
    ensures step { step_of [] result out.new places.new ≡ counting base.entry.changes.0 (weighed base.entry.room (tree_state base.entry.tree) (acts (Check (path_of path.entry.names.now) (expect_of expected)) (tree_state base.entry.tree))) }
    ensures drafts { IfOk result (λ s. Drafts out.new places.new s) }
{
    let tree = base.tree;
    find_expected(tree, path, expected)?;
    Ok(copy_all(tree, base.changes, tree.top(), out, places))
}

// Puts another value in the place of an entry's.
pub fn put(
    base: Base<'_>,
    path: Path<'_>,
    value: &[u8],
    expected: Expected,
    out: &mut [u8],
    places: &mut [u32],
) -> Result<Size, Refusal>
    requires { Suits base.room out.old places.old }
    ensures step { step_of [] result out.new places.new ≡ counting base.entry.changes.0 (weighed base.entry.room (tree_state base.entry.tree) (acts (Put (path_of path.entry.names.now) value.now (expect_of expected)) (tree_state base.entry.tree))) }
    ensures drafts { IfOk result (λ s. Drafts out.new places.new s) }
{
    if value.len() > 65536 {
        return Err(Refusal::OutOfRange);
    }
    let tree = base.tree;
    let i = find_expected(tree, path, expected)?;
    let cell = tree.cell(i);
    let old = cell.head();
    if !has_room(tree, base.room, value.len() as u64, old.value_len as u64) {
        return Err(Refusal::Full);
    }
    let head = Head {
        value_len: value.len() as u32,
        version: Version(old.version.0 + 1),
        changed: Count(tree.changes().0 + 1),
        ..old
    };
    let begun = start(tree, base.changes, tree.top(), out, places);
    Ok(replace(tree, i, head, cell.path(), value, out, places, begun))
}

// Drops an entry that has none under it.
pub fn drop(
    base: Base<'_>,
    path: Path<'_>,
    expected: Expected,
    out: &mut [u8],
    places: &mut [u32],
) -> Result<Size, Refusal>
    requires { Suits base.room out.old places.old }
    ensures step { step_of [] result out.new places.new ≡ counting base.entry.changes.0 (weighed base.entry.room (tree_state base.entry.tree) (acts (Drop (path_of path.entry.names.now) (expect_of expected)) (tree_state base.entry.tree))) }
    ensures drafts { IfOk result (λ s. Drafts out.new places.new s) }
{
    let tree = base.tree;
    find_expected(tree, path, expected)?;
    if tree.has_kids(path) {
        return Err(Refusal::HasKids);
    }
    let begun = start(tree, base.changes, tree.top(), out, places);
    Ok(push_others(tree, path, out, places, begun))
}
