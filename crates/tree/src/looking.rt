// Looking: what the tree tells, and leaves as it is.
ghost use Rattle.std.specs.Prelude.{◌≡◌, ℕ, ◌+◌, ◌-◌, ◌*◌, ◌<◌, ◌≤◌, true, length, take, IfOk};
ghost use Rattle.model.specs.Tree.{does, kid_names, path_ok, Look, Kids};
ghost use Rattle.lent_bytes.specs.Paths.{name_bytes, path_of, Spells};
ghost use Rattle.lent_bytes.specs.Writing.{Added};
ghost use Rattle.model.specs.Tree.{last_name};
ghost use Rattle.cells.specs.Entries.{cell_entry, tree_state};
ghost use Rattle.tree.specs.Looking.{entry_told, names_told, Listable};

use crate::refusal::Refusal;
use cells::cell::{Cell, Head};
use cells::held::Tree;
use lent_bytes::paths::Path;
use lent_bytes::writing::append_bytes;

// What is told of an entry: the value is a part of the tree's bytes.
#[derive(Clone, Copy)]
pub struct Seen<'a> {
    pub head: Head,
    pub value: &'a [u8],
}

// The entry of a path.
pub fn look<'a>(tree: Tree<'a>, path: Path<'_>) -> Result<Seen<'a>, Refusal>
    ensures answer { (room : ℕ) → entry_told result (tree_state tree.entry) ≡ does room (Look (path_of path.entry.names.now)) (tree_state tree.entry) }
    ensures few { IfOk result (λ x. length x.value.now ≤ 65536) }
{
    if !path.is_ok() {
        return Err(Refusal::OutOfRange);
    }
    let i = tree.find(path).ok_or(Refusal::NotThere)?;
    let cell = tree.cell(i);
    Ok(Seen {
        head: cell.head(),
        value: cell.value(),
    })
}

// The last name of a cell's path, as bytes: its length and itself.
fn name_in(cell: Cell<'_>) -> &[u8]
    ensures value { result.now ≡ name_bytes (last_name (cell_entry cell.entry).path) }
    ensures few { length result.now ≤ 65 }
{
    let path = cell.path();
    &path.names[path.last_name()..]
}

// May the entries under a path be told: it is the top, or there.
fn check_listed(tree: Tree<'_>, path: Path<'_>) -> Result<(), Refusal>
    ensures { Listable (path_of path.entry.names.now) (tree_state tree.entry) result }
{
    if path.names.is_empty() {
        return Ok(());
    }
    if !path.is_ok() {
        return Err(Refusal::OutOfRange);
    }
    tree.find(path).ok_or(Refusal::NotThere)?;
    Ok(())
}

// Names that were written, one behind the other: how many, and where they end.
#[derive(Clone, Copy)]
pub struct Listed {
    pub count: usize,
    pub end: usize,
}

// Writes the names of the entries directly under a path, in the order of making.
pub fn kids(tree: Tree<'_>, path: Path<'_>, out: &mut [u8]) -> Result<Listed, Refusal>
    requires { 65 * (length tree.places.now - 1) ≤ length out.old }
    ensures answer { (room : ℕ) → names_told result out.new (tree_state tree.entry) ≡ does room (Kids (path_of path.entry.names.now)) (tree_state tree.entry) }
    ensures spells { IfOk result (λ l. Spells (take l.end out.new)) }
    ensures count { IfOk result (λ l. l.count ≡ length (path_of (take l.end out.new))) }
    ensures inside { IfOk result (λ l. l.end ≤ length out.new) }
    ensures few { IfOk result (λ l. l.count + 1 ≤ length tree.entry.places.now) }
{
    check_listed(tree, path)?;
    let mut listed = Listed { count: 0, end: 0 };
    for cell in tree.cells() {
        if cell.is_kid(path) {
            let end = append_bytes(out, listed.end, name_in(cell));
            listed = Listed {
                count: listed.count + 1,
                end,
            };
        }
    }
    Ok(listed)
}
