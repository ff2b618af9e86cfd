// The next tree, written into lent memory, always at its end.
ghost use Rattle.std.specs.Prelude.{◌≡◌, ◌+◌, ◌-◌, ◌<◌, ◌≤◌, true, not, [], ◌∷◌, length, slice_index};
ghost use Rattle.std.specs.List.{between};
ghost use Rattle.model.specs.Tree.{Entry, at, keep, path_ok, blank};
ghost use Rattle.lent_bytes.specs.Writing.{Added};
ghost use Rattle.lent_bytes.specs.Paths.{path_of};
ghost use Rattle.cells.specs.Layout.{head_bytes, cell_bytes, entry_from, entry_of, prelude_of, prelude_with};
ghost use Rattle.cells.specs.Entries.{tree_entries};
ghost use Rattle.cells.specs.Drafts.{Drafts, Grown, Begun, Next, replaced, drafting};

use cells::cell::{Cell, Head};
use cells::draft::Size;
use cells::held::Tree;
use lent_bytes::counts::Count;
use lent_bytes::paths::Path;
use lent_bytes::writing::{append_bytes, append_u32, append_u64};

fn append_head(out: &mut [u8], at: usize, h: Head) -> usize
    requires { at + 48 ≤ length out.old }
    ensures end { result ≡ at + 48 }
    ensures added { Added at out.old (head_bytes h) result out.new }
{
    let a = append_u32(out, at, h.value_len);
    let b = append_u32(out, a, h.path_len);
    let c = append_u64(out, b, h.version.0);
    let d = append_u64(out, c, h.made.0);
    let e = append_u64(out, d, h.changed.0);
    let f = append_u64(out, e, h.kids.0);
    append_u64(out, f, h.owner.0)
}

// Writes an entry's cell.
fn append_cell(out: &mut [u8], at: usize, h: Head, path: Path<'_>, value: &[u8]) -> usize
    requires { at + 48 + length path.names.now + length value.now ≤ length out.old }
    ensures end { result ≡ at + 48 + length path.entry.names.now + length value.now }
    ensures added { Added at out.old (cell_bytes h path.entry.names.now value.now) result out.new }
{
    let a = append_head(out, at, h);
    let b = append_bytes(out, a, path.names);
    append_bytes(out, b, value)
}

// Begins the next tree: the counts as given, the sessions of the last.
pub fn start(tree: Tree, changes: Count, top: Count, out: &mut [u8], places: &mut [u32]) -> Size
    requires room { slice_index tree.places.now 0 ≤ length out.old }
    requires small { slice_index tree.places.now 0 < 4294967296 }
    requires more { 1 ≤ length places.old }
    ensures begun { Begun (prelude_with changes.0 top.0 (prelude_of tree.entry.bytes.now tree.entry.places.now)) out.new places.new result }
    ensures used { result.used ≡ slice_index tree.entry.places.now 0 }
{
    let prelude = tree.prelude().bytes;
    let a = append_u64(out, 0, changes.0);
    let b = append_u64(out, a, top.0);
    let used = append_bytes(out, b, &prelude[16..]);
    places[0] = used as u32;
    Size { used, count: 0 }
}

// One more entry for the next tree.
pub fn push_entry(
    out: &mut [u8],
    places: &mut [u32],
    size: Size,
    h: Head,
    path: Path<'_>,
    value: &[u8],
) -> Size
    requires drafts { Drafts out.old places.old size }
    requires room { size.used + 48 + length path.names.now + length value.now ≤ length out.old }
    requires small { size.used + 48 + length path.names.now + length value.now < 4294967296 }
    requires more { size.count + 2 ≤ length places.old }
    requires names { h.path_len ≡ length path.names.now }
    requires bytes { h.value_len ≡ length value.now }
    requires few { length value.now ≤ 65536 }
    requires ok { path_ok (path_of path.names.now) ≡ true }
    ensures { Grown out.old places.old size (entry_from h path.entry.names.now value.now ∷ []) (48 + length path.entry.names.now + length value.now) out.new places.new result }
{
    let used = append_cell(out, size.used, h, path, value);
    let count = size.count + 1;
    places[count] = used as u32;
    Size { used, count }
}

// One more entry as it stands in another tree.
pub fn push_cell(out: &mut [u8], places: &mut [u32], size: Size, cell: Cell<'_>) -> Size
    requires drafts { Drafts out.old places.old size }
    requires room { size.used + length cell.bytes.now ≤ length out.old }
    requires small { size.used + length cell.bytes.now < 4294967296 }
    requires more { size.count + 2 ≤ length places.old }
    ensures { Grown out.old places.old size (entry_of cell.entry.bytes.now ∷ []) (length cell.entry.bytes.now) out.new places.new result }
{
    let used = append_bytes(out, size.used, cell.bytes);
    let count = size.count + 1;
    places[count] = used as u32;
    Size { used, count }
}

// The entries from one to another as they stand in another tree.
pub fn push_cells(
    tree: Tree,
    from: usize,
    to: usize,
    out: &mut [u8],
    places: &mut [u32],
    size: Size,
) -> Size
    requires order { from ≤ to }
    requires within { to < length tree.places.now }
    requires drafts { Drafts out.old places.old size }
    requires room { size.used + (slice_index tree.places.now to - slice_index tree.places.now from) ≤ length out.old }
    requires small { length out.old < 4294967296 }
    requires more { size.count + (to - from) + 1 ≤ length places.old }
    ensures { Grown out.old places.old size (between from to (tree_entries tree.entry)) (slice_index tree.entry.places.now to - slice_index tree.entry.places.now from) out.new places.new result }
{
    let mut next = size;
    // kept: the entries are named by their places, from one to another
    for i in from..to {
        next = push_cell(out, places, next, tree.cell(i));
    }
    next
}

// The entries of a tree that are not at a path.
pub fn push_others(
    tree: Tree,
    path: Path<'_>,
    out: &mut [u8],
    places: &mut [u32],
    size: Size,
) -> Size
    requires drafts { Drafts out.old places.old size }
    requires room { size.used + length tree.bytes.now ≤ length out.old + slice_index tree.places.now 0 }
    requires small { length out.old < 4294967296 }
    requires more { size.count + length tree.places.now ≤ length places.old }
    ensures { Grown out.old places.old size (keep (λ (e : Entry). not (at (path_of path.entry.names.now) e)) (tree_entries tree.entry)) (result.used - size.used) out.new places.new result }
{
    let mut next = size;
    for cell in tree.cells() {
        if !cell.is_at(path) {
            next = push_cell(out, places, next, cell);
        }
    }
    next
}

// All entries but one, with another entry in its place.
pub fn replace(
    tree: Tree,
    i: usize,
    head: Head,
    path: Path<'_>,
    value: &[u8],
    out: &mut [u8],
    places: &mut [u32],
    begun: Size,
) -> Size
    requires within { i + 1 < length tree.places.now }
    requires names { head.path_len ≡ length path.names.now }
    requires bytes { head.value_len ≡ length value.now }
    requires few { length value.now ≤ 65536 }
    requires ok { path_ok (path_of path.names.now) ≡ true }
    requires drafts { Drafts out.old places.old begun }
    requires first { begun.used ≡ slice_index tree.places.now 0 }
    requires none { begun.count ≡ 0 }
    requires room { length tree.bytes.now + 48 + length path.names.now + length value.now ≤ length out.old + (slice_index tree.places.now (i + 1) - slice_index tree.places.now i) }
    requires small { length out.old < 4294967296 }
    requires more { length tree.places.now ≤ length places.old }
    ensures grown { Grown out.old places.old begun (replaced i (entry_from head path.entry.names.now value.now) (tree_entries tree.entry)) (result.used - begun.used) out.new places.new result }
    ensures used { result.used + (slice_index tree.entry.places.now (i + 1) - slice_index tree.entry.places.now i) ≡ length tree.entry.bytes.now + 48 + length path.entry.names.now + length value.now }
{
    let before = push_cells(tree, 0, i, out, places, begun);
    let with = push_entry(out, places, before, head, path, value);
    push_cells(tree, i + 1, tree.len(), out, places, with)
}

// The first tree: no change, no entry, no session.
pub fn start_blank(out: &mut [u8], places: &mut [u32]) -> Size
    requires room { 28 ≤ length out.old }
    requires more { 1 ≤ length places.old }
    ensures drafts { Drafts out.new places.new result }
    ensures state { drafting out.new places.new result ≡ blank }
{
    let used = append_bytes(out, 0, &[0; 28]);
    places[0] = used as u32;
    Size { used, count: 0 }
}
