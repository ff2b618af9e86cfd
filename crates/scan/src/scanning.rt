// Bytes that come from elsewhere: are they a tree that fits a room, and where its entries begin.
ghost use Rattle.std.specs.Prelude.{◌≡◌, ℕ, ◌+◌, ◌<◌, ◌≤◌, length, take, Decides, MatchOption};
ghost use Rattle.lent_bytes.specs.Numbers.{be64};
ghost use Rattle.cells.specs.Layout.{begins_at, Formed, sessions_in};
ghost use Rattle.cells.specs.Entries.{tree_state};
ghost use Rattle.cells.specs.Fits.{rising, Below, Fits};
ghost use Rattle.scan.specs.Scans.{CellsAt, Scanned, HoldsUnique};

use cells::held::Tree;
use cells::prelude::Prelude;
use lent_bytes::numbers::read_u32;
use lent_bytes::paths::check_path;

// How long the cell is with which bytes begin, if they begin with one.
fn cell_len(bytes: &[u8]) -> Option<usize>
    ensures { MatchOption result ((k : ℕ) → k ≤ length bytes.now → Formed (take k bytes.now) → ⊥) (λ n. (48 ≤ n) × (n ≤ length bytes.now) × Formed (take n bytes.now)) }
{
    if bytes.len() < 48 {
        return None;
    }
    let value = read_u32(bytes, 0) as usize;
    let path = read_u32(bytes, 4) as usize;
    if value > 65536 {
        return None;
    }
    let len = 48 + path + value;
    if len > bytes.len() {
        return None;
    }
    if check_path(&bytes[48..48 + path]) {
        Some(len)
    } else {
        None
    }
}

// Finds the places of the cells from a place to the end.
fn scan_cells(bytes: &[u8], from: usize, places: &mut [u32]) -> Option<usize>
    requires within { from ≤ length bytes.now }
    requires begins { from ≡ begins_at bytes.now }
    requires small { length bytes.now < 4294967296 }
    requires some { 0 < length places.old }
    ensures { CellsAt bytes.now places.new result }
{
    let mut at = from;
    let mut count = 0;
    places[0] = from as u32;
    // kept: how far a cell goes is read from the bytes, so there is nothing to go over by one
    while at < bytes.len() {
        at += cell_len(&bytes[at..])?;
        count += 1;
        if count >= places.len() {
            return None;
        }
        places[count] = at as u32;
    }
    Some(count)
}

// Where entries begin, if bytes go so far.
fn entries_begin(bytes: &[u8]) -> Option<usize>
    ensures { MatchOption result (length bytes.now < begins_at bytes.now) (λ n. (n ≡ begins_at bytes.now) × (n ≤ length bytes.now)) }
{
    if bytes.len() < 28 {
        return None;
    }
    let begin = 28 + 8 * read_u32(bytes, 24) as usize;
    if begin > bytes.len() {
        return None;
    }
    Some(begin)
}

// Do sessions rise, from above 0 to the last that was opened.
fn sessions_rise(prelude: Prelude<'_>) -> bool
    ensures { result ≡ rising 0 (sessions_in prelude.entry.bytes.now) (be64 prelude.entry.bytes.now 16) }
{
    let last = prelude.last_session().0;
    let mut low = 0u64;
    for session in prelude.sessions() {
        if session.0 <= low {
            return false;
        }
        low = session.0;
    }
    low <= last
}

// Are all counts of a tree at most so high.
fn counts_below(tree: Tree<'_>, limit: u64) -> bool
    ensures { Decides result (Below limit (tree_state tree.entry)) }
{
    if tree.top().0 > limit {
        return false;
    }
    tree.cells().all(|cell| {
        let head = cell.head();
        head.version.0 <= limit && head.kids.0 <= limit
    })
}

// Does a tree fit a room.
pub fn fits_room(tree: Tree<'_>, room: u64) -> bool
    requires { length tree.bytes.now < 4294967296 }
    ensures { Decides result (Fits room (tree_state tree.entry)) }
{
    let changes = tree.changes().0;
    if changes > 72057594037927936 {
        return false;
    }
    if tree.session_count() > 4096 {
        return false;
    }
    let prelude = tree.prelude();
    if prelude.last_session().0 > changes {
        return false;
    }
    if !sessions_rise(prelude) {
        return false;
    }
    if tree.weight() > room {
        return false;
    }
    counts_below(tree, 64 * changes)
}

// Accepts bytes as a tree that fits a room, and finds the places of its entries; or says that they are none.
pub fn scan(bytes: &[u8], room: u64, places: &mut [u32]) -> Option<usize>
    ensures { Scanned room bytes.now places.new result }
{
    if bytes.len() > 4294967295 {
        return None;
    }
    if places.is_empty() {
        return None;
    }
    let begin = entries_begin(bytes)?;
    let count = scan_cells(bytes, begin, places)?;
    let tree = Tree {
        bytes,
        places: &places[0..count + 1],
    };
    if fits_room(tree, room) {
        Some(count)
    } else {
        None
    }
}

// One run of bytes has one meaning: places that hold it are those that it has.
pub fn holds_unique() -> u8
    ensures { HoldsUnique }
{
    0
}
