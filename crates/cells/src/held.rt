// A tree that memory holds: its counts, its sessions, its entries.
ghost use Rattle.std.specs.Prelude.{◌≡◌, ◌+◌, ◌<◌, [], length, IfSome, nat_eq, slice_index, slice_index_or};
ghost use Rattle.model.specs.Tree.{Entry, at, is_kid, some, weight_of};
ghost use Rattle.lent_bytes.specs.Paths.{path_of};
ghost use Rattle.cells.specs.Layout.{cut, entry_of, Holds, prelude_of, state_of};
ghost use Rattle.cells.specs.Searches.{Found};
ghost use Rattle.cells.specs.Fits.{Calm, Fits};
ghost use Rattle.cells.specs.Props.{Fits-prop, Holds-prop};

use crate::cell::Cell;
use crate::prelude::Prelude;
use lent_bytes::counts::{Count, Session};
use lent_bytes::paths::Path;

// A tree: its bytes, and the places where its entries begin, the last where they end.
#[derive(Clone, Copy)]
pub struct Tree<'a> {
    pub bytes: &'a [u8],
    pub places: &'a [u32],
    ghost holds: { Holds bytes.now places.now } by { Holds-prop bytes.now places.now },
}

impl<'a> Tree<'a> {
    ghost use Rattle.cells.specs.Entries.{tree_entries, tree_state};
    ghost use Rattle.cells.specs.Walks.{cells_left};

    // The part of a tree before its entries.
    pub fn prelude(self) -> Prelude<'a>
        ensures value { result.bytes.now ≡ prelude_of self.entry.bytes.now self.entry.places.now }
        ensures len { length result.bytes.now ≡ slice_index self.entry.places.now 0 }
    {
        Prelude {
            bytes: &self.bytes[0..self.places[0] as usize],
        }
    }

    // How many changes a tree has had.
    pub fn changes(self) -> Count
        ensures { result.0 ≡ (tree_state self.entry).changes }
    {
        self.prelude().changes()
    }

    // How many entries were ever made at its top.
    pub fn top(self) -> Count
        ensures { result.0 ≡ (tree_state self.entry).top }
    {
        self.prelude().top()
    }

    // How many sessions are open.
    pub fn session_count(self) -> u32
        ensures { result ≡ length (tree_state self.entry).sessions }
    {
        self.prelude().session_count()
    }

    // Is a session open.
    pub fn is_open(self, session: Session) -> bool
        ensures { result ≡ some (nat_eq session.0) (tree_state self.entry).sessions }
    {
        self.prelude().sessions().any(|open| session.0 == open.0)
    }

    // How many entries there are.
    pub fn len(self) -> usize
        ensures { result + 1 ≡ length self.entry.places.now }
    {
        self.places.len() - 1
    }

    // One entry.
    pub fn cell(self, i: usize) -> Cell<'a>
        requires { i + 1 < length self.places.now }
        ensures cell { result.bytes.now ≡ slice_index_or (cut self.entry.bytes.now self.entry.places.now) i [] }
        ensures len { length result.bytes.now + slice_index self.entry.places.now i ≡ slice_index self.entry.places.now (i + 1) }
        ensures entry { (d : Entry) → slice_index_or (tree_entries self.entry) i d ≡ entry_of result.bytes.now }
    {
        let from = self.places[i] as usize;
        let to = self.places[i + 1] as usize;
        Cell {
            bytes: &self.bytes[from..to],
        }
    }

    // The entries one after the other, in the order of making.
    pub fn cells(self) -> Cells<'a>
        ensures { cells_left result ≡ cut self.entry.bytes.now self.entry.places.now }
    {
        Cells { tree: self, at: 0 }
    }

    // The first entry of that path.
    pub fn find(self, path: Path<'_>) -> Option<usize>
        ensures found { Found (at (path_of path.entry.names.now)) (tree_entries self.entry) result }
        ensures within { IfSome result (λ i. i + 1 < length self.entry.places.now) }
    {
        // kept: the place is named once more, so that an answer that is one off is refused for what it is
        let place = self.cells().position(|cell| cell.is_at(path))?;
        Some(place)
    }

    // Does an entry stand directly under that path.
    pub fn has_kids(self, path: Path<'_>) -> bool
        ensures { result ≡ some (is_kid (path_of path.entry.names.now)) (tree_entries self.entry) }
    {
        self.cells().any(|cell| cell.is_kid(path))
    }

    // What the entries of a tree weigh.
    pub fn weight(self) -> u64
        requires { length self.bytes.now < 4294967296 }
        ensures { result ≡ weight_of (tree_entries self.entry) }
    {
        self.cells()
            .map(|cell| 1280 + cell.value().len() as u64)
            .sum()
    }
}

// The entries of a tree that are still to come.
#[derive(Drop)]
pub struct Cells<'a> {
    tree: Tree<'a>,
    at: usize,
    ghost inside: { at < length tree.places.now },
}

impl<'a> Iterator for Cells<'a> {
    ghost use Rattle.std.specs.Iterator.{item_count, YieldsFirstBy};
    ghost use Rattle.cells.specs.Walks.{bytes_of, cells_left};

    type Item = Cell<'a>;

    ghost next_gives = { YieldsFirstBy bytes_of cells_left };

    ghost remaining = { item_count cells_left };

    fn next(&mut self) -> Option<Cell<'a>> {
        if self.at == self.tree.len() {
            return None;
        }
        let cell = self.tree.cell(self.at);
        self.at += 1;
        Some(cell)
    }
}

// A tree that fits its room, and of which there may be another change.
#[derive(Clone, Copy)]
pub struct Current<'a> {
    pub tree: Tree<'a>,
    pub room: u64,
    ghost fits: { Fits room (state_of tree.bytes.now tree.places.now) } by { Fits-prop room (state_of tree.bytes.now tree.places.now) },
    ghost calm: { Calm (state_of tree.bytes.now tree.places.now) },
}
