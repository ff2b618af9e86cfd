// A tree that is being written into lent memory: what it is so far stands in specs/Drafts.antt.
ghost use Rattle.std.specs.Prelude.{◌≡◌};
ghost use Rattle.cells.specs.Drafts.{Drafts, bytes_in, places_in};

use crate::held::Tree;

// How much of a buffer and of its places the next tree has so far.
#[derive(Clone, Copy)]
pub struct Size {
    pub used: usize,
    pub count: usize,
}

impl Size {
    // The tree that was written: so much of the buffer and of its places.
    pub fn tree_in<'a>(self, bytes: &'a [u8], places: &'a [u32]) -> Tree<'a>
        requires { Drafts bytes.now places.now self }
        ensures bytes { result.bytes.now ≡ bytes_in bytes.now self }
        ensures places { result.places.now ≡ places_in places.now self }
    {
        let end = self.count + 1;
        Tree {
            bytes: &bytes[0..self.used],
            places: &places[0..end],
        }
    }
}
