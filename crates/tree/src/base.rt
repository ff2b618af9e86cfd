// What an act is done to.
ghost use Rattle.cells.specs.Layout.{state_of};
ghost use Rattle.tree.specs.Steps.{Ready};
ghost use Rattle.tree.specs.Props.{Ready-prop};

use cells::held::Tree;
use lent_bytes::counts::Count;

// The tree before an act, its room, and the count of changes that is written with the tree afterwards.
#[derive(Clone, Copy)]
pub struct Base<'a> {
    pub tree: Tree<'a>,
    pub room: u64,
    pub changes: Count,
    ghost ready: { Ready room (state_of tree.bytes.now tree.places.now) } by { Ready-prop room (state_of tree.bytes.now tree.places.now) },
}
