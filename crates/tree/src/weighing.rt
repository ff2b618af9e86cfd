// Is there room for what an act adds.
ghost use Rattle.std.specs.Prelude.{◌≡◌, ◌+◌, ◌-◌, ◌<◌, ◌≤◌, not, length};
ghost use Rattle.model.specs.Tree.{weight, weight_of};
ghost use Rattle.cells.specs.Entries.{tree_entries, tree_state};
ghost use Rattle.tree.specs.Steps.{overweight};

use cells::held::Tree;

// May the tree weigh so much more and so much less: it may where that is no more than before, or no more than the room.
pub fn has_room(tree: Tree<'_>, room: u64, added: u64, taken: u64) -> bool
    requires small { length tree.bytes.now < 4294967296 }
    requires fits { weight_of (tree_entries tree) ≤ room }
    requires room { room < 4294967296 }
    requires few { added < 4294967296 }
    requires less { taken ≤ weight (tree_state tree) }
    ensures { result ≡ not (overweight room (weight (tree_state tree.entry)) (weight (tree_state tree.entry) + added - taken)) }
{
    if added <= taken {
        return true;
    }
    let weight = tree.weight() + 16 * tree.session_count() as u64;
    weight + added - taken <= room
}
