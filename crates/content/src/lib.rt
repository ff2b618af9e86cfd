// Bytes from elsewhere as a tree: a test that can be computed, and what it is that they mean.
#![tactic(auto)]

ghost use Rattle.std.specs.Prelude.{◌+◌, ◌/◌, ◌<◌, ◌≤◌, length};
ghost use Rattle.content.specs.Content.{Accepted, TreeDecided};

use scan::scanning::scan;

// Accepts bytes as a tree that fits a room, and finds the places of its entries: in memory that suits the room it says no to nothing else.
pub fn accept(bytes: &[u8], room: u64, places: &mut [u32]) -> Option<usize>
    requires words { room / 1280 + 1 ≤ length places.old }
    requires small { room + 32796 < 4294967296 }
    ensures { Accepted room bytes.now places.new result }
{
    scan(bytes, room, places)
}

// The computed test is the same as being a tree that fits.
pub fn tree_decided() -> u8
    ensures { TreeDecided }
{
    0
}
