// Who counts, and whether those are more than half.
ghost use Rattle.std.specs.Prelude.{◌≡◌, ℕ, ◌*◌, ◌<◌, ◌≤◌, Bool, nat_lt};
ghost use Rattle.runs.specs.Replicas.{how_many};
ghost use Rattle.agreement.specs.Machine.{counts, quorum};
ghost use Rattle.voting.specs.declared.replicas.Replica.{Replica};

use crate::replicas::Replica;
use agreement::Place;

// Did a replica vote by the incarnation that its place names.
pub fn does_count(votes: [Option<u64>; 7], places: [Place; 7], j: Replica) -> bool
    ensures { result ≡ counts votes places j.index }
{
    let j = j.index as usize;
    votes[j] == Some(places[j].incarnation)
}

// Do more than half of all replicas pass a test.
pub fn more_than_half<F: Fn(Replica) -> bool>(all: u8, passes: F) -> bool
    requires few { all ≤ 7 }
    requires callable { F.IsAlwaysCallable passes }
    ensures { (test : ℕ → Bool) → ((j : Replica) (b : Bool) → F.post passes j b → b ≡ test j.index) → result ≡ nat_lt all (2 * how_many all test) }
{
    let mut some: u8 = 0;
    // kept: with `filter` and `count` the closure needs clauses of its own, and their proof did not close.
    for index in 0..all {
        if passes(Replica { index }) {
            some += 1;
        }
    }
    all < 2 * some
}

// Did more than half vote by the incarnations that their places name.
pub fn is_quorum(all: u8, places: [Place; 7], votes: [Option<u64>; 7]) -> bool
    requires { all ≤ 7 }
    ensures { result ≡ quorum all places votes }
{
    more_than_half(all, |j| does_count(votes, places, j))
}
