// The order of views, and of proposals: as that of the numbers that the machine compares.
#![tactic(auto, unfolding(agreement::specs::Content::rank))]

ghost use Rattle.std.specs.Prelude.{◌≡◌, ◌<◌, ◌==◌, nat_lt};
ghost use Rattle.agreement.specs.Content.{rank, rank_id};

use agreement::{ProposalId, View};

// Is a view below another.
pub fn is_below(a: View, b: View) -> bool
    requires { (a.leader < 8) × (b.leader < 8) }
    ensures { result ≡ nat_lt (rank a) (rank b) }
{
    a < b
}

// Are two views the same.
pub fn is_same(a: View, b: View) -> bool
    requires { (a.leader < 8) × (b.leader < 8) }
    ensures { result ≡ (rank a == rank b) }
{
    a == b
}

// Is a proposal below another.
pub fn is_lower(p: ProposalId, q: ProposalId) -> bool
    requires { (p.view.leader < 8) × (q.view.leader < 8) }
    ensures { result ≡ nat_lt (rank_id p) (rank_id q) }
{
    p < q
}

// Are two proposals the same.
pub fn is_id(p: ProposalId, q: ProposalId) -> bool
    requires { (p.view.leader < 8) × (q.view.leader < 8) }
    ensures { result ≡ (rank_id p == rank_id q) }
{
    p == q
}
