// The ways in which agreement changes, each as the machine has it: a struct by value, changed and handed back.
#![tactic(auto)]

ghost use Rattle.std.specs.Prelude.{◌≡◌, suc, ◌<◌, ◌≤◌, true, false, cond, not, ◌&&◌, ◌||◌, Some, ◌==◌, slice_set};
ghost use Rattle.agreement.specs.declared.Role.TheVariants.{Recovering, Follower, Candidate, Leader};
ghost use Rattle.agreement.specs.Content.{limit, rank_id};
ghost use Rattle.agreement.specs.Machine.{own_vote, own_view, quorum, voting};

use agreement::{Agreement, Place, ProposalId, Role, View};
use voting::order::is_id;
use voting::quorum::is_quorum;
use voting::replicas::Replica;

// A vote of a replica, by this incarnation of it.
#[derive(Clone, Copy, PartialEq, Eq)]
pub struct Vote {
    pub by: Replica,
    pub incarnation: u64,
}

// What is by value of a proposal: its place in the order of all, and the places that it names.
#[derive(Clone, Copy, PartialEq, Eq)]
pub struct Proposed {
    pub id: ProposalId,
    pub places: [Place; 7],
}

// Its own vote, and no other.
pub fn own_vote(a: Agreement) -> [Option<u64>; 7]
    requires { a.me < 7 }
    ensures { result ≡ own_vote a }
{
    let mut votes = [None; 7];
    votes[a.me as usize] = Some(a.incarnation);
    votes
}

// The view that it stands for: its own, above what it promised.
pub fn own_view(a: Agreement) -> View
    requires { suc a.promised.number < limit }
    ensures { result ≡ own_view a }
{
    View {
        number: a.promised.number + 1,
        leader: a.me,
        incarnation: a.incarnation,
    }
}

// It promises a view.
pub fn promising(a: Agreement, promised: View) -> Agreement
    ensures { result ≡ voting Follower promised a.accepted a.chosen a.votes a.places a }
{
    Agreement {
        role: Role::Follower,
        promised,
        ..a
    }
}

// It stands for a view.
pub fn standing(a: Agreement, view: View) -> Agreement
    requires { a.me < 7 }
    ensures { result ≡ voting Candidate view a.accepted a.chosen (own_vote a) a.places a }
{
    Agreement {
        role: Role::Candidate,
        promised: view,
        votes: own_vote(a),
        ..a
    }
}

// It knows that what it holds is chosen.
pub fn learned(a: Agreement) -> Agreement
    ensures { result ≡ voting a.role a.promised a.accepted true a.votes a.places a }
{
    Agreement { chosen: true, ..a }
}

// It has one vote more, and this role.
fn with_vote(a: Agreement, role: Role, vote: Vote) -> Agreement
    ensures { result ≡ voting role a.promised a.accepted a.chosen (slice_set a.votes vote.by.index (Some vote.incarnation)) a.places a }
{
    let mut votes = a.votes;
    votes[vote.by.index as usize] = Some(vote.incarnation);
    Agreement { role, votes, ..a }
}

// A leader counts a vote.
pub fn counted(a: Agreement, vote: Vote) -> Agreement
    ensures { result ≡ voting Leader a.promised a.accepted a.chosen (slice_set a.votes vote.by.index (Some vote.incarnation)) a.places a }
{
    with_vote(a, Role::Leader, vote)
}

// It holds another proposal, which is not known to be chosen.
fn with_proposal(a: Agreement, held: Proposed) -> Agreement
    ensures { result ≡ voting a.role a.promised held.id false a.votes held.places a }
{
    let Proposed { id, places } = held;
    Agreement {
        accepted: id,
        chosen: false,
        places,
        ..a
    }
}

// A leader makes a proposal; alone it sees at once that it is chosen.
pub fn making(a: Agreement, made: Proposed) -> Agreement
    requires { (a.me < 7) × (a.all ≤ 7) }
    ensures { result ≡ voting Leader a.promised made.id (quorum a.all made.places (own_vote a)) (own_vote a) made.places a }
{
    let votes = own_vote(a);
    Agreement {
        role: Role::Leader,
        chosen: is_quorum(a.all, made.places, votes),
        votes,
        ..with_proposal(a, made)
    }
}

// It holds a proposal, which may be what it held, and follows its view; c: it is told that it is chosen. What is known to be chosen stays so.
pub fn holding(a: Agreement, held: Proposed, c: bool) -> Agreement
    requires { (held.id.view.leader < 8) × (a.accepted.view.leader < 8) }
    ensures { result ≡ voting Follower held.id.view held.id (c || ((rank_id held.id) == rank_id a.accepted && a.chosen)) a.votes held.places a }
{
    Agreement {
        role: Role::Follower,
        promised: held.id.view,
        chosen: c || is_id(held.id, a.accepted) && a.chosen,
        ..with_proposal(a, held)
    }
}

// One that recovers keeps a proposal, without a vote.
pub fn keeping(a: Agreement, kept: Proposed) -> Agreement
    ensures { result ≡ voting Recovering a.promised kept.id false a.votes kept.places a }
{
    Agreement {
        role: Role::Recovering,
        ..with_proposal(a, kept)
    }
}

// One that recovers is a member by what it holds, which is chosen.
pub fn entering(a: Agreement) -> Agreement
    ensures { result ≡ voting Follower a.accepted.view a.accepted true a.votes a.places a }
{
    Agreement {
        role: Role::Follower,
        promised: a.accepted.view,
        chosen: true,
        ..a
    }
}

// A candidate got a promise, and holds on to what it holds.
pub fn reported(a: Agreement, promise: Vote) -> Agreement
    ensures { result ≡ voting Candidate a.promised a.accepted a.chosen (slice_set a.votes promise.by.index (Some promise.incarnation)) a.places a }
{
    with_vote(a, Role::Candidate, promise)
}

// A candidate got a promise with a higher proposal: it holds that one, which is not known to be chosen.
pub fn adopting(a: Agreement, promise: Vote, higher: Proposed) -> Agreement
    ensures { result ≡ voting Candidate a.promised higher.id false (slice_set a.votes promise.by.index (Some promise.incarnation)) higher.places a }
{
    with_proposal(reported(a, promise), higher)
}
