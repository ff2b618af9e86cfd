// Patience: how long a replica waits before it stands, and whom a leader heard.
ghost use Rattle.std.specs.Prelude.{◌≡◌, suc, ◌-◌, ◌*◌, ◌<◌, ◌≤◌, true, false, cond, not, ◌&&◌, ◌||◌, slice_set};
ghost use Rattle.agreement.specs.Content.{limit, seven};
ghost use Rattle.agreement.specs.Machine.{is_leader, is_candidate, is_member, keeping_time, patience_of};
ghost use Rattle.voting.specs.Values.{Able, heard_most_by, ticked_by, may_stand_by};

use crate::quorum::more_than_half;
use crate::replicas::Replica;
use agreement::{Agreement, Role};

// Is it the leader of its view.
// kept: each of the three states one test of the machine; a test over any role would be the derived `==` under another name
pub fn is_leader(role: Role) -> bool
    ensures { result ≡ is_leader role }
{
    role == Role::Leader
}

// Does it stand for its view.
pub fn is_candidate(role: Role) -> bool
    ensures { result ≡ is_candidate role }
{
    role == Role::Candidate
}

// Is it a member, who votes.
pub fn is_member(role: Role) -> bool
    ensures { result ≡ is_member role }
{
    role != Role::Recovering
}

// How many beats it has until it stands: 6 for a leader; for others by how far behind the replica that leads they are.
// kept: agreement's state is by value, of any kind, and only some are able.
pub fn patience_of(a: Agreement) -> u8
    requires { Able a }
    ensures is { result ≡ patience_of a }
    ensures few { result ≤ 18 }
{
    if is_leader(a.role) {
        return 6;
    }
    4 + 2 * ((a.me + 2 * a.all - 1 - a.promised.leader) % a.all)
}

// Its patience as when it began to wait.
// kept: agreement's state is by value, of any kind, and only some are able.
pub fn anew(mut a: Agreement) -> Agreement
    requires { Able a }
    ensures { result ≡ keeping_time (patience_of a) a.heard a }
{
    a.patience = patience_of(a);
    a
}

// Is it a leader that heard more than half.
pub fn heard_most(a: Agreement) -> bool
    requires { a.all ≤ 7 }
    ensures { result ≡ heard_most_by a }
{
    is_leader(a.role) && more_than_half(a.all, |j| j.index == a.me || a.heard[j.index as usize])
}

// A tick: a leader that heard more than half has new patience, and listens anew; patience falls.
// kept: agreement's state is by value, of any kind, and only some are able.
pub fn ticked(mut a: Agreement) -> Agreement
    requires { Able a }
    ensures { result ≡ ticked_by a }
{
    if heard_most(a) {
        a.patience = patience_of(a).saturating_sub(1);
        a.heard = [false; 7];
        return a;
    }
    a.patience = a.patience.saturating_sub(1);
    a
}

// May it stand: it is out of patience, not alone, and the number of its view fits.
pub fn may_stand(a: Agreement) -> bool
    ensures { result ≡ may_stand_by a }
{
    a.patience == 0 && a.all > 1 && a.promised.number < u64::MAX
}

// A replica was heard.
pub fn heard_from(mut a: Agreement, j: Replica) -> Agreement
    ensures { result ≡ keeping_time a.patience (slice_set a.heard j.index true) a }
{
    a.heard[j.index as usize] = true;
    a
}
