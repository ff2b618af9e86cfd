// A turn of a replica, from moves that only say something or change what is by value. Each move is the machine's, on whatever memory there is.
#![tactic(auto)]

pub mod changes;

ghost use Rattle.std.specs.Prelude.{◌≡◌, ◌+◌, ◌<◌, ◌≤◌};
ghost use Rattle.agreement.specs.Machine.{catch_up, tell_all, ask_all, tell_done};
ghost use Rattle.agreement.specs.Machine.{tell as «tell'», forward as «forward'»};
ghost use Rattle.outbox.specs.Deeds.{Below};
ghost use Rattle.turning.specs.Turns.{MovesBy, may_forward};

use agreement::Agreement;
use memory::lent::Kept;
use outbox::{Deed, Outbox, Word};
use voting::replicas::Replica;
use voting::time::is_member;

// A replica: agreement, and what is where in its memory.
#[derive(Clone, Copy)]
pub struct House {
    pub agreement: Agreement,
    pub kept: Kept,
}

// A turn under way: the replica now, and what was done so far.
#[derive(Clone, Copy)]
pub struct Turn {
    pub house: House,
    pub outbox: Outbox,
}

// It is behind: let it promise what I promised.
// kept: whether there is room is known only of some outboxes.
pub fn catch_up(mut turn: Turn, j: u8) -> Turn
    requires { turn.outbox.count < 24 }
    ensures moves { MovesBy (λ room. catch_up j) turn result }
    ensures count { result.outbox.count ≡ turn.outbox.count + 1 }
{
    let word = Word::Prepare(turn.house.agreement.promised);
    turn.outbox.push(Deed::Say { to: j, word });
    turn
}

// A leader speaks to one replica, if that is another.
// kept: whether there is room is known only of some outboxes.
pub fn tell(mut turn: Turn, j: Replica) -> Turn
    requires { turn.outbox.count < 24 }
    ensures moves { MovesBy (λ room. «tell'» j.index) turn result }
    ensures count { result.outbox.count ≤ turn.outbox.count + 1 }
{
    turn.outbox.tell(turn.house.agreement, j);
    turn
}

// A leader speaks to all others.
pub fn tell_all(mut turn: Turn) -> Turn
    requires { (turn.house.agreement.all ≤ 7) × (turn.outbox.count + 7 ≤ 24) }
    ensures moves { MovesBy (λ room. tell_all) turn result }
    ensures count { result.outbox.count ≤ turn.outbox.count + turn.house.agreement.all }
{
    turn.outbox.tell_all(turn.house.agreement);
    turn
}

// A candidate asks all whose promise it does not have.
pub fn ask_all(mut turn: Turn) -> Turn
    requires { (turn.house.agreement.all ≤ 7) × (turn.outbox.count + 7 ≤ 24) }
    ensures moves { MovesBy (λ room. ask_all) turn result }
    ensures count { result.outbox.count ≤ turn.outbox.count + turn.house.agreement.all }
{
    turn.outbox.ask_all(turn.house.agreement);
    turn
}

// The replica whose job it was, if that is another, hears that what is held is chosen.
// kept: whether there is room is known only of some outboxes.
pub fn tell_done(mut turn: Turn) -> Turn
    requires job { Below turn.house.agreement.job }
    requires room { turn.outbox.count < 24 }
    ensures moves { MovesBy (λ room n. tell_done n.agreement.job n) turn result }
    ensures count { result.outbox.count ≤ turn.outbox.count + 1 }
{
    let a = turn.house.agreement;
    turn.outbox.tell_done(a, a.job);
    turn
}

// Does it forward its oldest call: one waits, it is a member, the number fits, and another leads.
fn may_forward(house: House) -> bool
    ensures { result ≡ may_forward house }
{
    let a = house.agreement;
    house.kept.count != 0 && is_member(a.role) && a.no < u64::MAX && a.promised.leader != a.me
}

// The oldest call that waits goes to the replica that leads, if that is another.
// kept: whether there is room is known only of some outboxes.
pub fn forward(mut turn: Turn) -> Turn
    requires first { turn.house.kept.first < 8 }
    requires room { turn.outbox.count < 24 }
    ensures moves { MovesBy (λ room. «forward'») turn result }
    ensures count { result.outbox.count ≤ turn.outbox.count + 1 }
    ensures house { result.house ≡ turn.house }
{
    if !may_forward(turn.house) {
        return turn;
    }
    let a = turn.house.agreement;
    let slot = turn.house.kept.first;
    let word = Word::Forward {
        incarnation: a.incarnation,
        no: a.no + 1,
        number: turn.house.kept.numbers[slot],
        slot,
    };
    turn.outbox.push(Deed::Say {
        to: a.promised.leader,
        word,
    });
    turn
}
