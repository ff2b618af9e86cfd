// Moves that say nothing: agreement changes, and what is held stays.
ghost use Rattle.std.specs.Prelude.{◌≡◌, ◌<◌, ◌≤◌};
ghost use Rattle.agreement.specs.Machine.{still, learned as «learned'», anew as «anew'», ticks, heard_from};
ghost use Rattle.voting.specs.Values.{Able};
ghost use Rattle.turning.specs.Turns.{MovesBy};

use crate::Turn;
use voting::replicas::Replica;
use voting::time;

// It knows that what it holds is chosen.
pub fn learned(mut turn: Turn) -> Turn
    ensures { MovesBy (λ room n. still («learned'» n)) turn result }
{
    turn.house.agreement = recast::learned(turn.house.agreement);
    turn
}

// Its patience is as when it began to wait.
pub fn anew(mut turn: Turn) -> Turn
    requires { Able turn.house.agreement }
    ensures { MovesBy (λ room n. still («anew'» n)) turn result }
{
    turn.house.agreement = time::anew(turn.house.agreement);
    turn
}

// A tick.
pub fn ticked(mut turn: Turn) -> Turn
    requires { Able turn.house.agreement }
    ensures { MovesBy (λ room n. still (ticks n)) turn result }
{
    turn.house.agreement = time::ticked(turn.house.agreement);
    turn
}

// A replica was heard.
pub fn heard_from(mut turn: Turn, j: Replica) -> Turn
    ensures { MovesBy (λ room n. still (heard_from j.index n)) turn result }
{
    turn.house.agreement = time::heard_from(turn.house.agreement, j);
    turn
}
