// What is promised of the whole: the statement in specs/; and what is shown of its clerk.
#![tactic(auto)]

ghost use Rattle.promise.specs.Promise.{RefusedChangesNothing};

// What the clerk refuses, 12 too, changes nothing.
pub fn refusals_change_nothing() -> u8
    ensures { RefusedChangesNothing }
{
    0
}
