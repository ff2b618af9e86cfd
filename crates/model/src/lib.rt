// The tree's meaning: what each call answers and leaves (specs/Tree.antt), and the laws that are proved of it, each named by a contract.
#![tactic(auto)]

ghost use Rattle.model.specs.Laws.{StaysSound, AllOrNone, RefusalsKeep, ReadsKeep, OneChange, RoomKept, KidsInOrder, CountsRise, TopRises, Numbered, NumbersDiffer, VersionsTell};
ghost use Rattle.model.specs.Cases.{WorkedCases};

// The tree stays a tree: each path once, each entry but those at the top under one that is there and goes with no session.
pub fn stays_a_tree() -> u8
    ensures { StaysSound }
{
    0
}

// What is refused changes nothing, several acts of a call are done all or none, looking changes nothing, and any other call is one change.
pub fn refusals_keep() -> u8
    ensures all_or_none { AllOrNone }
    ensures refusals { RefusalsKeep }
    ensures reads { ReadsKeep }
    ensures one_change { OneChange }
{
    0
}

// The entries never weigh more than the room.
pub fn room_is_kept() -> u8
    ensures { RoomKept }
{
    0
}

// Names come in the order in which they were made.
pub fn names_in_order() -> u8
    ensures { KidsInOrder }
{
    0
}

// Counts never fall; a numbered name bears the count before it, and none is given twice under one making.
pub fn numbers_rise() -> u8
    ensures counts { CountsRise }
    ensures top { TopRises }
    ensures numbered { Numbered }
    ensures differ { NumbersDiffer }
{
    0
}

// As long as an entry's making and version are the same, so is its value.
pub fn a_version_tells_the_value() -> u8
    ensures { VersionsTell }
{
    0
}

// The worked cases are answered as their table says.
pub fn worked_cases() -> u8
    ensures { WorkedCases }
{
    0
}
