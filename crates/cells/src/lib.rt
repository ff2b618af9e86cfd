// A tree of entries in lent memory: cells one behind the other, and the places where they begin.
#![tactic(auto)]

pub mod cell;
pub mod draft;
pub mod held;
pub mod prelude;
