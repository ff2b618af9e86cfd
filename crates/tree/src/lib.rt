// The tree: what looking tells, and what an act is refused by before it writes.
#![tactic(auto)]

pub mod base;
pub mod looking;
pub mod refusal;
pub mod seeking;
pub mod weighing;
