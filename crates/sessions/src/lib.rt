// Sessions: opening one and ending one.
#![tactic(auto)]

pub mod ending;
pub mod opening;
