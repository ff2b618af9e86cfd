// A rehearsal: the lines of its script, the letters under way, which houses are up and frail, and which incarnations there were.
#![tactic(auto)]

pub mod houses;
pub mod incarnations;
pub mod lines;
pub mod network;
