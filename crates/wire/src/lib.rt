// Messages of replicas as bytes: what they are, and that reading and writing undo each other.
#![tactic(auto)]

pub mod laws;
pub mod types;
