// What is decided from the part of a replica's state that is by value: the order of views and proposals, quorums, patience. Each function is the machine's definition.
#![tactic(auto)]

pub mod order;
pub mod quorum;
pub mod replicas;
pub mod time;
