// Bytes that are lent: numbers, names and paths, and writing at the end of a buffer.
#![tactic(auto)]

pub mod counts;
pub mod numbers;
pub mod paths;
pub mod writing;
