// Names, paths, numbers and values in words, and the types of calls that are read from words.
#![tactic(auto)]

pub mod reading;
pub mod types;
