// Calls and answers as bytes: readers that hand on paths, names and values as parts of the bytes.
#![tactic(auto)]

pub mod answers;
pub mod laws;
pub mod reading;
pub mod screening;
pub mod types;
