// Calls in words.
#![tactic(auto)]

pub mod wording;
