// Bytes that come from elsewhere, accepted as a tree or refused.
#![tactic(auto)]

pub mod scanning;
