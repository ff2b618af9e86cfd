// The tree as a service that replicas keep together: what a call asks, what is answered at once, what is kept of a write, and the answers as bytes.
#![tactic(auto)]

pub mod answering;
pub mod asking;
pub mod clerk;
pub mod laws;
pub mod outcome;
