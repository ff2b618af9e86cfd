// What a replica keeps in lent memory: two trees, of which one stands, calls that wait, and the answers of a turn.
#![tactic(auto)]

pub mod beginning;
pub mod lent;
pub mod trees;
pub mod waiting;
