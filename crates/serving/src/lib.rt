// A call that lies in a slot: a write is done beside the tree that stands, and the answer is written behind the answers of a turn.
#![tactic(auto)]

pub mod answering;
pub mod calling;
