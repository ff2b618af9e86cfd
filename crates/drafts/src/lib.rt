// The next tree of entries, written into lent memory beside the last.
#![tactic(auto)]

pub mod writing;
