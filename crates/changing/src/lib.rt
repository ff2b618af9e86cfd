// Acts on entries that are there: each writes the next tree beside the last, or is refused.
#![tactic(auto)]

pub mod acts;
