// Calls of several acts: one after the other, each on the tree as those before left it, all or none.
#![tactic(auto)]

pub mod several;
