#![tactic(auto)]

// What the readers refuse, and by what: a table that is tested.
#[cfg(test)]
mod tests;
