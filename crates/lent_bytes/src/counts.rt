// Numbers of 64 bits that count different things, kept apart by their types.

// How often an entry's value was put since the entry was made.
#[derive(Clone, Copy, PartialEq, Eq, PartialOrd, Ord)]
pub struct Version(pub u64);

// How many changes a tree has had, or how many entries were ever made under one.
#[derive(Clone, Copy, PartialEq, Eq, PartialOrd, Ord)]
pub struct Count(pub u64);

// A session's number; 0 is no session.
#[derive(Clone, Copy, PartialEq, Eq, PartialOrd, Ord)]
pub struct Session(pub u64);
