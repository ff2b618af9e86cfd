// Replicas by their number.
ghost use Rattle.std.specs.Prelude.{◌<◌};

// The number of a replica: there are at most seven.
#[derive(Clone, Copy, PartialEq, Eq)]
pub struct Replica {
    pub index: u8,
    pub ghost in_range: { index < 7 },
}
