// Numbers of four and of eight bytes, high byte first.
ghost use Rattle.std.specs.Prelude.{◌≡◌, ◌+◌, ◌≤◌, length};
ghost use Rattle.lent_bytes.specs.Numbers.{be32, be64, NumbersRound};

// The number whose four bytes are at a place.
// kept: an array of a width that is a parameter is had from a slice by a test as the program runs, and each number that is read would pay for it
#[tactic(auto, unfolding(crate::specs::Numbers::be32))]
pub fn read_u32(bytes: &[u8], at: usize) -> u32
    requires { at + 4 ≤ length bytes.now }
    ensures { result ≡ be32 bytes.now at }
{
    u32::from_be_bytes([bytes[at], bytes[at + 1], bytes[at + 2], bytes[at + 3]])
}

// The number whose eight bytes are at a place.
// kept: as above
#[tactic(auto, unfolding(crate::specs::Numbers::be64))]
pub fn read_u64(bytes: &[u8], at: usize) -> u64
    requires { at + 8 ≤ length bytes.now }
    ensures { result ≡ be64 bytes.now at }
{
    u64::from_be_bytes([
        bytes[at],
        bytes[at + 1],
        bytes[at + 2],
        bytes[at + 3],
        bytes[at + 4],
        bytes[at + 5],
        bytes[at + 6],
        bytes[at + 7],
    ])
}

// What is written as a number's bytes is read again as that number.
pub fn numbers_round() -> u8
    ensures { NumbersRound }
{
    0
}
