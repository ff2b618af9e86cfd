// Why an act or a call is refused.
ghost use Rattle.std.specs.Prelude.{◌≡◌};
ghost use Rattle.tree.specs.Answers.{reason, IsNumbered};

// Each with the number that is told for it.
#[derive(Clone, Copy, PartialEq, Eq)]
pub enum Refusal {
    OutOfRange = 1,
    NotThere = 2,
    AlreadyThere = 3,
    OtherVersion = 4,
    HasKids = 5,
    NoSession = 6,
    UnderSession = 7,
    UsedUp = 8,
    Full = 9,
}

impl Refusal {
    // The number that is told for it.
    pub fn number(self) -> u8
        ensures { result ≡ reason self }
    {
        self as u8
    }
}

// A number that is told for no refusal.
#[derive(Clone, Copy, PartialEq, Eq)]
pub struct NoRefusal(pub u8);

// kept: std has no way from a number to an enum, and the clause says which number is whose
impl TryFrom<u8> for Refusal {
    type Error = NoRefusal;

    ghost try_from_gives = { IsNumbered };

    fn try_from(number: u8) -> Result<Refusal, NoRefusal> {
        // kept: a number is no step to run, and std has no way from it to an enum
        match number {
            1 => Ok(Refusal::OutOfRange),
            2 => Ok(Refusal::NotThere),
            3 => Ok(Refusal::AlreadyThere),
            4 => Ok(Refusal::OtherVersion),
            5 => Ok(Refusal::HasKids),
            6 => Ok(Refusal::NoSession),
            7 => Ok(Refusal::UnderSession),
            8 => Ok(Refusal::UsedUp),
            9 => Ok(Refusal::Full),
            _ => Err(NoRefusal(number)),
        }
    }
}
