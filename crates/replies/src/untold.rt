// Why an answer is not told.
ghost use Rattle.std.specs.Prelude.{◌≡◌};
ghost use Rattle.replies.specs.declared.untold.Untold.TheVariants.{Memory};

use std::alloc::AllocError;

#[derive(Clone, Copy, PartialEq, Eq)]
pub(crate) enum Untold {
    // the bytes are no answer
    NoAnswer,
    Memory,
}

// kept: a derive would not state which error it makes
impl From<AllocError> for Untold {
    ghost from_gives = { λ _ r. r ≡ Memory };

    fn from(_e: AllocError) -> Untold {
        Untold::Memory
    }
}
