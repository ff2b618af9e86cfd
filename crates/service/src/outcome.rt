// What is kept of a write.
use tree::refusal::Refusal;

// What is kept of a write that was done, until it is answered: it was refused, or done. Which entry was made is told by the call itself.
pub type Outcome = Result<(), Refusal>;
