// Letters under way between houses, oldest first.
ghost use Rattle.std.specs.Prelude.{◌≡◌, not, IfOk};
ghost use Rattle.model.specs.Tree.{keep};
ghost use Rattle.script.specs.Network.{is_on, is_off, contents, Same};

use crate::lines::Link;
use std::alloc::{AllocError, Global};

#[derive(Drop)]
pub struct Letter {
    pub from: u8,
    pub to: u8,
    pub bytes: Vec<u8>,
}

// Is the letter on this link, or on any.
fn is_on(link: Option<Link>, letter: &Letter) -> bool
    ensures { result ≡ is_on link letter.now }
{
    match link {
        Some(Link { from, to }) => letter.from == from && letter.to == to,
        None => true,
    }
}

// The letters of a link, and the others, each in their order.
#[derive(Drop)]
pub struct Parted {
    pub taken: Vec<Letter>,
    pub left: Vec<Letter>,
}

pub fn part(heap: Global, letters: Vec<Letter>, link: Option<Link>) -> Result<Parted, AllocError>
    ensures { IfOk result (λ p. (p.taken.items ≡ keep (is_on link) letters.items) × (p.left.items ≡ keep (is_off link) letters.items)) }
{
    let mut taken = Vec::new(heap);
    let mut left = Vec::new(heap);
    for letter in letters {
        if is_on(link, &letter) {
            taken.push(letter)?;
        } else {
            left.push(letter)?;
        }
    }
    Ok(Parted { taken, left })
}

fn copy(heap: Global, letter: &Letter) -> Result<Letter, AllocError>
    ensures { IfOk result (λ l. contents l ≡ contents letter.now) }
{
    let bytes = Vec::from_slice(heap, &letter.bytes)?;
    Ok(Letter {
        from: letter.from,
        to: letter.to,
        bytes,
    })
}

// The letters of a link once more, in their order, for those that come twice.
pub fn copies(
    heap: Global,
    letters: &[Letter],
    link: Option<Link>,
) -> Result<Vec<Letter>, AllocError>
    ensures { IfOk result (λ v. Same v.items (keep (is_on link) letters.now)) }
{
    let mut taken = Vec::new(heap);
    for letter in letters {
        if is_on(link, letter) {
            taken.push(copy(heap, letter)?)?;
        }
    }
    Ok(taken)
}
