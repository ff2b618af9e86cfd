// Which incarnations there were, and one that was not there yet.
ghost use Rattle.std.specs.Prelude.{◌≡◌};
ghost use Rattle.script.specs.Incarnations.{was_there, highest, fresh_of, New, chosen};

use std::fmt;

// Why no incarnation can be taken.
#[derive(Clone, Copy, Debug, PartialEq, Eq)]
pub enum Unfit {
    // the highest number was drawn
    NoneLeft,
    // the one that is named was there before
    WasThere,
}

// kept: `output` says which text each reason has; the derive says none, and a wrong text would be proved
impl fmt::Display for Unfit {
    ghost use Rattle.std.specs.Prelude.{Some};
    ghost use Rattle.script.specs.Said.{unfit_said};

    ghost output = { λ why. Some (unfit_said why) };

    fn fmt<W: fmt::Write>(&self, f: &mut fmt::Formatter<W>) -> fmt::Result {
        f.write_str(match self {
            Unfit::NoneLeft => "no incarnation is left",
            Unfit::WasThere => "this incarnation was there before",
        })
    }
}

// Was this incarnation there before: it was drawn, or is 0, which was that of the first beginning.
pub fn was_there(drawn: &[u64], incarnation: u64) -> bool
    ensures { result ≡ was_there incarnation drawn.now }
{
    incarnation == 0 || drawn.contains(&incarnation)
}

fn highest_of(drawn: &[u64]) -> u64
    ensures { result ≡ highest 0 drawn.now }
{
    drawn.iter().max().copied().unwrap_or(0)
}

// One that was not there before: more than all of them; none where the highest number was drawn.
pub fn fresh(drawn: &[u64]) -> Option<u64>
    ensures is { result ≡ fresh_of drawn.now }
    ensures new { New drawn.now result }
{
    highest_of(drawn).checked_add(1)
}

// The one that is named, if it was not there before; else a fresh one.
pub fn choose(drawn: &[u64], named: Option<u64>) -> Result<u64, Unfit>
    ensures { result ≡ chosen drawn.now named }
{
    let incarnation = named.or(fresh(drawn)).ok_or(Unfit::NoneLeft)?;
    if was_there(drawn, incarnation) {
        return Err(Unfit::WasThere);
    }
    Ok(incarnation)
}
