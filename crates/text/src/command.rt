// The lines and the arguments of the program of one replica.
ghost use Rattle.std.specs.Prelude.{◌≡◌};
ghost use Rattle.text.specs.Command.{beat_of, command_of, command_read, letter_from, place_of};
ghost use Rattle.text.specs.Decimal.{undecimal};
ghost use Rattle.text.specs.Words.{word_of, rest_of};
ghost use Rattle.text.specs.declared.command.CommandFault.TheVariants.{Number};

use crate::decimal::{DecimalFault, read_decimal};
use crate::words::cut_word;
use thiserror::Error;

// A line, with its hexadecimal digits.
#[derive(Clone, Copy)]
pub enum Command<'a> {
    Ask(&'a [u8]),
    From(u8, &'a [u8]),
    Beat,
}

// Why a line is none of those.
#[derive(Clone, Copy, Debug, PartialEq, Eq, Error)]
pub enum CommandFault {
    #[error("no such line: ask HEX, from J HEX or beat is wanted")]
    Unknown,
    // the sender is no number
    #[error(transparent)]
    Number(DecimalFault),
    // the sender's number is not below how many there are
    #[error("there is no house {0}")]
    NoHouse(u64),
    // the sender is this replica itself
    #[error("a letter comes from another house")]
    Own,
}

// kept: clauses name the fault that ? makes, and only a From by hand says it
impl From<DecimalFault> for CommandFault {
    ghost from_gives = { λ e r. r ≡ Number e };

    fn from(fault: DecimalFault) -> CommandFault {
        CommandFault::Number(fault)
    }
}

pub fn read_command(line: &[u8], me: u8, all: u8) -> Result<Command<'_>, CommandFault>
    ensures { command_read result ≡ command_of me all line.now }
{
    match cut_word(line) {
        (b"ask", rest) => Ok(Command::Ask(rest)),
        (b"from", rest) => read_letter(rest, me, all),
        _ => read_beat(line),
    }
}

fn read_beat(line: &[u8]) -> Result<Command<'_>, CommandFault>
    ensures { command_read result ≡ beat_of line.now }
{
    match line {
        b"beat" => Ok(Command::Beat),
        _ => Err(CommandFault::Unknown),
    }
}

fn read_letter(text: &[u8], me: u8, all: u8) -> Result<Command<'_>, CommandFault>
    ensures { command_read result ≡ letter_from me all (undecimal (word_of text.now)) (rest_of text.now) }
{
    let (house, rest) = cut_word(text);
    let house = read_decimal(house)?;
    if house >= all as u64 {
        return Err(CommandFault::NoHouse(house));
    }
    if house == me as u64 {
        return Err(CommandFault::Own);
    }
    Ok(Command::From(house as u8, rest))
}

// Which replica a program is, of how many, and its incarnation.
#[derive(Clone, Copy, Debug, PartialEq, Eq)]
pub struct Place {
    pub me: u8,
    pub all: u8,
    pub chance: u64,
}

pub fn read_place(me: &[u8], all: &[u8], chance: &[u8]) -> Option<Place>
    ensures { result ≡ place_of me.now all.now chance.now }
{
    let me = read_decimal(me).ok()?;
    let all = read_decimal(all).ok()?;
    let chance = read_decimal(chance).ok()?;
    if me < all && all <= 7 {
        Some(Place {
            me: me as u8,
            all: all as u8,
            chance,
        })
    } else {
        None
    }
}
