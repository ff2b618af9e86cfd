// The lines of a script.
ghost use Rattle.std.specs.Prelude.{◌≡◌, false, true, Some, None};
ghost use Rattle.std.specs.Option.{option_map};
ghost use Rattle.std.specs.Fn.{FnOnceReturnsAt};
ghost use Rattle.calls.specs.Reading.{behind};
ghost use Rattle.words.specs.Values.{Reads};
ghost use Rattle.script.specs.Lines.{line_of, at_end, is_out, within_at, house_at, link_at, maybe_at, maybe, room_at, houses_at, call_line_at, wake_at, run_at, house_happening_by, happening_by, command_by, line_at, LineRead, lined};

use phrases::read_call;
use std::alloc::Global;
use words::reading::{read_key, read_number, read_word, skip_spaces};
use words::types::{Call, Fault, Wrong};

// Letters from one house to another.
#[derive(Clone, Copy, Debug, PartialEq, Eq)]
pub struct Link {
    pub from: u8,
    pub to: u8,
}

#[derive(Drop)]
pub enum Command {
    Nothing,
    Houses { count: u8, room: Option<u64> },
    At(u8, Call),
    // one house, or all
    Beat(Option<u8>),
    // the letters of one link, or all that are under way
    Pass(Option<Link>),
    Lose(Option<Link>),
    Twice(Option<Link>),
    Fall(u8),
    Wake(u8, Option<u64>),
    Run { seed: u64, steps: u64 },
}

fn is_out(text: &[u8]) -> bool
    ensures { result ≡ is_out text.now }
{
    match text {
        [c, ..] => *c == b'#',
        [] => true,
    }
}

// Is there nothing more, or a comment.
fn at_end(text: &[u8]) -> bool
    ensures { result ≡ at_end text.now }
{
    is_out(skip_spaces(text))
}

// What this reader reads, or nothing at the line's end.
fn read_maybe<'a, T, F: FnOnce(&'a [u8]) -> Option<(T, &'a [u8])>>(
    text: &'a [u8],
    read_one: F,
) -> Option<(Option<T>, &'a [u8])>
    requires { F.IsAlwaysCallable read_one }
    ensures end { at_end text.now ≡ true → option_map behind result ≡ Some (None, text.now) }
    ensures more { at_end text.now ≡ false → (one : _) × FnOnceReturnsAt F.FnOnce read_one text.now one × option_map behind result ≡ option_map (λ x. maybe (behind x)) one }
{
    if at_end(text) {
        return Some((None, text));
    }
    let (one, rest) = read_one(text)?;
    Some((Some(one), rest))
}

// A number from the least to the greatest of these.
fn read_within(text: &[u8], least: u8, greatest: u8) -> Option<(u8, &[u8])>
    ensures { option_map behind result ≡ within_at least greatest text.now }
{
    let (number, rest) = read_number(text)?;
    let number = u8::try_from(number).ok()?;
    if (least..=greatest).contains(&number) {
        Some((number, rest))
    } else {
        None
    }
}

fn read_house(text: &[u8]) -> Option<(u8, &[u8])>
    ensures { option_map behind result ≡ house_at text.now }
{
    read_within(text, 0, 6)
}

// kept: it reads two houses, where Houses::place tests one number
fn read_link(text: &[u8]) -> Option<(Link, &[u8])>
    ensures { option_map behind result ≡ link_at text.now }
{
    let (from, rest) = read_house(text)?;
    let (to, rest) = read_house(rest)?;
    Some((Link { from, to }, rest))
}

fn read_links(text: &[u8]) -> Option<(Option<Link>, &[u8])>
    ensures { option_map behind result ≡ maybe_at link_at text.now }
{
    read_maybe(text, read_link)
}

fn read_room(text: &[u8]) -> Option<(Option<u64>, &[u8])>
    ensures { option_map behind result ≡ room_at text.now }
{
    match read_key(text, "room") {
        Some(rest) => {
            let (room, rest) = read_number(rest)?;
            Some((Some(room), rest))
        }
        None => Some((None, text)),
    }
}

// One to seven houses, and their room where it is said.
fn read_houses(text: &[u8]) -> Result<(Command, &[u8]), Fault>
    ensures { Reads line_of result (houses_at text.now) }
{
    let (count, rest) = read_within(text, 1, 7).ok_or(Wrong::Houses)?;
    let (room, rest) = read_room(rest).ok_or(Wrong::Houses)?;
    Ok((Command::Houses { count, room }, rest))
}

fn read_wake(text: &[u8]) -> Option<(Command, &[u8])>
    ensures { option_map lined result ≡ wake_at text.now }
{
    let (house, rest) = read_house(text)?;
    let (incarnation, rest) = read_maybe(rest, read_number)?;
    Some((Command::Wake(house, incarnation), rest))
}

fn read_run(text: &[u8]) -> Option<(Command, &[u8])>
    ensures { option_map lined result ≡ run_at text.now }
{
    let (seed, rest) = read_number(read_key(text, "seed")?)?;
    let (steps, rest) = read_number(read_key(rest, "steps")?)?;
    Some((Command::Run { seed, steps }, rest))
}

// What happens to a house, or to all by a seed.
fn read_house_happening<'a>(word: &[u8], rest: &'a [u8]) -> Option<(Command, &'a [u8])>
    ensures { option_map lined result ≡ house_happening_by word.now rest.now }
{
    match word {
        b"fall" => {
            let (house, rest) = read_house(rest)?;
            Some((Command::Fall(house), rest))
        }
        b"wake" => read_wake(rest),
        b"run" => read_run(rest),
        _ => None,
    }
}

// What happens to letters and houses.
fn read_happening<'a>(word: &[u8], rest: &'a [u8]) -> Option<(Command, &'a [u8])>
    ensures { option_map lined result ≡ happening_by word.now rest.now }
{
    match word {
        b"pass" => read_links(rest).map(|(link, rest)| (Command::Pass(link), rest)),
        b"lose" => read_links(rest).map(|(link, rest)| (Command::Lose(link), rest)),
        b"twice" => read_links(rest).map(|(link, rest)| (Command::Twice(link), rest)),
        _ => read_house_happening(word, rest),
    }
}

fn read_call_line(heap: Global, text: &[u8]) -> Result<(Command, &[u8]), Fault>
    ensures { Reads line_of result (call_line_at text.now) }
{
    let (house, rest) = read_house(text).ok_or(Wrong::House)?;
    let (call, rest) = read_call(heap, rest)?;
    Ok((Command::At(house, call), rest))
}

fn read_command<'a>(heap: Global, word: &[u8], rest: &'a [u8]) -> Result<(Command, &'a [u8]), Fault>
    ensures { Reads line_of result (command_by word.now rest.now) }
{
    match word {
        b"at" => read_call_line(heap, rest),
        b"beat" => {
            let (house, rest) = read_maybe(rest, read_house).ok_or(Wrong::House)?;
            Ok((Command::Beat(house), rest))
        }
        b"houses" => read_houses(rest),
        _ => read_happening(word, rest).ok_or(Fault::Wrong(Wrong::Command)),
    }
}

// What a line says.
pub fn read_line(heap: Global, line: &[u8]) -> Result<Command, Fault>
    ensures { LineRead result (line_at line.now) }
{
    if at_end(line) {
        return Ok(Command::Nothing);
    }
    let (word, rest) = read_word(line);
    let (command, rest) = read_command(heap, word, rest)?;
    if at_end(rest) {
        Ok(command)
    } else {
        Err(Fault::Wrong(Wrong::Behind))
    }
}
