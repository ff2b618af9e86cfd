// Calls in words.
#![tactic(auto)]

ghost use Rattle.std.specs.Prelude.{◌≡◌};
ghost use Rattle.std.specs.Option.{option_map};
ghost use Rattle.calls.specs.Reading.{behind, expect_read};
ghost use Rattle.words.specs.Values.{Reads, act_of, acts_of, call_of};
ghost use Rattle.phrases.specs.Acts.{version_at, numbered_at, session_at, make_at, put_at, expecting_at, expecting_of, valueless_by, act_by, act_at, piece_at, at_brace, acts_at, braced_at, lone_at, looking_by, call_by, call_at};

use calls::types::Expected;
use lent_bytes::counts::{Session, Version};
use std::alloc::Global;
use words::reading::{read_key, read_mark, read_number, read_path, read_value, read_word};
use words::types::{Act, Call, Fault, Path, Wrong};

// The version that is expected; any where none is named.
fn read_version(text: &[u8]) -> Option<(Expected, &[u8])>
    ensures { option_map expect_read result ≡ version_at text.now }
{
    match read_key(text, "version") {
        Some(rest) => {
            let (version, rest) = read_number(rest)?;
            Some((Expected::Exactly(Version(version)), rest))
        }
        None => Some((Expected::Any, text)),
    }
}

fn read_numbered(text: &[u8]) -> (bool, &[u8])
    ensures { behind result ≡ numbered_at text.now }
{
    match read_key(text, "numbered") {
        Some(rest) => (true, rest),
        None => (false, text),
    }
}

// The session that an entry goes with; none where none is named.
fn read_session(text: &[u8]) -> Option<(u64, &[u8])>
    ensures { option_map behind result ≡ session_at text.now }
{
    match read_key(text, "session") {
        Some(rest) => read_number(rest),
        None => Some((0, text)),
    }
}

fn read_make(heap: Global, text: &[u8]) -> Result<(Act, &[u8]), Fault>
    ensures { Reads act_of result (make_at text.now) }
{
    let (path, rest) = read_path(heap, text)?;
    let (value, rest) = read_value(heap, rest)?;
    let (numbered, rest) = read_numbered(rest);
    let (session, rest) = read_session(rest).ok_or(Wrong::Number)?;
    let act = Act::Make {
        path,
        value,
        numbered,
        session: Session(session),
    };
    Ok((act, rest))
}

fn read_put(heap: Global, text: &[u8]) -> Result<(Act, &[u8]), Fault>
    ensures { Reads act_of result (put_at text.now) }
{
    let (path, rest) = read_path(heap, text)?;
    let (value, rest) = read_value(heap, rest)?;
    let (expected, rest) = read_version(rest).ok_or(Wrong::Number)?;
    let act = Act::Put {
        path,
        value,
        expected,
    };
    Ok((act, rest))
}

// A path, and the version that its entry is expected to have.
fn read_expecting(heap: Global, text: &[u8]) -> Result<((Path, Expected), &[u8]), Fault>
    ensures { Reads expecting_of result (expecting_at text.now) }
{
    let (path, rest) = read_path(heap, text)?;
    let (expected, rest) = read_version(rest).ok_or(Wrong::Number)?;
    Ok(((path, expected), rest))
}

// An act with no value, of this name.
fn read_valueless<'a>(heap: Global, name: &[u8], text: &'a [u8]) -> Result<(Act, &'a [u8]), Fault>
    ensures { Reads act_of result (valueless_by name.now text.now) }
{
    match name {
        b"drop" => {
            let ((path, expected), rest) = read_expecting(heap, text)?;
            Ok((Act::Drop { path, expected }, rest))
        }
        b"check" => {
            let ((path, expected), rest) = read_expecting(heap, text)?;
            Ok((Act::Check { path, expected }, rest))
        }
        _ => Err(Fault::Wrong(Wrong::Act)),
    }
}

// The act of this name.
fn read_named<'a>(heap: Global, name: &[u8], text: &'a [u8]) -> Result<(Act, &'a [u8]), Fault>
    ensures { Reads act_of result (act_by name.now text.now) }
{
    match name {
        b"make" => read_make(heap, text),
        b"put" => read_put(heap, text),
        _ => read_valueless(heap, name, text),
    }
}

fn read_act(heap: Global, text: &[u8]) -> Result<(Act, &[u8]), Fault>
    ensures { Reads act_of result (act_at text.now) }
{
    let (name, rest) = read_word(text);
    read_named(heap, name, rest)
}

fn at_brace(text: &[u8]) -> bool
    ensures { result ≡ at_brace text.now }
{
    read_mark(text, b'}').is_some()
}

// An act with a ; behind it, or a } that stays.
fn read_piece(heap: Global, text: &[u8]) -> Result<(Act, &[u8]), Fault>
    ensures { Reads act_of result (piece_at text.now) }
{
    let (act, rest) = read_act(heap, text)?;
    if let Some(next) = read_mark(rest, b';') {
        return Ok((act, next));
    }
    if at_brace(rest) {
        return Ok((act, rest));
    }
    Err(Fault::Wrong(Wrong::Braces))
}

// Acts up to a }.
fn read_acts(heap: Global, text: &[u8]) -> Result<(Vec<Act>, &[u8]), Fault>
    ensures { Reads acts_of result (acts_at text.now) }
{
    let mut acts = Vec::new(heap);
    let mut rest = text;
    // kept: in an empty text there is neither a } nor an act, and `do {` must fail as Braces; a loop up to the } would fail as Act
    for _ in 0..text.len() {
        if at_brace(rest) {
            return Ok((acts, rest));
        }
        let (act, next) = read_piece(heap, rest)?;
        acts.push(act)?;
        rest = next;
    }
    Ok((acts, rest))
}

fn read_braced(heap: Global, text: &[u8]) -> Result<(Vec<Act>, &[u8]), Fault>
    ensures { Reads acts_of result (braced_at text.now) }
{
    let inner = read_mark(text, b'{').ok_or(Wrong::Braces)?;
    let (acts, rest) = read_acts(heap, inner)?;
    let rest = read_mark(rest, b'}').ok_or(Wrong::Braces)?;
    Ok((acts, rest))
}

// One act as a call.
fn read_lone(heap: Global, text: &[u8]) -> Result<(Call, &[u8]), Fault>
    ensures { Reads call_of result (lone_at text.now) }
{
    let (act, rest) = read_act(heap, text)?;
    let mut acts = Vec::new(heap);
    acts.push(act)?;
    Ok((Call::Do(acts), rest))
}

// A call that only looks, or one act alone.
fn read_looking<'a>(
    heap: Global,
    word: &[u8],
    rest: &'a [u8],
    text: &'a [u8],
) -> Result<(Call, &'a [u8]), Fault>
    ensures { Reads call_of result (looking_by word.now rest.now text.now) }
{
    match word {
        b"look" => read_path(heap, rest).map(|(path, rest)| (Call::Look(path), rest)),
        b"kids" => read_path(heap, rest).map(|(path, rest)| (Call::Kids(path), rest)),
        _ => read_lone(heap, text),
    }
}

// The call that begins with this word, or one act alone.
fn read_begun<'a>(
    heap: Global,
    word: &[u8],
    rest: &'a [u8],
    text: &'a [u8],
) -> Result<(Call, &'a [u8]), Fault>
    ensures { Reads call_of result (call_by word.now rest.now text.now) }
{
    match word {
        b"do" => read_braced(heap, rest).map(|(acts, rest)| (Call::Do(acts), rest)),
        b"open" => Ok((Call::Open, rest)),
        b"end" => {
            let (session, rest) = read_number(rest).ok_or(Wrong::Number)?;
            Ok((Call::End(Session(session)), rest))
        }
        _ => read_looking(heap, word, rest, text),
    }
}

// A call, and what is behind it.
pub fn read_call(heap: Global, text: &[u8]) -> Result<(Call, &[u8]), Fault>
    ensures { Reads call_of result (call_at text.now) }
{
    let (word, rest) = read_word(text);
    read_begun(heap, word, rest, text)
}
