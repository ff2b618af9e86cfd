// Readers of a text's front: each hands on what it read, and the text behind it.
ghost use Rattle.std.specs.Prelude.{◌≡◌, ◌<◌, ◌≤◌, length, vec_items, IfOk};
ghost use Rattle.std.specs.Option.{option_map};
ghost use Rattle.calls.specs.Reading.{behind};
ghost use Rattle.words.specs.Values.{IsLess, Reads, name_of, path_of};
ghost use Rattle.words.specs.Words.{unspaced, ends, word_of, behind_word, key_at, is_mark, mark_at, number_at, hex_at, escaped_at, char_at, is_over, chars_at, value_at, name_at, no_slash, slash_name, names_at, is_top, path_from, path_at};

use crate::types::{Fault, Name, Path, Wrong};
use std::alloc::Global;
use text::decimal::read_decimal;
use text::hex::hex_value;
use text::words::is;

pub fn skip_spaces(text: &[u8]) -> &[u8]
    ensures { result.now ≡ unspaced text.now }
{
    match text.iter().position(|c| *c != b' ') {
        Some(i) => &text[i..],
        None => &[],
    }
}

pub fn is_end(quoted: bool, c: u8) -> bool
    ensures { result ≡ ends quoted c }
{
    if quoted {
        c == b'"'
    } else {
        c == b' ' || c == b'"' || c == b'/' || c == b';' || c == b'{' || c == b'}'
    }
}

// The first word, which may be empty, and what is behind it.
pub fn read_word(text: &[u8]) -> (&[u8], &[u8])
    ensures word { result.0.now ≡ word_of (unspaced text.now) }
    ensures rest { result.1.now ≡ behind_word (unspaced text.now) }
{
    cut_word(skip_spaces(text))
}

fn cut_word(text: &[u8]) -> (&[u8], &[u8])
    ensures word { result.0.now ≡ word_of text.now }
    ensures rest { result.1.now ≡ behind_word text.now }
{
    match text.iter().position(|c| is_end(false, *c)) {
        Some(i) => text.split_at(i),
        None => (text, &[]),
    }
}

// What is behind this word, where the text begins with it.
pub fn read_key<'a>(text: &'a [u8], key: &str) -> Option<&'a [u8]>
    ensures { option_map (λ x. x.now) result ≡ key_at key.now text.now }
{
    let (word, rest) = read_word(text);
    if is(word, key) { Some(rest) } else { None }
}

fn after_mark(text: &[u8], mark: u8) -> Option<&[u8]>
    ensures { option_map (λ x. x.now) result ≡ is_mark mark text.now }
{
    match text.split_first() {
        Some((c, rest)) if *c == mark => Some(rest),
        _ => None,
    }
}

// What is behind this character, where the text begins with it.
pub fn read_mark(text: &[u8], mark: u8) -> Option<&[u8]>
    ensures { option_map (λ x. x.now) result ≡ mark_at mark text.now }
{
    after_mark(skip_spaces(text), mark)
}

pub fn read_number(text: &[u8]) -> Option<(u64, &[u8])>
    ensures { option_map behind result ≡ number_at text.now }
{
    let (word, rest) = read_word(text);
    Some((read_decimal(word).ok()?, rest))
}

// A byte of two hexadecimal digits.
fn read_hex(text: &[u8]) -> Option<(u8, &[u8])>
    ensures value { option_map behind result ≡ hex_at text.now }
    ensures less { IsLess result text.now }
{
    match text {
        [high, low, rest @ ..] => Some((16 * hex_value(*high)? + hex_value(*low)?, rest)),
        _ => None,
    }
}

// What stands behind a backslash.
fn read_escaped(text: &[u8]) -> Option<(u8, &[u8])>
    ensures value { option_map behind result ≡ escaped_at text.now }
    ensures less { IsLess result text.now }
{
    match text {
        [b'x', rest @ ..] => read_hex(rest),
        [b'n', rest @ ..] => Some((b'\n', rest)),
        [c @ (b'"' | b'\\'), rest @ ..] => Some((*c, rest)),
        _ => None,
    }
}

fn read_char(text: &[u8]) -> Option<(u8, &[u8])>
    ensures value { option_map behind result ≡ char_at text.now }
    ensures less { IsLess result text.now }
{
    match text {
        [b'\\', rest @ ..] => read_escaped(rest),
        [c, rest @ ..] => Some((*c, rest)),
        [] => None,
    }
}

fn is_over(text: &[u8], quoted: bool) -> bool
    ensures { result ≡ is_over quoted text.now }
{
    match text.split_first() {
        Some((c, _)) => is_end(quoted, *c),
        None => true,
    }
}

// Characters up to one that ends them.
fn read_chars(heap: Global, text: &[u8], quoted: bool) -> Result<(Vec<u8>, &[u8]), Fault>
    ensures value { Reads vec_items result (chars_at quoted text.now) }
    ensures within { IfOk result (λ r. length r.1.now ≤ length text.now) }
{
    let mut chars = Vec::new(heap);
    let mut rest = text;
    // kept: a character takes one to four bytes and may be refused; from_fn and collect say the same in a closure
    while !is_over(rest, quoted) {
        let (c, next) = read_char(rest).ok_or(Wrong::Escape)?;
        chars.push(c)?;
        rest = next;
    }
    Ok((chars, rest))
}

// A value in quotes.
pub fn read_value(heap: Global, text: &[u8]) -> Result<(Vec<u8>, &[u8]), Fault>
    ensures { Reads vec_items result (value_at text.now) }
{
    let inner = read_mark(text, b'"').ok_or(Wrong::Value)?;
    let (value, rest) = read_chars(heap, inner, true)?;
    let rest = after_mark(rest, b'"').ok_or(Wrong::Value)?;
    Ok((value, rest))
}

fn read_name(heap: Global, text: &[u8]) -> Result<(Name, &[u8]), Fault>
    ensures value { Reads name_of result (name_at text.now) }
    ensures within { IfOk result (λ r. length r.1.now ≤ length text.now) }
{
    let (name, rest) = read_chars(heap, text, false)?;
    if name.is_empty() {
        return Err(Fault::Wrong(Wrong::Name));
    }
    Ok((Name(name), rest))
}

fn no_slash(text: &[u8]) -> bool
    ensures { result ≡ no_slash text.now }
{
    after_mark(text, b'/').is_none()
}

fn slash_name(heap: Global, text: &[u8]) -> Result<(Name, &[u8]), Fault>
    ensures value { Reads name_of result (slash_name text.now) }
    ensures less { IfOk result (λ r. length r.1.now < length text.now) }
{
    let rest = after_mark(text, b'/').ok_or(Wrong::Path)?;
    read_name(heap, rest)
}

// Names with a / in front of each.
fn read_names(heap: Global, text: &[u8]) -> Result<(Path, &[u8]), Fault>
    ensures { Reads path_of result (names_at text.now) }
{
    let mut names = Vec::new(heap);
    let mut rest = text;
    // kept: as for characters: how far a name reaches, and whether it is one, is known when it is read
    while !no_slash(rest) {
        let (name, next) = slash_name(heap, rest)?;
        names.push(name)?;
        rest = next;
    }
    Ok((Path(names), rest))
}

fn is_top(text: &[u8]) -> bool
    ensures { result ≡ is_top text.now }
{
    match text {
        [b'/'] => true,
        [b'/', c, ..] => *c != b'/' && is_end(false, *c),
        _ => false,
    }
}

fn path_from(heap: Global, text: &[u8]) -> Result<(Path, &[u8]), Fault>
    ensures { Reads path_of result (path_from text.now) }
{
    let rest = after_mark(text, b'/').ok_or(Wrong::Path)?;
    if is_top(text) {
        return Ok((Path(Vec::new(heap)), rest));
    }
    read_names(heap, text)
}

// A path; / alone is that of no names.
pub fn read_path(heap: Global, text: &[u8]) -> Result<(Path, &[u8]), Fault>
    ensures { Reads path_of result (path_at text.now) }
{
    path_from(heap, skip_spaces(text))
}
