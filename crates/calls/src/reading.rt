// Readers: what stands at the front of bytes, and the bytes behind it.
ghost use Rattle.std.specs.Prelude.{◌≡◌};
ghost use Rattle.std.specs.Option.{option_map};
ghost use Rattle.calls.specs.Format.{byte_at, part_at, length_at, number_at, name_at, value_at, flag_at, expect_at, make_at, put_at, act_at, do_at, end_at, decode_call, path_at, whole_path, wholly, past, rest};
ghost use Rattle.calls.specs.Reading.{parts, behind, expect_read, path_read, path_now, act_read, call_of, Expecting};

use crate::types::{Act, ActKind, Acts, Call, Expected};
use lent_bytes::counts::{Session, Version};
use lent_bytes::numbers::{read_u32, read_u64};
use lent_bytes::paths::Path;

// So many bytes.
pub fn part(bytes: &[u8], n: usize) -> Option<(&[u8], &[u8])>
    ensures { option_map parts result ≡ part_at n bytes.now }
{
    bytes.split_at_checked(n)
}

// One byte.
pub fn byte(bytes: &[u8]) -> Option<(u8, &[u8])>
    ensures { option_map behind result ≡ byte_at bytes.now }
{
    let (first, rest) = bytes.split_first()?;
    Some((*first, rest))
}

// A number of four bytes.
pub fn length(bytes: &[u8]) -> Option<(u32, &[u8])>
    ensures { option_map behind result ≡ length_at bytes.now }
{
    let (word, rest) = part(bytes, 4)?;
    Some((read_u32(word, 0), rest))
}

// A number of eight bytes.
pub fn number(bytes: &[u8]) -> Option<(u64, &[u8])>
    ensures { option_map behind result ≡ number_at bytes.now }
{
    let (word, rest) = part(bytes, 8)?;
    Some((read_u64(word, 0), rest))
}

// A value: its length and so many bytes.
pub fn value(bytes: &[u8]) -> Option<(&[u8], &[u8])>
    ensures { option_map parts result ≡ value_at bytes.now }
{
    let (n, rest) = length(bytes)?;
    part(rest, n as usize)
}

// A byte that says yes (1) or no (0).
pub fn flag(bytes: &[u8]) -> Option<(bool, &[u8])>
    ensures { option_map behind result ≡ flag_at bytes.now }
{
    let (b, rest) = byte(bytes)?;
    match b {
        0 => Some((false, rest)),
        1 => Some((true, rest)),
        _ => None,
    }
}

// What was read, if nothing is behind it.
pub fn wholly<T: Copy>(read: T, rest: &[u8]) -> Option<T>
    ensures { result ≡ wholly (read, rest.now) }
{
    if rest.is_empty() { Some(read) } else { None }
}

// Which version is expected.
fn expected(bytes: &[u8]) -> Option<(Expected, &[u8])>
    ensures { option_map expect_read result ≡ expect_at bytes.now }
{
    let (b, rest) = byte(bytes)?;
    match b {
        0 => Some((Expected::Any, rest)),
        1 => {
            let (v, rest) = number(rest)?;
            Some((Expected::Exactly(Version(v)), rest))
        }
        _ => None,
    }
}

// What is behind a name.
fn past_name(bytes: &[u8]) -> Option<&[u8]>
    ensures { option_map (λ x. x.now) result ≡ rest (name_at bytes.now) }
{
    let (n, rest) = byte(bytes)?;
    let (_, rest) = part(rest, n as usize)?;
    Some(rest)
}

// What is behind so many names.
fn past_names(bytes: &[u8], count: u8) -> Option<&[u8]>
    ensures { option_map (λ x. x.now) result ≡ past name_at count bytes.now }
{
    // kept: with the reader of one as a closure, this loop and that over acts would need three clauses about it for one line
    let mut rest = bytes;
    for _ in 0..count {
        rest = past_name(rest)?;
    }
    Some(rest)
}

// A path, and what is behind it.
fn path(bytes: &[u8]) -> Option<(Path<'_>, &[u8])>
    ensures { option_map path_read result ≡ path_at bytes.now }
{
    let (count, all) = byte(bytes)?;
    let rest = past_names(all, count)?;
    let (names, rest) = all.split_at(all.len() - rest.len());
    Some((Path { names }, rest))
}

// A making without its number in front, and what is behind it.
fn make(bytes: &[u8]) -> Option<(Act<'_>, &[u8])>
    ensures { option_map act_read result ≡ make_at bytes.now }
{
    let (path, rest) = path(bytes)?;
    let (value, rest) = value(rest)?;
    let (numbered, rest) = flag(rest)?;
    let (session, rest) = number(rest)?;
    let kind = ActKind::Make {
        numbered,
        session: Session(session),
    };
    Some((Act { kind, path, value }, rest))
}

// A putting without its number in front, and what is behind it.
fn put(bytes: &[u8]) -> Option<(Act<'_>, &[u8])>
    ensures { option_map act_read result ≡ put_at bytes.now }
{
    let (path, rest) = path(bytes)?;
    let (value, rest) = value(rest)?;
    let (version, rest) = expected(rest)?;
    let kind = ActKind::Put(version);
    Some((Act { kind, path, value }, rest))
}

// A path and which version is expected there, as an act without a value has them; and what is behind both.
fn expecting(bytes: &[u8]) -> Option<(Path<'_>, Expected, &[u8])>
    ensures { Expecting bytes.now result }
{
    let (path, rest) = path(bytes)?;
    let (version, rest) = expected(rest)?;
    Some((path, version, rest))
}

// An act, by its number in front.
pub fn read_act(bytes: &[u8]) -> Option<(Act<'_>, &[u8])>
    ensures { option_map act_read result ≡ act_at bytes.now }
{
    let (number, rest) = byte(bytes)?;
    match number {
        1 => make(rest),
        2 => put(rest),
        3 | 4 => {
            let (path, version, rest) = expecting(rest)?;
            let kind = if number == 3 {
                ActKind::Drop(version)
            } else {
                ActKind::Check(version)
            };
            let act = Act {
                kind,
                path,
                value: &[],
            };
            Some((act, rest))
        }
        _ => None,
    }
}

// What is behind so many acts.
fn past_acts(bytes: &[u8], count: u8) -> Option<&[u8]>
    ensures { option_map (λ x. x.now) result ≡ past act_at count bytes.now }
{
    // kept: as over names
    let mut rest = bytes;
    for _ in 0..count {
        (_, rest) = read_act(rest)?;
    }
    Some(rest)
}

// A path that is all of the bytes.
fn whole_path(bytes: &[u8]) -> Option<Path<'_>>
    ensures { option_map path_now result ≡ whole_path bytes.now }
{
    let (path, rest) = path(bytes)?;
    wholly(path, rest)
}

// A call of several acts that is all of the bytes.
fn acts(bytes: &[u8]) -> Option<Call<'_>>
    ensures { option_map call_of result ≡ do_at bytes.now }
{
    let (count, bytes) = byte(bytes)?;
    let rest = past_acts(bytes, count)?;
    wholly((), rest)?;
    Some(Call::Do(Acts { count, bytes }))
}

// The end of a session that is all of the bytes.
fn end(bytes: &[u8]) -> Option<Call<'_>>
    ensures { option_map call_of result ≡ end_at bytes.now }
{
    let (session, rest) = number(bytes)?;
    wholly(Call::End(Session(session)), rest)
}

// A call: all of the bytes are one, or it is none.
// kept: a call is taken apart by match
pub fn read_call(bytes: &[u8]) -> Option<Call<'_>>
    ensures { option_map call_of result ≡ decode_call bytes.now }
{
    let (kind, rest) = byte(bytes)?;
    match kind {
        1 => acts(rest),
        2 => Some(Call::Look(whole_path(rest)?)),
        3 => Some(Call::Kids(whole_path(rest)?)),
        4 => wholly(Call::Open, rest),
        5 => end(rest),
        _ => None,
    }
}
