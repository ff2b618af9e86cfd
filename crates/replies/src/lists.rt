// Names and paths in words, as they are read one behind the other.
ghost use Rattle.std.specs.Prelude.{◌≡◌, codes};
ghost use Rattle.std.specs.Option.{option_map};
ghost use Rattle.std.specs.String.{string_bytes};
ghost use Rattle.calls.specs.Format.{name_at, names_at, path_at, many_at};
ghost use Rattle.calls.specs.Reading.{parts};
ghost use Rattle.spelling.specs.Spelled.{many};
ghost use Rattle.replies.specs.Answers.{name_behind, path_behind, told};
ghost use Rattle.replies.specs.Telling.{Left};

use crate::untold::Untold;
use calls::reading::{byte, part};
use spelling::wording::Bare;

// A name, and what is behind it.
fn read_name(bytes: &[u8]) -> Option<(&[u8], &[u8])>
    ensures { option_map parts result ≡ name_at bytes.now }
{
    let (n, rest) = byte(bytes)?;
    part(rest, n as usize)
}

// A name behind this text; what is left behind it.
// kept: it is read first whether there is something to print
fn tell_name<'a>(out: &mut String, before: &str, bytes: &'a [u8]) -> Result<&'a [u8], Untold>
    ensures { Left result (string_bytes out.new) (told (name_behind before.now) (string_bytes out.old) (name_at bytes.now)) }
{
    let (name, rest) = read_name(bytes).ok_or(Untold::NoAnswer)?;
    write!(out, "{before}{}", Bare(name))?;
    Ok(rest)
}

// So many names, each behind this text.
// kept: it is known only behind the last of them whether there is something to print
pub(crate) fn tell_names<'a>(
    out: &mut String,
    before: &str,
    bytes: &'a [u8],
    count: u32,
) -> Result<&'a [u8], Untold>
    ensures { Left result (string_bytes out.new) (told (many (name_behind before.now)) (string_bytes out.old) (names_at count bytes.now)) }
{
    let mut rest = bytes;
    // kept: there is no list to go through; where the next name begins is known only once the last is read
    for _ in 0..count {
        rest = tell_name(out, before, rest)?;
    }
    Ok(rest)
}

// A path behind a space.
// kept: it is known only behind the last of them whether there is something to print
fn tell_path<'a>(out: &mut String, bytes: &'a [u8]) -> Result<&'a [u8], Untold>
    ensures { Left result (string_bytes out.new) (told path_behind (string_bytes out.old) (path_at bytes.now)) }
{
    let (n, names) = byte(bytes).ok_or(Untold::NoAnswer)?;
    out.push_str(" ")?;
    tell_names(out, "/", names, n as u32)
}

// So many paths.
// kept: it is known only behind the last of them whether there is something to print
pub(crate) fn tell_paths<'a>(
    out: &mut String,
    bytes: &'a [u8],
    count: u8,
) -> Result<&'a [u8], Untold>
    ensures { Left result (string_bytes out.new) (told (many path_behind) (string_bytes out.old) (many_at path_at count bytes.now)) }
{
    let mut rest = bytes;
    // kept: there is no list to go through; where the next path begins is known only once the last is read
    for _ in 0..count {
        rest = tell_path(out, rest)?;
    }
    Ok(rest)
}
