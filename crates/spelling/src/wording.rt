// Calls in words.
ghost use Rattle.std.specs.Prelude.{◌≡◌, ◌+◌, ◌*◌, ◌≤◌, false, Some, IsAscii, length, map, take};
ghost use Rattle.std.specs.List.{list_all};
ghost use Rattle.std.specs.Fmt.{WritesOnOk};
ghost use Rattle.calls.specs.Reading.{expect_of};
ghost use Rattle.lent_bytes.specs.Writers.{Wrote};
ghost use Rattle.words.specs.Values.{name_of, path_of, act_of, call_of};
ghost use Rattle.spelling.specs.Spelled.{plain, char_spelled, chars_spelled, value_spelled, path_spelled, expect_spelled, numbered_spelled, session_spelled, act_spelled, piece_spelled, braced_spelled, do_spelled, call_spelled};

use calls::types::Expected;
use lent_bytes::counts::Session;
use lent_bytes::writing::Writer;
use std::{fmt, str};
use text::hex::hex_digit;
use words::reading::is_end;
use words::types::{Act, Call, Path};

fn is_plain(quoted: bool, c: u8) -> bool
    ensures { result ≡ plain quoted c }
{
    32 <= c && c <= 126 && !is_end(quoted, c) && c != b'\\'
}

// Are bytes of a value or a name written as they are.
fn are_plain(quoted: bool, bytes: &[u8]) -> bool
    ensures { result ≡ list_all (plain quoted) bytes.now }
{
    bytes.iter().all(|byte| is_plain(quoted, *byte))
}

// Writes a byte of a value or a name: one character, or what stands for it.
// kept: the byte is any byte, and no number for a kind
fn write_spelled(text: &mut Writer, quoted: bool, byte: u8)
    requires { text.old.used + 4 ≤ length text.old.out.now }
    ensures short { text.new.used ≤ text.old.used + 4 }
    ensures ascii { IsAscii (char_spelled quoted byte) }
    ensures wrote { Wrote text.old (char_spelled quoted byte) text.new }
{
    if is_plain(quoted, byte) {
        text.bytes(&[byte]);
    } else if byte == b'"' || byte == b'\\' {
        text.bytes(&[b'\\', byte]);
    } else if byte == b'\n' {
        text.bytes(b"\\n");
    } else {
        text.bytes(&[b'\\', b'x', hex_digit(byte / 16), hex_digit(byte % 16)]);
    }
}

// Writes bytes of a value or a name from the start of a room on, and says where they end.
fn spell_part(quoted: bool, bytes: &[u8], room: &mut [u8]) -> usize
    requires { 4 * length bytes.now ≤ length room.old }
    ensures inside { result ≤ length room.new }
    ensures ascii { IsAscii (chars_spelled quoted bytes.now) }
    ensures text { take result room.new ≡ chars_spelled quoted bytes.now }
{
    let mut text = Writer::new(room);
    for byte in bytes {
        write_spelled(&mut text, quoted, *byte);
    }
    text.used
}

// Writes bytes of a value or a name at once: a write for each would cost more than to spell it.
// Bytes that are written as they are go out from where they lie, and others by a room of four characters for each.
fn write_part<W: fmt::Write>(f: &mut fmt::Formatter<W>, quoted: bool, part: &[u8]) -> fmt::Result
    requires { length part.now ≤ 64 }
    ensures { WritesOnOk W.write_str_gives f.old result (chars_spelled quoted part.now) f.new }
{
    if are_plain(quoted, part) {
        return f.write_str(str::from_utf8(part).unwrap());
    }
    let mut room = [0; 256];
    let used = spell_part(quoted, part, &mut room);
    f.write_str(str::from_utf8(&room[..used]).unwrap())
}

// The bytes of a value or a name, one behind the other.
#[derive(Clone, Copy)]
struct Characters<'a> {
    quoted: bool,
    bytes: &'a [u8],
}

// kept: a derive would not state the text
impl fmt::Display for Characters<'_> {
    ghost output = { λ c. Some (chars_spelled c.quoted c.bytes.now) };

    fn fmt<W: fmt::Write>(&self, f: &mut fmt::Formatter<W>) -> fmt::Result {
        for part in self.bytes.chunks(64) {
            write_part(f, self.quoted, part)?;
        }
        Ok(())
    }
}

// A value in quotes.
#[derive(Clone, Copy)]
pub struct Quoted<'a>(pub &'a [u8]);

// kept: a derive would not state the text
impl fmt::Display for Quoted<'_> {
    ghost output = { λ v. Some (value_spelled v.0.now) };

    fn fmt<W: fmt::Write>(&self, f: &mut fmt::Formatter<W>) -> fmt::Result {
        let characters = Characters {
            quoted: true,
            bytes: self.0,
        };
        write!(f, "\"{characters}\"")
    }
}

// A name without a / in front of it.
#[derive(Clone, Copy)]
pub struct Bare<'a>(pub &'a [u8]);

// kept: a derive would not state the text
impl fmt::Display for Bare<'_> {
    ghost output = { λ n. Some (chars_spelled false n.0.now) };

    fn fmt<W: fmt::Write>(&self, f: &mut fmt::Formatter<W>) -> fmt::Result {
        f.write(Characters {
            quoted: false,
            bytes: self.0,
        })
    }
}

// A call or a part of one in words.
#[derive(Clone, Copy)]
pub struct InWords<'a, T>(pub &'a T);

// A path of no names is a / alone.
// kept: a derive would not state the text
#[tactic(auto, unfolding(crate::specs::Spelled::many))]
impl fmt::Display for InWords<'_, Path> {
    ghost output = { λ p. Some (path_spelled (path_of p.0.now)) };

    fn fmt<W: fmt::Write>(&self, f: &mut fmt::Formatter<W>) -> fmt::Result {
        let names = &self.0.0;
        if names.is_empty() {
            return f.write_str("/");
        }
        for name in names {
            write!(f, "/{}", Bare(&name.0))?;
        }
        Ok(())
    }
}

// kept: a derive would not state the text
impl fmt::Display for InWords<'_, Expected> {
    ghost output = { λ x. Some (expect_spelled (expect_of x.0.now)) };

    fn fmt<W: fmt::Write>(&self, f: &mut fmt::Formatter<W>) -> fmt::Result {
        match self.0 {
            Expected::Any => Ok(()),
            Expected::Exactly(version) => write!(f, " version {}", version.0),
        }
    }
}

fn numbered_word(numbered: bool) -> &'static str
    ensures { result.now ≡ numbered_spelled numbered }
{
    if numbered { " numbered" } else { "" }
}

// The session that an entry goes with, where there is one.
#[derive(Clone, Copy)]
struct GoesWith(Session);

// kept: a derive would not state the text
impl fmt::Display for GoesWith {
    ghost output = { λ s. Some (session_spelled s.0.0) };

    fn fmt<W: fmt::Write>(&self, f: &mut fmt::Formatter<W>) -> fmt::Result {
        match self.0.0 {
            0 => Ok(()),
            session => write!(f, " session {session}"),
        }
    }
}

// kept: a derive would not state the text
#[tactic(auto, unfolding(crate::specs::Spelled::act_spelled))]
impl fmt::Display for InWords<'_, Act> {
    ghost output = { λ a. Some (act_spelled (act_of a.0.now)) };

    fn fmt<W: fmt::Write>(&self, f: &mut fmt::Formatter<W>) -> fmt::Result {
        match self.0 {
            Act::Make {
                path,
                value,
                numbered,
                session,
            } => write!(
                f,
                "make {} {}{}{}",
                InWords(path),
                Quoted(value),
                numbered_word(*numbered),
                GoesWith(*session),
            ),
            Act::Put {
                path,
                value,
                expected,
            } => write!(
                f,
                "put {} {}{}",
                InWords(path),
                Quoted(value),
                InWords(expected)
            ),
            Act::Drop { path, expected } => write!(
                f,
                "drop {}{}",
                InWords(path),
                InWords(expected)
            ),
            Act::Check { path, expected } => write!(
                f,
                "check {}{}",
                InWords(path),
                InWords(expected)
            ),
        }
    }
}

// Acts in braces.
#[derive(Clone, Copy)]
struct Braced<'a>(&'a [Act]);

// kept: a derive would not state the text
#[tactic(auto, unfolding(crate::specs::Spelled::many))]
impl fmt::Display for Braced<'_> {
    ghost output = { λ l. Some (braced_spelled (map act_of l.0.now)) };

    fn fmt<W: fmt::Write>(&self, f: &mut fmt::Formatter<W>) -> fmt::Result {
        f.write_str("do {")?;
        for act in self.0 {
            write!(f, " {};", InWords(act))?;
        }
        f.write_str(" }")
    }
}

// One act stands alone, any other number of them in braces.
// kept: a derive would not state the text
impl fmt::Display for InWords<'_, Vec<Act>> {
    ghost output = { λ l. Some (do_spelled (map act_of l.0.now.items)) };

    fn fmt<W: fmt::Write>(&self, f: &mut fmt::Formatter<W>) -> fmt::Result {
        match &self.0[..] {
            [act] => f.write(InWords(act)),
            acts => f.write(Braced(acts)),
        }
    }
}

// kept: a derive would not state the text
#[tactic(auto, unfolding(crate::specs::Spelled::call_spelled))]
impl fmt::Display for InWords<'_, Call> {
    ghost output = { λ c. Some (call_spelled (call_of c.0.now)) };

    fn fmt<W: fmt::Write>(&self, f: &mut fmt::Formatter<W>) -> fmt::Result {
        match self.0 {
            Call::Do(acts) => f.write(InWords(acts)),
            Call::Look(path) => write!(f, "look {}", InWords(path)),
            Call::Kids(path) => write!(f, "kids {}", InWords(path)),
            Call::Open => f.write_str("open"),
            Call::End(session) => write!(f, "end {}", session.0),
        }
    }
}
