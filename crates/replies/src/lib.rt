// Answers in words, from their bytes.
#![tactic(auto)]

ghost use Rattle.std.specs.Prelude.{◌≡◌, IfOk};
ghost use Rattle.std.specs.Option.{option_map};
ghost use Rattle.std.specs.String.{string_bytes};
ghost use Rattle.calls.specs.Format.{done_at, names_in, decode_reply};
ghost use Rattle.replies.specs.Answers.{reply_spelled};
ghost use Rattle.replies.specs.Telling.{Telling};
ghost use Rattle.replies.specs.ByShape.{AnswerSpelled};

mod lists;
mod printing;
mod reading;
mod untold;

use calls::reading::{byte, length, wholly};
use lists::{tell_names, tell_paths};
use reading::{read_entry, read_refusal, read_session};
use std::alloc::{AllocError, Global};
use untold::Untold;

// kept: it is known only behind the last of the paths whether there is something to print
fn tell_done(out: &mut String, bytes: &[u8]) -> Result<(), Untold>
    ensures { Telling (done_at bytes.now) result (string_bytes out.old) (string_bytes out.new) }
{
    let (count, paths) = byte(bytes).ok_or(Untold::NoAnswer)?;
    out.push_str("done")?;
    let rest = tell_paths(out, paths, count)?;
    wholly((), rest).ok_or(Untold::NoAnswer)
}

// kept: as for tell_done
fn tell_kids(out: &mut String, bytes: &[u8]) -> Result<(), Untold>
    ensures { Telling (names_in bytes.now) result (string_bytes out.old) (string_bytes out.new) }
{
    let (count, names) = length(bytes).ok_or(Untold::NoAnswer)?;
    out.push_str("names")?;
    let rest = tell_names(out, " ", names, count)?;
    wholly((), rest).ok_or(Untold::NoAnswer)
}

fn tell(out: &mut String, bytes: &[u8]) -> Result<(), Untold>
    ensures { Telling (decode_reply bytes.now) result (string_bytes out.old) (string_bytes out.new) }
{
    let (kind, rest) = byte(bytes).ok_or(Untold::NoAnswer)?;
    match kind {
        0 => write!(out, "{}", read_refusal(rest).ok_or(Untold::NoAnswer)?)?,
        1 => tell_done(out, rest)?,
        2 => write!(out, "{}", read_entry(rest).ok_or(Untold::NoAnswer)?)?,
        3 => tell_kids(out, rest)?,
        4 => {
            let session = read_session(rest).ok_or(Untold::NoAnswer)?;
            write!(out, "session {session}")?;
        }
        _ => return Err(Untold::NoAnswer),
    }
    Ok(())
}

// The answer in words; none where the bytes are no answer.
// The words of a refusal, a session and an entry are told by the shape of the bytes too.
pub fn answer_in_words(heap: Global, bytes: &[u8]) -> Result<Option<String>, AllocError>
    ensures as_read { IfOk result (λ text. option_map string_bytes text ≡ option_map reply_spelled (decode_reply bytes.now)) }
    ensures by_shape { IfOk result (λ text. AnswerSpelled bytes.now (option_map string_bytes text)) }
{
    let mut text = String::new(heap);
    match tell(&mut text, bytes) {
        Ok(()) => Ok(Some(text)),
        Err(Untold::NoAnswer) => Ok(None),
        Err(Untold::Memory) => Err(AllocError),
    }
}
