// Answers as bytes.
ghost use Rattle.std.specs.Prelude.{◌≡◌, ℕ, ◌+◌, ◌-◌, ◌*◌, ◌<◌, ◌≤◌, true, [], ◌∷◌, length};
ghost use Rattle.model.specs.Tree.{No, Done, Entry', Do, Look, Kids, does, path_ok};
ghost use Rattle.cells.specs.Entries.{tree_state};
ghost use Rattle.calls.specs.Reading.{act_of, path_now};
ghost use Rattle.calls.specs.Screening.{LetIn};
ghost use Rattle.service.specs.Service.{say_to};
ghost use Rattle.service.specs.Answering.{Says};

use crate::outcome::Outcome;
use calls::types::{Act, ActKind};
use cells::held::Tree;
use lent_bytes::paths::Path;
use lent_bytes::writing::Writer;
use tree::looking::{Seen, kids, look};

// The answer to what is refused.
// kept: the number is that of one of two enums, a refusal or why a call is refused at once
pub fn say_refused(number: u8, out: &mut [u8]) -> usize
    requires { 3 ≤ length out.old }
    ensures { Says (No 0 number) out.new result }
{
    let mut answer = Writer::new(out);
    answer.bytes(&[0, 0, number]);
    answer.used
}

// The answer to what was done and made nothing.
fn say_done(out: &mut [u8]) -> usize
    requires { 2 ≤ length out.old }
    ensures { Says (Done []) out.new result }
{
    let mut answer = Writer::new(out);
    answer.bytes(&[1, 0]);
    answer.used
}

// How many names a path has.
fn count_names(path: Path) -> u8
    requires { length (path_now path) < 256 }
    ensures { result ≡ length (path_now path.entry) }
{
    let mut names = path.names;
    let mut count = 0u8;
    while let Some((n, rest)) = names.split_first() {
        names = &rest[*n as usize..];
        count += 1;
    }
    count
}

// The answer to a making that was done.
fn say_made(path: Path<'_>, out: &mut [u8]) -> usize
    requires few { length (path_now path) < 256 }
    requires room { 3 + length path.names.now ≤ length out.old }
    ensures { Says (Done (path_now path.entry ∷ [])) out.new result }
{
    let mut answer = Writer::new(out);
    answer.bytes(&[1, 1, count_names(path)]);
    answer.bytes(path.names);
    answer.used
}

// The answer to a look at an entry.
fn say_entry(seen: Seen, out: &mut [u8]) -> usize
    requires value { length seen.value.now < 4294967296 }
    requires room { 45 + length seen.value.now ≤ length out.old }
    ensures { Says (Entry' seen.entry.value.now seen.entry.head.version.0 seen.entry.head.made.0 seen.entry.head.changed.0 seen.entry.head.kids.0 seen.entry.head.owner.0) out.new result }
{
    let mut answer = Writer::new(out);
    answer.bytes(&[2]);
    answer.u32(seen.value.len() as u32);
    answer.bytes(seen.value);
    answer.u64(seen.head.version.0);
    answer.u64(seen.head.made.0);
    answer.u64(seen.head.changed.0);
    answer.u64(seen.head.kids.0);
    answer.u64(seen.head.owner.0);
    answer.used
}

// The answer to a call for the names under a path.
pub fn say_kids(tree: Tree<'_>, path: Path<'_>, out: &mut [u8]) -> usize
    requires room { 5 + 65 * (length tree.places.now - 1) ≤ length out.old }
    requires small { length out.old < 4294967296 }
    ensures { (room : ℕ) → Says (does room (Kids (path_now path.entry)) (tree_state tree.entry)).reply out.new result }
{
    let listed = match kids(tree, path, &mut out[5..]) {
        Err(refusal) => return say_refused(refusal.number(), out),
        Ok(listed) => listed,
    };
    let n = (listed.count as u32).to_be_bytes();
    out[0..5].copy_from_slice(&[3, n[0], n[1], n[2], n[3]]);
    5 + listed.end
}

// The answer to a look at a path.
pub fn say_look(tree: Tree<'_>, path: Path<'_>, out: &mut [u8]) -> usize
    requires { 65581 ≤ length out.old }
    ensures { (room : ℕ) → Says (does room (Look (path_now path.entry)) (tree_state tree.entry)).reply out.new result }
{
    match look(tree, path) {
        Err(refusal) => say_refused(refusal.number(), out),
        Ok(seen) => say_entry(seen, out),
    }
}

// The answer to a write, from what was kept of it.
pub fn say_write(act: Act, outcome: Outcome, out: &mut [u8]) -> usize
    requires range { path_ok (path_now act.path) ≡ true }
    requires room { 1043 ≤ length out.old }
    ensures { Says (say_to (LetIn (Do (act_of act.entry ∷ []))) outcome) out.new result }
{
    match outcome {
        Err(refusal) => say_refused(refusal.number(), out),
        Ok(()) => match act.kind {
            ActKind::Make { .. } => say_made(act.path, out),
            ActKind::Put(_) | ActKind::Drop(_) | ActKind::Check(_) => say_done(out),
        },
    }
}
