// What a call asks.
ghost use Rattle.std.specs.Prelude.{◌≡◌, false, true, ◌||◌};
ghost use Rattle.model.specs.Tree.{none, value_ok, core, one};
ghost use Rattle.calls.specs.Reading.{path_now, act_of, call_of, acts_in};
ghost use Rattle.calls.specs.Screening.{screened, LetIn};
ghost use Rattle.tree.specs.Answers.{numbered};
ghost use Rattle.service.specs.Service.{act_in_range, in_range, refusal_of};
ghost use Rattle.service.specs.Asking.{AskedAs, Plain, IsTheAct, asked_call, told_at_once, not_let_in};

use calls::reading::read_act;
use calls::screening::{NotLetIn, screen};
use calls::types::{Act, ActKind, Acts, Call};
use lent_bytes::paths::Path;
use tree::refusal::Refusal;

// What a call asks: it looks at a path, or asks for the names under one; or it writes by one act.
#[derive(Clone, Copy)]
pub enum Asked<'a> {
    Look(Path<'a>),
    Kids(Path<'a>),
    Write(Act<'a>),
}

// Why a call is refused at once, whatever the tree is: its bytes are not let in, or what it asks is out of range.
// kept: an error that holds the error of the reader, and one more of its own; an Option would give that one no name
#[derive(Clone, Copy, PartialEq, Eq)]
pub enum AtOnce {
    NotLetIn(NotLetIn),
    OutOfRange,
}

impl AtOnce {
    // The number that is said to it.
    pub fn number(self) -> u8
        ensures { result ≡ told_at_once self }
    {
        match self {
            AtOnce::NotLetIn(why) => why.number(),
            AtOnce::OutOfRange => Refusal::OutOfRange.number(),
        }
    }
}

// kept: std derives no From, and a function that ends by `?` needs what it gives
impl From<NotLetIn> for AtOnce {
    ghost from_gives = { λ why k. k ≡ not_let_in why };

    fn from(why: NotLetIn) -> AtOnce {
        AtOnce::NotLetIn(why)
    }
}

// The refusal that is kept of a write that was refused at once; what isn't built has none of its own.
// kept: std derives no From, and the clause says which refusal is whose
impl From<AtOnce> for Refusal {
    ghost from_gives = { λ why k. k ≡ refusal_of (told_at_once why) };

    fn from(why: AtOnce) -> Refusal {
        match why {
            AtOnce::NotLetIn(NotLetIn::NoCall) | AtOnce::OutOfRange => Refusal::OutOfRange,
            AtOnce::NotLetIn(NotLetIn::NotBuilt) => Refusal::Full,
        }
    }
}

// Is a path that of the top.
fn is_top(path: Path) -> bool
    ensures { result ≡ none (path_now path.entry) }
{
    path.names.is_empty()
}

// Is a value in range.
fn is_value(value: &[u8]) -> bool
    ensures { result ≡ value_ok value.now }
{
    value.len() <= 65536
}

// Are the path and the value of an act in range.
fn is_act(act: Act) -> bool
    requires { numbered act.kind ≡ false }
    ensures { result ≡ act_in_range (act_of act.entry) }
{
    if !act.path.is_ok() {
        return false;
    }
    match act.kind {
        ActKind::Make { .. } | ActKind::Put(_) => is_value(act.value),
        ActKind::Drop(_) | ActKind::Check(_) => true,
    }
}

// Is what a call asks in range.
fn is_in_range(asked: Asked) -> bool
    requires { Plain asked }
    ensures { result ≡ in_range (asked_call asked.entry) }
{
    match asked {
        Asked::Look(path) => path.is_ok(),
        Asked::Kids(path) => is_top(path) || path.is_ok(),
        Asked::Write(act) => is_act(act),
    }
}

// The one act of a call of the core.
fn the_act(acts: Acts<'_>) -> Act<'_>
    requires { one (acts_in acts.count acts.bytes.now) ≡ true }
    ensures { IsTheAct acts.entry result }
{
    read_act(acts.bytes).unwrap().0
}

// What a call of the core asks.
// kept: a call is taken apart by match
fn asked_by(call: Call<'_>) -> Asked<'_>
    requires { core (call_of call) ≡ true }
    ensures call { call_of call.entry ≡ asked_call result }
    ensures plain { Plain result }
{
    match call {
        Call::Do(acts) => Asked::Write(the_act(acts)),
        Call::Look(path) => Asked::Look(path),
        Call::Kids(path) => Asked::Kids(path),
        Call::Open => unreachable!(),
        Call::End(_) => unreachable!(),
    }
}

// What a call of the core asks, if it is in range.
fn ask_call(call: Call<'_>) -> Result<Asked<'_>, AtOnce>
    requires { core (call_of call) ≡ true }
    ensures { AskedAs (LetIn (call_of call.entry)) result }
{
    let asked = asked_by(call);
    if is_in_range(asked) {
        Ok(asked)
    } else {
        Err(AtOnce::OutOfRange)
    }
}

// What bytes that a client sent as a call ask, or why they are refused at once.
pub fn ask(bytes: &[u8]) -> Result<Asked<'_>, AtOnce>
    ensures { AskedAs (screened bytes.now) result }
{
    let call = screen(bytes)?;
    ask_call(call)
}
