// Messages of replicas, read where they lie: what stands at the front of bytes, and the bytes behind it.
#![tactic(auto)]

ghost use Rattle.std.specs.Prelude.{◌≡◌, ◌≤◌};
ghost use Rattle.std.specs.Option.{option_map};
ghost use Rattle.calls.specs.Reading.{behind};
ghost use Rattle.wire.specs.Messages.{view_at, id_at, refused_by, outcome_at, place_at, seats_at, prepare_at, promise_at, propose_at, alive_at, accepted_at, join_at, forward_at, kind_at, word_at, word_by};
ghost use Rattle.wire.specs.Kinds.{kind_number};
ghost use Rattle.wire.specs.Memory.{ReadProposal, ReadBy};

use agreement::{Joining, Place, ProposalId, View};
use calls::reading::{byte, flag, number, wholly};
use service::outcome::Outcome;
use tree::refusal::Refusal;
use wire::types::{Forwarded, Kind, Message, Proposal, Seats};

// A view, whose leader is one of so many replicas.
fn view(bytes: &[u8], all: u8) -> Option<(View, &[u8])>
    ensures { option_map behind result ≡ view_at all bytes.now }
{
    let (n, rest) = number(bytes)?;
    let (leader, rest) = byte(rest)?;
    if leader >= all {
        return None;
    }
    let (incarnation, rest) = number(rest)?;
    let view = View {
        number: n,
        leader,
        incarnation,
    };
    Some((view, rest))
}

fn id(bytes: &[u8], all: u8) -> Option<(ProposalId, &[u8])>
    ensures { option_map behind result ≡ id_at all bytes.now }
{
    let (view, rest) = view(bytes, all)?;
    let (seq, rest) = number(rest)?;
    Some((ProposalId { view, seq }, rest))
}

fn place(bytes: &[u8]) -> Option<(Place, &[u8])>
    ensures { option_map behind result ≡ place_at bytes.now }
{
    let (incarnation, rest) = number(bytes)?;
    let (no, rest) = number(rest)?;
    Some((Place { incarnation, no }, rest))
}

// The refusal that a byte says.
// kept: this is where the byte as it was read becomes a refusal
fn refused(byte: u8) -> Option<Refusal>
    requires { 1 ≤ byte }
    ensures { result ≡ refused_by byte }
{
    Refusal::try_from(byte - 1).ok()
}

// What is kept of the last write of a replica, if anything.
fn outcome(bytes: &[u8]) -> Option<(Option<Outcome>, &[u8])>
    ensures { option_map behind result ≡ outcome_at bytes.now }
{
    let (b, rest) = byte(bytes)?;
    match b {
        0 => Some((None, rest)),
        1 => Some((Some(Ok(())), rest)),
        _ => Some((Some(Err(refused(b)?)), rest)),
    }
}

// The places and outcomes of all seven.
fn seats(bytes: &[u8]) -> Option<(Seats, &[u8])>
    ensures { option_map behind result ≡ seats_at 7 bytes.now }
{
    let mut places = [Place {
        incarnation: 0,
        no: 0,
    }; 7];
    let mut outcomes = [None; 7];
    let mut rest = bytes;
    // kept: tried with places.iter_mut().zip(outcomes.iter_mut()): a proof knows nothing of what is written through them
    for i in 0..7usize {
        let (place, after) = place(rest)?;
        let (outcome, after) = outcome(after)?;
        places[i] = place;
        outcomes[i] = outcome;
        rest = after;
    }
    Some((Seats { places, outcomes }, rest))
}

// A proposal: its tree is all that is left of the bytes.
fn proposal(bytes: &[u8], all: u8) -> Option<Proposal<'_>>
    ensures { ReadProposal all bytes.now result }
{
    let (id, rest) = id(bytes, all)?;
    let (seats, tree) = seats(rest)?;
    Some(Proposal { id, seats, tree })
}

fn prepare(bytes: &[u8], all: u8) -> Option<Message<'_>>
    ensures { ReadBy (λ room bs. prepare_at room all bs) bytes.now result }
{
    let (view, rest) = view(bytes, all)?;
    wholly(Message::Prepare(view), rest)
}

fn promise(bytes: &[u8], all: u8) -> Option<Message<'_>>
    ensures { ReadBy (λ room bs. promise_at room all bs) bytes.now result }
{
    let (view, rest) = view(bytes, all)?;
    let (incarnation, rest) = number(rest)?;
    let proposal = proposal(rest, all)?;
    Some(Message::Promise {
        view,
        incarnation,
        proposal,
    })
}

fn propose(bytes: &[u8], all: u8) -> Option<Message<'_>>
    ensures { ReadBy (λ room bs. propose_at room all bs) bytes.now result }
{
    let (chosen, rest) = flag(bytes)?;
    let proposal = proposal(rest, all)?;
    Some(Message::Propose { proposal, chosen })
}

fn alive(bytes: &[u8], all: u8) -> Option<Message<'_>>
    ensures { ReadBy (λ room bs. alive_at room all bs) bytes.now result }
{
    let (id, rest) = id(bytes, all)?;
    let (chosen, rest) = flag(rest)?;
    let (named, rest) = number(rest)?;
    wholly(Message::Alive { id, chosen, named }, rest)
}

fn accepted(bytes: &[u8], all: u8) -> Option<Message<'_>>
    ensures { ReadBy (λ room bs. accepted_at room all bs) bytes.now result }
{
    let (id, rest) = id(bytes, all)?;
    let (incarnation, rest) = number(rest)?;
    wholly(Message::Accepted { id, incarnation }, rest)
}

fn join(bytes: &[u8]) -> Option<Message<'_>>
    ensures { ReadBy join_at bytes.now result }
{
    let (incarnation, rest) = number(bytes)?;
    let (replaces, rest) = number(rest)?;
    let joining = Joining {
        incarnation,
        replaces,
    };
    wholly(Message::Join(joining), rest)
}

// A call that is handed on: it is all that is left of the bytes.
fn forward(bytes: &[u8]) -> Option<Message<'_>>
    ensures { ReadBy forward_at bytes.now result }
{
    let (incarnation, rest) = number(bytes)?;
    let (no, rest) = number(rest)?;
    let (n, call) = number(rest)?;
    Some(Message::Forward(Forwarded {
        incarnation,
        no,
        number: n,
        call,
    }))
}

// The kind of a message, behind the form and the number of the beginning.
fn kind(bytes: &[u8]) -> Option<(u8, &[u8])>
    ensures { option_map behind result ≡ kind_at bytes.now }
{
    let (form, rest) = byte(bytes)?;
    if form != 0 {
        return None;
    }
    let (beginning, rest) = number(rest)?;
    if beginning != 0 {
        return None;
    }
    byte(rest)
}

// A message of this kind, behind the front: all of the bytes are one, or it is none.
// kept: a letter is taken apart by match
fn message(kind: Kind, bytes: &[u8], all: u8) -> Option<Message<'_>>
    ensures { ReadBy (λ room bs. word_by room all (kind_number kind) bs) bytes.now result }
{
    match kind {
        Kind::Prepare => prepare(bytes, all),
        Kind::Promise => promise(bytes, all),
        Kind::Propose => propose(bytes, all),
        Kind::Alive => alive(bytes, all),
        Kind::Accepted => accepted(bytes, all),
        Kind::Join => join(bytes),
        Kind::Forward => forward(bytes),
    }
}

// A message among so many replicas: all of the bytes are one, or it is none. Whether the bytes of a tree are one is left open.
pub fn read_message(bytes: &[u8], all: u8) -> Option<Message<'_>>
    ensures { ReadBy (λ room bs. word_at room all bs) bytes.now result }
{
    let (number, rest) = kind(bytes)?;
    let kind = Kind::try_from(number).ok()?;
    message(kind, rest, all)
}
