// Messages of replicas, written into lent memory: each thing behind what the buffer has so far.
#![tactic(auto)]

ghost use Rattle.std.specs.Prelude.{◌≡◌, ◌+◌, ◌≤◌, [], ◌∷◌, ◌++◌, length};
ghost use Rattle.lent_bytes.specs.Numbers.{be8};
ghost use Rattle.lent_bytes.specs.Writers.{Wrote};
ghost use Rattle.lent_bytes.specs.Writing.{Added};
ghost use Rattle.calls.specs.Format.{flag_written};
ghost use Rattle.wire.specs.Messages.{front, view_bytes, id_bytes, outcome_byte, seat_bytes, seats_bytes};
ghost use Rattle.wire.specs.Kinds.{kind_number};
ghost use Rattle.wire.specs.Memory.{proposal_written, message_written, message_long};

use agreement::{Joining, Place, ProposalId, View};
use lent_bytes::writing::Writer;
use service::outcome::Outcome;
use wire::types::{Forwarded, Kind, Message, Proposal, Seats};

// Begins a message of a kind.
fn write_front(out: &mut Writer, kind: Kind)
    requires { out.old.used + 10 ≤ length out.old.out.now }
    ensures used { out.new.used ≡ out.old.used + 10 }
    ensures wrote { Wrote out.old (front (kind_number kind) []) out.new }
{
    out.bytes(&[0, 0, 0, 0, 0, 0, 0, 0, 0, kind.number()]);
}

fn write_flag(out: &mut Writer, flag: bool)
    requires { out.old.used + 1 ≤ length out.old.out.now }
    ensures used { out.new.used ≡ out.old.used + 1 }
    ensures wrote { Wrote out.old (flag_written flag ∷ []) out.new }
{
    out.bytes(&[u8::from(flag)]);
}

fn write_view(out: &mut Writer, view: View)
    requires { out.old.used + 17 ≤ length out.old.out.now }
    ensures used { out.new.used ≡ out.old.used + 17 }
    ensures wrote { Wrote out.old (view_bytes view) out.new }
{
    out.u64(view.number);
    out.bytes(&[view.leader]);
    out.u64(view.incarnation);
}

fn write_id(out: &mut Writer, id: ProposalId)
    requires { out.old.used + 25 ≤ length out.old.out.now }
    ensures used { out.new.used ≡ out.old.used + 25 }
    ensures wrote { Wrote out.old (id_bytes id) out.new }
{
    write_view(out, id.view);
    out.u64(id.seq);
}

fn outcome_byte(outcome: Option<Outcome>) -> u8
    ensures { result ≡ outcome_byte outcome }
{
    match outcome {
        None => 0,
        Some(Ok(())) => 1,
        Some(Err(refusal)) => 1 + refusal.number(),
    }
}

fn write_seat(out: &mut Writer, place: Place, outcome: Option<Outcome>)
    requires { out.old.used + 17 ≤ length out.old.out.now }
    ensures used { out.new.used ≡ out.old.used + 17 }
    ensures wrote { Wrote out.old (seat_bytes place outcome) out.new }
{
    out.u64(place.incarnation);
    out.u64(place.no);
    out.bytes(&[outcome_byte(outcome)]);
}

fn write_seats(out: &mut Writer, seats: Seats)
    requires { out.old.used + 119 ≤ length out.old.out.now }
    ensures used { out.new.used ≡ out.old.used + 119 }
    ensures wrote { Wrote out.old (seats_bytes seats.places seats.outcomes) out.new }
{
    for (place, outcome) in seats.places.iter().zip(&seats.outcomes) {
        write_seat(out, *place, *outcome);
    }
}

// A proposal: its tree is copied as it is.
fn write_proposal(out: &mut Writer, proposal: Proposal)
    requires { out.old.used + 144 + length proposal.tree.now ≤ length out.old.out.now }
    ensures used { out.new.used ≡ out.old.used + 144 + length proposal.entry.tree.now }
    ensures wrote { Wrote out.old (proposal_written proposal.entry) out.new }
{
    write_id(out, proposal.id);
    write_seats(out, proposal.seats);
    out.bytes(proposal.tree);
}

// Promise this view to its leader.
fn write_prepare(out: &mut Writer, view: View)
    requires { out.old.used + 27 ≤ length out.old.out.now }
    ensures used { out.new.used ≡ out.old.used + 27 }
    ensures wrote { Wrote out.old (front 1 (view_bytes view)) out.new }
{
    write_front(out, Kind::Prepare);
    write_view(out, view);
}

// A promise, with the proposal that is held.
fn write_promise(out: &mut Writer, view: View, incarnation: u64, proposal: Proposal)
    requires { out.old.used + 179 + length proposal.tree.now ≤ length out.old.out.now }
    ensures used { out.new.used ≡ out.old.used + 179 + length proposal.entry.tree.now }
    ensures wrote { Wrote out.old (front 2 (view_bytes view ++ (be8 incarnation ++ proposal_written proposal.entry))) out.new }
{
    write_front(out, Kind::Promise);
    write_view(out, view);
    out.u64(incarnation);
    write_proposal(out, proposal);
}

// A proposal, and whether it is chosen.
fn write_propose(out: &mut Writer, proposal: Proposal, chosen: bool)
    requires { out.old.used + 155 + length proposal.tree.now ≤ length out.old.out.now }
    ensures used { out.new.used ≡ out.old.used + 155 + length proposal.entry.tree.now }
    ensures wrote { Wrote out.old (front 3 (flag_written chosen ∷ proposal_written proposal.entry)) out.new }
{
    write_front(out, Kind::Propose);
    write_flag(out, chosen);
    write_proposal(out, proposal);
}

// The leader still leads.
fn write_alive(out: &mut Writer, id: ProposalId, chosen: bool, named: u64)
    requires { out.old.used + 44 ≤ length out.old.out.now }
    ensures used { out.new.used ≡ out.old.used + 44 }
    ensures wrote { Wrote out.old (front 4 (id_bytes id ++ (flag_written chosen ∷ be8 named))) out.new }
{
    write_front(out, Kind::Alive);
    write_id(out, id);
    write_flag(out, chosen);
    out.u64(named);
}

// A proposal is held.
fn write_accepted(out: &mut Writer, id: ProposalId, incarnation: u64)
    requires { out.old.used + 43 ≤ length out.old.out.now }
    ensures used { out.new.used ≡ out.old.used + 43 }
    ensures wrote { Wrote out.old (front 5 (id_bytes id ++ be8 incarnation)) out.new }
{
    write_front(out, Kind::Accepted);
    write_id(out, id);
    out.u64(incarnation);
}

// A replica wants to be written in.
fn write_join(out: &mut Writer, joining: Joining)
    requires { out.old.used + 26 ≤ length out.old.out.now }
    ensures used { out.new.used ≡ out.old.used + 26 }
    ensures wrote { Wrote out.old (front 6 (be8 joining.incarnation ++ be8 joining.replaces)) out.new }
{
    write_front(out, Kind::Join);
    out.u64(joining.incarnation);
    out.u64(joining.replaces);
}

// A call that is handed on: it is copied as it is.
fn write_forward(out: &mut Writer, asked: Forwarded)
    requires { out.old.used + 34 + length asked.call.now ≤ length out.old.out.now }
    ensures used { out.new.used ≡ out.old.used + 34 + length asked.entry.call.now }
    ensures wrote { Wrote out.old (front 7 (be8 asked.entry.incarnation ++ (be8 asked.entry.no ++ (be8 asked.entry.number ++ asked.entry.call.now)))) out.new }
{
    write_front(out, Kind::Forward);
    out.u64(asked.incarnation);
    out.u64(asked.no);
    out.u64(asked.number);
    out.bytes(asked.call);
}

// Writes a message behind what was written so far.
// kept: a letter is taken apart by match
fn write_next(out: &mut Writer, message: Message)
    requires { out.old.used + message_long message ≤ length out.old.out.now }
    ensures used { out.new.used ≡ out.old.used + message_long message.entry }
    ensures wrote { Wrote out.old (message_written message.entry) out.new }
{
    match message {
        Message::Prepare(view) => write_prepare(out, view),
        Message::Promise {
            view,
            incarnation,
            proposal,
        } => write_promise(out, view, incarnation, proposal),
        Message::Propose { proposal, chosen } => write_propose(out, proposal, chosen),
        Message::Alive { id, chosen, named } => write_alive(out, id, chosen, named),
        Message::Accepted { id, incarnation } => write_accepted(out, id, incarnation),
        Message::Join(joining) => write_join(out, joining),
        Message::Forward(asked) => write_forward(out, asked),
    }
}

// Writes a message at the start of a buffer, and says where it ends.
pub fn write_message(out: &mut [u8], message: Message) -> usize
    requires { message_long message ≤ length out.old }
    ensures end { result ≡ message_long message.entry }
    ensures added { Added 0 out.old (message_written message.entry) result out.new }
{
    let mut writer = Writer::new(out);
    write_next(&mut writer, message);
    writer.used
}
