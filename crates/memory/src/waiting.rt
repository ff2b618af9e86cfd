// The calls that wait here, and those that were forwarded.
ghost use Rattle.std.specs.Prelude.{◌≡◌, ℕ, ◌+◌, ◌*◌, ◌<◌, ◌≤◌, length, Some, None, slice_set};
ghost use Rattle.calls.specs.Screening.{screened};
ghost use Rattle.service.specs.Service.{looks, lines};
ghost use Rattle.agreement.specs.Content.{seven};
ghost use Rattle.memory.specs.Range.{WaitingIsShort};
ghost use Rattle.memory.specs.Keeps.{slot_at, state_in, waiting_in, queued_in, replies_in, forwarded, behind_all, Slots, Sound, PutAt, SameBeside, OldestDropped, QueueChanged};

use crate::lent::{Kept, Memory, Queued};
use calls::screening::screen;
use calls::types::Call;

// Writes bytes into a part.
// kept: append_bytes tells nothing of what is behind the part that it writes
fn write_at(out: &mut [u8], at: usize, bytes: &[u8])
    requires { at + length bytes.now ≤ length out.old }
    ensures { PutAt at bytes.now out.old out.new }
{
    let end = at + bytes.len();
    let part = &mut out[at..end];
    part.copy_from_slice(bytes);
}

// The call in a slot.
pub fn call_at<'b>(kept: Kept, memory: &'b Memory, slot: usize) -> &'b [u8]
    requires slots { Slots kept.slot memory.now.ends.now memory.now.calls.now }
    requires there { slot < 15 }
    ensures { result.now ≡ slot_at kept memory.now slot }
{
    let from = kept.slot * slot;
    let n = memory.ends[slot] as usize;
    &memory.calls[from..from + n]
}

// Does a call only look.
fn is_look(bytes: &[u8]) -> bool
    ensures { result ≡ looks (screened bytes.now) }
{
    matches!(screen(bytes), Ok(Call::Look(_) | Call::Kids(_)))
}

// Does the call in a slot only look.
pub fn is_read(kept: Kept, memory: &Memory, slot: usize) -> bool
    requires sound { Sound kept memory.now }
    requires there { slot < 15 }
    ensures { result ≡ looks (screened (slot_at kept memory.now slot)) }
{
    is_look(call_at(kept, memory, slot))
}

// A call comes in and waits behind the others.
pub fn put_call(mut kept: Kept, memory: &mut Memory, number: u64, call: &[u8]) -> Kept
    requires sound { Sound kept memory.old }
    requires few { kept.count < 8 }
    requires fits { length call.now ≤ kept.slot }
    ensures waiting { (room : ℕ) → waiting_in room result memory.new ≡ behind_all room (waiting_in room kept memory.old) number call.now }
    ensures queued { (room : ℕ) → queued_in room result memory.new ≡ queued_in room kept memory.old }
    ensures state { state_in result memory.new ≡ state_in kept memory.old }
    ensures count { result.count ≡ kept.count + 1 }
    ensures beside { SameBeside kept result }
    ensures replies { replies_in result memory.new ≡ replies_in kept memory.old }
    ensures sound { Sound result memory.new }
{
    let i = (kept.first + kept.count) % 8;
    write_at(memory.calls, kept.slot * i, call);
    memory.ends[i] = call.len() as u32;
    kept.numbers[i] = number;
    kept.count += 1;
    kept
}

// A call that a replica forwarded stands in for what it forwarded before.
pub fn put_queued(
    mut kept: Kept,
    memory: &mut Memory,
    by: usize,
    queued: Queued,
    call: &[u8],
) -> Kept
    requires sound { Sound kept memory.old }
    requires there { by < 7 }
    requires fits { length call.now ≤ kept.slot }
    ensures queued { (room : ℕ) → queued_in room result memory.new ≡ slice_set (queued_in room kept memory.old) by (Some (forwarded room call.now queued)) }
    ensures waiting { (room : ℕ) → waiting_in room result memory.new ≡ waiting_in room kept memory.old }
    ensures state { state_in result memory.new ≡ state_in kept memory.old }
    ensures count { result.count ≡ kept.count }
    ensures beside { SameBeside kept result }
    ensures replies { replies_in result memory.new ≡ replies_in kept memory.old }
    ensures sound { Sound result memory.new }
{
    let i = 8 + by;
    write_at(memory.calls, kept.slot * i, call);
    memory.ends[i] = call.len() as u32;
    kept.queue[by] = Some(queued);
    kept
}

// The call that waits longest waits no more.
pub fn drop_head(mut kept: Kept) -> Kept
    requires some { 0 < kept.count }
    requires first { kept.first < 8 }
    ensures dropped { OldestDropped kept result }
    ensures count { result.count + 1 ≡ kept.count }
{
    kept.first = (kept.first + 1) % 8;
    kept.count -= 1;
    kept
}

// What a replica forwarded is no longer to be done.
pub fn forget_queued(mut kept: Kept, by: usize) -> Kept
    requires { by < 7 }
    ensures { QueueChanged (λ room l. slice_set l by None) kept result }
{
    kept.queue[by] = None;
    kept
}

// Nothing that was forwarded is to be done.
pub fn forget_all(mut kept: Kept) -> Kept
    ensures { QueueChanged (λ room l. seven None) kept result }
{
    kept.queue = [None; 7];
    kept
}

// A call that is not answered at once fits every slot.
pub fn waiting_is_short() -> u8
    ensures { WaitingIsShort }
{
    0
}
