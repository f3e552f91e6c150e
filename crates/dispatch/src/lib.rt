// The handler of each kind of message.
#![tactic(auto)]

ghost use Rattle.std.specs.Prelude.{◌≡◌, ◌+◌, ◌*◌, ◌≤◌, length};
ghost use Rattle.rules.specs.Wire.{tag_of};
ghost use Rattle.rules.specs.Read.{wire_in};
ghost use Rattle.rules.specs.Image.{state_of};
ghost use Rattle.rules.specs.Bytes.{left, closes};
ghost use Rattle.rules.specs.Step as steps;
ghost use Rattle.handler.specs.Handler.{Ready};
ghost use Rattle.dispatch.specs.Concluded.{concluded};

use rules::{Answer, Message, Refusal, Shape};

// Kinds 8 and 19: what they conclude with goes into the lent table first.
fn conclude(
    shape: Shape,
    state: &mut [u8],
    m: Message,
    message: &[u8],
    out: &mut [u8],
    slots: &mut [u16],
    table: &mut [u8],
) -> Answer
    requires { Ready shape state.old m message.now × (length table.old ≡ 4 + 24 * shape.c) }
    ensures { left result state.new out.new ≡ concluded shape m state.old message.now out.old }
{
    match m {
        Message::VerifyReply(_) => {
            replies::on_verify_reply(shape, state, m, message, out, slots, table)
        }
        _ => votes::on_vote(shape, state, m, message, out, slots, table),
    }
}

// With a table of ROOM bytes, never inlined: each size has a frame of its own.
#[inline(never)]
fn conclude_in<const ROOM: usize>(
    shape: Shape,
    state: &mut [u8],
    m: Message,
    message: &[u8],
    out: &mut [u8],
    slots: &mut [u16],
) -> Answer
    requires { Ready shape state.old m message.now × (4 + 24 * shape.c ≤ ROOM) × (ROOM ≤ 98308) }
    ensures { left result state.new out.new ≡ concluded shape m state.old message.now out.old }
{
    let mut room = [0u8; ROOM];
    let end = 4 + 24 * shape.c as usize;
    let table = &mut room[..];
    conclude(shape, state, m, message, out, slots, &mut table[0..end])
}

// With a table by the capacity, for at most 16 entries, 256 or 4096: a state with few is not charged for the room of many, nor other kinds for any.
fn concluding(
    shape: Shape,
    state: &mut [u8],
    m: Message,
    message: &[u8],
    out: &mut [u8],
    slots: &mut [u16],
) -> Answer
    requires { Ready shape state.old m message.now }
    ensures { left result state.new out.new ≡ concluded shape m state.old message.now out.old }
{
    if shape.c <= 16 {
        return conclude_in::<388>(shape, state, m, message, out, slots);
    }
    if shape.c <= 256 {
        return conclude_in::<6148>(shape, state, m, message, out, slots);
    }
    conclude_in::<98308>(shape, state, m, message, out, slots)
}

// The handler of the message's kind.
pub fn handle(
    shape: Shape,
    state: &mut [u8],
    m: Message,
    message: &[u8],
    out: &mut [u8],
    slots: &mut [u16],
) -> Answer
    requires { Ready shape state.old m message.now }
    ensures { let b = state.old in
        let outcome = steps.handle (tag_of m) shape (state_of shape b) (wire_in shape.s message.now) in
        left result state.new out.new ≡ closes shape b out.old outcome }
{
    match m {
        Message::WrongSizes => Err(Refusal::Malformed(0)),
        Message::Malformed(_) => Err(Refusal::Malformed(0)),
        Message::FastReply(_, _, _, _) => Err(Refusal::Malformed(0)),
        Message::SlowReply(_, _) => Err(Refusal::Malformed(0)),
        Message::Transaction(_, _, _) => arrivals::on_transaction(shape, state, m, message, out),
        Message::Note(_) => arrivals::on_note(shape, state, m, message, out),
        Message::ReplicaSync(_) => syncs::on_replica_sync(shape, state, m, message, out, slots),
        Message::ChangeView(_) => changes::on_change_view(shape, state, m, message, out),
        Message::Vote(_, _, _) => concluding(shape, state, m, message, out, slots),
        Message::StartView(_) => changes::on_start_view(shape, state, m, message, out),
        Message::SyncStatus(_, _) => commits::on_sync_status(shape, state, m, message, out),
        Message::Commit(_, _) => commits::on_commit(shape, state, m, message, out),
        Message::VerifyRequest(_, _) => verify::on_verify_request(shape, state, m, message, out),
        Message::VerifyReply(_) => concluding(shape, state, m, message, out, slots),
        Message::Tick(_, _) => ticks::on_tick(shape, state, m, message, out, slots),
    }
}
