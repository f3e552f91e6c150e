// Kind 4, replica sync: the leader's log is taken over, and the entries that it synced leave early, late and the notes.
#![tactic(auto)]

ghost use Rattle.std.specs.Prelude.{◌≡◌, true, false, ◌∷◌, [], ◌++◌, ◌+◌, ◌-◌, ◌*◌, ◌<◌, ◌≤◌, length};
ghost use Rattle.octets.specs.Bytes.{splice, flat};
ghost use Rattle.rules.specs.Choice.{pick, keep};
ghost use Rattle.rules.specs.Entry.{entry_of};
ghost use Rattle.rules.specs.Log.{last_of};
ghost use Rattle.rules.specs.Wire.{wire_bytes};
ghost use Rattle.rules.specs.Read.{length_for};
ghost use Rattle.rules.specs.Step.{slow_reply, on_replica_sync};
ghost use Rattle.rules.specs.Bytes.{left, closes};
ghost use Rattle.rules.specs.Image.{image, state_of};
ghost use Rattle.places.specs.Layout.{Stands};
ghost use Rattle.handler.specs.Handler.{Ready, handled};
ghost use Rattle.early.specs.Listed as listing;
ghost use Rattle.early.specs.Listed.{listed_in, indexed};
ghost use Rattle.syncs.specs.Takes.{late_by, synced_by, slow_replies, takes, Coming};

use early::{Index, Listed};
use rules::{Answer, Entry, Message, Refusal, Shape, kind};

// ---- the state

// How long the late buffer becomes, before anything is written.
fn late_length(shape: Shape, state: &[u8], log: Index, last: Entry) -> usize
    requires { Stands shape (state_of shape state.now) state.now × listing.Ready log × (last ≡ last_of (indexed log)) }
    ensures { result ≡ length (late_by (state_of shape state.now) (indexed log.entry)) }
{
    let places = places::places_of(shape);
    early::late_after(
        &state[places.early..places.notes],
        shape.c as usize,
        log,
        last,
    )
}

// Takes the log over: synced entries leave early, late and the notes, and the sync point becomes the log's length.
fn sync_state(shape: Shape, state: &mut [u8], log: Index, last: Entry)
    requires { let st = state_of shape state.old in
        Stands shape st state.old × listing.Ready log × (last ≡ last_of (indexed log)) × (log.listed.count ≤ shape.c)
        × (length (late_by st (indexed log)) ≤ shape.c) }
    ensures { state.new ≡ image shape (synced_by (state_of shape state.old) (indexed log.entry)) }
{
    let places = places::places_of(shape);
    let c = shape.c as usize;
    early::settle(&mut state[places.early..places.notes], c, log, last);
    early::leave_notes(
        &mut state[places.notes..places.votes],
        c,
        shape.s as usize,
        log,
    );
    let Listed { at, count } = log.listed;
    places::put_table(shape, state, places.log, log.bytes, at, count);
    places::put_sync(state, count as u64);
}

// ---- what is told

// Writes kind 6 for position i of the log at `at`: the entry as it stands in the message. Says where it ends.
// The message is lent by itself, not in an Index: that its elements are bytes is known of a slice that is a parameter.
fn tell_slow(
    shape: Shape,
    state: &[u8],
    out: &mut [u8],
    at: usize,
    message: &[u8],
    log: Listed,
    i: usize,
) -> usize
    requires { Coming shape state.now message.now log × (i < log.count) × (at + length_for shape.s 6 1 ≤ length out.old) }
    ensures { (result ≡ at + length_for shape.s 6 1)
        × (out.new ≡ splice out.old at (wire_bytes (slow_reply (state_of shape state.now) (listed_in message.now log) i))) }
{
    let from = log.at + 24 * i;
    let header = handler::headed(state, kind::SLOW_REPLY, rules::OUTSIDE, 1);
    let reply = Message::SlowReply(header, (i + 1) as u64);
    handler::tell(shape, state, out, at, reply, &message[from..from + 24])
}

// How long the outgoing messages are: one for each position past the sync point.
fn slow_length(shape: Shape, state: &[u8], message: &[u8], log: Listed) -> usize
    requires { Coming shape state.now message.now log }
    ensures { result ≡ length_for shape.s 6 1 * (log.count - (state_of shape state.now).logged.sync) }
{
    let sync = places::get_sync(state) as usize;
    kinds::length_for(shape.s, kind::SLOW_REPLY, 1) * (log.count - sync)
}

// Writes kind 6 for each position past the sync point, and says where the last ends.
fn tell_synced(shape: Shape, state: &[u8], out: &mut [u8], message: &[u8], log: Listed) -> usize
    requires { Coming shape state.now message.now log × (length_for shape.s 6 1 * (log.count - (state_of shape state.now).logged.sync) ≤ length out.old) }
    ensures { let replies = slow_replies (state_of shape state.now) (listed_in message.now log) in
        (result ≡ length (flat wire_bytes replies)) × (out.new ≡ splice out.old 0 (flat wire_bytes replies)) }
{
    let sync = places::get_sync(state) as usize;
    let mut at = 0;
    for i in sync..log.count {
        at = tell_slow(shape, state, out, at, message, log, i);
    }
    at
}

// ---- the step

// Takes the log over and tells it, unless late or the outgoing buffer has no room. All is tested before anything is written.
fn sync_by(shape: Shape, state: &mut [u8], out: &mut [u8], log: Index) -> Answer
    requires { Coming shape state.old log.bytes.now log.listed × listing.Ready log }
    ensures { let b = state.old in
        left result state.new out.new ≡ closes shape b out.old (takes shape (state_of shape b) (indexed log.entry)) }
{
    let Listed { at, count } = log.listed;
    let last = entries::entry_at(log.bytes, at + 24 * (count - 1));
    let late = late_length(shape, state, log, last);
    if shape.c < late as u64 {
        return Err(Refusal::Full);
    }
    if out.len() < slow_length(shape, state, log.bytes, log.listed) {
        return Err(Refusal::NoRoom);
    }
    let sent = tell_synced(shape, state, out, log.bytes, log.listed);
    sync_state(shape, state, log, last);
    Ok(sent)
}

// Kind 4: the leader's log is taken over where it is longer than the own sync point, and each position past that is told.
pub fn on_replica_sync(
    shape: Shape,
    state: &mut [u8],
    m: Message,
    message: &[u8],
    out: &mut [u8],
    slots: &mut [u16],
) -> Answer
    requires { Ready shape state.old m message.now }
    ensures { left result state.new out.new ≡ handled 4 on_replica_sync shape m state.old message.now out.old }
{
    let Message::ReplicaSync(_) = m else {
        return Err(Refusal::Malformed(0));
    };
    let place = kinds::entries_at(shape.s, kind::REPLICA_SYNC);
    let count = octets::get32(message, place) as usize;
    if count as u64 <= places::get_sync(state) {
        return Err(Refusal::NothingToDo);
    }
    if shape.c < count as u64 {
        return Err(Refusal::Full);
    }
    let listed = Listed {
        at: place + 4,
        count,
    };
    early::list(message, listed, slots);
    let log = Index {
        bytes: message,
        listed,
        slots,
    };
    sync_by(shape, state, out, log)
}
