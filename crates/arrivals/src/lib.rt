// The handlers of transaction (kind 1) and timestamp note (kind 3): what arrives is put into the early or the late buffer, and the notes are kept.
#![tactic(auto)]

ghost use Rattle.std.specs.Prelude.{◌≡◌, true, false, [], ◌∷◌, ◌++◌, ◌<◌, ◌≤◌, ltb, length};
ghost use Rattle.octets.specs.Bytes.{splice, flat};
ghost use Rattle.rules.specs.Group.{holds};
ghost use Rattle.rules.specs.Entry.{among};
ghost use Rattle.rules.specs.State.{with_waiting};
ghost use Rattle.rules.specs.Image.{table_at, image, state_of};
ghost use Rattle.rules.specs.Wire.{wire_bytes};
ghost use Rattle.rules.specs.Early.{keep_note, put_early, lifted};
ghost use Rattle.rules.specs.Step.{known_to, leader_takes, follower_takes, on_transaction, on_note};
ghost use Rattle.rules.specs.Bytes.{left, closes};
ghost use Rattle.rules.proofs.Order.{Sorted};
ghost use Rattle.entries.specs.Table.{Table};
ghost use Rattle.notes.specs.Notes.{row};
ghost use Rattle.places.specs.Layout.{Midway, Stands};
ghost use Rattle.handler.specs.Handler.{Ready, handled};
ghost use Rattle.arrivals.specs.Taken.{note_sends, taken_early, Lifting};

use handler::Asking;
use rules::{Answer, Entry, Message, Refusal, Shape, kind};

// ---- what stands in the tables

// Whether the transaction of e stands in a table.
fn is_among(t: &[u8], c: usize, e: Entry) -> bool
    requires { Table c t.now }
    ensures { result ≡ among (table_at c t.now 0) e }
{
    let n = entries::count(t);
    entries::find(t, 4, n, e.request, e.coordinator) < n
}

// ---- what changes them

// Keeps group j's timestamp of e's transaction.
fn keep_note(shape: Shape, state: &mut [u8], e: Entry, j: u64, stamp: u64)
    requires { Midway shape (state_of shape state.old) state.old
        × (row e.request e.coordinator (state_of shape state.old).waiting.notes < shape.c) × (j < shape.s) }
    ensures { let st = state_of shape state.old in
        let notes = keep_note shape e j stamp st.waiting.notes in
        Midway shape (with_waiting st.waiting.early st.waiting.late notes st) state.new }
{
    let layout = places::places_of(shape);
    let c = shape.c as usize;
    let s = shape.s as usize;
    notes::keep(
        &mut state[layout.notes..layout.votes],
        c,
        s,
        e,
        j as usize,
        stamp,
    );
}

// Keeps a note, and lifts the early entry where it was the last that was missing.
fn keep_and_lift(shape: Shape, state: &mut [u8], e: Entry, j: u64, stamp: u64)
    requires { let st = state_of shape state.old in
        Midway shape st state.old × Lifting shape e j stamp st.waiting.early st.waiting.notes }
    ensures { let st = state_of shape state.old in
        let notes = keep_note shape e j stamp st.waiting.notes in
        state.new ≡ image shape (with_waiting (lifted shape notes e st.waiting.early) st.waiting.late notes st) }
{
    keep_note(shape, state, e, j, stamp);
    stamps::lift(shape, state, e);
}

// ---- what is known already

// Whether the transaction of e stands in log, early or late.
fn known(shape: Shape, state: &[u8], e: Entry) -> bool
    requires { Midway shape (state_of shape state.now) state.now }
    ensures { result ≡ known_to (state_of shape state.now) e }
{
    let c = shape.c as usize;
    let logged = is_among(places::log(shape, state), c, e);
    let early = is_among(places::early(shape, state), c, e);
    let late = is_among(places::late(shape, state), c, e);
    logged | (early | late)
}

// Whether there is room for a note of e's transaction: it has one, or there are fewer than fit.
fn room_for_note(shape: Shape, state: &[u8], e: Entry) -> bool
    requires { Midway shape (state_of shape state.now) state.now }
    ensures { result ≡ ltb (row e.request e.coordinator (state_of shape state.now).waiting.notes) shape.c }
{
    let c = shape.c as usize;
    let s = shape.s as usize;
    notes::find(places::notes(shape, state), c, s, e.request, e.coordinator) < c
}

// ---- taking an entry

// Puts e into early, in its place.
fn add_early(shape: Shape, state: &mut [u8], e: Entry)
    requires { let st = state_of shape state.old in
        Midway shape st state.old × (length st.waiting.early < shape.c) × Sorted st.waiting.early }
    ensures { let st = state_of shape state.old in
        Midway shape (with_waiting (put_early e st.waiting.early) st.waiting.late st.waiting.notes st) state.new }
{
    let layout = places::places_of(shape);
    early::put(&mut state[layout.early..layout.late], shape.c as usize, e);
}

// Puts e after the last late entry.
fn add_late(shape: Shape, state: &mut [u8], e: Entry)
    requires { Midway shape (state_of shape state.old) state.old × (length (state_of shape state.old).waiting.late < shape.c) }
    ensures { let st = state_of shape state.old in
        Midway shape (with_waiting st.waiting.early (st.waiting.late ++ (e ∷ [])) st.waiting.notes st) state.new }
{
    let layout = places::places_of(shape);
    entries::append(&mut state[layout.late..layout.notes], shape.c as usize, e);
}

// A follower puts e in early if it lies after the log's last, else in late.
fn follower_takes(shape: Shape, state: &mut [u8], e: Entry, out: &mut [u8]) -> Answer
    requires { Stands shape (state_of shape state.old) state.old }
    ensures { left result state.new out.new
        ≡ closes shape state.old out.old (follower_takes shape (state_of shape state.old) e) }
{
    if stamps::may_follow(shape, state, e) {
        if shape.c as usize <= entries::count(places::early(shape, state)) {
            return Err(Refusal::Full);
        }
        add_early(shape, state, e);
        return Ok(0);
    }
    if shape.c as usize <= entries::count(places::late(shape, state)) {
        return Err(Refusal::Full);
    }
    add_late(shape, state, e);
    Ok(0)
}

// How long the notes to the other masked groups' leaders are together.
fn notes_length(shape: Shape, state: &[u8], e: Entry) -> usize
    requires { Stands shape (state_of shape state.now) state.now }
    ensures { result ≡ length (flat wire_bytes (note_sends shape (state_of shape state.now) e)) }
{
    let others = handler::count_others(shape, state, e.mask) as usize;
    kinds::length_for(shape.s, kind::TIMESTAMP_NOTE, 1) * others
}

// Writes them first into the outgoing buffer, and says where the last ends.
fn tell_notes(shape: Shape, state: &[u8], e: Entry, out: &mut [u8]) -> usize
    requires { Stands shape (state_of shape state.now) state.now
        × (length (flat wire_bytes (note_sends shape (state_of shape state.now) e)) ≤ length out.old) }
    ensures { let bytes = flat wire_bytes (note_sends shape (state_of shape state.now) e) in
        (result ≡ length bytes) × (out.new ≡ splice out.old 0 bytes) }
{
    let mut bytes = [0u8; 24];
    entries::put_entry(&mut bytes, 0, e);
    let asking = Asking {
        kind: kind::TIMESTAMP_NOTE,
        number: 0,
    };
    handler::tell_leaders(shape, state, out, asking, e.mask, &bytes)
}

// Puts e in early with the own group's note of it.
fn take_early(shape: Shape, state: &mut [u8], e: Entry)
    requires { let st = state_of shape state.old in
        Stands shape st state.old × (among st.waiting.early e ≡ false) × (length st.waiting.early < shape.c)
        × (row e.request e.coordinator st.waiting.notes < shape.c) × (holds e.mask st.site.group ≡ true) }
    ensures { state.new ≡ image shape (taken_early shape (state_of shape state.old) e) }
{
    let own = places::get_group(state);
    add_early(shape, state, e);
    keep_and_lift(shape, state, e, own, e.stamp);
}

// A leader puts e in early, keeps its own note, and tells the other masked groups' leaders.
fn leader_takes(shape: Shape, state: &mut [u8], e: Entry, out: &mut [u8]) -> Answer
    requires { let st = state_of shape state.old in
        Stands shape st state.old × (among st.waiting.early e ≡ false) × (holds e.mask st.site.group ≡ true) }
    ensures { left result state.new out.new
        ≡ closes shape state.old out.old (leader_takes shape (state_of shape state.old) e) }
{
    if shape.c as usize <= entries::count(places::early(shape, state)) {
        return Err(Refusal::Full);
    }
    if !room_for_note(shape, state, e) {
        return Err(Refusal::Full);
    }
    if out.len() < notes_length(shape, state, e) {
        return Err(Refusal::NoRoom);
    }
    let sent = tell_notes(shape, state, e, out);
    take_early(shape, state, e);
    Ok(sent)
}

// ---- the handlers

// Kind 3: the timestamp that another group's leader gave a transaction is kept, unless the log has the transaction or that group's was heard.
pub fn on_note(shape: Shape, state: &mut [u8], m: Message, message: &[u8], out: &mut [u8]) -> Answer
    requires { Ready shape state.old m message.now }
    ensures { left result state.new out.new
        ≡ handled 3 on_note shape m state.old message.now out.old }
{
    let Message::Note(h) = m else {
        return Err(Refusal::Malformed(0));
    };
    let from = h.from_group as u64;
    let e = handler::first_entry(shape, state, m, message, kind::TIMESTAMP_NOTE);
    if is_among(places::log(shape, state), shape.c as usize, e) {
        return Err(Refusal::NothingToDo);
    }
    if stamps::is_noted(shape, state, e, from) {
        return Err(Refusal::NothingToDo);
    }
    if !room_for_note(shape, state, e) {
        return Err(Refusal::Full);
    }
    keep_and_lift(shape, state, e, from, e.stamp);
    Ok(0)
}

// Kind 1: a transaction that is in none of log, early and late gets its timestamp and is taken.
pub fn on_transaction(
    shape: Shape,
    state: &mut [u8],
    m: Message,
    message: &[u8],
    out: &mut [u8],
) -> Answer
    requires { Ready shape state.old m message.now }
    ensures { left result state.new out.new
        ≡ handled 1 on_transaction shape m state.old message.now out.old }
{
    let Message::Transaction(_, send_time, bound) = m else {
        return Err(Refusal::Malformed(0));
    };
    let entry = handler::first_entry(shape, state, m, message, kind::TRANSACTION);
    if known(shape, state, entry) {
        return Err(Refusal::NothingToDo);
    }
    let e = stamps::stamped(send_time + bound, entry);
    if handler::leads(shape, state) {
        let raised = stamps::raised(shape, state, e);
        if rules::LATEST < raised.stamp {
            return Err(Refusal::Full);
        }
        return leader_takes(shape, state, raised, out);
    }
    follower_takes(shape, state, e, out)
}
