// Timestamps: the one that a leader gives, those that the notes hold, and the early entry that they lift.
#![tactic(auto)]

ghost use Rattle.std.specs.Prelude.{◌≡◌, true, false, ◌++◌, ◌+◌, ◌<◌, length, take, drop};
ghost use Rattle.rules.specs.Entry as order;
ghost use Rattle.rules.specs.Log as log;
ghost use Rattle.rules.specs.Choice.{is_some};
ghost use Rattle.rules.specs.State as rule;
ghost use Rattle.rules.specs.State.{with_waiting};
ghost use Rattle.rules.specs.Image.{state_of};
ghost use Rattle.rules.specs.Early.{lifted};
ghost use Rattle.rules.proofs.Order.{Sorted};
ghost use Rattle.places.specs.Layout.{Sized, Midway, Stands};
ghost use Rattle.stamps.specs.Climbs.{Climbs};

use rules::{Entry, Shape};

// ---- the log's last

// The same entry at another timestamp.
pub fn stamped(stamp: u64, e: Entry) -> Entry
    ensures { result ≡ order.stamped stamp e }
{
    Entry { stamp, ..e }
}

// Whether e lies after the log's last.
pub fn may_follow(shape: Shape, state: &[u8], e: Entry) -> bool
    requires { Sized shape state.now }
    ensures { result ≡ log.follows_last (state_of shape state.now).logged.log e }
{
    entries::before(places::last_entry(shape, state), e)
}

// The entry that a leader puts in early: e at its due time or, where that does not place it after the log's last, one past the last timestamp.
pub fn raised(shape: Shape, state: &[u8], e: Entry) -> Entry
    requires { Stands shape (state_of shape state.now) state.now }
    ensures { result ≡ log.raised (state_of shape state.now).logged.log e }
{
    let last = places::last_entry(shape, state);
    if entries::before(last, e) {
        return e;
    }
    stamped(last.stamp + 1, e)
}

// ---- the notes

// Whether group j's timestamp of e's transaction is held.
pub fn is_noted(shape: Shape, state: &[u8], e: Entry, j: u64) -> bool
    requires { Midway shape (state_of shape state.now) state.now × (j < shape.s) }
    ensures { result ≡ is_some (rule.noted (state_of shape state.now).waiting.notes e j) }
{
    let c = shape.c as usize;
    let s = shape.s as usize;
    notes::noted(places::notes(shape, state), c, s, e, j as usize).is_some()
}

// ---- what they lift

// Takes out early entry i and puts d, which does not come before it, in its place.
fn put_early(shape: Shape, state: &mut [u8], i: usize, d: Entry)
    requires { let st = state_of shape state.old in
        Midway shape st state.old × (i < length st.waiting.early) × Sorted st.waiting.early
        × (order.before d (order.entry_of st.waiting.early i) ≡ false) }
    ensures { let st = state_of shape state.old in
        let early = order.place d (take i st.waiting.early ++ drop (i + 1) st.waiting.early) in
        Midway shape (with_waiting early st.waiting.late st.waiting.notes st) state.new }
{
    let layout = places::places_of(shape);
    let start = layout.early;
    let end = layout.late;
    early::lift(&mut state[start..end], shape.c as usize, i, d);
}

// The early entry of e's transaction, once notes from every group of its mask are held, gets their greatest as its timestamp, and goes to its place.
pub fn lift(shape: Shape, state: &mut [u8], e: Entry)
    requires { let st = state_of shape state.old in
        Midway shape st state.old × (log.distinct st.waiting.early ≡ true) × Sorted st.waiting.early
        × Climbs shape st.waiting.notes e st.waiting.early }
    ensures { let st = state_of shape state.old in
        let early = lifted shape st.waiting.notes e st.waiting.early in
        Midway shape (with_waiting early st.waiting.late st.waiting.notes st) state.new }
{
    let c = shape.c as usize;
    let s = shape.s as usize;
    let early = places::early(shape, state);
    let count = entries::count(early);
    let i = entries::find(early, 4, count, e.request, e.coordinator);
    if count <= i {
        return;
    }
    let d = entries::entry_of(early, c, i);
    let notes = places::notes(shape, state);
    if !notes::agreed(notes, c, s, d) {
        return;
    }
    let stamp = notes::greatest(notes, c, s, d);
    put_early(shape, state, i, stamped(stamp, d));
}
