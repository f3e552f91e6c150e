// The merge of the groups' verify replies into the draft, in lent bytes: what it gives can be measured before the state is changed.
#![tactic(auto)]

ghost use Rattle.std.specs.Prelude.{◌≡◌, ◌+◌, ◌*◌, ◌≤◌, ◌<◌, length, get_or};
ghost use Rattle.std.proofs.Math.Option.{none};
ghost use Rattle.octets.specs.Bytes.{items};
ghost use Rattle.rules.specs.Read.{entry_at};
ghost use Rattle.rules.specs.Image.{table_at, state_of};
ghost use Rattle.rules.specs.Merge.{take_in, all_taken, entries_in};
ghost use Rattle.entries.specs.Rows.{Found};
ghost use Rattle.entries.specs.Table.{Holds, Table};
ghost use Rattle.places.specs.Layout.{Stands};
ghost use Rattle.merge.specs.Taken.{Taken, Took};
ghost use Rattle.merge.specs.Merged.{replies_with, merged_with};

use rules::{Entry, Shape};

// The reply that a message brings: the group that it is of, where its entries stand, and how many there are.
#[derive(Clone, Copy)]
pub struct Reply {
    pub from: u64,
    pub at: usize,
    pub count: usize,
}

// Takes e into a table: it replaces a lower entry of its transaction, or stands last where there is none. False where it has no place.
// A bool here and below, not an Option or a Result: no value stands beside it, one thing alone can fail, and merge's own contract speaks of a bool.
fn take_in(t: &mut [u8], c: usize, e: Entry, slots: &mut [u16]) -> bool
    requires { Table c t.old × Found (table_at c t.old 0) slots.old }
    ensures { Took c (take_in e (table_at c t.old 0)) result t.new slots.new }
{
    let n = entries::count(t);
    let i = entries::find_row(t, 4, n, slots, e.request, e.coordinator);
    if i < n {
        if e.stamp <= entries::entry_of(t, c, i).stamp {
            return true;
        }
        entries::replace_at(t, c, i, e);
        return true;
    }
    if c <= n {
        return false;
    }
    entries::append(t, c, e);
    entries::add_row(t, 4, n + 1, slots);
    true
}

// Takes in, one after the other, the `count` entries that stand in `src` from `at` on, until one has no place.
fn take_all(t: &mut [u8], c: usize, src: &[u8], at: usize, count: usize, slots: &mut [u16]) -> bool
    requires { Table c t.old × (at + 24 * count ≤ length src.now) × Found (table_at c t.old 0) slots.old }
    ensures { Took c (all_taken (table_at c t.old 0) (items (entry_at src.now) 24 at count)) result t.new slots.new }
{
    for i in 0..count {
        let e = entries::entry_at(src, at + 24 * i);
        if !take_in(t, c, e, slots) {
            return false;
        }
    }
    true
}

// Takes in what group j replied: the entries that stand in the message where the message is its reply, else what is kept of it.
fn take_reply(
    shape: Shape,
    state: &[u8],
    j: u64,
    message: &[u8],
    reply: Reply,
    scratch: &mut [u8],
    slots: &mut [u16],
) -> bool
    requires { Stands shape (state_of shape state.now) state.now × (j < shape.s) × (reply.at + 24 * reply.count ≤ length message.now) × Table shape.c scratch.old
        × Found (table_at shape.c scratch.old 0) slots.old }
    ensures { let replied = entries_in (get_or (replies_with shape state.now message.now reply) j none) in
        Took shape.c (all_taken (table_at shape.c scratch.old 0) replied) result scratch.new slots.new }
{
    let c = shape.c as usize;
    if j == reply.from {
        return take_all(scratch, c, message, reply.at, reply.count, slots);
    }
    if !places::reply_flag(shape, state, j) {
        return true;
    }
    let start = places::reply_place(shape, j) + 1;
    let end = start + places::places_of(shape).table;
    let kept = entries::count(&state[start..end]);
    take_all(scratch, c, &state[start..end], 4, kept, slots)
}

// Makes `scratch` the table of the draft, and puts its rows into the slots, which are to serve as many as it can hold.
fn take_draft(shape: Shape, state: &[u8], scratch: &mut [u8], slots: &mut [u16])
    requires { Stands shape (state_of shape state.now) state.now × (length scratch.old ≡ 4 + 24 * shape.c) }
    ensures { let draft = (state_of shape state.now).change.draft in
        Holds shape.c draft scratch.new × Found draft slots.new }
{
    let layout = places::places_of(shape);
    let start = layout.draft;
    let end = start + layout.table;
    octets::copy_in(scratch, 0, &state[start..end]);
    let n = entries::count(scratch);
    entries::index_rows(scratch, 4, n, shape.c as usize, slots);
}

// Makes `scratch` the table of the draft with the replies merged in, that of the message among them. Groups rise, so that the lowest stays on
// a tie. False where there are more entries than places.
pub fn merge(
    shape: Shape,
    state: &[u8],
    message: &[u8],
    reply: Reply,
    scratch: &mut [u8],
    slots: &mut [u16],
) -> bool
    requires { Stands shape (state_of shape state.now) state.now × (reply.at + 24 * reply.count ≤ length message.now)
        × (length scratch.old ≡ 4 + 24 * shape.c) }
    ensures { Taken shape.c (merged_with shape state.now message.now reply) result scratch.new }
{
    take_draft(shape, state, scratch, slots);
    for j in 0..shape.s {
        if !take_reply(shape, state, j, message, reply, scratch, slots) {
            return false;
        }
    }
    entries::order(scratch, shape.c as usize);
    true
}
