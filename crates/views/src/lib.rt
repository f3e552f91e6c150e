// What a change of view writes into the state: its gView and its gVec, empty tables, the votes and replies that it gathers and, where the view starts, its numbers and its log.
#![tactic(auto)]

ghost use Rattle.std.specs.Prelude.{◌≡◌, ◌++◌, ℕ, ◌+◌, ◌*◌, ◌≤◌, ◌<◌, length, replicate};
ghost use Rattle.std.proofs.Math.Option.{some};
ghost use Rattle.octets.specs.Bytes.{le, num, part, splice, items};
ghost use Rattle.rules.specs.Read.{entry_at};
ghost use Rattle.rules.specs.Image.{table_length, vote_length, reply_length, table_bytes, vote_bytes, reply_bytes, image, state_of, at_early, at_log, at_replies, at_votes};
ghost use Rattle.rules.specs.Step.{started};
ghost use Rattle.places.specs.Layout.{start_of, Sized, Midway, Stands, own_bytes};
ghost use Rattle.views.specs.Views.{views_of, tables_length, taken_in, begun_in, Spare, Kept};

use rules::{Shape, status};

// What a vote says beside its log: the last normal gView and the sync point.
#[derive(Clone, Copy)]
pub struct Said {
    pub normal: u32,
    pub sync: u64,
}

// ---- a table

// Makes the table at `to` one of the `number` entries that stand in `src` from `at` on. What was free and stays free is zero already.
pub fn renew_table(shape: Shape, state: &mut [u8], to: usize, src: &[u8], at: usize, number: usize)
    requires { (to + table_length shape.c ≤ length state.old) × Spare 24 shape.c (part state.old to (table_length shape.c))
        × (number ≤ shape.c) × (at + 24 * number ≤ length src.now) × (shape.c ≤ 4096) }
    ensures { state.new
        ≡ splice state.old to (table_bytes shape.c (items (entry_at src.now) 24 at number)) }
{
    let old = octets::get32(state, to) as usize;
    let end = at + 24 * number;
    octets::put32(state, to, number as u32);
    octets::copy_in(state, to + 4, &src[at..end]);
    if number < old {
        octets::fill_zero(state, to + (4 + 24 * number), 24 * (old - number));
    }
}

// ---- votes and replies

// Writes what stands before the log of a vote.
fn begin_vote(state: &mut [u8], place: usize, said: Said)
    requires { place + 13 ≤ length state.old }
    ensures { state.new ≡ splice state.old place (le 1 1 ++ (le 4 said.normal ++ le 8 said.sync)) }
{
    octets::put8(state, place, 1);
    octets::put32(state, place + 1, said.normal);
    octets::put64(state, place + 5, said.sync);
}

// Keeps the vote of replica r: its log are the `number` entries that stand in `src` from `at` on.
pub fn keep_vote(
    shape: Shape,
    state: &mut [u8],
    r: u64,
    said: Said,
    src: &[u8],
    at: usize,
    number: usize,
)
    requires { Sized shape state.old × (r < shape.n) × Kept 13 shape.c state.old (start_of shape at_votes + vote_length shape.c * r)
        × (number ≤ shape.c) × (at + 24 * number ≤ length src.now) }
    ensures { let log = items (entry_at src.now) 24 at number in
        state.new ≡ splice state.old (start_of shape at_votes + vote_length shape.c * r)
        (vote_bytes shape.c (some (record { normal = said.normal; sync = said.sync; log = log }))) }
{
    let place = places::vote_place(shape, r);
    begin_vote(state, place, said);
    renew_table(shape, state, place + 13, src, at, number);
}

// Keeps the own vote: the log is copied as it stands, up to its last entry. Behind that both it and the place of the vote are zero.
pub fn keep_own_vote(shape: Shape, state: &mut [u8])
    requires { Sized shape state.old × (num state.old 1 1 < shape.n) × Spare 24 shape.c (part state.old (start_of shape at_log) (table_length shape.c))
        × (part state.old (start_of shape at_votes + vote_length shape.c * num state.old 1 1) (vote_length shape.c) ≡ replicate (vote_length shape.c) 0) }
    ensures { let b = state.old in
        state.new ≡ splice b (start_of shape at_votes + vote_length shape.c * num b 1 1) (own_bytes shape b) }
{
    let said = Said {
        normal: places::get_normal(state),
        sync: places::get_sync(state),
    };
    let place = places::vote_place(shape, places::get_replica(state));
    let log = places::places_of(shape).log;
    let count = octets::get32(state, log) as usize;
    begin_vote(state, place, said);
    octets::move_up(state, place + 13, log, 4 + 24 * count);
}

// Keeps the reply of group j: the `number` entries that stand in `src` from `at` on.
pub fn keep_reply(shape: Shape, state: &mut [u8], j: u64, src: &[u8], at: usize, number: usize)
    requires { Sized shape state.old × (j < shape.s) × Kept 1 shape.c state.old (start_of shape at_replies + reply_length shape.c * j)
        × (number ≤ shape.c) × (at + 24 * number ≤ length src.now) }
    ensures { state.new
        ≡ splice state.old (start_of shape at_replies + reply_length shape.c * j)
        (reply_bytes shape.c (some (items (entry_at src.now) 24 at number))) }
{
    let place = places::reply_place(shape, j);
    octets::put8(state, place, 1);
    renew_table(shape, state, place + 1, src, at, number);
}

// ---- the tables

// Clears a count and the rows of `size` bytes that it counts. Behind them, up to `room` rows, is nothing to clear.
fn clear_rows(state: &mut [u8], at: usize, size: usize, room: usize)
    requires { (at + (4 + size * room) ≤ length state.old) × Spare size room (part state.old at (4 + size * room)) }
    ensures { state.new ≡ splice state.old at (replicate (4 + size * room) 0) }
{
    let count = octets::get32(state, at) as usize;
    octets::fill_zero(state, at, 4 + size * count);
}

// Clears what is kept at a place: `head` bytes, of which the first is a flag, and a table with room for `room` entries.
fn clear_place(state: &mut [u8], at: usize, head: usize, room: usize)
    requires { (1 ≤ head) × Kept head room state.old at }
    ensures { state.new ≡ splice state.old at (replicate (head + table_length room) 0) }
{
    if octets::get8(state, at) == 0 {
        return;
    }
    octets::fill_zero(state, at, head);
    clear_rows(state, at + head, 24, room);
}

// Clears n such places of `size` bytes each, which stand side by side.
fn clear_places(state: &mut [u8], at: usize, size: usize, head: usize, room: usize, n: usize)
    requires { (size ≡ head + table_length room) × (1 ≤ head) × (at + size * n ≤ length state.old)
        × ((i : ℕ) → i < n → Kept head room state.old (at + size * i)) }
    ensures { state.new ≡ splice state.old at (replicate (size * n) 0) }
{
    for i in 0..n {
        clear_place(state, at + size * i, head, room);
    }
}

// Empties early, late, notes, votes, draft and replies, which stand side by side. Free places are zero already, so only what is in use is cleared.
pub fn empty_tables(shape: Shape, state: &mut [u8])
    requires { Midway shape (state_of shape state.old) state.old }
    ensures { state.new ≡ splice state.old (start_of shape at_early) (replicate (tables_length shape) 0) }
{
    let places = places::places_of(shape);
    let room = shape.c as usize;
    clear_rows(state, places.early, 24, room);
    clear_rows(state, places.late, 24, room);
    clear_rows(state, places.notes, places.note, room);
    clear_places(state, places.votes, places.vote, 13, room, shape.n as usize);
    clear_rows(state, places.draft, 24, room);
    clear_places(
        state,
        places.replies,
        places.reply,
        1,
        room,
        shape.s as usize,
    );
}

// ---- the view

// Takes over the gView, and the gVec that stands in the message.
pub fn take_view(shape: Shape, state: &mut [u8], view: u32, message: &[u8])
    requires { Sized shape state.old × (16 + 4 * shape.s ≤ length message.now) }
    ensures { state.new ≡ taken_in shape state.old view message.now }
{
    places::put_view(state, view);
    places::put_views(shape, state, message, 16);
}

// Writes the numbers of a view that starts with a log of this length.
fn begin_head(state: &mut [u8], view: u32, len: u64)
    requires { 48 ≤ length state.old }
    ensures { state.new ≡ begun_in state.old view len }
{
    let commit = places::get_commit(state).min(len);
    places::put_status(state, status::NORMAL);
    places::put_normal(state, view);
    places::put_sync(state, len);
    places::put_commit(state, commit);
    places::put_boundary(state, 0);
}

// Starts the view: its log are the `number` entries that stand in `src` from `at` on, and every other table is empty.
pub fn begin(
    shape: Shape,
    state: &mut [u8],
    view: u32,
    message: &[u8],
    src: &[u8],
    at: usize,
    number: usize,
)
    requires { Stands shape (state_of shape state.old) state.old × (16 + 4 * shape.s ≤ length message.now)
        × (number ≤ shape.c) × (at + 24 * number ≤ length src.now) }
    ensures { let st = state_of shape state.old in
        let log = items (entry_at src.now) 24 at number in
        state.new ≡ image shape (started shape st view (views_of shape message.now) log) }
{
    empty_tables(shape, state);
    take_view(shape, state, view, message);
    begin_head(state, view, number as u64);
    let layout = places::places_of(shape);
    octets::fill_zero(state, layout.heard, layout.log - layout.heard);
    renew_table(shape, state, layout.log, src, at, number);
}
