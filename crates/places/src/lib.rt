// Where the parts of a state stand in its bytes: the layout, and reads and writes of each part in place.
#![tactic(auto)]

ghost use Rattle.std.specs.Prelude.{◌≡◌, not, ◌+◌, ◌*◌, ◌≤◌, ◌<◌, eqb, length};
ghost use Rattle.std.proofs.Math.Option.{some};
ghost use Rattle.octets.specs.Bytes.{le, num, part, splice, items};
ghost use Rattle.rules.specs.Choice.{count, is_some};
ghost use Rattle.rules.specs.Entry.{entry_of};
ghost use Rattle.rules.specs.Log.{last_of};
ghost use Rattle.rules.specs.Read.{entry_at};
ghost use Rattle.rules.specs.Image.{state_length, table_length, vote_length, reply_length, point_bytes, table_bytes, point_at, table_at, vote_at, reply_at, state_of};
ghost use Rattle.rules.specs.Image.{at_gvec, at_heard, at_log, at_replies, at_votes};
ghost use Rattle.entries.specs.Table.{Table};
ghost use Rattle.notes.specs.Notes.{notes_at, Notes};
ghost use Rattle.places.specs.Layout.{longest, start_of, Marks, Fits, PlaceAt, Sized, Midway};

use rules::{Entry, Shape};

// Where each section begins after the head, where the last ends, and how long a table, a note, a vote and a reply are.
#[derive(Clone, Copy)]
pub struct Places {
    pub views: usize,
    pub heard: usize,
    pub log: usize,
    pub early: usize,
    pub late: usize,
    pub notes: usize,
    pub votes: usize,
    pub draft: usize,
    pub replies: usize,
    pub end: usize,
    pub table: usize,
    pub note: usize,
    pub vote: usize,
    pub reply: usize,
}

// The layout for a shape: every length of the state's bytes is written here and nowhere else.
pub fn places_of(shape: Shape) -> Places
    requires { Fits shape }
    ensures { Marks shape result }
{
    let table = 4 + 24 * shape.c as usize;
    let note = 6 + 9 * shape.s as usize;
    let vote = 13 + table;
    let reply = 1 + table;
    let views = 48;
    let heard = views + 4 * shape.s as usize;
    let log = heard + 9 * shape.n as usize;
    let early = log + table;
    let late = early + table;
    let notes = late + table;
    let votes = notes + (4 + note * shape.c as usize);
    let draft = votes + vote * shape.n as usize;
    let replies = draft + table;
    let end = replies + reply * shape.s as usize;
    Places {
        views,
        heard,
        log,
        early,
        late,
        notes,
        votes,
        draft,
        replies,
        end,
        table,
        note,
        vote,
        reply,
    }
}

// ---- the head

// The own group.
pub fn get_group(state: &[u8]) -> u64
    requires { 48 ≤ length state.now }
    ensures { result ≡ num state.now 0 1 }
{
    octets::get8(state, 0) as u64
}

// The own replica.
pub fn get_replica(state: &[u8]) -> u64
    requires { 48 ≤ length state.now }
    ensures { result ≡ num state.now 1 1 }
{
    octets::get8(state, 1) as u64
}

// The status: 1 normal, 2 view change, 3 cross-shard.
pub fn get_status(state: &[u8]) -> u8
    requires { 48 ≤ length state.now }
    ensures { result ≡ num state.now 2 1 }
{
    octets::get8(state, 2)
}

// The gView.
pub fn get_view(state: &[u8]) -> u32
    requires { 48 ≤ length state.now }
    ensures { result ≡ num state.now 8 4 }
{
    octets::get32(state, 8)
}

// The last normal gView.
pub fn get_normal(state: &[u8]) -> u32
    requires { 48 ≤ length state.now }
    ensures { result ≡ num state.now 12 4 }
{
    octets::get32(state, 12)
}

// The clock.
pub fn get_clock(state: &[u8]) -> u64
    requires { 48 ≤ length state.now }
    ensures { result ≡ num state.now 16 8 }
{
    octets::get64(state, 16)
}

// The sync point.
pub fn get_sync(state: &[u8]) -> u64
    requires { 48 ≤ length state.now }
    ensures { result ≡ num state.now 24 8 }
{
    octets::get64(state, 24)
}

// The commit point.
pub fn get_commit(state: &[u8]) -> u64
    requires { 48 ≤ length state.now }
    ensures { result ≡ num state.now 32 8 }
{
    octets::get64(state, 32)
}

// The boundary.
pub fn get_boundary(state: &[u8]) -> u64
    requires { 48 ≤ length state.now }
    ensures { result ≡ num state.now 40 8 }
{
    octets::get64(state, 40)
}

// Writes the status.
pub fn put_status(state: &mut [u8], v: u8)
    requires { 48 ≤ length state.old }
    ensures { state.new ≡ splice state.old 2 (le 1 v) }
{
    octets::put8(state, 2, v);
}

// Writes the gView.
pub fn put_view(state: &mut [u8], v: u32)
    requires { 48 ≤ length state.old }
    ensures { state.new ≡ splice state.old 8 (le 4 v) }
{
    octets::put32(state, 8, v);
}

// Writes the last normal gView.
pub fn put_normal(state: &mut [u8], v: u32)
    requires { 48 ≤ length state.old }
    ensures { state.new ≡ splice state.old 12 (le 4 v) }
{
    octets::put32(state, 12, v);
}

// Writes the clock.
pub fn put_clock(state: &mut [u8], v: u64)
    requires { 48 ≤ length state.old }
    ensures { state.new ≡ splice state.old 16 (le 8 v) }
{
    octets::put64(state, 16, v);
}

// Writes the sync point.
pub fn put_sync(state: &mut [u8], v: u64)
    requires { 48 ≤ length state.old }
    ensures { state.new ≡ splice state.old 24 (le 8 v) }
{
    octets::put64(state, 24, v);
}

// Writes the commit point.
pub fn put_commit(state: &mut [u8], v: u64)
    requires { 48 ≤ length state.old }
    ensures { state.new ≡ splice state.old 32 (le 8 v) }
{
    octets::put64(state, 32, v);
}

// Writes the boundary.
pub fn put_boundary(state: &mut [u8], v: u64)
    requires { 48 ≤ length state.old }
    ensures { state.new ≡ splice state.old 40 (le 8 v) }
{
    octets::put64(state, 40, v);
}

// ---- places in a row: each begins where the one before it ends. Each kind has its own function, for each promises a place of another section

// Where the view of group j stands.
pub fn view_place(shape: Shape, j: u64) -> usize
    requires { Fits shape × (j < shape.s) }
    ensures { PlaceAt shape 1 4 j result }
{
    let places = places_of(shape);
    places.views + 4 * j as usize
}

// Where the point heard of replica r stands.
pub fn heard_place(shape: Shape, r: u64) -> usize
    requires { Fits shape × (r < shape.n) }
    ensures { PlaceAt shape 2 9 r result }
{
    let places = places_of(shape);
    places.heard + 9 * r as usize
}

// Where the vote of replica r stands.
pub fn vote_place(shape: Shape, r: u64) -> usize
    requires { Fits shape × (r < shape.n) }
    ensures { PlaceAt shape 7 (vote_length shape.c) r result }
{
    let places = places_of(shape);
    places.votes + places.vote * r as usize
}

// Where the reply of group j stands.
pub fn reply_place(shape: Shape, j: u64) -> usize
    requires { Fits shape × (j < shape.s) }
    ensures { PlaceAt shape 9 (reply_length shape.c) j result }
{
    let places = places_of(shape);
    places.replies + places.reply * j as usize
}

// Whether the flag at `at` is set.
fn flag(state: &[u8], at: usize) -> bool
    requires { at + 1 ≤ length state.now }
    ensures { result ≡ not (eqb (num state.now at 1) 0) }
{
    octets::get8(state, at) != 0
}

// How many of n places, each of `size` bytes, have their flag set.
fn flags(state: &[u8], at: usize, size: usize, n: u64) -> u64
    requires { (at + size * n ≤ length state.now) × (0 < size) }
    ensures { result ≡ count (λ i. not (eqb (num state.now (at + size * i) 1) 0)) n }
{
    let mut sum: u64 = 0;
    for i in 0..n {
        if flag(state, at + size * i as usize) {
            sum += 1;
        }
    }
    sum
}

// Makes the table at `to` one of the `number` entries that stand in `src` from `at` on.
pub fn put_table(shape: Shape, state: &mut [u8], to: usize, src: &[u8], at: usize, number: usize)
    requires { Fits shape × (to + table_length shape.c ≤ length state.old) × (number ≤ shape.c) × (at + 24 * number ≤ length src.now) }
    ensures { state.new
        ≡ splice state.old to (table_bytes shape.c (items (entry_at src.now) 24 at number)) }
{
    let end = to + places_of(shape).table;
    entries::take_over(&mut state[to..end], shape.c as usize, src, at, number);
}

// ---- the tables, lent as they stand. Each has its own function, for each promises another table of the state

// The log, lent.
pub fn log(shape: Shape, state: &[u8]) -> &[u8]
    requires { Midway shape (state_of shape state.now) state.now }
    ensures { Table shape.c result.now
        × (table_at shape.c result.now 0 ≡ (state_of shape state.now).logged.log) }
{
    let layout = places_of(shape);
    &state[layout.log..layout.early]
}

// The early buffer, lent.
pub fn early(shape: Shape, state: &[u8]) -> &[u8]
    requires { Midway shape (state_of shape state.now) state.now }
    ensures { Table shape.c result.now
        × (table_at shape.c result.now 0 ≡ (state_of shape state.now).waiting.early) }
{
    let layout = places_of(shape);
    &state[layout.early..layout.late]
}

// The late buffer, lent.
pub fn late(shape: Shape, state: &[u8]) -> &[u8]
    requires { Midway shape (state_of shape state.now) state.now }
    ensures { Table shape.c result.now
        × (table_at shape.c result.now 0 ≡ (state_of shape state.now).waiting.late) }
{
    let layout = places_of(shape);
    &state[layout.late..layout.notes]
}

// The notes, lent.
pub fn notes(shape: Shape, state: &[u8]) -> &[u8]
    requires { Midway shape (state_of shape state.now) state.now }
    ensures { Notes shape.c shape.s result.now
        × (notes_at shape.c shape.s result.now ≡ (state_of shape state.now).waiting.notes) }
{
    let layout = places_of(shape);
    &state[layout.notes..layout.votes]
}

// The draft, lent.
pub fn draft(shape: Shape, state: &[u8]) -> &[u8]
    requires { Midway shape (state_of shape state.now) state.now }
    ensures { Table shape.c result.now
        × (table_at shape.c result.now 0 ≡ (state_of shape state.now).change.draft) }
{
    let layout = places_of(shape);
    &state[layout.draft..layout.replies]
}

// ---- the log

// How many entries the log has. A count above the room is read as the room, as the definition reads it.
pub fn log_length(shape: Shape, state: &[u8]) -> usize
    requires { Sized shape state.now }
    ensures { (result ≡ length (state_of shape state.now).logged.log) × (result ≤ shape.c) × (result ≤ 4096) }
{
    let place = places_of(shape).log;
    let count = octets::get32(state, place) as usize;
    count.min(shape.c as usize)
}

// Where entry i of the log stands.
pub fn log_place(shape: Shape, i: usize) -> usize
    requires { Fits shape × (i < shape.c) }
    ensures { (result ≡ start_of shape at_log + (4 + 24 * i)) × (result + 24 ≤ state_length shape) × (result ≤ longest) }
{
    places_of(shape).log + (4 + 24 * i)
}

// Entry i of the log.
pub fn log_entry(shape: Shape, state: &[u8], i: usize) -> Entry
    requires { Sized shape state.now × (i < length (state_of shape state.now).logged.log) }
    ensures { result ≡ entry_of (state_of shape state.now).logged.log i }
{
    entries::entry_at(state, log_place(shape, i))
}

// The log's last entry, no entry where it is empty.
pub fn last_entry(shape: Shape, state: &[u8]) -> Entry
    requires { Sized shape state.now }
    ensures { result ≡ last_of (state_of shape state.now).logged.log }
{
    let n = log_length(shape, state);
    if n == 0 {
        return entries::no_entry();
    }
    log_entry(shape, state, n - 1)
}

// ---- gVec

// The view of group j.
pub fn view_at(shape: Shape, state: &[u8], j: u64) -> u32
    requires { Sized shape state.now × (j < shape.s) }
    ensures { result ≡ num state.now (start_of shape at_gvec + 4 * j) 4 }
{
    octets::get32(state, view_place(shape, j))
}

// Takes over the views that stand in `src` from `at` on.
pub fn put_views(shape: Shape, state: &mut [u8], src: &[u8], at: usize)
    requires { Sized shape state.old × (at + 4 * shape.s ≤ length src.now) }
    ensures { state.new ≡ splice state.old (start_of shape at_gvec) (part src.now at (4 * shape.s)) }
{
    let start = places_of(shape).views;
    let end = at + 4 * shape.s as usize;
    octets::copy_in(state, start, &src[at..end]);
}

// ---- the points heard

// Whether a point of replica r was heard.
pub fn heard_flag(shape: Shape, state: &[u8], r: u64) -> bool
    requires { Sized shape state.now × (r < shape.n) }
    ensures { result ≡ is_some (point_at state.now (start_of shape at_heard + 9 * r)) }
{
    flag(state, heard_place(shape, r))
}

// The point heard of replica r, where one was.
pub fn heard_point(shape: Shape, state: &[u8], r: u64) -> u64
    requires { Sized shape state.now × (r < shape.n) }
    ensures { result ≡ num state.now (start_of shape at_heard + 9 * r + 1) 8 }
{
    octets::get64(state, heard_place(shape, r) + 1)
}

// Writes a point heard of replica r.
pub fn put_heard(shape: Shape, state: &mut [u8], r: u64, p: u64)
    requires { Sized shape state.old × (r < shape.n) }
    ensures { state.new ≡ splice state.old (start_of shape at_heard + 9 * r) (point_bytes (some p)) }
{
    let at = heard_place(shape, r);
    octets::put8(state, at, 1);
    octets::put64(state, at + 1, p);
}

// ---- the votes

// Whether a vote of replica r is kept.
pub fn vote_flag(shape: Shape, state: &[u8], r: u64) -> bool
    requires { Sized shape state.now × (r < shape.n) }
    ensures { result ≡ is_some (vote_at shape.c state.now (start_of shape at_votes + vote_length shape.c * r)) }
{
    flag(state, vote_place(shape, r))
}

// The last normal gView in the vote of replica r, where one is kept.
pub fn vote_normal(shape: Shape, state: &[u8], r: u64) -> u32
    requires { Sized shape state.now × (r < shape.n) }
    ensures { result ≡ num state.now (start_of shape at_votes + vote_length shape.c * r + 1) 4 }
{
    octets::get32(state, vote_place(shape, r) + 1)
}

// The sync point in the vote of replica r, where one is kept.
pub fn vote_sync(shape: Shape, state: &[u8], r: u64) -> u64
    requires { Sized shape state.now × (r < shape.n) }
    ensures { result ≡ num state.now (start_of shape at_votes + vote_length shape.c * r + 5) 8 }
{
    octets::get64(state, vote_place(shape, r) + 5)
}

// How many votes are kept.
pub fn held_votes(shape: Shape, state: &[u8]) -> u64
    requires { Sized shape state.now }
    ensures { result ≡ count (λ r. is_some (vote_at shape.c state.now (start_of shape at_votes + vote_length shape.c * r))) shape.n }
{
    let places = places_of(shape);
    flags(state, places.votes, places.vote, shape.n)
}

// ---- the replies

// Whether a reply of group j is kept.
pub fn reply_flag(shape: Shape, state: &[u8], j: u64) -> bool
    requires { Sized shape state.now × (j < shape.s) }
    ensures { result ≡ is_some (reply_at shape.c state.now (start_of shape at_replies + reply_length shape.c * j)) }
{
    flag(state, reply_place(shape, j))
}

// How many replies are kept.
pub fn held_replies(shape: Shape, state: &[u8]) -> u64
    requires { Sized shape state.now }
    ensures { result ≡ count (λ j. is_some (reply_at shape.c state.now (start_of shape at_replies + reply_length shape.c * j))) shape.s }
{
    let places = places_of(shape);
    flags(state, places.replies, places.reply, shape.s)
}
