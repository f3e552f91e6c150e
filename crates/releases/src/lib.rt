// The release of early entries that are due: how many there are and how many are agreed, one after the other to the log with the log's digest run on over
// it, and all of them out of early and the notes.
#![tactic(auto)]

ghost use Rattle.std.specs.Prelude.{◌≡◌, [], ◌∷◌, ◌++◌, ◌+◌, ◌-◌, ◌*◌, ◌<◌, ◌≤◌, length, take, drop};
ghost use Rattle.octets.specs.Bytes.{items};
ghost use Rattle.rules.specs.Choice.{leading};
ghost use Rattle.rules.specs.State.{agreed};
ghost use Rattle.rules.specs.Image.{state_length, table_at, state_of, at_early};
ghost use Rattle.rules.specs.Digest.{digest};
ghost use Rattle.rules.specs.Early.{due_of};
ghost use Rattle.rules.specs.Entry.{entry_of};
ghost use Rattle.rules.specs.Read.{entry_at};
ghost use Rattle.entries.specs.Table.{Table};
ghost use Rattle.notes.specs.Notes.{Notes};
ghost use Rattle.early.specs.Listed.{indexed, Ready};
ghost use Rattle.lookups.specs.Rows.{NoteRows};
ghost use Rattle.places.specs.Layout.{longest, start_of, Fits};
ghost use Rattle.releases.specs.Waiting.{run_in};
ghost use Rattle.releases.specs.Releasing.{Releasing, Reaches, logging, early_left, notes_left, Noted, Cleared};

use early::{Index, Listed};
use rules::{Entry, Shape};

// The bytes of 256 entries, and those of the largest log.
const FEW: usize = 24 * 256;

const MOST: usize = 24 * 4096;

// ---- the run of a leader

// How many entries are due by a time.
pub fn due_count(shape: Shape, state: &[u8], time: u64) -> usize
    requires { Releasing shape state.now }
    ensures { result ≡ length (due_of time (state_of shape state.now).waiting.early) }
{
    early::count_due(places::early(shape, state), shape.c as usize, time)
}

// Puts the rows of the notes into the slots, unless few entries are due: then a search for each costs less.
fn index_notes(notes: &[u8], c: usize, s: usize, due: usize, slots: &mut [u16])
    requires { Notes c s notes.now }
    ensures { NoteRows c s notes.now slots.new }
{
    if due <= 8 {
        rows::mark_none(slots);
        return;
    }
    lookups::index_notes(notes, c, s, slots);
}

// Of the first `due` entries, which are due by a time, how many come before the first that is not agreed.
fn run_of(early: &[u8], notes: &[u8], c: usize, s: usize, due: usize, slots: &[u16]) -> usize
    requires { Table c early.now × (due ≤ length (table_at c early.now 0)) × Notes c s notes.now × NoteRows c s notes.now slots.now }
    ensures { result ≡ run_in c s early.now notes.now due }
{
    for i in 0..due {
        let e = entries::entry_of(early, c, i);
        let row = lookups::note_row(notes, c, s, slots, e.request, e.coordinator);
        if !notes::agreed_from(notes, c, s, e, row) {
            return i;
        }
    }
    due
}

// How many of those due by a time a leader may release: those before the first that is not agreed.
pub fn run_length(shape: Shape, state: &[u8], time: u64, due: usize, slots: &mut [u16]) -> usize
    requires { Releasing shape state.now × (due ≡ length (due_of time (state_of shape state.now).waiting.early)) }
    ensures { let waiting = (state_of shape state.now).waiting in
        result ≡ length (leading (agreed shape waiting.notes) (due_of time waiting.early)) }
{
    let c = shape.c as usize;
    let s = shape.s as usize;
    let notes = places::notes(shape, state);
    index_notes(notes, c, s, due, slots);
    run_of(places::early(shape, state), notes, c, s, due, slots)
}

// ---- one release

// Appends e to the log.
fn log_takes(shape: Shape, state: &mut [u8], e: Entry)
    requires { Releasing shape state.old × (length (state_of shape state.old).logged.log < shape.c) }
    ensures { Reaches shape (logging (state_of shape state.old) e) state.new }
{
    let layout = places::places_of(shape);
    entries::append(&mut state[layout.log..layout.early], shape.c as usize, e);
}

// Early entry i.
fn early_entry(shape: Shape, state: &[u8], i: usize) -> Entry
    requires { Releasing shape state.now × (i < length (state_of shape state.now).waiting.early) }
    ensures { result ≡ entry_of (state_of shape state.now).waiting.early i }
{
    entries::entry_of(places::early(shape, state), shape.c as usize, i)
}

// Early entry i goes to place n + i, the end of the log, and the log's digest runs on over it. Early and the notes stay.
pub fn release_one(shape: Shape, state: &mut [u8], n: usize, i: usize, sum: u64) -> u64
    requires { let st = state_of shape state.old in
        Releasing shape state.old × (n + i ≡ length st.logged.log) × (n + i < shape.c) × (i < length st.waiting.early) × (sum ≡ digest st.logged.log) }
    ensures { let st = state_of shape state.old in
        let e = entry_of st.waiting.early i in
        Reaches shape (logging st e) state.new × (result ≡ digest (st.logged.log ++ (e ∷ []))) }
{
    let e = early_entry(shape, state, i);
    log_takes(shape, state, e);
    let at = places::log_place(shape, n + i);
    digest::digest_on(sum, &state[at..at + 24])
}

// ---- all that were released leave

// The first k entries leave early.
fn early_leaves(shape: Shape, state: &mut [u8], k: usize)
    requires { Releasing shape state.old × (k ≤ length (state_of shape state.old).waiting.early) }
    ensures { Reaches shape (early_left (state_of shape state.old) (take k (state_of shape state.old).waiting.early)) state.new }
{
    let layout = places::places_of(shape);
    entries::leave_first(&mut state[layout.early..layout.late], shape.c as usize, k);
}

// The notes of listed transactions leave.
fn notes_leave(shape: Shape, state: &mut [u8], index: Index)
    requires { Releasing shape state.old × Ready index }
    ensures { Reaches shape (notes_left (state_of shape state.old) (indexed index.entry)) state.new }
{
    let layout = places::places_of(shape);
    early::leave_notes(
        &mut state[layout.notes..layout.votes],
        shape.c as usize,
        shape.s as usize,
        index,
    );
}

// Copies the last k entries of the log, those from place n on, to the start of `gone`.
fn copy_released(shape: Shape, state: &[u8], n: usize, k: usize, gone: &mut [u8])
    requires { Releasing shape state.now × (n + k ≡ length (state_of shape state.now).logged.log) × (24 * k ≤ length gone.old) }
    ensures { items (entry_at gone.new) 24 0 k ≡ drop n (state_of shape state.now).logged.log }
{
    let start = places::places_of(shape).log + (4 + 24 * n);
    let end = start + 24 * k;
    octets::copy_in(gone, 0, &state[start..end]);
}

// The notes of the last k entries of the log leave. The entries are copied first: the log and the notes are parts of one slice.
fn leave_by(shape: Shape, state: &mut [u8], n: usize, k: usize, gone: &mut [u8], slots: &mut [u16])
    requires { Releasing shape state.old × (n + k ≡ length (state_of shape state.old).logged.log) × (24 * k ≤ length gone.old) }
    ensures { Noted shape state.old n state.new }
{
    copy_released(shape, state, n, k, gone);
    let listed = Listed { at: 0, count: k };
    early::list(gone, listed, slots);
    let index = Index {
        bytes: gone,
        listed,
        slots,
    };
    notes_leave(shape, state, index);
}

// The same, by a copy of at most as many bytes.
#[inline(never)]
fn leave_within<const BYTES: usize>(
    shape: Shape,
    state: &mut [u8],
    n: usize,
    k: usize,
    slots: &mut [u16],
)
    requires { Releasing shape state.old × (n + k ≡ length (state_of shape state.old).logged.log) × (24 * k ≤ BYTES) × (BYTES ≤ 98304) }
    ensures { Noted shape state.old n state.new }
{
    let mut gone = [0u8; BYTES];
    leave_by(shape, state, n, k, &mut gone, slots);
}

// The notes of the last k entries of the log, those from place n on, leave, where there are notes: a follower has none.
fn leave_notes(shape: Shape, state: &mut [u8], n: usize, k: usize, slots: &mut [u16])
    requires { Releasing shape state.old × (n + k ≡ length (state_of shape state.old).logged.log) }
    ensures { Noted shape state.old n state.new }
{
    if notes::count(places::notes(shape, state)) == 0 {
        return;
    }
    if 24 * k <= FEW {
        leave_within::<FEW>(shape, state, n, k, slots);
    } else {
        leave_within::<MOST>(shape, state, n, k, slots);
    }
}

// The last k entries of the log, those from place n on, leave early, whose first they are, and their notes go.
pub fn leave_released(shape: Shape, state: &mut [u8], n: usize, k: usize, slots: &mut [u16])
    requires { let st = state_of shape state.old in
        Releasing shape state.old × (n + k ≡ length st.logged.log) × (k ≤ length st.waiting.early)
        × (drop n st.logged.log ≡ take k st.waiting.early) }
    ensures { Cleared shape state.old n state.new }
{
    early_leaves(shape, state, k);
    leave_notes(shape, state, n, k, slots);
}

// ---- the bytes of the log and of early

// Where entry i of early stands.
pub fn early_place(shape: Shape, i: usize) -> usize
    requires { Fits shape × (i < shape.c) }
    ensures { (result ≡ start_of shape at_early + (4 + 24 * i)) × (result + 24 ≤ state_length shape) × (result ≤ longest) }
{
    places::places_of(shape).early + (4 + 24 * i)
}

// The digest of the log.
pub fn log_digest(shape: Shape, state: &[u8]) -> u64
    requires { Releasing shape state.now }
    ensures { result ≡ digest (state_of shape state.now).logged.log }
{
    let n = places::log_length(shape, state);
    let start = places::places_of(shape).log + 4;
    let end = start + 24 * n;
    digest::digest_of(&state[start..end])
}
