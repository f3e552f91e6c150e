// The notes of a state in a slice: for each transaction, the timestamps that the groups gave it.
#![tactic(auto)]

ghost use Rattle.std.specs.Prelude.{◌≡◌, ◌&&◌, [], ◌∷◌, ◌++◌, ◌+◌, ◌*◌, ◌<◌, ◌≤◌, max, length, get_or, set, eqb};
ghost use Rattle.std.proofs.Math.Option.{none, some};
ghost use Rattle.octets.specs.Bytes.{num, splice, part};
ghost use Rattle.rules.specs.Choice.{pick, is_some, passes, every, same};
ghost use Rattle.rules.specs.Entry.{stamp_fits};
ghost use Rattle.rules.specs.State.{value_of, noted_to, greatest_to, note_fits};
ghost use Rattle.rules.specs.State as state;
ghost use Rattle.rules.specs.Early.{heard_note, keep_note};
ghost use Rattle.rules.specs.Image.{note_length, point_bytes, point_at, note_bytes, note_at, notes_section};
ghost use Rattle.notes.specs.Notes.{sized, notes_at, note_in, unheard_note, row, said, NotesHold, Notes};

use rules::Entry;

// ---- one place

// Where note i stands.
pub fn place(s: usize, i: usize) -> usize
    requires { (s ≤ 8) × (i ≤ 4096) }
    ensures { (result ≡ 4 + note_length s * i) × (result ≤ 319492) }
{
    4 + (6 + 9 * s) * i
}

// Whether the note at `at` is of this transaction. Requests differ most, so the coordinator is read only where the request is right.
fn is_of(t: &[u8], at: usize, request: u32, coordinator: u16) -> bool
    requires { at + 6 ≤ length t.now }
    ensures { result ≡ (eqb (num t.now (at + 4) 2) coordinator && eqb (num t.now at 4) request) }
{
    octets::get32(t, at) == request && octets::get16(t, at + 4) == coordinator
}

// The timestamp at `at`, none where its flag says that it was not heard.
fn point_at(t: &[u8], at: usize) -> Option<u64>
    requires { at + 9 ≤ length t.now }
    ensures { said result ≡ point_at t.now at }
{
    if octets::get8(t, at) == 0 {
        return None;
    }
    Some(octets::get64(t, at + 1))
}

// Whether a timestamp stands at `at`.
fn heard_at(t: &[u8], at: usize) -> bool
    requires { at + 9 ≤ length t.now }
    ensures { result ≡ is_some (point_at t.now at) }
{
    octets::get8(t, at) != 0
}

// The greater of best and the timestamp at `at`, where its group is in the mask.
fn raised(t: &[u8], at: usize, held: bool, best: u64) -> u64
    requires { at + 9 ≤ length t.now }
    ensures { result ≡ pick held (max best (value_of (point_at t.now at))) best }
{
    if !held {
        return best;
    }
    match point_at(t, at) {
        Some(stamp) => best.max(stamp),
        None => best,
    }
}

// Writes a timestamp at `at`, with its flag.
fn put_point(t: &mut [u8], at: usize, stamp: u64)
    requires { at + 9 ≤ length t.old }
    ensures { t.new ≡ splice t.old at (point_bytes (some stamp)) }
{
    octets::put8(t, at, 1);
    octets::put64(t, at + 1, stamp);
}

// ---- what the notes say

// How many notes there are.
pub fn count(t: &[u8]) -> usize
    requires { 4 ≤ length t.now }
    ensures { result ≡ num t.now 0 4 }
{
    octets::get32(t, 0) as usize
}

// The note of a transaction, or the number of notes.
pub fn find(t: &[u8], c: usize, s: usize, request: u32, coordinator: u16) -> usize
    requires { Notes c s t.now }
    ensures { result ≡ row request coordinator (notes_at c s t.now) }
{
    let n = count(t);
    for i in 0..n {
        if is_of(t, place(s, i), request, coordinator) {
            return i;
        }
    }
    n
}

// Note i's timestamp of group j.
pub fn stamp_of(t: &[u8], c: usize, s: usize, i: usize, j: usize) -> Option<u64>
    requires { Notes c s t.now × (i < length (notes_at c s t.now)) × (j < s) }
    ensures { said result ≡ get_or (note_in (notes_at c s t.now) i).stamps j none }
{
    point_at(t, place(s, i) + 6 + 9 * j)
}

// Whether note i has a timestamp of each group in the mask. No turn has a branch, and none is left out: a `for` over all groups and not `all`, which
// takes a quarter more where masks and marks are any.
pub fn agreed_at(t: &[u8], c: usize, s: usize, i: usize, mask: u16) -> bool
    requires { Notes c s t.now × (i < length (notes_at c s t.now)) }
    ensures { result ≡ noted_to mask (note_in (notes_at c s t.now) i).stamps s }
{
    let at = place(s, i) + 6;
    let mut all = true;
    for j in 0..s {
        all = all & (!group::holds(mask, j as u64) | heard_at(t, at + 9 * j));
    }
    all
}

// The greatest of note i's timestamps of groups in the mask.
pub fn greatest_at(t: &[u8], c: usize, s: usize, i: usize, mask: u16) -> u64
    requires { Notes c s t.now × (i < length (notes_at c s t.now)) }
    ensures { result ≡ greatest_to mask (note_in (notes_at c s t.now) i).stamps s }
{
    let at = place(s, i) + 6;
    let mut best: u64 = 0;
    for j in 0..s {
        best = raised(t, at + 9 * j, group::holds(mask, j as u64), best);
    }
    best
}

// Whether none of the s groups is in the mask: then nothing is missing of a transaction that has no note.
fn unmasked(mask: u16, s: usize) -> bool
    ensures { result ≡ noted_to mask [] s }
{
    (0..s).all(|j| !group::holds(mask, j as u64))
}

// What group j noted for a transaction.
pub fn noted(t: &[u8], c: usize, s: usize, e: Entry, j: usize) -> Option<u64>
    requires { Notes c s t.now × (j < s) }
    ensures { said result ≡ state.noted (notes_at c s t.now) e j }
{
    let i = find(t, c, s, e.request, e.coordinator);
    if count(t) <= i {
        return None;
    }
    stamp_of(t, c, s, i, j)
}

// Whether notes from every group of an entry's mask are held, where note i is that of its transaction.
pub fn agreed_from(t: &[u8], c: usize, s: usize, e: Entry, i: usize) -> bool
    requires { Notes c s t.now × (i ≡ row e.request e.coordinator (notes_at c s t.now)) }
    ensures { result ≡ state.agreed (sized c s) (notes_at c s t.now) e }
{
    if count(t) <= i {
        return unmasked(e.mask, s);
    }
    agreed_at(t, c, s, i, e.mask)
}

// Whether notes from every group of an entry's mask are held.
pub fn agreed(t: &[u8], c: usize, s: usize, e: Entry) -> bool
    requires { Notes c s t.now }
    ensures { result ≡ state.agreed (sized c s) (notes_at c s t.now) e }
{
    let i = find(t, c, s, e.request, e.coordinator);
    agreed_from(t, c, s, e, i)
}

// The greatest of the notes from groups of an entry's mask.
pub fn greatest(t: &[u8], c: usize, s: usize, e: Entry) -> u64
    requires { Notes c s t.now }
    ensures { result ≡ state.greatest (sized c s) (notes_at c s t.now) e }
{
    let i = find(t, c, s, e.request, e.coordinator);
    if count(t) <= i {
        return 0;
    }
    greatest_at(t, c, s, i, e.mask)
}

// ---- what changes them

// Puts a note of which no group was heard after the last. The free place is zero, so only the transaction is written.
fn append(t: &mut [u8], c: usize, s: usize, request: u32, coordinator: u16)
    requires { Notes c s t.old × (length (notes_at c s t.old) < c) }
    ensures { NotesHold c s (notes_at c s t.old ++ (unheard_note s request coordinator ∷ [])) t.new }
{
    let n = count(t);
    let at = place(s, n);
    octets::put32(t, at, request);
    octets::put16(t, at + 4, coordinator);
    octets::put32(t, 0, (n + 1) as u32);
}

// Writes group j's timestamp into note i.
fn hear(t: &mut [u8], c: usize, s: usize, i: usize, j: usize, stamp: u64)
    requires { Notes c s t.old × (i < length (notes_at c s t.old)) × (j < s) }
    ensures { NotesHold c s (set (notes_at c s t.old) i (heard_note (note_in (notes_at c s t.old) i) j stamp)) t.new }
{
    put_point(t, place(s, i) + 6 + 9 * j, stamp);
}

// Keeps group j's timestamp of a transaction. There is room for one more note where the transaction has none.
pub fn keep(t: &mut [u8], c: usize, s: usize, e: Entry, j: usize, stamp: u64)
    requires { Notes c s t.old × (row e.request e.coordinator (notes_at c s t.old) < c) × (j < s) }
    ensures { NotesHold c s (keep_note (sized c s) e j stamp (notes_at c s t.old)) t.new }
{
    let i = find(t, c, s, e.request, e.coordinator);
    if i < count(t) {
        hear(t, c, s, i, j, stamp);
        return;
    }
    append(t, c, s, e.request, e.coordinator);
    hear(t, c, s, i, j, stamp);
}

// Makes the bytes those of no notes, whatever they were.
pub fn clear(t: &mut [u8], c: usize, s: usize)
    requires { (length t.old ≡ 4 + note_length s * c) × (c ≤ 4096) × (s ≤ 8) }
    ensures { t.new ≡ notes_section (sized c s) [] }
{
    octets::fill_zero(t, 0, place(s, c));
}

// ---- whether bytes are those of notes

// Whether the point at `at` has its form, a flag 0 before zeros or a flag 1, and is a timestamp where it was heard.
fn point_good(t: &[u8], at: usize) -> bool
    requires { at + 9 ≤ length t.now }
    ensures { result ≡ (same (point_bytes (point_at t.now at)) (part t.now at 9) && passes stamp_fits (point_at t.now at)) }
{
    let flag = octets::get8(t, at);
    let stamp = octets::get64(t, at + 1);
    if flag == 0 {
        return stamp == 0;
    }
    (flag == 1) & ((1 <= stamp) & (stamp <= rules::LATEST))
}

// Whether the note at `at` has its form and is in range.
fn note_good(t: &[u8], at: usize, s: usize) -> bool
    requires { (at + note_length s ≤ length t.now) × (s ≤ 8) }
    ensures { result ≡ (same (note_bytes (note_at s t.now at)) (part t.now at (note_length s)) && note_fits (note_at s t.now at)) }
{
    let request = octets::get32(t, at);
    let coordinator = octets::get16(t, at + 4);
    // One pass for two tests, of all points and of any: two chains would go over the points twice.
    let mut fine = true;
    let mut heard = false;
    for j in 0..s {
        fine = fine & point_good(t, at + 6 + 9 * j);
        heard = heard | heard_at(t, at + 6 + 9 * j);
    }
    fine & ((1 <= request) & ((coordinator <= 65534) & heard))
}

// Whether the bytes are the form of the notes in them, no more than there is room for and free places zero, and each note is in range.
pub fn notes_good(t: &[u8], c: usize, s: usize) -> bool
    requires { (length t.now ≡ 4 + note_length s * c) × (c ≤ 4096) × (s ≤ 8) }
    ensures { result ≡ (same (notes_section (sized c s) (notes_at c s t.now)) t.now && every note_fits (notes_at c s t.now)) }
{
    let n = count(t);
    if c < n {
        return false;
    }
    for i in 0..n {
        if !note_good(t, place(s, i), s) {
            return false;
        }
    }
    let free = place(s, n);
    octets::all_zero(t, free, place(s, c) - free)
}
