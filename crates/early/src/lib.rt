// The early buffer: an entry put in or lifted, those due by a time, those that leave because their transactions are listed, and those
// that fall to late. The notes of listed transactions leave in the same way. All of it on lent tables: where they stand is the caller's.
#![tactic(auto)]

ghost use Rattle.std.specs.Prelude.{◌≡◌, true, false, [], ◌∷◌, ◌++◌, ◌+◌, ◌*◌, ◌<◌, ◌≤◌, length, take, drop, set};
ghost use Rattle.rules.specs.Choice.{pick, any, keep};
ghost use Rattle.rules.specs.Entry.{no_entry, entry_of, before, place};
ghost use Rattle.rules.specs.State.{note_of};
ghost use Rattle.rules.specs.Early.{due_of, notes_without};
ghost use Rattle.rules.specs.Image.{note_length, table_at};
ghost use Rattle.rules.proofs.Order.{Sorted};
ghost use Rattle.entries.specs.First.{is_of};
ghost use Rattle.entries.specs.Table.{Holds, Table};
ghost use Rattle.notes.specs.Notes.{notes_at, no_note, note_in, NotesHold, Notes};
ghost use Rattle.early.specs.Listed as listing;
ghost use Rattle.early.specs.Listed.{indexed, Lookup, Ready, placed, stays};
ghost use Rattle.early.specs.declared.Which.TheVariants.{Any, After, NotAfter};
ghost use Rattle.early.specs.Moved.{moved, moved_to};
ghost use Rattle.early.specs.Buffers.{BothHold, early_in, late_in, Both};

use rules::Entry;

// A turn of a pass that moves what stays to the front: what is looked at next, and how many stayed so far.
#[derive(Clone, Copy)]
struct Turn {
    next: usize,
    kept: usize,
}

// Which entries are meant where those of listed transactions leave: any other; others that lie after an entry; others that do not.
#[derive(Clone, Copy)]
pub enum Which {
    Any,
    After(Entry),
    NotAfter(Entry),
}

// Entries that stand in bytes and list transactions: where, and how many there are.
#[derive(Clone, Copy)]
pub struct Listed {
    pub at: usize,
    pub count: usize,
}

// Listed entries: the bytes that they stand in, and the slots by which they are found.
#[derive(Clone, Copy)]
pub struct Index<'a> {
    pub bytes: &'a [u8],
    pub listed: Listed,
    pub slots: &'a [u16],
}

// ---- an entry comes

// Puts e into the buffer, in its place.
pub fn put(t: &mut [u8], c: usize, e: Entry)
    requires { Table c t.old × (length (table_at c t.old 0) < c) × Sorted (table_at c t.old 0) }
    ensures { Holds c (place e (table_at c t.old 0)) t.new }
{
    entries::insert_in_order(t, c, e);
}

// Puts e, which is entry i at a timestamp that is not below its own, in its place.
pub fn lift(t: &mut [u8], c: usize, i: usize, e: Entry)
    requires { let es = table_at c t.old 0 in
        Table c t.old × (i < length es) × Sorted es × (before e (entry_of es i) ≡ false) }
    ensures { let es = table_at c t.old 0 in Holds c (place e (take i es ++ drop (i + 1) es)) t.new }
{
    entries::move_on(t, c, i, e);
}

// ---- those that are due

// How many entries are due by a time: they come first.
pub fn count_due(t: &[u8], c: usize, time: u64) -> usize
    requires { Table c t.now }
    ensures { result ≡ length (due_of time (table_at c t.now 0)) }
{
    let n = entries::count(t);
    for k in 0..n {
        let e = entries::entry_of(t, c, k);
        if time < e.stamp {
            return k;
        }
    }
    n
}

// ---- those that are listed

// Puts the rows of the listed entries into the slots, by which they are found.
pub fn list(b: &[u8], listed: Listed, slots: &mut [u16])
    requires { (listed.at + 24 * listed.count ≤ length b.now) × (listed.count ≤ 4096) }
    ensures { Lookup b.now listed slots.new }
{
    entries::index_rows(b, listed.at, listed.count, listed.count, slots);
}

// Whether a transaction is among those listed.
fn is_listed(index: Index, request: u32, coordinator: u16) -> bool
    requires { Ready index }
    ensures { result ≡ any (is_of request coordinator) (indexed index.entry) }
{
    let Listed { at, count } = index.listed;
    entries::find_row(index.bytes, at, count, index.slots, request, coordinator) < count
}

// Whether an entry lies where those that are meant do.
fn is_placed(which: Which, e: Entry) -> bool
    ensures { result ≡ placed which e }
{
    match which {
        Which::Any => true,
        Which::After(last) => entries::before(last, e),
        Which::NotAfter(last) => !entries::before(last, e),
    }
}

// Whether an entry is meant and its transaction is not listed. Its place is tested first: it costs less.
fn chosen(index: Index, which: Which, e: Entry) -> bool
    requires { Ready index }
    ensures { result ≡ listing.chosen (indexed index.entry) which e }
{
    if !is_placed(which, e) {
        return false;
    }
    !is_listed(index, e.request, e.coordinator)
}

// How many entries of a table are chosen.
fn count_chosen(t: &[u8], c: usize, index: Index, which: Which) -> usize
    requires { Table c t.now × Ready index }
    ensures { result ≡ length (keep (listing.chosen (indexed index.entry) which) (table_at c t.now 0)) }
{
    let n = entries::count(t);
    let mut found = 0;
    for i in 0..n {
        let e = entries::entry_of(t, c, i);
        if chosen(index, which, e) {
            found += 1;
        }
    }
    found
}

// Moves the entry whose turn it is to the front if it is chosen, and tells how many are kept then.
fn sift(t: &mut [u8], c: usize, turn: Turn, index: Index, which: Which) -> usize
    requires { Table c t.old × (turn.next < length (table_at c t.old 0)) × (turn.kept ≤ turn.next) × Ready index }
    ensures { let stays = listing.chosen (indexed index.entry) which in
        Holds c (moved stays no_entry (table_at c t.old 0) turn.next turn.kept) t.new
        × (result ≡ moved_to stays no_entry (table_at c t.old 0) turn.next turn.kept) }
{
    let e = entries::entry_of(t, c, turn.next);
    if !chosen(index, which, e) {
        return turn.kept;
    }
    entries::replace_at(t, c, turn.kept, e);
    turn.kept + 1
}

// Takes out of a table all entries but those that are meant and whose transactions are not listed, in one pass.
pub fn leave(t: &mut [u8], c: usize, index: Index, which: Which)
    requires { Table c t.old × Ready index }
    ensures { Holds c (keep (listing.chosen (indexed index.entry) which) (table_at c t.old 0)) t.new }
{
    let n = entries::count(t);
    let mut kept = 0;
    for i in 0..n {
        let turn = Turn { next: i, kept };
        kept = sift(t, c, turn, index, which);
    }
    entries::truncate(t, c, kept);
}

// ---- the notes of those that are listed
// The passes over entries and over notes are two: one generic pass would need a trait of tables with the laws of both, longer than either.

// Whether the transaction of note i is among those listed.
fn note_listed(t: &[u8], c: usize, s: usize, i: usize, index: Index) -> bool
    requires { Notes c s t.now × (i < length (notes_at c s t.now)) × Ready index }
    ensures { result ≡ any (λ e. note_of e (note_in (notes_at c s t.now) i)) (indexed index.entry) }
{
    let at = notes::place(s, i);
    is_listed(index, octets::get32(t, at), octets::get16(t, at + 4))
}

// Puts note i in the place of an earlier one.
fn move_note(t: &mut [u8], c: usize, s: usize, kept: usize, i: usize)
    requires { Notes c s t.old × (i < length (notes_at c s t.old)) × (kept ≤ i) }
    ensures { NotesHold c s (set (notes_at c s t.old) kept (note_in (notes_at c s t.old) i)) t.new }
{
    let to = notes::place(s, kept);
    let from = notes::place(s, i);
    octets::move_down(t, to, from, 6 + 9 * s);
}

// Takes out the notes from place n on.
fn truncate_notes(t: &mut [u8], c: usize, s: usize, n: usize)
    requires { Notes c s t.old × (n ≤ length (notes_at c s t.old)) }
    ensures { NotesHold c s (take n (notes_at c s t.old)) t.new }
{
    let m = notes::count(t);
    let from = notes::place(s, n);
    octets::fill_zero(t, from, notes::place(s, m) - from);
    octets::put32(t, 0, n as u32);
}

// Moves the note whose turn it is to the front unless its transaction is listed, and tells how many are kept then.
fn sift_note(t: &mut [u8], c: usize, s: usize, turn: Turn, index: Index) -> usize
    requires { Notes c s t.old × (turn.next < length (notes_at c s t.old)) × (turn.kept ≤ turn.next) × Ready index }
    ensures { let gone = indexed index.entry in
        NotesHold c s (moved (stays gone) no_note (notes_at c s t.old) turn.next turn.kept) t.new
        × (result ≡ moved_to (stays gone) no_note (notes_at c s t.old) turn.next turn.kept) }
{
    if note_listed(t, c, s, turn.next, index) {
        return turn.kept;
    }
    move_note(t, c, s, turn.kept, turn.next);
    turn.kept + 1
}

// Takes out the notes of listed transactions, in one pass.
pub fn leave_notes(t: &mut [u8], c: usize, s: usize, index: Index)
    requires { Notes c s t.old × Ready index }
    ensures { NotesHold c s (notes_without (indexed index.entry) (notes_at c s t.old)) t.new }
{
    let n = notes::count(t);
    let mut kept = 0;
    for i in 0..n {
        let turn = Turn { next: i, kept };
        kept = sift_note(t, c, s, turn, index);
    }
    truncate_notes(t, c, s, kept);
}

// ---- early and late, one after the other in a slice, beside a log that is taken over

// How long late becomes: what is not listed of late, and of early what does not lie after the new log's last.
pub fn late_after(t: &[u8], c: usize, index: Index, last: Entry) -> usize
    requires { Both c t.now × Ready index }
    ensures { let gone = indexed index.entry in
        result ≡ length (keep (listing.chosen gone Any) (late_in c t.now)) + length (keep (listing.chosen gone (NotAfter last)) (early_in c t.now)) }
{
    let half = 4 + 24 * c;
    let end = half + half;
    let stay = count_chosen(&t[half..end], c, index, Which::Any);
    stay + count_chosen(&t[0..half], c, index, Which::NotAfter(last))
}

// Puts early entry i after the last of late where it is not listed and does not lie after the new log's last.
fn fall(t: &mut [u8], c: usize, i: usize, index: Index, last: Entry)
    requires { let falls = listing.chosen (indexed index) (NotAfter last) in
        Both c t.old × (i < length (early_in c t.old)) × (falls (entry_of (early_in c t.old) i) ≡ true → length (late_in c t.old) < c) × Ready index }
    ensures { let falls = listing.chosen (indexed index.entry) (NotAfter last) in
        let e = entry_of (early_in c t.old) i in
        BothHold c (early_in c t.old) (late_in c t.old ++ pick (falls e) (e ∷ []) []) t.new }
{
    let half = 4 + 24 * c;
    let e = entries::entry_of(&t[0..half], c, i);
    if !chosen(index, Which::NotAfter(last), e) {
        return;
    }
    let end = half + half;
    entries::append(&mut t[half..end], c, e);
}

// Puts the early entries that are not listed and do not lie after the new log's last after the last of late, in their order.
fn fall_late(t: &mut [u8], c: usize, index: Index, last: Entry)
    requires { let falls = listing.chosen (indexed index) (NotAfter last) in
        Both c t.old × (length (late_in c t.old) + length (keep falls (early_in c t.old)) ≤ c) × Ready index }
    ensures { let falls = listing.chosen (indexed index.entry) (NotAfter last) in
        BothHold c (early_in c t.old) (late_in c t.old ++ keep falls (early_in c t.old)) t.new }
{
    let n = entries::count(t);
    for i in 0..n {
        fall(t, c, i, index, last);
    }
}

// Listed entries leave early and late, and what is left of early and does not lie after the new log's last goes to late.
pub fn settle(t: &mut [u8], c: usize, index: Index, last: Entry)
    requires { let chosen = listing.chosen (indexed index) in
        Both c t.old × (length (keep (chosen Any) (late_in c t.old)) + length (keep (chosen (NotAfter last)) (early_in c t.old)) ≤ c) × Ready index }
    ensures { let chosen = listing.chosen (indexed index.entry) in
        let early = early_in c t.old in
        BothHold c (keep (chosen (After last)) early) (keep (chosen Any) (late_in c t.old) ++ keep (chosen (NotAfter last)) early) t.new }
{
    let half = 4 + 24 * c;
    let end = half + half;
    leave(&mut t[half..end], c, index, Which::Any);
    fall_late(t, c, index, last);
    leave(&mut t[0..half], c, index, Which::After(last));
}
