// The core's own check of a state: whether bytes of any length, for sizes of any kind, are those of a good state.
#![tactic(auto)]

ghost use Rattle.std.specs.Prelude.{◌≡◌, ◌&&◌, ◌||◌, not, ◌+◌, ◌*◌, ◌≤◌, ◌<◌, min, eqb, leb, length};
ghost use Rattle.octets.specs.Bytes.{num, items, flat, part};
ghost use Rattle.rules.specs.Choice.{pick, every, passes, below, same};
ghost use Rattle.rules.specs.Log.{last_of};
ghost use Rattle.rules.specs.Log.{good_log, distinct};
ghost use Rattle.rules.specs.State.{view_good, heard_good, vote_good, reply_good, kept_good, note_fits};
ghost use Rattle.rules.specs.State as rule;
ghost use Rattle.rules.specs.Image.{table_length, vote_length, reply_length, point_bytes, point_at, table_at, vote_at, reply_at, state_of, at_heard, at_replies, at_votes};
ghost use Rattle.logs.specs.Place.{fits, fit_from};
ghost use Rattle.notes.specs.Notes.{sized, notes_at, row, Notes};
ghost use Rattle.lookups.specs.Rows.{NoteRows};
ghost use Rattle.places.specs.Layout.{start_of, Sized};
ghost use Rattle.form.specs.Sections.{section_form};
ghost use Rattle.good.specs.Known.{head_fits, points_good, noted_right, entries_good, early_right, notes_right, Known, Lent, Formed, rest_good, asked, judged};
ghost use Rattle.good.specs.Statements.{Judges, Orders};

use rules::{Entry, Shape, status};

// ---- a table anywhere in bytes

// How many entries the table at `at` has. A count above the room is read as the room, as the definition reads it.
fn count_at(b: &[u8], at: usize, c: usize) -> usize
    requires { at + 4 ≤ length b.now }
    ensures { result ≡ min (num b.now at 4) c }
{
    let n = octets::get32(b, at) as usize;
    n.min(c)
}

// Whether the table at `at` holds a good log of group k.
fn log_good(b: &[u8], at: usize, c: usize, s: u64, k: u64, slots: &mut [u16]) -> bool
    requires { at + table_length c ≤ length b.now }
    ensures { result ≡ good_log s k (table_at c b.now at) }
{
    let n = count_at(b, at, c);
    logs::good_place(b, at + 4, n, s, k, slots) == n
}

// Whether each entry of the table at `at` fits after the one before it: where no transaction stands twice, they are a good log of group k.
fn rows_fit(b: &[u8], at: usize, c: usize, s: u64, k: u64) -> bool
    requires { at + table_length c ≤ length b.now }
    ensures { (result && distinct (table_at c b.now at)) ≡ good_log s k (table_at c b.now at) }
{
    let n = count_at(b, at, c);
    logs::rows_fit(b, at + 4, n, s, k, k)
}

// Whether each entry of the table at `at` fits after the entry `last` at a replica of group k and, where `ordered`, after the one before it.
fn table_fits(b: &[u8], at: usize, c: usize, last: Entry, s: u64, k: u64, ordered: bool) -> bool
    requires { at + table_length c ≤ length b.now }
    ensures { let es = table_at c b.now at in result ≡ pick ordered (fit_from s k last es) (every (fits s k k last) es) }
{
    let n = count_at(b, at, c);
    if ordered {
        return logs::rise_from(b, at + 4, n, last, s, k);
    }
    logs::all_fit(b, at + 4, n, last, s, k)
}

// The last entry of the table at `at`, no entry where it has none.
// Of any table and not places::last_entry, which knows the log alone: an edit that has to be refused asks it of the draft.
fn last_entry(b: &[u8], at: usize, c: usize) -> Entry
    requires { at + table_length c ≤ length b.now }
    ensures { result ≡ last_of (table_at c b.now at) }
{
    let n = count_at(b, at, c);
    if n == 0 {
        return entries::no_entry();
    }
    entries::entry_at(b, at + 4 + 24 * (n - 1))
}

// ---- the head

// Whether the head's numbers are in range.
fn head_fits(shape: Shape, state: &[u8]) -> bool
    requires { Sized shape state.now }
    ensures { result ≡ head_fits shape (state_of shape state.now) }
{
    let group = places::get_group(state);
    let replica = places::get_replica(state);
    let status = places::get_status(state);
    let clock = places::get_clock(state);
    let boundary = places::get_boundary(state);
    let times = (clock <= rules::LATEST) & (boundary <= rules::LATEST);
    (group < shape.s)
        & ((replica < shape.n)
            & ((status::NORMAL <= status) & ((status <= status::CROSS_SHARD) & times)))
}

// Whether the own replica leads its group.
fn leads(shape: Shape, state: &[u8]) -> bool
    requires { Known shape state.now }
    ensures { result ≡ rule.leads shape (state_of shape state.now) }
{
    let view = places::view_at(shape, state, places::get_group(state));
    group::leads(shape.n, view, places::get_replica(state))
}

// Whether the commit point is within the sync point, and that within the log.
fn points_good(shape: Shape, state: &[u8]) -> bool
    requires { Sized shape state.now }
    ensures { result ≡ points_good (state_of shape state.now) }
{
    let count = places::log_length(shape, state);
    let sync = places::get_sync(state);
    (places::get_commit(state) <= sync) & (sync <= count as u64)
}

// Whether the last normal gView fits the status, which is 3 at a leader only.
fn view_good(shape: Shape, state: &[u8]) -> bool
    requires { Known shape state.now }
    ensures { result ≡ view_good shape (state_of shape state.now) }
{
    let status = places::get_status(state);
    let normal = places::get_normal(state);
    let view = places::get_view(state);
    let right = ((status == status::NORMAL) & (normal == view))
        | ((status != status::NORMAL) & (normal < view));
    right & ((status != status::CROSS_SHARD) | leads(shape, state))
}

// ---- the points heard

// Whether every point heard has its form and, where `asked`, none is above `most`, and none is there where the own replica is no leader.
fn heard_within(shape: Shape, state: &[u8], asked: bool, leading: bool, most: u64) -> bool
    requires { Sized shape state.now }
    ensures { let points = items (point_at state.now) 9 (start_of shape at_heard) shape.n in
        result ≡ (same (flat point_bytes points) (part state.now (start_of shape at_heard) (9 * shape.n))
        && every (passes (λ p. not asked || (leading && leb p most))) points) }
{
    let at = places::places_of(shape).heard;
    // One pass for two tests of each point: two chains would go over the points twice.
    let mut formed = true;
    let mut within = true;
    for i in 0..shape.n {
        let point = places::heard_point(shape, state, i);
        let right = !asked | (leading & (point <= most));
        formed = formed & form::point_form(state, at + 9 * (i as usize));
        within = within & (!places::heard_flag(shape, state, i) | right);
    }
    formed & within
}

// Whether the points heard have their form and, in status 1, they and the sync point are those of a leader or of a follower.
fn heard_good(shape: Shape, state: &[u8]) -> bool
    requires { Known shape state.now }
    ensures { result ≡ (section_form shape state.now 2 && heard_good shape (state_of shape state.now)) }
{
    let count = places::log_length(shape, state);
    let status = places::get_status(state);
    let sync = places::get_sync(state);
    let leading = leads(shape, state);
    let within = heard_within(shape, state, status == status::NORMAL, leading, sync);
    within & ((status != status::NORMAL) | (!leading | (sync == count as u64)))
}

// ---- votes and replies kept

// Whether the vote of replica r, where one is kept, is one of this view.
fn vote_good(shape: Shape, state: &[u8], r: u64, slots: &mut [u16]) -> bool
    requires { Sized shape state.now × (r < shape.n) }
    ensures { result ≡ passes (vote_good shape (state_of shape state.now))
        (vote_at shape.c state.now (start_of shape at_votes + vote_length shape.c * r)) }
{
    if !places::vote_flag(shape, state, r) {
        return true;
    }
    let at = places::vote_place(shape, r) + 13;
    let count = count_at(state, at, shape.c as usize);
    let sync = places::vote_sync(shape, state, r);
    let normal = places::vote_normal(shape, state, r);
    let view = places::get_view(state);
    let log = log_good(
        state,
        at,
        shape.c as usize,
        shape.s,
        places::get_group(state),
        slots,
    );
    log & ((sync <= count as u64) & (normal < view))
}

// Whether every vote kept is one of this view.
fn votes_good(shape: Shape, state: &[u8], slots: &mut [u16]) -> bool
    requires { Sized shape state.now }
    ensures { result ≡ every (passes (vote_good shape (state_of shape state.now)))
        (items (vote_at shape.c state.now) (vote_length shape.c) (start_of shape at_votes) shape.n) }
{
    // A loop and not `all`: of a closure that writes the slots a proof knows nothing.
    for r in 0..shape.n {
        if !vote_good(shape, state, r, slots) {
            return false;
        }
    }
    true
}

// Whether the reply of group j, where one is kept, is one of another group to the own.
fn reply_good(shape: Shape, state: &[u8], j: u64, slots: &mut [u16]) -> bool
    requires { Sized shape state.now × (j < shape.s) }
    ensures { result ≡ passes (reply_good shape (state_of shape state.now) j)
        (reply_at shape.c state.now (start_of shape at_replies + reply_length shape.c * j)) }
{
    if !places::reply_flag(shape, state, j) {
        return true;
    }
    let at = places::reply_place(shape, j) + 1;
    let group = places::get_group(state);
    let count = count_at(state, at, shape.c as usize);
    (j != group) & logs::good_for(state, at + 4, count, shape.s, group, j, slots)
}

// Whether every reply kept is one of another group to the own.
fn replies_good(shape: Shape, state: &[u8], slots: &mut [u16]) -> bool
    requires { Sized shape state.now }
    ensures { result ≡ every (λ j. passes (reply_good shape (state_of shape state.now) j)
        (reply_at shape.c state.now (start_of shape at_replies + reply_length shape.c * j))) (below shape.s) }
{
    // A loop and not `all`: of a closure that writes the slots a proof knows nothing.
    for j in 0..shape.s {
        if !reply_good(shape, state, j, slots) {
            return false;
        }
    }
    true
}

// Whether what is kept is good, and less than would have been acted upon.
fn kept_good(shape: Shape, state: &[u8], slots: &mut [u16]) -> bool
    requires { Sized shape state.now }
    ensures { result ≡ kept_good shape (state_of shape state.now) }
{
    let status = places::get_status(state);
    let votes = places::held_votes(shape, state);
    let replies = places::held_replies(shape, state);
    let votes_fine = votes_good(shape, state, slots);
    let replies_fine = replies_good(shape, state, slots);
    let few_votes = (status != status::VIEW_CHANGE)
        | (votes < rules::GroupSize(shape.n).majority());
    let few_replies = (status != status::CROSS_SHARD) | (replies < shape.s - 1);
    votes_fine & (replies_fine & (few_votes & few_replies))
}

// ---- log and buffers

// Whether the log is good, early entries come after it and, where `ordered`, each after the one before it, those of both buffers are in
// range and hold the own group, and no transaction stands twice in the three: one pass over each, and one test for repeats.
fn entries_good(shape: Shape, state: &[u8], ordered: bool, slots: &mut [u16]) -> bool
    requires { Formed shape state.now }
    ensures { result ≡ entries_good shape (asked ordered (state_of shape state.now)) }
{
    let layout = places::places_of(shape);
    let c = shape.c as usize;
    let group = places::get_group(state);
    let last = last_entry(state, layout.log, c);
    let log = rows_fit(state, layout.log, c, shape.s, group);
    let early = table_fits(state, layout.early, c, last, shape.s, group, ordered);
    let late = table_fits(
        state,
        layout.late,
        c,
        entries::no_entry(),
        shape.s,
        group,
        false,
    );
    let apart = logs::distinct3(state, layout.log, layout.early, layout.late, c, slots);
    log & (early & (late & apart))
}

// ---- the notes

// Whether an entry that was noted at `own` stands at that timestamp or, once agreed, at the greatest of its note, which is note i.
fn stamp_right(t: &[u8], c: usize, s: usize, e: Entry, i: usize, own: u64) -> bool
    requires { Notes c s t.now × (i < length (notes_at c s t.now)) × (i ≡ row e.request e.coordinator (notes_at c s t.now)) }
    ensures { let xs = notes_at c s t.now in
        result ≡ eqb e.stamp (pick (rule.agreed (sized c s) xs e) (rule.greatest (sized c s) xs e) own) }
{
    if notes::agreed_at(t, c, s, i, e.mask) {
        return e.stamp == notes::greatest_at(t, c, s, i, e.mask);
    }
    e.stamp == own
}

// Whether a leader's early entry, whose note is note i, has the note of its own group k, and the timestamp that the notes say.
fn noted_right(t: &[u8], c: usize, s: usize, e: Entry, i: usize, k: usize) -> bool
    requires { Notes c s t.now × (k < s) × (i ≡ row e.request e.coordinator (notes_at c s t.now)) }
    ensures { result ≡ noted_right s (notes_at c s t.now) k e }
{
    if notes::count(t) <= i {
        return false;
    }
    match notes::stamp_of(t, c, s, i, k) {
        None => false,
        Some(own) => stamp_right(t, c, s, e, i, own),
    }
}

// Whether every entry in the table at `at` has the note of group k, and the timestamp that the notes say. The slots have the rows of the
// notes.
fn all_noted(b: &[u8], at: usize, t: &[u8], c: usize, s: usize, k: usize, slots: &[u16]) -> bool
    requires { (at + table_length c ≤ length b.now) × Notes c s t.now × (k < s) × NoteRows c s t.now slots.now }
    ensures { result ≡ every (noted_right s (notes_at c s t.now) k) (table_at c b.now at) }
{
    let n = count_at(b, at, c);
    for i in 0..n {
        let e = entries::entry_at(b, at + 4 + 24 * i);
        let note = lookups::note_row(t, c, s, slots, e.request, e.coordinator);
        if !noted_right(t, c, s, e, note, k) {
            return false;
        }
    }
    true
}

// Whether in status 1 a leader's early entries have their notes. The notes are lent as a slice of their own.
fn early_good(shape: Shape, state: &[u8], t: &[u8], slots: &[u16]) -> bool
    requires { Known shape state.now × Lent shape state.now t.now × NoteRows shape.c shape.s t.now slots.now }
    ensures { result ≡ early_right shape (state_of shape state.now) }
{
    if places::get_status(state) != status::NORMAL {
        return true;
    }
    if !leads(shape, state) {
        return true;
    }
    let at = places::places_of(shape).early;
    let c = shape.c as usize;
    let s = shape.s as usize;
    let group = places::get_group(state) as usize;
    all_noted(state, at, t, c, s, group, slots)
}

// Whether no two notes are of one transaction, and a leader's early entries have their notes.
fn notes_right(shape: Shape, state: &[u8], t: &[u8], slots: &mut [u16]) -> bool
    requires { Known shape state.now × Lent shape state.now t.now }
    ensures { result ≡ notes_right shape (state_of shape state.now) }
{
    if !lookups::index_notes(t, shape.c as usize, shape.s as usize, slots) {
        return false;
    }
    early_good(shape, state, t, slots)
}

// Whether the notes have their form and are in range.
fn notes_fit(shape: Shape, state: &[u8]) -> bool
    requires { Sized shape state.now }
    ensures { result ≡ (section_form shape state.now 6 && every note_fits (state_of shape state.now).waiting.notes) }
{
    let layout = places::places_of(shape);
    let from = layout.notes;
    let upto = layout.votes;
    notes::notes_good(&state[from..upto], shape.c as usize, shape.s as usize)
}

// ---- all of it

// Whether the points heard have their form, and all holds that is left of a good state once its head and its notes are in range.
fn rest_good(shape: Shape, state: &[u8], ordered: bool, slots: &mut [u16]) -> bool
    requires { Formed shape state.now }
    ensures { result ≡ (section_form shape state.now 2 && rest_good shape (asked ordered (state_of shape state.now))) }
{
    let layout = places::places_of(shape);
    let group = places::get_group(state);
    let from = layout.notes;
    let upto = layout.votes;
    let heard = heard_good(shape, state);
    let draft = log_good(state, layout.draft, shape.c as usize, shape.s, group, slots);
    let points = points_good(shape, state);
    let view = view_good(shape, state);
    let kept = kept_good(shape, state, slots);
    let entries = entries_good(shape, state, ordered, slots);
    let noting = notes_right(shape, state, &state[from..upto], slots);
    heard & (draft & (points & (view & (kept & (entries & noting)))))
}

// Whether the bytes are those of a state that is good, its early in order or, where that is not asked, once it is put in order. This is
// asked of whatever comes, and nothing is taken for granted.
fn judge(shape: Shape, state: &[u8], ordered: bool, slots: &mut [u16]) -> bool
    ensures { result ≡ judged ordered shape state.now }
{
    if !group::shape_fits(shape) {
        return false;
    }
    if state.len() != places::places_of(shape).end {
        return false;
    }
    if !form::tables_form(shape, state) {
        return false;
    }
    if !head_fits(shape, state) {
        return false;
    }
    if !notes_fit(shape, state) {
        return false;
    }
    rest_good(shape, state, ordered, slots)
}

// Whether the bytes are those of a good state.
pub fn good(shape: Shape, state: &[u8], slots: &mut [u16]) -> bool
    ensures { Judges shape state.now result }
{
    judge(shape, state, true, slots)
}

// Whether the bytes are those of a state that is good but for the order of early.
pub fn orderable(shape: Shape, state: &[u8], slots: &mut [u16]) -> bool
    ensures { Orders shape state.now result }
{
    judge(shape, state, false, slots)
}
