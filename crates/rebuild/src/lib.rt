// The rebuild of a log from the votes of a view change, into a table that the caller lends: no byte of the state changes.
#![tactic(auto)]

ghost use Rattle.std.specs.Prelude.{◌≡◌, true, not, [], ◌∷◌, ◌+◌, ◌*◌, ◌≤◌, ◌<◌, eqb, length, get_or};
ghost use Rattle.std.proofs.Math.Option.{none};
ghost use Rattle.rules.specs.Choice.{pick, any, is_some};
ghost use Rattle.rules.specs.Entry.{same_key, among};
ghost use Rattle.rules.specs.Read.{entry_at};
ghost use Rattle.rules.specs.Image.{table_at};
ghost use Rattle.rules.proofs.Order.{Sorted};
ghost use Rattle.rules.specs.Rebuild.{top_from, with_normal, prefix, holders};
ghost use Rattle.entries.specs.First.{find_row};
ghost use Rattle.entries.specs.Table.{Holds, Table};
ghost use Rattle.ballots.specs.Ballots.{votes_in, vote_of, counts_at, Given, Lists};
ghost use Rattle.rebuild.specs.Tables.{votes_of, Brought, Indexed, Looks, Counted};
ghost use Rattle.rebuild.specs.Rebuild.{Based, Starts, Adds, Gives, lower, holds_at, is_new, new_from};

use ballots::{Best, Cast};
use rules::{Entry, GroupSize, Shape};

// The votes that are read: those of the state, and that of the message, which came.
#[derive(Clone, Copy)]
struct Votes<'a> {
    shape: Shape,
    state: &'a [u8],
    message: &'a [u8],
    cast: Cast,
}

impl<'a> Votes<'a> {
    // Whether the vote of replica r counts: there is one, with the greatest last normal gView.
    fn counted(self, top: u64, r: u64) -> bool
        requires { Brought self × (r < self.shape.n) }
        ensures { result ≡ counts_at top (get_or (votes_of self.entry) r none) }
    {
        ballots::counted(self.shape, self.state, self.cast, top, r)
    }

    // The log of replica r's vote, where it stands: a count, and entries behind it.
    fn log_of(self, r: u64) -> &'a [u8]
        requires { Brought self × (r < self.shape.n) × (is_some (get_or (votes_of self) r none) ≡ true) }
        ensures { Lists self.entry.shape.c (vote_of (get_or (votes_of self.entry) r none)).log result.now }
    {
        ballots::log_of(self.shape, self.state, self.message, self.cast, r)
    }
}

// Slots for the rows of the votes' logs: how many each log gets, how many logs have theirs, and for each replica which of them its vote's
// log has, if any.
#[derive(Clone, Copy)]
struct Index {
    size: usize,
    used: usize,
    place: [Option<u8>; 7],
}

// What is counted: the greatest last normal gView, and the slots of the votes that count.
#[derive(Clone, Copy)]
struct Count {
    top: u64,
    index: Index,
}

// What the rebuild starts from: what is counted, the vote that gives the prefix, if any does, and the prefix's last entry.
#[derive(Clone, Copy)]
struct Basis {
    count: Count,
    best: Option<Best>,
    last: Entry,
}

// ---- the rows of the logs by transaction

// Puts the rows of the log of replica r's vote into slots of their own, where the vote counts and there are slots left.
fn index_vote<'a>(votes: Votes<'a>, count: Count, slots: &mut [u16], r: u64) -> Index
    requires { Brought votes × (r < votes.shape.n)
        × Indexed (votes_of votes) r count.index slots.old }
    ensures { Indexed (votes_of votes.entry) (r + 1) result slots.new }
{
    let index = count.index;
    if !votes.counted(count.top, r) {
        return index;
    }
    let at = index.size * index.used;
    let end = at + index.size;
    if slots.len() < end {
        return index;
    }
    let log = votes.log_of(r);
    let n = entries::count(log);
    entries::index_rows(log, 4, n, n, &mut slots[at..end]);
    let i = r as usize;
    let mut next = index;
    next.place[i] = Some(index.used as u8);
    next.used = index.used + 1;
    next
}

// Puts the rows of the logs of all votes that count into slots, each log's into its own.
fn index_votes<'a>(votes: Votes<'a>, top: u64, slots: &mut [u16]) -> Count
    requires { Brought votes }
    ensures { (result.top ≡ top) × Counted votes.entry result slots.new }
{
    let mut index = Index {
        size: 66 + 2 * votes.shape.c as usize,
        used: 0,
        place: [None; 7],
    };
    for r in 0..votes.shape.n {
        let count = Count { top, index };
        index = index_vote(votes, count, slots, r);
    }
    Count { top, index }
}

// The first of the `number` entries of replica r's log that has the transaction of e, or `number`: by the log's own slots, or by none.
fn find_row(log: &[u8], number: usize, index: Index, slots: &[u16], r: u64, e: Entry) -> usize
    requires { Looks log.now number index slots.now r }
    ensures { result ≡ find_row (λ j. entry_at log.now (4 + 24 * j)) e.request e.coordinator number }
{
    let i = r as usize;
    let Some(place) = index.place[i] else {
        return entries::find_row(log, 4, number, &slots[0..0], e.request, e.coordinator);
    };
    let at = index.size * place as usize;
    let end = at + index.size;
    entries::find_row(log, 4, number, &slots[at..end], e.request, e.coordinator)
}

// ---- which votes hold an entry

// Whether the log of replica r's vote has e, by timestamp and transaction. A good log has a transaction once, so the first that is found decides.
fn log_holds<'a>(votes: Votes<'a>, count: Count, slots: &[u16], r: u64, e: Entry) -> bool
    requires { Counted votes count slots.now × (r < votes.shape.n)
        × (is_some (get_or (votes_of votes) r none) ≡ true) }
    ensures { result ≡ any (same_key e) (vote_of (get_or (votes_of votes.entry) r none)).log }
{
    let log = votes.log_of(r);
    let number = entries::count(log);
    let i = find_row(log, number, count.index, slots, r, e);
    if number <= i {
        return false;
    }
    let found = entries::entry_at(log, 4 + 24 * i);
    e.stamp == found.stamp
}

// Whether the vote of replica r counts and holds e.
fn holds_at<'a>(votes: Votes<'a>, count: Count, slots: &[u16], r: u64, e: Entry) -> bool
    requires { Counted votes count slots.now × (r < votes.shape.n) }
    ensures { result ≡ holds_at count.top e (get_or (votes_of votes.entry) r none) }
{
    if !votes.counted(count.top, r) {
        return false;
    }
    log_holds(votes, count, slots, r, e)
}

// Whether one of the votes of replicas below `end` counts and holds e.
fn held_below<'a>(votes: Votes<'a>, count: Count, slots: &[u16], end: u64, e: Entry) -> bool
    requires { Counted votes count slots.now × (end ≤ votes.shape.n) }
    ensures { result ≡ not (eqb (holders (lower count.top (votes_of votes.entry) end) e) 0) }
{
    for r in 0..end {
        if holds_at(votes, count, slots, r, e) {
            return true;
        }
    }
    false
}

// How many of the votes of replicas from `start` on count and hold e.
fn holders_from<'a>(votes: Votes<'a>, count: Count, slots: &[u16], start: u64, e: Entry) -> u64
    requires { Counted votes count slots.now × (start ≤ votes.shape.n) }
    ensures { let all = votes_of votes.entry in
        holders (lower count.top all start) e + result ≡ holders (lower count.top all votes.entry.shape.n) e }
{
    let mut sum = 0;
    for r in start..votes.shape.n {
        if holds_at(votes, count, slots, r, e) {
            sum += 1;
        }
    }
    sum
}

// ---- what is added

// Whether the transaction of e is in the prefix.
fn in_prefix<'a>(votes: Votes<'a>, basis: Basis, slots: &[u16], e: Entry) -> bool
    requires { Starts votes basis slots.now }
    ensures { result ≡ among (prefix (with_normal basis.count.top (votes_of votes.entry))) e }
{
    let Some(best) = basis.best else {
        return false;
    };
    let counting = basis.count;
    let log = votes.log_of(best.replica);
    let number = entries::count(log);
    let length = best.sync as usize;
    find_row(log, number, counting.index, slots, best.replica, e) < length
}

// Whether e, of replica r's vote, is to be added: it is later than the prefix's last, no lower vote holds it, R votes hold it, and it is not in the prefix.
fn is_new<'a>(votes: Votes<'a>, basis: Basis, slots: &[u16], r: u64, e: Entry) -> bool
    requires { Starts votes basis slots.now × (r < votes.shape.n) }
    ensures { result ≡ is_new votes.entry.shape.n basis.count.top (votes_of votes.entry) r e }
{
    if !entries::before(basis.last, e) {
        return false;
    }
    let counting = basis.count;
    if held_below(votes, counting, slots, r, e) {
        return false;
    }
    let all = holders_from(votes, counting, slots, r, e);
    if all < GroupSize(votes.shape.n).recovery() {
        return false;
    }
    !in_prefix(votes, basis, slots, e)
}

// Puts e in order into the table if it is to be added; false where the table is full.
fn add_entry(table: &mut [u8], c: usize, new: bool, e: Entry) -> bool
    requires { Table c table.old × Sorted (table_at c table.old 0) }
    ensures { Adds c (table_at c table.old 0) (pick new (e ∷ []) []) table.new result }
{
    if !new {
        return true;
    }
    if c <= entries::count(table) {
        return false;
    }
    entries::insert_in_order(table, c, e);
    true
}

// Adds what the vote of replica r has to add; false where the table is full.
fn add_from<'a>(votes: Votes<'a>, basis: Basis, slots: &[u16], r: u64, table: &mut [u8]) -> bool
    requires { Starts votes basis slots.now × (r < votes.shape.n) × Table votes.shape.c table.old
        × Sorted (table_at votes.shape.c table.old 0) }
    ensures { let all = votes_of votes.entry in
        Adds votes.entry.shape.c (table_at votes.entry.shape.c table.old 0) (new_from votes.entry.shape.n basis.count.top all r) table.new result }
{
    let counting = basis.count;
    if !votes.counted(counting.top, r) {
        return true;
    }
    let log = votes.log_of(r);
    let number = entries::count(log);
    for i in 0..number {
        let e = entries::entry_at(log, 4 + 24 * i);
        let new = is_new(votes, basis, slots, r, e);
        if !add_entry(table, votes.shape.c as usize, new, e) {
            return false;
        }
    }
    true
}

// ---- the rebuilt log

// Makes the table one of the prefix, and tells what the rebuild starts from.
fn take_prefix<'a>(votes: Votes<'a>, count: Count, table: &mut [u8]) -> Basis
    requires { Brought votes × (length table.old ≡ 4 + 24 * votes.shape.c)
        × (count.top ≡ top_from 0 (votes_of votes)) }
    ensures { let all = votes_of votes.entry in
        (result.count ≡ count) × Based votes.entry.shape.n all result × Holds votes.entry.shape.c (prefix (with_normal count.top all)) table.new }
{
    let c = votes.shape.c as usize;
    let Some(best) = ballots::best_vote(votes.shape, votes.state, votes.cast, count.top) else {
        entries::clear(table, c);
        return Basis {
            count,
            best: None,
            last: entries::no_entry(),
        };
    };
    let log = votes.log_of(best.replica);
    let length = best.sync as usize;
    entries::take_over(table, c, log, 4, length);
    let last = entries::entry_at(log, 4 + 24 * (length - 1));
    Basis {
        count,
        best: Some(best),
        last,
    }
}

// Adds to the prefix in the table what every vote has to add, replicas rising. The rebuilt log's boundary; none where the table has no room for the log.
fn add_all<'a>(votes: Votes<'a>, basis: Basis, slots: &[u16], table: &mut [u8]) -> Option<u64>
    requires { let all = votes_of votes in
        Starts votes basis slots.now × Holds votes.shape.c (prefix (with_normal basis.count.top all)) table.old }
    ensures { Gives votes.entry.shape.c votes.entry.shape.n (votes_of votes.entry) table.new result }
{
    for r in 0..votes.shape.n {
        if !add_from(votes, basis, slots, r, table) {
            return None;
        }
    }
    Some(basis.last.stamp)
}

// The log that the votes of the state and of the message give, put into the table, whose old bytes are not read: its boundary, and none where the table
// has no room for it.
pub fn rebuild<'a>(
    shape: Shape,
    state: &'a [u8],
    message: &'a [u8],
    cast: Cast,
    slots: &mut [u16],
    table: &mut [u8],
) -> Option<u64>
    requires { Given shape state.now message.now cast × (length table.old ≡ 4 + 24 * shape.c) }
    ensures { Gives shape.c shape.n (votes_in shape state.now message.now cast) table.new result }
{
    let top = ballots::top_normal(shape, state, cast);
    let votes = Votes {
        shape,
        state,
        message,
        cast,
    };
    let count = index_votes(votes, top, slots);
    let basis = take_prefix(votes, count, table);
    add_all(votes, basis, slots, table)
}
