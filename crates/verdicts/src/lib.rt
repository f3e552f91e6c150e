// The first wrong field of a message: its head, its body, and its entries, which in a log are to be good.
#![tactic(auto)]

ghost use Rattle.std.specs.Prelude.{◌≡◌, Bool, ℕ, ◌+◌, ◌-◌, ◌*◌, ◌≤◌, min, [], length};
ghost use Rattle.rules.specs.Read as reading;
ghost use Rattle.fields.specs.Parts.{fields_from, headed};
ghost use Rattle.verdicts.specs.Rows.{row_in, repeat_of, limit_of, stands_after, wrong_in, Looked};

use fields::{Parts, below, body_wrong, entry_wrong, head_wrong};
use kinds::{entries_at, with_log};
use rules::{Entry, Header, Verdict, WrongField};

// What is looked at of the entries in some bytes: where they begin, how many of them are whole, and how many are looked at.
#[derive(Clone, Copy)]
pub struct Look {
    pub at: usize,
    pub whole: usize,
    pub seen: usize,
}

// The first of `count` entries whose transaction an earlier one has, or `count`; there is at least one entry.
fn repeat_of(b: &[u8], at: usize, count: usize, slots: &mut [u16]) -> usize
    requires { (1 ≤ count) × (at + 24 * count ≤ length b.now) }
    ensures { result ≡ repeat_of (row_in b.now at) count }
{
    rows::index(b, entries::entry_spots(at, count), count, slots)
}

// How many of `seen` entries come before the first that repeats an earlier one, where they are a log.
fn limit_of(log: bool, b: &[u8], look: Look, slots: &mut [u16]) -> usize
    requires { 24 * look.whole ≤ length b.now - look.at }
    ensures { result ≡ limit_of log (row_in b.now look.at) look.whole look.seen }
{
    let seen = look.seen;
    if !log {
        return seen;
    }
    let count = look.whole.min(seen);
    if count < 1 {
        return seen;
    }
    let place = repeat_of(b, look.at, count, slots);
    if place < count {
        return place;
    }
    seen
}

// Whether an entry whose transaction is new stands in a log after the entry `last`.
fn stands_after(s: u64, group: u64, last: Entry, e: Entry) -> bool
    requires { s ≤ 8 }
    ensures { result ≡ stands_after s group last e }
{
    entries::before(last, e) & (group::holds(e.mask, group) & below(e.mask, s))
}

// The first wrong field of the entries that are looked at.
pub fn entries_wrong(s: u64, h: Header, b: &[u8], look: Look, slots: &mut [u16]) -> Verdict
    requires { Looked s look (length b.now) }
    ensures { result ≡ reading.entries_wrong s (fields_from (headed h) [] (row_in b.now look.at)) look.whole look.seen }
{
    let at = look.at;
    let whole = look.whole;
    let log = with_log(h.kind);
    let from = entries_at(s, h.kind);
    let limit = limit_of(log, b, look, slots);
    let mut last = entries::no_entry();
    for i in 0..limit {
        let e = entries::look_entry(b, at + 24 * i);
        let standing = !(log & (i < whole)) | stands_after(s, h.to_group as u64, last, e);
        entry_wrong(s, h, from + 4 + 24 * i, standing, e)?;
        last = e;
    }
    if limit < look.seen {
        let place = from + 4 + 24 * limit;
        return Err(WrongField {
            at: place,
            end: place,
        });
    }
    Ok(())
}

// The first wrong field of a message of these numbers, whose entries stand in b.
pub fn message_wrong(
    n: u64,
    s: u64,
    p: Parts,
    numbers: &[u64],
    b: &[u8],
    look: Look,
    slots: &mut [u16],
) -> Verdict
    requires { Looked s look (length b.now) }
    ensures { result ≡ wrong_in n s p numbers.now b.now look }
{
    head_wrong(n, s, p)?;
    body_wrong(s, p, numbers)?;
    entries_wrong(s, p.header, b, look, slots)
}
