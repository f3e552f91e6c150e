// A message's fields, and whether they are right. Tests of rows are straight-line code on truth values; the numbers are a row in a loop.
#![tactic(auto)]

ghost use Rattle.std.specs.Prelude.{◌≡◌, Bool, ℕ, ◌+◌, ◌*◌, ◌^◌, ◌≤◌, ◌<◌, [], ltb, get_or};
ghost use Rattle.rules.specs.Choice as choice;
ghost use Rattle.rules.specs.Entry as entry;
ghost use Rattle.rules.specs.Read as reading;
ghost use Rattle.fields.specs.Parts as parts;

use kinds::{
    bare, entries_at, from_outside, known, numbers_at, numbers_in, to_outside, views_in, with_log,
    with_one,
};
use rules::kind::{FAST_REPLY, TICK, TIMESTAMP_NOTE, TRANSACTION, VERIFY_REPLY, VOTE};
use rules::{Entry, Header, Verdict, WrongField};

// What a message says beside its numbers and its entries: the header, the three zeros, and the three counts.
#[derive(Clone, Copy)]
pub struct Parts {
    pub header: Header,
    pub zeros: u64,
    pub views: u64,
    pub numbers: u64,
    pub entries: u64,
}

// A field from `at` up to `end`, which is to be right.
pub fn expect(right: bool, at: usize, end: usize) -> Verdict
    ensures { result ≡ choice.pick right reading.all_right (reading.wrong_field at end) }
{
    if right {
        Ok(())
    } else {
        Err(WrongField { at, end })
    }
}

// One of two tests, by a third.
fn either(t: bool, a: bool, b: bool) -> bool
    ensures { result ≡ choice.pick t a b }
{
    (t & a) | (!t & b)
}

// The first wrong field of the header.
pub fn head_wrong(n: u64, s: u64, p: Parts) -> Verdict
    ensures { result ≡ reading.first_wrong (reading.head_rows n s (parts.fields_of p [])) }
{
    let h = p.header;
    let to = to_outside(h.kind);
    let from = from_outside(h.kind);
    let to_group = either(to, h.to_group == 255, (h.to_group as u64) < s);
    let to_mask = either(to, h.to_mask == 1, group::some_of(h.to_mask as u16, n));
    let from_group = either(from, h.from_group == 255, (h.from_group as u64) < s);
    let from_replica = either(from, h.from_replica == 255, (h.from_replica as u64) < n);
    expect(known(h.kind), 0, 1)
        .and(expect(to_group, 1, 2))
        .and(expect(to_mask, 2, 3))
        .and(expect(from_group, 3, 4))
        .and(expect(from_replica, 4, 5))
        .and(expect(p.zeros == 0, 5, 8))
        .and(expect(!bare(h.kind) | (h.view == 0), 8, 12))
}

// Whether a timestamp is one.
fn stamp_fits(t: u64) -> bool
    ensures { result ≡ entry.stamp_fits t }
{
    (1 <= t) & (t <= rules::LATEST)
}

// Whether a send time and a bound make a timestamp. Their sum is not taken where it would be too great.
fn sum_fits(t: u64, bound: u64) -> bool
    ensures { result ≡ entry.stamp_fits (t + bound) }
{
    if rules::LATEST < t {
        return false;
    }
    if rules::LATEST - t < bound {
        return false;
    }
    stamp_fits(t + bound)
}

// Number i, or 0 where there is none.
pub fn number_of(numbers: &[u64], i: usize) -> u64
    ensures { result ≡ get_or numbers.now i 0 }
{
    if i < numbers.len() {
        return numbers[i];
    }
    0
}

// Whether number j is right.
fn number_fits(p: Parts, numbers: &[u64], j: usize) -> bool
    ensures { result ≡ reading.number_fits (parts.fields_of p numbers.now) j }
{
    let h = p.header;
    let k = h.kind;
    let first = number_of(numbers, 0);
    let second = number_of(numbers, 1);
    let due = !((k == TRANSACTION) & (j == 1)) | sum_fits(first, second);
    let placed = !((k == FAST_REPLY) & (j == 0)) | (first <= 1);
    let paired = either(first == 0, second == 0, 1 <= second);
    let position = !((k == FAST_REPLY) & (j == 1)) | paired;
    let normal = !((k == VOTE) & (j == 0)) | (first < h.view as u64);
    let time = !((k == TICK) & (j == 0)) | (first <= rules::LATEST);
    due & (placed & (position & (normal & time)))
}

// The first wrong one of the kind's numbers.
fn numbers_wrong(s: u64, p: Parts, numbers: &[u64]) -> Verdict
    requires { s ≤ 8 }
    ensures { result ≡ parts.numbers_wrong s (parts.fields_of p numbers.now) }
{
    let h = p.header;
    let k = h.kind;
    let count = numbers_in(k) as usize;
    let from = numbers_at(s, k) + 4;
    for i in 0..count {
        let at = from + 8 * i;
        expect(number_fits(p, numbers, i), at, at + 8)?;
    }
    Ok(())
}

// Whether the count of entries is right.
fn entries_fit(p: Parts, numbers: &[u64]) -> bool
    ensures { result ≡ reading.entries_fit (parts.fields_of p numbers.now) }
{
    let h = p.header;
    let k = h.kind;
    let sync = number_of(numbers, 1);
    either(
        with_one(k),
        p.entries == 1,
        either(
            with_log(k),
            !(k == VOTE) | (sync <= p.entries),
            p.entries == 0,
        ),
    )
}

// The first wrong count or number.
pub fn body_wrong(s: u64, p: Parts, numbers: &[u64]) -> Verdict
    requires { s ≤ 8 }
    ensures { result ≡ reading.first_wrong (reading.body_rows s (parts.fields_of p numbers.now)) }
{
    let k = p.header.kind;
    let counted = numbers_at(s, k);
    let entered = entries_at(s, k);
    expect(p.views == views_in(s, k), 12, 16)
        .and(expect(p.numbers == numbers_in(k), counted, counted + 4))
        .and(numbers_wrong(s, p, numbers))
        .and(expect(entries_fit(p, numbers), entered, entered + 4))
}

// Whether the mask names no group past s.
pub fn below(mask: u16, s: u64) -> bool
    requires { s ≤ 8 }
    ensures { result ≡ ltb mask (2 ^ s) }
{
    (mask as u64) < 1 << s
}

// Whether an entry's timestamp is right.
fn stamp_right(kind: u8, t: u64) -> bool
    ensures { result ≡ reading.stamp_right kind t }
{
    either(kind == TRANSACTION, t == 0, stamp_fits(t))
}

// Whether an entry's mask is right.
fn mask_right(s: u64, h: Header, mask: u16) -> bool
    ensures { result ≡ reading.mask_right s (parts.head_fields h) mask }
{
    let k = h.kind;
    let to = !((k == TRANSACTION) | (k == TIMESTAMP_NOTE)) | group::holds(mask, h.to_group as u64);
    let from = !((k == TIMESTAMP_NOTE) | (k == VERIFY_REPLY))
        | group::holds(mask, h.from_group as u64);
    group::some_of(mask, s) & (to & from)
}

// The first wrong field of an entry at a, of which it is known whether it stands.
pub fn entry_wrong(s: u64, h: Header, a: usize, standing: bool, e: Entry) -> Verdict
    requires { a ≤ 2 ^ 62 }
    ensures { result ≡ reading.first_wrong (parts.rows_of s h a standing e) }
{
    expect(standing, a, a)
        .and(expect(stamp_right(h.kind, e.stamp), a, a + 8))
        .and(expect(1 <= e.request, a + 16, a + 20))
        .and(expect(e.coordinator <= 65534, a + 20, a + 22))
        .and(expect(mask_right(s, h, e.mask), a + 22, a + 24))
}
