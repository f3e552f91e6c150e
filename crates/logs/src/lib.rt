// Logs in bytes: where a log stops being good, and what has to hold of each of its entries.
#![tactic(auto)]

ghost use Rattle.std.specs.Prelude.{◌≡◌, ◌&&◌, ◌++◌, ◌+◌, ◌*◌, ◌≤◌, ◌<◌, eqb, length};
ghost use Rattle.octets.specs.Bytes.{items};
ghost use Rattle.rules.specs.Choice.{every};
ghost use Rattle.rules.specs.Entry.{entry_fits};
ghost use Rattle.rules.specs.Log.{good_to, good_log, all_hold, distinct};
ghost use Rattle.rules.specs.Read.{entry_at};
ghost use Rattle.rules.specs.Image.{table_at};
ghost use Rattle.repeats.specs.Repeat.{first_to};
ghost use Rattle.logs.specs.Place.{row_at, fits, fit_from, unfit_from, unfit_at, Within};

use repeats::{Run, Spots};
use rules::Entry;

// Whether every field of an entry is in range, where there are s groups.
pub fn entry_fits(e: Entry, s: u64) -> bool
    ensures { result ≡ entry_fits s e }
{
    let stamp = (1 <= e.stamp) & (e.stamp <= rules::LATEST);
    stamp & ((1 <= e.request) & ((e.coordinator <= 65534) & group::some_of(e.mask, s)))
}

// Whether an entry can come after the entry `last` in a log of group k, its transaction aside, and its mask holds group j too.
fn fits_after(e: Entry, last: Entry, s: u64, k: u64, j: u64) -> bool
    ensures { result ≡ fits s k j last e }
{
    let masked = group::holds(e.mask, k) & group::holds(e.mask, j);
    entry_fits(e, s) & (entries::before(last, e) & masked)
}

// The first of `count` entries from `at` on that does not fit after the one before it, or `count`; the first is to fit after the entry
// `last`. Whether its transaction repeats an earlier one is not asked.
fn first_unfit(b: &[u8], at: usize, count: usize, last: Entry, s: u64, k: u64, j: u64) -> usize
    requires { at + 24 * count ≤ length b.now }
    ensures { result ≡ first_to (unfit_from s k j last (row_at b.now at)) count }
{
    let mut lower = last;
    for i in 0..count {
        let e = entries::entry_at(b, at + 24 * i);
        if !fits_after(e, lower, s, k, j) {
            return i;
        }
        lower = e;
    }
    count
}

// Whether each of `count` entries from `at` on fits after the one before it.
pub fn rows_fit(b: &[u8], at: usize, count: usize, s: u64, k: u64, j: u64) -> bool
    requires { at + 24 * count ≤ length b.now }
    ensures { result ≡ eqb (first_to (unfit_at s k j (row_at b.now at)) count) count }
{
    first_unfit(b, at, count, entries::no_entry(), s, k, j) == count
}

// Whether each of `count` entries from `at` on fits after the one before it, and the first after the entry `last`.
pub fn rise_from(b: &[u8], at: usize, count: usize, last: Entry, s: u64, k: u64) -> bool
    requires { at + 24 * count ≤ length b.now }
    ensures { result ≡ fit_from s k last (items (entry_at b.now) 24 at count) }
{
    first_unfit(b, at, count, last, s, k, k) == count
}

// Whether each of `count` entries from `at` on fits after the entry `last`.
pub fn all_fit(b: &[u8], at: usize, count: usize, last: Entry, s: u64, k: u64) -> bool
    requires { at + 24 * count ≤ length b.now }
    ensures { result ≡ every (fits s k k last) (items (entry_at b.now) 24 at count) }
{
    (0..count).all(|i| fits_after(entries::entry_at(b, at + 24 * i), last, s, k, k))
}

// The first of `count` entries from `at` on at which they stop being a good log of group k, or `count`. One pass finds where the
// fit ones end, and a repeat among those comes first.
pub fn good_place(b: &[u8], at: usize, count: usize, s: u64, k: u64, slots: &mut [u16]) -> usize
    requires { at + 24 * count ≤ length b.now }
    ensures { result ≡ good_to s k (row_at b.now at) count }
{
    let fit = first_unfit(b, at, count, entries::no_entry(), s, k, k);
    rows::index(b, entries::entry_spots(at, fit), fit, slots)
}

// Whether `count` entries from `at` on are a good log of group k whose every mask holds group j too.
pub fn good_for(
    b: &[u8],
    at: usize,
    count: usize,
    s: u64,
    k: u64,
    j: u64,
    slots: &mut [u16],
) -> bool
    requires { at + 24 * count ≤ length b.now }
    ensures { let es = items (entry_at b.now) 24 at count in result ≡ (good_log s k es && all_hold j es) }
{
    if !rows_fit(b, at, count, s, k, j) {
        return false;
    }
    rows::index(b, entries::entry_spots(at, count), count, slots) == count
}

// Whether no transaction stands twice in three tables together, such as log, early and late buffer.
pub fn distinct3(
    b: &[u8],
    one: usize,
    two: usize,
    three: usize,
    c: usize,
    slots: &mut [u16],
) -> bool
    requires { Within c b.now one × Within c b.now two × Within c b.now three }
    ensures { result ≡ distinct (table_at c b.now one ++ (table_at c b.now two ++ table_at c b.now three)) }
{
    let l = octets::get32(b, one) as usize;
    let m = octets::get32(b, two) as usize;
    let n = octets::get32(b, three) as usize;
    let spots = Spots {
        first: Run {
            at: one + 20,
            count: l,
        },
        second: Run {
            at: two + 20,
            count: m,
        },
        third: Run {
            at: three + 20,
            count: n,
        },
        stride: 24,
    };
    let all = l + m + n;
    rows::index(b, spots, all, slots) == all
}
