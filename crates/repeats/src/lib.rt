// Keys that stand in rows of a byte slice: the first that repeats an earlier one, and the row of a key, each by a search over all rows.
#![tactic(auto)]

ghost use Rattle.std.specs.Prelude.{◌≡◌, ◌+◌, ◌*◌, ◌≤◌, ◌<◌, eqb};
ghost use Rattle.repeats.specs.Rows.{count_of, spot_of, key_of, Inside};
ghost use Rattle.repeats.specs.Repeat.{repeat_place, row_of};

// Keys that stand one after the other, the first of them at `at`.
#[derive(Clone, Copy)]
pub struct Run {
    pub at: usize,
    pub count: usize,
}

// Where the keys stand: three runs, one after the other in number, each key 6 bytes and one `stride` after the one before.
// The bytes are handed beside it and are no field of it: the contracts of `rows::index` and what else is called from above name the two.
#[derive(Clone, Copy)]
pub struct Spots {
    pub first: Run,
    pub second: Run,
    pub third: Run,
    pub stride: usize,
}

// How many keys there are.
pub fn count(sp: Spots) -> usize
    requires { count_of sp < 18446744073709551616 }
    ensures { result ≡ count_of sp }
{
    sp.first.count + sp.second.count + sp.third.count
}

// Where key i stands.
#[tactic(auto, using(crate::proofs::Places::spot_first, crate::proofs::Places::spot_second, crate::proofs::Places::spot_third))]
pub fn spot(sp: Spots, i: usize) -> usize
    requires { spot_of sp i < 18446744073709551616 }
    ensures { result ≡ spot_of sp i }
{
    if i < sp.first.count {
        return sp.first.at + sp.stride * i;
    }
    let j = i - sp.first.count;
    if j < sp.second.count {
        return sp.second.at + sp.stride * j;
    }
    sp.third.at + sp.stride * (j - sp.second.count)
}

// Key i, as a number.
#[tactic(auto, using(crate::proofs::Places::spot_in))]
pub fn key(b: &[u8], sp: Spots, i: usize) -> u64
    requires { Inside b.now sp × (i < count_of sp) }
    ensures { (result ≡ key_of b.now sp i) × (result < 281474976710656) }
{
    let at = spot(sp, i);
    octets::get32(b, at) as u64 + octets::get16(b, at + 4) as u64 * 4294967296
}

// Whether key j is the one of these two numbers. Most keys differ in the first, and one read tells.
#[tactic(auto, using(crate::proofs::Places::spot_in))]
fn same(b: &[u8], sp: Spots, j: usize, low: u32, high: u64) -> bool
    requires { Inside b.now sp × (j < count_of sp) }
    ensures { result ≡ eqb (key_of b.now sp j) (low + high * 4294967296) }
{
    let at = spot(sp, j);
    if octets::get32(b, at) != low {
        return false;
    }
    octets::get16(b, at + 4) as u64 == high
}

// The place of the first key that repeats an earlier one, by a nested search: the break leaves both loops with it. A loop that
// yields it, and no for, which yields nothing: the form that docs/DECISIONS.md, "Forms", names.
#[tactic(auto, using(crate::proofs::Places::spot_in))]
pub fn nested(b: &[u8], sp: Spots) -> usize
    requires { Inside b.now sp }
    ensures { result ≡ repeat_place (key_of b.now sp) (count_of sp) }
{
    let m = count(sp);
    let mut i = 0;
    let place = 'search: loop {
        if m <= i {
            break 'search m;
        }
        let at = spot(sp, i);
        let low = octets::get32(b, at);
        let high = octets::get16(b, at + 4) as u64;
        for j in 0..i {
            if same(b, sp, j, low, high) {
                break 'search i;
            }
        }
        i += 1;
    };
    place
}

// The row with key x, or how many rows there are, by a search over them.
pub fn search(b: &[u8], sp: Spots, x: u64) -> usize
    requires { Inside b.now sp }
    ensures { result ≡ row_of (key_of b.now sp) x (count_of sp) }
{
    let m = count(sp);
    let low = (x % 4294967296) as u32;
    let high = x / 4294967296;
    for i in 0..m {
        if same(b, sp, i, low, high) {
            return i;
        }
    }
    m
}

// A slot's number as a row.
pub fn row(x: u16) -> usize
    ensures { (result ≡ x) × (result ≤ 65535) }
{
    x as usize
}
