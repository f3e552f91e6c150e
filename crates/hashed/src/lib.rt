// Rows by key in a table of slots: a row stands on the path that its key's hash begins. This serves plain keys. Paths are 64 slots long, so that chosen
// keys cannot make them longer; where one is full, or they are long on the whole, the table is given up.
#![tactic(auto)]

ghost use Rattle.std.specs.Prelude.{◌≡◌, ◌+◌, ◌≤◌, ◌<◌, length, IfSome, MatchOption};
ghost use Rattle.repeats.specs.Rows.{count_of, key_of, Inside};
ghost use Rattle.repeats.specs.Repeat.{repeat_place, row_of};
ghost use Rattle.hashed.specs.Table.{hash_of, slot_of, slot_at, Holds, Empty, Laid};

use repeats::{Spots, count, key, row};

// The number in a free slot, no row's.
const FREE: u16 = 65535;

// How many slots a path has.
pub const PATH: usize = 64;

// How many slots paths may pass before their ends, on the average of the rows that are in: plain keys pass half a slot, and random ones no more,
// in a table of two slots for a row.
const WAY: usize = 3;

// And how many beside: so a few rows stay in their table whatever their paths are, since their order costs more.
const SPARE: usize = 1024;

// ---- the hash

// A number of 4 bytes that scatters the keys. Requests are mostly consecutive, and their products are not.
#[tactic(auto, unfolding(crate::specs::Table::hash_of))]
fn hash(x: u64) -> u64
    ensures { (result ≡ hash_of x) × (result < 4294967296) }
{
    (x % 4294967296 * 2654435769 + x / 4294967296 % 65536 * 2246822507) % 4294967296
}

// The slot where the path of key x begins.
fn slot(x: u64, size: usize) -> usize
    requires { (64 ≤ size) × (size ≤ 65535) }
    ensures { (result ≡ slot_of size x) × (result + 64 ≤ size) }
{
    (hash(x) * (size - PATH) as u64 / 4294967296) as usize
}

// ---- the table

// The slot at which the path of key x ends, which begins at `start`.
fn path_end(b: &[u8], sp: Spots, table: &[u16], x: u64, start: usize) -> Option<usize>
    requires { Inside b.now sp × (start ≡ slot_of (length table.now) x) × (start + 64 ≤ length table.now) × (length table.now ≤ 65535) }
    ensures { MatchOption result (slot_at (key_of b.now sp) (count_of sp) table.now x ≡ length table.now)
        (λ p. (p ≡ slot_at (key_of b.now sp) (count_of sp) table.now x) × (start ≤ p) × (p < length table.now)) }
{
    let m = count(sp);
    for p in start..start + PATH {
        let e = row(table[p]);
        if m <= e || key(b, sp, e) == x {
            return Some(p);
        }
    }
    None
}

// Puts row after row from row `from` on into the slot at which the path of its key ends. Tells at which row it stopped: it has the key of
// an earlier one, or it is the end; None where no slot on a path was free, or paths are long on the whole.
pub fn lay(b: &[u8], sp: Spots, table: &mut [u16], from: usize) -> Option<usize>
    requires { Inside b.now sp × (64 ≤ length table.old) × (length table.old ≤ 65535)
        × (count_of sp ≤ 65535) × (from ≤ count_of sp) × Holds (key_of b.now sp) (count_of sp) table.old from }
    ensures { IfSome result (λ r. (r ≤ count_of sp) × Laid (key_of b.now sp) (count_of sp) table.old table.new r) }
{
    let m = count(sp);
    let mut passed = 0;
    for i in from..m {
        let x = key(b, sp, i);
        let start = slot(x, table.len());
        let mut p = start;
        // most paths end where they begin
        if row(table[start]) < m {
            p = path_end(b, sp, table, x, start)?;
            if row(table[p]) < m {
                return Some(i);
            }
            passed += p - start;
            if SPARE + WAY * i < passed {
                return None;
            }
        }
        table[p] = i as u16;
    }
    Some(m)
}

// Puts every row into a table, whatever stands in it.
pub fn lay_all(b: &[u8], sp: Spots, table: &mut [u16]) -> Option<usize>
    requires { Inside b.now sp × (64 ≤ length table.old) × (length table.old ≤ 65535) × (count_of sp ≤ 65535) }
    ensures { IfSome result (λ r. (r ≡ repeat_place (key_of b.now sp) (count_of sp))
        × (r ≡ count_of sp → Holds (key_of b.now sp) (count_of sp) table.new (count_of sp))) }
{
    table.fill(FREE);
    lay(b, sp, table, 0)
}

// The row with key x, where one has it.
pub fn find(b: &[u8], sp: Spots, table: &[u16], x: u64) -> Option<usize>
    requires { Inside b.now sp × (64 ≤ length table.now) × (length table.now ≤ 65535) × Holds (key_of b.now sp) (count_of sp) table.now (count_of sp) }
    ensures { MatchOption result (count_of sp ≡ row_of (key_of b.now sp) x (count_of sp))
        (λ e. (e < count_of sp) × (e ≡ row_of (key_of b.now sp) x (count_of sp))) }
{
    let start = slot(x, table.len());
    let p = path_end(b, sp, table, x, start)?;
    let e = row(table[p]);
    if e < count(sp) { Some(e) } else { None }
}
