// Rows of bytes by key, in slots that the caller lends: the first key that repeats an earlier one, and the row of a key. The slots spare both the
// search over all rows, in one of two ways: by a table, which serves plain keys, and where that is given up by the order of the keys, which no keys
// make dear. The first slot says by which, the second how many slots the table has; behind these two stands the table, or the rows in order.
#![tactic(auto)]

ghost use Rattle.std.specs.Prelude.{◌≡◌, ◌+◌, ◌-◌, ◌≤◌, ◌<◌, length, set, IfSome};
ghost use Rattle.repeats.specs.Rows.{count_of, key_of, Inside};
ghost use Rattle.repeats.specs.Repeat.{repeat_place, row_of};
ghost use Rattle.rows.specs.Slots.{served_by, Says, Indexed};

use hashed::PATH;
use repeats::{Spots, count, nested, row, search};

// How many rows a slot can number at most, and how many slots a table has at most.
const MOST: usize = 65535;

// How many rows are searched at less cost than that of a table.
const FEW: usize = 8;

// By what rows are found: a table, their order, or neither. Slot 0 says it by the number that stands beside.
#[derive(Clone, Copy)]
enum Served {
    Table = 0,
    Order = 1,
    Neither = 2,
}

// What the number in slot 0 says.
impl From<u16> for Served {
    ghost from_gives = { λ x by. Says by x };

    fn from(x: u16) -> Served {
        match x {
            0 => Served::Table,
            1 => Served::Order,
            _ => Served::Neither,
        }
    }
}

// By what rows are found.
fn served_by(slots: &[u16]) -> Served
    ensures { Says result (served_by slots.now) }
{
    match slots.first() {
        Some(x) => Served::from(*x),
        None => Served::Neither,
    }
}

// Marks that the slots do not serve: for a few searches that costs less than putting every row in.
pub fn mark_none(slots: &mut [u16])
    ensures { served_by slots.new ≡ 2 }
{
    if let Some(first) = slots.first_mut() {
        *first = Served::Neither as u16;
    }
}

// Marks that a table of `size` slots serves.
fn mark(slots: &mut [u16], size: usize)
    requires { (2 ≤ length slots.old) × (size ≤ 65535) }
    ensures { slots.new ≡ set (set slots.old 0 0) 1 size }
{
    slots[0] = Served::Table as u16;
    slots[1] = size as u16;
}

// How many slots a table of m rows is given, `most` at last, where `len` slots are lent; None where it is not worth a table, or none fits.
fn size_for(len: usize, m: usize, most: usize) -> Option<usize>
    ensures { IfSome result (λ size. (64 ≤ size) × (size ≤ 65535) × (2 + size ≤ len) × (m ≤ 65535)) }
{
    let rows = m.max(most);
    if rows <= FEW || MOST < m || len < 2 + PATH {
        return None;
    }
    let wanted = if rows < MOST / 2 - PATH {
        PATH + 2 * rows
    } else {
        MOST
    };
    Some(wanted.min(len - 2))
}

// Puts every row in the order of their keys. Tells the place of the first row that repeats an earlier one, or how many rows there are where none
// does; None where the slots do not suffice.
fn put_in_order(b: &[u8], sp: Spots, slots: &mut [u16]) -> Option<usize>
    requires { Inside b.now sp × (count_of sp ≤ 65535) }
    ensures { IfSome result (λ place. place ≡ repeat_place (key_of b.now sp) (count_of sp))
        × Indexed (key_of b.now sp) (count_of sp) slots.new }
{
    let place = sorted::index(b, sp, slots);
    if place == Some(count(sp)) {
        slots[0] = Served::Order as u16;
    } else {
        mark_none(slots);
    }
    place
}

// Puts every row into a table of this size, or in order where that is given up. Tells what `put_in_order` tells.
fn fill(b: &[u8], sp: Spots, slots: &mut [u16], size: usize) -> Option<usize>
    requires { Inside b.now sp × (64 ≤ size) × (size ≤ 65535) × (2 + size ≤ length slots.old) × (count_of sp ≤ 65535) }
    ensures { IfSome result (λ place. place ≡ repeat_place (key_of b.now sp) (count_of sp))
        × Indexed (key_of b.now sp) (count_of sp) slots.new }
{
    let m = count(sp);
    let end = 2 + size;
    let Some(place) = hashed::lay_all(b, sp, &mut slots[2..end]) else {
        return put_in_order(b, sp, slots);
    };
    if place == m {
        mark(slots, size);
    } else {
        mark_none(slots);
    }
    Some(place)
}

// Puts every row into the slots, and tells how many rows come before the first whose key an earlier one has. There will be `most` rows at
// most. A few rows are searched: that is cheaper than a table; and so are more than a slot can number, or than there are slots for.
pub fn index(b: &[u8], sp: Spots, most: usize, slots: &mut [u16]) -> usize
    requires { Inside b.now sp }
    ensures { (result ≡ repeat_place (key_of b.now sp) (count_of sp))
        × Indexed (key_of b.now sp) (count_of sp) slots.new }
{
    let Some(size) = size_for(slots.len(), count(sp), most) else {
        mark_none(slots);
        return nested(b, sp);
    };
    fill(b, sp, slots, size).unwrap_or_else(|| nested(b, sp))
}

// Puts the last row into a table that has all the rows before it; all the rows in order, where its path is full or it has the key of an earlier one.
fn add_to_table(b: &[u8], sp: Spots, slots: &mut [u16])
    requires { Inside b.now sp × (0 < count_of sp) × (count_of sp ≤ 65535)
        × (served_by slots.old ≡ 0) × Indexed (key_of b.now sp) (count_of sp - 1) slots.old }
    ensures { Indexed (key_of b.now sp) (count_of sp) slots.new }
{
    let m = count(sp);
    let size = row(slots[1]);
    let end = 2 + size;
    let reached = hashed::lay(b, sp, &mut slots[2..end], m - 1);
    if reached != Some(m) {
        put_in_order(b, sp, slots);
    }
}

// Puts the last row among the rows before it, which stand in order.
fn add_to_order(b: &[u8], sp: Spots, slots: &mut [u16])
    requires { Inside b.now sp × (0 < count_of sp) × (count_of sp ≤ 65535)
        × (served_by slots.old ≡ 1) × Indexed (key_of b.now sp) (count_of sp - 1) slots.old }
    ensures { Indexed (key_of b.now sp) (count_of sp) slots.new }
{
    if !sorted::add(b, sp, slots) {
        mark_none(slots);
    }
}

// Puts the last row into slots that have all the rows before it.
pub fn add(b: &[u8], sp: Spots, slots: &mut [u16])
    requires { Inside b.now sp × (0 < count_of sp) × Indexed (key_of b.now sp) (count_of sp - 1) slots.old }
    ensures { Indexed (key_of b.now sp) (count_of sp) slots.new }
{
    match served_by(slots) {
        Served::Neither => {}
        _ if MOST < count(sp) => mark_none(slots),
        Served::Table => add_to_table(b, sp, slots),
        Served::Order => add_to_order(b, sp, slots),
    }
}

// The row with key x, or how many rows there are where none has it: by the slots where they serve, else by a search.
pub fn find(b: &[u8], sp: Spots, slots: &[u16], x: u64) -> usize
    requires { Inside b.now sp × Indexed (key_of b.now sp) (count_of sp) slots.now }
    ensures { result ≡ row_of (key_of b.now sp) x (count_of sp) }
{
    match served_by(slots) {
        Served::Neither => search(b, sp, x),
        Served::Order => sorted::find(b, sp, slots, x).unwrap_or(count(sp)),
        Served::Table => {
            let end = 2 + row(slots[1]);
            hashed::find(b, sp, &slots[2..end], x).unwrap_or(count(sp))
        }
    }
}
