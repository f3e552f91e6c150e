// Good states of three replicas and three groups with room for 16 entries, all of replica 2 of group 1, as bytes at their places: a fresh
// one (0), a leader (1), a follower (2), a leader in a view change (3) and across shards (4), a follower without early entries (5), one
// without a log (6) and one with every table full (7).
use rules::{Entry, Shape};
use scripts::Row;

// The shape and the length of these states.
pub const SHAPE: Shape = Shape { n: 3, s: 3, c: 16 };

pub const LENGTH: usize = 4541;

// Where the sections of docs/STATE.md begin in these states.
const STARTS: [usize; 10] = [0, 48, 60, 87, 475, 863, 1251, 1783, 2986, 3374];

// What the states hold. The first number of a row is the sum of the bits of those that have what it says: p puts a number, e an entry; t fills
// a table, n the notes.
const ROWS: &str = "\
# Own group 1, own replica 2, and the status.
p 255 0 0 1 1
p 255 0 1 1 2
p 231 0 2 1 1
p 8 0 2 1 2
p 16 0 2 1 3
# gView 5, the last normal gView, clock 50, sync point, commit point, boundary 10.
p 254 0 8 4 5
p 230 0 12 4 5
p 24 0 12 4 4
p 254 0 16 8 50
p 2 0 24 8 3
p 188 0 24 8 2
p 190 0 32 8 1
p 254 0 40 8 10
# gVec: in view 5 replica 2 leads group 1, in view 6 it does not.
p 254 1 0 4 3
p 26 1 4 4 5
p 228 1 4 4 6
p 254 1 8 4 4
# A leader has heard the point 2 of replica 0.
p 26 2 0 1 1
p 26 2 1 8 2
# A log of three entries; the last two have one timestamp. A follower's sync point may be below its log length.
p 190 3 0 4 3
e 190 3 4 10 1 2
e 190 3 28 20 2 3
e 190 3 52 20 3 7
# Two early entries: one that only the own group has noted, as early as the log's last, and one that all three groups have.
p 94 4 0 4 2
e 94 4 4 20 5 3
e 94 4 28 30 4 7
# Two late ones.
p 254 5 0 4 2
e 254 5 4 5 6 2
e 254 5 28 7 7 6
# The notes: of the second early entry 30, 25 and 28, of the first 20 by the own group; and 40 by group 2 for a transaction to come.
p 254 6 0 4 3
p 254 6 4 4 4
p 254 6 8 2 7
p 254 6 10 1 1
p 254 6 11 8 30
p 254 6 19 1 1
p 254 6 20 8 25
p 254 6 28 1 1
p 254 6 29 8 28
p 254 6 37 4 5
p 254 6 41 2 7
p 254 6 52 1 1
p 254 6 53 8 20
p 254 6 70 4 8
p 254 6 74 2 7
p 254 6 94 1 1
p 254 6 95 8 40
# The vote of replica 0, with last normal gView 3 and sync point 1. Nothing forbids a vote, a draft or a reply in any status.
p 254 7 0 1 1
p 254 7 1 4 3
p 254 7 5 8 1
p 254 7 13 4 2
e 254 7 17 10 1 2
e 254 7 41 20 2 3
# The draft.
p 254 8 0 4 2
e 254 8 4 10 1 2
e 254 8 28 20 2 3
# The reply of group 0.
p 254 9 0 1 1
p 254 9 1 4 2
e 254 9 5 20 1 3
e 254 9 29 21 2 7
# Every table full; log, early and late have other transactions.
p 128 3 0 4 16
t 128 3 4 0
p 128 4 0 4 16
t 128 4 4 100
p 128 5 0 4 16
t 128 5 4 200
p 128 6 0 4 16
n 128 6 4
p 128 7 13 4 16
t 128 7 17 0
p 128 8 0 4 16
t 128 8 4 0
p 128 9 1 4 16
t 128 9 5 0
";

// A place in a section.
pub fn place(section: u64, offset: u64) -> Option<usize> {
    STARTS.get(section as usize)?.checked_add(offset as usize)
}

// Writes bytes over what stands at a place, none where they have no room.
fn lay(memory: &mut [u8], at: usize, bytes: &[u8]) -> Option<()> {
    let place = memory.get_mut(at..)?.get_mut(..bytes.len())?;
    place.copy_from_slice(bytes);
    Some(())
}

// Writes the lowest bytes of a number.
pub fn put(memory: &mut [u8], at: usize, width: u64, value: u64) -> Option<()> {
    lay(memory, at, value.to_le_bytes().get(..width as usize)?)
}

// An entry's bytes.
pub fn bytes_of(entry: Entry) -> [u8; 24] {
    let mut bytes = [0; 24];
    octets::put64(&mut bytes, 0, entry.stamp);
    octets::put64(&mut bytes, 8, entry.command);
    octets::put32(&mut bytes, 16, entry.request);
    octets::put16(&mut bytes, 20, entry.coordinator);
    octets::put16(&mut bytes, 22, entry.mask);
    bytes
}

// An entry: a request of coordinator 7, whose number is its command too.
fn entry(stamp: u64, request: u64, mask: u64) -> Option<[u8; 24]> {
    Some(bytes_of(Entry {
        stamp,
        command: request,
        request: u32::try_from(request).ok()?,
        coordinator: 7,
        mask: u16::try_from(mask).ok()?,
    }))
}

// Writes a note: of a request of coordinator 7, by the own group. What stands of the other groups stays.
fn put_note(memory: &mut [u8], at: usize, request: u64) -> Option<()> {
    put(memory, at, 4, request)?;
    put(memory, at.checked_add(4)?, 2, 7)?;
    put(memory, at.checked_add(15)?, 1, 1)?;
    put(memory, at.checked_add(16)?, 8, request)
}

// Fills a table of entries, or the notes, from a place on: with 16 requests, to which a table of entries adds a number.
fn fill(row: &Row<'_>, memory: &mut [u8], at: usize, add: u64) -> Option<()> {
    for i in 0..16 {
        let request = 100 + i as u64;
        if row.asks == 'n' {
            put_note(memory, at.checked_add(33 * i)?, request)?;
        } else {
            let other = request.checked_add(add)?;
            lay(memory, at.checked_add(24 * i)?, &entry(other, other, 7)?)?;
        }
    }
    Some(())
}

// Does what a row says of a state.
fn follow(row: &Row<'_>, memory: &mut [u8]) -> Option<()> {
    let [_, section, offset, first, second, third] = row.numbers;
    let at = place(section, offset)?;
    match row.asks {
        'p' => put(memory, at, first, second),
        'e' => lay(memory, at, &entry(first, second, third)?),
        't' | 'n' => fill(row, memory, at, first),
        _ => None,
    }
}

// Makes the first bytes one of the states, and what stands behind it zero.
pub fn build(base: u64, memory: &mut [u8]) -> Option<()> {
    memory.get_mut(..5000)?.fill(0);
    let base = u32::try_from(base).ok()?;
    for row in ROWS.lines().filter_map(Row::of) {
        let [bases, ..] = row.numbers;
        if bases.checked_shr(base)? % 2 == 1 {
            follow(&row, memory)?;
        }
    }
    Some(())
}
