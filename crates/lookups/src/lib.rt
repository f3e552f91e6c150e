// The row of a transaction among the notes, by the slots that have the rows of all notes, and whether no two notes are of one transaction.
#![tactic(auto)]

ghost use Rattle.std.specs.Prelude.{◌≡◌, ◌≤◌};
ghost use Rattle.rules.specs.State.{notes_distinct};
ghost use Rattle.notes.specs.Notes.{notes_at, row, Notes};
ghost use Rattle.lookups.specs.Rows.{note_spots, NoteRows};

use repeats::{Run, Spots};

// Where the keys of n notes of s groups stand: a key is a note's request and coordinator.
pub fn note_spots(s: usize, n: usize) -> Spots
    requires { s ≤ 8 }
    ensures { result ≡ note_spots s n }
{
    Spots {
        first: Run { at: 4, count: n },
        second: Run { at: 0, count: 0 },
        third: Run { at: 0, count: 0 },
        stride: 6 + 9 * s,
    }
}

// Puts the row of every note into the slots, and tells whether no two notes are of one transaction.
pub fn index_notes(t: &[u8], c: usize, s: usize, slots: &mut [u16]) -> bool
    requires { Notes c s t.now }
    ensures { (result ≡ notes_distinct (notes_at c s t.now)) × NoteRows c s t.now slots.new }
{
    let n = notes::count(t);
    rows::index(t, note_spots(s, n), n, slots) == n
}

// The note of a transaction, or the number of notes.
pub fn note_row(
    t: &[u8],
    c: usize,
    s: usize,
    slots: &[u16],
    request: u32,
    coordinator: u16,
) -> usize
    requires { Notes c s t.now × NoteRows c s t.now slots.now }
    ensures { result ≡ row request coordinator (notes_at c s t.now) }
{
    let key = request as u64 + coordinator as u64 * 4294967296;
    rows::find(t, note_spots(s, notes::count(t)), slots, key)
}
