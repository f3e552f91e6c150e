// How many steps there were of each kind and of each answer.
use rules::kind::{
    CHANGE_VIEW, COMMIT, FAST_REPLY, REPLICA_SYNC, SLOW_REPLY, START_VIEW, SYNC_STATUS, TICK,
    TIMESTAMP_NOTE, TRANSACTION, VERIFY_REPLY, VERIFY_REQUEST, VOTE,
};
use std::fmt;

// The kinds that have a row, by their numbers.
const KINDS: [u8; 13] = [
    TRANSACTION,
    TIMESTAMP_NOTE,
    REPLICA_SYNC,
    FAST_REPLY,
    SLOW_REPLY,
    CHANGE_VIEW,
    VOTE,
    START_VIEW,
    SYNC_STATUS,
    COMMIT,
    VERIFY_REQUEST,
    VERIFY_REPLY,
    TICK,
];

// The row of bytes that are of none of them, and the row of all steps.
const OTHER: usize = 0;

const EVERY: usize = 24;

// The column of all numbers, behind one for each number up to 9.
const ALL: usize = 10;

// A row for each kind at its number, and the others; a column for each number.
#[derive(Drop)]
pub struct Table([[u64; 11]; 25]);

impl Table {
    // Before the first step.
    pub fn new() -> Table {
        Table([[0; 11]; 25])
    }

    // One more step of the kind of that first byte that was answered so.
    pub fn count(&mut self, kind: u8, number: u8) {
        let row = if KINDS.contains(&kind) {
            kind as usize
        } else {
            OTHER
        };
        let column = number as usize;
        if ALL <= column {
            return;
        }
        for (row, column) in [(row, column), (row, ALL), (EVERY, column), (EVERY, ALL)] {
            if let Some(count) = self.0.get_mut(row).and_then(|cells| cells.get_mut(column)) {
                *count = count.saturating_add(1);
            }
        }
    }
}

// The cells of a row.
#[derive(Clone, Copy)]
struct Cells<'a>(&'a [u64; 11]);

impl fmt::Display for Cells<'_> {
    // Each number at the right of six places.
    fn fmt<W: fmt::Write>(&self, f: &mut fmt::Formatter<W>) -> fmt::Result {
        for count in self.0 {
            write!(f, " {count:>5}")?;
        }
        Ok(())
    }
}

impl fmt::Display for Table {
    // The row of each kind, that of the others and that of all.
    fn fmt<W: fmt::Write>(&self, f: &mut fmt::Formatter<W>) -> fmt::Result {
        writeln!(
            f,
            "  kind     0     1     2     3     4     5     6     7     8     9   all"
        )?;
        for kind in KINDS {
            if let Some(row) = self.0.get(kind as usize) {
                let cells = Cells(row);
                writeln!(f, " {kind:>5}{cells}")?;
            }
        }
        let others = Cells(&self.0[OTHER]);
        writeln!(f, " other{others}")?;
        let all = Cells(&self.0[EVERY]);
        writeln!(f, "   all{all}")
    }
}
