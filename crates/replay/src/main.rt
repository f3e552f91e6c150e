// Traces of single replicas, answered by an independent reading of documents 01 and 02, run through the core: every answer must be theirs.
// data/l08.bin holds records, one after the other, numbers little-endian, with how many bytes each has:
// - 1 (1), n (1), S (1), C (2), own group (1), own replica (1): a start on a fresh state, which must not be refused.
// - 2 (1), outgoing room (4), message length (4), the message, then what the step must answer: the refusal number or 0 (1), the offset of
//   the first wrong field (4), 0 but for 2, the outgoing length (4), the FNV-1a digests of the outgoing bytes (8) and of the whole state after the step (8).
// The last line of its part says how many steps there were and how many differed; what differs first is printed above the table.
// data/l07.bin holds messages and how they must be read:
// - 5 (1), n (1), S (1), message length (4), the message, then what the reader must answer: 0, 1 or 2 (1) and the offset of the first wrong
//   field (4), 0 but for 2.
#![tactic(auto)]

mod line;
mod readings;
mod records;
mod table;

use records::{Replay, Totals};
use std::fs::File;
use std::io;
use std::rt::Files;
use table::Table;

// Runs all records of a file.
fn replay<R: Files + Print>(
    rt: &R,
    name: &str,
    state: &mut [u8],
    table: &mut Table,
) -> io::Result<Totals> {
    let mut file = File::open(rt, name)?;
    Replay::new(rt, &mut file, state, table).run()
}

// The greatest state here is that of n = 7, S = 8, C = 64. A file that cannot be read ends the program with an error.
fn main(rt: HostRuntime) -> io::Result<()> {
    let mut state = [0; 36000];
    let mut table = Table::new();
    let run = replay(&rt, "l08.bin", &mut state, &mut table)?;
    println!(rt; "starts: {}", run.starts)?;
    print!(rt; "{table}")?;
    println!(rt; "{} steps, {} differences", run.steps, run.differences)?;
    let read = replay(&rt, "l07.bin", &mut state, &mut table)?;
    println!(rt;
        "{} readings, {} differences",
        read.readings, read.differences
    )
}
