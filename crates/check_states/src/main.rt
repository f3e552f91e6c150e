// A program of the gate: fresh states of every shape, good states with each conjunct and each form broken alone, a full log and the room for
// what is sent through the whole step, and what a host asks of states and of outgoing bytes, by the names that it links. A topic is a file
// with a script (crates/scripts); each named row is a line, and the last line says how many checks failed. What a row's letter asks:
//
//     l n S C                               the state's length
//     s n S C, group, replica, length       the answer of a start on so many bytes 255
//     h n C, replica                        how many of the eight S start right
//     z n S C, length                       whether fresh bytes of that length are a good state, 1 for yes
//     w n S C, length                       whether what stands is one
//     b state, length                       whether the first bytes of a good state (bases.rt) are one
//     g state, section, place, width, value     whether a good state is still one with that number there
//     a request, time, bound, coordinator, command      the number of a step: a transaction arrives
//     t time, room                          the same for a tick
//     c                                     the same for a message to enter view 4
//     q                                     the whole answer of the last step
//     d                                     keeps the digests of the state and of what was sent
//     u o                                   whether the state, or what was sent, has that digest
//     k place                               a byte of what was sent
//     f v n S C, length, number             a field, a group's view
//     e n S C, length, position, field      a field of an entry
//     n n S, from, upto                     the length of the next message in what was sent
//     r place, width                        a number in the memory
//     p x place, width, value               puts a number into the memory, into what was sent
//     i m                                   the version, and whether the core is the model
#![tactic(auto)]

mod bases;
mod bench;
mod conjuncts;
mod forms;
mod limits;
mod questions;
mod said;
mod shapes;
mod starts;
mod steps;

use bench::Bench;
use rules::Shape;
use scripts::{Report, Row};
use shapes::Start;
use std::io;

// Whether a state is good with a number put over what stood there.
fn good_with(row: &Row<'_>, memory: &mut [u8]) -> Option<bool> {
    let [base, section, offset, width, value, _] = row.numbers;
    bases::build(base, memory)?;
    let state = memory.get_mut(..bases::LENGTH)?;
    bases::put(state, bases::place(section, offset)?, width, value)?;
    Some(shapes::good_in(bases::SHAPE, state))
}

// Whether the first bytes of a state are a good one.
fn good_part(base: u64, length: u64, memory: &mut [u8]) -> Option<bool> {
    bases::build(base, memory)?;
    let part = memory.get(..length as usize)?;
    Some(shapes::good_in(bases::SHAPE, part))
}

// A start on bytes that are all 255.
fn start(start: Start, memory: &mut [u8], length: u64) -> Option<u64> {
    memory.fill(255);
    let state = memory.get_mut(..length as usize)?;
    Some(start.on(state))
}

// What a row asks.
fn ask(row: &Row<'_>, bench: &mut Bench<'_>) -> Option<u64> {
    let [n, s, c, fourth, own, length] = row.numbers;
    let shape = Shape { n, s, c };
    match row.asks {
        'g' => good_with(row, bench.memory).map(u64::from),
        'b' => good_part(n, s, bench.memory).map(u64::from),
        'w' => shapes::good_first(shape, bench.memory, fourth).map(u64::from),
        'z' => shapes::fresh_good(shape, bench.memory, fourth).map(u64::from),
        'l' => Some(replica::jallumere_state_length(n, s, c)),
        's' => {
            let group = fourth;
            start(Start { shape, group, own }, bench.memory, length)
        }
        'h' => Some(shapes::right_of(n, s, c, bench.memory)),
        _ => said::ask(row, bench),
    }
}

// One byte more than the greatest state.
const MEMORY: usize = 2187587;

// Every topic, on one memory.
fn check(rt: &impl Print, memory: &mut [u8; MEMORY], out: &mut [u8; 2048]) -> io::Result<()> {
    let mut bench = Bench::new(memory, out);
    let mut report = Report::new(rt);
    for script in [
        starts::ROWS,
        conjuncts::HEADS,
        conjuncts::KEPT,
        conjuncts::LOGS,
        conjuncts::BUFFERS,
        forms::ROWS,
        limits::ROWS,
        questions::ROWS,
    ] {
        scripts::run(script, |row| report.row(&row, ask(&row, &mut bench)))?;
    }
    report.total()
}

// The memory is made here alone, since it is long.
fn main(rt: HostRuntime) -> io::Result<()> {
    let mut memory = [0; MEMORY];
    let mut out = [255; 2048];
    check(&rt, &mut memory, &mut out)
}
