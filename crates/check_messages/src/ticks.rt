// The tick of document 01, and sizes that are not permitted.
use crate::samples::{Told, message_of, number_of, read, write_in};
use rules::{Message, kind};
use scripts::Row;
use wire::decode::answer_of;

// How long the tick is.
const LENGTH: usize = 32;

// The tick of document 01: time 5, to group 0, replica 1; and a zero behind it.
fn tick() -> [u8; 33] {
    let mut bytes = [0; 33];
    bytes[0] = kind::TICK;
    bytes[2] = 2;
    bytes[3] = rules::OUTSIDE;
    bytes[4] = rules::OUTSIDE;
    bytes[16] = 1;
    bytes[20] = 5;
    bytes
}

// What the first `length` bytes of them are.
pub fn read_tick(length: usize) -> Option<Message> {
    Some(read(tick().get(..length)?))
}

// Whether the tick has the header of the sample.
fn has_header(tick: &Told) -> Option<u64> {
    let sample = Told::by(message_of(kind::TICK))?;
    Some(u64::from(tick.header == sample.header))
}

// What a row asks of that tick read.
fn ask_read(asks: char) -> Option<u64> {
    let m = read_tick(LENGTH)?;
    if asks == 'A' {
        return Some(u64::from(answer_of(m)));
    }
    let told = Told::by(m)?;
    let [time, ..] = told.numbers;
    match asks {
        'K' => Some(u64::from(told.kind)),
        'T' => Some(time),
        'G' => Some(u64::from(told.header.to_group)),
        'R' => Some(u64::from(told.header.to_mask)),
        _ => has_header(&told),
    }
}

// Whether the written tick has those bytes, and its length.
fn ask_written(asks: char) -> u64 {
    let mut out = [0; 33];
    let answer = write_in(3, 2, kind::TICK, &mut out);
    if asks == 'L' {
        return answer.unwrap_or(0) as u64;
    }
    u64::from(out == tick())
}

// The writer's number for sizes that are not permitted.
fn written_for(n: u64, s: u64) -> u64 {
    let mut out = [0; LENGTH];
    number_of(write_in(n, s, kind::TICK, &mut out))
}

// The reader's.
fn read_for(n: u64, s: u64) -> u64 {
    let mut slots = [0; 80];
    u64::from(answer_of(wire::read(n, s, &tick(), &mut slots)))
}

// What a row asks.
pub fn ask(row: &Row<'_>) -> Option<u64> {
    let [n, s, ..] = row.numbers;
    match row.asks {
        'A' | 'K' | 'T' | 'G' | 'R' | 'H' => ask_read(row.asks),
        'L' | 'B' => Some(ask_written(row.asks)),
        'I' => Some(read_for(n, s)),
        'O' => Some(written_for(n, s)),
        _ => None,
    }
}
