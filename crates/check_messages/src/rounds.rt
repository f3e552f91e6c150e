// The messages, of three replicas and two groups: each kind written and read back.
use crate::samples::{Told, message_of, number_of, read, write_in};
use rules::Message;
use scripts::Report;
use std::io;
use wire::decode::answer_of;

// The rows of each kind.
const ROWS: &str = "\
w|0|written
l|1|length
r|0|read
c|1|case
h|1|header
n|1|numbers
a|1|written again
e|0|exact room
s|9|one byte short
";

// The writer's number where the buffer has `room` bytes, none for more than any message has.
fn number_in(kind: u8, room: usize) -> Option<u64> {
    let mut bytes = [0; 96];
    Some(number_of(write_in(3, 2, kind, bytes.get_mut(..room)?)))
}

// Writes a message again, from its case and from the views and entries that stand in its bytes, and says whether the bytes are the same.
fn written_again(m: Message, bytes: &[u8; 128], length: usize) -> Option<bool> {
    let upto = 16 + 4 * octets::look32(bytes, 12) as usize;
    let from = upto + 8 + 8 * octets::look32(bytes, upto) as usize;
    let views = bytes.get(16..upto)?;
    let entries = bytes.get(from..length)?;
    let mut out = [0; 128];
    let mut slots = [0; 80];
    let answer = wire::write(3, 2, m, views, entries, &mut out, &mut slots);
    Some(answer.is_ok() && out == *bytes)
}

// Whether the message read back is as a row asks: the same case with the same numbers, and with the views and entries the same bytes.
fn read_back(asks: char, kind: u8, bytes: &[u8; 128], length: usize) -> Option<bool> {
    let m = read(bytes.get(..length)?);
    let got = Told::by(m)?;
    let want = Told::by(message_of(kind))?;
    match asks {
        'c' => Some(got.kind == kind),
        'h' => Some(got.header == want.header),
        'n' => Some(got.numbers == want.numbers),
        'a' => written_again(m, bytes, length),
        _ => None,
    }
}

// What a row asks of a kind: its message and the length of it, the message read back, and the room that it needs.
fn ask(asks: char, kind: u64, length: u64) -> Option<u64> {
    let kind = u8::try_from(kind).ok()?;
    let length = length as usize;
    let mut bytes = [0; 128];
    let answer = write_in(3, 2, kind, &mut bytes);
    let end = answer.unwrap_or(0);
    match asks {
        'w' => Some(number_of(answer)),
        'l' => Some(u64::from(end == length)),
        'r' => Some(u64::from(answer_of(read(bytes.get(..end)?)))),
        'e' => number_in(kind, length),
        's' => number_in(kind, length.checked_sub(1)?),
        _ => read_back(asks, kind, &bytes, end).map(u64::from),
    }
}

// A kind, whose message has that length.
pub fn check<R: Print>(report: &mut Report<'_, R>, kind: u64, length: u64) -> io::Result<()> {
    scripts::run(ROWS, |row| {
        let name = row.name;
        let got = ask(row.asks, kind, length);
        report.line(format_args!("kind {kind}, {name}"), got, row.want)
    })
}
