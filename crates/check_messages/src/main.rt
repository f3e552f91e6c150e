// A program of the gate: published vectors and worked numbers, messages of every kind, and what is refused of them. Each named row of a script
// (crates/scripts) is a line, and the last line says how many checks failed. What a row's letter asks:
//
//     d n l p             the digest of what the name says, of nothing, of a hundred bytes, of the same in two parts
//     m r n               F + 1 and R
//     h c length, before  the commit point with three heard, with none
//     k kind, length      nine lines of a kind (rounds.rt)
//     o kind, place, value                        the offset of the first wrong field with a byte changed
//     b kind, place, value, place, value          the same with two changed
//     t length            the same of the first bytes of the tick of document 01
//     A K T G R H         what that tick says: answer, kind, time, group, replicas, header
//     L B                 of the tick written: its length, its bytes
//     I O n S             the answers of the reader and of the writer for these sizes
#![tactic(auto)]

mod known;
mod rounds;
mod samples;
mod ticks;

use rules::Message;
use samples::Told;
use scripts::{Report, Row};
use std::io;
use wire::decode::{answer_of, offset_of};

// A kind's message with some of its bytes changed, read.
fn changed(kind: u64, changes: &[(u64, u64)]) -> Option<Message> {
    let mut bytes = [0; 128];
    let length = samples::write_in(3, 2, u8::try_from(kind).ok()?, &mut bytes).unwrap_or(0);
    for (place, value) in changes {
        *bytes.get_mut(*place as usize)? = u8::try_from(*value).ok()?;
    }
    Some(samples::read(bytes.get(..length)?))
}

// The bytes that a row speaks of, read; none where there are no such bytes.
fn read_of(row: &Row<'_>) -> Option<Message> {
    let [first, place, value, last, other, _] = row.numbers;
    match row.asks {
        'o' => changed(first, &[(place, value)]),
        'b' => changed(first, &[(place, value), (last, other)]),
        _ => ticks::read_tick(first as usize),
    }
}

// The offset of the first wrong field; where the bytes are read as a message by mistake, its first number.
fn offset_told(m: Message) -> u64 {
    match Told::by(m) {
        Some(told) => told.numbers[0],
        None => offset_of(m) as u64,
    }
}

// Bytes that are no message: the answer, and the offset of the first wrong field.
fn none<R: Print>(report: &mut Report<'_, R>, row: &Row<'_>) -> io::Result<()> {
    let m = read_of(row).unwrap_or(Message::WrongSizes);
    let name = row.name;
    report.line(
        format_args!("{name}: answer 2"),
        Some(u64::from(answer_of(m))),
        2,
    )?;
    let offset = offset_told(m);
    report.line(
        format_args!("{name}: offset {offset}"),
        Some(offset),
        row.want,
    )
}

// Does what a row says.
fn check<R: Print>(report: &mut Report<'_, R>, row: &Row<'_>) -> io::Result<()> {
    let [first, second, ..] = row.numbers;
    match row.asks {
        'k' => rounds::check(report, first, second),
        'o' | 'b' | 't' => none(report, row),
        'A'..='Z' => report.row(row, ticks::ask(row)),
        _ => report.row(row, known::ask(row)),
    }
}

// Published vectors and worked numbers.
const PUBLISHED: &str = "\
n|xcbf29ce484222325|digest of nothing
d|xaf63dc4c8601ec8c|digest of a
d|xaf63df4c8601f1a5|digest of b
d|xaf63de4c8601eff2|digest of c
d|xaf63d94c8601e773|digest of d
d|xaf63d84c8601e5c0|digest of e
d|xaf63db4c8601ead9|digest of f
d|x08985907b541d342|digest of fo
d|xdcb27518fed9d577|digest of foo
d|xdd120e790c2512af|digest of foob
d|xcac165afa2fef40a|digest of fooba
d|x85944171f73967e8|digest of foobar
l|x818097b88ba93d7e|digest of 100 bytes
p|x818097b88ba93d7e|digest run on
m 3|2|n = 3, F + 1
r 3|2|n = 3, R
m 5|3|n = 5, F + 1
r 5|2|n = 5, R
m 7|4|n = 7, F + 1
r 7|3|n = 7, R
h 7 0|4|commit, three heard
h 7 5|5|commit, 5 before
c 5 0|0|commit, none heard
c 5 2|2|commit, none heard, 2 before
";

// Every kind and the length of its message.
const KINDS: &str = "\
k 1 64
k 3 56
k 4 80
k 5 80
k 6 64
k 7 32
k 8 96
k 9 80
k 10 40
k 11 40
k 18 40
k 19 80
k 23 32
";

// What is refused of every kind alike.
const HEADS: &str = "\
o 11 0 0|0|kind 0
o 11 0 2|0|kind 2
o 11 0 24|0|kind 24
o 11 1 2|1|to group S
o 11 2 0|2|to no replica
o 11 2 8|2|to replica n
o 11 3 2|3|from group S
o 11 4 3|4|from replica n
o 11 5 1|5|first zero
o 11 7 1|5|last zero
o 11 12 1|12|one view
o 11 12 3|12|three views
";

// Kinds 1 and 3.
const TRANSACTIONS: &str = "\
b 1 20 0 28 0|28|kind 1, due 0
o 1 27 128|28|kind 1, due past 2^63
o 1 8 1|8|kind 1, gView 1
o 1 12 1|12|kind 1, a view
o 1 36 2|36|kind 1, two entries
o 1 40 1|40|kind 1, timestamp 1
o 1 56 0|56|kind 1, request 0
b 1 60 255 61 255|60|kind 1, coordinator 65535
o 1 62 2|62|kind 1, not of its group
o 1 62 5|62|kind 1, of group S
o 3 54 1|54|kind 3, not of the sender's group
o 3 54 2|54|kind 3, not of its group
o 3 32 0|32|kind 3, timestamp 0
o 3 39 128|32|kind 3, timestamp past 2^63
";

// Kinds 5 and 6.
const REPLIES: &str = "\
o 5 28 2|28|kind 5, placed 2
o 5 28 0|36|kind 5, not placed, position 9
o 5 36 0|36|kind 5, placed, position 0
o 5 52 0|52|kind 5, no entry
o 6 2 2|2|kind 6, to replica 1
o 6 1 0|1|kind 6, to group 0
";

// The kinds with a log.
const LOGS: &str = "\
o 4 56 4|56|kind 4, timestamps fall
o 4 78 2|56|kind 4, second not of its group
o 4 28 3|80|kind 4, three entries
o 4 28 1|56|kind 4, one entry
o 8 28 3|28|kind 8, last normal 3 in gView 3
o 8 36 3|44|kind 8, sync point 3 of 2
o 9 72 1|56|kind 9, a transaction twice
o 9 72 0|72|kind 9, request 0
o 19 78 1|78|kind 19, second not of the sender's group
";

// The kinds with no entry.
const OTHERS: &str = "\
o 7 3 0|3|kind 7, from group 0
o 7 4 0|4|kind 7, from replica 0
o 7 24 1|24|kind 7, a number
o 10 24 2|24|kind 10, two numbers
o 11 24 0|24|kind 11, no number
o 18 36 1|36|kind 18, an entry
o 23 27 128|20|kind 23, time 2^63
o 23 8 1|8|kind 23, gView 1
o 23 4 0|4|kind 23, from replica 0
";

// The tick of document 01, one byte fewer and one more, and sizes that are not permitted.
const TICKS_AND_SIZES: &str = "\
A|0|tick of document 01
K|23|its kind
T|5|its time
G|0|its group
R|2|its replicas
H|1|its header
t 31|31|tick, one byte fewer
t 33|32|tick, one byte more
t 0|0|nothing at all
L|32|tick, length
B|1|tick, bytes
I 0 2|1|n = 0, read
O 0 2|1|n = 0, written
I 4 2|1|n = 4, read
O 4 2|1|n = 4, written
I 9 2|1|n = 9, read
O 9 2|1|n = 9, written
I 3 0|1|S = 0, read
O 3 0|1|S = 0, written
I 3 9|1|S = 9, read
O 3 9|1|S = 9, written
";

fn main(rt: HostRuntime) -> io::Result<()> {
    let mut report = Report::new(&rt);
    for script in [
        PUBLISHED,
        KINDS,
        HEADS,
        TRANSACTIONS,
        REPLIES,
        LOGS,
        OTHERS,
        TICKS_AND_SIZES,
    ] {
        scripts::run(script, |row| check(&mut report, &row))?;
    }
    report.total()
}
