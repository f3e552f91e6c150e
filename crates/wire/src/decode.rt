// The parts of a message as they stand in bytes, and the case that they are.
ghost use Rattle.std.specs.Prelude.{◌≡◌, ℕ, ◌+◌, ◌*◌, ◌^◌, ◌≤◌, ◌<◌};
ghost use Rattle.octets.specs.Bytes.{num};
ghost use Rattle.rules.specs.Wire as kinds;
ghost use Rattle.rules.proofs.EachKind.{most_numbers};
ghost use Rattle.writer.specs.Said.{padded};
ghost use Rattle.wire.specs.Parts.{header_in, numbers_from, parts_in, judged_as};

use fields::{Parts, number_of};
use kinds::{entries_at, numbers_at};
use rules::{Header, Message, Verdict};
use writer::MOST_NUMBERS;

// The header, where what lies past the end counts as 0.
fn header_at(b: &[u8]) -> Header
    ensures { result ≡ header_in b.now }
{
    let kind = octets::look8(b, 0);
    let to_group = octets::look8(b, 1);
    let to_mask = octets::look8(b, 2);
    let from_group = octets::look8(b, 3);
    let from_replica = octets::look8(b, 4);
    let view = octets::look32(b, 8);
    Header {
        kind,
        to_group,
        to_mask,
        from_group,
        from_replica,
        view,
    }
}

// The three bytes that must be zero, as a number.
fn zeros_at(b: &[u8]) -> u64
    ensures { result ≡ num b.now 5 3 }
{
    octets::look16(b, 5) as u64 + octets::look8(b, 7) as u64 * 65536
}

// The numbers from `at` on, with zeros behind them.
pub fn numbers_from(b: &[u8], at: usize, count: usize) -> [u64; MOST_NUMBERS]
    requires { (at ≤ 2 ^ 32) × (count ≤ most_numbers) }
    ensures { result ≡ padded (numbers_from b.now at count) }
{
    let mut numbers = [0; MOST_NUMBERS];
    for i in 0..count {
        numbers[i] = octets::look64(b, at + 8 * i);
    }
    numbers
}

// What the bytes say beside their numbers and their entries.
pub fn parts_at(s: u64, b: &[u8]) -> Parts
    requires { s ≤ 8 }
    ensures { (result ≡ parts_in s b.now) × (result.entries < 2 ^ 32) }
{
    let header = header_at(b);
    let zeros = zeros_at(b);
    let views = octets::look32(b, 12) as u64;
    let numbers = octets::look32(b, numbers_at(s, header.kind)) as u64;
    let entries = octets::look32(b, entries_at(s, header.kind)) as u64;
    Parts {
        header,
        zeros,
        views,
        numbers,
        entries,
    }
}

// The case of a header and its numbers.
pub fn case_with(h: Header, numbers: &[u64]) -> Message
    ensures { result ≡ kinds.case_with h numbers.now }
{
    let x = number_of(numbers, 0);
    let y = number_of(numbers, 1);
    let z = number_of(numbers, 2);
    let k = h.kind;
    match k {
        1 => Message::Transaction(h, x, y),
        3 => Message::Note(h),
        4 => Message::ReplicaSync(h),
        5 => Message::FastReply(h, x, y, z),
        6 => Message::SlowReply(h, x),
        7 => Message::ChangeView(h),
        8 => Message::Vote(h, x, y),
        9 => Message::StartView(h),
        10 => Message::SyncStatus(h, x),
        11 => Message::Commit(h, x),
        18 => Message::VerifyRequest(h, x),
        19 => Message::VerifyReply(h),
        23 => Message::Tick(h, x),
        _ => Message::Malformed(0),
    }
}

// The reader's answer of a case.
pub fn answer_of(m: Message) -> u8
    ensures { (result ≡ kinds.answer_of m) × (result < 256) }
{
    match m {
        Message::WrongSizes => 1,
        Message::Malformed(_) => 2,
        _ => 0,
    }
}

// The offset that goes with it: 0 but for what is malformed.
pub fn offset_of(m: Message) -> usize
    ensures { result ≡ kinds.offset_in m }
{
    match m {
        Message::Malformed(at) => at,
        _ => 0,
    }
}

// The answer of a verdict, where m is the case of what stands in the bytes.
pub fn judged(len: usize, end: usize, m: Message, v: Verdict) -> Message
    ensures { result ≡ judged_as len end m v }
{
    match v {
        Err(wrong) if wrong.end <= len => Message::Malformed(wrong.at),
        Err(_) => Message::Malformed(len),
        Ok(()) if len == end => m,
        Ok(()) => Message::Malformed(len.min(end)),
    }
}
