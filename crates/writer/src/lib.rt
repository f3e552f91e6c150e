// A message written as bytes: each function writes a run of them from a place on.
#![tactic(auto)]

ghost use Rattle.std.specs.Prelude.{◌≡◌, List, [], ◌∷◌, ◌++◌, ℕ, ◌+◌, ◌*◌, ◌≤◌, ◌<◌, length};
ghost use Rattle.octets.specs.Bytes.{le, flat, splice};
ghost use Rattle.rules.specs.Wire.{head_bytes, wire_bytes, numbers_of};
ghost use Rattle.rules.specs.Write.{wire_from};
ghost use Rattle.rules.proofs.EachKind.{most_numbers};
ghost use Rattle.writer.specs.Said.{said_first, said_next, said_of, bare_wire, Room};

use rules::{Header, Message};

// How many numbers a case has at most.
pub const MOST_NUMBERS: usize = 3;

// What a message's case says: its number, the header, how many numbers it has, and those, with zeros behind them.
#[derive(Clone, Copy)]
pub struct Said {
    pub tag: u8,
    pub header: Header,
    pub count: usize,
    pub numbers: [u64; MOST_NUMBERS],
}

// A case's number with its header, and no numbers yet.
fn told(tag: u8, header: Header) -> Said
    ensures { result ≡ said_first tag header }
{
    Said {
        tag,
        header,
        count: 0,
        numbers: [0; MOST_NUMBERS],
    }
}

// The same with one more number.
fn and_number(said: Said, x: u64) -> Said
    requires { said.count < most_numbers }
    ensures { result ≡ said_next said x }
{
    let header = said.header;
    let count = said.count;
    let mut numbers = said.numbers;
    numbers[count] = x;
    Said {
        tag: said.tag,
        header,
        count: count + 1,
        numbers,
    }
}

// What a case says.
pub fn said_of(m: Message) -> Said
    ensures { (result ≡ said_of m) × (result.count ≡ length (numbers_of m)) × (result.count ≤ most_numbers) }
{
    let none = Header {
        kind: 0,
        to_group: 0,
        to_mask: 0,
        from_group: 0,
        from_replica: 0,
        view: 0,
    };
    match m {
        Message::WrongSizes => told(0, none),
        Message::Malformed(_) => told(0, none),
        Message::Transaction(h, sent, bound) => and_number(and_number(told(1, h), sent), bound),
        Message::Note(h) => told(3, h),
        Message::ReplicaSync(h) => told(4, h),
        Message::FastReply(h, placed, position, digest) => and_number(
            and_number(and_number(told(5, h), placed), position),
            digest,
        ),
        Message::SlowReply(h, position) => and_number(told(6, h), position),
        Message::ChangeView(h) => told(7, h),
        Message::Vote(h, normal, sync) => and_number(and_number(told(8, h), normal), sync),
        Message::StartView(h) => told(9, h),
        Message::SyncStatus(h, sync) => and_number(told(10, h), sync),
        Message::Commit(h, commit) => and_number(told(11, h), commit),
        Message::VerifyRequest(h, boundary) => and_number(told(18, h), boundary),
        Message::VerifyReply(h) => told(19, h),
        Message::Tick(h, time) => and_number(told(23, h), time),
    }
}

// Writes the header at `at`.
fn put_header(out: &mut [u8], at: usize, h: Header)
    requires { at + 12 ≤ length out.old }
    ensures { out.new ≡ splice out.old at (head_bytes (bare_wire h)) }
{
    octets::put8(out, at, h.kind);
    octets::put8(out, at + 1, h.to_group);
    octets::put8(out, at + 2, h.to_mask);
    octets::put8(out, at + 3, h.from_group);
    octets::put8(out, at + 4, h.from_replica);
    octets::fill_zero(out, at + 5, 3);
    octets::put32(out, at + 8, h.view);
}

// Writes the numbers at `at`.
fn put_numbers(out: &mut [u8], at: usize, numbers: &[u64])
    requires { at + 8 * length numbers.now ≤ length out.old }
    ensures { out.new ≡ splice out.old at (flat (le 8) numbers.now) }
{
    for i in 0..numbers.len() {
        octets::put64(out, at + 8 * i, numbers[i]);
    }
}

// Writes the message of these parts at `at`, its blocks as they are, and says where it ends.
pub fn put_message(out: &mut [u8], at: usize, m: Message, views: &[u8], entries: &[u8]) -> usize
    requires { Room m views.now entries.now at (length out.old) }
    ensures { (result ≡ at + length (wire_bytes (wire_from m views.now entries.now))) × (out.new ≡ splice out.old at (wire_bytes (wire_from m views.now entries.now))) }
{
    let said = said_of(m);
    let numbers = said.numbers;
    let count = said.count;
    let middle = at + 16 + views.len();
    let last = middle + 4 + 8 * count;
    put_header(out, at, said.header);
    octets::put32(out, at + 12, (views.len() / 4) as u32);
    octets::copy_in(out, at + 16, views);
    octets::put32(out, middle, count as u32);
    put_numbers(out, middle + 4, &numbers[0..count]);
    octets::put32(out, last, (entries.len() / 24) as u32);
    octets::copy_in(out, last + 4, entries);
    last + 4 + entries.len()
}
