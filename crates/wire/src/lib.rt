// The messages of document 01: read from bytes, and written to bytes.
#![tactic(auto)]

pub mod decode;

ghost use Rattle.std.specs.Prelude.{◌≡◌, true, ℕ, ◌+◌, ◌*◌, ◌^◌, ◌≤◌, ◌<◌, length, ltb};
ghost use Rattle.rules.specs.Choice.{every};
ghost use Rattle.rules.specs.Read as reading;
ghost use Rattle.rules.specs.Wire as kinds;
ghost use Rattle.rules.specs.Write as writing;
ghost use Rattle.fields.specs.Parts.{fields_of};
ghost use Rattle.wire.specs.Statements.{Reads, Writes};

use fields::{Parts, body_wrong, expect, head_wrong};
use kinds::{entries_at, length_for, numbers_at, numbers_in};
use rules::{Answer, Message, Refusal, Verdict};
use verdicts::{Look, entries_wrong};

// How many entries from `from` on the bytes have room for.
fn whole_in(len: usize, from: usize) -> usize
    ensures { result ≡ reading.whole_in len from }
{
    len.saturating_sub(from) / 24
}

// The message that the bytes are, or where they stop being one.
pub fn read(n: u64, s: u64, b: &[u8], slots: &mut [u16]) -> Message
    ensures { Reads n s b.now result }
{
    if !group::sizes_fit(n, s) {
        return Message::WrongSizes;
    }
    let p = decode::parts_at(s, b);
    let h = p.header;
    let count = numbers_in(h.kind) as usize;
    let room = decode::numbers_from(b, numbers_at(s, h.kind) + 4, count);
    let numbers = &room[0..count];
    let entries = p.entries as usize;
    let at = entries_at(s, h.kind) + 4;
    let whole = whole_in(b.len(), at);
    let seen = entries.min(whole + 1);
    let v = verdicts::message_wrong(n, s, p, numbers, b, Look { at, whole, seen }, slots);
    let end = length_for(s, h.kind, entries);
    decode::judged(b.len(), end, decode::case_with(h, numbers), v)
}

// The first wrong count or number; each number is one of 8 bytes.
fn body_wide(s: u64, p: Parts, numbers: &[u64]) -> Verdict
    requires { s ≤ 8 }
    ensures { (result ≡ reading.first_wrong (reading.body_rows s (fields_of p numbers.now))) × (every (λ x. ltb x (2 ^ 64)) numbers.now ≡ true) }
{
    body_wrong(s, p, numbers)
}

// The first wrong field of the message that would be written; where none is, each number fits its bytes.
fn parts_wrong(
    n: u64,
    s: u64,
    m: Message,
    views: &[u8],
    entries: &[u8],
    slots: &mut [u16],
) -> Verdict
    requires { s ≤ 8 }
    ensures { (result ≡ writing.parts_wrong n s m views.now entries.now)
        × (result ≡ reading.all_right → reading.wide (writing.wire_from m views.now entries.now) ≡ true) }
{
    let items = views.len() / 4;
    let count = entries.len() / 24;
    let whole = 4 * items == views.len();
    let counted = (24 * count == entries.len()) & (count < 4294967296);
    let said = writer::said_of(m);
    let header = said.header;
    let p = Parts {
        header,
        zeros: 0,
        views: items as u64,
        numbers: said.count as u64,
        entries: count as u64,
    };
    let room = said.numbers;
    let most = said.count;
    let at = entries_at(s, header.kind);
    let head = expect(said.tag == header.kind, 0, 1).and(head_wrong(n, s, p));
    let body = expect(whole, 12, 16).and(body_wide(s, p, &room[0..most]));
    head.and(body.and(expect(counted, at, at + 4)))?;
    let look = Look {
        at: 0,
        whole: count,
        seen: count,
    };
    entries_wrong(s, header, entries, look, slots)
}

// How long the message of these parts is.
fn size_of(m: Message, views: usize, entries: usize) -> usize
    requires { (views ≤ 32) × (entries < 24 * 2 ^ 32) }
    ensures { result ≡ 24 + views + 8 * length (kinds.numbers_of m) + entries }
{
    let said = writer::said_of(m);
    24 + views + 8 * said.count + entries
}

// Writes the message of these parts first into the buffer. All is tested, the room last, before a byte is written.
pub fn write(
    n: u64,
    s: u64,
    m: Message,
    views: &[u8],
    entries: &[u8],
    out: &mut [u8],
    slots: &mut [u16],
) -> Answer
    ensures { Writes n s m views.now entries.now out.old result out.new }
{
    if !group::sizes_fit(n, s) {
        return Err(Refusal::WrongState);
    }
    parts_wrong(n, s, m, views, entries, slots)?;
    if out.len() < size_of(m, views.len(), entries.len()) {
        return Err(Refusal::NoRoom);
    }
    let end = writer::put_message(out, 0, m, views, entries);
    Ok(end)
}
