// The public face: a site's start and step on lent bytes, and the functions that hosts link by `replica_c`.
#![tactic(auto)]

ghost use Rattle.std.specs.Prelude.{◌≡◌, ◌≤◌};
ghost use Rattle.rules.specs.Choice.{pick};
ghost use Rattle.rules.specs.Group.{sizes_fit};
ghost use Rattle.rules.specs.Kind.{known};
ghost use Rattle.rules.specs.Read.{numbers_at, first_wrong};
ghost use Rattle.replica.specs.Face as face;
ghost use Rattle.replica.specs.Face.{code_of, given, head_fits};
ghost use Rattle.digest.specs.Statements.{DigestsOn};
ghost use Rattle.fresh.specs.Statements.{Measures};
ghost use Rattle.readers.specs.Statements.{MeasuresFirst, TellsField, TellsView, TellsEntry};
ghost use Rattle.rooms.specs.Statements.{Steps};
ghost use Rattle.replica.specs.Statements.{StepsByNumber, Starts, Orders, Judges, Reads, Writes, IsVersion, IsCore};

use fields::expect;
use rules::{Answer, Header, Message, Refusal, Shape, Verdict};

// One step: the next state's bytes and the outgoing messages, or the lowest number of the table that applies and all as it came.
pub fn step(shape: Shape, state: &mut [u8], message: &[u8], out: &mut [u8]) -> Answer
    ensures { Steps shape state.old message.now out.old result state.new out.new }
{
    rooms::step(shape, state, message, out)
}

// ---- for hosts, which link them by `replica_c`: the same with every number one of 64 bits

// The number of the table with what stands beside it, the outgoing length or the offset, 256 times.
fn coded(number: u8, beside: usize) -> u64
    ensures { result ≡ face.coded number beside }
{
    number as u64 + ((beside as u64) << 8)
}

// An answer as one number: the number of the table, and 256 times the outgoing length or, with 2, the offset.
fn code(answer: Answer) -> u64
    ensures { result ≡ code_of answer }
{
    match answer {
        Ok(sent) => coded(0, sent),
        Err(refusal) => coded(refusal.number(), refusal.offset()),
    }
}

// What the proved core says where the model says 1.
const PROVED: u64 = 0;

// The version of the interface: major * 10000 + minor * 100 + patch.
pub fn jallumere_version() -> u64
    ensures { IsVersion result }
{
    20100
}

// 0: this is the proved core, and not the implementation that it is compared with.
pub fn jallumere_is_model() -> u64
    ensures { IsCore result }
{
    PROVED
}

// The state's length, 0 for wrong sizes.
pub fn jallumere_state_length(n: u64, s: u64, c: u64) -> u64
    ensures { Measures (record { n = n; s = s; c = c }) result }
{
    fresh::state_length(n, s, c)
}

// 0 and the fresh state's bytes, or 1 and all as it came.
pub fn jallumere_start(n: u64, s: u64, c: u64, group: u64, replica: u64, state: &mut [u8]) -> u64
    ensures { Starts (record { n = n; s = s; c = c }) group replica state.old result state.new }
{
    code(fresh::start(Shape { n, s, c }, group, replica, state))
}

// 0 and the older state's bytes with early in order, or 1 and all as it came where they are not those of a state good but for that order.
pub fn jallumere_order(n: u64, s: u64, c: u64, state: &mut [u8]) -> u64
    ensures { Orders (record { n = n; s = s; c = c }) state.old result state.new }
{
    code(rooms::order(Shape { n, s, c }, state))
}

// One step: the number of the table, and 256 times the outgoing length or, with 2, the offset of the first wrong field.
pub fn jallumere_step(
    n: u64,
    s: u64,
    c: u64,
    state: &mut [u8],
    message: &[u8],
    out: &mut [u8],
) -> u64
    ensures { StepsByNumber (record { n = n; s = s; c = c }) state.old message.now out.old
        result state.new out.new }
{
    code(step(Shape { n, s, c }, state, message, out))
}

// 0 where the bytes are those of a good state, else 1.
pub fn jallumere_good(n: u64, s: u64, c: u64, state: &[u8]) -> u64
    ensures { Judges (record { n = n; s = s; c = c }) state.now result }
{
    if rooms::good(Shape { n, s, c }, state) {
        return 0;
    }
    1
}

// 0 for a message, 1 for wrong sizes, 2 for bytes that are none, and 256 times the offset of the first wrong field.
pub fn jallumere_read(n: u64, s: u64, message: &[u8]) -> u64
    ensures { Reads n s message.now result }
{
    let m = rooms::read(n, s, message);
    coded(wire::decode::answer_of(m), wire::decode::offset_of(m))
}

// The length of the message that the bytes begin with, 0 where they begin with none.
pub fn jallumere_message_length(n: u64, s: u64, bytes: &[u8]) -> u64
    ensures { MeasuresFirst n s bytes.now result }
{
    readers::message_length(n, s, bytes)
}

// A field of the state by its number, or nothing.
pub fn jallumere_field(n: u64, s: u64, c: u64, field: u64, state: &[u8]) -> u64
    ensures { TellsField (record { n = n; s = s; c = c }) field state.now result }
{
    readers::field(Shape { n, s, c }, field, state)
}

// The view of a group in the state's gVec, or nothing.
pub fn jallumere_group_view(n: u64, s: u64, c: u64, group: u64, state: &[u8]) -> u64
    ensures { TellsView (record { n = n; s = s; c = c }) group state.now result }
{
    readers::group_view(Shape { n, s, c }, group, state)
}

// A field of the log's entry at a position, from 1 on, or nothing.
pub fn jallumere_entry(n: u64, s: u64, c: u64, position: u64, field: u64, state: &[u8]) -> u64
    ensures { TellsEntry (record { n = n; s = s; c = c }) position field state.now result }
{
    readers::entry(Shape { n, s, c }, position, field, state)
}

// FNV-1a run on from `start`.
pub fn jallumere_digest(start: u64, bytes: &[u8]) -> u64
    ensures { DigestsOn start bytes.now result }
{
    digest::digest_on(start, bytes)
}

// Whether a number is that of a kind.
fn is_known(kind: u64) -> bool
    ensures { result ≡ known kind }
{
    if 255 < kind {
        return false;
    }
    kinds::known(kind as u8)
}

// The first field of a header that does not fit its bytes.
fn head_fits(
    kind: u64,
    to_group: u64,
    to_mask: u64,
    from_group: u64,
    from_replica: u64,
    view: u64,
) -> Verdict
    ensures { result ≡ first_wrong (head_fits (given kind to_group to_mask from_group from_replica view)) }
{
    expect(is_known(kind), 0, 1)
        .and(expect(to_group < 256, 1, 2))
        .and(expect(to_mask < 256, 2, 3))
        .and(expect(from_group < 256, 3, 4))
        .and(expect(from_replica < 256, 4, 5))
        .and(expect(view < 4294967296, 8, 12))
}

// The answer where the field at this offset does not fit: wrong sizes come before it.
fn unfit(n: u64, s: u64, at: usize) -> u64
    ensures { result ≡ face.coded (pick (sizes_fit n s) 2 1) (pick (sizes_fit n s) at 0) }
{
    if group::sizes_fit(n, s) {
        return code(Err(Refusal::Malformed(at)));
    }
    code(Err(Refusal::WrongState))
}

// Where the count of a kind's numbers stands; 0 for more groups than there can be.
fn count_at(s: u64, kind: u8) -> usize
    ensures { s ≤ 8 → result ≡ numbers_at s kind }
{
    if 8 < s {
        return 0;
    }
    kinds::numbers_at(s, kind)
}

// Writes the message of these fields: 0, 1, 2 or 9, and 256 times its length or, with 2, the offset of its first wrong field. The numbers are all
// that the kind has.
pub fn jallumere_write(
    n: u64,
    s: u64,
    kind: u64,
    to_group: u64,
    to_mask: u64,
    from_group: u64,
    from_replica: u64,
    view: u64,
    numbers: &[u64],
    views: &[u8],
    entries: &[u8],
    out: &mut [u8],
) -> u64
    ensures { let g = given kind to_group to_mask from_group from_replica view in
        Writes n s g numbers.now views.now entries.now out.old result out.new }
{
    let head = head_fits(kind, to_group, to_mask, from_group, from_replica, view);
    match head {
        Ok(()) => {}
        Err(wrong) => return unfit(n, s, wrong.at),
    }
    let header = Header {
        kind: kind as u8,
        to_group: to_group as u8,
        to_mask: to_mask as u8,
        from_group: from_group as u8,
        from_replica: from_replica as u8,
        view: view as u32,
    };
    if numbers.len() as u64 != kinds::numbers_in(header.kind) {
        return unfit(n, s, count_at(s, header.kind));
    }
    let m = wire::decode::case_with(header, numbers);
    code(rooms::write(n, s, m, views, entries, out))
}
