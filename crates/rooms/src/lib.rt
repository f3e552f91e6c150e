// Room for the slots by which a call tests for repeats and finds rows: chosen here, once, by the capacity and by how long a message is, and lent down.
// A call in a small group needs little of the stack; a long message gets the largest room, whatever the group's capacity.
#![tactic(auto)]

ghost use Rattle.std.specs.Prelude.{◌≡◌, ◌≤◌, true, eqb, length};
ghost use Rattle.rules.specs.Wire.{tag_of};
ghost use Rattle.rules.specs.Read.{wire_in, decoded};
ghost use Rattle.rules.specs.Image.{state_of, good_bytes};
ghost use Rattle.places.specs.Layout.{length_for};
ghost use Rattle.wire.specs.Statements.{Reads, Writes};
ghost use Rattle.good.specs.Statements.{Judges};
ghost use Rattle.good.specs.Statements as check;
ghost use Rattle.admit.specs.Refusal.{wrong_at};
ghost use Rattle.rooms.specs.Statements.{Steps, Orders};

use rules::{Answer, Message, Refusal, Shape};

// The longest message whose log the 512 slots serve, and the longest that the 2,400 serve: two slots for an entry, and a path's length.
const SHORT_MESSAGE: usize = 4096;

const MIDDLE_MESSAGE: usize = 28000;

// Slots for a capacity of 16, 48 rows at most, and a short message; for one of 256, 768 rows, four logs of it for a rebuild and a message of a thousand
// entries; and for the largest capacity, and four logs of it for a rebuild.
const FEW: usize = 512;

const MORE: usize = 2400;

const MANY: usize = 33032;

// ---- the check of a state

// Whether the bytes are as long as a state of these sizes: what is not is refused before any room is taken.
fn has_length(shape: Shape, state: &[u8]) -> bool
    ensures { result ≡ eqb (length state.now) (length_for shape) }
{
    state.len() as u64 == fresh::state_length(shape.n, shape.s, shape.c)
}

// With room for as many slots. Never inlined, as the others that take room: each number has a frame of its own, and a small group does not pay for a
// large one's.
#[inline(never)]
fn good_with<const SLOTS: usize>(shape: Shape, state: &[u8]) -> bool
    requires { SLOTS ≤ 33032 }
    ensures { Judges shape state.now result }
{
    let mut slots = [0u16; SLOTS];
    good::good(shape, state, &mut slots)
}

// Whether the bytes are those of a good state.
pub fn good(shape: Shape, state: &[u8]) -> bool
    ensures { Judges shape state.now result }
{
    if !has_length(shape, state) {
        return false;
    }
    if shape.c <= 16 {
        return good_with::<FEW>(shape, state);
    }
    if shape.c <= 256 {
        return good_with::<MORE>(shape, state);
    }
    good_with::<MANY>(shape, state)
}

// ---- an older state put in order

// With room for as many slots.
#[inline(never)]
fn orderable_with<const SLOTS: usize>(shape: Shape, state: &[u8]) -> bool
    requires { SLOTS ≤ 33032 }
    ensures { check.Orders shape state.now result }
{
    let mut slots = [0u16; SLOTS];
    good::orderable(shape, state, &mut slots)
}

// Whether the bytes are those of a state that is good but for the order of early.
fn orderable(shape: Shape, state: &[u8]) -> bool
    ensures { check.Orders shape state.now result }
{
    if !has_length(shape, state) {
        return false;
    }
    if shape.c <= 16 {
        return orderable_with::<FEW>(shape, state);
    }
    if shape.c <= 256 {
        return orderable_with::<MORE>(shape, state);
    }
    orderable_with::<MANY>(shape, state)
}

// Puts early of an older state in order, or refuses and leaves all as it came. It is called once in a state's life, so one entry after
// the other goes to its place.
pub fn order(shape: Shape, state: &mut [u8]) -> Answer
    ensures { Orders shape state.old result state.new }
{
    if !orderable(shape, state) {
        return Err(Refusal::WrongState);
    }
    let layout = places::places_of(shape);
    let start = layout.early;
    let end = layout.late;
    entries::order(&mut state[start..end], shape.c as usize);
    Ok(0)
}

// ---- a message read

// With room for as many slots.
#[inline(never)]
fn read_with<const SLOTS: usize>(n: u64, s: u64, message: &[u8]) -> Message
    requires { SLOTS ≤ 33032 }
    ensures { Reads n s message.now result }
{
    let mut slots = [0u16; SLOTS];
    wire::read(n, s, message, &mut slots)
}

// What the bytes of a message say.
pub fn read(n: u64, s: u64, message: &[u8]) -> Message
    ensures { Reads n s message.now result }
{
    if message.len() <= SHORT_MESSAGE {
        return read_with::<FEW>(n, s, message);
    }
    if message.len() <= MIDDLE_MESSAGE {
        return read_with::<MORE>(n, s, message);
    }
    read_with::<MANY>(n, s, message)
}

// ---- a message written

// With room for as many slots.
#[inline(never)]
fn write_with<const SLOTS: usize>(
    n: u64,
    s: u64,
    m: Message,
    views: &[u8],
    entries: &[u8],
    out: &mut [u8],
) -> Answer
    requires { SLOTS ≤ 33032 }
    ensures { Writes n s m views.now entries.now out.old result out.new }
{
    let mut slots = [0u16; SLOTS];
    wire::write(n, s, m, views, entries, out, &mut slots)
}

// Writes a message with these views and entries.
pub fn write(n: u64, s: u64, m: Message, views: &[u8], entries: &[u8], out: &mut [u8]) -> Answer
    ensures { Writes n s m views.now entries.now out.old result out.new }
{
    if entries.len() <= SHORT_MESSAGE {
        return write_with::<FEW>(n, s, m, views, entries, out);
    }
    if entries.len() <= MIDDLE_MESSAGE {
        return write_with::<MORE>(n, s, m, views, entries, out);
    }
    write_with::<MANY>(n, s, m, views, entries, out)
}

// ---- a step

// Where a message is wrong: at 0 where it says that its kind is one that no site takes.
fn wrong_at(m: Message, message: &[u8]) -> usize
    ensures { result ≡ wrong_at m message.now }
{
    if kinds::to_outside(octets::look8(message, 0)) {
        return 0;
    }
    wire::decode::offset_of(m)
}

// What a good state answers to a message that is read: the tests in the order of the table, and then the handler of the message's kind.
fn answer(
    shape: Shape,
    state: &mut [u8],
    m: Message,
    message: &[u8],
    out: &mut [u8],
    slots: &mut [u16],
) -> Answer
    requires { (good_bytes shape state.old ≡ true) × (m ≡ decoded shape.n shape.s message.now) }
    ensures { Steps shape state.old message.now out.old result state.new out.new }
{
    admit::admitted(shape, state, m, message, wrong_at(m, message))?;
    dispatch::handle(shape, state, m, message, out, slots)
}

// With room for as many slots.
#[inline(never)]
fn step_with<const SLOTS: usize>(
    shape: Shape,
    state: &mut [u8],
    message: &[u8],
    out: &mut [u8],
) -> Answer
    requires { SLOTS ≤ 33032 }
    ensures { Steps shape state.old message.now out.old result state.new out.new }
{
    let mut slots = [0u16; SLOTS];
    if !good::good(shape, state, &mut slots) {
        return Err(Refusal::WrongState);
    }
    let m = wire::read(shape.n, shape.s, message, &mut slots);
    answer(shape, state, m, message, out, &mut slots)
}

// One step: the next state's bytes and the outgoing messages, or the lowest number of the table that applies and all as it came.
pub fn step(shape: Shape, state: &mut [u8], message: &[u8], out: &mut [u8]) -> Answer
    ensures { Steps shape state.old message.now out.old result state.new out.new }
{
    if !has_length(shape, state) {
        return Err(Refusal::WrongState);
    }
    if (256 < shape.c) | (MIDDLE_MESSAGE < message.len()) {
        return step_with::<MANY>(shape, state, message, out);
    }
    if (16 < shape.c) | (SHORT_MESSAGE < message.len()) {
        return step_with::<MORE>(shape, state, message, out);
    }
    step_with::<FEW>(shape, state, message, out)
}
