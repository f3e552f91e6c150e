// What a host asks of bytes: where the next message ends, and what a state says. Any bytes may be given.
#![tactic(auto)]

ghost use Rattle.std.specs.Prelude.{◌≡◌};
ghost use Rattle.rules.specs.Group as rule;
ghost use Rattle.rules.specs.Image.{state_of};
ghost use Rattle.places.specs.Layout.{Sized};
ghost use Rattle.readers.specs.Said.{field_of, entry_field_of, is_sized};
ghost use Rattle.readers.specs.Statements.{MeasuresFirst, TellsField, TellsView, TellsEntry};

use rules::{Entry, Shape};

// What is said where there is nothing to say.
const NOTHING: u64 = 0xffffffffffffffff;

// The length of the message that the bytes begin with, 0 where they begin with none.
pub fn message_length(n: u64, s: u64, bytes: &[u8]) -> u64
    ensures { MeasuresFirst n s bytes.now result }
{
    if !group::sizes_fit(n, s) {
        return 0;
    }
    let kind = octets::look8(bytes, 0);
    if !kinds::known(kind) {
        return 0;
    }
    let count = octets::look32(bytes, kinds::entries_at(s, kind));
    let length = kinds::length_for(s, kind, count as usize);
    if bytes.len() < length {
        return 0;
    }
    length as u64
}

// ---- what a state says

// Whether the sizes are permitted and the bytes are as many as a state of them has.
fn is_sized(shape: Shape, state: &[u8]) -> bool
    ensures { result ≡ is_sized shape state.now }
{
    if !group::shape_fits(shape) {
        return false;
    }
    state.len() == places::places_of(shape).end
}

// The leader of the own group; replica 0 where the bytes name a group that there is not.
fn own_leader(shape: Shape, state: &[u8]) -> u64
    requires { Sized shape state.now }
    ensures { result ≡ rule.leader shape.n (state_of shape state.now).view.g_vec (state_of shape state.now).site.group }
{
    let own = places::get_group(state);
    if shape.s <= own {
        return 0;
    }
    places::view_at(shape, state, own) as u64 % shape.n
}

// A field of a state by its number.
fn field_of(shape: Shape, field: u64, state: &[u8]) -> u64
    requires { Sized shape state.now }
    ensures { result ≡ field_of shape (state_of shape state.now) field }
{
    match field {
        1 => places::get_group(state),
        2 => places::get_replica(state),
        3 => places::get_status(state) as u64,
        4 => places::get_view(state) as u64,
        5 => places::get_normal(state) as u64,
        6 => places::get_clock(state),
        7 => places::get_sync(state),
        8 => places::get_commit(state),
        9 => places::log_length(shape, state) as u64,
        10 => own_leader(shape, state),
        _ => NOTHING,
    }
}

// A field of the state in the bytes.
pub fn field(shape: Shape, field: u64, state: &[u8]) -> u64
    ensures { TellsField shape field state.now result }
{
    if !is_sized(shape, state) {
        return NOTHING;
    }
    field_of(shape, field, state)
}

// The view of a group in the state's gVec.
pub fn group_view(shape: Shape, group: u64, state: &[u8]) -> u64
    ensures { TellsView shape group state.now result }
{
    if !is_sized(shape, state) {
        return NOTHING;
    }
    if shape.s <= group {
        return NOTHING;
    }
    places::view_at(shape, state, group) as u64
}

// A field of an entry by its number.
fn entry_field(entry: Entry, field: u64) -> u64
    ensures { result ≡ entry_field_of entry field }
{
    match field {
        1 => entry.stamp,
        2 => entry.command,
        3 => entry.request as u64,
        4 => entry.coordinator as u64,
        5 => entry.mask as u64,
        _ => NOTHING,
    }
}

// A field of the entry at a position of the log, from 1 on.
pub fn entry(shape: Shape, position: u64, field: u64, state: &[u8]) -> u64
    ensures { TellsEntry shape position field state.now result }
{
    if !is_sized(shape, state) {
        return NOTHING;
    }
    if position < 1 {
        return NOTHING;
    }
    if (places::log_length(shape, state) as u64) < position {
        return NOTHING;
    }
    entry_field(
        places::log_entry(shape, state, (position - 1) as usize),
        field,
    )
}
