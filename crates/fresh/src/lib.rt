// The fresh state of a replica, and how long a state is.
#![tactic(auto)]

ghost use Rattle.fresh.specs.Statements.{Starts, Measures};

use rules::{Answer, Refusal, Shape, status};

// How many bytes a state has, 0 for sizes that are not permitted.
pub fn state_length(n: u64, s: u64, c: u64) -> u64
    ensures { Measures (record { n = n; s = s; c = c }) result }
{
    let shape = Shape { n, s, c };
    if !group::shape_fits(shape) {
        return 0;
    }
    places::places_of(shape).end as u64
}

// Writes the fresh state of a replica; nothing of the old bytes is read.
pub fn start(shape: Shape, group: u64, replica: u64, state: &mut [u8]) -> Answer
    ensures { Starts shape group replica state.old result state.new }
{
    if !group::shape_fits(shape) {
        return Err(Refusal::WrongState);
    }
    if shape.s <= group {
        return Err(Refusal::WrongState);
    }
    if shape.n <= replica {
        return Err(Refusal::WrongState);
    }
    if state.len() != places::places_of(shape).end {
        return Err(Refusal::WrongState);
    }
    octets::fill_zero(state, 0, state.len());
    octets::put8(state, 0, group as u8);
    octets::put8(state, 1, replica as u8);
    octets::put8(state, 2, status::NORMAL);
    Ok(0)
}
