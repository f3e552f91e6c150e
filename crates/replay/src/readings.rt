// Records of the reader: each message must be read as a message, or be refused with the number and at the offset that are wanted; and so must a
// step on a fresh state refuse what is malformed, at 0 where it is of kind 5 or 6.
use crate::records::{Replay, Stop, told_by};
use rules::kind::{FAST_REPLY, SLOW_REPLY};
use rules::{Refusal, Shape};
use std::io;
use std::io::Read;

// The capacity of the fresh states.
const CAPACITY: u64 = 16;

// What comes of a malformed message: the number of a start, and the number and the offset of a step on the fresh state.
#[derive(Clone, Copy)]
struct Refused {
    began: u8,
    number: u8,
    offset: usize,
}

impl<R: Print, F: Read> Replay<'_, R, F> {
    // A step on the fresh state of that length, none where it has no room.
    fn step_fresh(&mut self, shape: Shape, length: usize, message: &[u8]) -> Option<Refused> {
        let state = self.state.get_mut(..length)?;
        let (began, _) = told_by(fresh::start(shape, 0, 0, state));
        let (number, offset) = told_by(replica::step(shape, state, message, &mut [0]));
        Some(Refused {
            began,
            number,
            offset,
        })
    }

    // Whether a step on a fresh state refuses a malformed message otherwise than wanted.
    fn step_differs(&mut self, shape: Shape, message: &[u8], want: Refusal) -> io::Result<bool> {
        let length = fresh::state_length(shape.n, shape.s, shape.c) as usize;
        let mut held = self.held();
        match self.step_fresh(shape, length, message) {
            Some(got) => {
                held.number("start", u64::from(got.began), 0)?;
                held.number(
                    "step's number",
                    u64::from(got.number),
                    u64::from(want.number()),
                )?;
                held.number("step's offset", got.offset as u64, want.offset() as u64)?;
            }
            None => held.number(
                "room for a state of",
                self.state.len() as u64,
                length as u64,
            )?,
        }
        Ok(held.differs())
    }

    // A record of a reading.
    pub fn reading(&mut self) -> Result<(), Stop> {
        let mut buffer = [0; 320];
        let sizes = self.take::<6>()?;
        let [n, s, ..] = sizes;
        let message = self.take_message(&mut buffer, octets::look32(&sizes, 2))?;
        let wanted = self.take::<5>()?;
        let number = octets::look8(&wanted, 0);
        let offset = octets::look32(&wanted, 1);
        self.totals.readings = self.totals.readings.saturating_add(1);
        let mut held = self.held();
        let shape = Shape {
            n: u64::from(n),
            s: u64::from(s),
            c: CAPACITY,
        };
        let got = replica::jallumere_read(shape.n, shape.s, message);
        held.number("reader's number", got % 256, u64::from(number))?;
        held.number("reader's offset", got / 256, u64::from(offset))?;
        let want = match octets::look8(message, 0) {
            FAST_REPLY | SLOW_REPLY => Refusal::Malformed(0),
            _ => Refusal::Malformed(offset as usize),
        };
        let stepped = number == want.number() && self.step_differs(shape, message, want)?;
        self.count(held.differs() || stepped);
        Ok(())
    }
}
