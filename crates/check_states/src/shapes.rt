// Starts: every n and S, with the least C, the next and the greatest, at the last replica of the last group.
use rules::{Shape, status};

// Whether these bytes are a good state.
pub fn good_in(shape: Shape, state: &[u8]) -> bool {
    replica::jallumere_good(shape.n, shape.s, shape.c, state) == 0
}

// Whether the first bytes are.
pub fn good_first(shape: Shape, memory: &[u8], length: u64) -> Option<bool> {
    Some(good_in(shape, memory.get(..length as usize)?))
}

// Makes the first bytes those of a fresh state, of replica 0 of group 0, and asks whether they are a good one.
pub fn fresh_good(shape: Shape, memory: &mut [u8], length: u64) -> Option<bool> {
    let state = memory.get_mut(..length as usize)?;
    state.fill(0);
    *state.get_mut(2)? = 1;
    Some(good_in(shape, state))
}

// A start: the shape, the own group and the own replica.
#[derive(Clone, Copy)]
pub struct Start {
    pub shape: Shape,
    pub group: u64,
    pub own: u64,
}

impl Start {
    // Starts on these bytes, and answers the number.
    pub fn on(self, state: &mut [u8]) -> u64 {
        let Shape { n, s, c } = self.shape;
        replica::jallumere_start(n, s, c, self.group, self.own, state)
    }

    // Whether a start on one byte less and on one more is refused with 1, and leaves every byte as it came.
    fn refuses_others(self, bytes: &mut [u8], length: usize) -> Option<bool> {
        let before = digest::digest_of(bytes);
        let less = self.on(bytes.get_mut(..length.checked_sub(1)?)?);
        let above = self.on(bytes);
        Some(less == 1 && above == 1 && digest::digest_of(bytes) == before)
    }

    // Whether these bytes but the last are the fresh state's, and the last is as it was.
    fn stands_in(self, bytes: &[u8]) -> bool {
        let [group, own, doing, rest @ .., last] = bytes else {
            return false;
        };
        u64::from(*group) == self.group
            && u64::from(*own) == self.own
            && *doing == status::NORMAL
            && octets::all_zero(rest, 0, rest.len())
            && *last == 255
    }

    // Whether these bytes but the last are a good state, and not with one byte less, with one more, or with their last byte changed.
    fn alone_is_good(self, bytes: &mut [u8], length: usize) -> Option<bool> {
        let less = length.checked_sub(1)?;
        let exact = good_in(self.shape, bytes.get(..length)?);
        let others = good_in(self.shape, bytes.get(..less)?) || good_in(self.shape, bytes);
        *bytes.get_mut(less)? = 1;
        Some(exact && !others && !good_in(self.shape, bytes.get(..length)?))
    }

    // Whether all of this holds.
    fn is_right(self, memory: &mut [u8]) -> Option<bool> {
        let Shape { n, s, c } = self.shape;
        let length = replica::jallumere_state_length(n, s, c) as usize;
        memory.fill(255);
        let bytes = memory.get_mut(..length.checked_add(1)?)?;
        let others = self.refuses_others(bytes, length)?;
        let exact = self.on(bytes.get_mut(..length)?) == 0;
        Some(others && exact && self.stands_in(bytes) && self.alone_is_good(bytes, length)?)
    }
}

// How many of the eight S start right.
pub fn right_of(n: u64, c: u64, own: u64, memory: &mut [u8]) -> u64 {
    let right = (1..=8).zip(0..8).filter(|(s, group)| {
        let start = Start {
            shape: Shape { n, s: *s, c },
            group: *group,
            own,
        };
        start.is_right(memory) == Some(true)
    });
    right.count() as u64
}
