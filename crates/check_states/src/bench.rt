// What the rows work on.

// The memory, whose first bytes are a state, and what is sent; the whole answer of the last step, and the digests that are kept of both.
#[derive(Drop)]
pub struct Bench<'a> {
    pub memory: &'a mut [u8],
    pub out: &'a mut [u8],
    pub answer: Option<u64>,
    pub state: Option<u64>,
    pub sent: Option<u64>,
}

impl<'a> Bench<'a> {
    // Before the first step.
    pub fn new(memory: &'a mut [u8], out: &'a mut [u8]) -> Bench<'a> {
        Bench {
            memory,
            out,
            answer: None,
            state: None,
            sent: None,
        }
    }
}
