// The records of a file, one after the other.
use crate::line::Held;
use crate::table::Table;
use rules::{Answer, Shape};
use std::io;
use std::io::{ErrorKind, Read};

// How many records are run at most: nothing says that a file ends.
const MOST: u64 = 1000000;

// Why no further record is run: the file ends where the next would begin, the record cannot be run, or the file cannot be read.
#[derive(Drop)]
pub enum Stop {
    End,
    Broken(&'static str),
    Failed(io::Error),
}

// The file ends within a record.
const CUT: Stop = Stop::Broken("cut short");

impl From<io::Error> for Stop {
    // What cannot be read or printed.
    fn from(error: io::Error) -> Stop {
        Stop::Failed(error)
    }
}

// How many records there were so far, of each sort, and how many of them differ.
#[derive(Clone, Copy, Default)]
pub struct Totals {
    pub records: u64,
    pub starts: u64,
    pub steps: u64,
    pub readings: u64,
    pub differences: u64,
}

// A file's replay: where its lines are printed, the file, the bytes of the state, the table of its steps; the sizes and the state's length
// since the last start, and how far it went.
#[derive(Drop)]
pub struct Replay<'a, R: Print, F: Read> {
    rt: &'a R,
    file: &'a mut F,
    pub state: &'a mut [u8],
    table: &'a mut Table,
    shape: Shape,
    length: usize,
    pub totals: Totals,
}

// The number of an answer, and the offset of the wrong field where a message is malformed.
pub fn told_by(answer: Answer) -> (u8, usize) {
    match answer {
        Ok(_) => (0, 0),
        Err(refusal) => (refusal.number(), refusal.offset()),
    }
}

// What a step answered, and the digests of what it sent and left.
#[derive(Clone, Copy)]
struct Came {
    number: u8,
    offset: u64,
    length: u64,
    sent: u64,
    left: u64,
}

impl Came {
    // Of one step on exactly these bytes.
    fn of(shape: Shape, state: &mut [u8], message: &[u8], out: &mut [u8]) -> Came {
        let answer = replica::step(shape, state, message, out);
        let (number, offset) = told_by(answer);
        let length = answer.unwrap_or(0);
        Came {
            number,
            offset: offset as u64,
            length: length as u64,
            sent: out.get(..length).map_or(0, digest::digest_of),
            left: digest::digest_of(state),
        }
    }
}

impl<'a, R: Print, F: Read> Replay<'a, R, F> {
    // Before the first record: no sizes, so that a step is refused.
    pub fn new(
        rt: &'a R,
        file: &'a mut F,
        state: &'a mut [u8],
        table: &'a mut Table,
    ) -> Replay<'a, R, F> {
        Replay {
            rt,
            file,
            state,
            table,
            shape: Shape { n: 0, s: 0, c: 0 },
            length: 0,
            totals: Totals::default(),
        }
    }

    // Fills a buffer from the file, or stops so where the file ends before.
    fn fill(&mut self, buffer: &mut [u8], short: Stop) -> Result<(), Stop> {
        match self.file.read_exact(buffer) {
            Ok(()) => Ok(()),
            Err(error) if error.kind() == ErrorKind::UnexpectedEof => Err(short),
            Err(error) => Err(Stop::Failed(error)),
        }
    }

    // The next bytes of the record.
    pub fn take<const N: usize>(&mut self) -> Result<[u8; N], Stop> {
        let mut bytes = [0; N];
        self.fill(&mut bytes, CUT)?;
        Ok(bytes)
    }

    // The record's message, of that many bytes.
    pub fn take_message<'b>(&mut self, buffer: &'b mut [u8], size: u32) -> Result<&'b [u8], Stop> {
        let Some(message) = buffer.get_mut(..size as usize) else {
            return Err(Stop::Broken("no room for the message"));
        };
        self.fill(message, CUT)?;
        Ok(message)
    }

    // What a step must come to.
    fn take_wanted(&mut self) -> Result<Came, Stop> {
        let want = self.take::<25>()?;
        Ok(Came {
            number: octets::look8(&want, 0),
            offset: u64::from(octets::look32(&want, 1)),
            length: u64::from(octets::look32(&want, 5)),
            sent: octets::look64(&want, 9),
            left: octets::look64(&want, 17),
        })
    }

    // What holds the record to what is wanted.
    pub fn held(&self) -> Held<'a, R> {
        Held::new(self.rt, self.totals.records, self.totals.differences == 0)
    }

    // Counts a record that differs; more than there are records at most are not counted.
    pub fn count(&mut self, differs: bool) {
        if differs {
            self.totals.differences = self.totals.differences.saturating_add(1).min(MOST);
        }
    }

    // A record of a start, on the state's bytes.
    fn start(&mut self) -> Result<(), Stop> {
        let [n, s, low, high, group, replica] = self.take::<6>()?;
        let shape = Shape {
            n: u64::from(n),
            s: u64::from(s),
            c: u64::from(u16::from_le_bytes([low, high])),
        };
        let length = fresh::state_length(shape.n, shape.s, shape.c) as usize;
        let Some(state) = self.state.get_mut(..length) else {
            return Err(Stop::Broken("no room for the state"));
        };
        let answer = fresh::start(shape, u64::from(group), u64::from(replica), state);
        self.shape = shape;
        self.length = length;
        self.totals.starts = self.totals.starts.saturating_add(1);
        let mut held = self.held();
        let (number, _) = told_by(answer);
        held.number("start", u64::from(number), 0)?;
        self.count(held.differs());
        Ok(())
    }

    // A record of a step, on the first bytes of the state.
    fn step(&mut self) -> Result<(), Stop> {
        let mut buffer = [0; 1800];
        let mut out = [0; 4000];
        let sizes = self.take::<8>()?;
        let room = octets::look32(&sizes, 0) as usize;
        let message = self.take_message(&mut buffer, octets::look32(&sizes, 4))?;
        let want = self.take_wanted()?;
        let Some(state) = self.state.get_mut(..self.length) else {
            return Err(Stop::Broken("no state"));
        };
        let Some(out) = out.get_mut(..room) else {
            return Err(Stop::Broken("no such room"));
        };
        let came = Came::of(self.shape, state, message, out);
        self.table.count(octets::look8(message, 0), came.number);
        self.totals.steps = self.totals.steps.saturating_add(1);
        let mut held = self.held();
        held.number("number", u64::from(came.number), u64::from(want.number))?;
        held.number("offset", came.offset, want.offset)?;
        held.number("outgoing length", came.length, want.length)?;
        held.digest("outgoing digest", came.sent, want.sent)?;
        held.digest("state digest", came.left, want.left)?;
        self.count(held.differs());
        Ok(())
    }

    // The next record.
    fn record(&mut self) -> Result<(), Stop> {
        let mut tag = [0];
        self.fill(&mut tag, Stop::End)?;
        self.totals.records = self.totals.records.saturating_add(1);
        match tag {
            [1] => self.start(),
            [2] => self.step(),
            [5] => self.reading(),
            _ => Err(Stop::Broken("neither a start, a step nor a reading")),
        }
    }

    // A record that cannot be run is a difference, and the last record.
    fn broken(mut self, why: &str) -> io::Result<Totals> {
        println!(self.rt; "record {}: {why}", self.totals.records)?;
        self.count(true);
        Ok(self.totals)
    }

    // Runs all records.
    pub fn run(mut self) -> io::Result<Totals> {
        for _ in 0..MOST {
            match self.record() {
                Ok(()) => {}
                Err(Stop::End) => return Ok(self.totals),
                Err(Stop::Broken(why)) => return self.broken(why),
                Err(Stop::Failed(error)) => return Err(error),
            }
        }
        self.broken("not the last")
    }
}
