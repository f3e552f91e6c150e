// What is printed of a record that differs.
use std::fmt::Display;
use std::io;

// What comes of a record, held to what is wanted. It is loud where no record before it differs: a line says then what differs.
#[derive(Drop)]
pub struct Held<'a, R: Print> {
    rt: &'a R,
    record: u64,
    loud: bool,
    differs: bool,
}

impl<'a, R: Print> Held<'a, R> {
    // Before the first comparison.
    pub fn new(rt: &'a R, record: u64, loud: bool) -> Held<'a, R> {
        Held {
            rt,
            record,
            loud,
            differs: false,
        }
    }

    // Whether anything differs so far.
    pub fn differs(&self) -> bool {
        self.differs
    }

    // Something differs that a line tells.
    fn tell(&mut self, line: impl Display + Drop) -> io::Result<()> {
        self.differs = true;
        if self.loud {
            println!(self.rt; "record {}: {line}", self.record)?;
        }
        Ok(())
    }

    // Holds a number, which is printed in decimal.
    pub fn number(&mut self, name: &str, got: u64, want: u64) -> io::Result<()> {
        if got == want {
            return Ok(());
        }
        self.tell(format_args!("{name} {got}, want {want}"))
    }

    // Holds a digest, which is printed in sixteen hexadecimal digits.
    pub fn digest(&mut self, name: &str, got: u64, want: u64) -> io::Result<()> {
        if got == want {
            return Ok(());
        }
        self.tell(format_args!("{name} {got:016x}, want {want:016x}"))
    }
}
