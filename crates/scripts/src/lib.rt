// Scripts: a row of text for each check, for the programs that print a line for each. A row is a letter that says what is asked, up to
// six numbers, the wanted answer and the name of the check:
//
//     f 3 2 16 4004 4|0|gView
//
// A number that is left out is 0, and one that begins with x is hexadecimal. A row without a name is done and prints nothing; a line that
// begins with # is a comment.
#![tactic(auto)]

use std::fmt::Display;
use std::io;

// What is printed of an answer where there is none.
const NONE: u64 = 1000;

// A row: its letter, its numbers, the wanted answer and its name. Each program matches the letter once, beside what it does: an enum would
// say each letter twice.
#[derive(Clone, Copy)]
pub struct Row<'a> {
    pub asks: char,
    pub numbers: [u64; 6],
    pub want: u64,
    pub name: &'a str,
}

// A number, 0 where none is written.
fn number(text: &str) -> u64 {
    let number = match text.strip_prefix('x') {
        Some(digits) => u64::from_str_radix(digits, 16),
        None => text.parse::<u64>(),
    };
    number.unwrap_or(0)
}

impl<'a> Row<'a> {
    // The row that a line says, none where it is a comment.
    pub fn of(line: &'a str) -> Option<Row<'a>> {
        let (asked, answered) = line.split_once('|').unwrap_or((line, ""));
        let (want, name) = answered.split_once('|').unwrap_or((answered, ""));
        let mut words = asked.split(' ');
        let asks = words.next()?.chars().next()?;
        if asks == '#' {
            return None;
        }
        let mut numbers = [0; 6];
        for (place, word) in numbers.iter_mut().zip(words) {
            *place = number(word);
        }
        Some(Row {
            asks,
            numbers,
            want: number(want),
            name,
        })
    }
}

// The lines that a program prints, and how many of its checks failed.
#[derive(Drop)]
pub struct Report<'a, R: Print> {
    rt: &'a R,
    failed: u64,
}

impl<'a, R: Print> Report<'a, R> {
    // Before the first check.
    pub fn new(rt: &'a R) -> Report<'a, R> {
        Report { rt, failed: 0 }
    }

    // Prints the line of a check: its name, and whether the answer is the wanted one, with both where they differ.
    pub fn line(
        &mut self,
        name: impl Display + Drop,
        got: Option<u64>,
        want: u64,
    ) -> io::Result<()> {
        if got == Some(want) {
            return println!(self.rt; "{name}: ok");
        }
        self.failed = self.failed.saturating_add(1);
        let got = got.unwrap_or(NONE);
        println!(self.rt; "{name}: DIFFERENT, got {got:016x}, want {want:016x}")
    }

    // Prints the line of a row that has a name.
    pub fn row(&mut self, row: &Row<'_>, got: Option<u64>) -> io::Result<()> {
        if row.name.is_empty() {
            return Ok(());
        }
        self.line(row.name, got, row.want)
    }

    // The last line: how many checks failed.
    pub fn total(&self) -> io::Result<()> {
        println!(self.rt; "failed: {}", self.failed)
    }
}

// Does each row of a script.
pub fn run<F: FnMut(Row<'_>) -> io::Result<()>>(script: &str, mut each: F) -> io::Result<()>
    requires { F.IsAlwaysCallable each }
{
    for row in script.lines().filter_map(Row::of) {
        each(row)?;
    }
    Ok(())
}
