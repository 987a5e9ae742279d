// From the texts of the three files to numbers, or to the fault in them.
use crate::burials::Burial;
use std::alloc::{AllocFailed, Global};
use std::{fmt, io};
use texts::number::{NotNumber, read_number};
use texts::unread::Unread;

// What is wrong with a text; lines are counted from 1.
#[derive(Clone, Copy, Debug, PartialEq, Eq)]
pub enum Problem {
    Unread(Unread),
    NotNumber { line: usize, why: NotNumber },
    NotTwo { line: usize },
    NoMemory,
}

// As in the other program: each has problems of its own, and one line makes one of what is shared.
impl From<io::Error> for Problem {
    fn from(error: io::Error) -> Problem {
        Problem::Unread(Unread::from(error))
    }
}

impl<T: Drop> From<AllocFailed<T>> for Problem {
    fn from(_refused: AllocFailed<T>) -> Problem {
        Problem::NoMemory
    }
}

// A fault and the file that has it. Each program tells its faults in words of its own.
#[derive(Clone, Copy, Debug, PartialEq, Eq)]
pub struct Fault {
    pub file: &'static str,
    pub problem: Problem,
}

impl fmt::Display for Fault {
    fn fmt<W: fmt::Write>(&self, f: &mut fmt::Formatter<W>) -> fmt::Result {
        let file = self.file;
        match self.problem {
            Problem::Unread(Unread::Missing) => write!(f, "{file} is missing"),
            Problem::Unread(Unread::NoText) => write!(f, "{file} cannot be read as text"),
            Problem::NotNumber {
                line,
                why: NotNumber::NoDigits,
            } => write!(f, "{file} line {line}: a word is no number"),
            Problem::NotNumber {
                line,
                why: NotNumber::TooLarge,
            } => write!(f, "{file} line {line}: a number is above 4294967295"),
            Problem::NotTwo { line } => write!(
                f,
                "{file} line {line}: not two numbers, a plot and an entry"
            ),
            Problem::NoMemory => write!(f, "{file}: no memory to read it"),
        }
    }
}

// The number that a word on that line stands for.
// A word and the number of its line are two: a value of both would be made for each call, and taken apart in it.
fn number(word: &str, line: usize) -> Result<u32, Problem> {
    read_number(word).map_err(|why| Problem::NotNumber { line, why })
}

// The entries of a ground: decimal numbers separated by white space.
// A reader shared with `rehearse` could promise no equation: no word lists what split_whitespace gives.
pub(crate) fn read_entries(heap: Global, text: &str) -> Result<Vec<u32>, Problem> {
    let mut entries = Vec::new(heap);
    for (above, line) in text.lines().enumerate() {
        for word in line.split_whitespace() {
            entries.push(number(word, above.saturating_add(1))?)?;
        }
    }
    Ok(entries)
}

// The burial that a line tells: a plot and an entry.
fn read_burial(text: &str, line: usize) -> Result<Burial, Problem> {
    let mut words = text.split_whitespace();
    let first = words.next();
    let second = words.next();
    let third = words.next();
    let (Some(plot), Some(entry), None) = (first, second, third) else {
        return Err(Problem::NotTwo { line });
    };
    Ok(Burial {
        plot: number(plot, line)?,
        entry: number(entry, line)?,
    })
}

// The burials, one on each line.
pub(crate) fn read_burials(heap: Global, text: &str) -> Result<Vec<Burial>, Problem> {
    let mut burials = Vec::new(heap);
    for (above, line) in text.lines().enumerate() {
        burials.push(read_burial(line, above.saturating_add(1))?)?;
    }
    Ok(burials)
}
