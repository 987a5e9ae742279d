// From the texts of the plots and of the calls to entries and requests, or to the fault in them.
use crate::asked::{Asked, Line};
use book::table::Book;
use std::alloc::{AllocError, AllocFailed, Global};
use std::str::SplitWhitespace;
use std::{fmt, io};
use tables::name::Name;
use texts::number::{NotNumber, read_number};
use texts::unread::Unread;

// A number that no call has: the run itself says, of a number, that there is no such call, and
// says it only after that it is stopped, so an Option would come to this number at the request.
const NO_CALL: u32 = u32::MAX;

// What is wrong with a text; lines are counted from 1.
#[derive(Clone, Copy, Debug, PartialEq, Eq)]
pub enum Problem {
    Unread(Unread),
    NoNumber { line: usize },
    NoRequest { line: usize },
    NoMemory,
}

// As in the other program: each has problems of its own, and one line makes one of what is shared.
impl From<io::Error> for Problem {
    fn from(error: io::Error) -> Problem {
        Problem::Unread(Unread::from(error))
    }
}

impl From<AllocError> for Problem {
    fn from(_error: AllocError) -> Problem {
        Problem::NoMemory
    }
}

impl<T: Drop> From<AllocFailed<T>> for Problem {
    fn from(_refused: AllocFailed<T>) -> Problem {
        Problem::NoMemory
    }
}

// A fault and the file that has it. Each program tells its faults in words of its own.
#[derive(Clone, Copy, Debug, PartialEq, Eq)]
pub struct Fault {
    pub file: &'static str,
    pub problem: Problem,
}

// A fault is one line, for example `plots.txt line 3: no number`.
impl fmt::Display for Fault {
    fn fmt<W: fmt::Write>(&self, f: &mut fmt::Formatter<W>) -> fmt::Result {
        let file = self.file;
        match self.problem {
            Problem::Unread(Unread::Missing) => write!(f, "{file} missing"),
            Problem::Unread(Unread::NoText) => write!(f, "{file}: no text"),
            Problem::NoNumber { line } => write!(f, "{file} line {line}: no number"),
            Problem::NoRequest { line } => write!(f, "{file} line {line}: no request"),
            Problem::NoMemory => write!(f, "{file}: no memory"),
        }
    }
}

// The number that a word on that line stands for. A word and the number of its line are two: a value of both would be
// made for each call, and taken apart in it.
fn number(word: &str, line: usize) -> Result<u32, Problem> {
    read_number(word).map_err(|_| Problem::NoNumber { line })
}

// Adds the numbers that words stand for.
fn add_numbers(
    numbers: &mut Vec<u32>,
    words: SplitWhitespace<'_>,
    line: usize,
) -> Result<(), Problem> {
    for word in words {
        numbers.push(number(word, line)?)?;
    }
    Ok(())
}

// The entries of the plots: decimal numbers with white space between them.
// A reader shared with `grounds` could promise no equation: no word lists what split_whitespace gives.
pub(crate) fn read_plots(heap: Global, text: &str) -> Result<Vec<u32>, Problem> {
    let mut entries = Vec::new(heap);
    for (above, line) in text.lines().enumerate() {
        add_numbers(
            &mut entries,
            line.split_whitespace(),
            above.saturating_add(1),
        )?;
    }
    Ok(entries)
}

// The name that a word is, filled with spaces; none where it has more than eight letters.
fn read_name(word: &str) -> Option<Name> {
    let mut letters = [b' '; 8];
    letters
        .get_mut(..word.len())?
        .copy_from_slice(word.as_bytes());
    Some(Name { letters })
}

// The number of the call of that name.
fn find_call(book: &Book, word: &str) -> Option<u32> {
    let name = read_name(word)?;
    let number = book.find_call(&name)?;
    u32::try_from(number).ok()
}

// The number of the call that a word tells, by its number or by its name.
fn read_call(book: &Book, word: &str, line: usize) -> Result<u32, Problem> {
    // a match, since the two errors part here: a closure for `or_else` would be the same match
    match read_number(word) {
        Ok(number) => Ok(number),
        Err(NotNumber::TooLarge) => Err(Problem::NoNumber { line }),
        Err(NotNumber::NoDigits) => Ok(find_call(book, word).unwrap_or(NO_CALL)),
    }
}

// The request that a line tells.
fn read_request(heap: Global, book: &Book, text: &str, line: usize) -> Result<Asked, Problem> {
    let mut words = text.split_whitespace();
    let first = words.next();
    let second = words.next();
    let (Some(kind), Some(word)) = (first, second) else {
        return Err(Problem::NoRequest { line });
    };
    match kind {
        "call" => {
            let number = read_call(book, word, line)?;
            let mut values = Vec::new(heap);
            add_numbers(&mut values, words, line)?;
            Ok(Asked::Call { number, values })
        }
        "cell" if words.next().is_none() => Ok(Asked::Cell(number(word, line)?)),
        _ => Err(Problem::NoRequest { line }),
    }
}

// The requests, one on each line; blank lines and those that begin with # tell none.
pub(crate) fn read_requests(heap: Global, book: &Book, text: &str) -> Result<Vec<Line>, Problem> {
    let mut lines = Vec::new(heap);
    for (above, line) in text.lines().enumerate() {
        let told = line.trim();
        if !told.is_empty() && !told.starts_with('#') {
            let asked = read_request(heap, book, told, above.saturating_add(1))?;
            let text = String::from_str(heap, told)?;
            lines.push(Line { text, asked })?;
        }
    }
    Ok(lines)
}
