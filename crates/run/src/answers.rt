// What is asked of a run, and what it answers.
ghost use Rattle.run.specs.Answers.{number_of, word_of, place_shown, shown_as};
ghost use Rattle.std.specs.Prelude.{◌≡◌, Some};

use std::fmt;

// Whether a run takes script calls, or has been stopped by a violation.
#[derive(Clone, Copy, Debug, PartialEq, Eq)]
pub enum Mode {
    Open,
    Stopped,
}

// A step stands before the act of its call, or after it.
#[derive(Clone, Copy, Debug, PartialEq, Eq)]
pub enum Phase {
    Before,
    After,
}

// Where a violation came: the step's phase, its place from 0 among the call's steps of that phase,
// its operation, and the clause's number in the policy.
#[derive(Clone, Copy, Debug, PartialEq, Eq)]
pub struct Violation {
    pub phase: Phase,
    pub place: usize,
    pub operation: u8,
    pub clause: usize,
}

// Why a request is refused, each with its number.
#[derive(Clone, Copy, Debug, PartialEq, Eq)]
pub enum Refusal {
    Stopped = 20,
    NoSuchCall = 21,
    WrongCount = 22,
    NoSuchPlot = 23,
    NoSuchCell = 24,
}

// A script call by its number, with its values, or a question about a cell.
#[derive(Clone, Copy, Debug, PartialEq, Eq)]
pub enum Request<'a> {
    Call(u32, &'a [u32]),
    Cell(u32),
}

// What a request comes to: the call is done, with the register's answer; it is denied before the
// act; it has stopped the run after the act, whose answer that is; it is refused; or the cell's
// value, where the table keeps the cell.
#[derive(Clone, Copy, Debug, PartialEq, Eq)]
pub enum Answer {
    Done(u32),
    Denied(Violation),
    Stopped(Violation, u32),
    Refused(Refusal),
    Value(u32),
    NotKept,
}

impl Refusal {
    // Its discriminant, by a name: `u8::from(refusal)` would not say what the number is.
    pub fn number(self) -> u8
        ensures { result ≡ number_of self }
    {
        self as u8
    }
}

// A phase is shown by its word.
impl fmt::Display for Phase {
    ghost output = { λ p. Some (word_of p) };

    fn fmt<W: fmt::Write>(&self, f: &mut fmt::Formatter<W>) -> fmt::Result {
        match *self {
            Phase::Before => write!(f, "before"),
            Phase::After => write!(f, "after"),
        }
    }
}

// A violation is shown by where it came, for example `before 0 operation 1 clause 2`.
impl fmt::Display for Violation {
    ghost output = { λ v. Some (place_shown v) };

    fn fmt<W: fmt::Write>(&self, f: &mut fmt::Formatter<W>) -> fmt::Result {
        let Violation {
            phase,
            place,
            operation,
            clause,
        } = *self;
        write!(f, "{phase} {place} operation {operation} clause {clause}")
    }
}

// An answer is shown by its word and what it holds, for example `done 5` or `refused 21`.
impl fmt::Display for Answer {
    ghost output = { λ a. Some (shown_as a) };

    fn fmt<W: fmt::Write>(&self, f: &mut fmt::Formatter<W>) -> fmt::Result {
        match *self {
            Answer::Done(answer) => write!(f, "done {answer}"),
            Answer::Denied(violation) => write!(f, "denied {violation}"),
            Answer::Stopped(violation, answer) => write!(f, "stopped {answer} {violation}"),
            Answer::Refused(refusal) => {
                let number = refusal.number();
                write!(f, "refused {number}")
            }
            Answer::Value(value) => write!(f, "value {value}"),
            Answer::NotKept => write!(f, "not kept"),
        }
    }
}
