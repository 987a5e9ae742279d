// The lines that tell a book, as values.
use book::marks::{ANSWER, has};
use book::table::{Act, Call, Condition, Operation};
use std::fmt;

// A word and the marks behind it, or that there are none: `marks 1 2`, `no marks`.
#[derive(Drop)]
pub(crate) struct Listed<'a> {
    pub(crate) word: &'static str,
    pub(crate) marks: &'a [u8],
}

impl fmt::Display for Listed<'_> {
    fn fmt<W: fmt::Write>(&self, f: &mut fmt::Formatter<W>) -> fmt::Result {
        let word = self.word;
        if self.marks.is_empty() {
            return write!(f, "no {word}");
        }
        write!(f, "{word}")?;
        for mark in self.marks {
            write!(f, " {mark}")?;
        }
        Ok(())
    }
}

// What a step takes: the marks of its operation, the register's answer by its name.
#[derive(Drop)]
struct Taken<'a> {
    marks: &'a [u8],
}

impl Taken<'_> {
    fn has_answer(&self) -> bool {
        has(self.marks, ANSWER)
    }
}

impl fmt::Display for Taken<'_> {
    fn fmt<W: fmt::Write>(&self, f: &mut fmt::Formatter<W>) -> fmt::Result {
        let listed = self.marks.iter().any(|mark| *mark != ANSWER);
        if listed {
            write!(f, "marks")?;
        }
        for mark in self.marks.iter().filter(|mark| **mark != ANSWER) {
            write!(f, " {mark}")?;
        }
        match (listed, self.has_answer()) {
            (true, true) => write!(f, " and the answer"),
            (true, false) => Ok(()),
            (false, true) => write!(f, "the answer"),
            (false, false) => write!(f, "no marks"),
        }
    }
}

// An operation of the book.
#[derive(Drop)]
pub(crate) struct OperationLine<'a> {
    pub(crate) number: usize,
    pub(crate) operation: &'a Operation,
}

impl fmt::Display for OperationLine<'_> {
    fn fmt<W: fmt::Write>(&self, f: &mut fmt::Formatter<W>) -> fmt::Result {
        let number = self.number;
        let name = self.operation.name();
        let marks = Listed {
            word: "marks",
            marks: self.operation.marks(),
        };
        write!(f, "operation {number}: {name}, {marks}")
    }
}

// A call of the book. One type for both lines would take their words too, and be no shorter.
#[derive(Drop)]
pub(crate) struct CallLine<'a> {
    pub(crate) number: usize,
    pub(crate) call: &'a Call,
}

impl fmt::Display for CallLine<'_> {
    fn fmt<W: fmt::Write>(&self, f: &mut fmt::Formatter<W>) -> fmt::Result {
        let number = self.number;
        let name = self.call.name();
        let fields = Listed {
            word: "fields",
            marks: self.call.fields(),
        };
        write!(f, "call {number}: {name}, {fields}")
    }
}

// A step before the act, with its place among them.
#[derive(Drop)]
pub(crate) struct BeforeLine<'a> {
    pub(crate) place: usize,
    pub(crate) operation: &'a Operation,
}

impl fmt::Display for BeforeLine<'_> {
    fn fmt<W: fmt::Write>(&self, f: &mut fmt::Formatter<W>) -> fmt::Result {
        let place = self.place;
        let name = self.operation.name();
        let taken = Taken {
            marks: self.operation.marks(),
        };
        write!(f, "  before {place}: {name} takes {taken}")
    }
}

// The act, with the marks of the fields that it takes.
#[derive(Drop)]
pub(crate) struct ActLine {
    pub(crate) act: Act,
}

impl fmt::Display for ActLine {
    fn fmt<W: fmt::Write>(&self, f: &mut fmt::Formatter<W>) -> fmt::Result {
        match self.act {
            Act::Look => write!(f, "  look at plot 1"),
            Act::Put => write!(f, "  put at plot 1 the entry 2"),
        }
    }
}

// A step after the act, with its place among them and its condition.
#[derive(Drop)]
pub(crate) struct AfterLine<'a> {
    pub(crate) place: usize,
    pub(crate) operation: &'a Operation,
    pub(crate) condition: Condition,
}

impl fmt::Display for AfterLine<'_> {
    fn fmt<W: fmt::Write>(&self, f: &mut fmt::Formatter<W>) -> fmt::Result {
        let place = self.place;
        let name = self.operation.name();
        let taken = Taken {
            marks: self.operation.marks(),
        };
        write!(f, "  after {place}: {name} takes {taken}")?;
        let answer = if taken.has_answer() {
            "it"
        } else {
            "the answer"
        };
        match self.condition {
            Condition::Always => Ok(()),
            Condition::NotZero => write!(f, ", when {answer} is not 0"),
            Condition::Zero => write!(f, ", when {answer} is 0"),
        }
    }
}
