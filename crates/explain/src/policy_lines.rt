// The lines that tell a policy, as values.
use book::marks::ANSWER;
use book::table::{Book, OPERATIONS};
use policy::table::{Action, Clause, Comparison, Term, When, Write};
use std::{array, fmt};

// The names of the operations that are flagged, in a fixed array, as the table hands them out.
#[derive(Drop)]
struct Flagged<'a> {
    book: &'a Book,
    flags: [bool; OPERATIONS],
}

impl fmt::Display for Flagged<'_> {
    fn fmt<W: fmt::Write>(&self, f: &mut fmt::Formatter<W>) -> fmt::Result {
        let mut names = self
            .book
            .operations()
            .iter()
            .zip(&self.flags)
            .filter(|(_, flag)| **flag)
            .map(|(operation, _)| operation.name());
        let Some(first) = names.next() else {
            return write!(f, "no operation");
        };
        write!(f, "{first}")?;
        for name in names {
            write!(f, ", {name}")?;
        }
        Ok(())
    }
}

// A cell with its first value.
#[derive(Drop)]
pub(crate) struct CellLine {
    pub(crate) number: usize,
    pub(crate) first: u32,
}

impl fmt::Display for CellLine {
    fn fmt<W: fmt::Write>(&self, f: &mut fmt::Formatter<W>) -> fmt::Result {
        let number = self.number;
        let first = self.first;
        write!(f, "cell {number}: first {first}")
    }
}

// A group with all that it covers, in a fixed array, as the table hands it out.
#[derive(Drop)]
pub(crate) struct GroupLine<'a> {
    pub(crate) number: usize,
    pub(crate) book: &'a Book,
    pub(crate) covers: [bool; OPERATIONS],
}

impl fmt::Display for GroupLine<'_> {
    fn fmt<W: fmt::Write>(&self, f: &mut fmt::Formatter<W>) -> fmt::Result {
        let number = self.number;
        let covered = Flagged {
            book: self.book,
            flags: self.covers,
        };
        write!(f, "group {number}: covers {covered}")
    }
}

// A term in words.
#[derive(Drop)]
struct Told {
    term: Term,
}

impl fmt::Display for Told {
    fn fmt<W: fmt::Write>(&self, f: &mut fmt::Formatter<W>) -> fmt::Result {
        match self.term {
            Term::Number(number) => write!(f, "{number}"),
            Term::Field(ANSWER) => write!(f, "the answer"),
            Term::Field(mark) => write!(f, "field {mark}"),
            Term::Cell(number) => write!(f, "cell {number}"),
        }
    }
}

// A condition in words.
#[derive(Drop)]
struct Condition {
    when: When,
}

impl fmt::Display for Condition {
    fn fmt<W: fmt::Write>(&self, f: &mut fmt::Formatter<W>) -> fmt::Result {
        let left = Told {
            term: self.when.left,
        };
        let right = Told {
            term: self.when.right,
        };
        let compares = match self.when.comparison {
            Comparison::Equal => "is",
            Comparison::Unequal => "is not",
            Comparison::Less => "is less than",
            Comparison::AtMost => "is at most",
        };
        write!(f, "{left} {compares} {right}")
    }
}

// An action in words.
#[derive(Drop)]
struct Done {
    action: Action,
}

impl fmt::Display for Done {
    fn fmt<W: fmt::Write>(&self, f: &mut fmt::Formatter<W>) -> fmt::Result {
        match self.action {
            Action::Violate => write!(f, "violate"),
            Action::Write(write, cell, term) => {
                let value = Told { term };
                match write {
                    Write::Set => write!(f, "set cell {cell} to {value}"),
                    Write::Add => write!(f, "add {value} to cell {cell}"),
                    Write::Take => write!(f, "take {value} from cell {cell}"),
                }
            }
        }
    }
}

// A clause: its label, the operations to which it applies, its conditions and its action.
#[derive(Drop)]
pub(crate) struct ClauseLine<'a> {
    pub(crate) number: usize,
    pub(crate) book: &'a Book,
    pub(crate) clause: &'a Clause,
}

impl fmt::Display for ClauseLine<'_> {
    fn fmt<W: fmt::Write>(&self, f: &mut fmt::Formatter<W>) -> fmt::Result {
        let number = self.number;
        let label = self.clause.label();
        let operations = Flagged {
            book: self.book,
            flags: array::from_fn(|number| self.clause.applies_to(number)),
        };
        write!(f, "clause {number}: {label} on {operations}: ")?;
        for (place, when) in self.clause.whens().iter().enumerate() {
            let word = if place == 0 { "when" } else { " and" };
            let condition = Condition { when: *when };
            write!(f, "{word} {condition}")?;
        }
        if !self.clause.whens().is_empty() {
            write!(f, ", ")?;
        }
        match self.clause.action() {
            Some(action) => {
                let done = Done { action };
                write!(f, "{done}")
            }
            None => write!(f, "no action"),
        }
    }
}
