// The tables of a policy, as they lie in memory.
use book::table::{Book, OPERATIONS};
use tables::name::Placed;
use tables::rows::Rows;

// The most cells, groups and clauses of a policy.
pub const CELLS: usize = 128;

pub const GROUPS: usize = 32;

pub const CLAUSES: usize = 256;

// The most members of a group.
pub const MEMBERS: usize = 16;

// The most conditions of a clause.
pub const WHENS: usize = 3;

// What an action does to its cell: it stores a value, adds it or takes it away.
#[derive(Clone, Copy, Debug, PartialEq, Eq)]
pub enum Write {
    Set,
    Add,
    Take,
}

// A value that a clause reads: a number, the field of a mark, or a cell.
#[derive(Clone, Copy, Debug, PartialEq, Eq)]
pub enum Term {
    Number(u32),
    Field(u8),
    Cell(u8),
}

// How the left term of a condition compares with its right one.
#[derive(Clone, Copy, Debug, PartialEq, Eq)]
pub enum Comparison {
    Equal,
    Unequal,
    Less,
    AtMost,
}

// A condition of a clause.
#[derive(Clone, Copy, Debug, PartialEq, Eq)]
pub struct When {
    pub comparison: Comparison,
    pub left: Term,
    pub right: Term,
}

// What a clause does where all its conditions hold: it ends the step with a violation, or writes a
// cell.
#[derive(Clone, Copy, Debug, PartialEq, Eq)]
pub enum Action {
    Violate,
    Write(Write, u8, Term),
}

// A member of a group: an operation, or a group of a lower number.
#[derive(Clone, Copy, Debug, PartialEq, Eq)]
pub enum Member {
    Has(u8),
    Nest(u8),
}

// What a clause is on: an operation, or a group.
#[derive(Clone, Copy, Debug, PartialEq, Eq)]
pub enum Target {
    Operation(u8),
    Group(u8),
}

// A group: its members, in the order of the file.
#[derive(Clone, Copy)]
pub struct Group {
    pub(crate) members: Rows<Member, MEMBERS>,
}

// A clause: its label and where that stands in the file, what it is on, for each operation
// whether the clause applies to it, its conditions, and its action where that has come.
#[derive(Clone, Copy)]
pub struct Clause {
    pub(crate) label: Placed,
    pub(crate) target: Target,
    // fixed, as all tables here: a flag for each operation that a book can have
    pub(crate) covers: [bool; OPERATIONS],
    pub(crate) whens: Rows<When, WHENS>,
    pub(crate) action: Option<Action>,
}

// The full table: a book, and the cells, groups and clauses of a policy, each numbered from 0 in
// the order of the file.
#[derive(Clone, Copy)]
pub struct Table {
    pub(crate) book: Book,
    pub(crate) cells: Rows<u32, CELLS>,
    pub(crate) groups: Rows<Group, GROUPS>,
    pub(crate) clauses: Rows<Clause, CLAUSES>,
}
