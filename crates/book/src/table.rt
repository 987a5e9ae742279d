// The types of a book: tables are arrays in plain structs.
use tables::name::Placed;
use tables::rows::Rows;

// The most operations, and the most calls, of a book.
pub const OPERATIONS: usize = 64;

pub const CALLS: usize = 64;

// The most marks of an operation.
pub const MARKS: usize = 6;

// The most fields of a call, and the most steps on either side of its act.
pub const FIELDS: usize = 8;

pub const STEPS: usize = 8;

// What a call asks of the register: to look at a plot, or to put an entry there.
#[derive(Clone, Copy, Debug, PartialEq, Eq)]
pub enum Act {
    Look,
    Put,
}

// When a step after the act is taken: always, where the register's answer is not 0, or where it is 0.
#[derive(Clone, Copy, Debug, PartialEq, Eq)]
pub enum Condition {
    Always,
    NotZero,
    Zero,
}

// A step after the act: its operation's number, and when it is taken.
#[derive(Clone, Copy, Debug, PartialEq, Eq)]
pub struct After {
    pub operation: u8,
    pub condition: Condition,
}

// An operation: its name and where that stands in the file, and its marks.
#[derive(Clone, Copy)]
pub struct Operation {
    pub(crate) placed: Placed,
    pub(crate) marks: Rows<u8, MARKS>,
}

// A call: its name and where that stands in the file, the marks of its fields, and its steps
// before its act, its act where it has one, and its steps after.
#[derive(Clone, Copy)]
pub struct Call {
    pub(crate) placed: Placed,
    pub(crate) fields: Rows<u8, FIELDS>,
    pub(crate) befores: Rows<u8, STEPS>,
    pub(crate) act: Option<Act>,
    pub(crate) afters: Rows<After, STEPS>,
}

// A book: its operations and its calls, each numbered from 0 in the order of the file.
#[derive(Clone, Copy)]
pub struct Book {
    pub(crate) operations: Rows<Operation, OPERATIONS>,
    pub(crate) calls: Rows<Call, CALLS>,
}
