// What marking finds.
ghost use Rattle.std.specs.Prelude.{◌≡◌, false, slice_index_or};

use policy::table::{CELLS, CLAUSES};

// A flag for each clause and for each cell, raised where it is meaningful; the others are idle.
// Fixed arrays, as all tables here are: marks are copied, and nothing fails for want of memory.
#[derive(Clone, Copy, Debug, PartialEq, Eq)]
pub struct Marks {
    pub clauses: [bool; CLAUSES],
    pub cells: [bool; CELLS],
}

// Why a clause is meaningful: it violates, or it writes a meaningful cell.
#[derive(Clone, Copy, Debug, PartialEq, Eq)]
pub enum Reason {
    Violates,
    Writes(u8),
}

// What a clause may have to do with a cell, or with an operation.
#[derive(Clone, Copy, Debug, PartialEq, Eq)]
pub enum Tie {
    Reads(usize),
    AppliesTo(usize),
}

// Whether the flag of that number is raised.
pub(crate) fn flag(flags: &[bool], number: usize) -> bool
    ensures { result ≡ slice_index_or flags.now number false }
{
    flags.get(number).copied().unwrap_or(false)
}

// How many steps of a call are kept, and how many it has.
#[derive(Clone, Copy, Debug, PartialEq, Eq)]
pub struct StepCount {
    pub kept: usize,
    pub all: usize,
}

impl Marks {
    // Whether the clause of that number is marked.
    pub fn clause(&self, number: usize) -> bool
        ensures { result ≡ slice_index_or self.now.clauses number false }
    {
        flag(&self.clauses, number)
    }

    // Whether the cell of that number is marked.
    pub fn cell(&self, number: usize) -> bool
        ensures { result ≡ slice_index_or self.now.cells number false }
    {
        flag(&self.cells, number)
    }
}
