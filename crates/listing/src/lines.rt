// The lines of a listing, as values.
ghost use Rattle.book.specs.Meaning.{book_of};
ghost use Rattle.listing.specs.Lines.{lines_with, lines_of, word_of, shown_as};
ghost use Rattle.policy.specs.Meaning.{policy_of, table_of};
ghost use Rattle.std.specs.Prelude.{◌≡◌, IfOk, Some};

use policy::table::Table;
use pruning::marking::mark;
use pruning::marks::StepCount;
use pruning::reasons::Marking;
use std::alloc::{AllocError, Global};
use std::fmt;
use tables::name::Name;

// A line: a cell or a clause with its number and whether it is meaningful, or a call with its
// number, its name and its steps.
#[derive(Clone, Copy, Debug, PartialEq, Eq)]
pub enum Line {
    Cell(usize, bool),
    Clause(usize, bool),
    Call(usize, Name, StepCount),
}

// The word for a mark.
// A type of its own with a Display is no plainer: it has the same words, and wraps each mark.
fn word(meaningful: bool) -> &'static str
    ensures { result.now ≡ word_of meaningful }
{
    if meaningful { "meaningful" } else { "idle" }
}

impl fmt::Display for Line {
    ghost output = { λ l. Some (shown_as l) };

    fn fmt<W: fmt::Write>(&self, f: &mut fmt::Formatter<W>) -> fmt::Result {
        match *self {
            Line::Cell(number, meaningful) => {
                let word = word(meaningful);
                write!(f, "cell {number} {word}")
            }
            Line::Clause(number, meaningful) => {
                let word = word(meaningful);
                write!(f, "clause {number} {word}")
            }
            Line::Call(number, name, steps) => {
                let kept = steps.kept;
                let all = steps.all;
                write!(f, "call {number} {name} kept {kept} of {all}")
            }
        }
    }
}

// The lines of a table, with those marks of it.
fn lines(heap: Global, marking: &Marking) -> Result<Vec<Line>, AllocError>
    ensures { IfOk result (λ v. v.items ≡ lines_with (book_of marking.now.table.now.book) (policy_of marking.now.table.now) marking.now.marks.now) }
{
    let Marking { table, marks } = *marking;
    let cells = table.cells().iter().enumerate();
    let clauses = table.clauses().iter().enumerate();
    let calls = table.book().calls().iter().enumerate();
    cells
        .map(|(number, _)| Line::Cell(number, marks.cell(number)))
        .chain(clauses.map(|(number, _)| Line::Clause(number, marks.clause(number))))
        .chain(calls.map(|(number, call)| {
            let steps = marking.count_steps(call);
            Line::Call(number, call.name(), steps)
        }))
        .collect(heap)
}

// The lines of a table: its cells, its clauses and its calls, each in the order of the files.
pub fn listing(heap: Global, table: &Table) -> Result<Vec<Line>, AllocError>
    ensures { IfOk result (λ v. v.items ≡ lines_of (table_of table.now)) }
{
    let marks = mark(table);
    let marking = Marking {
        table,
        marks: &marks,
    };
    lines(heap, &marking)
}
