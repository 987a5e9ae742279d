// The marking: one clause after another, until none is due.
ghost use Rattle.std.specs.Prelude.{◌≡◌, ℕ, Bool, true, false, Decides, length, slice_index_or, slice_set};
ghost use Rattle.policy.specs.Meaning.{cs_of, policy_of};
ghost use Rattle.pruning.specs.Marking.{Marked, reason_of, noted, noted_all, due, next_of, marked_at, no_marks, marks_of};
ghost use Rattle.pruning.specs.Rules.{Obeys, Chosen, MeaningfulClause, MeaningfulCell, when_terms, action_terms, terms_of};

use crate::marks::{Marks, Reason};
use policy::table::{Action, CELLS, CLAUSES, Clause, Table, Term, When};

// Raises the flag of that number, where there is one.
// By its index: no contract says what a slice ends as after a write through its `get_mut`.
fn raise(flags: &mut [bool], number: usize)
    ensures { flags.new ≡ slice_set flags.old number true }
{
    if number < flags.len() {
        flags[number] = true;
    }
}

// Marks the cell of a term, in a policy with as many cells as there are flags.
fn note(term: Term, cells: &mut [bool])
    ensures { cells.new ≡ noted (length cells.old) term cells.old }
{
    if let Term::Cell(number) = term {
        raise(cells, number as usize);
    }
}

// Marks the cells in the terms of a condition.
fn note_when(when: When, cells: &mut [bool])
    ensures { cells.new ≡ noted_all (length cells.old) (when_terms when) cells.old }
{
    note(when.left, cells);
    note(when.right, cells);
}

// Marks the cell in the term of an action.
fn note_action(action: Option<Action>, cells: &mut [bool])
    ensures { cells.new ≡ noted_all (length cells.old) (action_terms action) cells.old }
{
    if let Some(Action::Write(_, _, term)) = action {
        note(term, cells);
    }
}

// Marks the cells that stand in the terms of a clause: those of its conditions and of its action.
fn note_terms(clause: &Clause, cells: &mut [bool])
    ensures { cells.new ≡ noted_all (length cells.old) (terms_of (cs_of clause.now)) cells.old }
{
    for when in clause.whens() {
        note_when(*when, cells);
    }
    note_action(clause.action(), cells);
}

// Marks the cells of the table that stand in the terms of a clause.
// A whole array, not a slice: it has a flag for each cell that a table can have, whatever the table.
pub(crate) fn note_clause(table: &Table, clause: &Clause, cells: &mut [bool; CELLS])
    ensures { cells.new ≡ noted_all (length (policy_of table.now).cells) (terms_of (cs_of clause.now)) cells.old }
{
    let count = table.cells().len();
    note_terms(clause, &mut cells[..count]);
}

impl Marks {
    // No marks.
    fn none() -> Marks
        ensures { result ≡ no_marks }
    {
        Marks {
            clauses: [false; CLAUSES],
            cells: [false; CELLS],
        }
    }

    // Why the clause is to be marked, by its action and the marks of the cells.
    pub(crate) fn reason_for(&self, clause: &Clause) -> Option<Reason>
        ensures { result ≡ reason_of (cs_of clause.now).action self.now.cells }
    {
        match clause.action()? {
            Action::Violate => Some(Reason::Violates),
            Action::Write(_, cell, _) => {
                let marked = self.cell(cell as usize);
                marked.then_some(Reason::Writes(cell))
            }
        }
    }

    // Whether the clause, of that number, is not marked and is to be.
    fn is_due(&self, number: usize, clause: &Clause) -> bool
        ensures { result ≡ due number (cs_of clause.now) self.now }
    {
        !self.clause(number) && self.reason_for(clause).is_some()
    }

    // The first clause that is due.
    fn next(&self, table: &Table) -> Option<usize>
        ensures { result ≡ next_of (policy_of table.now) self.now }
    {
        table
            .clauses()
            .iter()
            .enumerate()
            .position(|(number, clause)| self.is_due(number, clause))
    }

    // Marks the clause of that number, and the cells that stand in its terms.
    fn choose(&mut self, table: &Table, number: usize)
        ensures { self.new ≡ marked_at (policy_of table.now) number self.old }
    {
        raise(&mut self.clauses, number);
        if let Some(clause) = table.clauses().get(number) {
            note_clause(table, clause, &mut self.cells);
        }
    }
}

// The marks of all clauses and cells: the least that obey the three rules.
pub fn mark(table: &Table) -> Marks
    ensures is { result ≡ marks_of (policy_of table.now) }
    ensures obeys { Obeys (policy_of table.now) (Marked result.clauses) (Marked result.cells) }
    ensures least { (C D : ℕ → Bool) → Obeys (policy_of table.now) (Chosen C) (Chosen D) → ((i : ℕ) → Marked result.clauses i → Chosen C i) × ((d : ℕ) → Marked result.cells d → Chosen D d) }
    ensures exact { ((i : ℕ) → Decides (slice_index_or result.clauses i false) (MeaningfulClause (policy_of table.now) i)) × ((d : ℕ) → Decides (slice_index_or result.cells d false) (MeaningfulCell (policy_of table.now) d)) }
{
    let mut marks = Marks::none();
    while let Some(number) = marks.next(table) {
        marks.choose(table, number);
    }
    marks
}
