// A step: the clauses of its operation, in the order of the file.
ghost use Rattle.policy.specs.Meaning.{cs_of, policy_of};
ghost use Rattle.run.specs.Calls.{after_step};
ghost use Rattle.run.specs.Cells.{cells_of};
ghost use Rattle.run.specs.Given.{given_of};
ghost use Rattle.run.specs.Steps.{term_value, compared, holds as holds_at, all_hold, written, acted, acts as acts_at, step_from, violates};
ghost use Rattle.std.specs.Prelude.{◌≡◌};
ghost use Rattle.std.specs.Result.{result_err};

use crate::answers::{Phase, Violation};
use crate::cells::Cells;
use crate::given::Given;
use policy::table::{Action, Clause, Comparison, Table, Term, When, Write};

// Two values compared.
fn compare(comparison: Comparison, left: u32, right: u32) -> bool
    ensures { result ≡ compared comparison left right }
{
    match comparison {
        Comparison::Equal => left == right,
        Comparison::Unequal => left != right,
        Comparison::Less => left < right,
        Comparison::AtMost => left <= right,
    }
}

// A cell's value after a write by that value.
fn write(change: Write, old: u32, by: u32) -> u32
    ensures { result ≡ written change old by }
{
    match change {
        Write::Set => by,
        Write::Add => old.saturating_add(by),
        Write::Take => old.saturating_sub(by),
    }
}

// A moment of a step: what fills the marks, and the cells as they then are.
#[derive(Clone, Copy)]
struct Moment<'a, 'b, 'c> {
    given: &'a Given<'b, 'c>,
    cells: &'a Cells,
}

impl Moment<'_, '_, '_> {
    // The value of a term.
    fn value_of(&self, term: Term) -> u32
        ensures { result ≡ term_value (given_of self.now.given.now) (cells_of self.now.cells.now) term }
    {
        match term {
            Term::Number(number) => number,
            Term::Field(mark) => self.given.fetch(mark),
            Term::Cell(number) => self.cells.value(number as usize),
        }
    }

    // Whether a condition holds.
    fn holds(&self, when: When) -> bool
        ensures { result ≡ holds_at (given_of self.now.given.now) (cells_of self.now.cells.now) when }
    {
        let left = self.value_of(when.left);
        let right = self.value_of(when.right);
        compare(when.comparison, left, right)
    }

    // Whether all conditions of a clause hold.
    fn all_hold(&self, clause: &Clause) -> bool
        ensures { result ≡ all_hold (given_of self.now.given.now) (cells_of self.now.cells.now) (cs_of clause.now).whens }
    {
        clause.whens().iter().all(|when| self.holds(*when))
    }

    // Whether the clause acts in a step of that operation.
    fn acts(&self, clause: &Clause, operation: u8) -> bool
        ensures { result ≡ acts_at operation (given_of self.now.given.now) (cells_of self.now.cells.now) (cs_of clause.now) }
    {
        clause.applies_to(operation as usize) && self.all_hold(clause)
    }

    // The cells after an action.
    fn after(&self, action: Option<Action>) -> Cells
        ensures { cells_of result ≡ acted (given_of self.now.given.now) (cells_of self.now.cells.now) action }
    {
        let mut cells = *self.cells;
        if let Some(Action::Write(change, cell, term)) = action {
            let number = cell as usize;
            let old = cells.value(number);
            cells.set(number, write(change, old, self.value_of(term)));
        }
        cells
    }
}

// What the steps of a phase go by: the table, and what fills the marks.
#[derive(Clone, Copy)]
pub(crate) struct Rules<'a, 'b, 'c> {
    pub(crate) table: &'a Table,
    pub(crate) given: Given<'b, 'c>,
}

impl Rules<'_, '_, '_> {
    // Runs the step at a place of its phase on the cells, up to a clause that violates.
    pub(crate) fn step(
        &self,
        phase: Phase,
        place: usize,
        operation: u8,
        cells: &mut Cells,
    ) -> Result<(), Violation>
        ensures { record { cells = cells_of cells.exit.now; violation = result_err result } ≡ after_step phase place operation (step_from operation (given_of self.now.given) 0 (policy_of self.now.table.now).clauses (cells_of cells.entry.now)) (λ c. record { cells = c; violation = None }) }
    {
        // A loop and no chain: nothing would be known of cells that a closure changes.
        for (number, clause) in self.table.clauses().iter().enumerate() {
            let moment = Moment {
                given: &self.given,
                cells,
            };
            if moment.acts(clause, operation) {
                let action = clause.action();
                if let Some(Action::Violate) = action {
                    return Err(Violation {
                        phase,
                        place,
                        operation,
                        clause: number,
                    });
                }
                *cells = moment.after(action);
            }
        }
        Ok(())
    }
}
