// Why a clause, a cell or an operation is meaningful, and how many steps of a call are kept.
ghost use Rattle.std.specs.Prelude.{◌≡◌, ℕ, false, length, replicate, is_some, Decides};
ghost use Rattle.book.specs.Meaning.{cl_of};
ghost use Rattle.policy.specs.Meaning.{cs_of, policy_of};
ghost use Rattle.pruning.specs.Marking.{noted_all, marks_of};
ghost use Rattle.pruning.specs.Reasons.{tied, served, lowest_of, Lowest, Meaningful, MeaningfulOperation, why_of, operation_marked, kept_of, steps_of};
ghost use Rattle.pruning.specs.Rules.{terms_of, MeaningfulClause};

use crate::marking::note_clause;
use crate::marks::{Marks, Reason, StepCount, Tie, flag};
use book::table::Call;
use policy::table::{CELLS, Clause, Table};

// A table, and marks of its clauses and cells.
// That they are the table's own stays a premise of the clauses `own`: as an invariant it would ask more of callers.
#[derive(Clone, Copy)]
pub struct Marking<'a> {
    pub table: &'a Table,
    pub marks: &'a Marks,
}

impl Tie {
    // Whether the clause is tied so.
    // A match and no closure: clauses name the tie, and promise of a cell other than of an operation.
    fn holds(self, table: &Table, clause: &Clause) -> bool
        ensures { result ≡ tied (policy_of table.now) self (cs_of clause.now) }
    {
        match self {
            Tie::Reads(cell) => {
                let mut cells = [false; CELLS];
                note_clause(table, clause, &mut cells);
                flag(&cells, cell)
            }
            Tie::AppliesTo(operation) => clause.applies_to(operation),
        }
    }
}

impl Marking<'_> {
    // Whether the clause, of that number, is marked and tied so.
    fn serves(&self, tie: Tie, number: usize, clause: &Clause) -> bool
        ensures { result ≡ served (policy_of self.now.table.now) tie self.now.marks.now.clauses number (cs_of clause.now) }
    {
        self.marks.clause(number) && tie.holds(self.table, clause)
    }

    // Why the clause of that number is meaningful, or nothing where it is idle.
    pub fn why(&self, number: usize) -> Option<Reason>
        ensures is { result ≡ why_of (policy_of self.now.table.now) self.now.marks.now number }
        ensures own { self.now.marks.now ≡ marks_of (policy_of self.now.table.now) → Decides (is_some result) (MeaningfulClause (policy_of self.now.table.now) number) }
    {
        let clause = self.table.clauses().get(number)?;
        self.marks.reason_for(clause)
    }

    // The lowest marked clause that reads that cell, or that applies to that operation.
    pub fn lowest(&self, tie: Tie) -> Option<usize>
        ensures is { result ≡ lowest_of (policy_of self.now.table.now) tie self.now.marks.now }
        ensures first { Lowest (policy_of self.now.table.now) tie self.now.marks.now.clauses result }
        ensures own { self.now.marks.now ≡ marks_of (policy_of self.now.table.now) → Decides (is_some result) (Meaningful (policy_of self.now.table.now) tie) }
    {
        self.table
            .clauses()
            .iter()
            .enumerate()
            .position(|(number, clause)| self.serves(tie, number, clause))
    }

    // Whether a marked clause applies to the operation.
    fn is_marked(&self, operation: u8) -> bool
        ensures { result ≡ operation_marked (policy_of self.now.table.now) self.now.marks.now operation }
    {
        self.lowest(Tie::AppliesTo(operation as usize)).is_some()
    }

    // How many steps of the call are kept, those to whose operation a marked clause applies.
    fn count_kept(&self, call: &Call) -> usize
        ensures { result ≡ kept_of (policy_of self.now.table.now) self.now.marks.now (cl_of call.now) }
    {
        let afters = call.afters().iter().map(|after| after.operation);
        call.befores()
            .iter()
            .copied()
            .chain(afters)
            .filter(|operation| self.is_marked(*operation))
            .count()
    }

    // How many steps of the call are kept, and how many it has.
    pub fn count_steps(&self, call: &Call) -> StepCount
        ensures is { result ≡ steps_of (policy_of self.now.table.now) self.now.marks.now (cl_of call.now) }
        ensures own { self.now.marks.now ≡ marks_of (policy_of self.now.table.now) → (o : ℕ) → Decides (operation_marked (policy_of self.now.table.now) self.now.marks.now o) (MeaningfulOperation (policy_of self.now.table.now) o) }
    {
        StepCount {
            kept: self.count_kept(call),
            all: call.befores().len() + call.afters().len(),
        }
    }
}
