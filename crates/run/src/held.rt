// The cells of a run while a call is made: what they hold, and what they held when it began.
ghost use Rattle.policy.specs.Meaning.{policy_of};
ghost use Rattle.run.specs.Calls.{after_step, befores_from, tried_of, met_by, afters_from};
ghost use Rattle.run.specs.Cells.{cells_of};
ghost use Rattle.run.specs.Given.{given_of};
ghost use Rattle.run.specs.Steps.{step_from};
ghost use Rattle.std.specs.Prelude.{◌≡◌, OnOk};
ghost use Rattle.std.specs.Result.{result_err};

use crate::answers::{Phase, Violation};
use crate::cells::Cells;
use crate::steps::Rules;
use book::table::{After, Condition};

// The cells, and their copy from when the call began.
#[derive(Clone, Copy)]
pub struct Held {
    pub(crate) cells: Cells,
    pub(crate) kept: Cells,
}

// Cells that are being tried: let go, they are written back whole to what was kept.
pub(crate) struct Trial<'a> {
    held: &'a mut Held,
}

impl Drop for Trial<'_> {
    fn drop(self)
        ensures { self.exit.0.now.cells ≡ self.entry.held.now.kept }
    {
        let kept = self.held.kept;
        self.held.cells = kept;
        let Trial { held: _ } = self;
    }
}

impl Trial<'_> {
    // Runs the BEFORE at a place on the cells.
    fn step(&mut self, rules: &Rules, place: usize, operation: u8) -> Result<(), Violation>
        ensures cells { record { cells = cells_of self.new.held.now.cells; violation = result_err result } ≡ after_step Phase.Before place operation (step_from operation (given_of rules.now.given) 0 (policy_of rules.now.table.now).clauses (cells_of self.old.held.now.cells)) (λ c. record { cells = c; violation = None }) }
        ensures lender { self.new.held.ghost_name ≡ self.old.held.ghost_name }
        ensures kept { self.new.held.now.kept ≡ self.old.held.now.kept }
    {
        rules.step(Phase::Before, place, operation, &mut self.held.cells)
    }

    // The cells stay as they are.
    fn keep(self)
        ensures { self.exit.0.now ≡ self.entry.held.now }
    {
        let Trial { held: _ } = self;
    }
}

// Whether the condition of an AFTER holds of the register's answer.
fn is_met(condition: Condition, answer: u32) -> bool
    ensures { result ≡ met_by condition answer }
{
    match condition {
        Condition::Always => true,
        Condition::NotZero => answer != 0,
        Condition::Zero => answer == 0,
    }
}

// The two phases stay two loops: a guard is lent the cells of the one, and each step of the other has a condition.
impl Held {
    // Runs the BEFOREs; a violation puts every cell back to what it held.
    pub(crate) fn run_befores(&mut self, rules: &Rules, befores: &[u8]) -> Result<(), Violation>
        ensures cells { record { cells = cells_of self.new.cells; result = result } ≡ tried_of (cells_of self.old.cells) (befores_from (policy_of rules.now.table.now).clauses (given_of rules.now.given) 0 befores.now (cells_of self.old.cells)) }
        ensures kept { OnOk result (self.new.kept ≡ self.old.cells) }
    {
        self.kept = self.cells;
        let mut trial = Trial { held: self };
        for (place, operation) in befores.iter().enumerate() {
            trial.step(rules, place, *operation)?;
        }
        trial.keep();
        Ok(())
    }

    // Runs the AFTERs whose condition holds of the register's answer, up to a violation.
    pub(crate) fn run_afters(
        &mut self,
        rules: &Rules,
        afters: &[After],
        answer: u32,
    ) -> Result<(), Violation>
        ensures { record { cells = cells_of self.new.cells; violation = result_err result } ≡ afters_from (policy_of rules.now.table.now).clauses (given_of rules.now.given) answer 0 afters.now (cells_of self.old.cells) }
    {
        for (place, after) in afters.iter().enumerate() {
            if is_met(after.condition, answer) {
                rules.step(Phase::After, place, after.operation, &mut self.cells)?;
            }
        }
        Ok(())
    }
}
