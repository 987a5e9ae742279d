// A client of a run: it lends its numbers to a run for the time of one script call.
#![tactic(auto)]

ghost use Rattle.policy.specs.Meaning.{table_of};
ghost use Rattle.register.specs.Plots.{cut};
ghost use Rattle.run.specs.Calls.{call_of};
ghost use Rattle.run.specs.Runs.{opened};
ghost use Rattle.std.specs.Prelude.{◌≡◌};

use policy::table::Table;
use register::flat::Flat;
use run::answers::Answer;
use run::run::Run;

// Opens a run on a flat register over the numbers, makes one call and closes the run.
pub fn call_once(table: &Table, numbers: &mut [u32], number: u32, values: &[u32]) -> Answer
    ensures { result ≡ (call_of (opened (table_of table.now) (cut numbers.old)) number values.now).answer }
{
    let ground = Flat::new(numbers);
    let mut run = Run::open(table, ground);
    let answer = run.call(number, values);
    let _ = run.close();
    answer
}
