// A run: it is opened on a table and a register, answers requests, and hands the register back.
ghost use Rattle.book.specs.Meaning.{cl_of};
ghost use Rattle.policy.specs.Meaning.{table_of, policy_of};
ghost use Rattle.run.specs.Calls.{acted_on, put_into, given_before, given_after, befores_from, afters_from, by_afters, by_befores, call_for, call_of};
ghost use Rattle.run.specs.Given.{given_of};
ghost use Rattle.run.specs.Laws.{Leaves, Final, Reported, ByMarks};
ghost use Rattle.run.specs.Runs.{state_of, opened, cell_of, answer_of};
ghost use Rattle.std.specs.Prelude.{◌≡◌, Ok, Err, IfNone, MatchResult};
ghost use Rattle.std.specs.Option.{option_map};
ghost use Rattle.std.specs.List.{slice_get};

use crate::answers::{Answer, Mode, Refusal, Request};
use crate::cells::Cells;
use crate::given::Given;
use crate::held::Held;
use crate::steps::Rules;
use book::table::{Act, Call};
use policy::table::Table;
use register::register::Register;

// What a run owns: the table, its mode, the cells, and the register.
// No model and no invariant: callers name the register, and that a table stays is of two runs.
#[derive(Drop)]
pub struct Run<R> {
    pub(crate) table: Table,
    pub(crate) mode: Mode,
    pub(crate) held: Held,
    pub(crate) register: R,
}

// The fields that an act takes from its call: the plot, and the entry that is put there.
const PLOT: u8 = 1;

const ENTRY: u8 = 2;

// Goes to the register with a call's act: what it answers, or none where it refuses.
fn act_on<R: Register>(register: &mut R, act: Option<Act>, given: &Given) -> Option<u32>
    ensures is { option_map (λ a. (a, R.Register.meaning register.new)) result ≡ acted_on act (given_of given.now) (R.Register.meaning register.old) }
    ensures refused { IfNone result (R.Register.meaning register.new ≡ R.Register.meaning register.old) }
    ensures beside { R.Register.stays register.old register.new }
{
    match act {
        None => Some(0),
        Some(Act::Look) => register.look(given.fetch(PLOT)),
        Some(Act::Put) => register.put(given.fetch(PLOT), given.fetch(ENTRY)),
    }
}

impl<R: Register> Run<R> {
    // A run on that table and that register, with the cells' first values.
    pub fn open(table: &Table, register: R) -> Run<R>
        ensures is { state_of R.Register.meaning result ≡ opened (table_of table.now) (R.Register.meaning register) }
        ensures table { result.table ≡ table.now }
        ensures register { result.register ≡ register }
    {
        let cells = Cells::first(table);
        Run {
            table: *table,
            mode: Mode::Open,
            held: Held { cells, kept: cells },
            register,
        }
    }

    // Makes a call that takes that many values: the BEFOREs, the act, the AFTERs. It comes to an answer and not to a
    // `Result`: that it is denied, refused or stopped is an answer as good as that it is done.
    fn make(&mut self, call: &Call, values: &[u32]) -> Answer
        ensures is { record { answer = result; run = state_of R.Register.meaning self.new } ≡ by_befores (state_of R.Register.meaning self.old) (cl_of call.now) values.now (befores_from (policy_of self.old.table).clauses (given_before (cl_of call.now) values.now) 0 (cl_of call.now).befores (state_of R.Register.meaning self.old).cells) }
        ensures table { self.new.table ≡ self.old.table }
        ensures beside { R.Register.stays self.old.register self.new.register }
    {
        let given = Given {
            fields: call.fields(),
            values,
            answer: None,
        };
        let rules = Rules {
            table: &self.table,
            given,
        };
        if let Err(violation) = self.held.run_befores(&rules, call.befores()) {
            return Answer::Denied(violation);
        }
        let Some(answer) = act_on(&mut self.register, call.act(), &given) else {
            self.held.cells = self.held.kept;
            return Answer::Refused(Refusal::NoSuchPlot);
        };
        let rules = Rules {
            table: &self.table,
            given: Given {
                answer: Some(answer),
                ..given
            },
        };
        match self.held.run_afters(&rules, call.afters(), answer) {
            Ok(()) => Answer::Done(answer),
            Err(violation) => {
                self.mode = Mode::Stopped;
                Answer::Stopped(violation, answer)
            }
        }
    }

    // The call of that number, where it takes as many values.
    fn call_for(&self, number: u32, values: &[u32]) -> Result<Call, Refusal>
        ensures { let found = call_for values.now (slice_get (table_of self.now.table).book.calls number) in MatchResult result (λ c. found ≡ Ok (cl_of c)) (λ e. found ≡ Err e) }
    {
        let found = self.table.book().calls().get(number as usize);
        let call = found.ok_or(Refusal::NoSuchCall)?;
        if values.len() != call.fields().len() {
            return Err(Refusal::WrongCount);
        }
        Ok(*call)
    }

    // The value of a cell.
    pub fn cell(&self, number: u32) -> Result<Option<u32>, Refusal>
        ensures { result ≡ cell_of (state_of R.Register.meaning self.now) number }
    {
        let value = self.held.cells.get(number as usize);
        Ok(Some(value.ok_or(Refusal::NoSuchCell)?))
    }

    // Answers a request.
    pub fn answer(&mut self, request: Request) -> Answer
        ensures is { record { answer = result; run = state_of R.Register.meaning self.new } ≡ answer_of (state_of R.Register.meaning self.old) request.entry }
        ensures leaves { Leaves (state_of R.Register.meaning self.old) (record { answer = result; run = state_of R.Register.meaning self.new }) }
        ensures stopped { Final (state_of R.Register.meaning self.old) request.entry (record { answer = result; run = state_of R.Register.meaning self.new }) }
        ensures table { self.new.table ≡ self.old.table }
        ensures beside { R.Register.stays self.old.register self.new.register }
    {
        match (self.mode, request) {
            (_, Request::Cell(number)) => match self.cell(number) {
                Ok(Some(value)) => Answer::Value(value),
                Ok(None) => Answer::NotKept,
                Err(refusal) => Answer::Refused(refusal),
            },
            (Mode::Stopped, Request::Call(_, _)) => Answer::Refused(Refusal::Stopped),
            (Mode::Open, Request::Call(number, values)) => match self.call_for(number, values) {
                Ok(call) => self.make(&call, values),
                Err(refusal) => Answer::Refused(refusal),
            },
        }
    }

    // Makes a script call. The number and the values are a request's own two: the request is that struct.
    pub fn call(&mut self, number: u32, values: &[u32]) -> Answer
        ensures is { record { answer = result; run = state_of R.Register.meaning self.new } ≡ call_of (state_of R.Register.meaning self.old) number values.now }
        ensures leaves { Leaves (state_of R.Register.meaning self.old) (record { answer = result; run = state_of R.Register.meaning self.new }) }
        ensures reported { Reported (state_of R.Register.meaning self.old) number values.now result }
        ensures marks { ByMarks (state_of R.Register.meaning self.old) number values.now }
        ensures table { self.new.table ≡ self.old.table }
        ensures beside { R.Register.stays self.old.register self.new.register }
    {
        self.answer(Request::Call(number, values))
    }

    // Closes the run, and hands the register back.
    pub fn close(self) -> R
        ensures { result ≡ self.register }
    {
        self.register
    }
}
