// The requests of a rehearsal, and the answers to them.
ghost use Rattle.policy.specs.Meaning.{table_of};
ghost use Rattle.register.specs.Plots.{cut, most};
ghost use Rattle.rehearse.specs.Rehearsals.{asked_of, answers_of, after_all};
ghost use Rattle.run.specs.Runs.{state_of, opened};
ghost use Rattle.std.specs.Prelude.{◌≡◌, ◌++◌, drop, IfOk, OnOk};

use policy::table::Table;
use register::flat::Flat;
use register::register::Register;
use run::answers::{Answer, Request};
use run::run::Run;
use std::alloc::{AllocError, Global};

// A script call by its number, with its values, or a question about a cell.
#[derive(Debug, Drop, PartialEq, Eq)]
pub enum Asked {
    Call { number: u32, values: Vec<u32> },
    Cell(u32),
}

// A request as it was read: its line, and what it asks.
#[derive(Debug, Drop, PartialEq, Eq)]
pub struct Line {
    pub text: String,
    pub asked: Asked,
}

// The answers to all requests, and the entries, handed back. The requests stay the caller's, so the answers are a list
// in their order.
#[derive(Drop)]
pub struct Rehearsed<'a> {
    pub answers: Vec<Answer>,
    pub entries: &'a mut [u32],
}

// Answers one request.
fn answer_one<R: Register>(run: &mut Run<R>, asked: &Asked) -> Answer
    ensures is { record { answer = result; run = state_of R.Register.meaning run.new } ≡ asked_of (state_of R.Register.meaning run.old) asked.now }
    ensures beside { R.Register.stays run.old.register run.new.register }
{
    let request = match asked {
        Asked::Call { number, values } => Request::Call(*number, values.as_slice()),
        Asked::Cell(number) => Request::Cell(*number),
    };
    run.answer(request)
}

// Answers all requests in order; without memory for the answers none is made.
pub(crate) fn answer_all<R: Register>(
    heap: Global,
    run: &mut Run<R>,
    lines: &[Line],
) -> Result<Vec<Answer>, AllocError>
    ensures answers { IfOk result (λ v. v.items ≡ answers_of (state_of R.Register.meaning run.old) lines.now) }
    ensures left { OnOk result (state_of R.Register.meaning run.new ≡ after_all (state_of R.Register.meaning run.old) lines.now) }
    ensures beside { R.Register.stays run.old.register run.new.register }
{
    let mut answers = Vec::with_capacity(heap, lines.len())?;
    for line in lines {
        answers.push_reserved(answer_one(run, &line.asked));
    }
    Ok(answers)
}

// Opens a run of the table on a flat register over the entries, answers all requests and closes
// the run.
pub(crate) fn rehearse<'a>(
    heap: Global,
    table: &Table,
    entries: &'a mut [u32],
    lines: &[Line],
) -> Result<Rehearsed<'a>, AllocError>
    ensures answers { IfOk result (λ d. d.answers.items ≡ answers_of (opened (table_of table.now) (cut entries.old)) lines.now) }
    ensures entries { IfOk result (λ d. d.entries.now ≡ (after_all (opened (table_of table.now) (cut entries.old)) lines.now).plots ++ drop most entries.old) }
{
    let mut run = Run::open(table, Flat::new(entries));
    let answers = answer_all(heap, &mut run, lines)?;
    Ok(Rehearsed {
        answers,
        entries: run.close().into_numbers(),
    })
}
