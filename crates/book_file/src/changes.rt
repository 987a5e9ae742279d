// What each command does to a book: the tests in the order of their numbers, and then the change.
#![tactic(auto, using(crate::proofs::Names::meanings))]

ghost use Rattle.std.specs.Prelude.{◌≡◌, [], ◌∷◌, ◌++◌, map, Some, None, OnOk};
ghost use Rattle.book.specs.Meaning.{op_of, cl_of, book_of, operation_places, call_places};
ghost use Rattle.book_file.specs.Law.{operation_name, call_name};
ghost use Rattle.book_file.specs.Changes.{SamePlaces};
ghost use Rattle.book_file.specs.Tests.{judged, begun, mark_judged, name_judged, step_judged};
ghost use Rattle.book_file.specs.declared.commands.Command.TheVariants.{Operation as OPERATION, Field as FIELD, Call as CALL, Before as BEFORE, Act as ACT, After as AFTER};
ghost use Rattle.format.specs.Format.{place_of};
ghost use Rattle.format.specs.declared.refusal.Refusal.TheVariants.{OutOfTurn};
ghost use Rattle.std.specs.Result.{MatchResult};
ghost use Rattle.tables.specs.Lists.{last_of};
ghost use Rattle.format.specs.Refusals.{told};

use crate::commands::Command;
use book::marks::{ANSWER, has, has_all};
use book::table::{Act, Book, CALLS, Call, Condition, FIELDS, MARKS, OPERATIONS, Operation, STEPS};
use format::refusal::Refusal;
use tables::lookup::{Named, find};
use tables::name::{Name, Placed};

// Whether a step or the act has come, after which the call takes no field.
fn has_begun(call: &Call) -> bool
    ensures { result ≡ begun (cl_of call.now) }
{
    !call.befores().is_empty() || call.act().is_some()
}

// The call begun last.
fn last_call(book: &Book) -> Result<&Call, Refusal>
    ensures { MatchResult result (λ call. last_of (book_of book.now).calls ≡ Some (cl_of call.now)) (λ e. (e ≡ OutOfTurn) × (last_of (book_of book.now).calls ≡ None)) }
{
    book.calls().last().ok_or(Refusal::OutOfTurn)
}

// The tests on one more mark beside those, of which there may be so many, and none that is reserved.
fn check_mark(marks: &[u8], most: usize, reserved: &[u8], mark: u8) -> Result<(), Refusal>
    ensures { told result tt ≡ mark_judged marks.now most reserved.now mark }
{
    if marks.len() >= most {
        return Err(Refusal::OverCount);
    }
    if has(reserved, mark) {
        return Err(Refusal::Outside);
    }
    if has(marks, mark) {
        return Err(Refusal::Taken);
    }
    Ok(())
}

// The tests on the name of one more record beside those, of which there may be so many.
fn check_name<T: Named>(records: &[T], most: usize, name: &Name) -> Result<(), Refusal>
    ensures { told result tt ≡ name_judged (map T.Named.name records.now) most name.now.letters }
{
    if records.len() >= most {
        return Err(Refusal::OverCount);
    }
    if !name.is_proper() {
        return Err(Refusal::Outside);
    }
    if find(records, name).is_some() {
        return Err(Refusal::Taken);
    }
    Ok(())
}

// The tests on a step of the operation of that number, filled from the given marks and the fields.
fn check_step(
    operations: &[Operation],
    number: u8,
    given: &[u8],
    fields: &[u8],
) -> Result<(), Refusal>
    ensures { told result tt ≡ step_judged (map op_of operations.now) number (given.now ++ fields.now) }
{
    let operation = operations
        .get(usize::from(number))
        .ok_or(Refusal::Undefined)?;
    if !has_all(given, fields, operation.marks()) {
        return Err(Refusal::MarkMissing);
    }
    Ok(())
}

// OPERATION: begins an operation.
fn add_operation(book: &mut Book, placed: Placed) -> Result<(), Refusal>
    ensures is { told result (book_of book.new) ≡ judged (book_of book.old) (OPERATION placed.name) }
    ensures operations { OnOk result (operation_places book.new ≡ operation_places book.old ++ placed.place ∷ []) }
    ensures calls { call_places book.new ≡ call_places book.old }
{
    if !book.calls().is_empty() {
        return Err(Refusal::OutOfTurn);
    }
    check_name(book.operations(), OPERATIONS, &placed.name)?;
    book.push_operation(placed);
    Ok(())
}

// CALL: begins a call.
fn add_call(book: &mut Book, placed: Placed) -> Result<(), Refusal>
    ensures is { told result (book_of book.new) ≡ judged (book_of book.old) (CALL placed.name) }
    ensures operations { operation_places book.new ≡ operation_places book.old }
    ensures calls { OnOk result (call_places book.new ≡ call_places book.old ++ placed.place ∷ []) }
{
    check_name(book.calls(), CALLS, &placed.name)?;
    book.push_call(placed);
    Ok(())
}

// SamePlaces stands in each contract from here on: no invariant of one book can tie two of them.

// FIELD: one more mark of the call begun last or, before all calls, of the operation begun last.
fn add_field(book: &mut Book, mark: u8) -> Result<(), Refusal>
    ensures is { told result (book_of book.new) ≡ judged (book_of book.old) (FIELD mark) }
    ensures places { SamePlaces book.old book.new }
{
    if let Some(call) = book.calls().last() {
        if has_begun(call) {
            return Err(Refusal::OutOfTurn);
        }
        check_mark(call.fields(), FIELDS, &[0, ANSWER], mark)?;
        book.push_field(mark);
    } else {
        let operation = book.operations().last().ok_or(Refusal::OutOfTurn)?;
        check_mark(operation.marks(), MARKS, &[0], mark)?;
        book.push_mark(mark);
    }
    Ok(())
}

// BEFORE: one more step before the act of the call begun last.
fn add_before(book: &mut Book, number: u8) -> Result<(), Refusal>
    ensures is { told result (book_of book.new) ≡ judged (book_of book.old) (BEFORE number) }
    ensures places { SamePlaces book.old book.new }
{
    let call = last_call(book)?;
    if call.act().is_some() {
        return Err(Refusal::OutOfTurn);
    }
    if call.befores().len() >= STEPS {
        return Err(Refusal::OverCount);
    }
    check_step(book.operations(), number, &[], call.fields())?;
    book.push_before(number);
    Ok(())
}

// ACT: the act of the call begun last.
fn add_act(book: &mut Book, act: u8) -> Result<(), Refusal>
    ensures is { told result (book_of book.new) ≡ judged (book_of book.old) (ACT act) }
    ensures places { SamePlaces book.old book.new }
{
    let call = last_call(book)?;
    if call.act().is_some() {
        return Err(Refusal::OutOfTurn);
    }
    let act = Act::try_from(act)?;
    if !has_all(&[], call.fields(), act.needs()) {
        return Err(Refusal::MarkMissing);
    }
    book.set_act(act);
    Ok(())
}

// AFTER: one more step after the act of the call begun last.
fn add_after(book: &mut Book, number: u8, when: u8) -> Result<(), Refusal>
    ensures is { told result (book_of book.new) ≡ judged (book_of book.old) (AFTER number when) }
    ensures places { SamePlaces book.old book.new }
{
    let call = last_call(book)?;
    if call.act().is_none() {
        return Err(Refusal::OutOfTurn);
    }
    if call.afters().len() >= STEPS {
        return Err(Refusal::OverCount);
    }
    let condition = Condition::try_from(when)?;
    check_step(book.operations(), number, &[ANSWER], call.fields())?;
    book.push_after(number, condition);
    Ok(())
}

// The command that begins at that offset of the file.
// The match stays: each command has its own operands, so a table of functions would be no plainer.
pub(crate) fn obey(book: &mut Book, command: Command, offset: u16) -> Result<(), Refusal>
    ensures is { told result (book_of book.new) ≡ judged (book_of book.old) command }
    ensures operations { OnOk result (operation_places book.new ≡ operation_places book.old ++ place_of (operation_name command) offset) }
    ensures calls { OnOk result (call_places book.new ≡ call_places book.old ++ place_of (call_name command) offset) }
{
    match command {
        Command::Operation(name) => add_operation(book, Placed::behind(name, offset, 1)),
        Command::Field(mark) => add_field(book, mark),
        Command::Call(name) => add_call(book, Placed::behind(name, offset, 1)),
        Command::Before(number) => add_before(book, number),
        Command::Act(number) => add_act(book, number),
        Command::After(number, when) => add_after(book, number, when),
    }
}
