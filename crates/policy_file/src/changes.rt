// What each command does to a table: the tests in the order of their numbers, and then the change.
#![tactic(auto, using(book::proofs::Slices::slices))]

ghost use Rattle.std.specs.Prelude.{◌≡◌, not, [], ◌∷◌, ◌++◌, true, false, Some, None, OnOk};
ghost use Rattle.book.specs.Meaning.{book_of};
ghost use Rattle.format.specs.Format.{place_of};
ghost use Rattle.format.specs.Refusals.{told};
ghost use Rattle.format.specs.declared.refusal.Refusal.TheVariants.{OutOfTurn};
ghost use Rattle.policy.specs.Policies.{unfinished};
ghost use Rattle.policy.specs.Meaning.{gr_of, cs_of, policy_of, label_places};
ghost use Rattle.policy_file.specs.Changes.{SameBeside};
ghost use Rattle.policy_file.specs.Law.{as_member, as_target, label_name};
ghost use Rattle.policy_file.specs.Tests.{judged, undefined};
ghost use Rattle.policy_file.specs.declared.commands.Command.TheVariants.{Cell as CELL, Group as GROUP, When as WHEN, Violate as VIOLATE, Write as WRITE};
ghost use Rattle.std.specs.Result.{MatchResult};
ghost use Rattle.tables.specs.Lists.{last_of};

use crate::commands::{Command, RawTerm};
use format::refusal::Refusal;
use policy::table::{
    Action, CELLS, CLAUSES, Clause, Comparison, GROUPS, Group, MEMBERS, Member, Table, Target,
    WHENS, When, Write,
};
use tables::name::{Name, Placed};

// The group begun last.
fn last_group(table: &Table) -> Result<&Group, Refusal>
    ensures { MatchResult result (λ group. last_of (policy_of table.now).groups ≡ Some (gr_of group.now)) (λ e. (e ≡ OutOfTurn) × (last_of (policy_of table.now).groups ≡ None)) }
{
    table.groups().last().ok_or(Refusal::OutOfTurn)
}

// The clause begun last, while it wants its action.
fn open_clause(table: &Table) -> Result<&Clause, Refusal>
    ensures { MatchResult result (λ clause. (last_of (policy_of table.now).clauses ≡ Some (cs_of clause.now)) × (unfinished (policy_of table.now) ≡ true)) (λ e. (e ≡ OutOfTurn) × (unfinished (policy_of table.now) ≡ false)) }
{
    let clause = table.clauses().last().ok_or(Refusal::OutOfTurn)?;
    if clause.action().is_some() {
        return Err(Refusal::OutOfTurn);
    }
    Ok(clause)
}

// SameBeside stands in most contracts below: no invariant of one table can tie two of them.

// CELL: one more cell, with its first value.
fn add_cell(table: &mut Table, first: u32) -> Result<(), Refusal>
    ensures is { told result (policy_of table.new) ≡ judged (book_of table.old.book) (policy_of table.old) (CELL first) }
    ensures beside { SameBeside table.old table.new }
{
    if !table.groups().is_empty() || !table.clauses().is_empty() {
        return Err(Refusal::OutOfTurn);
    }
    if table.cells().len() >= CELLS {
        return Err(Refusal::OverCount);
    }
    table.push_cell(first);
    Ok(())
}

// GROUP: begins a group.
fn add_group(table: &mut Table) -> Result<(), Refusal>
    ensures is { told result (policy_of table.new) ≡ judged (book_of table.old.book) (policy_of table.old) GROUP }
    ensures beside { SameBeside table.old table.new }
{
    if !table.clauses().is_empty() {
        return Err(Refusal::OutOfTurn);
    }
    if table.groups().len() >= GROUPS {
        return Err(Refusal::OverCount);
    }
    table.push_group();
    Ok(())
}

// Whether the member is an operation of the book, or a group lower than the one begun last.
fn is_member(table: &Table, member: Member) -> bool
    ensures { not result ≡ undefined (book_of table.now.book).operations (policy_of table.now) (as_member member) }
{
    match member {
        Member::Has(operation) => table
            .book()
            .operations()
            .get(usize::from(operation))
            .is_some(),
        Member::Nest(inner) => usize::from(inner) + 1 < table.groups().len(),
    }
}

// HAS, NEST: one more member of the group begun last.
fn add_member(table: &mut Table, member: Member) -> Result<(), Refusal>
    ensures is { told result (policy_of table.new) ≡ judged (book_of table.old.book) (policy_of table.old) (as_member member) }
    ensures beside { SameBeside table.old table.new }
{
    if !table.clauses().is_empty() {
        return Err(Refusal::OutOfTurn);
    }
    let group = last_group(table)?;
    if group.members().len() >= MEMBERS {
        return Err(Refusal::OverCount);
    }
    if !is_member(table, member) {
        return Err(Refusal::Undefined);
    }
    table.push_member(member);
    Ok(())
}

// Whether the target is an operation of the book or a group of the table.
fn is_target(table: &Table, target: Target) -> bool
    ensures { (label : Name) → not result ≡ undefined (book_of table.now.book).operations (policy_of table.now) (as_target target label) }
{
    match target {
        Target::Operation(operation) => table
            .book()
            .operations()
            .get(usize::from(operation))
            .is_some(),
        Target::Group(group) => table.groups().get(usize::from(group)).is_some(),
    }
}

// ON, ONGROUP: begins a clause on that target.
fn add_clause(table: &mut Table, target: Target, label: Placed) -> Result<(), Refusal>
    ensures is { told result (policy_of table.new) ≡ judged (book_of table.old.book) (policy_of table.old) (as_target target label.name) }
    ensures book { table.new.book ≡ table.old.book }
    ensures places { OnOk result (label_places table.new ≡ label_places table.old ++ label.place ∷ []) }
{
    if table.is_unfinished() {
        return Err(Refusal::OutOfTurn);
    }
    if table.clauses().len() >= CLAUSES {
        return Err(Refusal::OverCount);
    }
    if !label.name.is_proper() {
        return Err(Refusal::Outside);
    }
    if !is_target(table, target) {
        return Err(Refusal::Undefined);
    }
    if table.has_label(&label.name) {
        return Err(Refusal::Taken);
    }
    table.push_clause(target, label);
    Ok(())
}

// WHEN: one more condition of the clause begun last.
fn add_when(table: &mut Table, number: u8, left: RawTerm, right: RawTerm) -> Result<(), Refusal>
    ensures is { told result (policy_of table.new) ≡ judged (book_of table.old.book) (policy_of table.old) (WHEN number left right) }
    ensures beside { SameBeside table.old table.new }
{
    let clause = open_clause(table)?;
    if clause.whens().len() >= WHENS {
        return Err(Refusal::OverCount);
    }
    let comparison = Comparison::try_from(number)?;
    if !left.is_known() || !right.is_known() {
        return Err(Refusal::Outside);
    }
    let left = left.term(table).ok_or(Refusal::Undefined)?;
    let right = right.term(table).ok_or(Refusal::Undefined)?;
    if table.lacks(clause, left) || table.lacks(clause, right) {
        return Err(Refusal::MarkMissing);
    }
    table.push_when(When {
        comparison,
        left,
        right,
    });
    Ok(())
}

// VIOLATE: ends the clause begun last with a violation.
fn add_violate(table: &mut Table) -> Result<(), Refusal>
    ensures is { told result (policy_of table.new) ≡ judged (book_of table.old.book) (policy_of table.old) VIOLATE }
    ensures beside { SameBeside table.old table.new }
{
    open_clause(table)?;
    table.set_action(Action::Violate);
    Ok(())
}

// SET, ADD, TAKE: ends the clause begun last with a write of a cell.
fn add_write(table: &mut Table, write: Write, cell: u8, value: RawTerm) -> Result<(), Refusal>
    ensures is { told result (policy_of table.new) ≡ judged (book_of table.old.book) (policy_of table.old) (WRITE write cell value) }
    ensures beside { SameBeside table.old table.new }
{
    let clause = open_clause(table)?;
    if !value.is_known() {
        return Err(Refusal::Outside);
    }
    if usize::from(cell) >= table.cells().len() {
        return Err(Refusal::Undefined);
    }
    let term = value.term(table).ok_or(Refusal::Undefined)?;
    if table.lacks(clause, term) {
        return Err(Refusal::MarkMissing);
    }
    table.set_action(Action::Write(write, cell, term));
    Ok(())
}

// The command that begins at that offset of the file.
// The match stays: each command has its own operands, so a table of functions would be no plainer.
pub(crate) fn obey(table: &mut Table, command: Command, offset: u16) -> Result<(), Refusal>
    ensures is { told result (policy_of table.new) ≡ judged (book_of table.old.book) (policy_of table.old) command }
    ensures book { table.new.book ≡ table.old.book }
    ensures places { OnOk result (label_places table.new ≡ label_places table.old ++ place_of (label_name command) offset) }
{
    match command {
        Command::Cell(first) => add_cell(table, first),
        Command::Group => add_group(table),
        Command::Has(operation) => add_member(table, Member::Has(operation)),
        Command::Nest(inner) => add_member(table, Member::Nest(inner)),
        Command::On(operation, label) => {
            add_clause(
                table,
                Target::Operation(operation),
                Placed::behind(label, offset, 2),
            )
        }
        Command::OnGroup(group, label) => {
            add_clause(
                table,
                Target::Group(group),
                Placed::behind(label, offset, 2),
            )
        }
        Command::When(comparison, left, right) => add_when(table, comparison, left, right),
        Command::Violate => add_violate(table),
        Command::Write(write, cell, value) => add_write(table, write, cell, value),
    }
}
