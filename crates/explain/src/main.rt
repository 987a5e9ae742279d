// Prints the book and the policy of the current folder in words, for whoever reviews a change.
#![tactic(auto)]

mod book_lines;
mod policy_lines;
#[cfg(test)]
mod tests;

use book::table::{Book, Call};
use book_lines::{ActLine, AfterLine, BeforeLine, CallLine, OperationLine};
use loading::found::found;
use loading::load::{load_book, load_policy};
use policy::table::Table;
use policy_lines::{CellLine, ClauseLine, GroupLine};
use std::fs;

// The parts of a call, in the order in which they run.
fn print_parts(rt: &HostRuntime, book: &Book, call: &Call) -> anyhow::Result<()> {
    for (place, number) in call.befores().iter().enumerate() {
        if let Some(operation) = book.operations().get(usize::from(*number)) {
            let line = BeforeLine { place, operation };
            println!(rt; "{line}")?;
        }
    }
    if let Some(act) = call.act() {
        let line = ActLine { act };
        println!(rt; "{line}")?;
    }
    for (place, after) in call.afters().iter().enumerate() {
        if let Some(operation) = book.operations().get(usize::from(after.operation)) {
            let line = AfterLine {
                place,
                operation,
                condition: after.condition,
            };
            println!(rt; "{line}")?;
        }
    }
    Ok(())
}

fn print_book(rt: &HostRuntime, book: &Book) -> anyhow::Result<()> {
    for (number, operation) in book.operations().iter().enumerate() {
        let line = OperationLine { number, operation };
        println!(rt; "{line}")?;
    }
    for (number, call) in book.calls().iter().enumerate() {
        let line = CallLine { number, call };
        println!(rt; "{line}")?;
        print_parts(rt, book, call)?;
    }
    Ok(())
}

fn print_policy(rt: &HostRuntime, table: &Table) -> anyhow::Result<()> {
    let book = table.book();
    for (number, first) in table.cells().iter().copied().enumerate() {
        let line = CellLine { number, first };
        println!(rt; "{line}")?;
    }
    // what a group covers is asked by its number, and nothing else of the group is printed
    for number in 0..table.groups().len() {
        let covers = table.coverage(number);
        let line = GroupLine {
            number,
            book,
            covers,
        };
        println!(rt; "{line}")?;
    }
    for (number, clause) in table.clauses().iter().enumerate() {
        let line = ClauseLine {
            number,
            book,
            clause,
        };
        println!(rt; "{line}")?;
    }
    Ok(())
}

// Reads the policy against the book and prints both, or the policy's fault.
fn explain(rt: &HostRuntime, book: &Book) -> anyhow::Result<()> {
    let file = found(fs::read(rt, "policy.bin"))?;
    let mut table = Table::empty();
    // a fault, here and below, is what the program prints, and no error of its own
    if let Err(fault) = load_policy(file.as_deref(), book, &mut table) {
        println!(rt; "{fault}")?;
        return Ok(());
    }
    print_book(rt, table.book())?;
    print_policy(rt, &table)
}

// Prints both files, or the one fault; the policy is opened, and a table made, only where the book is read.
fn run(rt: &HostRuntime) -> anyhow::Result<()> {
    let file = found(fs::read(rt, "book.bin"))?;
    let mut book = Book::empty();
    if let Err(fault) = load_book(file.as_deref(), &mut book) {
        println!(rt; "{fault}")?;
        return Ok(());
    }
    explain(rt, &book)
}

fn main(rt: HostRuntime) -> anyhow::Result<()> {
    run(&rt)
}
