// Answers the requests of a file by a run of the book and the policy of the current folder, on the
// plots of another file.
#![tactic(auto)]

mod asked;
mod lines;
mod reading;
#[cfg(test)]
mod tests;

use asked::{Line, Rehearsed, rehearse};
use book::table::Book;
use lines::{Answered, Plots};
use loading::found::found;
use loading::load::load;
use policy::table::Table;
use reading::{Fault, Problem, read_plots, read_requests};
use std::fs;

// What the two texts tell.
#[derive(Drop)]
struct Input {
    entries: Vec<u32>,
    lines: Vec<Line>,
}

// The text of a file. The fault is this program's own, in its own words: shared, this call would be generic in it.
fn read_text(rt: &HostRuntime, file: &'static str) -> Result<String, Fault> {
    fs::read_to_string(rt, file).map_err(|error| Fault {
        file,
        problem: Problem::from(error),
    })
}

// The entries of the plots.
fn read_entries(rt: &HostRuntime) -> Result<Vec<u32>, Fault> {
    let file = "plots.txt";
    let text = read_text(rt, file)?;
    read_plots(rt.alloc(), text.as_str()).map_err(|problem| Fault { file, problem })
}

// The requests, whose calls are named as in the book.
fn read_lines(rt: &HostRuntime, book: &Book) -> Result<Vec<Line>, Fault> {
    let file = "calls.txt";
    let text = read_text(rt, file)?;
    read_requests(rt.alloc(), book, text.as_str()).map_err(|problem| Fault { file, problem })
}

// The entries and the requests.
fn read_input(rt: &HostRuntime, book: &Book) -> Result<Input, Fault> {
    let entries = read_entries(rt)?;
    let lines = read_lines(rt, book)?;
    Ok(Input { entries, lines })
}

// Prints the answer to each request, and then the plots.
fn print_rehearsed(
    rt: &HostRuntime,
    lines: &[Line],
    rehearsed: &Rehearsed<'_>,
) -> anyhow::Result<()> {
    for (line, answer) in lines.iter().zip(rehearsed.answers.iter()) {
        let answered = Answered {
            text: line.text.as_str(),
            answer: *answer,
        };
        println!(rt; "{answered}")?;
    }
    let plots = Plots {
        entries: rehearsed.entries,
    };
    println!(rt; "{plots}")?;
    Ok(())
}

fn run(rt: &HostRuntime) -> anyhow::Result<()> {
    let book = found(fs::read(rt, "book.bin"))?;
    let policy = found(fs::read(rt, "policy.bin"))?;
    let mut table = Table::empty();
    // a fault, here and below, is what the program prints, and no error of its own
    if let Err(fault) = load(book.as_deref(), policy.as_deref(), &mut table) {
        println!(rt; "{fault}")?;
        return Ok(());
    }
    match read_input(rt, table.book()) {
        Ok(Input { mut entries, lines }) => {
            let rehearsed = rehearse(rt.alloc(), &table, entries.as_mut_slice(), lines.as_slice())?;
            print_rehearsed(rt, lines.as_slice(), &rehearsed)
        }
        Err(fault) => {
            println!(rt; "{fault}")?;
            Ok(())
        }
    }
}

fn main(rt: HostRuntime) -> anyhow::Result<()> {
    run(&rt)
}
