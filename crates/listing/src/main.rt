// Lists, for the book and the policy of the current folder, which cells and clauses are meaningful
// and how many steps of each call are kept.
#![tactic(auto)]

mod lines;

use lines::listing;
use loading::found::found;
use loading::load::load;
use policy::table::Table;
use std::fs;

fn run(rt: &HostRuntime) -> anyhow::Result<()> {
    let book = found(fs::read(rt, "book.bin"))?;
    let policy = found(fs::read(rt, "policy.bin"))?;
    let mut table = Table::empty();
    // a fault is what the program prints, and no error of its own
    if let Err(fault) = load(book.as_deref(), policy.as_deref(), &mut table) {
        println!(rt; "{fault}")?;
        return Ok(());
    }
    for line in &listing(rt.alloc(), &table)? {
        println!(rt; "{line}")?;
    }
    Ok(())
}

fn main(rt: HostRuntime) -> anyhow::Result<()> {
    run(&rt)
}
