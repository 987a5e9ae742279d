// Records the burials of a file in an old ground and its extension, and prints what each found.
#![tactic(auto)]

mod burials;
mod lines;
mod reading;
#[cfg(test)]
mod tests;

use burials::{Burial, Recorded, record_burials};
use lines::{Ground, Outcome};
use reading::{Fault, Problem, read_burials, read_entries};
use std::fs;

// The numbers of the three files.
#[derive(Drop)]
struct Input {
    old: Vec<u32>,
    extension: Vec<u32>,
    burials: Vec<Burial>,
}

// The text of a file. The fault is this program's own, in its own words: shared, this call would be generic in it.
fn read_text(rt: &HostRuntime, file: &'static str) -> Result<String, Fault> {
    fs::read_to_string(rt, file).map_err(|error| Fault {
        file,
        problem: Problem::from(error),
    })
}

// The entries of a ground.
fn read_ground(rt: &HostRuntime, file: &'static str) -> Result<Vec<u32>, Fault> {
    let text = read_text(rt, file)?;
    read_entries(rt.alloc(), text.as_str()).map_err(|problem| Fault { file, problem })
}

// The numbers of the three files, the old ground first.
fn read_input(rt: &HostRuntime) -> Result<Input, Fault> {
    let old = read_ground(rt, "old.txt")?;
    let extension = read_ground(rt, "extension.txt")?;
    let file = "burials.txt";
    let text = read_text(rt, file)?;
    let burials = read_burials(rt.alloc(), text.as_str()).map_err(|problem| Fault {
        file,
        problem,
    })?;
    Ok(Input {
        old,
        extension,
        burials,
    })
}

fn print_recorded(
    rt: &HostRuntime,
    burials: &[Burial],
    recorded: &Recorded<'_>,
) -> anyhow::Result<()> {
    let old_plots = recorded.old_plots;
    let extension_plots = recorded.extension_plots;
    let joined_plots = recorded.joined_plots;
    println!(rt;
        "plots: {old_plots} in the old ground, {extension_plots} in the extension, {joined_plots} joined"
    )?;
    for (burial, found) in burials.iter().zip(recorded.found.iter()) {
        let outcome = Outcome {
            burial: *burial,
            found: *found,
        };
        println!(rt; "{outcome}")?;
    }
    let old = Ground {
        entries: recorded.old,
    };
    println!(rt; "old ground now:\n{old}")?;
    let extension = Ground {
        entries: recorded.extension,
    };
    println!(rt; "extension now:\n{extension}")?;
    Ok(())
}

fn run(rt: &HostRuntime) -> anyhow::Result<()> {
    match read_input(rt) {
        Ok(
            Input {
                mut old,
                mut extension,
                burials,
            },
        ) => {
            let recorded = record_burials(
                rt.alloc(),
                old.as_mut_slice(),
                extension.as_mut_slice(),
                burials.as_slice(),
            )?;
            print_recorded(rt, burials.as_slice(), &recorded)
        }
        // a fault is what the program prints, and no error of its own
        Err(fault) => {
            println!(rt; "{fault}")?;
            Ok(())
        }
    }
}

fn main(rt: HostRuntime) -> anyhow::Result<()> {
    run(&rt)
}
