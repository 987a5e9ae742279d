// What every table of named records is built of: rows, names and looking up by name.
#![tactic(auto)]

pub mod lookup;
pub mod name;
pub mod rows;
#[cfg(test)]
mod tests;
