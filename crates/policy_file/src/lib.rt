// The file of a policy: its commands, what each of them does to the full table, and the reader that
// takes a policy from a file against a book.
#![tactic(auto)]

mod changes;
pub mod commands;
pub mod reading;
mod terms;
