// The file of a book: its commands, what each of them does to a book, and the reader that takes a
// book from a file.
#![tactic(auto)]

mod changes;
pub mod commands;
pub mod reading;
