// A run: it owns a table, the cells and a register, and answers script calls and questions about
// cells.
#![tactic(auto)]

pub mod answers;
pub mod cells;
pub mod given;
pub mod held;
pub mod run;
pub mod steps;
