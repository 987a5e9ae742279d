// The tables of a book: its operations and calls, how they change and what may be asked of them.
#![tactic(auto)]

pub mod books;
pub mod calls;
pub mod changes;
pub mod marks;
pub mod operands;
pub mod operations;
pub mod table;
