// The tables of a policy: its cells, groups and clauses, how they change and what may be asked of
// them, and the naming of calls and clauses.
#![tactic(auto)]

pub mod changes;
pub mod clauses;
pub mod comparisons;
pub mod groups;
pub mod naming;
pub mod questions;
pub mod table;
