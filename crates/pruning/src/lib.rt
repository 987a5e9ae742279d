// Which clauses and cells of a policy are meaningful, why they are, and which steps of a call are
// kept for them.
#![tactic(auto)]

pub mod marking;
pub mod marks;
pub mod reasons;
