// From the bytes of a book and of a policy, or their absence, to the full table or to the one fault.
#![tactic(auto)]

pub mod fault;
pub mod found;
pub mod load;
