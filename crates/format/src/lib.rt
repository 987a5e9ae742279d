// Why files of commands are refused; what reading such a file means, and its law, stands in specs/.
#![tactic(auto)]

pub mod files;
pub mod reading;
pub mod refusal;
