// Burial registers: one interface with its meaning, a register over lent numbers, and two grounds joined.
#![tactic(auto)]

pub mod flat;
pub mod joined;
pub mod register;
#[cfg(test)]
mod tests;
