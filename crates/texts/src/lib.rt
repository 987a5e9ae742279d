// Texts as programs read them: why a file gives none, and the numbers that words stand for.
#![tactic(auto)]

pub mod number;
#[cfg(test)]
mod tests;
pub mod unread;
