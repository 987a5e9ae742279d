// Worked cases of files that are read or refused, and of tables that are marked.
#![tactic(auto)]

#[cfg(test)]
mod books;
#[cfg(test)]
mod files;
#[cfg(test)]
mod loads;
#[cfg(test)]
mod marks;
#[cfg(test)]
mod policies;
#[cfg(test)]
mod runs;
pub mod worked;
