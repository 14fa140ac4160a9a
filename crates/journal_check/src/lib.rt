//! Judges printed journals: whether each line is an entry that may stand where it comes, in the journal of the arena that it
//! names, and whether the arenas that all lines leave own no chunk together.
#![tactic(auto)]

mod arenas;
mod checks;
pub mod laws;
mod logs;
mod meetings;
mod says;
#[cfg(test)]
mod tests;
mod verdicts;

pub use checks::check;
pub use verdicts::{End, Ends, Verdict};
