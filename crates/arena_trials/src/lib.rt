//! Trials of an arena: scripts and random operations that the arena over its indexes and the slow machine both carry out.
//! It has tests alone.
#![tactic(auto)]

#[cfg(test)]
mod tests;
