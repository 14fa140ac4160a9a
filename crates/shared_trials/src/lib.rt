//! Trials of a heap that threads share. It has tests alone.
#![tactic(auto)]

#[cfg(test)]
mod tests;
