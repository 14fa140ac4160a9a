//! Trials of a heap: calls of several clients in one thread, and turns of threads that share arenas. It has tests alone.
#![tactic(auto)]

#[cfg(test)]
mod tests;
