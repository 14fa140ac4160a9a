//! Trials of the texts: lines of traces as they are read, lines of reports as they are written, and entries of journals,
//! which are written and read. It has tests alone.
#![tactic(auto)]

#[cfg(test)]
mod tests;
