//! Trials of a replay over outsides that refuse, lie or fail. It has tests alone.
#![tactic(auto)]

#[cfg(test)]
mod tests;
