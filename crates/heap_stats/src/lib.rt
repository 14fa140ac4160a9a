//! Statistics: the counts of all arenas as they were at a moment, one number of them, and their text as JSON.
#![tactic(auto)]

mod laws;
mod reports;
mod snapshots;
mod values;

pub use laws::counts_are_small;
pub use reports::json;
pub use snapshots::{Count, Snapshot, Whose};
