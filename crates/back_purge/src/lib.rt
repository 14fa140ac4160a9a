//! The worker in the background: round after round, it has each arena give up the unused pages that are too old.
#![tactic(auto)]

mod decays;

pub use decays::rounds;
