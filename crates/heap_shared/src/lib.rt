//! An arena that threads share: its steps are turns of a ticket lock.
#![tactic(auto)]

mod claims;
mod machine;
mod turns;

pub use machine::{ArenaTurns, OwnedBy, SharedArena};
pub use turns::turn;
