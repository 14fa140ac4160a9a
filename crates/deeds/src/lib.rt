//! What a call of a client did: its turns and its asks, each with what came of it.
#![tactic(auto)]

mod deeds;
mod laws;

pub use deeds::{Deed, Doing, Told};
pub use laws::{calls_end_once, reallocs_leave, refusals_are_last};
