//! What a client of a heap and its call rest on, by what the client owns in each arena: laws that a heap of one thread and one that
//! threads share have in common.
#![tactic(auto)]

mod laws;

pub use laws::{asks_sit, own_sits, starts_sit, starves_sit, turns_sit};
