//! A ticket lock whose history is the replay of what happened under it.
#![tactic(auto)]

mod closes;
mod laws;
mod lock;
mod machine;
mod makes;
mod rule;
mod turns;
mod view;

pub use laws::free_turn;
pub use lock::{Pass, Passes, TurnLock};
pub use machine::Machine;
pub use view::Turn;
