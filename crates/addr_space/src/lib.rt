//! Boxes of hooks over a space of addresses: an honest box, one of which a call is refused, and one that answers what it is given.
#![tactic(auto)]

mod chunks;
mod lying;
mod nth;
mod shared;
mod space;
mod telling;

pub use lying::{LyingHooks, Places};
pub use nth::NthHooks;
pub use shared::SharedSpace;
pub use space::AddrSpace;
pub use telling::TellingHooks;
