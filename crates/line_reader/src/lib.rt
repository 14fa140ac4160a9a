//! Lines of a source of bytes, read one behind the other, each within a limit that the caller gives.
#![tactic(auto)]

mod lines;
mod stops;

pub use lines::{Found, Pending, find_line};
pub use stops::Stop;
