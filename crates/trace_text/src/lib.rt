//! The lines of a trace of calls, read exactly by their grammar: calls of clients, as `t0 malloc a 20000`, and what is
//! set or printed between them.
#![tactic(auto)]

mod faults;
mod lines;
mod names;
mod parts;
mod ranges;
mod reading;
mod usual;
mod verbs;

pub use faults::LineFault;
pub use lines::{Line, Ptr, Verb};
pub use names::Name;
pub use reading::read;
