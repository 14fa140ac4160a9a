//! What a line of a control comes to: something to read, or a request (`mallctl` in the manual).
//!
//! `plan` goes by the row of the name in the table of `ctl_names`. It carries nothing out.
#![tactic(auto)]

mod plans;
mod steps;
mod values;
mod writes;

pub use plans::{Wish, plan};
pub use steps::{CtlStep, Times, Upkeep};
