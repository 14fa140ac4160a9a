//! The phases of a trace: which lines of it real threads may carry out, in which order, and the first line that they can't.
//!
//! Between `phase` and `join` each client that is named is a worker of its own, and nothing orders one client's calls among
//! those of another. So what the lines of a phase name must not depend on that order: a name stands in the lines of one
//! client alone there, and a region goes to another client only where it was published in an earlier phase. Outside phases
//! the arenas and boxes are set, one line behind the other.
#![tactic(auto)]

mod check;
mod course;
mod faults;
pub mod laws;
mod names;
mod parts;

pub use faults::{PhaseCause, PhaseFault};
pub use parts::{
    Lines, NumberedLine, Part, Phase, PhaseCall, Phases, Setting, SettingCall, Work, Works,
};
