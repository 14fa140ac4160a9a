//! Carries out the lines of a trace, one after another, and prints what the calls answer.
//!
//! `specs/` has the worlds, the play and the report as definitions of their own: a world is a heap with the names, the moment and
//! the text so far, and a play is a list of events, each of which can come next where it comes. The runner makes the steps of
//! the heap that the lines ask for, one event each, and prints what that event prints.
#![tactic(auto)]

mod beginnings;
mod calls;
mod controls;
mod counts;
mod input;
mod laws;
mod lines;
mod names;
mod prints;
mod replays;
mod soaks;
mod state;
mod sweeps;
mod tally;
mod wholes;

pub use laws::{answers_have_causes, memaligns_are_aligned};
pub use replays::{Closing, Replayed, replay};
pub use soaks::soak;
