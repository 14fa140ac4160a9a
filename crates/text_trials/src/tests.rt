//! What lines of a trace say and names of settings ask for, how a report says what came of them, and the texts of journals.

mod ctl;
mod journals;
mod lines;
mod phases;
mod reading;
mod reports;
mod soaks;
mod stats;
mod workers;
