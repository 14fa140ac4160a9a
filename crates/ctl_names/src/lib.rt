//! The names of controls (`mallctl` in the manual).
//!
//! Each row of one table has a pattern, what a plain line of its names comes to, and what a write comes to. `read` finds
//! the row of a name, with the indexes in it; no name has two rows.
#![tactic(auto)]

mod names;
mod rows;

pub use names::{CtlError, CtlName, read};
pub use rows::{
    Action, ArenaReading, ClassCount, ClassReading, OnPlain, OnWrite, ROW_COUNT, Reading, Row,
    row_of,
};
