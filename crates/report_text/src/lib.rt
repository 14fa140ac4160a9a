//! What a report prints: the lines of calls, of turns and asks, of counts, of bad input and of verdicts, as bytes.
//!
//! Addresses are `@` and lower-case hexadecimal digits without leading zeros, and all other numbers are decimal. A span
//! is the address of its first page, `+`, and how many pages it has. Each line ends with one newline.
#![tactic(auto)]

mod answers;
mod causes;
mod controls;
mod counts;
mod heads;
mod lines;
mod places;
mod rows;

pub use causes::Cause;
pub use controls::CtlAnswer;
pub use heads::Head;
pub use lines::{
    accepted_line, ask_line, bad_line, call_line, calls_line, counts_line, ctl_line, entries_line,
    idle_line, met_line, no_arena_line, no_entry_line, no_step_line, threads_line, turn_line,
    usage_line,
};
