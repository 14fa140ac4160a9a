//! The text of a journal: one line for each entry, which is read as it was printed.
//!
//! The words of a line are parted by one space each: the index of the arena, the client, the word of the operation and
//! its fields. A number is decimal digits without leading zeros, and one that is absent is `-`. A span is its first page
//! and its pages, and a truth value is 0 or 1. An entry has one text.
#![tactic(auto)]

mod faults;
mod fields;
mod labels;
mod printing;
mod reading;
mod tokens;
mod values;
mod widths;
mod writing;

pub use faults::ReadFault;
pub use printing::{print, put_journals};
pub use reading::read;
