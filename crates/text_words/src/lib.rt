//! The words of a line, and the numbers that words write.
//!
//! `Words::new(line, separator)` goes over the words of a line from front to back, and contracts see it as the list of
//! the words that are left. `decimal` and `hexadecimal` read a whole word as a number below 2^64 and tell why it is
//! none; `number` and `number_below` give a decimal number or nothing.
#![tactic(auto)]

mod faults;
mod numbers;
mod words;

pub use faults::NumberFault;
pub use numbers::{decimal, hexadecimal, number, number_below};
pub use words::Words;
