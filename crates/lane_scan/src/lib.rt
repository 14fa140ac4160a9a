//! Single bits of lists of words, and scans of such lists, many lanes at a time: the lowest set bit, the number of
//! set bits, which values lie in a range, and whether a span meets one of many. Each scan gives what the plain scan
//! of its list gives, and no call takes memory.
#![tactic(auto)]

mod bits;
mod ranges;
mod words;

pub use bits::{clear_bit, has_bit, set_bit};
pub use ranges::{mark_inside, meets_any};
pub use words::{count_set, lowest_set};
