//! The lines of a trace that a recurrence draws from a number: mallocs, frees and purges of four clients.
//!
//! Each draw moves the recurrence on. A line draws a client and one of 256 slots: where the slot has an owner, that client
//! frees the slot's region, and else the client that was drawn allocates for the slot, of a size that two more draws tell.
//! Every 64th line purges arena 0, and draws nothing.
#![tactic(auto)]

mod draws;
mod source;

pub use source::Lines;
