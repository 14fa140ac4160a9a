//! Replays whose hooks refuse or lie, whose source or sink fails, each call of them once, and whose lines are bad.

mod hooks;
mod lines;
mod lying;
mod refusing;
mod runs;
mod streams;
