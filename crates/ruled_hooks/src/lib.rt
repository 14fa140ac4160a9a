//! Boxes of hooks that follow rules, which are data: so another box needs no other program.
//!
//! A rule is a word: `3:pool:16384` says that at most 16384 pages of box 3 are out at once. `Rule::read` reads such words,
//! and [`RuledHooks`] is another box behind rules. Pages are 4096 bytes.
#![tactic(auto)]

mod ruled;
mod rules;
mod words;

pub use ruled::RuledHooks;
pub use rules::{Rule, Rules};
pub use words::read_rule;
