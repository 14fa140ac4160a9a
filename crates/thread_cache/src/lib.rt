//! What a client keeps of the regions that it has: a cache of those that it may hand out again without a turn.
#![tactic(auto)]

mod caches;
mod stacks;

pub use caches::Cache;
pub use stacks::Put;

/// A region that a client has.
#[derive(Clone, Copy, Debug, PartialEq, Eq)]
pub struct Held {
    /// The address of its first byte.
    pub addr: u64,
    /// The index of its arena.
    pub arena: u32,
    /// Its size class, below 121.
    pub class: u8,
}
