//! The explicit caches of one client (`tcache.create` in the manual's MALLCTL NAMESPACE): up to eight, each with an identifier.
#![tactic(auto)]

mod sets;

pub use sets::{CacheSet, MOST_CACHES};
