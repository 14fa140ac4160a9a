//! The map from pages to numbers: a table of two levels, in which only `reserve` takes memory.
#![tactic(auto)]

mod table;

pub use table::{CHUNK_PAGES, LEAVES, PAGES, PageMap};
