//! The regions that a client holds, found by their addresses.
#![tactic(auto)]

mod slots;
mod table;

pub use table::RegionTable;
