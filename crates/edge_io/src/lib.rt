//! The program's edge: sources of bytes to read and sinks of bytes to write, which may fail.
#![tactic(auto)]

mod edges;
mod memory;
mod quiet;
mod traits;
mod whole;

pub use edges::{ReadEdge, WriteEdge};
pub use memory::{MemSink, MemSource};
pub use quiet::Quiet;
pub use traits::{Failed, Sink, Source};
pub use whole::{write_all, write_whole};
