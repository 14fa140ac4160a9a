//! A heap whose arenas threads share, and the calls of its clients.
#![tactic(auto)]

mod cached;
mod calls;
mod closes;
mod heaps;
mod laws;
mod makes;
mod phases;
mod settings;
mod steps;

pub use cached::CachedFree;
pub use closes::Closed;
pub use heaps::{Ctx, SharedHeap};
pub use laws::{journals_are_legal, phases_add_up};
pub use phases::Job;
