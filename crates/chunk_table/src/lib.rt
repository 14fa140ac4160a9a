//! Which arena owns each chunk of the space, one atomic word a chunk.
#![tactic(auto)]

mod claims;
mod gathers;
mod laws;
mod makes;
mod rule;
mod table;
mod view;

pub use claims::Claim;
pub use laws::words_name_owners;
pub use table::{CHUNKS, ChunkBook, ChunkSeat, ChunkSeats, ChunkTable};
pub use view::{Look, Share, Taken};
