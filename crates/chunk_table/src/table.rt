//! The words of all chunks, the seats at them, and the book that the seats leave.
ghost use Rattle.std.specs.Prelude.{◌≡◌, ◌<◌};
ghost use Rattle.chunk_table.specs.Views.{IsOne, only_share};

use crate::rule::Board;
use crate::view::View;
use atomic_table::Badge;

/// How many chunks the space has. They are numbered from 1.
pub const CHUNKS: u64 = 1_048_575;

/// Which arena owns each chunk. Threads share it by reference.
///
/// A chunk's word is 0 where the chunk is free, and the number of its arena and one where it is owned.
#[derive(Drop)]
pub struct ChunkTable {
    pub(crate) table: Board,
    ghost sized: { (table.shared.table_id.words ≡ 1048576) × (table.shared.table_id.slots ≡ 0) },
    ghost some: { 0 < table.shared.key },
}

/// The right of one arena to claim chunks and to release its own. It has no lifetime, and may go to another thread.
#[derive(Drop)]
pub struct ChunkSeat {
    pub(crate) badge: Badge<View>,
    pub(crate) number: u32,
    ghost one: { IsOne badge.views },
    ghost mine: { (only_share badge.views).number ≡ number },
}

/// The seats of several arenas.
pub type ChunkSeats = Vec<ChunkSeat>;

/// What each arena owned, and its failed claims. It has no bytes: only contracts read it.
#[derive(Drop)]
pub struct ChunkBook {
    pub(crate) badge: Badge<View>,
}
