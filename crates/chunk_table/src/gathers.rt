//! What the seats of all arenas leave behind.
ghost use Rattle.std.specs.Prelude.{◌≡◌, ℕ, ◌≤◌, length, map};
ghost use Rattle.std.specs.List.{All, count_by};
ghost use Rattle.chunk_table.specs.Rule.{owns};
ghost use Rattle.chunk_table.specs.Tables.{arena_count, accounts, share_of, IsSeatOf};

use crate::rule::{Gathers, Looks, Place};
use crate::table::{ChunkBook, ChunkSeat, ChunkSeats, ChunkTable};

impl ChunkTable {
    /// Gathers the seats of all arenas to one book, which has what each of them had. No chunk stands in it for two arenas.
    pub fn gather(&self, given: ChunkSeats) -> ChunkBook
        requires table { All (IsSeatOf self.now) given.items }
        requires all { length given.items ≡ arena_count self.now }
        ensures accounts { accounts result ≡ map share_of given.items }
        ensures apart { (chunk : ℕ) → count_by (owns chunk) (accounts result) ≤ 1 }
    {
        let mut items = given;
        let Some(ChunkSeat { badge, number: _ }) = items.pop() else {
            unreachable!()
        };
        let mut place: Place = badge.into_seat();
        while let Some(ChunkSeat { badge, number: _ }) = items.pop() {
            self.table
                .shared
                .join_seat::<Gathers>(&mut place, badge.into_seat());
        }
        self.table.shared.load::<Looks>(&mut place, 0);
        ChunkBook {
            badge: place.into_badge(),
        }
    }
}
