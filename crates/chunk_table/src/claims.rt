//! What a seat does to the words.
ghost use Rattle.std.specs.Prelude.{◌≡◌, ◌==◌, ◌+◌, ◌≤◌, ℕ, false, true, []};
ghost use Rattle.chunk_table.specs.Rule.{owns};
ghost use Rattle.chunk_table.specs.Steps.{alone, with_freed, with_looked};
ghost use Rattle.chunk_table.specs.Tables.{arena_count, number, share_of, IsSeatOf, IsChunk, ClaimTells};
ghost use Rattle.chunk_table.specs.Views.{IsOne, only_share};

use crate::rule::{Claims, Frees, Notices, Place};
use crate::table::{ChunkSeat, ChunkTable};
use crate::view::View;
use atomic_table::Badge;
use std::mem;

/// What a claim came to.
#[derive(Clone, Copy, Debug, PartialEq, Eq)]
pub enum Claim {
    /// The chunk was free, and is the arena's now.
    Claimed,
    /// The chunk is another arena's.
    Taken {
        /// The number of that arena and one, which is the word that was read.
        owner: u64,
    },
}

// The place at the words that a seat's badge stands for.
fn place_of(badge: Badge<View>) -> Place
    requires { IsOne badge.views }
    ensures table { result.table_id ≡ badge.table_id }
    ensures view { result.me ≡ (alone (only_share badge.views), []) }
{
    badge.into_seat()
}

impl ChunkTable {
    /// Claims a free chunk for the seat's arena, in one atomic step. A chunk that another arena owns stays as it is.
    ///
    /// Nothing waits and no memory is taken. The seat's arena must not own the chunk yet.
    pub fn claim(&self, seat: &mut ChunkSeat, chunk: u64) -> Claim
        requires table { IsSeatOf self.now seat.old }
        requires chunk { IsChunk chunk }
        requires other { owns chunk (share_of seat.old) ≡ false }
        ensures table { IsSeatOf self.now seat.new }
        ensures number { number seat.new ≡ number seat.old }
        ensures tells { ClaimTells (arena_count self.now) seat.old seat.new chunk result }
    {
        let mut place = place_of(mem::replace(&mut seat.badge, Badge::blank()));
        let mark = u64::from(seat.number) + 1;
        let found = self
            .table
            .shared
            .compare_exchange::<Claims>(&mut place, chunk as usize, 0, mark);
        seat.badge = place.into_badge();
        if found == 0 {
            Claim::Claimed
        } else {
            Claim::Taken { owner: found }
        }
    }

    /// Makes a chunk of the seat's arena free, in one atomic step.
    pub fn release(&self, seat: &mut ChunkSeat, chunk: u64)
        requires table { IsSeatOf self.now seat.old }
        requires chunk { IsChunk chunk }
        requires own { owns chunk (share_of seat.old) ≡ true }
        ensures table { IsSeatOf self.now seat.new }
        ensures number { number seat.new ≡ number seat.old }
        ensures free { share_of seat.new ≡ with_freed chunk (share_of seat.old) }
    {
        let mut place = place_of(mem::replace(&mut seat.badge, Badge::blank()));
        self.table
            .shared
            .store::<Frees>(&mut place, chunk as usize, 0);
        seat.badge = place.into_badge();
    }

    /// A chunk's word as it was at one moment of the call: 0 where the chunk is free, and else the number of the arena that owns it and
    /// one. The seat notes what was read.
    pub fn owner(&self, seat: &mut ChunkSeat, chunk: u64) -> u64
        requires table { IsSeatOf self.now seat.old }
        requires chunk { IsChunk chunk }
        ensures table { IsSeatOf self.now seat.new }
        ensures number { number seat.new ≡ number seat.old }
        ensures word { share_of seat.new ≡ with_looked chunk result (share_of seat.old) }
        ensures named { result ≤ arena_count self.now }
        ensures own { owns chunk (share_of seat.old) ≡ (result == number seat.old + 1) }
    {
        let mut place = place_of(mem::replace(&mut seat.badge, Badge::blank()));
        let found = self
            .table
            .shared
            .load::<Notices>(&mut place, chunk as usize);
        seat.badge = place.into_badge();
        found
    }

    /// Whether the seat's arena owns a chunk.
    pub fn owns(&self, seat: &mut ChunkSeat, chunk: u64) -> bool
        requires table { IsSeatOf self.now seat.old }
        requires chunk { IsChunk chunk }
        ensures table { IsSeatOf self.now seat.new }
        ensures number { number seat.new ≡ number seat.old }
        ensures word { (word : ℕ) × (share_of seat.new ≡ with_looked chunk word (share_of seat.old)) }
        ensures own { result ≡ owns chunk (share_of seat.old) }
    {
        self.owner(seat, chunk) == u64::from(seat.number) + 1
    }
}
