//! How a table of chunks and its seats are made.
ghost use Rattle.std.specs.Prelude.{◌≡◌, ℕ, ◌<◌, ◌≤◌, [], length, map, slice_index, vec_capacity, IfOk};
ghost use Rattle.std.specs.List.{All};
ghost use Rattle.chunk_table.specs.Rule.{blanks};
ghost use Rattle.chunk_table.specs.Tables.{arena_count, failed, owned, share_of, IsSeatOf};

use crate::rule::{Board, Parts, Place};
use crate::table::{CHUNKS, ChunkSeat, ChunkSeats, ChunkTable};
use atomic_table::Table;
use std::alloc::{AllocError as NoMemory, Global};

// So many words that are 0.
fn zeros(alloc: Global, count: usize) -> Result<Vec<u64>, NoMemory>
    ensures count { IfOk result (λ words. length words.items ≡ count) }
    ensures zero { IfOk result (λ words. (i : ℕ) → slice_index words.items i ≡ 0) }
{
    vec![in alloc; 0; count]
}

impl ChunkTable {
    // Parts the seat of all arenas into one for each.
    fn deal(&self, arenas: u32, mut place: Place, items: &mut Vec<ChunkSeat>)
        requires some { (0 < arenas) × (arena_count self.now ≡ arenas) }
        requires place { (place.table_id ≡ self.now.table.shared.table_id) × (place.me.0.shares ≡ blanks arenas) × (place.me.1 ≡ []) }
        requires room { (items.old.items ≡ []) × (arenas ≤ vec_capacity items.old) }
        ensures shares { map share_of items.new.items ≡ blanks arenas }
        ensures table { All (IsSeatOf self.now) items.new.items }
    {
        for number in 0..arenas - 1 {
            let others = self.table.shared.split_seat::<Parts>(&mut place);
            items.push_reserved(ChunkSeat {
                badge: place.into_badge(),
                number,
            });
            place = others;
        }
        items.push_reserved(ChunkSeat {
            badge: place.into_badge(),
            number: arenas - 1,
        });
    }

    /// A table in which every chunk is free, and one seat for each arena, in order of their numbers, which begin with 0.
    pub fn new(alloc: Global, arenas: u32) -> Result<(ChunkTable, ChunkSeats), NoMemory>
        requires some { 0 < arenas }
        ensures arenas { IfOk result (λ r. arena_count r.0 ≡ arenas) }
        ensures table { IfOk result (λ r. All (IsSeatOf r.0) r.1.items) }
        ensures free { IfOk result (λ r. map share_of r.1.items ≡ blanks arenas) }
        ensures none { IfOk result (λ r. All (λ seat. owned seat ≡ []) r.1.items) }
        ensures unfailed { IfOk result (λ r. All (λ seat. failed seat ≡ []) r.1.items) }
    {
        let words = zeros(alloc, CHUNKS as usize + 1)?;
        let mut items = Vec::new(alloc);
        items.reserve(arenas as usize)?;
        let (table, place): (Board, Place) = Table::of_words(alloc, &words, &arenas)?;
        let table = ChunkTable { table };
        table.deal(arenas, place, &mut items);
        Ok((table, items))
    }
}
