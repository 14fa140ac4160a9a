//! How a heap begins.
ghost use Rattle.std.specs.Prelude.{◌≡◌, ◌++◌, ◌∷◌, ◌<◌, ◌≤◌, [], length, IfOk, OnOk};
ghost use Rattle.std.specs.Arc.{arc_value};
ghost use Rattle.std.specs.List.{All};
ghost use Rattle.atomic_table.specs.Seated.{TableId};
ghost use Rattle.hook_api.specs.declared.seat.AskSeat.{AskSeat};
ghost use Rattle.heap_runs.specs.Heaps.{MayCall};
ghost use Rattle.chunk_table.specs.Tables.{failed, owned, share_of, IsSeatOf};
ghost use Rattle.heap_runs.specs.Deals.{AreFresh, AreGiven, IsAdded, IsNew, IsNext};

use crate::heaps::{Ctx, SharedHeap};
use call_plan::Desk;
use chunk_table::{ChunkSeat, ChunkTable};
use heap_shared::{ArenaTurns, SharedArena};
use hook_api::AskSeats;
use std::alloc::{AllocError as NoMemory, Global};
use std::sync::Arc;
use turn_lock::{Pass, TurnLock};

impl Ctx {
    /// Adds the pass of the next arena.
    fn give(&mut self, pass: Pass<ArenaTurns>) -> Result<(), NoMemory>
        ensures client { self.new.client ≡ self.old.client }
        ensures desk { self.new.desk ≡ self.old.desk }
        ensures seat { self.new.seat ≡ self.old.seat }
        ensures passes { OnOk result (self.new.passes.items ≡ self.old.passes.items ++ pass ∷ []) }
    {
        self.passes.push(pass)?;
        Ok(())
    }
}

/// Gives each context a pass of a lock, in the order of their numbers.
fn deal(
    lock: &TurnLock<ArenaTurns>,
    mut pass: Pass<ArenaTurns>,
    ctxs: &mut Vec<Ctx>,
) -> Result<(), NoMemory>
    requires pass { IsNext lock.now 0 (length ctxs.old.items) pass }
    ensures { OnOk result (AreGiven lock.now ctxs.old.items ctxs.new.items) }
{
    let last = ctxs.len() - 1;
    for j in 0..last {
        let (own, rest) = lock.split_pass(pass);
        ctxs[j].give(own)?;
        pass = rest;
    }
    ctxs[last].give(pass)?;
    Ok(())
}

/// One more arena: its lock, and a pass of it for each context.
fn add(
    alloc: Global,
    table: &Arc<ChunkTable, Global>,
    seat: ChunkSeat,
    clients: u32,
    locks: &mut Vec<TurnLock<ArenaTurns>>,
    ctxs: &mut Vec<Ctx>,
) -> Result<(), NoMemory>
    requires seat { IsSeatOf (arc_value table.now) seat }
    requires none { owned seat ≡ [] }
    requires unfailed { failed seat ≡ [] }
    requires few { length locks.old.items < 32 }
    requires clients { (0 < clients) × (clients ≡ length ctxs.old.items) }
    ensures { OnOk result (IsAdded (arc_value table.now) (share_of seat).number clients locks.old.items locks.new.items ctxs.old.items ctxs.new.items) }
{
    let index = locks.len() as u32;
    let arena = SharedArena::new(alloc, index, table.clone()?, seat)?;
    let (lock, pass) = TurnLock::new(alloc, arena, clients)?;
    deal(&lock, pass, ctxs)?;
    locks.push(lock)?;
    Ok(())
}

/// A context for each seat, without passes.
fn fresh(alloc: Global, seats: AskSeats) -> Result<Vec<Ctx>, NoMemory>
    requires few { length seats.items ≤ 32 }
    ensures { IfOk result (λ ctxs. AreFresh seats.items ctxs.items) }
{
    let mut ctxs = Vec::new(alloc);
    for seat in seats {
        let client = ctxs.len() as u32;
        let ctx = Ctx {
            client,
            desk: Desk::new(alloc)?,
            passes: Vec::new(alloc),
            seat,
        };
        ctxs.push(ctx)?;
    }
    Ok(ctxs)
}

impl SharedHeap {
    /// A new heap and a context for each seat at a shared shelf: arena 0 is there, and no other, and no client has anything.
    pub fn new(alloc: Global, seats: AskSeats) -> Result<(SharedHeap, Vec<Ctx>), NoMemory>
        requires some { 0 < length seats.items }
        requires few { length seats.items ≤ 32 }
        ensures new { IfOk result (λ r. IsNew r.0 seats.items r.1.items) }
        ensures may { IfOk result (λ r. (shelf : TableId) → All (λ (seat : AskSeat). seat.badge.table_id ≡ shelf) seats.items → All (MayCall shelf r.0) r.1.items) }
    {
        let clients = seats.len() as u32;
        let mut ctxs = fresh(alloc, seats)?;
        let (table, chunk_seats) = ChunkTable::new(alloc, 32)?;
        let table = Arc::new(alloc, table)?;
        let mut locks = Vec::new(alloc);
        for seat in chunk_seats {
            add(alloc, &table, seat, clients, &mut locks, &mut ctxs)?;
        }
        let mut boxes = [None; 32];
        boxes[0] = Some(0);
        let heap = SharedHeap {
            locks,
            table,
            clients,
            boxes,
        };
        Ok((heap, ctxs))
    }
}
