//! How a heap ends.
ghost use Rattle.std.specs.Prelude.{◌≡◌, ◌<◌, ◌≤◌, ◌+◌, ℕ, [], ◌∷◌, Some, length, map, slice_get, vec_capacity, IfOk, OnOk};
ghost use Rattle.std.specs.List.{All};
ghost use Rattle.atomic_table.specs.Seated.{TableId};
ghost use Rattle.turn_lock.specs.Locks.{passes};
ghost use Rattle.heap_runs.specs.Closes.{AreClosed, AreCounted, AreLeft, AreParted, IsLeft, HasClosed, seat_of_ctx};
ghost use Rattle.heap_runs.specs.Columns.{IsColumn};
ghost use Rattle.heap_runs.specs.Heaps.{MayCall};
ghost use Rattle.heap_runs.specs.Ways.{AreWays};
ghost use Rattle.heap_runs.specs.declared.heaps.Ctx.{Ctx};

use crate::heaps::{Ctx, SharedHeap};
use chunk_table::{ChunkBook, ChunkSeats};
use heap_shared::{ArenaTurns, SharedArena};
use hook_api::{AskSeats, Journal, Journals};
use space_model::Counts;
use std::alloc::{AllocError as NoMemory, Global};
use turn_lock::{Pass, Passes};

/// What a heap leaves that was closed.
#[derive(Drop)]
pub struct Closed {
    /// The journals of the 32 arenas, by index.
    pub journals: Journals,
    /// The chunks that each arena owned at the end.
    pub chunks: ChunkBook,
    /// The clients' seats at the shared shelf, in the order of their contexts.
    pub seats: AskSeats,
    /// The counts of the 32 arenas at the end, by index, where they are live.
    pub counts: Vec<Option<Counts>>,
}

impl Ctx {
    /// Takes the pass of its last arena out.
    fn take_pass(&mut self, arena: usize) -> Pass<ArenaTurns>
        requires { length self.old.passes.items ≡ arena + 1 }
        ensures pass { slice_get self.old.passes.items arena ≡ Some result }
        ensures left { IsLeft self.old arena self.new }
        ensures client { self.new.client ≡ self.old.client }
    {
        let Some(pass) = self.passes.pop() else {
            unreachable!()
        };
        pass
    }
}

/// Takes the last pass of each context.
fn column(
    alloc: Global,
    ctxs: &mut Vec<Ctx>,
    arena: usize,
) -> Result<(Pass<ArenaTurns>, Passes<ArenaTurns>), NoMemory>
    requires some { 0 < length ctxs.old.items }
    requires full { (j : ℕ) (ctx : Ctx) → slice_get ctxs.old.items j ≡ Some ctx → length ctx.passes.items ≡ arena + 1 }
    ensures column { IfOk result (λ r. IsColumn (λ ctx i. slice_get ctx.passes.items i) ctxs.old.items arena (r.0 ∷ passes r.1)) }
    ensures left { OnOk result (AreLeft ctxs.old.items arena ctxs.new.items) }
{
    let count = ctxs.len();
    let mut others = Passes::new(alloc);
    others.reserve(count as u64)?;
    let first = ctxs[0].take_pass(arena);
    for j in 1..count {
        others.push(ctxs[j].take_pass(arena));
    }
    Ok((first, others))
}

/// The counts of arenas, of which the last one comes first, by index, where they are live.
fn counts_of(alloc: Global, states: &[SharedArena]) -> Result<Vec<Option<Counts>>, NoMemory>
    ensures { IfOk result (λ counts. AreCounted states.now counts.items) }
{
    let mut counts = Vec::with_capacity(alloc, states.len())?;
    for i in 0..states.len() {
        counts.push_reserved(states[states.len() - 1 - i].counts());
    }
    Ok(counts)
}

/// The journals of arenas, of which the last one comes first, and their seats of the chunk table.
fn part(alloc: Global, mut states: Vec<SharedArena>) -> Result<(Vec<Journal>, ChunkSeats), NoMemory>
    ensures { IfOk result (λ r. AreParted states.items r.0.items r.1.items) }
{
    let mut journals = Vec::with_capacity(alloc, states.len())?;
    let mut seats = Vec::with_capacity(alloc, states.len())?;
    while let Some(state) = states.pop() {
        let (journal, seat) = state.into_parts();
        journals.push_reserved(journal);
        seats.push_reserved(seat);
    }
    Ok((journals, seats))
}

/// The seats of contexts at the shared shelf.
fn seats_of(alloc: Global, ctxs: Vec<Ctx>) -> Result<AskSeats, NoMemory>
    ensures { IfOk result (λ seats. seats.items ≡ map seat_of_ctx ctxs.items) }
{
    let mut seats = Vec::new(alloc);
    for ctx in ctxs {
        seats.push(ctx.seat)?;
    }
    Ok(seats)
}

impl SharedHeap {
    /// Closes the locks of all arenas, for which the passes of all contexts are taken, and gives the arenas, the last one first.
    fn close_locks(self, alloc: Global, ctxs: &mut Vec<Ctx>) -> Result<Vec<SharedArena>, NoMemory>
        requires some { 0 < length ctxs.old.items }
        requires all { length ctxs.old.items ≡ self.clients }
        requires ctxs { (j : ℕ) (ctx : Ctx) → slice_get ctxs.old.items j ≡ Some ctx → AreWays self.locks.items ctx.client ctx.passes.items }
        ensures count { IfOk result (λ states. length states.items ≡ 32) }
        ensures closed { IfOk result (λ states. AreClosed self ctxs.old.items states.items) }
        ensures left { OnOk result (AreLeft ctxs.old.items 0 ctxs.new.items) }
    {
        let SharedHeap { mut locks, .. } = self;
        let mut states = Vec::with_capacity(alloc, 32)?;
        while let Some(lock) = locks.pop() {
            let (pass, others) = column(alloc, ctxs, locks.len())?;
            states.push_reserved(lock.close(pass, others));
        }
        Ok(states)
    }

    /// Ends the heap, for which the contexts of all clients are given, none of which has an open call. Where memory is wanting they are
    /// given up, and the heap with them.
    pub fn close(self, alloc: Global, ctxs: Vec<Ctx>) -> Result<Closed, NoMemory>
        requires some { 0 < length ctxs.items }
        requires all { length ctxs.items ≡ self.clients }
        requires ctxs { (shelf : TableId) × All (MayCall shelf self) ctxs.items }
        ensures { IfOk result (λ closed. HasClosed self ctxs.items closed) }
    {
        let mut ctxs = ctxs;
        let table = self.table.clone()?;
        let states = self.close_locks(alloc, &mut ctxs)?;
        let counts = counts_of(alloc, states.as_slice())?;
        let (journals, chunk_seats) = part(alloc, states)?;
        let seats = seats_of(alloc, ctxs)?;
        Ok(Closed {
            journals: Journals::from_vec(journals),
            chunks: table.gather(chunk_seats),
            seats,
            counts,
        })
    }
}
