//! Rounds of decays over some arenas.
ghost use Rattle.std.specs.Prelude.{◌≡◌, ◌≤◌, ◌∷◌, [], length, IfErr, IfOk};
ghost use Rattle.heap_runs.specs.Heaps.{MayCall, shelf_id};
ghost use Rattle.back_purge.specs.Rounds.{Made, Stops, decays, one_round};

use call_plan::Answered;
use heap_runs::{Ctx, SharedHeap};
use hook_api::{ExtentHooks, SharedShelf};
use std::alloc::Global;
use std::sync::Wait;

/// A decay of an arena, which is an `Err` where it isn't answered Ok.
fn decay<R: Wait, H: ExtentHooks>(
    heap: &SharedHeap,
    rt: &R,
    alloc: Global,
    shelf: &SharedShelf<H>,
    ctx: &mut Ctx,
    arena: u32,
    now: u64,
) -> Result<(), Answered>
    requires may { MayCall (shelf_id shelf.now) heap.now ctx.old }
    ensures may { MayCall (shelf_id shelf.now) heap.now ctx.new }
    ensures made { IfOk result (λ u. Made shelf.now heap.now ctx.old (one_round now (arena ∷ [])) ctx.new) }
    ensures stops { IfErr result (λ answer. Stops shelf.now heap.now ctx.old (one_round now (arena ∷ [])) answer ctx.new) }
{
    match heap.decay(rt, alloc, shelf, ctx, arena, now) {
        Answered::Ok(_) => Ok(()),
        answer => Err(answer),
    }
}

/// A decay of each of some arenas, in order, up to the first that isn't answered Ok.
fn round<R: Wait, H: ExtentHooks>(
    heap: &SharedHeap,
    rt: &R,
    alloc: Global,
    shelf: &SharedShelf<H>,
    ctx: &mut Ctx,
    arenas: &[u32],
    now: u64,
) -> Result<(), Answered>
    requires may { MayCall (shelf_id shelf.now) heap.now ctx.old }
    ensures may { MayCall (shelf_id shelf.now) heap.now ctx.new }
    ensures made { IfOk result (λ u. Made shelf.now heap.now ctx.old (one_round now arenas.now) ctx.new) }
    ensures stops { IfErr result (λ answer. Stops shelf.now heap.now ctx.old (one_round now arenas.now) answer ctx.new) }
{
    for i in 0..arenas.len() {
        decay(heap, rt, alloc, shelf, ctx, arenas[i], now)?;
    }
    Ok(())
}

/// Makes so many rounds, and gives how many calls that were. A round is a decay of each of some arenas, in order, at a moment in
/// nanoseconds. The first call that isn't answered Ok is the last one, and its answer is the `Err`: `NoArena` where the arena isn't
/// live, or `NoMemory`.
pub fn rounds<R: Wait, H: ExtentHooks>(
    heap: &SharedHeap,
    rt: &R,
    alloc: Global,
    shelf: &SharedShelf<H>,
    ctx: &mut Ctx,
    arenas: &[u32],
    rounds: u32,
    now: u64,
) -> Result<u64, Answered>
    requires may { MayCall (shelf_id shelf.now) heap.now ctx.old }
    requires few { length arenas.now ≤ 32 }
    ensures may { MayCall (shelf_id shelf.now) heap.now ctx.new }
    ensures count { IfOk result (λ count. count ≡ length (decays now arenas.now rounds)) }
    ensures made { IfOk result (λ count. Made shelf.now heap.now ctx.old (decays now arenas.now rounds) ctx.new) }
    ensures stops { IfErr result (λ answer. Stops shelf.now heap.now ctx.old (decays now arenas.now rounds) answer ctx.new) }
{
    for _round in 0..rounds {
        round(heap, rt, alloc, shelf, ctx, arenas, now)?;
    }
    Ok(u64::from(rounds) * arenas.len() as u64)
}
