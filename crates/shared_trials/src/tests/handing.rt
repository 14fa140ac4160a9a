//! Regions that go from one client to another, and the decay times of an arena.

ghost use Rattle.std.specs.Prelude.{◌≡◌, true};
ghost use Rattle.space_model.specs.Settings.{is_decay_time};
ghost use Rattle.heap_runs.specs.Heaps.{MayCall, shelf_id};

use super::boxes::fickle;
use super::heaps::{Pair, Shelf, Single, counts_of, is_done, region_of, share_one, share_two};
use call_plan::Answered;
use heap_runs::{Ctx, SharedHeap};
use space_model::Rest;
use std::alloc::Global;
use std::process::Abort;
use std::sync::Wait;

/// Checks that no region at an address was the client's to give, or to take.
fn is_not_held(rt: &impl Abort, answer: Answered, addr: u64) {
    match answer {
        Answered::NotHeld(told) => assert_eq!(rt; told, addr),
        _ => panic!(rt; "the region was held"),
    }
}

/// A client publishes a region, which neither it nor another one holds then. The address comes back.
fn give_away<R: Wait + Abort>(
    rt: &R,
    alloc: Global,
    shelf: &Shelf,
    heap: &SharedHeap,
    one: &mut Ctx,
    other: &mut Ctx,
) -> u64
    requires one { MayCall (shelf_id shelf.now) heap.now one.old }
    requires other { MayCall (shelf_id shelf.now) heap.now other.old }
    ensures one { MayCall (shelf_id shelf.now) heap.now one.new }
    ensures other { MayCall (shelf_id shelf.now) heap.now other.new }
{
    let addr = region_of(rt, heap.malloc(rt, alloc, shelf, one, 20000));
    is_not_held(rt, heap.take_over(rt, alloc, shelf, other, addr, 0), addr);
    is_not_held(rt, heap.publish(rt, alloc, shelf, other, addr), addr);
    is_done(rt, heap.publish(rt, alloc, shelf, one, addr));
    is_not_held(rt, heap.free(rt, alloc, shelf, one, addr), addr);
    is_not_held(rt, heap.free(rt, alloc, shelf, other, addr), addr);
    addr
}

/// Another client takes the region over, and frees it.
fn take_in<R: Wait + Abort>(
    rt: &R,
    alloc: Global,
    shelf: &Shelf,
    heap: &SharedHeap,
    one: &mut Ctx,
    other: &mut Ctx,
    addr: u64,
)
    requires one { MayCall (shelf_id shelf.now) heap.now one.old }
    requires other { MayCall (shelf_id shelf.now) heap.now other.old }
{
    assert_eq!(rt; counts_of(rt, shelf, heap, one, 0).allocated, 20480);
    let taken = heap.take_over(rt, alloc, shelf, other, addr, 0);
    assert_eq!(rt; region_of(rt, taken), addr);
    is_not_held(rt, heap.take_over(rt, alloc, shelf, one, addr, 0), addr);
    is_done(rt, heap.free(rt, alloc, shelf, other, addr));
    assert_eq!(rt; counts_of(rt, shelf, heap, one, 0).allocated, 0);
}

#[test]
fn a_published_region_is_taken_over(rt: HostRuntime) {
    let alloc = rt.alloc();
    let Pair {
        shelf,
        heap,
        mut one,
        mut other,
    } = share_two(&rt, alloc, fickle(&rt, alloc, 0, None));
    let addr = give_away(&rt, alloc, &shelf, &heap, &mut one, &mut other);
    take_in(&rt, alloc, &shelf, &heap, &mut one, &mut other, addr);
    drop((shelf, heap, one, other));
}

/// How many bytes stay dirty behind a malloc and a free, where dirty extents decay in so many milliseconds.
fn dirty_left<R: Wait + Abort>(
    rt: &R,
    alloc: Global,
    shelf: &Shelf,
    heap: &SharedHeap,
    ctx: &mut Ctx,
    ms: i64,
) -> u64
    requires may { MayCall (shelf_id shelf.now) heap.now ctx.old }
    requires time { is_decay_time ms ≡ true }
    ensures { MayCall (shelf_id shelf.now) heap.now ctx.new }
{
    is_done(
        rt,
        heap.set_time(rt, alloc, shelf, ctx, 0, Rest::Dirty, ms, 1),
    );
    let addr = region_of(rt, heap.malloc(rt, alloc, shelf, ctx, 20000));
    is_done(rt, heap.free(rt, alloc, shelf, ctx, addr));
    counts_of(rt, shelf, heap, ctx, 0).dirty
}

#[test]
fn a_decay_time_of_0_lets_no_page_stay_dirty(rt: HostRuntime) {
    let alloc = rt.alloc();
    let Single {
        shelf,
        heap,
        mut ctx,
    } = share_one(&rt, alloc, fickle(&rt, alloc, 0, None));
    assert_eq!(rt; dirty_left(&rt, alloc, &shelf, &heap, &mut ctx, -1), 20480);
    assert_eq!(rt; dirty_left(&rt, alloc, &shelf, &heap, &mut ctx, 0), 0);
    drop((shelf, heap, ctx));
}
