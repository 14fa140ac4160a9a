//! Calls that a client's desk answers by itself, from code that has no handle.

ghost use Rattle.heap_runs.specs.Heaps.{MayCall, shelf_id};

use super::boxes::fickle;
use super::heaps::{Shelf, Single, counts_of, given, is_done, region_of, share_one};
use heap_runs::{CachedFree, Ctx, SharedHeap};
use std::alloc::{AllocError as NoMemory, Global};
use std::process::Abort;
use std::sync::Wait;

/// The client of a heap caches a region that it holds, if it can.
fn free_cached(shelf: &Shelf, heap: &SharedHeap, ctx: &mut Ctx, addr: u64) -> CachedFree
    requires { MayCall (shelf_id shelf.now) heap.now ctx.old }
    ensures { MayCall (shelf_id shelf.now) heap.now ctx.new }
{
    ctx.free_cached(addr)
}

/// The client of a heap takes a region out of its cache, if there is one that serves the size.
fn malloc_cached(
    shelf: &Shelf,
    heap: &SharedHeap,
    ctx: &mut Ctx,
    size: u64,
) -> Result<Option<u64>, NoMemory>
    requires { MayCall (shelf_id shelf.now) heap.now ctx.old }
    ensures { MayCall (shelf_id shelf.now) heap.now ctx.new }
{
    ctx.malloc_cached(size)
}

/// What calls without a turn told of a region that is held: of a free, of a malloc behind it, and of two frees behind that.
type Told = (CachedFree, Option<u64>, CachedFree, CachedFree);

/// A client caches a region that it holds, takes the one of the size out that it cached last, and gives the first one back twice.
fn cache_twice(
    rt: &impl Abort,
    shelf: &Shelf,
    heap: &SharedHeap,
    ctx: &mut Ctx,
    addr: u64,
    size: u64,
) -> Told
    requires { MayCall (shelf_id shelf.now) heap.now ctx.old }
    ensures { MayCall (shelf_id shelf.now) heap.now ctx.new }
{
    let freed = free_cached(shelf, heap, ctx, addr);
    let found = malloc_cached(shelf, heap, ctx, size).expect(rt, "memory for a region");
    let again = free_cached(shelf, heap, ctx, addr);
    let twice = free_cached(shelf, heap, ctx, addr);
    (freed, found, again, twice)
}

/// What the first free comes to that a client's cache doesn't take, or that of the last region.
fn free_till_other(shelf: &Shelf, heap: &SharedHeap, ctx: &mut Ctx, held: &[u64]) -> CachedFree
    requires { MayCall (shelf_id shelf.now) heap.now ctx.old }
    ensures { MayCall (shelf_id shelf.now) heap.now ctx.new }
{
    let mut told = CachedFree::Kept;
    for addr in held {
        if told == CachedFree::Kept {
            told = free_cached(shelf, heap, ctx, *addr);
        }
    }
    told
}

/// A client gets a region by a turn, gives it to its cache and takes it from it by itself. The answer is whether there was one: a box
/// may refuse it.
fn get_and_cache<R: Wait + Abort>(
    rt: &R,
    alloc: Global,
    shelf: &Shelf,
    heap: &SharedHeap,
    ctx: &mut Ctx,
    size: u64,
) -> bool
    requires { MayCall (shelf_id shelf.now) heap.now ctx.old }
    ensures { MayCall (shelf_id shelf.now) heap.now ctx.new }
{
    let answer = heap.malloc(rt, alloc, shelf, ctx, size);
    let Some((addr, _)) = given(rt, answer) else {
        return false;
    };
    let told = cache_twice(rt, shelf, heap, ctx, addr, size);
    let (kept, gone) = (CachedFree::Kept, CachedFree::NotHeld);
    assert_eq!(rt; told, (kept, Some(addr), kept, gone));
    true
}

/// A client gets regions of sizes up to that of the largest class that is cached, and caches each. How many were refused comes back.
fn cache_often<R: Wait + Abort>(
    rt: &R,
    alloc: Global,
    shelf: &Shelf,
    heap: &SharedHeap,
    ctx: &mut Ctx,
) -> u64
    requires { MayCall (shelf_id shelf.now) heap.now ctx.old }
    ensures { MayCall (shelf_id shelf.now) heap.now ctx.new }
{
    let mut refused: u64 = 0;
    for round in 1..200 {
        if !get_and_cache(rt, alloc, shelf, heap, ctx, 160 * round) {
            refused = refused.saturating_add(1);
        }
    }
    refused
}

/// A client caches regions, and leaves nothing. How many regions were refused comes back.
fn cache_all<R: Wait + Abort>(
    rt: &R,
    alloc: Global,
    shelf: &Shelf,
    heap: &SharedHeap,
    ctx: &mut Ctx,
) -> u64
    requires { MayCall (shelf_id shelf.now) heap.now ctx.old }
{
    is_done(rt, heap.set_cache(rt, alloc, shelf, ctx, true));
    let refused = cache_often(rt, alloc, shelf, heap, ctx);
    assert!(rt; counts_of(rt, shelf, heap, ctx, 0).allocated > 0);
    is_done(rt, heap.set_cache(rt, alloc, shelf, ctx, false));
    assert_eq!(rt; counts_of(rt, shelf, heap, ctx, 0).allocated, 0);
    refused
}

/// How many regions boxes refuse that refuse one in so many asks, while a client caches all that it gets.
fn cache_over<R: Wait + Abort>(rt: &R, alloc: Global, one_in: u64) -> u64 {
    let Single {
        shelf,
        heap,
        mut ctx,
    } = share_one(rt, alloc, fickle(rt, alloc, one_in, None));
    let refused = cache_all(rt, alloc, &shelf, &heap, &mut ctx);
    drop((shelf, heap, ctx));
    refused
}

#[test]
fn a_desk_frees_and_mallocs_without_a_handle(rt: HostRuntime) {
    assert_eq!(rt; cache_over(&rt, rt.alloc(), 0), 0);
}

#[test]
fn a_desk_caches_what_refusals_leave(rt: HostRuntime) {
    assert!(rt; cache_over(&rt, rt.alloc(), 20) > 0);
}

/// Regions of a size that a client gets.
fn regions<R: Wait + Abort>(
    rt: &R,
    alloc: Global,
    shelf: &Shelf,
    heap: &SharedHeap,
    ctx: &mut Ctx,
    size: u64,
) -> Vec<u64>
    requires { MayCall (shelf_id shelf.now) heap.now ctx.old }
    ensures { MayCall (shelf_id shelf.now) heap.now ctx.new }
{
    let mut held = Vec::new(alloc);
    for _ in 0..21 {
        let addr = region_of(rt, heap.malloc(rt, alloc, shelf, ctx, size));
        held.push(addr).expect(rt, "memory for an address");
    }
    held
}

/// Checks what the first free comes to that a client's cache doesn't take.
fn frees_till(
    rt: &impl Abort,
    shelf: &Shelf,
    heap: &SharedHeap,
    ctx: &mut Ctx,
    held: &[u64],
    told: CachedFree,
)
    requires { MayCall (shelf_id shelf.now) heap.now ctx.old }
    ensures { MayCall (shelf_id shelf.now) heap.now ctx.new }
{
    assert_eq!(rt; free_till_other(shelf, heap, ctx, held), told);
}

/// A client has more regions of the largest class that is cached than there are slots for, and then some of the next class.
fn overfill<R: Wait + Abort>(rt: &R, alloc: Global, shelf: &Shelf, heap: &SharedHeap, ctx: &mut Ctx)
    requires { MayCall (shelf_id shelf.now) heap.now ctx.old }
{
    let held = regions(rt, alloc, shelf, heap, ctx, 32768);
    frees_till(rt, shelf, heap, ctx, held.as_slice(), CachedFree::Off);
    is_done(rt, heap.set_cache(rt, alloc, shelf, ctx, true));
    // (20 of the class have a slot)
    frees_till(rt, shelf, heap, ctx, held.as_slice(), CachedFree::Full);
    frees_till(rt, shelf, heap, ctx, held.as_slice(), CachedFree::NotHeld);
    let larger = regions(rt, alloc, shelf, heap, ctx, 32769);
    frees_till(rt, shelf, heap, ctx, larger.as_slice(), CachedFree::Off);
    drop((held, larger));
}

#[test]
fn a_desk_tells_why_it_caches_no_region(rt: HostRuntime) {
    let alloc = rt.alloc();
    let Single {
        shelf,
        heap,
        mut ctx,
    } = share_one(&rt, alloc, fickle(&rt, alloc, 0, None));
    overfill(&rt, alloc, &shelf, &heap, &mut ctx);
    drop((shelf, heap, ctx));
}
