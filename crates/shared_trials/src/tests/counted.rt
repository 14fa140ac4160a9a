//! What the counts of an arena say of a malloc and of a free.

ghost use Rattle.std.specs.Prelude.{◌<◌};
ghost use Rattle.heap_runs.specs.Heaps.{MayCall, shelf_id};

use super::boxes::fickle;
use super::heaps::{Shelf, Single, counts_of, given, is_done, share_one};
use heap_runs::{Ctx, SharedHeap};
use size_classes::{CLASSES, SMALL_CLASSES, size_of};
use space_model::Counts;
use std::alloc::Global;
use std::process::Abort;
use std::sync::Wait;

/// How many regions of a class the counts tell.
fn regions_of(counts: &Counts, class: u8) -> u64
    requires { class < 121 }
{
    if class < SMALL_CLASSES {
        counts.regs[class as usize]
    } else {
        counts.lextents[(class - SMALL_CLASSES) as usize]
    }
}

/// How many bytes all regions have that the counts tell.
fn bytes_of(counts: &Counts) -> u64 {
    let mut bytes: u64 = 0;
    for class in 0..CLASSES {
        let all = regions_of(counts, class).saturating_mul(size_of(class));
        bytes = bytes.saturating_add(all);
    }
    bytes
}

/// Checks that the sums of the counts fit each other.
fn fit(rt: &impl Abort, counts: &Counts) {
    assert_eq!(rt; counts.allocated, bytes_of(counts));
    assert_eq!(rt;
        counts.small.checked_add(counts.large),
        Some(counts.allocated)
    );
    assert!(rt; counts.allocated <= counts.active && counts.active <= counts.mapped);
    assert_eq!(rt; counts.flight, 0);
}

/// Checks that the counts tell the regions that they told before.
fn tell_the_same(rt: &impl Abort, before: &Counts, now: &Counts) {
    fit(rt, now);
    assert_eq!(rt; (now.allocated, now.regs), (before.allocated, before.regs));
    assert_eq!(rt; now.lextents, before.lextents);
}

/// Checks that the counts tell a malloc of a class: one region more, or several where the client's cache is on.
fn tell_more(rt: &impl Abort, before: &Counts, now: &Counts, class: u8, cached: bool)
    requires { class < 121 }
{
    fit(rt, now);
    let (old, new) = (regions_of(before, class), regions_of(now, class));
    assert!(rt; old < new && (cached || new - old == 1));
    let bytes = (new - old).saturating_mul(size_of(class));
    assert_eq!(rt; before.allocated.checked_add(bytes), Some(now.allocated));
}

/// A malloc, which the counts tell, and a free behind it. Whether a box refused the malloc comes back.
fn malloc_and_free<R: Wait + Abort>(
    rt: &R,
    alloc: Global,
    shelf: &Shelf,
    heap: &SharedHeap,
    ctx: &mut Ctx,
    size: u64,
) -> bool
    requires { MayCall (shelf_id shelf.now) heap.now ctx.old }
    ensures { MayCall (shelf_id shelf.now) heap.now ctx.new }
{
    let before = counts_of(rt, shelf, heap, ctx, 0);
    let answer = heap.malloc(rt, alloc, shelf, ctx, size);
    let now = counts_of(rt, shelf, heap, ctx, 0);
    let Some((addr, class)) = given(rt, answer) else {
        tell_the_same(rt, &before, &now);
        return true;
    };
    assert!(rt; class < CLASSES && size_of(class) >= size);
    tell_more(rt, &before, &now, class, ctx.desk().caches());
    is_done(rt, heap.free(rt, alloc, shelf, ctx, addr));
    is_done(rt, heap.flush(rt, alloc, shelf, ctx));
    tell_the_same(rt, &before, &counts_of(rt, shelf, heap, ctx, 0));
    false
}

/// Mallocs of many sizes, each with its free. How many were refused comes back.
fn mallocs<R: Wait + Abort>(
    rt: &R,
    alloc: Global,
    shelf: &Shelf,
    heap: &SharedHeap,
    ctx: &mut Ctx,
) -> u64
    requires { MayCall (shelf_id shelf.now) heap.now ctx.old }
    ensures { MayCall (shelf_id shelf.now) heap.now ctx.new }
{
    let mut refused: u64 = 0;
    for round in 0..200_u32 {
        let size = 3_u64 << (round % 20);
        if malloc_and_free(rt, alloc, shelf, heap, ctx, size) {
            refused = refused.saturating_add(1);
        }
    }
    refused
}

/// A client without a cache mallocs, and then with one, over boxes that refuse one in so many asks. How many mallocs were refused comes
/// back.
fn count_over<R: Wait + Abort>(rt: &R, alloc: Global, one_in: u64) -> u64 {
    let Single {
        shelf,
        heap,
        mut ctx,
    } = share_one(rt, alloc, fickle(rt, alloc, one_in, None));
    let without = mallocs(rt, alloc, &shelf, &heap, &mut ctx);
    is_done(rt, heap.set_cache(rt, alloc, &shelf, &mut ctx, true));
    let with = mallocs(rt, alloc, &shelf, &heap, &mut ctx);
    drop((shelf, heap, ctx));
    without.saturating_add(with)
}

#[test]
fn counts_tell_mallocs_and_frees(rt: HostRuntime) {
    assert_eq!(rt; count_over(&rt, rt.alloc(), 0), 0);
}

#[test]
fn counts_tell_what_refusals_leave(rt: HostRuntime) {
    assert!(rt; count_over(&rt, rt.alloc(), 20) > 0);
}
