//! Calls of one client.

ghost use Rattle.heap_runs.specs.Heaps.{MayCall, shelf_id};

use super::boxes::{FickleHooks, fickle};
use super::heaps::{Shelf, Single, counts_of, is_done, region_of, share_one};
use call_plan::{Answered, Request};
use heap_runs::{Ctx, SharedHeap};
use hook_api::{HookShelf, Kind};
use std::alloc::Global;
use std::process::Abort;
use std::sync::Wait;

/// Who refused a region: the box, the place of its ask among those of the client to that box, and whether a plan did.
type Refusal = Option<(u32, u64, bool)>;

/// Who refused the region that a call asked for, if it was refused.
fn refusal_of(rt: &impl Abort, answer: Answered) -> Refusal {
    let Answered::Refused(asked) = answer else {
        region_of(rt, answer);
        return None;
    };
    Some((asked.box_no(), asked.place(), asked.planned()))
}

/// Who refused two regions that a client asked these boxes for.
fn two_mallocs<R: Wait + Abort>(
    rt: &R,
    alloc: Global,
    boxes: HookShelf<FickleHooks>,
) -> (Refusal, Refusal) {
    let Single {
        shelf,
        heap,
        mut ctx,
    } = share_one(rt, alloc, boxes);
    let first = refusal_of(rt, heap.malloc(rt, alloc, &shelf, &mut ctx, 1000));
    let second = refusal_of(rt, heap.malloc(rt, alloc, &shelf, &mut ctx, 1000));
    drop((shelf, heap, ctx));
    (first, second)
}

#[test]
fn a_refusal_is_told_to_its_own_call(rt: HostRuntime) {
    let alloc = rt.alloc();
    let mut boxes = fickle(&rt, alloc, 0, None);
    boxes.plan(0, Kind::Alloc, 1);
    assert_eq!(rt; two_mallocs(&rt, alloc, boxes), (Some((0, 0, true)), None));
}

#[test]
fn refusals_of_a_box_are_told_by_their_places(rt: HostRuntime) {
    let alloc = rt.alloc();
    assert_eq!(rt;
        two_mallocs(&rt, alloc, fickle(&rt, alloc, 1, None)),
        (Some((0, 0, false)), Some((0, 1, false)))
    );
}

/// A client makes a second arena, which asks box 3, and calls it.
fn call_second<R: Wait + Abort>(
    rt: &R,
    alloc: Global,
    shelf: &Shelf,
    heap: &mut SharedHeap,
    ctx: &mut Ctx,
)
    requires { MayCall (shelf_id shelf.now) heap.old ctx.old }
{
    is_done(rt, heap.create(rt, alloc, shelf, ctx, 3, 0));
    assert_eq!(rt; (heap.box_no(1), heap.box_no(2)), (Some(3), None));
    is_done(rt, heap.bind(rt, alloc, shelf, ctx, 1));
    is_done(rt, heap.memalign(rt, alloc, shelf, ctx, 8192, 30000));
    assert_eq!(rt; counts_of(rt, shelf, heap, ctx, 1).allocated, 32768);
    is_done(rt, heap.purge(rt, alloc, shelf, ctx, 1));
    is_done(rt, heap.decay(rt, alloc, shelf, ctx, 1, 5));
    is_done(rt, heap.flush(rt, alloc, shelf, ctx));
}

#[test]
fn a_client_calls_two_arenas(rt: HostRuntime) {
    let alloc = rt.alloc();
    let Single {
        shelf,
        mut heap,
        mut ctx,
    } = share_one(&rt, alloc, fickle(&rt, alloc, 0, None));
    call_second(&rt, alloc, &shelf, &mut heap, &mut ctx);
    drop((shelf, heap, ctx));
}

/// A client widens a region, and then cuts it.
fn resize_twice<R: Wait + Abort>(
    rt: &R,
    alloc: Global,
    shelf: &Shelf,
    heap: &SharedHeap,
    ctx: &mut Ctx,
)
    requires { MayCall (shelf_id shelf.now) heap.now ctx.old }
{
    let addr = region_of(rt, heap.malloc(rt, alloc, shelf, ctx, 20000));
    let widen = Request::Realloc { addr, size: 40960 };
    assert_eq!(rt;
        region_of(rt, heap.call(rt, alloc, shelf, ctx, &widen)),
        addr
    );
    let cut = Request::Realloc { addr, size: 16384 };
    assert_eq!(rt; region_of(rt, heap.call(rt, alloc, shelf, ctx, &cut)), addr);
    assert_eq!(rt; counts_of(rt, shelf, heap, ctx, 0).allocated, 16384);
}

#[test]
fn a_region_is_resized_where_it_is(rt: HostRuntime) {
    let alloc = rt.alloc();
    let Single {
        shelf,
        heap,
        mut ctx,
    } = share_one(&rt, alloc, fickle(&rt, alloc, 0, None));
    resize_twice(&rt, alloc, &shelf, &heap, &mut ctx);
    drop((shelf, heap, ctx));
}

/// Checks that the client has no explicit cache 0.
fn has_none(rt: &impl Abort, answer: Answered) {
    assert!(rt; matches!(answer, Answered::NoCache(0)));
}

/// A client makes an explicit cache, uses it, and ends it.
fn use_cache<R: Wait + Abort>(
    rt: &R,
    alloc: Global,
    shelf: &Shelf,
    heap: &SharedHeap,
    ctx: &mut Ctx,
)
    requires { MayCall (shelf_id shelf.now) heap.now ctx.old }
{
    let (slot, size) = (0, 20000);
    let malloc = Request::MallocIn { slot, size };
    has_none(rt, heap.call(rt, alloc, shelf, ctx, &malloc));
    is_done(rt, heap.call(rt, alloc, shelf, ctx, &Request::NewCache));
    let addr = region_of(rt, heap.call(rt, alloc, shelf, ctx, &malloc));
    let free = Request::FreeIn { slot, addr };
    is_done(rt, heap.call(rt, alloc, shelf, ctx, &free));
    assert_eq!(rt;
        region_of(rt, heap.call(rt, alloc, shelf, ctx, &malloc)),
        addr
    );
    is_done(rt, heap.call(rt, alloc, shelf, ctx, &free));
    is_done(
        rt,
        heap.call(rt, alloc, shelf, ctx, &Request::EndCache { slot }),
    );
    has_none(rt, heap.call(rt, alloc, shelf, ctx, &malloc));
}

#[test]
fn an_explicit_cache_gives_its_region_again(rt: HostRuntime) {
    let alloc = rt.alloc();
    let Single {
        shelf,
        heap,
        mut ctx,
    } = share_one(&rt, alloc, fickle(&rt, alloc, 0, None));
    use_cache(&rt, alloc, &shelf, &heap, &mut ctx);
    drop((shelf, heap, ctx));
}
