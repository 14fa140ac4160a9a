//! Heaps of the tests, and what is read of the answers.

ghost use Rattle.std.specs.Prelude.{◌≡◌, ◌+◌, ◌≤◌, ◌<◌, length, IfSome, None};
ghost use Rattle.std.specs.List.{All};
ghost use Rattle.heap_runs.specs.Heaps.{MayCall, shelf_id};

use super::boxes::FickleHooks;
use call_plan::{Answered, Given};
use heap_runs::{Closed, Ctx, SharedHeap};
use hook_api::{HookShelf, SharedShelf};
use space_model::Counts;
use std::alloc::Global;
use std::process::Abort;
use std::sync::Wait;

/// The shelf of the tests.
pub(crate) type Shelf = SharedShelf<FickleHooks>;

/// A heap over a shelf, and what each of its clients has of it. What a test owns is let go by `drop`, which is proved far faster than
/// the end of a scope.
pub(crate) struct Trial {
    pub(crate) shelf: Shelf,
    pub(crate) heap: SharedHeap,
    pub(crate) ctxs: Vec<Ctx>,
}

/// A heap over a shelf, and what its one client has of it.
#[derive(Drop)]
pub(crate) struct Single {
    pub(crate) shelf: Shelf,
    pub(crate) heap: SharedHeap,
    pub(crate) ctx: Ctx,
}

/// A heap over a shelf, and what its two clients have of it.
#[derive(Drop)]
pub(crate) struct Pair {
    pub(crate) shelf: Shelf,
    pub(crate) heap: SharedHeap,
    pub(crate) one: Ctx,
    pub(crate) other: Ctx,
}

/// A heap of so many clients over these boxes.
pub(crate) fn share(
    rt: &impl Abort,
    alloc: Global,
    boxes: HookShelf<FickleHooks>,
    clients: u32,
) -> Trial
    requires { (0 < clients) × (clients ≤ 32) }
    ensures may { All (MayCall (shelf_id result.shelf) result.heap) result.ctxs.items }
    ensures count { length result.ctxs.items ≡ result.heap.clients }
    ensures some { 0 < length result.ctxs.items }
{
    let Ok((shelf, seats)) = boxes.share(alloc, clients) else {
        panic!(rt; "memory for a shelf")
    };
    let Ok((heap, ctxs)) = SharedHeap::new(alloc, seats) else {
        panic!(rt; "memory for a heap")
    };
    Trial { shelf, heap, ctxs }
}

/// What the last of the clients has.
pub(crate) fn last(shelf: &Shelf, heap: &SharedHeap, ctxs: &mut Vec<Ctx>) -> Option<Ctx>
    requires { All (MayCall (shelf_id shelf.now) heap.now) ctxs.old.items }
    ensures some { IfSome result (MayCall (shelf_id shelf.now) heap.now) }
    ensures rest { All (MayCall (shelf_id shelf.now) heap.now) ctxs.new.items }
    ensures fewer { IfSome result (λ ctx. length ctxs.new.items + 1 ≡ length ctxs.old.items) }
    ensures none { result ≡ None → length ctxs.old.items ≡ 0 }
{
    ctxs.pop()
}

/// What the last of the clients has, of which there is one.
fn next(rt: &impl Abort, shelf: &Shelf, heap: &SharedHeap, ctxs: &mut Vec<Ctx>) -> Ctx
    requires { All (MayCall (shelf_id shelf.now) heap.now) ctxs.old.items }
    ensures may { MayCall (shelf_id shelf.now) heap.now result }
    ensures rest { All (MayCall (shelf_id shelf.now) heap.now) ctxs.new.items }
{
    last(shelf, heap, ctxs).expect(rt, "there is a client")
}

/// A heap of one client over these boxes.
pub(crate) fn share_one(rt: &impl Abort, alloc: Global, boxes: HookShelf<FickleHooks>) -> Single
    ensures { MayCall (shelf_id result.shelf) result.heap result.ctx }
{
    let Trial {
        shelf,
        heap,
        mut ctxs,
    } = share(rt, alloc, boxes, 1);
    let ctx = next(rt, &shelf, &heap, &mut ctxs);
    drop(ctxs);
    Single { shelf, heap, ctx }
}

/// A heap of two clients over these boxes.
pub(crate) fn share_two(rt: &impl Abort, alloc: Global, boxes: HookShelf<FickleHooks>) -> Pair
    ensures one { MayCall (shelf_id result.shelf) result.heap result.one }
    ensures other { MayCall (shelf_id result.shelf) result.heap result.other }
{
    let Trial {
        shelf,
        heap,
        mut ctxs,
    } = share(rt, alloc, boxes, 2);
    let one = next(rt, &shelf, &heap, &mut ctxs);
    let other = next(rt, &shelf, &heap, &mut ctxs);
    drop(ctxs);
    Pair {
        shelf,
        heap,
        one,
        other,
    }
}

/// Ends a heap.
pub(crate) fn ended(
    rt: &impl Abort,
    alloc: Global,
    shelf: &Shelf,
    heap: SharedHeap,
    ctxs: Vec<Ctx>,
) -> Closed
    requires some { 0 < length ctxs.items }
    requires all { length ctxs.items ≡ heap.clients }
    requires may { All (MayCall (shelf_id shelf.now) heap) ctxs.items }
{
    heap.close(alloc, ctxs)
        .expect(rt, "memory for what is left")
}

/// Checks that a call was answered by no failure.
pub(crate) fn is_done(rt: &impl Abort, answer: Answered) {
    assert!(rt; matches!(answer, Answered::Ok(_)));
}

/// The region that a call gave, by its address and its class. There is none where a box refused it.
pub(crate) fn given(rt: &impl Abort, answer: Answered) -> Option<(u64, u8)> {
    match answer {
        Answered::Ok(Given::Region { addr, class }) => Some((addr, class)),
        Answered::Refused(_) => None,
        _ => panic!(rt; "no region was given, and none refused"),
    }
}

/// The address of the region that a call gave.
pub(crate) fn region_of(rt: &impl Abort, answer: Answered) -> u64 {
    let (addr, _) = given(rt, answer).expect(rt, "no box refuses the region");
    addr
}

/// The counts of an arena that is live.
pub(crate) fn counts_of<R: Abort + Wait>(
    rt: &R,
    shelf: &Shelf,
    heap: &SharedHeap,
    ctx: &mut Ctx,
    arena: u32,
) -> Counts
    requires { MayCall (shelf_id shelf.now) heap.now ctx.old }
    ensures { MayCall (shelf_id shelf.now) heap.now ctx.new }
{
    match heap.counts(rt, shelf, ctx, arena) {
        Ok(counts) => counts,
        Err(_) => panic!(rt; "the arena is live"),
    }
}
