//! Calls that a heap carries out where they begin, beside the same calls step by step.

ghost use Rattle.call_plan.specs.Laws.{IsInRange};

use crate::tests::heaps::{carry_out, new_heap, region, rising};
use call_plan::{Answered, Request};
use heap_core::Heap;
use hook_api::{HookShelf, Kind, RisingHooks};
use std::alloc::Global;
use std::process::Abort;

/// A heap with a shelf for it.
#[derive(Drop)]
struct Side {
    heap: Heap,
    shelf: HookShelf<RisingHooks>,
}

/// Two heaps of which client 0 asks for the same: one carries its calls out where they begin, as far as it can, the other one step
/// by step. It is counted how many calls end where they begin.
#[derive(Drop)]
struct Pair {
    carried: Side,
    stepped: Side,
    at_once: u32,
}

/// Two new heaps. What a test owns is let go by `drop`, which is proved far faster than the end of a scope.
fn new_pair(rt: &impl Abort, alloc: Global) -> Pair {
    let carried = Side {
        heap: new_heap(rt, alloc),
        shelf: rising(rt, alloc),
    };
    let stepped = Side {
        heap: new_heap(rt, alloc),
        shelf: rising(rt, alloc),
    };
    Pair {
        carried,
        stepped,
        at_once: 0,
    }
}

/// Carries a request out where it begins, and the rest of its call step by step. Tells whether there was a rest.
fn carry(
    rt: &impl Abort,
    alloc: Global,
    side: &mut Side,
    request: Request,
) -> (Option<Answered>, bool)
    requires range { IsInRange request }
{
    let mut ended = None;
    if side.heap.has_call(0) {
        return (ended, true);
    }
    side.heap
        .carry(alloc, 0, request, &mut ended)
        .expect(rt, "memory for a call");
    let rests = ended.is_none();
    for _ in 0..1000 {
        if ended.is_some() {
            break;
        }
        ended = side.heap.step_client(alloc, 0, &mut side.shelf).ended;
    }
    (ended, rests)
}

/// Both heaps carry a request out, and answer the same region, or no region. Its address is told, or 0.
fn ask_both(rt: &impl Abort, alloc: Global, pair: &mut Pair, request: Request) -> u64
    requires range { IsInRange request }
{
    let (ended, rests) = carry(rt, alloc, &mut pair.carried, request);
    let Side { heap, shelf } = &mut pair.stepped;
    let stepped = carry_out(rt, heap, shelf, 0, request, alloc);
    assert!(rt; ended.is_some() && stepped.is_some());
    let (addr, other) = (region(ended), region(stepped));
    assert_eq!(rt; addr, other);
    if !rests {
        pair.at_once = pair.at_once.saturating_add(1);
    }
    addr.unwrap_or(0)
}

/// Both heaps have so many entries of arena 0 and so many asks.
fn leave_alike(rt: &impl Abort, pair: Pair) {
    let Pair {
        carried,
        stepped,
        ..
    } = pair;
    let (journals, asks) = carried.heap.finish();
    let (others, heard) = stepped.heap.finish();
    let lens = journals.as_slice().iter().map(|journal| journal.kept.len());
    let other_lens = others.as_slice().iter().map(|journal| journal.kept.len());
    assert!(rt; lens.eq(other_lens));
    assert_eq!(rt; asks.len(), heard.len());
    drop((journals, others, asks, heard));
    drop((carried.shelf, stepped.shelf));
}

/// A malloc of a small class ends by its first turn where a slab has a free region, and so does its free.
fn ask_for_small(rt: &impl Abort, alloc: Global, pair: &mut Pair) {
    ask_both(rt, alloc, pair, Request::Malloc { size: 9 });
    assert_eq!(rt; pair.at_once, 0);
    let addr = ask_both(rt, alloc, pair, Request::Malloc { size: 9 });
    assert_eq!(rt; pair.at_once, 1);
    ask_both(rt, alloc, pair, Request::Free { addr });
    assert_eq!(rt; pair.at_once, 2);
}

/// A malloc of a large class ends by two turns where an extent has just its pages, and a free goes on where its extent is put down.
fn ask_for_large(rt: &impl Abort, alloc: Global, pair: &mut Pair) {
    pair.carried.shelf.plan(0, Kind::Merge, 0);
    pair.stepped.shelf.plan(0, Kind::Merge, 0);
    let addr = ask_both(rt, alloc, pair, Request::Malloc { size: 20000 });
    ask_both(rt, alloc, pair, Request::Free { addr });
    assert_eq!(rt; pair.at_once, 0);
    let again = ask_both(rt, alloc, pair, Request::Malloc { size: 20000 });
    assert_eq!(rt; again, addr);
    assert_eq!(rt; pair.at_once, 1);
}

/// With its cache on, a client's free and the malloc behind it end at once, and so does a free of what it doesn't hold.
fn ask_for_cached(rt: &impl Abort, alloc: Global, pair: &mut Pair) {
    ask_both(rt, alloc, pair, Request::Cache(true));
    let addr = ask_both(rt, alloc, pair, Request::Malloc { size: 9 });
    assert_eq!(rt; pair.at_once, 1);
    ask_both(rt, alloc, pair, Request::Free { addr });
    assert_eq!(rt;
        ask_both(rt, alloc, pair, Request::Malloc { size: 9 }),
        addr
    );
    ask_both(rt, alloc, pair, Request::Free { addr: 7 });
    assert_eq!(rt; pair.at_once, 4);
}

#[test]
fn small_regions_come_and_go_by_one_turn(rt: HostRuntime) {
    let alloc = rt.alloc();
    let mut pair = new_pair(&rt, alloc);
    ask_for_small(&rt, alloc, &mut pair);
    leave_alike(&rt, pair);
}

#[test]
fn a_large_region_lands_by_two_turns(rt: HostRuntime) {
    let alloc = rt.alloc();
    let mut pair = new_pair(&rt, alloc);
    ask_for_large(&rt, alloc, &mut pair);
    leave_alike(&rt, pair);
}

#[test]
fn cached_regions_come_and_go_at_once(rt: HostRuntime) {
    let alloc = rt.alloc();
    let mut pair = new_pair(&rt, alloc);
    ask_for_cached(&rt, alloc, &mut pair);
    leave_alike(&rt, pair);
}

/// Calls of small and large classes, some of which end where they begin.
fn ask_for_mixed(rt: &impl Abort, alloc: Global, pair: &mut Pair) {
    let first = ask_both(rt, alloc, pair, Request::Malloc { size: 20000 });
    let second = ask_both(rt, alloc, pair, Request::Malloc { size: 9 });
    let third = ask_both(rt, alloc, pair, Request::Malloc { size: 20000 });
    ask_both(rt, alloc, pair, Request::Free { addr: first });
    ask_both(rt, alloc, pair, Request::Free { addr: third });
    ask_both(rt, alloc, pair, Request::Malloc { size: 20000 });
    ask_both(rt, alloc, pair, Request::Malloc { size: 9 });
    ask_both(rt, alloc, pair, Request::Free { addr: second });
}

/// Has both boxes refuse the ask of a kind with this ordinal, and gives how many of the calls end where they begin.
fn refuse(rt: &impl Abort, alloc: Global, kind: Kind, nth: u64) -> u32 {
    let mut pair = new_pair(rt, alloc);
    pair.carried.shelf.plan(0, kind, nth);
    pair.stepped.shelf.plan(0, kind, nth);
    ask_for_mixed(rt, alloc, &mut pair);
    let at_once = pair.at_once;
    leave_alike(rt, pair);
    at_once
}

/// Of eight calls, how many end where they begin while each of the first four asks of a kind is refused in turn.
fn at_once_without(rt: &impl Abort, alloc: Global, kind: Kind) -> [u32; 4] {
    [1, 2, 3, 4].map(|nth| refuse(rt, alloc, kind, nth))
}

#[test]
fn refused_asks_lead_both_ways_alike(rt: HostRuntime) {
    let alloc = rt.alloc();
    assert_eq!(&rt; at_once_without(&rt, alloc, Kind::Alloc), [4, 3, 3, 3]);
    assert_eq!(&rt; at_once_without(&rt, alloc, Kind::Commit), [3, 3, 3, 3]);
    assert_eq!(&rt; at_once_without(&rt, alloc, Kind::Split), [4, 2, 3, 3]);
    assert_eq!(&rt; at_once_without(&rt, alloc, Kind::Merge), [3, 3, 3, 3]);
}
