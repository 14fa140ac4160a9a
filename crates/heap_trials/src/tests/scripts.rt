//! Calls of a client, and the operations of the entries that they leave in the journals of their arenas.

ghost use Rattle.call_plan.specs.Laws.{IsInRange};

use crate::tests::heaps::{carry_out, new_heap, region, rising};
use call_plan::Request;
use heap_core::Heap;
use hook_api::{HookShelf, Journal, Kind, RisingHooks};
use space_model::Rest;
use std::alloc::Global;
use std::process::Abort;

/// A heap with a shelf for it, of which clients ask.
#[derive(Drop)]
struct Play {
    heap: Heap,
    shelf: HookShelf<RisingHooks>,
}

/// A new heap. What a test owns is let go by `drop`, which is proved far faster than the end of a scope.
fn new_play(rt: &impl Abort, alloc: Global) -> Play {
    Play {
        heap: new_heap(rt, alloc),
        shelf: rising(rt, alloc),
    }
}

/// A request of client 0 is carried out. The address of the region that it answers is told, or 0.
fn ask(rt: &impl Abort, alloc: Global, play: &mut Play, request: Request) -> u64
    requires { IsInRange request }
{
    let answer = carry_out(rt, &mut play.heap, &mut play.shelf, 0, request, alloc);
    assert!(rt; answer.is_some());
    region(answer).unwrap_or(0)
}

/// Whether the last entries of a journal have operations that are written so, or begin so.
fn ends_with(rt: &impl Abort, alloc: Global, journal: &Journal, ops: &[&str]) -> bool {
    let entries = journal.kept.to_list(alloc).expect(rt, "memory for entries");
    let first = entries.as_slice().len().saturating_sub(ops.len());
    for (kept, op) in entries.as_slice()[first..].iter().zip(ops) {
        let text = format!(in alloc; "{:?}", kept.entry().op).expect(rt, "memory for a text");
        assert!(rt; text.as_str().starts_with(op), "{text} is not {op}");
    }
    let whole = ops.len() <= entries.as_slice().len();
    drop(entries);
    whole
}

/// The last entries of arenas from arena 0 on have operations that are written so, or begin so.
fn leave(rt: &impl Abort, alloc: Global, play: Play, ends: &[&[&str]]) {
    let Play { heap, shelf } = play;
    let (journals, heard) = heap.finish();
    for (journal, ops) in journals.as_slice().iter().zip(ends) {
        assert!(rt; ends_with(rt, alloc, journal, ops));
    }
    drop((journals, heard, shelf));
}

#[test]
fn a_malloc_in_an_empty_arena(rt: HostRuntime) {
    let alloc = rt.alloc();
    let mut play = new_play(&rt, alloc);
    ask(&rt, alloc, &mut play, Request::Malloc { size: 20000 });
    let ops = [
        "Look { pages: 5, align: 1 }",
        "GrowDone { heard: Heard { ask: Alloc { commit: false, at: None, pages: 512, align: 512 }",
        "CutDone { heard: Heard { ask: Split { span: Span { first: 512, pages: 512 }, left: 5 }",
        "Land { span: Span { first: 512, pages: 5 }, class: 37, count: 1 }",
    ];
    leave(&rt, alloc, play, &[&ops]);
}

/// The dirty extents of arena 0 are purged at once, and the muzzy ones never.
fn purge_at_once(rt: &impl Abort, alloc: Global, play: &mut Play) {
    let (arena, now) = (0, 0);
    let (rest, ms) = (Rest::Dirty, 0);
    ask(
        rt,
        alloc,
        play,
        Request::Time {
            arena,
            rest,
            ms,
            now,
        },
    );
    let (rest, ms) = (Rest::Muzzy, -1);
    ask(
        rt,
        alloc,
        play,
        Request::Time {
            arena,
            rest,
            ms,
            now,
        },
    );
}

#[test]
fn a_free_that_purges(rt: HostRuntime) {
    let alloc = rt.alloc();
    let mut play = new_play(&rt, alloc);
    purge_at_once(&rt, alloc, &mut play);
    let addr = ask(&rt, alloc, &mut play, Request::Malloc { size: 20000 });
    play.shelf.plan(0, Kind::PurgeLazy, 1);
    play.shelf.plan(0, Kind::Dalloc, 1);
    ask(&rt, alloc, &mut play, Request::Free { addr });
    let ops = [
        "Back { addrs: Addresses { list: Addrs { list: [2097152] } } }",
        "PutLook { span: Span { first: 512, pages: 5 }, tries: 0 }",
        "LazyDone { heard: Heard { ask: PurgeLazy(Span { first: 512, pages: 5 }), answer: Refused } }",
        "Offer { span: Span { first: 512, pages: 5 } }",
        "OfferDone { heard: Heard { ask: Dalloc { span: Span { first: 512, pages: 5 }, committed: true }",
        "DecommitDone { heard: Heard { ask: Decommit(Span { first: 512, pages: 5 }), answer: Done } }",
        "PutLook { span: Span { first: 512, pages: 5 }, tries: 0 }",
    ];
    leave(&rt, alloc, play, &[&ops]);
}

#[test]
fn an_aligned_malloc(rt: HostRuntime) {
    let alloc = rt.alloc();
    let mut play = new_play(&rt, alloc);
    let (align, size) = (4194304, 16384);
    ask(&rt, alloc, &mut play, Request::Memalign { align, size });
    let ops = [
        "Look { pages: 4, align: 1024 }",
        "GrowDone { heard: Heard { ask: Alloc { commit: false, at: None, pages: 512, align: 1024 }",
        "CutDone { heard: Heard { ask: Split { span: Span { first: 1024, pages: 512 }, left: 4 }",
        "Land { span: Span { first: 1024, pages: 4 }, class: 36, count: 1 }",
    ];
    leave(&rt, alloc, play, &[&ops]);
}

/// The cache of client 0 is on, and has what a malloc of class 35 leaves there.
fn fill_cache(rt: &impl Abort, alloc: Global, play: &mut Play) -> u64 {
    ask(rt, alloc, play, Request::Cache(true));
    ask(rt, alloc, play, Request::Malloc { size: 14336 })
}

#[test]
fn a_malloc_fills_the_cache(rt: HostRuntime) {
    let alloc = rt.alloc();
    let mut play = new_play(&rt, alloc);
    fill_cache(&rt, alloc, &mut play);
    let ops = [
        "Fill { class: 35, count: 10 }",
        "Look { pages: 7, align: 1 }",
        "GrowDone { heard: Heard { ask: Alloc { commit: false, at: None, pages: 512, align: 512 }",
        "CutDone { heard: Heard { ask: Split { span: Span { first: 512, pages: 512 }, left: 7 }",
        "Land { span: Span { first: 512, pages: 7 }, class: 35, count: 2 }",
    ];
    leave(&rt, alloc, play, &[&ops]);
}

#[test]
fn a_cached_region_is_handed_out(rt: HostRuntime) {
    let alloc = rt.alloc();
    let mut play = new_play(&rt, alloc);
    let first = fill_cache(&rt, alloc, &mut play);
    let second = ask(&rt, alloc, &mut play, Request::Malloc { size: 14336 });
    assert_eq!(rt; second.abs_diff(first), 14336);
    let ops = ["Land { span: Span { first: 512, pages: 7 }, class: 35, count: 2 }"];
    leave(&rt, alloc, play, &[&ops]);
}

#[test]
fn a_cache_is_flushed_before_it_is_off(rt: HostRuntime) {
    let alloc = rt.alloc();
    let mut play = new_play(&rt, alloc);
    fill_cache(&rt, alloc, &mut play);
    ask(&rt, alloc, &mut play, Request::Cache(false));
    let ops = [
        "Land { span: Span { first: 512, pages: 7 }, class: 35, count: 2 }",
        "Back { addrs: Addresses { list: Addrs { list: [2111488] } } }",
    ];
    leave(&rt, alloc, play, &[&ops]);
}

/// Client 0 gets a region of class 36 from an arena.
fn malloc_in(rt: &impl Abort, alloc: Global, play: &mut Play, arena: u32) -> u64 {
    ask(rt, alloc, play, Request::Bind { arena });
    ask(rt, alloc, play, Request::Malloc { size: 16384 })
}

/// Client 0 has all slots of class 36 used. Of the ten regions that were cached first every other one is of arena 1, and all others
/// are of arena 0. Gives a further region, which it holds.
fn fill_slots(rt: &impl Abort, alloc: Global, play: &mut Play) -> u64 {
    let (box_no, dirty_ms, muzzy_ms, now) = (0, -1, -1, 0);
    ask(
        rt,
        alloc,
        play,
        Request::Create {
            box_no,
            dirty_ms,
            muzzy_ms,
            now,
        },
    );
    let mut addrs = [0; 20];
    for (place, addr) in addrs.iter_mut().enumerate() {
        let arena = if place < 10 && place % 2 == 0 { 1 } else { 0 };
        *addr = malloc_in(rt, alloc, play, arena);
    }
    let last = malloc_in(rt, alloc, play, 0);
    ask(rt, alloc, play, Request::Cache(true));
    for addr in addrs {
        ask(rt, alloc, play, Request::Free { addr });
    }
    last
}

#[test]
fn a_free_into_a_full_cache(rt: HostRuntime) {
    let alloc = rt.alloc();
    let mut play = new_play(&rt, alloc);
    let addr = fill_slots(&rt, alloc, &mut play);
    ask(&rt, alloc, &mut play, Request::Free { addr });
    let five =
        "Back { addrs: Addresses { list: Addrs { list: [4194304, 4210688, 4227072, 4243456, 4259840] } } }";
    let others =
        "Back { addrs: Addresses { list: Addrs { list: [2097152, 2113536, 2129920, 2146304, 2162688] } } }";
    let (put, join) = ("PutLook", "MergeDone");
    let own = [
        five, put, put, join, put, put, join, put, put, join, put, put, join, put,
    ];
    let ends = [
        others, put, put, join, put, put, join, put, put, join, put, put, join, put,
    ];
    leave(&rt, alloc, play, &[&own, &ends]);
}

#[test]
fn a_free_of_a_region_of_another_client(rt: HostRuntime) {
    let alloc = rt.alloc();
    let mut play = new_play(&rt, alloc);
    let malloc = Request::Malloc { size: 20000 };
    let addr = region(carry_out(&rt, &mut play.heap, &mut play.shelf, 1, malloc, alloc)).unwrap_or(
        0,
    );
    ask(&rt, alloc, &mut play, Request::Free { addr });
    let ops = [
        "Publish { addr: 2097152 }",
        "TakeOver { addr: 2097152 }",
        "Back { addrs: Addresses { list: Addrs { list: [2097152] } } }",
        "PutLook { span: Span { first: 512, pages: 5 }, tries: 0 }",
    ];
    leave(&rt, alloc, play, &[&ops]);
}
