//! Turns in several arenas, what their journals have then, and calls of several clients.

ghost use Rattle.std.specs.Prelude.{◌<◌};
ghost use Rattle.call_plan.specs.Laws.{IsInRange};

use call_plan::{Answered, Given, Request};
use heap_core::{Arenas, Did, Heap};
use hook_api::{HookShelf, Journal, Kept, Kind, RisingHooks};
use space_model::{Answer, Life, Op, Reply, Seq, Setting};
use std::alloc::Global;
use std::process::Abort;

/// The client whose turns these are.
const CLIENT: u32 = 3;

/// The arenas of a new heap. What a test owns is let go by `drop`, which is proved far faster than the end of a scope.
fn new_arenas(rt: &impl Abort, alloc: Global) -> Arenas {
    Arenas::new(alloc).expect(rt, "memory for arenas")
}

/// Arena 1 comes to be.
fn make(rt: &impl Abort, arenas: &mut Arenas) {
    let mut live = Op::Set(Setting::Live {
        box_no: 7,
        dirty_ms: -1,
        muzzy_ms: 5000,
        now: 9,
    });
    let mut reply = Reply::Nothing;
    arenas
        .turn(1, CLIENT, &mut live, &None, &mut reply)
        .expect(rt, "memory for a turn");
    assert!(rt; reply == Reply::Noted);
    assert!(rt; arenas.at(1).life() == Life::Live);
    assert_eq!(rt; arenas.at(1).box_no(), 7);
}

/// A look for 5 pages in an arena has a reply.
fn look(rt: &impl Abort, arenas: &mut Arenas, arena: u32, reply: Reply)
    requires { arena < 32 }
{
    let mut op = Op::Look { pages: 5, align: 1 };
    let mut told = Reply::Nothing;
    arenas
        .turn(arena, CLIENT, &mut op, &None, &mut told)
        .expect(rt, "memory for a turn");
    assert!(rt; told == reply);
}

/// Arena 1 comes to be, and arenas 0 and 2 reply to a look.
fn take_turns(rt: &impl Abort, arenas: &mut Arenas) {
    make(rt, arenas);
    look(rt, arenas, 0, Reply::Grow { series: 1 });
    look(rt, arenas, 2, Reply::NoArena);
    assert!(rt; arenas.at(2).life() == Life::Absent);
    assert_eq!(rt; arenas.arena_of(512), None);
}

#[test]
fn arenas_have_turns_of_their_own(rt: HostRuntime) {
    let mut arenas = new_arenas(&rt, rt.alloc());
    take_turns(&rt, &mut arenas);
    drop(arenas);
}

/// The entries of a journal.
fn entries_of(rt: &impl Abort, alloc: Global, journal: &Journal) -> Seq<Kept> {
    journal.kept.to_list(alloc).expect(rt, "memory for entries")
}

/// Checks that each entry of a journal is a look of the client for 5 pages.
fn has_looks(rt: &impl Abort, alloc: Global, journal: &Journal) {
    let entries = entries_of(rt, alloc, journal);
    for kept in entries.as_slice() {
        assert!(rt; kept.entry().client == CLIENT);
        assert!(rt; matches!(kept.entry().op, Op::Look { pages: 5, align: 1 }));
    }
    drop(entries);
}

/// Checks that each entry of a journal is a setting by the client.
fn has_settings(rt: &impl Abort, alloc: Global, journal: &Journal) {
    let entries = entries_of(rt, alloc, journal);
    for kept in entries.as_slice() {
        assert!(rt; kept.entry().client == CLIENT && matches!(kept.entry().op, Op::Set(_)));
    }
    drop(entries);
}

#[test]
fn journals_have_the_entries_of_their_arena(rt: HostRuntime) {
    let mut arenas = new_arenas(&rt, rt.alloc());
    make(&rt, &mut arenas);
    look(&rt, &mut arenas, 0, Reply::Grow { series: 1 });
    look(&rt, &mut arenas, 0, Reply::Grow { series: 1 });
    let journals = arenas.into_journals();
    let kept = journals.as_slice();
    let lens = [kept[0].kept.len(), kept[1].kept.len(), kept[31].kept.len()];
    assert_eq!(rt; lens, [2, 1, 0]);
    has_looks(&rt, rt.alloc(), &kept[0]);
    has_settings(&rt, rt.alloc(), &kept[1]);
    drop(journals);
}

/// A shelf of 32 boxes, each of which places ever higher ranges.
pub(crate) fn rising(rt: &impl Abort, alloc: Global) -> HookShelf<RisingHooks> {
    let mut boxes = Vec::new(alloc);
    while boxes.len() < 32 {
        boxes
            .push(RisingHooks::new())
            .expect(rt, "memory for a box");
    }
    HookShelf::new(boxes)
}

/// A new heap.
pub(crate) fn new_heap(rt: &impl Abort, alloc: Global) -> Heap {
    Heap::new(alloc).expect(rt, "memory for a heap")
}

/// Begins a call of a client that has none open.
fn start(
    rt: &impl Abort,
    heap: &mut Heap,
    client: u32,
    request: Request,
    alloc: Global,
) -> Option<Answered>
    requires client { client < 32 }
    requires range { IsInRange request }
{
    if heap.has_call(client) {
        return None;
    }
    heap.start(alloc, client, request)
        .expect(rt, "memory for a call")
}

/// Carries a call of a client out, to its answer.
pub(crate) fn carry_out(
    rt: &impl Abort,
    heap: &mut Heap,
    shelf: &mut HookShelf<RisingHooks>,
    client: u32,
    request: Request,
    alloc: Global,
) -> Option<Answered>
    requires client { client < 32 }
    requires range { IsInRange request }
{
    let mut ended = start(rt, heap, client, request, alloc);
    for _ in 0..1000 {
        if ended.is_some() {
            return ended;
        }
        ended = heap.step_client(alloc, client, shelf).ended;
    }
    ended
}

/// The address of the region that a call gave.
pub(crate) fn region(answer: Option<Answered>) -> Option<u64> {
    match answer {
        Some(Answered::Ok(Given::Region { addr, .. })) => Some(addr),
        _ => None,
    }
}

/// How many bytes of arena 0 are allocated.
fn allocated(heap: &Heap) -> Option<u64> {
    Some(heap.counts(0)?.allocated)
}

/// Checks that a heap has arena 0 alone, as it begins.
fn is_new(rt: &impl Abort, heap: &Heap) {
    assert!(rt; heap.live(0) && !heap.live(1) && !heap.live(32));
    assert_eq!(rt; heap.setting(0), Some((0, 10000, 0)));
    assert_eq!(rt; heap.setting(1), None);
    assert_eq!(rt; allocated(heap), Some(0));
    assert!(rt; heap.counts(32).is_none());
}

#[test]
fn a_heap_begins_with_arena_0(rt: HostRuntime) {
    let heap = new_heap(&rt, rt.alloc());
    is_new(&rt, &heap);
    drop(heap);
}

/// Client 0 gets a region, and client 1 frees it.
fn free_by_another(
    rt: &impl Abort,
    alloc: Global,
    heap: &mut Heap,
    shelf: &mut HookShelf<RisingHooks>,
) {
    let malloc = Request::Malloc { size: 20000 };
    let addr = region(carry_out(rt, heap, shelf, 0, malloc, alloc)).unwrap_or(0);
    assert_eq!(rt; heap.arena_of(addr), Some(0));
    assert_eq!(rt; heap.holder_of(addr), Some(0));
    let freed = carry_out(rt, heap, shelf, 1, Request::Free { addr }, alloc);
    assert!(rt; matches!(freed, Some(Answered::Ok(Given::Done))));
    assert_eq!(rt; heap.holder_of(addr), None);
    assert_eq!(rt; allocated(heap), Some(0));
}

#[test]
fn a_region_is_freed_by_another_client(rt: HostRuntime) {
    let alloc = rt.alloc();
    let (mut heap, mut shelf) = (new_heap(&rt, alloc), rising(&rt, alloc));
    free_by_another(&rt, alloc, &mut heap, &mut shelf);
    drop((heap, shelf));
}

/// Steps two clients in turn, each to the end of its call. Gives the addresses of the regions that they got.
fn by_turns(
    heap: &mut Heap,
    shelf: &mut HookShelf<RisingHooks>,
    alloc: Global,
) -> (Option<u64>, Option<u64>) {
    let mut got = (None, None);
    for _ in 0..1000 {
        if let Some(addr) = region(heap.step_client(alloc, 0, shelf).ended) {
            got.0 = Some(addr);
        }
        if let Some(addr) = region(heap.step_client(alloc, 1, shelf).ended) {
            got.1 = Some(addr);
        }
    }
    got
}

/// Two clients have calls at once, which get a region each.
fn interleave(rt: &impl Abort, alloc: Global, heap: &mut Heap, shelf: &mut HookShelf<RisingHooks>) {
    start(rt, heap, 0, Request::Malloc { size: 20000 }, alloc);
    start(rt, heap, 1, Request::Malloc { size: 9 }, alloc);
    let (first, second) = by_turns(heap, shelf, alloc);
    assert!(rt; first.is_some() && second.is_some() && first != second);
    assert_eq!(rt; allocated(heap), Some(20480 + 16));
}

/// Checks that a heap leaves so many entries of arena 0, and so many asks.
fn leaves(rt: &impl Abort, alloc: Global, heap: Heap, entries: usize, asks: usize) {
    let (journals, heard) = heap.finish();
    let first = journals.as_slice().first();
    assert_eq!(rt; first.map(|journal| journal.kept.len()), Some(entries));
    let heard_list = heard.to_list(alloc).expect(rt, "memory for asks");
    assert_eq!(rt; heard_list.len(), asks);
    drop((journals, heard, heard_list));
}

#[test]
fn calls_of_two_clients_interleave(rt: HostRuntime) {
    let alloc = rt.alloc();
    let (mut heap, mut shelf) = (new_heap(&rt, alloc), rising(&rt, alloc));
    interleave(&rt, alloc, &mut heap, &mut shelf);
    drop(shelf);
    leaves(&rt, alloc, heap, 9, 4);
}

/// A malloc is refused, and the next one is not.
fn refuse_first(
    rt: &impl Abort,
    alloc: Global,
    heap: &mut Heap,
    shelf: &mut HookShelf<RisingHooks>,
) {
    shelf.plan(0, Kind::Alloc, 1);
    let malloc = Request::Malloc { size: 20000 };
    let refused = carry_out(rt, heap, shelf, 0, malloc, alloc);
    assert!(rt; matches!(refused, Some(Answered::Refused(_))));
    assert!(rt;
        heap.last_ask()
            .is_some_and(|asked| asked.answer() == Answer::Refused)
    );
    let malloc = Request::Malloc { size: 20000 };
    assert!(rt; region(carry_out(rt, heap, shelf, 0, malloc, alloc)).is_some());
}

#[test]
fn a_refused_alloc_ends_a_malloc(rt: HostRuntime) {
    let alloc = rt.alloc();
    let (mut heap, mut shelf) = (new_heap(&rt, alloc), rising(&rt, alloc));
    refuse_first(&rt, alloc, &mut heap, &mut shelf);
    drop((heap, shelf));
}

/// A client without a call is stepped.
fn step_idly(rt: &impl Abort, alloc: Global, heap: &mut Heap, shelf: &mut HookShelf<RisingHooks>) {
    let told = heap.step_client(alloc, 5, shelf);
    assert!(rt; matches!(told.did, Did::Idle) && told.ended.is_none());
    assert!(rt; heap.last_ask().is_none());
}

#[test]
fn a_step_without_a_call_is_idle(rt: HostRuntime) {
    let alloc = rt.alloc();
    let (mut heap, mut shelf) = (new_heap(&rt, alloc), rising(&rt, alloc));
    step_idly(&rt, alloc, &mut heap, &mut shelf);
    drop((heap, shelf));
}
