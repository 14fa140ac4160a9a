//! Clients in threads of their own, two on each of four arenas, whose journals are replayed once they are done.

ghost use Rattle.std.specs.Prelude.{◌≡◌, ◌<◌, length, IfOk};
ghost use Rattle.std.specs.List.{All};
ghost use Rattle.heap_runs.specs.Heaps.{MayCall, shelf_id};

use super::boxes::fickle;
use super::heaps::{Shelf, Trial, ended, is_done, share};
use super::replays::{Machine, agree};
use super::workers::{Board, Worker, call};
use call_plan::Request;
use heap_runs::{Ctx, SharedHeap};
use std::alloc::{AllocError as NoMemory, Global};
use std::process::Abort;
use std::sync::Wait;
use std::thread;
use std::thread::Threads;

/// How many calls each client makes whose journals an arena replays. (tests/threads sets another number in a copy.)
const MANY: u64 = 2000;

/// How many calls each client makes whose journals the slow machine replays.
const FEW: u64 = 30;

/// How many arenas the clients share.
const ARENAS: u32 = 4;

/// How many clients there are.
const CLIENTS: u32 = 8;

/// How many nanoseconds pass from one call of a client to the next.
const STEP: u64 = 10_000_000;

/// A client makes the arenas but for arena 0, each with a box of its own.
fn make_arenas<R: Wait + Abort>(
    rt: &R,
    alloc: Global,
    shelf: &Shelf,
    heap: &SharedHeap,
    ctx: &mut Ctx,
)
    requires { MayCall (shelf_id shelf.now) heap.now ctx.old }
    ensures { MayCall (shelf_id shelf.now) heap.now ctx.new }
{
    for box_no in 1..ARENAS {
        let request = Request::Create {
            box_no,
            dirty_ms: 1000,
            muzzy_ms: 1000,
            now: 0,
        };
        is_done(rt, heap.call(rt, alloc, shelf, ctx, &request));
    }
}

/// The first of the clients makes the arenas.
fn prepare<R: Wait + Abort>(
    rt: &R,
    alloc: Global,
    shelf: &Shelf,
    heap: &SharedHeap,
    ctxs: &mut Vec<Ctx>,
)
    requires some { 0 < length ctxs.old.items }
    requires may { All (MayCall (shelf_id shelf.now) heap.now) ctxs.old.items }
    ensures count { length ctxs.new.items ≡ length ctxs.old.items }
    ensures may { All (MayCall (shelf_id shelf.now) heap.now) ctxs.new.items }
{
    make_arenas(rt, alloc, shelf, heap, &mut ctxs[0]);
}

/// All calls of a client, in the arena that its number chooses.
fn work<R: Wait + Abort>(
    rt: &R,
    alloc: Global,
    shelf: &Shelf,
    heap: &SharedHeap,
    board: &Board,
    calls: u64,
    mut ctx: Ctx,
) -> Ctx
    requires { MayCall (shelf_id shelf.now) heap.now ctx }
    ensures { MayCall (shelf_id shelf.now) heap.now result }
{
    let client = ctx.client();
    is_done(rt, heap.bind(rt, alloc, shelf, &mut ctx, client % ARENAS));
    is_done(rt, heap.set_cache(rt, alloc, shelf, &mut ctx, true));
    let mut own = Worker::new(alloc, u64::from(client));
    for round in 0..calls {
        let now = round.saturating_mul(STEP);
        call(rt, alloc, shelf, heap, board, &mut ctx, &mut own, now);
    }
    drop(own);
    ctx
}

/// All calls of all clients, each client's in a thread of its own.
fn work_at_once<R: Threads + Wait + Abort + Sync>(
    rt: &R,
    alloc: Global,
    shelf: &Shelf,
    heap: &SharedHeap,
    board: &Board,
    calls: u64,
    ctxs: Vec<Ctx>,
) -> Result<Vec<Ctx>, NoMemory>
    requires { All (MayCall (shelf_id shelf.now) heap.now) ctxs.items }
    ensures count { IfOk result (λ after. length after.items ≡ length ctxs.items) }
    ensures may { IfOk result (λ after. All (MayCall (shelf_id shelf.now) heap.now) after.items) }
{
    let run = |ctx: Ctx| -> Ctx
        requires { MayCall (shelf_id shelf.now) heap.now ctx }
        ensures { MayCall (shelf_id shelf.entry.now) heap.entry.now result }
    { work(rt, alloc, shelf, heap, board, calls, ctx) };
    thread::map_vec(rt, ctxs, &run)
}

/// The clients make so many calls each over boxes that refuse one in so many asks. The journals that they leave are replayed, and how
/// many calls were refused comes back.
fn crowd<R: Threads + Wait + Abort + Sync>(
    rt: &R,
    alloc: Global,
    one_in: u64,
    calls: u64,
    machine: Machine,
) -> u64 {
    let Trial {
        shelf,
        heap,
        mut ctxs,
    } = share(rt, alloc, fickle(rt, alloc, one_in, None), CLIENTS);
    prepare(rt, alloc, &shelf, &heap, &mut ctxs);
    let board = Board::new(alloc);
    let ctxs = work_at_once(rt, alloc, &shelf, &heap, &board, calls, ctxs).expect(
        rt,
        "memory for threads",
    );
    let closed = ended(rt, alloc, &shelf, heap, ctxs);
    assert!(rt; agree(rt, alloc, machine, &closed) > calls);
    let refused = board.refused();
    drop((closed, board, shelf));
    refused
}

#[test]
fn journals_of_threads_leave_their_counts(rt: HostRuntime) {
    let alloc = rt.alloc();
    assert_eq!(rt; crowd(&rt, alloc, 0, MANY, Machine::Arena), 0);
}

#[test]
fn journals_of_refusals_leave_their_counts(rt: HostRuntime) {
    let alloc = rt.alloc();
    assert!(rt; crowd(&rt, alloc, 20, MANY, Machine::Arena) > 0);
}

#[test]
fn counts_are_the_sums_of_replayed_spaces(rt: HostRuntime) {
    let alloc = rt.alloc();
    assert_eq!(rt; crowd(&rt, alloc, 0, FEW, Machine::Plain), 0);
    assert!(rt; crowd(&rt, alloc, 20, FEW, Machine::Plain) > 0);
}
