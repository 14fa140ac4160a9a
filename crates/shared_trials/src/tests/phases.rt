//! The workers of a phase, which carry out requests that were made before.
ghost use Rattle.std.specs.Prelude.{◌≡◌, length, IfOk};
ghost use Rattle.std.specs.List.{All};
ghost use Rattle.call_plan.specs.Laws.{IsInRange};
ghost use Rattle.heap_runs.specs.Heaps.{MayCall, shelf_id};
ghost use Rattle.heap_runs.specs.Walks.{MayWork};

use super::boxes::fickle;
use super::heaps::{Shelf, Trial, ended, last, share};
use call_plan::Request;
use heap_runs::{Closed, Ctx, Job, SharedHeap};
use std::alloc::{AllocError as NoMemory, Global};
use std::process::Abort;

/// What one client asks for: regions of many sizes, and now and then that unused pages go.
fn requests(alloc: Global) -> Result<Vec<Request>, NoMemory>
    ensures { IfOk result (λ requests. All IsInRange requests.items) }
{
    let mut requests = Vec::new(alloc);
    for i in 0..100 {
        let request = if i % 20 == 19 {
            Request::Purge { arena: 0 }
        } else {
            Request::Malloc { size: 1000 * i }
        };
        requests.push(request)?;
    }
    Ok(requests)
}

/// What the worker of a client is to do.
fn job(alloc: Global, shelf: &Shelf, heap: &SharedHeap, ctx: Ctx) -> Result<Job, NoMemory>
    requires { MayCall (shelf_id shelf.now) heap.now ctx }
    ensures { IfOk result (MayWork shelf.now heap.now) }
{
    let requests = requests(alloc)?;
    Ok(Job { ctx, requests })
}

/// A job for each client.
fn jobs(
    alloc: Global,
    shelf: &Shelf,
    heap: &SharedHeap,
    mut ctxs: Vec<Ctx>,
) -> Result<Vec<Job>, NoMemory>
    requires { All (MayCall (shelf_id shelf.now) heap.now) ctxs.items }
    ensures may { IfOk result (λ jobs. All (MayWork shelf.now heap.now) jobs.items) }
    ensures count { IfOk result (λ jobs. length jobs.items ≡ length ctxs.items) }
{
    let mut jobs = Vec::new(alloc);
    while let Some(ctx) = last(shelf, heap, &mut ctxs) {
        jobs.push(job(alloc, shelf, heap, ctx)?)?;
    }
    Ok(jobs)
}

/// Checks what a heap leaves whose clients were eight.
fn is_full(rt: &impl Abort, closed: &Closed) {
    let journals = closed.journals.as_slice();
    assert_eq!(rt; (journals.len(), closed.seats.len()), (32, 8));
    assert!(rt; journals[0].kept.len() > 2000);
}

#[test]
fn clients_in_threads_share_an_arena(rt: HostRuntime) {
    let alloc = rt.alloc();
    let Trial { shelf, heap, ctxs } = share(&rt, alloc, fickle(&rt, alloc, 0, None), 8);
    let jobs = jobs(alloc, &shelf, &heap, ctxs).expect(&rt, "memory for jobs");
    let ctxs = heap
        .phase(&rt, alloc, &shelf, jobs)
        .expect(&rt, "memory for threads");
    let closed = ended(&rt, alloc, &shelf, heap, ctxs);
    is_full(&rt, &closed);
    drop((closed, shelf));
}
