//! The workers of a phase, beside each other.
ghost use Rattle.std.specs.Prelude.{◌≡◌, ◌++◌, ◌∷◌, [], IfOk};
ghost use Rattle.std.specs.List.{All, flat_map};
ghost use Rattle.atomic_table.specs.Seated.{TableId};
ghost use Rattle.heap_runs.specs.Heaps.{shelf_id};
ghost use Rattle.heap_runs.specs.declared.heaps.SharedHeap.{SharedHeap};
ghost use Rattle.phase_run.specs.Crowds.{AreJoined, HaveWorked};
ghost use Rattle.phase_run.specs.Shifts.{MayWork};

use crate::workers::{Shift, Worker, work};
use heap_runs::SharedHeap;
use hook_api::{ExtentHooks, SharedShelf};
use std::alloc::{AllocError as NoMemory, Global};
use std::sync::Wait;
use std::thread;
use std::thread::Threads;

/// Whether nobody has anything to do.
fn are_idle(workers: &[Worker]) -> bool {
    for worker in workers {
        if !worker.is_idle() {
            return false;
        }
    }
    true
}

/// A group with one worker more.
fn with_worker(group: Vec<Worker>, worker: Worker) -> Result<Vec<Worker>, NoMemory>
    ensures { IfOk result (λ more. more.items ≡ group.items ++ worker ∷ []) }
{
    let mut more = group;
    more.push(worker)?;
    Ok(more)
}

/// Puts a worker behind the others of a group, or alone into a new one, where both have something to do. The group comes back that
/// goes on.
fn add_worker(
    alloc: Global,
    groups: &mut Vec<Vec<Worker>>,
    group: Vec<Worker>,
    worker: Worker,
) -> Result<Vec<Worker>, NoMemory>
    ensures { IfOk result (λ last. flat_map (λ g. g.items) groups.new.items ++ last.items ≡ (flat_map (λ g. g.items) groups.old.items ++ group.items) ++ worker ∷ []) }
{
    if worker.is_idle() || are_idle(&group) {
        return with_worker(group, worker);
    }
    groups.push(group)?;
    with_worker(Vec::new(alloc), worker)
}

/// The workers in groups, one behind the other, of which each has one worker at most that has something to do.
fn groups_of(alloc: Global, workers: Vec<Worker>) -> Result<Vec<Vec<Worker>>, NoMemory>
    ensures { IfOk result (λ groups. flat_map (λ g. g.items) groups.items ≡ workers.items) }
{
    let mut groups = Vec::new(alloc);
    let mut last = Vec::new(alloc);
    for worker in workers {
        last = add_worker(alloc, &mut groups, last, worker)?;
    }
    groups.push(last)?;
    Ok(groups)
}

/// Carries out what some workers have to do, one behind the other. An `Err` says that memory was wanting.
fn work_in_turn<R: Wait, H: ExtentHooks>(
    rt: &R,
    alloc: Global,
    heap: &SharedHeap,
    shelf: &SharedShelf<H>,
    workers: Vec<Worker>,
) -> Result<Vec<Shift>, NoMemory>
    requires { All (MayWork (shelf_id shelf.now) heap.now) workers.items }
    ensures { IfOk result (λ shifts. HaveWorked shelf.now heap.now workers.items shifts.items) }
{
    let mut shifts = Vec::new(alloc);
    for worker in workers {
        shifts.push(work(rt, alloc, heap, shelf, worker)?)?;
    }
    Ok(shifts)
}

/// What groups of workers leave, one behind the other.
fn joined(alloc: Global, groups: Vec<Result<Vec<Shift>, NoMemory>>) -> Result<Vec<Shift>, NoMemory>
    ensures { IfOk result (λ all. AreJoined (λ g. g.items) groups.items all.items) }
{
    let mut all = Vec::new(alloc);
    for group in groups {
        all.append(&mut group?)?;
    }
    Ok(all)
}

/// Carries out what some workers have to do, each that has something in a thread of its own where one can be made, and gives what
/// they leave, in their order. Where memory is wanting, their contexts are given up.
pub fn work_at_once<R: Threads + Wait + Sync, H: ExtentHooks + Send>(
    rt: &R,
    alloc: Global,
    heap: &SharedHeap,
    shelf: &SharedShelf<H>,
    workers: Vec<Worker>,
) -> Result<Vec<Shift>, NoMemory>
    requires { All (MayWork (shelf_id shelf.now) heap.now) workers.items }
    ensures { IfOk result (λ shifts. HaveWorked shelf.now heap.now workers.items shifts.items) }
{
    let groups = groups_of(alloc, workers)?;
    let run = |group: Vec<Worker>| -> Result<Vec<Shift>, NoMemory>
        requires { All (MayWork (shelf_id shelf.now) heap.now) group.items }
        ensures { IfOk result (λ shifts. HaveWorked shelf.entry.now heap.entry.now group.items shifts.items) }
    { work_in_turn(rt, alloc, heap, shelf, group) };
    joined(alloc, thread::map_vec(rt, groups, &run)?)
}
