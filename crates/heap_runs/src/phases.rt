//! Workers that carry out the calls of their clients, each in a thread of its own.
ghost use Rattle.std.specs.Prelude.{◌≡◌, length, IfOk};
ghost use Rattle.std.specs.List.{All};
ghost use Rattle.heap_runs.specs.Heaps.{MayCall, shelf_id};
ghost use Rattle.heap_runs.specs.Walks.{AllWorked, MayWork, Worked};

use crate::heaps::{Ctx, SharedHeap};
use call_plan::Request;
use hook_api::{ExtentHooks, SharedShelf};
use std::alloc::{AllocError as NoMemory, Global};
use std::sync::Wait;
use std::thread;
use std::thread::Threads;

/// A client's part of a phase: its context, and what is asked of it, in order.
#[derive(Drop)]
pub struct Job {
    pub ctx: Ctx,
    pub requests: Vec<Request>,
}

impl SharedHeap {
    /// Carries the requests of a client out, one behind the other. Their answers are not kept.
    pub fn work<R: Wait, H: ExtentHooks>(
        &self,
        rt: &R,
        alloc: Global,
        shelf: &SharedShelf<H>,
        job: Job,
    ) -> Ctx
        requires job { MayWork shelf.now self.now job }
        ensures { Worked shelf.now self.now job.ctx job.requests.items result }
    {
        let Job { mut ctx, requests } = job;
        for i in 0..requests.len() {
            let _answer = self.call(rt, alloc, shelf, &mut ctx, &requests[i]);
        }
        ctx
    }

    /// Carries the requests of several clients out, each client's in a thread of its own where one can be made, and gives the
    /// contexts back in the order of the jobs. Where memory is wanting for the threads the contexts are given up.
    pub fn phase<R: Threads + Wait + Sync, H: ExtentHooks + Send>(
        &self,
        rt: &R,
        alloc: Global,
        shelf: &SharedShelf<H>,
        jobs: Vec<Job>,
    ) -> Result<Vec<Ctx>, NoMemory>
        requires jobs { All (MayWork shelf.now self.now) jobs.items }
        ensures count { IfOk result (λ ctxs. length ctxs.items ≡ length jobs.items) }
        ensures worked { IfOk result (λ ctxs. AllWorked shelf.now self.now jobs.items ctxs.items) }
        ensures may { IfOk result (λ ctxs. All (MayCall (shelf_id shelf.now) self.now) ctxs.items) }
    {
        let run = |job: Job| -> Ctx
            requires { MayWork shelf.now self.now job }
            ensures { Worked shelf.entry.now self.entry.now job.ctx job.requests.items result }
        { self.work(rt, alloc, shelf, job) };
        thread::map_vec(rt, jobs, &run)
    }
}
