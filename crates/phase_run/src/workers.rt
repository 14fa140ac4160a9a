//! Workers, each of which carries out what one client does in a phase.
ghost use Rattle.std.specs.Prelude.{◌≡◌, ◌++◌, ◌≤◌, length, IfOk};
ghost use Rattle.heap_runs.specs.Heaps.{MayCall, shelf_id};
ghost use Rattle.phase_run.specs.Shifts.{Carries, HasWorked, MayWork, Shifted, background};

use crate::jobs::Job;
use crate::names::Names;
use crate::requests::request_of;
use crate::tally::Tally;
use back_purge::rounds;
use call_plan::Answered;
use heap_runs::{Ctx, SharedHeap};
use hook_api::{ExtentHooks, SharedShelf};
use space_model::Seq;
use std::alloc::{AllocError as NoMemory, Global};
use std::sync::Wait;
use trace_phase::PhaseCall;

/// A client's worker in a phase. It borrows nothing, so it may go to another thread.
#[derive(Drop)]
pub struct Worker {
    /// What the client has of the heap.
    pub ctx: Ctx,
    /// The calls of the client's lines.
    pub job: Job,
    /// How many rounds it makes behind these: 0, except for the worker in the background.
    pub rounds: u32,
    /// The arenas of a round.
    pub arenas: Vec<u32>,
}

/// What a client has in a phase, between two calls.
#[derive(Drop)]
pub struct Shift {
    /// What it has of the heap.
    pub ctx: Ctx,
    /// The names that its worker knows.
    pub names: Names,
    /// How many calls it made.
    pub tally: Tally,
}

impl Worker {
    /// Whether it has nothing to do.
    pub(crate) fn is_idle(&self) -> bool {
        self.job.calls.is_empty() && self.rounds == 0
    }
}

/// Carries a call of a phase out, and binds its name. An `Err` says that memory was wanting, for the call too.
fn carry<R: Wait, H: ExtentHooks>(
    rt: &R,
    alloc: Global,
    heap: &SharedHeap,
    shelf: &SharedShelf<H>,
    shift: &mut Shift,
    moment: u64,
    call: PhaseCall,
) -> Result<(), NoMemory>
    requires may { MayCall (shelf_id shelf.now) heap.now shift.old.ctx }
    ensures { IfOk result (λ u. Carries shelf.now heap.now moment call shift.old shift.new) }
{
    let request = request_of(moment, &shift.names, &call);
    match heap.call(rt, alloc, shelf, &mut shift.ctx, &request) {
        Answered::NoMemory => Err(NoMemory),
        answer => {
            shift.tally.count(&answer);
            shift.names.bind_answer(call, &answer, shift.ctx.desk())
        }
    }
}

/// Carries calls of a phase out, one behind the other. An `Err` says that memory was wanting.
fn carry_all<R: Wait, H: ExtentHooks>(
    rt: &R,
    alloc: Global,
    heap: &SharedHeap,
    shelf: &SharedShelf<H>,
    shift: Shift,
    moment: u64,
    calls: Seq<PhaseCall>,
) -> Result<Shift, NoMemory>
    requires may { MayCall (shelf_id shelf.now) heap.now shift.ctx }
    ensures { IfOk result (λ new. Shifted shelf.now heap.now moment calls shift new) }
{
    let mut shift = shift;
    for call in calls.into_vec() {
        carry(rt, alloc, heap, shelf, &mut shift, moment, call)?;
    }
    Ok(shift)
}

/// Makes the rounds of a worker in the background. An `Err` says that memory was wanting.
fn make_rounds<R: Wait, H: ExtentHooks>(
    rt: &R,
    alloc: Global,
    heap: &SharedHeap,
    shelf: &SharedShelf<H>,
    shift: Shift,
    moment: u64,
    arenas: &[u32],
    count: u32,
) -> Result<Shift, NoMemory>
    requires may { MayCall (shelf_id shelf.now) heap.now shift.ctx }
    requires few { length arenas.now ≤ 32 }
    ensures { IfOk result (λ new. Shifted shelf.now heap.now moment (background arenas.now count) shift new) }
{
    let Shift {
        mut ctx,
        names,
        mut tally,
    } = shift;
    let Ok(calls) = rounds(heap, rt, alloc, shelf, &mut ctx, arenas, count, moment) else {
        return Err(NoMemory);
    };
    tally.fits();
    tally.add(Tally { calls, failed: 0 });
    Ok(Shift { ctx, names, tally })
}

/// Carries out what a client does in a phase: the calls of its lines, and then its rounds. An `Err` says that memory was wanting.
pub fn work<R: Wait, H: ExtentHooks>(
    rt: &R,
    alloc: Global,
    heap: &SharedHeap,
    shelf: &SharedShelf<H>,
    worker: Worker,
) -> Result<Shift, NoMemory>
    requires { MayWork (shelf_id shelf.now) heap.now worker }
    ensures { IfOk result (HasWorked shelf.now heap.now worker) }
{
    let Worker {
        ctx,
        job,
        rounds,
        arenas,
    } = worker;
    let Job {
        moment,
        calls,
        names,
        ..
    } = job;
    let shift = Shift {
        ctx,
        names,
        tally: Tally::new(),
    };
    let shift = carry_all(rt, alloc, heap, shelf, shift, moment, calls)?;
    make_rounds(rt, alloc, heap, shelf, shift, moment, &arenas, rounds)
}
