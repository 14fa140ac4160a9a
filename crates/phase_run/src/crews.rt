//! The clients of a trace, and what is known between its parts.
ghost use Rattle.std.specs.Prelude.{◌≡◌, ◌≢◌, ◌≤◌, ◌<◌, ℕ, ◌++◌, ◌∷◌, [], true, false, length, replicate, slice_index_or, IfOk, OnOk, if◌then◌else◌};
ghost use Rattle.std.specs.List.{All, position};
ghost use Rattle.atomic_table.specs.Seated.{TableId};
ghost use Rattle.heap_runs.specs.Heaps.{MayCall, shelf_id};
ghost use Rattle.heap_runs.specs.declared.heaps.SharedHeap.{SharedHeap};
ghost use Rattle.trace_phase.specs.Limits.{IsCallWithinLimits, IsPartWithinLimits};
ghost use Rattle.trace_phase.specs.declared.parts.Part.TheVariants as part;
ghost use Rattle.trace_phase.specs.declared.parts.Setting.TheVariants as setting;
ghost use Rattle.phase_run.specs.Crews.{AreFrom, AreWith, Carried, IsReady, IsWith, IsWorker};
ghost use Rattle.phase_run.specs.Crowds.{Pairwise};
ghost use Rattle.phase_run.specs.Names.{known_to};
ghost use Rattle.phase_run.specs.Shifts.{MayWork};
ghost use Rattle.phase_run.specs.Stands.{calls_by, is_of, live_after, live_in, rounds_by};
ghost use Rattle.phase_run.specs.Tally.{no_answers};

use crate::crowds::work_at_once;
use crate::jobs::Job;
use crate::names::Names;
use crate::requests::setting_request;
use crate::tally::Tally;
use crate::workers::{Shift, Worker};
use call_plan::{Answered, Given};
use heap_runs::{Ctx, SharedHeap};
use hook_api::{ExtentHooks, SharedShelf};
use space_model::Seq;
use std::alloc::{AllocError as NoMemory, Global};
use std::sync::Wait;
use std::thread::Threads;
use trace_phase::{Part, Phase, PhaseCall, Setting, SettingCall, Work};

/// The client that makes the rounds of a worker in the background.
const BACKGROUND_CLIENT: u32 = 31;

/// Which arenas are live, by their indexes.
type Live = [bool; 32];

/// The clients of a trace, and what is known between its parts.
#[derive(Drop)]
pub struct Crew {
    /// What each of the 32 clients has of the heap.
    pub ctxs: Vec<Ctx>,
    /// The names with their places.
    pub names: Names,
    /// Which arenas are live.
    pub live: Live,
    /// How many calls were made in phases.
    pub tally: Tally,
}

/// Puts the index of an arena behind those that are there, where it is live.
fn put_live(arenas: &mut Vec<u32>, live: &Live, index: u32) -> Result<(), NoMemory>
    requires { index < 32 }
    ensures { OnOk result (arenas.new.items ≡ arenas.old.items ++ (if slice_index_or live.now index false then index ∷ [] else [])) }
{
    if live[index as usize] {
        arenas.push(index)?;
    }
    Ok(())
}

/// The indexes of the live arenas, rising.
fn live_in(alloc: Global, live: &Live) -> Result<Vec<u32>, NoMemory>
    ensures arenas { IfOk result (λ arenas. arenas.items ≡ live_in live.now) }
    ensures few { IfOk result (λ arenas. length arenas.items ≤ 32) }
{
    let mut arenas = Vec::new(alloc);
    for i in 0..32u32 {
        put_live(&mut arenas, live, i)?;
    }
    Ok(arenas)
}

/// The arenas that are live behind a call between phases.
fn live_after(mut live: Live, call: SettingCall, answer: &Answered) -> Live
    ensures { result ≡ live_after live call answer.now }
{
    match (call, answer) {
        (SettingCall::Create(_), Answered::Ok(Given::Arena(index))) => {
            if *index < 32 {
                live[*index as usize] = true;
            }
            live
        }
        _ => live,
    }
}

/// The place of what a client is to do in a phase.
fn place_of(works: &[Work], client: u32) -> Option<usize>
    ensures { result ≡ position (is_of client) works.now }
{
    works.iter().position(|work| work.client == client)
}

/// Takes the calls of a client out of the works of a phase.
fn take_calls(alloc: Global, works: &mut Vec<Work>, client: u32) -> Seq<PhaseCall>
    ensures calls { result ≡ calls_by client works.old.items }
    ensures others { (other : ℕ) → other ≢ client → calls_by other works.new.items ≡ calls_by other works.old.items }
{
    match place_of(works, client) {
        Some(place) => works.remove(place).calls,
        None => Seq::new(alloc),
    }
}

/// The rounds of a client in a phase with so many in the background.
fn rounds_by(client: u32, rounds: u32) -> u32
    ensures { result ≡ rounds_by client rounds }
{
    if client == BACKGROUND_CLIENT {
        rounds
    } else {
        0
    }
}

/// The worker of a context.
fn worker_of(
    alloc: Global,
    ctx: Ctx,
    names: &Names,
    moment: u64,
    calls: Seq<PhaseCall>,
    rounds: u32,
    arenas: &[u32],
) -> Result<Worker, NoMemory>
    ensures { IfOk result (λ worker. (worker.ctx ≡ ctx) × (worker.job.moment ≡ moment) × (worker.job.names ≡ known_to names.now calls)
        × (worker.job.calls ≡ calls) × (worker.rounds ≡ rounds_by ctx.client rounds) × (worker.arenas.items ≡ arenas.now)) }
{
    let client = ctx.client();
    let job = Job::new(alloc, names, moment, Work { client, calls })?;
    Ok(Worker {
        ctx,
        job,
        rounds: rounds_by(client, rounds),
        arenas: arenas.to_vec(alloc)?,
    })
}

/// A worker for each client.
fn workers_of(
    alloc: Global,
    ctxs: Vec<Ctx>,
    names: &Names,
    live: &Live,
    phase: Phase,
) -> Result<Vec<Worker>, NoMemory>
    requires clients { AreFrom 0 ctxs.items }
    ensures workers { IfOk result (λ workers. Pairwise (IsWorker names.now live.now phase) ctxs.items workers.items) }
    ensures may { IfOk result (λ workers. (shelf : TableId) (heap : SharedHeap) → All (MayCall shelf heap) ctxs.items → All (MayWork shelf heap) workers.items) }
{
    let Phase {
        moment,
        rounds,
        works,
    } = phase;
    let arenas = live_in(alloc, live)?;
    let mut works = works.into_vec();
    let mut workers = Vec::new(alloc);
    for ctx in ctxs {
        let calls = take_calls(alloc, &mut works, ctx.client());
        workers.push(worker_of(alloc, ctx, names, moment, calls, rounds, &arenas)?)?;
    }
    Ok(workers)
}

impl Crew {
    /// Before the first part.
    pub fn new(alloc: Global, ctxs: Vec<Ctx>) -> Crew
        ensures ctxs { result.ctxs ≡ ctxs }
        ensures names { result.names ≡ [] }
        ensures live { result.live ≡ true ∷ replicate 31 false }
        ensures tally { result.tally ≡ no_answers }
    {
        let mut live = [false; 32];
        live[0] = true;
        Crew {
            ctxs,
            names: Names::new(alloc),
            live,
            tally: Tally::new(),
        }
    }

    /// Takes back in what a worker leaves.
    fn take_back(&mut self, shift: Shift) -> Result<(), NoMemory>
        ensures { OnOk result (IsWith self.old shift self.new) }
    {
        let Shift { ctx, names, tally } = shift;
        self.ctxs.push(ctx)?;
        self.names.merge(names)?;
        self.tally.add(tally);
        Ok(())
    }

    /// Takes back in what workers leave.
    fn take_all_back(self, shifts: Vec<Shift>) -> Result<Crew, NoMemory>
        ensures { IfOk result (λ crew. AreWith self shifts.items crew) }
    {
        let mut crew = self;
        for shift in shifts {
            crew.take_back(shift)?;
        }
        Ok(crew)
    }

    /// Carries a phase out. An `Err` says that memory was wanting.
    fn carry_phase<R: Threads + Wait + Sync, H: ExtentHooks + Send>(
        self,
        rt: &R,
        alloc: Global,
        heap: &SharedHeap,
        shelf: &SharedShelf<H>,
        phase: Phase,
    ) -> Result<Crew, NoMemory>
        requires ready { IsReady (shelf_id shelf.now) heap.now self }
        ensures { IfOk result (λ new. Carried shelf.now heap.now self (part.Phase phase) shelf.now new) }
    {
        let Crew {
            ctxs,
            names,
            live,
            tally,
        } = self;
        tally.fits();
        let workers = workers_of(alloc, ctxs, &names, &live, phase)?;
        let shifts = work_at_once(rt, alloc, heap, shelf, workers)?;
        let crew = Crew {
            ctxs: Vec::new(alloc),
            names,
            live,
            tally,
        };
        crew.take_all_back(shifts)
    }

    /// Carries a call between phases out. An `Err` says that memory was wanting.
    fn carry_call<R: Wait, H: ExtentHooks>(
        self,
        rt: &R,
        alloc: Global,
        heap: &SharedHeap,
        shelf: &SharedShelf<H>,
        client: u32,
        moment: u64,
        call: SettingCall,
    ) -> Result<Crew, NoMemory>
        requires ready { IsReady (shelf_id shelf.now) heap.now self }
        requires client { client < 32 }
        requires call { IsCallWithinLimits call }
        ensures { IfOk result (λ new. Carried shelf.now heap.now self (part.Setting (setting.Call client moment call)) shelf.now new) }
    {
        let mut crew = self;
        let request = setting_request(moment, call);
        let ctx = &mut crew.ctxs[client as usize];
        match heap.call(rt, alloc, shelf, ctx, &request) {
            Answered::NoMemory => Err(NoMemory),
            answer => {
                crew.live = live_after(crew.live, call, &answer);
                Ok(crew)
            }
        }
    }

    /// Carries what stands between phases out. An `Err` says that memory was wanting.
    fn carry_setting<R: Wait, H: ExtentHooks>(
        self,
        rt: &R,
        alloc: Global,
        heap: &SharedHeap,
        shelf: &mut SharedShelf<H>,
        setting: Setting,
    ) -> Result<Crew, NoMemory>
        requires ready { IsReady (shelf_id shelf.old) heap.now self }
        requires limits { IsPartWithinLimits (part.Setting setting) }
        ensures { IfOk result (λ new. Carried shelf.old heap.now self (part.Setting setting) shelf.new new) }
    {
        match setting {
            Setting::Refuse { box_no, kind, nth } => {
                shelf.plan(box_no, kind, nth);
                Ok(self)
            }
            Setting::Call {
                client,
                moment,
                call,
            } => self.carry_call(rt, alloc, heap, shelf, client, moment, call),
        }
    }

    /// Carries a part of a trace out. An `Err` says that memory was wanting.
    pub fn carry<R: Threads + Wait + Sync, H: ExtentHooks + Send>(
        self,
        rt: &R,
        alloc: Global,
        heap: &SharedHeap,
        shelf: &mut SharedShelf<H>,
        part: Part,
    ) -> Result<Crew, NoMemory>
        requires ready { IsReady (shelf_id shelf.old) heap.now self }
        requires limits { IsPartWithinLimits part }
        ensures { IfOk result (λ new. Carried shelf.old heap.now self part shelf.new new) }
    {
        match part {
            Part::Phase(phase) => self.carry_phase(rt, alloc, heap, shelf, phase),
            Part::Setting(setting) => self.carry_setting(rt, alloc, heap, shelf, setting),
        }
    }
}
