//! What the calls of a trace come to where they begin.

ghost use Rattle.std.specs.Prelude.{◌≡◌, ◌<◌, None, Some, Ok, true, IfOk, IfSome};
ghost use Rattle.call_plan.specs.Laws.{IsInRange};
ghost use Rattle.ctl_values.specs.Plans.{text_of};
ghost use Rattle.ctl_values.specs.Steps.{AreTimes, IsStep};
ghost use Rattle.sits.specs.Arenas.{record_at};
ghost use Rattle.space_model.specs.Purging.{is_purgeable};
ghost use Rattle.trace_text.specs.Grammar.{IsVerbWithinLimits};
ghost use Rattle.replay_run.specs.Beginnings.{IsBeginning, arena_request, arena_with, ctl_begins, ctl_step, decay_list, region_request, request_begins, request_of, step_of, sweep_begins, sweep_over, take_in, target_of};
ghost use Rattle.replay_run.specs.Names.{address_at};
ghost use Rattle.replay_run.specs.Sweeps.{request_next};

use crate::controls::{Controls, arena_answer, error_answer, lookup_answer};
use crate::names::Names;
use crate::sweeps::Sweep;
use call_plan::Request;
use ctl_names::{CtlError, read};
use ctl_values::{CtlStep, Times, Upkeep, Wish, plan};
use heap_core::Heap;
use report_text::CtlAnswer;
use space_model::Rest;
use std::alloc::{AllocError as NoMemory, Global};
use trace_text::{Name, Ptr, Verb};

/// What a call of a line comes to where it begins.
#[derive(Drop)]
pub enum Beginning {
    /// It asks for this.
    Asks {
        /// What is asked for first.
        request: Request,
        /// What is left of its sweep behind that, if it is one.
        sweep: Option<Sweep>,
    },
    /// It is a line of a control that is answered at once.
    Tells(CtlAnswer),
    /// It takes a region at an address at which no arena has an extent.
    FindsNone,
}

/// The list of extents of which a line sets the decay time: the dirty one, or else the muzzy one.
fn decay_list(rest: Rest) -> Rest
    ensures list { result ≡ decay_list rest }
    ensures purgeable { is_purgeable result ≡ true }
{
    match rest {
        Rest::Dirty => Rest::Dirty,
        Rest::Muzzy | Rest::Retained => Rest::Muzzy,
    }
}

/// What a call of a line asks for, if it is about an arena or what its client keeps, at the moment and with the decay times with
/// which arenas are created.
fn arena_request(verb: &Verb, times: Times) -> Option<Request>
    requires limits { IsVerbWithinLimits verb.now }
    requires times { AreTimes times }
    ensures request { result ≡ arena_request times verb.now }
    ensures range { IfSome result IsInRange }
{
    Some(match verb {
        Verb::Purge(arena) => Request::Purge { arena: *arena },
        Verb::Decay(arena) => Request::Decay {
            arena: *arena,
            now: times.now,
        },
        Verb::Time { arena, rest, ms } => Request::Time {
            arena: *arena,
            rest: decay_list(*rest),
            ms: *ms,
            now: times.now,
        },
        Verb::Reset(arena) => Request::Reset { arena: *arena },
        Verb::Destroy(arena) => Request::Destroy { arena: *arena },
        Verb::Create(box_no) => Request::Create {
            box_no: *box_no,
            dirty_ms: times.dirty_ms,
            muzzy_ms: times.muzzy_ms,
            now: times.now,
        },
        Verb::Bind(arena) => Request::Bind { arena: *arena },
        Verb::Cache(on) => Request::Cache(*on),
        Verb::Flush => Request::Flush,
        _ => return None,
    })
}

/// A take of the region that a pointer stands for, where an arena has an extent there.
fn take_of(heap: &Heap, names: &Names, target: &Ptr) -> Option<Request>
    ensures request { result ≡ take_in (address_at names.now target.now) (arena_with heap.now.records (address_at names.now target.now)) }
    ensures range { IfSome result IsInRange }
{
    let addr = names.address_at(target);
    let arena = heap.arena_of(addr)?;
    Some(Request::Take { addr, arena })
}

/// What a call asks for that is about regions, if it is one.
fn region_request(heap: &Heap, names: &Names, verb: &Verb) -> Option<Request>
    ensures request { result ≡ region_request heap.now.records names.now verb.now }
    ensures range { IfSome result IsInRange }
{
    match verb {
        Verb::Malloc { size, .. } => Some(Request::Malloc { size: *size }),
        Verb::Memalign { align, size, .. } => Some(Request::Memalign {
            align: *align,
            size: *size,
        }),
        Verb::Realloc { name, size } => Some(Request::Realloc {
            addr: names.address(name),
            size: *size,
        }),
        Verb::Free(target) => Some(Request::Free {
            addr: names.address_at(target),
        }),
        Verb::Publish(target) => Some(Request::Publish {
            addr: names.address_at(target),
        }),
        Verb::Take(target) => take_of(heap, names, target),
        Verb::MallocIn { size, slot, .. } => Some(Request::MallocIn {
            slot: *slot,
            size: *size,
        }),
        Verb::FreeIn { region, slot } => Some(Request::FreeIn {
            slot: *slot,
            addr: names.address_at(region),
        }),
        _ => None,
    }
}

/// What a call asks for that isn't one of `ctl`; nothing, where it takes a region at an address at which no arena has an extent.
pub fn request_of(heap: &Heap, names: &Names, times: Times, verb: &Verb) -> Option<Request>
    requires limits { IsVerbWithinLimits verb.now }
    requires times { AreTimes times }
    ensures request { result ≡ request_of heap.now.records names.now times verb.now }
    ensures range { IfSome result IsInRange }
{
    match arena_request(verb, times) {
        Some(request) => Some(request),
        None => region_request(heap, names, verb),
    }
}

/// A call that asks for this alone, or looked for a region where no arena has an extent.
pub fn request_begins(request: Option<Request>) -> Beginning
    requires { IfSome request IsInRange }
    ensures begins { result ≡ request_begins request }
    ensures range { IsBeginning result }
{
    match request {
        Some(request) => Beginning::Asks {
            request,
            sweep: None,
        },
        None => Beginning::FindsNone,
    }
}

/// The address that a call which asks for nothing looked for.
pub fn target_of(names: &Names, verb: &Verb) -> u64
    ensures { result ≡ target_of names.now verb.now }
{
    match verb {
        Verb::Take(target) => names.address_at(target),
        _ => 0,
    }
}

/// What a plain line of a control comes to.
fn plain_step(name: &Name, times: Times) -> Result<CtlStep, CtlError>
    requires { AreTimes times }
    ensures step { result ≡ ctl_step name.now None times }
    ensures range { IfOk result IsStep }
{
    plan(read(name.as_bytes())?, Wish::Plain, times)
}

/// What a write of a value to a control comes to.
fn written_step(name: &Name, value: &Name, times: Times) -> Result<CtlStep, CtlError>
    requires { AreTimes times }
    ensures step { result ≡ ctl_step name.now (Some value.now) times }
    ensures range { IfOk result IsStep }
{
    plan(read(name.as_bytes())?, Wish::Write(value.as_bytes()), times)
}

/// What a call comes to, if it is one of `ctl`.
pub fn step_of(verb: &Verb, times: Times) -> Option<Result<CtlStep, CtlError>>
    requires { AreTimes times }
    ensures step { result ≡ step_of times verb.now }
    ensures range { IfSome result (λ step. IfOk step IsStep) }
{
    match verb {
        Verb::CtlPlain(name) => Some(plain_step(name, times)),
        Verb::CtlWrite { name, value } => Some(written_step(name, value, times)),
        _ => None,
    }
}

/// A sweep over the arenas that are live.
fn sweep_over(alloc: Global, heap: &Heap, upkeep: Upkeep) -> Result<Beginning, NoMemory>
    ensures begins { IfOk result (λ begins. begins ≡ sweep_begins (sweep_over heap.now.records upkeep) (request_next (sweep_over heap.now.records upkeep))) }
    ensures range { IfOk result IsBeginning }
{
    let mut sweep = Sweep::over(alloc, heap, upkeep)?;
    let Some(request) = sweep.request() else {
        return Ok(Beginning::Tells(CtlAnswer::Done));
    };
    sweep.advance();
    Ok(Beginning::Asks {
        request,
        sweep: Some(sweep),
    })
}

/// What a line of a control comes to where it begins. What it sets isn't set yet.
pub fn ctl_begins(
    alloc: Global,
    heap: &Heap,
    controls: &Controls,
    client: u32,
    step: CtlStep,
) -> Result<Beginning, NoMemory>
    requires client { client < 32 }
    requires range { IsStep step }
    ensures begins { IfOk result (λ begins. begins ≡ ctl_begins heap.now controls.now client (Ok step)) }
    ensures range { IfOk result IsBeginning }
{
    let answer = match step {
        CtlStep::Number(number) => CtlAnswer::Number(number),
        CtlStep::Call(request) => {
            return Ok(Beginning::Asks {
                request,
                sweep: None,
            });
        }
        CtlStep::CallAll(upkeep) => return sweep_over(alloc, heap, upkeep),
        CtlStep::Setting(reading) => controls.setting(heap, client, reading),
        CtlStep::ArenaSetting(index, reading) => arena_answer(heap, index, reading),
        CtlStep::Default(_, _) | CtlStep::Refresh => CtlAnswer::Done,
        CtlStep::Stat(whose, count) => CtlAnswer::Number(controls.stat(whose, count)),
        CtlStep::Lookup(addr) => lookup_answer(heap, addr),
    };
    Ok(Beginning::Tells(answer))
}
