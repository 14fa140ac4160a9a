//! Lines by which a client mallocs or frees a region, and nobody comes between: they are carried out whole.

ghost use Rattle.std.specs.Prelude.{◌≡◌, ◌<◌, ◌≤◌, ℕ, List, [], None, Some, false, true, is_none, IfErr, IfSome, OnErr, OnOk};
ghost use Rattle.call_plan.specs.Laws.{IsInRange};
ghost use Rattle.heap_core.specs.Carrying.{CarriedOn};
ghost use Rattle.heap_core.specs.Heaps.{HeapFacts};
ghost use Rattle.recorded_arena.specs.Records.{Record};
ghost use Rattle.replay_run.specs.declared.beginnings.Beginning.TheVariants.{Asks};
ghost use Rattle.hook_api.specs.Shelf.{Shelf};
ghost use Rattle.trace_text.specs.declared.lines.Line.{Line};
ghost use Rattle.replay_run.specs.Beginnings.{beginning_of, controls_of};
ghost use Rattle.replay_run.specs.Controls.{ControlFacts};
ghost use Rattle.replay_run.specs.SoFar.{GoesOn, Here, Outset, now_of};
ghost use Rattle.replay_run.specs.Stops.{HasStopCause};
ghost use Rattle.replay_run.specs.World.{Nothing, TheStart, call_at, has_open_call};

use crate::calls::{answer_call, is_starved};
use crate::input::Stop;
use crate::names::Names;
use crate::state::State;
use call_plan::Request;
use edge_io::Sink;
use heap_core::{Heap, Stepped};
use hook_api::{ExtentHooks, HookShelf};
use std::alloc::Global;
use trace_text::Verb;

/// What a malloc or a free asks for, and no other call.
#[inline(always)]
pub fn usual_request(names: &Names, verb: &Verb) -> Option<Request>
    ensures begins { IfSome result (λ request. (heap : HeapFacts) (k : ControlFacts) (now : ℕ) (c : ℕ) → beginning_of heap names.now k now c verb.now ≡ Asks request None) }
    ensures controls { IfSome result (λ request. (records : List Record) (k : ControlFacts) (now : ℕ) → controls_of records k now verb.now ≡ k) }
    ensures range { IfSome result IsInRange }
{
    match verb {
        Verb::Malloc { size, .. } => Some(Request::Malloc { size: *size }),
        Verb::Free(target) => Some(Request::Free {
            addr: names.address_at(target),
        }),
        _ => None,
    }
}

/// Carries a client's call on to its end, if it hasn't ended. What its last step told stands in the place for it.
#[inline(always)]
fn run_on<H: ExtentHooks>(
    alloc: Global,
    heap: &mut Heap,
    client: u32,
    shelf: &mut HookShelf<H>,
    told: &mut Stepped,
)
    requires client { client < 32 }
    requires goes { told.old.ended ≡ None → has_open_call heap.old client ≡ true }
    ensures ran { CarriedOn heap.old shelf.old client told.old.ended heap.new shelf.new told.new.ended }
    ensures ended { is_none told.new.ended ≡ false }
{
    'steps: while told.ended.is_none() {
        heap.stands();
        heap.step_into(alloc, client, shelf, told);
        heap.stands();
    }
}

/// Carries out a call that asks for this alone, of a client that has none open, and prints its answer.
#[inline(always)]
pub fn carry_whole<K: Sink, H: ExtentHooks>(
    alloc: Global,
    sink: &mut K,
    shelf: &mut HookShelf<H>,
    state: &mut State,
    client: u32,
    verb: Verb,
    request: Request,
) -> Result<(), Stop>
    requires client { client < 32 }
    requires rests { has_open_call state.old.heap client ≡ false }
    requires last { call_at state.old.calls.items client ≡ None }
    requires range { IsInRange request }
    requires begins { beginning_of state.old.heap state.old.names state.old.controls state.old.moment client verb ≡ Asks request None }
    requires controls { controls_of state.old.heap.records state.old.controls state.old.moment verb ≡ state.old.controls }
    ensures goes { (from : Outset) (lines : List Line)
        → Here from lines (TheStart client verb true) [] (now_of state.old shelf.old (K.held sink.old))
        → GoesOn from lines Nothing result (now_of state.new shelf.new (K.held sink.new)) }
    ensures cause { IfErr result (λ stop. HasStopCause stop 0 0 (K.faults sink.old) (K.faults sink.new)) }
    ensures unfailed { OnOk result (K.faults sink.new ≡ K.faults sink.old) }
    ensures counts { K.faults sink.old ≤ K.faults sink.new }
{
    state.heap.stands();
    let mut told = Stepped::none();
    state.heap.carry(alloc, client, request, &mut told.ended)?;
    run_on(alloc, &mut state.heap, client, shelf, &mut told);
    state.heap.stands();
    if is_starved(&told) {
        return Err(Stop::NoMemory);
    }
    let Stepped { ended, .. } = &told;
    match ended {
        Some(answer) => {
            state.tally.count(answer);
            let (text, names) = (&mut state.text, &mut state.names);
            answer_call(text, sink, names, client, verb, answer)
        }
        None => unreachable!(),
    }
}
