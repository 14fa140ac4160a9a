//! What a replay keeps while it runs.

ghost use Rattle.std.specs.Prelude.{◌≡◌, length, None, replicate, IfOk};

use crate::beginnings::{Beginning, ctl_begins, request_begins, request_of, step_of};
use crate::controls::{Controls, error_answer};
use crate::names::Names;
use crate::sweeps::{OpenCall, Sweep, advance};
use crate::tally::Tally;
use call_plan::Answered;
use heap_core::Heap;
use space_model::CLIENTS;
use std::alloc::{AllocError as NoMemory, Global};
use trace_text::Verb;

/// How many bytes a line of a report has room for at first: few have more.
const LINE_ROOM: usize = 96;

/// What a replay keeps while it runs.
#[derive(Drop)]
pub struct State {
    /// The arenas and the clients.
    pub heap: Heap,
    /// Each client's open call, by client.
    pub calls: Vec<Option<OpenCall>>,
    /// The names that are bound.
    pub names: Names,
    /// How many calls have answered.
    pub tally: Tally,
    /// What controls read and write beside the heap.
    pub controls: Controls,
    /// The moment in nanoseconds.
    pub moment: u64,
    /// A buffer for the lines of calls and of their steps, which keeps its room from line to line.
    pub text: Vec<u8>,
    ghost full: { length calls.items ≡ 32 },
}

impl State {
    ghost use Rattle.std.specs.Prelude.{◌<◌, [], None, Some, replicate, slice_set, IfOk, IfSome, OnOk};
    ghost use Rattle.call_plan.specs.Laws.{IsInRange};
    ghost use Rattle.trace_text.specs.Grammar.{IsVerbWithinLimits};
    ghost use Rattle.heap_core.specs.Heaps.{opening_heap};
    ghost use Rattle.replay_run.specs.Beginnings.{IsBeginning, beginning_of, controls_of};
    ghost use Rattle.replay_run.specs.Controls.{opening_controls};
    ghost use Rattle.replay_run.specs.World.{calls_closed, calls_swept, names_closed, no_answers, tally_closed, verb_at};

    /// The opening state of a replay.
    pub fn new(alloc: Global) -> Result<State, NoMemory>
        ensures heap { IfOk result (λ state. state.heap ≡ opening_heap) }
        ensures calls { IfOk result (λ state. state.calls.items ≡ replicate 32 None) }
        ensures names { IfOk result (λ state. state.names ≡ []) }
        ensures tally { IfOk result (λ state. state.tally ≡ no_answers) }
        ensures controls { IfOk result (λ state. state.controls ≡ opening_controls) }
        ensures moment { IfOk result (λ state. state.moment ≡ 0) }
    {
        Ok(State {
            heap: Heap::new(alloc)?,
            calls: no_calls(alloc)?,
            names: Names::new(alloc),
            tally: Tally::new(),
            controls: Controls::new(),
            moment: 0,
            text: Vec::with_capacity(alloc, LINE_ROOM)?,
        })
    }

    /// The arenas and the clients, once the replay is over.
    pub fn into_heap(self) -> Heap
        ensures { result ≡ self.heap }
    {
        let State { heap, .. } = self;
        heap
    }

    /// Keeps what a client's call is, which is open from now on.
    pub fn open(&mut self, client: u32, verb: Verb, sweep: Option<Sweep>)
        requires { client < 32 }
        ensures heap { self.new.heap ≡ self.old.heap }
        ensures calls { self.new.calls.items ≡ slice_set self.old.calls.items client (Some (record { verb = verb; sweep = sweep })) }
        ensures names { self.new.names ≡ self.old.names }
        ensures tally { self.new.tally ≡ self.old.tally }
        ensures controls { self.new.controls ≡ self.old.controls }
        ensures moment { self.new.moment ≡ self.old.moment }
    {
        self.calls[client as usize] = Some(OpenCall { verb, sweep });
    }

    /// What a call of a line comes to where it begins. What it sets of the controls is set by that.
    pub fn begin(&mut self, alloc: Global, client: u32, verb: &Verb) -> Result<Beginning, NoMemory>
        requires client { client < 32 }
        requires limits { IsVerbWithinLimits verb.now }
        ensures begins { IfOk result (λ begins. begins ≡ beginning_of self.old.heap self.old.names self.old.controls self.old.moment client verb.now) }
        ensures range { IfOk result IsBeginning }
        ensures controls { OnOk result (self.new.controls ≡ controls_of self.old.heap.records self.old.controls self.old.moment verb.now) }
        ensures heap { self.new.heap ≡ self.old.heap }
        ensures calls { self.new.calls.items ≡ self.old.calls.items }
        ensures names { self.new.names ≡ self.old.names }
        ensures tally { self.new.tally ≡ self.old.tally }
        ensures moment { self.new.moment ≡ self.old.moment }
    {
        let times = self.controls.times(self.moment);
        match step_of(verb, times) {
            None => Ok(request_begins(request_of(&self.heap, &self.names, times, verb))),
            Some(Err(error)) => Ok(Beginning::Tells(error_answer(error))),
            Some(Ok(step)) => {
                let begins = ctl_begins(alloc, &self.heap, &self.controls, client, step)?;
                self.controls.set(&self.heap, step);
                Ok(begins)
            }
        }
    }

    /// The next request of a client's open call isn't left any more.
    pub fn advance(&mut self, client: u32)
        requires { client < 32 }
        ensures calls { self.new.calls.items ≡ calls_swept self.old.calls.items client }
        ensures heap { self.new.heap ≡ self.old.heap }
        ensures names { self.new.names ≡ self.old.names }
        ensures tally { self.new.tally ≡ self.old.tally }
        ensures controls { self.new.controls ≡ self.old.controls }
        ensures moment { self.new.moment ≡ self.old.moment }
    {
        advance(&mut self.calls[client as usize]);
    }

    /// Where a client's open call has its answer, it is open no more, the answer is counted, and its name is bound, unless memory
    /// is wanting.
    pub fn close(&mut self, client: u32, answer: &Option<Answered>) -> Result<(), NoMemory>
        requires { client < 32 }
        ensures heap { self.new.heap ≡ self.old.heap }
        ensures moment { self.new.moment ≡ self.old.moment }
        ensures calls { OnOk result (self.new.calls.items ≡ calls_closed self.old.calls.items client answer.now) }
        ensures names { OnOk result (self.new.names ≡ names_closed self.old.names (verb_at self.old.calls.items client) answer.now) }
        ensures tally { self.new.tally ≡ tally_closed self.old.tally answer.now }
        ensures controls { self.new.controls ≡ self.old.controls }
    {
        let Some(answer) = answer else {
            return Ok(());
        };
        self.tally.count(answer);
        match self.calls[client as usize].take() {
            Some(call) => self.names.bind_answer(call.verb, answer),
            None => Ok(()),
        }
    }
}

/// No client has an open call.
fn no_calls(alloc: Global) -> Result<Vec<Option<OpenCall>>, NoMemory>
    ensures { IfOk result (λ calls. calls.items ≡ replicate 32 None) }
{
    let mut calls = Vec::new(alloc);
    for _client in 0..CLIENTS {
        calls.push(None)?;
    }
    Ok(calls)
}
