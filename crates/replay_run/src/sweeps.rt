//! Open calls: what their lines say, and what is left of an upkeep of all arenas.

ghost use Rattle.std.specs.Prelude.{◌≡◌, option_map, IfOk, IfSome};
ghost use Rattle.std.specs.List.{filter, range_with_len};
ghost use Rattle.call_plan.specs.Laws.{IsInRange};
ghost use Rattle.replay_run.specs.Beginnings.{sweep_over};
ghost use Rattle.replay_run.specs.Controls.{is_live_at, live_arenas};
ghost use Rattle.replay_run.specs.Sweeps.{advanced, request_next};
ghost use Rattle.replay_run.specs.World.{goes_on, swept};

use call_plan::{Answered, Request};
use ctl_values::Upkeep;
use heap_core::{ARENAS, Heap};
use std::alloc::{AllocError as NoMemory, Global};
use std::collections::VecDeque;
use std::marker::Model;
use trace_text::Verb;

/// An upkeep of all arenas that are live where a line is carried out, one after another, and those that are left.
#[derive(Drop)]
pub struct Sweep {
    upkeep: Upkeep,
    arenas: VecDeque<u32>,
}

impl Model for Sweep {
    ghost use Rattle.replay_run.specs.Sweeps.{SweepFacts};

    ghost Value = { SweepFacts };

    ghost view = { λ s. record { upkeep = s.upkeep; arenas = s.arenas.items } };
}

impl Sweep {
    /// An upkeep of the arenas that are live now.
    pub fn over(alloc: Global, heap: &Heap, upkeep: Upkeep) -> Result<Sweep, NoMemory>
        ensures { IfOk result (λ sweep. sweep ≡ sweep_over heap.now.records upkeep) }
    {
        Ok(Sweep {
            upkeep,
            arenas: live_arenas(alloc, heap)?,
        })
    }

    /// The request for the next arena, by rising indexes, if one is left.
    pub fn request(&self) -> Option<Request>
        ensures request { result ≡ request_next self.now }
        ensures range { IfSome result IsInRange }
    {
        let arena = *self.arenas.front()?;
        Some(self.upkeep.request(arena))
    }

    /// That arena isn't left any more.
    pub fn advance(&mut self)
        ensures { self.new ≡ advanced self.old }
    {
        self.arenas.pop_front();
    }
}

/// The indexes of the arenas that are live, rising.
fn live_arenas(alloc: Global, heap: &Heap) -> Result<VecDeque<u32>, NoMemory>
    ensures { IfOk result (λ arenas. arenas.items ≡ live_arenas heap.now.records) }
{
    let mut arenas = VecDeque::new(alloc);
    for index in 0..ARENAS {
        if heap.live(index) {
            arenas.push_back(index)?;
        }
    }
    Ok(arenas)
}

/// A client's open call.
#[derive(Drop)]
pub struct OpenCall {
    /// What its line says.
    pub verb: Verb,
    /// What is left of its sweep, if it is one.
    pub sweep: Option<Sweep>,
}

/// What an open call asks for next where a request of it has this answer: only a sweep goes on, and only behind an Ok.
pub fn goes_on(call: &Option<OpenCall>, answer: &Option<Answered>) -> Option<Request>
    ensures request { result ≡ goes_on call.now answer.now }
    ensures range { IfSome result IsInRange }
{
    match (call, answer) {
        (
            Some(
                OpenCall {
                    sweep: Some(sweep),
                    ..
                },
            ),
            Some(Answered::Ok(_)),
        ) => sweep.request(),
        _ => None,
    }
}

/// The next request of an open call isn't left any more.
pub fn advance(call: &mut Option<OpenCall>)
    ensures { call.new ≡ option_map swept call.old }
{
    if let Some(
        OpenCall {
            sweep: Some(sweep),
            ..
        },
    ) = call
    {
        sweep.advance();
    }
}
