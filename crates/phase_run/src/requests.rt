//! What the calls of a trace ask for.

ghost use Rattle.std.specs.Prelude.{◌≡◌, OnOk};
ghost use Rattle.call_plan.specs.Laws.{IsInRange};
ghost use Rattle.phase_run.specs.Requests.{IsSettingInRange, names_after, place_of, request_of, setting_request};

use crate::names::{Names, Place};
use call_plan::{Answered, Desk, Given, Request};
use space_model::{DIRTY_MS, MUZZY_MS};
use std::alloc::{AllocError as NoMemory, Global};
use thread_cache::Held;
use trace_phase::{PhaseCall, SettingCall};
use trace_text::Name;

/// What a call of a client in a phase asks for, at the phase's moment in nanoseconds, where these names are bound.
pub fn request_of(now: u64, names: &Names, call: &PhaseCall) -> Request
    ensures request { result ≡ request_of now names.now call.now }
    ensures range { IsInRange result }
{
    match call {
        PhaseCall::Malloc { size, .. } => Request::Malloc { size: *size },
        PhaseCall::Memalign { align, size, .. } => Request::Memalign {
            align: *align,
            size: *size,
        },
        PhaseCall::Free(name) => Request::Free {
            addr: names.place(name).addr,
        },
        PhaseCall::Publish(name) => Request::Publish {
            addr: names.place(name).addr,
        },
        PhaseCall::Take(name) => {
            let Place { addr, arena } = names.place(name);
            Request::Take { addr, arena }
        }
        PhaseCall::Flush => Request::Flush,
        PhaseCall::Purge(arena) => Request::Purge { arena: *arena },
        PhaseCall::Decay(arena) => Request::Decay { arena: *arena, now },
    }
}

/// What a call of a client outside phases asks for, at its moment in nanoseconds.
pub fn setting_request(now: u64, call: SettingCall) -> Request
    requires { IsSettingInRange call }
    ensures request { result ≡ setting_request now call }
    ensures range { IsInRange result }
{
    match call {
        SettingCall::Create(box_no) => Request::Create {
            box_no,
            dirty_ms: DIRTY_MS,
            muzzy_ms: MUZZY_MS,
            now,
        },
        SettingCall::Time { arena, rest, ms } => Request::Time {
            arena,
            rest,
            ms,
            now,
        },
        SettingCall::Bind(arena) => Request::Bind { arena },
        SettingCall::Cache(is_on) => Request::Cache(is_on),
    }
}

/// Where a region lies.
fn place_of(region: Held) -> Place
    ensures { result ≡ place_of region }
{
    Place {
        addr: region.addr,
        arena: region.arena,
    }
}

impl Names {
    /// Binds the name of a malloc or a memalign whose answer gives a region to where that lies, which is known by what the client
    /// now has. Other calls bind none.
    pub fn bind_answer(
        &mut self,
        call: PhaseCall,
        answer: &Answered,
        desk: &Desk,
    ) -> Result<(), NoMemory>
        ensures { OnOk result (self.new ≡ names_after self.old call answer.now desk.now.facts) }
    {
        let (PhaseCall::Malloc { name, .. } | PhaseCall::Memalign { name, .. }) = call else {
            return Ok(());
        };
        let Answered::Ok(Given::Region { addr, .. }) = answer else {
            return Ok(());
        };
        match desk.held_at(*addr) {
            Some(region) => self.bind(name, place_of(region)),
            None => Ok(()),
        }
    }
}
