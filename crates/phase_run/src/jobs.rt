//! What a worker does in a phase.

ghost use Rattle.std.specs.Prelude.{◌≡◌, IfOk};
ghost use Rattle.phase_run.specs.Names.{known_to};
ghost use Rattle.phase_run.specs.Walks.{AgreeOn};

use crate::names::Names;
use space_model::Seq;
use std::alloc::{AllocError as NoMemory, Global};
use trace_phase::{PhaseCall, Work};

/// What a worker does in a phase: the calls of its client, with the names that it knows. It borrows nothing, so it may go to
/// another thread.
#[derive(Drop)]
pub struct Job {
    /// The client, from 0 to 31.
    pub client: u32,
    /// The moment of the phase in nanoseconds.
    pub moment: u64,
    /// The calls, in order.
    pub calls: Seq<PhaseCall>,
    /// The names, those that its own calls bind among them.
    pub names: Names,
}

impl Job {
    /// The work of a client in a phase at this moment, where these names are bound. Its worker is given those that its calls
    /// have.
    pub fn new(alloc: Global, names: &Names, moment: u64, work: Work) -> Result<Job, NoMemory>
        ensures client { IfOk result (λ job. job.client ≡ work.client) }
        ensures moment { IfOk result (λ job. job.moment ≡ moment) }
        ensures calls { IfOk result (λ job. job.calls ≡ work.calls) }
        ensures names { IfOk result (λ job. job.names ≡ known_to names.now work.calls) }
        ensures agree { IfOk result (λ job. AgreeOn work.calls job.names names.now) }
    {
        let own = names.for_calls(alloc, work.calls.as_slice())?;
        let Work { client, calls } = work;
        Ok(Job {
            client,
            moment,
            calls,
            names: own,
        })
    }
}
