//! The phases of a trace, or the first line that can't stand.

ghost use Rattle.std.specs.Prelude.{◌≡◌, None, IfErr, IfOk, OnOk};
ghost use Rattle.trace_phase.specs.Rule.{Tells, first_fault, misplaced, opening, phases_of};

use crate::course::Course;
use crate::faults::PhaseFault;
use crate::parts::{Lines, Phases};
use std::alloc::Global;

impl Phases {
    /// What the lines of a trace come to: the settings and the phases, in order, and in each phase the calls of each client.
    ///
    /// Outside phases `at`, `refuse` and the calls `create`, `dirty`, `muzzy`, `arena` and `cache` stand; within them
    /// `malloc`, `memalign`, `free`, `publish`, `take`, `flush`, `purge` and `decay`, with names and no addresses, where the
    /// names allow it. Phases don't nest, and the last one is joined. Once a phase has a background worker, no line is one
    /// of client 31, and none may have been before.
    ///
    /// An `Err` is the first line that can't stand, with its number and its cause; `NotJoined` comes only where every line can
    /// stand. `NoMemory` comes only where memory was wanting.
    pub fn check(alloc: Global, lines: Lines) -> Result<Phases, PhaseFault>
        ensures phases { IfOk result (λ phases. phases ≡ phases_of lines) }
        ensures stand { OnOk result (first_fault opening lines ≡ None) }
        ensures fault { IfErr result (λ fault. Tells fault (first_fault opening lines)) }
    {
        let mut course = Course::new(alloc);
        for line in lines.into_vec() {
            course.take(alloc, line)?;
        }
        course.close()
    }

    /// Finds that every line can stand of some with which a trace begins. More lines come behind these, so a phase that isn't
    /// joined is no fault here.
    ///
    /// An `Err` is the first line that can't stand, with its number and its cause, or `NoMemory`.
    pub fn check_beginning(alloc: Global, lines: Lines) -> Result<(), PhaseFault>
        ensures stand { OnOk result (misplaced opening lines ≡ None) }
        ensures fault { IfErr result (λ fault. Tells fault (misplaced opening lines)) }
    {
        let mut course = Course::new(alloc);
        for line in lines.into_vec() {
            course.take(alloc, line)?;
        }
        Ok(())
    }
}
