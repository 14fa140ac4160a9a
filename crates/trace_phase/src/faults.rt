//! Why the lines of a trace are no phases.

use std::alloc::AllocError;
use thiserror::Error;

/// What makes a line bad.
#[derive(Clone, Copy, Debug, PartialEq, Eq)]
pub enum PhaseCause {
    /// Its moment is before the one that was told last.
    Clock,
    /// It can't stand where it stands.
    Phase,
    /// It begins a phase that isn't joined. It comes only where no line has another cause.
    NotJoined,
}

/// Why the lines of a trace are no phases.
#[derive(Clone, Copy, Debug, PartialEq, Eq, Error)]
pub enum PhaseFault {
    /// The first line that is bad, by its number, and what makes it so.
    #[error("a line that can't stand in its phase")]
    At { line: u64, cause: PhaseCause },
    /// Memory was wanting.
    #[error("out of memory")]
    NoMemory,
}

impl From<AllocError> for PhaseFault {
    ghost use Rattle.std.specs.Prelude.{◌≡◌};
    ghost use Rattle.trace_phase.specs.declared.faults.PhaseFault.TheVariants.{NoMemory};

    ghost from_gives = { λ _ fault. fault ≡ NoMemory };

    fn from(_: AllocError) -> PhaseFault {
        PhaseFault::NoMemory
    }
}
