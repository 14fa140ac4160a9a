//! What is to be done for a line of a control.

ghost use Rattle.std.specs.Prelude.{◌≡◌};
ghost use Rattle.call_plan.specs.Laws.{IsInRange};
ghost use Rattle.ctl_values.specs.Steps.{on_arenas, request_of, whose_of};

use call_plan::Request;
use ctl_names::{ArenaReading, Reading};
use heap_stats::{Count, Whose};
use space_model::Rest;

/// The index that stands for all arenas (`MALLCTL_ARENAS_ALL` in the manual).
const ALL: u32 = 4096;

/// The index that stands for the arenas that were destroyed (`MALLCTL_ARENAS_DESTROYED`).
const DESTROYED: u32 = 4097;

/// What may be done to all live arenas at once.
#[derive(Clone, Copy)]
pub enum Upkeep {
    /// They are purged.
    Purge,
    /// They are decayed.
    Decay {
        /// The moment in nanoseconds.
        now: u64,
    },
}

impl Upkeep {
    /// The request that does it to one arena.
    pub fn request(self, arena: u32) -> Request
        ensures request { result ≡ request_of self arena }
        ensures range { IsInRange result }
    {
        match self {
            Upkeep::Purge => Request::Purge { arena },
            Upkeep::Decay { now } => Request::Decay { arena, now },
        }
    }
}

/// What is to be done for a line of a control.
#[derive(Clone, Copy)]
pub enum CtlStep {
    /// The number is the value.
    Number(u64),
    /// The request is made.
    Call(Request),
    /// The request is made of each arena that is live now, by rising indexes, until one is refused.
    CallAll(Upkeep),
    /// This is read.
    Setting(Reading),
    /// This is read of the arena with the index.
    ArenaSetting(u32, ArenaReading),
    /// Arenas are created with this decay time of the list, dirty or muzzy, in milliseconds.
    Default(Rest, i64),
    /// The statistics are refreshed.
    Refresh,
    /// A count of the last refresh is read.
    Stat(Whose, Count),
    /// The arena that has an extent at the address is looked up.
    Lookup(u64),
}

/// The moment of a line, and the decay times with which arenas are created.
#[derive(Clone, Copy)]
pub struct Times {
    /// The moment in nanoseconds.
    pub now: u64,
    /// The decay time of dirty extents in milliseconds, from -1, for never, to 1000000000.
    pub dirty_ms: i64,
    /// The decay time of muzzy extents in milliseconds, from -1 to 1000000000.
    pub muzzy_ms: i64,
}

/// The upkeep of one arena, or of all by the index for them.
pub(crate) fn on_arenas(upkeep: Upkeep, index: u32) -> CtlStep
    ensures { result ≡ on_arenas upkeep index }
{
    if index == ALL {
        CtlStep::CallAll(upkeep)
    } else {
        CtlStep::Call(upkeep.request(index))
    }
}

/// Whose counts an index stands for.
pub(crate) fn whose(index: u32) -> Whose
    ensures { result ≡ whose_of index }
{
    match index {
        ALL => Whose::All,
        DESTROYED => Whose::Destroyed,
        _ => Whose::Arena(index),
    }
}
