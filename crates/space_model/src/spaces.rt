//! One arena as a value.

ghost use Rattle.std.specs.Prelude.{◌≡◌, []};
ghost use Rattle.space_model.specs.Opening.{new_pace, first_space, absent_space};
ghost use Rattle.space_model.specs.Journal.{Good};

use crate::{Clients, DIRTY_MS, MUZZY_MS, Offers, Parts, Regions, Seq};
use std::alloc::Global;

/// Pages that became unused at an epoch of a decay.
#[derive(Clone, Copy, Debug, PartialEq, Eq)]
pub struct Added {
    /// The epoch.
    pub epoch: u64,
    /// How many pages.
    pub pages: u64,
}

/// The additions of a decay, by epoch.
pub type Addeds = Seq<Added>;

/// How a decay stands (`arena.<i>.dirty_decay_ms` and `arena.<i>.muzzy_decay_ms` in the manual).
#[derive(Drop)]
pub struct Pace {
    /// The decay time in milliseconds, -1 for never.
    pub ms: i64,
    /// The moment in nanoseconds at which the present epoch began.
    pub start: u64,
    /// The present epoch, counted from 0.
    pub epoch: u64,
    /// How many unused pages the last epoch left.
    pub left: u64,
    /// The pages that became unused since, by epoch.
    pub added: Addeds,
}

impl Pace {
    /// The pace of a decay time from a moment on: epoch 0, nothing left and nothing added.
    pub fn new(alloc: Global, ms: i64, now: u64) -> Self
        ensures { result ≡ new_pace ms now }
    {
        Pace {
            ms,
            start: now,
            epoch: 0,
            left: 0,
            added: Seq::new(alloc),
        }
    }
}

/// Whether an arena is there.
#[derive(Clone, Copy, Debug, PartialEq, Eq)]
pub enum Life {
    /// No arena has this index.
    Absent,
    /// The arena serves requests.
    Live,
    /// The client is destroying the arena.
    Dying(u32),
}

/// An arena: everything that its next step can depend on.
#[derive(Drop)]
pub struct Space {
    /// Whether the arena is there.
    pub life: Life,
    /// Its extents.
    pub parts: Parts,
    /// Its allocations.
    pub regions: Regions,
    /// The extents that are offered to a dalloc hook.
    pub offers: Offers,
    /// The clients that allocate from it.
    pub bound: Clients,
    /// The box of hooks that it asks, below 32.
    pub box_no: u32,
    /// The decay of its dirty extents.
    pub dirty: Pace,
    /// The decay of its muzzy extents.
    pub muzzy: Pace,
    /// How many chunks its next growth has that no request needs, from 1 to 16384: twice its largest growth so far.
    pub grow: u64,
    /// The most chunks of such a growth, from 1 to 16384.
    pub grow_limit: u64,
    /// The clients that are shrinking a region of it in place.
    pub trims: Clients,
}

/// The most chunks of a growth that no request needs.
pub const MAX_SERIES: u64 = 16384;

impl Space {
    /// No arena: nothing in it, and nobody bound. Takes no memory.
    pub fn absent(alloc: Global) -> Self
        ensures absent { result ≡ absent_space }
        ensures good { Good [] result }
    {
        Space {
            life: Life::Absent,
            bound: Clients::none(),
            ..Space::first(alloc)
        }
    }

    /// Arena 0 at the start: live and empty, with box 0, all 32 clients bound, and the default times from moment 0.
    /// Takes no memory.
    pub fn first(alloc: Global) -> Self
        ensures first { result ≡ first_space }
        ensures good { Good [] result }
    {
        Space {
            life: Life::Live,
            parts: Seq::new(alloc),
            regions: Seq::new(alloc),
            offers: Seq::new(alloc),
            bound: Clients::everyone(),
            box_no: 0,
            dirty: Pace::new(alloc, DIRTY_MS, 0),
            muzzy: Pace::new(alloc, MUZZY_MS, 0),
            grow: 1,
            grow_limit: MAX_SERIES,
            trims: Clients::none(),
        }
    }
}
