//! The decay of an arena's unused pages: how many of them may stay as time goes by.
#![tactic(auto)]

ghost use Rattle.std.specs.Prelude.{◌≡◌, ◌+◌, ◌-◌, ◌*◌, ◌<◌, ◌≤◌, ◌^◌, pos, ◌≤ℤ◌, true, IfOk};
ghost use Rattle.space_model.specs.Span.{pages_end};
ghost use Rattle.space_model.specs.Opening.{new_pace};
ghost use Rattle.space_model.specs.Pace.{advanced};
ghost use Rattle.space_model.specs.Settings.{is_decay_time};

mod additions;
mod history;
#[cfg(test)]
mod tests;
mod weights;

use additions::Additions;
use std::alloc::{AllocError as NoMemory, Global};
use std::marker::Model;
pub use weights::{EPOCHS, weight};

/// How many nanoseconds an epoch has for each millisecond of the decay time: a two-hundredth of it.
const EPOCH_NANOS: u64 = 5000;

/// How a decay stands (`arena.<i>.dirty_decay_ms` and `arena.<i>.muzzy_decay_ms` in the manual).
///
/// Contracts see a pace with all additions that there were. Memory is kept for the latest 200 of them, and taken by
/// `new` alone: an advance weighs at most so many, however much time has passed.
#[derive(Drop)]
pub struct Decay {
    ms: i64,
    start: u64,
    epoch: u64,
    left: u64,
    added: Additions,
}

impl Model for Decay {
    ghost use Rattle.space_model.specs.declared.spaces.Pace.{Pace};

    ghost Value = { Pace };

    ghost use Rattle.space_model.specs.Sound.{IsPaced};
    ghost use Rattle.decay_curve.specs.Paces.{pace_of};

    ghost view = { pace_of };

    ghost invariant = { λ decay. IsPaced (pace_of decay) };
}

impl Decay {
    /// The decay of a time in milliseconds, from -1 for never to 1000000000, from a moment in nanoseconds on.
    pub fn new(alloc: Global, ms: i64, now: u64) -> Result<Decay, NoMemory>
        requires { is_decay_time ms ≡ true }
        ensures { IfOk result (λ decay. decay ≡ new_pace ms now) }
    {
        Ok(Decay {
            ms,
            start: now,
            epoch: 0,
            left: 0,
            added: Additions::new(alloc)?,
        })
    }

    /// Begins anew with a decay time, from -1 to 1000000000 milliseconds, at a moment in nanoseconds.
    pub fn restart(&mut self, ms: i64, now: u64)
        requires { is_decay_time ms ≡ true }
        ensures { self.new ≡ new_pace ms now }
    {
        self.ms = ms;
        self.start = now;
        self.epoch = 0;
        self.left = 0;
        self.added.clear();
    }

    /// The decay time in milliseconds, -1 for never.
    pub fn ms(&self) -> i64
        ensures { result ≡ self.now.ms }
    {
        self.ms
    }

    /// The moment `now` in nanoseconds has come, while `current` pages are unused. Gives how many of these may stay,
    /// where that is told: it is not where the time is -1, nor before a whole epoch has passed, which is a
    /// two-hundredth of the decay time.
    pub fn advance(&mut self, now: u64, current: u64) -> Option<u64>
        requires { current ≤ pages_end - 512 }
        ensures pace { self.new ≡ (advanced self.old now current).pace }
        ensures limit { result ≡ (advanced self.old now current).limit }
    {
        if self.ms < 0 {
            return None;
        }
        let ms = millis(self.ms);
        if ms == 0 {
            return Some(0);
        }
        let interval = ms * EPOCH_NANOS;
        let epochs = now.saturating_sub(self.start) / interval;
        if epochs == 0 {
            return None;
        }
        self.start += epochs * interval;
        self.epoch += epochs;
        self.added.grow(self.epoch, self.left, current);
        let limit = self.added.limit_at(self.epoch);
        self.left = current.min(limit);
        Some(limit)
    }
}

// A decay time that isn't -1, as a number of milliseconds.
fn millis(ms: i64) -> u64
    requires { pos 0 ≤ℤ ms }
    ensures { pos result ≡ ms }
{
    ms as u64
}
