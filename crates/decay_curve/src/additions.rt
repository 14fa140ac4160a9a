//! The additions of a decay.

ghost use Rattle.std.specs.Prelude.{◌≡◌, ◌-◌, ◌*◌, ◌≤◌, ◌^◌, [], ◌∷◌, ◌++◌, length, nat_lt, if◌then◌else◌, All, IfOk};
ghost use Rattle.std.specs.List.{sum_by};
ghost use Rattle.space_model.specs.Span.{pages_end};
ghost use Rattle.space_model.specs.Pace.{weighed, limit_at};
ghost use Rattle.decay_curve.specs.Dated.{AreUpTo};

use crate::history::History;
use crate::weights::{EPOCHS, weight};
use circular_buffer::HeapCircularBuffer;
use space_model::Added;
use std::alloc::{AllocError as NoMemory, Global};
use std::marker::Model;

// Contracts see all additions that there were; memory is kept for the latest ones, since those before them weigh
// nothing. Of its functions only `new` takes memory.
#[derive(Drop)]
pub(crate) struct Additions {
    latest: HeapCircularBuffer<Added>,
    all: History,
}

impl Model for Additions {
    ghost use Rattle.std.specs.Prelude.{List};
    ghost use Rattle.space_model.specs.declared.spaces.Added.{Added};

    ghost Value = { List Added };

    ghost use Rattle.decay_curve.specs.Kept.{KeepsLatest};

    ghost view = { λ a. a.all.added };

    ghost invariant = { KeepsLatest };
}

impl Additions {
    // No additions.
    pub(crate) fn new(alloc: Global) -> Result<Additions, NoMemory>
        ensures { IfOk result (λ a. a ≡ []) }
    {
        Ok(Additions {
            latest: HeapCircularBuffer::with_capacity(alloc, EPOCHS as usize)?,
            all: History::none(),
        })
    }

    // Forgets all additions.
    pub(crate) fn clear(&mut self)
        ensures { self.new ≡ [] }
    {
        self.latest.clear();
        self.all = History::none();
    }

    // One more addition, where there are more pages at an epoch than the last one left.
    pub(crate) fn grow(&mut self, epoch: u64, left: u64, current: u64)
        ensures { self.new ≡ (if nat_lt left current then self.old ++ record { epoch = epoch; pages = current - left } ∷ [] else self.old) }
    {
        if left < current {
            let pages = current - left;
            self.push(Added { epoch, pages });
        }
    }

    // One more addition.
    fn push(&mut self, added: Added)
        ensures { self.new ≡ self.old ++ added ∷ [] }
    {
        self.all = self.all.and(&added);
        self.latest.push_back(added);
    }

    // How many pages may stay at an epoch.
    pub(crate) fn limit_at(&self, epoch: u64) -> u64
        requires { AreUpTo epoch self.now }
        ensures { result ≡ limit_at epoch self.now }
    {
        weight_of(epoch, &self.latest) >> 24
    }
}

// What the latest additions weigh together at an epoch.
fn weight_of(epoch: u64, latest: &HeapCircularBuffer<Added>) -> u64
    requires pages { All (λ a. a.pages ≤ pages_end) latest.now.items }
    requires few { length latest.now.items ≤ 200 }
    ensures { result ≡ sum_by (weighed epoch) latest.now.items }
{
    latest.iter().map(|one| weighed(epoch, one)).sum()
}

// What an addition weighs at an epoch: nothing from the age of 200 epochs on.
fn weighed(epoch: u64, added: &Added) -> u64
    requires { added.now.pages ≤ pages_end }
    ensures value { result ≡ weighed epoch added.now }
    ensures bound { result ≤ 2 ^ 53 }
{
    let age = epoch.saturating_sub(added.epoch);
    if age < EPOCHS {
        added.pages * u64::from(weight((EPOCHS - age) as u32))
    } else {
        0
    }
}
