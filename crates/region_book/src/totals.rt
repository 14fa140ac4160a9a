//! What the regions of an arena come to.

ghost use Rattle.std.specs.Prelude.{◌≡◌, ◌<◌, ◌≤◌, ◌^◌, []};
ghost use Rattle.region_book.specs.Totals.{AreMore, AreTotals, CanGrow, CanShrink, small_size_at};

use crate::numbers::code_of;
use size_classes::{CLASSES, SMALL_CLASSES, size_of};

/// How many classes there are.
const ALL_CLASSES: usize = CLASSES as usize;

/// How many holders are told apart: nobody, and each of the 32 clients.
const HOLDERS: usize = 33;

/// How many regions there are, the bytes of all and of the small ones, and how many there are of each class and of each holder.
#[derive(Drop)]
pub struct Totals {
    pub number: u64,
    pub bytes: u64,
    pub small: u64,
    pub classes: [u64; ALL_CLASSES],
    pub holders: [u64; HOLDERS],
}

/// The bytes of a region of a class among those of the small ones.
fn small_size(class: u8) -> u64
    requires { class < 121 }
    ensures { result ≡ small_size_at class }
{
    if class < SMALL_CLASSES {
        size_of(class)
    } else {
        0
    }
}

impl Totals {
    /// Of no regions.
    pub fn none() -> Self
        ensures { AreTotals result [] }
    {
        Totals {
            number: 0,
            bytes: 0,
            small: 0,
            classes: [0; ALL_CLASSES],
            holders: [0; HOLDERS],
        }
    }

    /// So many regions of a class come, with this holder.
    pub fn add(&mut self, class: u8, holder: Option<u32>, count: u64)
        requires { CanGrow class holder count self.old }
        ensures { AreMore class holder count self.old self.new }
    {
        self.number += count;
        self.bytes += count * size_of(class);
        self.small += count * small_size(class);
        self.classes[class as usize] += count;
        self.holders[code_of(holder) as usize] += count;
    }

    /// A region of a class goes, which had this holder.
    pub fn remove(&mut self, class: u8, holder: Option<u32>)
        requires { CanShrink class holder self.old }
        ensures { AreMore class holder 1 self.new self.old }
    {
        self.number -= 1;
        self.bytes -= size_of(class);
        self.small -= small_size(class);
        self.classes[class as usize] -= 1;
        self.holders[code_of(holder) as usize] -= 1;
    }
}
