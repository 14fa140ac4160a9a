//! Which regions of a slab are free, one bit for each.
#![tactic(auto)]

ghost use Rattle.std.specs.Prelude.{◌≡◌, ◌<◌, ◌≤◌, false, true, position, slice_index_or, slice_set, count_by, length, IfSome, IfNone};
ghost use Rattle.size_classes.specs.Classes.{IsSmall, regions_at};
ghost use Rattle.slab_bits.specs.Slabs.{AreFreeFrom};

use lane_scan::{clear_bit, has_bit, set_bit};
use size_classes::slab_regions;
use std::marker::Model;

#[cfg(test)]
mod tests;
mod words;

use words::{WORDS, fill_between, lowest_bit};

/// The free regions of a slab, by their places in it, counted from 0.
///
/// A slab has at most 512 regions, so eight words serve every class. No call takes memory.
#[derive(Drop)]
pub struct SlabBits {
    class: u8,
    left: u32,
    free: [u64; WORDS],
}

impl Model for SlabBits {
    ghost use Rattle.slab_bits.specs.Slabs.{Slab, shown, IsSlab};

    ghost Value = { Slab };

    ghost view = { λ s. shown s.class s.free };

    ghost invariant = { λ s. IsSlab s.class s.left s.free };
}

impl SlabBits {
    /// A slab of a small class whose lowest `out` regions are out and whose others are free.
    pub fn with_out(class: u8, out: u32) -> SlabBits
        requires class { IsSmall class }
        requires out { out ≤ regions_at class }
        ensures class { result.class ≡ class }
        ensures places { length result.free ≡ 512 }
        ensures free { AreFreeFrom out result }
    {
        let regions = slab_regions(class) as u32;
        SlabBits {
            class,
            left: regions - out,
            free: fill_between(out, regions),
        }
    }

    /// A slab of a small class whose regions are all free.
    pub fn new(class: u8) -> SlabBits
        requires class { IsSmall class }
        ensures class { result.class ≡ class }
        ensures places { length result.free ≡ 512 }
        ensures free { AreFreeFrom 0 result }
    {
        SlabBits::with_out(class, 0)
    }

    /// The class of the slab.
    pub fn class(&self) -> u8
        ensures class { result ≡ self.now.class }
        ensures small { result < 36 }
    {
        self.class
    }

    /// Whether region `i` is free.
    pub fn is_free(&self, i: u32) -> bool
        requires inside { i < regions_at self.now.class }
        ensures { result ≡ slice_index_or self.now.free i false }
    {
        has_bit(&self.free, i as usize)
    }

    /// Takes the lowest free region out. `None` exactly where all are out.
    pub fn take_lowest(&mut self) -> Option<u32>
        ensures lowest { result ≡ position (λ free. free) self.old.free }
        ensures inside { IfSome result (λ i. i < regions_at self.old.class) }
        ensures taken { IfSome result (λ i. self.new ≡ record self.old { free = slice_set self.old.free i false }) }
        ensures full { IfNone result (self.new ≡ self.old) }
    {
        let i = lowest_bit(&self.free)?;
        clear_bit(&mut self.free, i as usize);
        self.left -= 1;
        Some(i)
    }

    /// Puts region `i`, which has to be out, back to the free ones.
    pub fn put(&mut self, i: u32)
        requires inside { i < regions_at self.old.class }
        requires out { slice_index_or self.old.free i false ≡ false }
        ensures { self.new ≡ record self.old { free = slice_set self.old.free i true } }
    {
        set_bit(&mut self.free, i as usize);
        self.left += 1;
    }

    /// How many regions are free.
    pub fn free_count(&self) -> u32
        ensures { result ≡ count_by (λ free. free) self.now.free }
    {
        self.left
    }
}
