//! A slab comes, a region of it is taken or put back, or it goes.
ghost use Rattle.std.specs.Prelude.{◌≡◌, ◌↔◌, ◌+◌, ◌*◌, ◌<◌, ◌≤◌, ◌^◌, ◌==◌, false, [], ◌∷◌, filter, map, not, length, vec_len, ℕ, IfNone, IfSome, IsSome, IsTrue, Contains, cond};
ghost use Rattle.std.specs.FinMap as map_of;
ghost use Rattle.std.specs.List.{list_any};
ghost use Rattle.page_map.specs.declared.table.TheConstants.{PAGES};
ghost use Rattle.size_classes.specs.Classes.{IsSmall, pages_at, regions_at};
ghost use Rattle.space_model.specs.Region.{held_anew, inserted, landing, region_of, regions_from, starts_at};
ghost use Rattle.bin_book.specs.Bins.{free_of, meets_slab, place, slab_with_out, with_free, with_slab, with_regions_out};
ghost use Rattle.bin_book.specs.Charts.{HasPage};
ghost use Rattle.bin_book.specs.Tables.{IsMoved, IsOutAt, IsSlabTable, bits_at, left_of, regions_in, regions_without, slabs_in, slabs_without};

use crate::class_set::ClassSet;
use crate::table::{Table, bin_key};
use ordered_set::Key;
use size_classes::{PAGE_BYTES, class_pages, size_of};
use slab_bits::SlabBits;

impl Table {
    /// Adds a slab whose lowest `count` regions are out, and held by the client.
    pub fn add(&mut self, client: u32, class: u8, first: u64, count: u32)
        requires table { IsSlabTable self.old }
        requires room { 0 < vec_len self.old.free }
        requires client { client < 32 }
        requires class { IsSmall class }
        requires some { 0 < count }
        requires most { count ≤ regions_at class }
        requires inside { first + pages_at class ≤ 2 ^ 32 }
        requires apart { list_any (meets_slab class first) (slabs_in self.old) ≡ false }
        ensures table { IsSlabTable self.new }
        ensures slabs { slabs_in self.new ≡ with_slab (slabs_in self.old) (slab_with_out class first count) }
        ensures regions { regions_in self.new ≡ landing (regions_from client class (4096 * first) count) (regions_in self.old) }
        ensures free { vec_len self.new.free + 1 ≡ vec_len self.old.free }
        ensures charted { (page : ℕ) → 2 < self.old.chart.pages.spare → page < PAGES → HasPage first (pages_at class) page
            → IsSome (map_of.get self.new.chart.pages.numbers page) }
    {
        let number = self.free.pop().unwrap();
        let bits = SlabBits::with_out(class, count);
        let slab = Key {
            major: first,
            minor: u64::from(number),
        };
        self.firsts.insert(slab);
        let is_open = bits.free_count() > 0;
        set_open(&mut self.bins, bin_key(class, slab), false, is_open);
        self.chart.add(slab, class_pages(class));
        self.slots[number as usize] = bits;
        self.counts[class as usize] += 1;
        self.holders.give(slab.minor, count, client);
    }

    /// Takes the lowest free region of a class out. The client holds it.
    pub fn take_one(&mut self, client: u32, class: u8) -> Option<u64>
        requires table { IsSlabTable self.old }
        requires client { client < 32 }
        requires class { IsSmall class }
        ensures table { IsSlabTable self.new }
        ensures none { IfNone result (free_of class (slabs_in self.old) ≡ []) }
        ensures unchanged { IfNone result (slabs_in self.new ≡ slabs_in self.old) }
        ensures held { IfNone result (regions_in self.new ≡ regions_in self.old) }
        ensures lowest { IfSome result (λ addr. free_of class (slabs_in self.old)
            ≡ addr ∷ free_of class (slabs_in self.new)) }
        ensures slabs { IfSome result (λ addr. slabs_in self.new
            ≡ map (with_regions_out (addr ∷ [])) (slabs_in self.old)) }
        ensures regions { IfSome result (λ addr. regions_in self.new
            ≡ inserted (region_of client class addr) (regions_in self.old)) }
        ensures free { vec_len self.new.free ≡ vec_len self.old.free }
    {
        let slab = self.open_slab(class)?;
        let bits = &mut self.slots[slab.minor as usize];
        let region = bits.take_lowest().unwrap();
        let is_open = bits.free_count() > 0;
        set_open(&mut self.bins, bin_key(class, slab), true, is_open);
        self.holders.set(slab.minor, region, Some(client));
        Some(PAGE_BYTES * slab.major + u64::from(region) * size_of(class))
    }

    /// Puts a region of a slab back, of which another one is out besides.
    pub fn put(&mut self, class: u8, slab: Key, region: u32)
        requires table { IsSlabTable self.old }
        requires class { IsSmall class }
        requires out { IsOutAt self.old class (place class slab.major region) slab region }
        requires others { left_of (bits_at self.old.slots.items slab.minor) + 1 < regions_at class }
        ensures table { IsSlabTable self.new }
        ensures slabs { slabs_in self.new ≡ map (with_free (place class slab.major region)) (slabs_in self.old) }
        ensures regions { regions_in self.new ≡ filter (λ r. not (starts_at (place class slab.major region) r)) (regions_in self.old) }
        ensures free { vec_len self.new.free ≡ vec_len self.old.free }
    {
        let bits = &mut self.slots[slab.minor as usize];
        let was_open = bits.free_count() > 0;
        bits.put(region);
        set_open(&mut self.bins, bin_key(class, slab), was_open, true);
    }

    /// Gives a region of a slab that is out another holder.
    pub fn hand_over(&mut self, slab: Key, region: u32, holder: Option<u32>)
        requires table { IsSlabTable self.old }
        requires out { IsOutAt self.old (bits_at self.old.slots.items slab.minor).class (place (bits_at self.old.slots.items slab.minor).class slab.major region) slab region }
        requires client { IfSome holder (λ client. client < 32) }
        ensures table { IsSlabTable self.new }
        ensures slabs { slabs_in self.new ≡ slabs_in self.old }
        ensures regions { regions_in self.new ≡ held_anew (starts_at (place (bits_at self.old.slots.items slab.minor).class slab.major region)) holder (regions_in self.old) }
        ensures free { vec_len self.new.free ≡ vec_len self.old.free }
    {
        self.holders.set(slab.minor, region, holder);
    }

    /// Takes a slab of the class off.
    pub fn take_off(&mut self, class: u8, slab: Key)
        requires table { IsSlabTable self.old }
        requires there { Contains self.old.firsts.keys slab }
        requires class { (bits_at self.old.slots.items slab.minor).class ≡ class }
        ensures table { IsSlabTable self.new }
        ensures slabs { slabs_in self.new ≡ slabs_without self.old slab }
        ensures regions { regions_in self.new ≡ regions_without self.old slab }
        ensures free { vec_len self.new.free ≡ vec_len self.old.free + 1 }
        ensures keys { length self.new.firsts.keys + 1 ≡ length self.old.firsts.keys }
    {
        let was_open = self.left(slab) > 0;
        set_open(&mut self.bins, bin_key(class, slab), was_open, false);
        self.firsts.remove(slab);
        self.chart.remove(slab.major, class_pages(class));
        self.free.push(slab.minor as u32).unwrap();
        self.counts[class as usize] -= 1;
    }

    /// Takes all slabs off.
    pub fn clear(&mut self)
        requires table { IsSlabTable self.old }
        ensures table { IsSlabTable self.new }
        ensures slabs { slabs_in self.new ≡ [] }
        ensures regions { regions_in self.new ≡ [] }
        ensures free { vec_len self.new.free ≡ vec_len self.old.free + length (slabs_in self.old) }
    {
        while let Some(slab) = self.firsts.first() {
            let class = self.slots[slab.minor as usize].class();
            self.take_off(class, slab);
        }
    }
}

// Puts the key of a slab in where it opens, and takes it out where it fills up or goes.
#[inline(always)]
fn set_open(bins: &mut ClassSet, key: Key, was_open: bool, is_open: bool)
    requires class { key.major < 36 }
    requires was { IsTrue was_open ↔ Contains bins.old.keys key }
    requires room { cond is_open 1 0 ≤ bins.old.spare + cond was_open 1 0 }
    ensures keys { IsMoved bins.old.keys bins.new.keys key is_open }
    ensures spare { bins.new.spare + cond is_open 1 0 ≡ bins.old.spare + cond was_open 1 0 }
{
    if was_open == is_open {
        return;
    }
    if is_open {
        bins.insert(key);
    } else {
        bins.remove(key);
    }
}
