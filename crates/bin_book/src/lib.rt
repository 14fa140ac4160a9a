//! The slabs of one arena with their free regions, found by class and by address, and the holders of the others. Of its calls only
//! `reserve` takes memory.
#![tactic(auto)]

ghost use Rattle.std.specs.Prelude.{◌≡◌, ◌==◌, ◌+◌, ◌*◌, ◌<◌, ◌≤◌, ◌^◌, ℕ, true, false, not, cond, [], ◌++◌, length, max, map, find, filter, take, count_by, slice_index_or, IsTrue, ◌↔◌, IfSome, OnOk, OnErr};
ghost use Rattle.std.specs.List.{list_any};
ghost use Rattle.size_classes.specs.Classes.{IsSmall, pages_at, regions_at};
ghost use Rattle.space_model.specs.Region.{held_anew, landing, region_of, regions_from, starts_at};
ghost use Rattle.bin_book.specs.Bins.{free_of, is_out, is_all_free, meets_slab, slab_with_out, with_free, with_slab, with_regions_out};

use crate::table::{CLASSES, Table};
use size_classes::{Addrs, class_pages, slab_regions};
use space_model::Region;
use std::alloc::{AllocError as NoMemory, Global};
use std::marker::Model;

mod changes;
mod chart;
mod class_set;
mod holders;
mod table;

/// The slabs of an arena, in order of first page, with the free regions of each and the holders of the others.
///
/// A slab stands in the book as long as a region of it is out. The lowest slab with free regions is kept for
/// each class, and the next one is sought in an ordered set only where it fills up or goes; no slab is looked at
/// that isn't taken from. Which slab has an address is read off a map of pages. A page that the map lacks, since
/// its slab came when the map had no room, is sought in an ordered set. [`BinBook::reserve`] makes places for
/// further slabs, whatever their classes, and room for their pages.
#[derive(Drop)]
pub struct BinBook {
    table: Table,
    client: u32,
}

impl Model for BinBook {
    ghost use Rattle.bin_book.specs.Bins.{Bins};

    ghost Value = { Bins };

    ghost use Rattle.bin_book.specs.Shown.{shown, IsBinBook};

    ghost view = { shown };

    ghost invariant = { IsBinBook };
}

impl BinBook {
    /// A book without slabs, with no place for one, for client 0. Takes no memory.
    pub fn new(alloc: Global) -> BinBook
        ensures { result ≡ record { slabs = []; regions = []; spare = 0; client = 0 } }
    {
        BinBook {
            table: Table::new(alloc),
            client: 0,
        }
    }

    /// Makes places for at least `more` further slabs. A refusal changes nothing.
    pub fn reserve(&mut self, more: u64) -> Result<(), NoMemory>
        ensures slabs { self.new.slabs ≡ self.old.slabs }
        ensures regions { self.new.regions ≡ self.old.regions }
        ensures client { self.new.client ≡ self.old.client }
        ensures ok { OnOk result (self.new.spare ≡ max self.old.spare more) }
        ensures err { OnErr result (self.new ≡ self.old) }
    {
        self.table.reserve(more)
    }

    /// The regions that come out from now on are held by the client.
    pub fn serve(&mut self, client: u32)
        requires { client < 32 }
        ensures { self.new ≡ record self.old { client = client } }
    {
        self.client = client;
    }

    /// How many more slabs there is a place for.
    pub fn spare(&self) -> u64
        ensures { result ≡ self.now.spare }
    {
        self.table.spare()
    }

    /// How many slabs there are of each small class.
    pub fn slabs(&self) -> [u64; CLASSES]
        ensures { (class : ℕ) → class < 36
            → slice_index_or result class 0 ≡ count_by (λ s. s.class == class) self.now.slabs }
    {
        self.table.counts
    }

    /// Whether a slab of the class has a free region.
    pub fn has_free(&self, class: u8) -> bool
        requires class { IsSmall class }
        ensures { IsTrue result ↔ ¬ (free_of class self.now.slabs ≡ []) }
    {
        self.table.open_slab(class).is_some()
    }

    /// Whether a slab of the class from a page on would share a page with a slab of the book.
    pub fn meets(&self, class: u8, first: u64) -> bool
        requires class { IsSmall class }
        requires inside { first + pages_at class ≤ 2 ^ 32 }
        ensures { result ≡ list_any (meets_slab class first) self.now.slabs }
    {
        self.table.meets(first, first + class_pages(class))
    }

    /// Whether a region of a slab of the class stands at an address and is out.
    pub fn is_out(&self, class: u8, addr: u64) -> bool
        requires class { IsSmall class }
        ensures { result ≡ list_any (is_out class addr) self.now.slabs }
    {
        self.table.holder(class, addr).is_some()
    }

    /// The region that is out at an address.
    pub fn at(&self, addr: u64) -> Option<Region>
        ensures at { result ≡ find (starts_at addr) self.now.regions }
        ensures out { IfSome result (λ r. list_any (is_out r.class addr) self.now.slabs ≡ true) }
    {
        self.table.region_at(addr)
    }

    /// Gives the region that is out at an address another holder.
    pub fn hand_over(&mut self, addr: u64, holder: Option<u32>)
        requires there { list_any (starts_at addr) self.old.regions ≡ true }
        requires client { IfSome holder (λ client. client < 32) }
        ensures slabs { self.new.slabs ≡ self.old.slabs }
        ensures regions { self.new.regions ≡ held_anew (starts_at addr) holder self.old.regions }
        ensures spare { self.new.spare ≡ self.old.spare }
        ensures served { self.new.client ≡ self.old.client }
    {
        let (slab, region) = self.table.find(addr).unwrap();
        self.table.hand_over(slab, region, holder);
    }

    /// Adds a slab whose lowest `count` regions are out, and held by the client that is served. It takes a place.
    pub fn add_slab(&mut self, class: u8, first: u64, count: u32)
        requires room { 0 < self.old.spare }
        requires class { IsSmall class }
        requires some { 0 < count }
        requires most { count ≤ regions_at class }
        requires inside { first + pages_at class ≤ 2 ^ 32 }
        requires apart { list_any (meets_slab class first) self.old.slabs ≡ false }
        ensures slabs { self.new.slabs ≡ with_slab self.old.slabs (slab_with_out class first count) }
        ensures regions { self.new.regions ≡ landing (regions_from self.old.client class (4096 * first) count) self.old.regions }
        ensures spare { self.new.spare + 1 ≡ self.old.spare }
        ensures client { self.new.client ≡ self.old.client }
    {
        self.table.add(self.client, class, first, count);
    }

    /// Takes the `n` lowest free regions of a class out, or all if there are fewer. The client that is served holds them.
    /// Adds their addresses, which rise, to a list that has room for so many.
    pub fn take(&mut self, class: u8, n: u32, out: &mut Addrs)
        requires class { IsSmall class }
        requires room { n ≤ out.old.room }
        ensures addrs { out.new.items ≡ out.old.items ++ take n (free_of class self.old.slabs) }
        ensures room { out.new.room + length (take n (free_of class self.old.slabs)) ≡ out.old.room }
        ensures slabs { self.new.slabs
            ≡ map (with_regions_out (take n (free_of class self.old.slabs))) self.old.slabs }
        ensures regions { self.new.regions
            ≡ landing (map (region_of self.old.client class) (take n (free_of class self.old.slabs))) self.old.regions }
        ensures spare { self.new.spare ≡ self.old.spare }
        ensures client { self.new.client ≡ self.old.client }
    {
        for _turn in 0..n {
            match self.table.take_one(self.client, class) {
                Some(addr) => out.push(addr),
                None => return,
            }
        }
    }

    /// Puts the region at an address, which is out of a slab of the class, back to the free ones.
    /// True exactly where all regions of the slab are free then; the slab leaves the book, and its
    /// place is free again.
    pub fn put_back(&mut self, class: u8, addr: u64) -> bool
        requires class { IsSmall class }
        requires out { list_any (is_out class addr) self.old.slabs ≡ true }
        ensures emptied { result ≡ list_any is_all_free (map (with_free addr) self.old.slabs) }
        ensures slabs { self.new.slabs
            ≡ filter (λ s. not (is_all_free s)) (map (with_free addr) self.old.slabs) }
        ensures regions { self.new.regions ≡ filter (λ r. not (starts_at addr r)) self.old.regions }
        ensures spare { self.new.spare ≡ self.old.spare + cond result 1 0 }
        ensures client { self.new.client ≡ self.old.client }
    {
        let (slab, region) = self.table.holder(class, addr).unwrap();
        let left = u64::from(self.table.left(slab)) + 1;
        if left == slab_regions(class) {
            self.table.take_off(class, slab);
            return true;
        }
        self.table.put(class, slab, region);
        false
    }

    /// Takes all slabs out. Their places are free again.
    pub fn clear(&mut self)
        ensures slabs { self.new.slabs ≡ [] }
        ensures regions { self.new.regions ≡ [] }
        ensures spare { self.new.spare ≡ self.old.spare + length self.old.slabs }
        ensures client { self.new.client ≡ self.old.client }
    {
        self.table.clear();
    }
}
