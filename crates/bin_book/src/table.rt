//! The slots of slabs, the sets that find them, and the room in these.
ghost use Rattle.std.specs.Prelude.{◌≡◌, ◌==◌, ℕ, ◌+◌, ◌-◌, ◌*◌, ◌/◌, ◌<◌, ◌≤◌, ◌^◌, ◌&&◌, ◌↔◌, [], ◌++◌, find, max, nat_lt, true, is_some, IsTrue, IfNone, IfSome, OnOk, OnErr, length, vec_capacity, vec_len, Contains};
ghost use Rattle.std.specs.List.{list_any, range_with_len};
ghost use Rattle.size_classes.specs.Classes.{IsSmall, pages_at};
ghost use Rattle.space_model.specs.Region.{starts_at};
ghost use Rattle.bin_book.specs.Bins.{free_of, is_out};
ghost use Rattle.bin_book.specs.Tables.{HasOut, IsLastKeyBelow, IsLowestOpen, IsOutAt, IsSlabTable, bin_key, bits_at, left_of, regions_in, slabs_in};

use crate::chart::Chart;
use crate::class_set::ClassSet;
use crate::holders::Holders;
use ordered_set::{Key, OrderedSet};
use size_classes::{PAGE_BYTES, class_pages, size_of, slab_regions};
use slab_bits::SlabBits;
use space_model::Region;
use std::alloc::{AllocError as NoMemory, Global};

/// How many small classes there are.
pub const CLASSES: usize = 36;

// Page numbers and the numbers of slots are below this one.
const RADIX: u64 = 1 << 32;

/// Each slab has a number, the place of the slot that has its bits and the holders of its regions. Its number stands in a set by
/// first page, in a set by class while a region of it is free, and in the chart at each of its pages. A slot without a slab has
/// its number among the free ones.
#[derive(Drop)]
pub struct Table {
    pub firsts: OrderedSet,
    pub bins: ClassSet,
    pub chart: Chart,
    pub slots: Vec<SlabBits>,
    pub holders: Holders,
    pub free: Vec<u32>,
    pub counts: [u64; CLASSES],
}

/// The key of a slab among those of its class.
pub fn bin_key(class: u8, slab: Key) -> Key
    requires first { slab.major < 2 ^ 32 }
    requires number { slab.minor < 2 ^ 32 }
    ensures { result ≡ bin_key class slab }
{
    Key {
        major: u64::from(class),
        minor: slab.major * RADIX + slab.minor,
    }
}

/// The key of a slab among the first pages, by that among those of its class.
pub fn first_key(bin: Key) -> Key
    ensures first { result.major * 2 ^ 32 + result.minor ≡ bin.minor }
    ensures number { result.minor < 2 ^ 32 }
{
    Key {
        major: bin.minor / RADIX,
        minor: bin.minor % RADIX,
    }
}

impl Table {
    pub fn new(alloc: Global) -> Table
        ensures table { IsSlabTable result }
        ensures slabs { slabs_in result ≡ [] }
        ensures regions { regions_in result ≡ [] }
        ensures free { vec_len result.free ≡ 0 }
    {
        Table {
            firsts: OrderedSet::new(alloc),
            bins: ClassSet::new(alloc),
            chart: Chart::new(alloc),
            slots: Vec::new(alloc),
            holders: Holders::new(alloc),
            free: Vec::new(alloc),
            counts: [0; CLASSES],
        }
    }

    /// Makes room for so many further slabs. The slabs stay.
    pub fn reserve(&mut self, more: u64) -> Result<(), NoMemory>
        requires { IsSlabTable self.old }
        ensures table { IsSlabTable self.new }
        ensures slabs { slabs_in self.new ≡ slabs_in self.old }
        ensures regions { regions_in self.new ≡ regions_in self.old }
        ensures ok { OnOk result (vec_len self.new.free ≡ max (vec_len self.old.free) more) }
        ensures err { OnErr result (vec_len self.new.free ≡ vec_len self.old.free) }
    {
        let all = self.firsts.len().checked_add(more).ok_or(NoMemory)?;
        if all >= RADIX {
            return Err(NoMemory);
        }
        self.chart.reserve(more, all as usize)?;
        if more <= self.spare() {
            return Ok(());
        }
        self.widen(more, all as usize)
    }

    // Makes room for so many further slabs in the sets, the codes and the slots, where the chart has it.
    fn widen(&mut self, more: u64, all: usize) -> Result<(), NoMemory>
        requires table { IsSlabTable self.old }
        requires all { all ≡ length self.old.firsts.keys + more }
        requires small { all < 2 ^ 32 }
        requires more { vec_len self.old.free ≤ more }
        requires chart { all ≤ vec_len self.old.chart.firsts }
        ensures table { IsSlabTable self.new }
        ensures slabs { slabs_in self.new ≡ slabs_in self.old }
        ensures regions { regions_in self.new ≡ regions_in self.old }
        ensures ok { OnOk result (vec_len self.new.free ≡ more) }
        ensures err { OnErr result (vec_len self.new.free ≡ vec_len self.old.free) }
    {
        self.firsts.reserve(more)?;
        self.bins.reserve(all as u64 - self.bins.len())?;
        self.holders.reserve(all)?;
        add_slots(&mut self.slots, &mut self.free, all)
    }

    /// How many slots have no slab.
    pub fn spare(&self) -> u64
        ensures { result ≡ vec_len self.now.free }
    {
        self.free.len() as u64
    }

    /// The key of the lowest slab of a class that has a free region.
    #[tactic(auto, using(crate::proofs::Taking::none_open))]
    pub fn open_slab(&self, class: u8) -> Option<Key>
        requires table { IsSlabTable self.now }
        requires class { IsSmall class }
        ensures none { IfNone result (free_of class (slabs_in self.now) ≡ []) }
        ensures some { IfSome result (λ key. IsLowestOpen self.now class key) }
    {
        let bin = self.bins.lowest(class)?;
        Some(first_key(bin))
    }

    /// Whether some slab has a page from the first one up to the end.
    pub fn meets(&self, first: u64, end: u64) -> bool
        requires table { IsSlabTable self.now }
        requires some { first < end }
        ensures { result ≡ list_any (λ s. nat_lt s.first end && nat_lt first (s.first + pages_at s.class)) (slabs_in self.now) }
    {
        let end = Key {
            major: end,
            minor: 0,
        };
        match self.firsts.before(end) {
            Some(slab) => {
                let class = self.slots[slab.minor as usize].class();
                first < slab.major + class_pages(class)
            }
            None => false,
        }
    }

    /// The slab in which a region of the class is out at an address, and its place there.
    pub fn holder(&self, class: u8, addr: u64) -> Option<(Key, u32)>
        requires table { IsSlabTable self.now }
        requires class { IsSmall class }
        ensures some { IfSome result (λ found. IsOutAt self.now class addr found.0 found.1) }
        ensures none { is_some result ≡ list_any (is_out class addr) (slabs_in self.now) }
    {
        let slab = self.last_at(addr / PAGE_BYTES)?;
        let region = self.out_at(slab, class, addr)?;
        Some((slab, region))
    }

    /// The slab in which a region is out at an address, and its place there.
    #[inline(always)]
    pub fn find(&self, addr: u64) -> Option<(Key, u32)>
        requires table { IsSlabTable self.now }
        ensures some { IfSome result (λ found. IsOutAt self.now (bits_at self.now.slots.items found.0.minor).class addr found.0 found.1) }
        ensures none { is_some result ≡ list_any (starts_at addr) (regions_in self.now) }
    {
        let slab = self.last_at(addr / PAGE_BYTES)?;
        let class = self.slots[slab.minor as usize].class();
        let region = self.out_at(slab, class, addr)?;
        Some((slab, region))
    }

    /// The region that is out at an address.
    pub fn region_at(&self, addr: u64) -> Option<Region>
        requires table { IsSlabTable self.now }
        ensures at { result ≡ find (starts_at addr) (regions_in self.now) }
        ensures out { IfSome result (λ r. list_any (is_out r.class addr) (slabs_in self.now) ≡ true) }
    {
        let (slab, region) = self.find(addr)?;
        Some(Region {
            addr,
            class: self.slots[slab.minor as usize].class(),
            holder: self.holders.at(slab.minor, region),
        })
    }

    // The place of the region of the class that is out at an address, in the last slab that begins at its page or below.
    #[inline(always)]
    fn out_at(&self, slab: Key, class: u8, addr: u64) -> Option<u32>
        requires table { IsSlabTable self.now }
        requires class { IsSmall class }
        requires last { IsLastKeyBelow self.now.firsts.keys (addr / 4096 + 1) slab }
        ensures some { IfSome result (λ region. IsOutAt self.now class addr slab region) }
        ensures none { is_some result ≡ list_any (is_out class addr) (slabs_in self.now) }
    {
        let offset = addr - PAGE_BYTES * slab.major;
        let size = size_of(class);
        if self.has_out(slab, class, offset / size) && offset % size == 0 {
            Some((offset / size) as u32)
        } else {
            None
        }
    }

    // The last slab that begins at a page or below. It is the one that has the page, if one has.
    #[tactic(auto, using(crate::proofs::Holding::charted_place, crate::proofs::Holding::last_found, crate::proofs::Holding::none_found))]
    fn last_at(&self, page: u64) -> Option<Key>
        requires table { IsSlabTable self.now }
        requires page { page + 1 < 2 ^ 64 }
        ensures some { IfSome result (λ key. IsLastKeyBelow self.now.firsts.keys (page + 1) key) }
        ensures none { IfNone result ((key : Key) → Contains self.now.firsts.keys key → page < key.major) }
    {
        if let Some(slab) = self.chart.find(page) {
            return Some(slab);
        }
        self.firsts.before(Key {
            major: page + 1,
            minor: 0,
        })
    }

    // Whether the slab is of the class, and its region with a number is out.
    fn has_out(&self, slab: Key, class: u8, region: u64) -> bool
        requires table { IsSlabTable self.now }
        requires there { Contains self.now.firsts.keys slab }
        requires class { IsSmall class }
        ensures { IsTrue result ↔ HasOut (bits_at self.now.slots.items slab.minor) class region }
    {
        let bits = &self.slots[slab.minor as usize];
        bits.class() == class && region < slab_regions(class) && !bits.is_free(region as u32)
    }

    /// How many regions of a slab are free.
    pub fn left(&self, slab: Key) -> u32
        requires table { IsSlabTable self.now }
        requires there { Contains self.now.firsts.keys slab }
        ensures { result ≡ left_of (bits_at self.now.slots.items slab.minor) }
    {
        self.slots[slab.minor as usize].free_count()
    }
}

// Makes the slots so many. The new ones have no slab.
fn add_slots(slots: &mut Vec<SlabBits>, free: &mut Vec<u32>, all: usize) -> Result<(), NoMemory>
    requires more { vec_len slots.old ≤ all }
    requires small { all < 2 ^ 32 }
    requires fewer { vec_len free.old ≤ vec_len slots.old }
    ensures kept { (number : ℕ) → number < vec_len slots.old
        → bits_at slots.new.items number ≡ bits_at slots.old.items number }
    ensures free { free.new.items
        ≡ free.old.items ++ range_with_len (vec_len slots.old) (vec_len slots.new - vec_len slots.old) }
    ensures places { vec_len free.new + vec_len slots.old ≡ vec_len free.old + vec_len slots.new }
    ensures more { vec_len slots.old ≤ vec_len slots.new }
    ensures most { vec_len slots.new ≤ all }
    ensures room { vec_len slots.old ≤ vec_capacity free.old → vec_len slots.new ≤ vec_capacity free.new }
    ensures ok { OnOk result (vec_len slots.new ≡ all) }
    ensures err { OnErr result (vec_len slots.new ≡ vec_len slots.old) }
{
    free.reserve(all - free.len())?;
    slots.reserve(all - slots.len())?;
    for number in slots.len()..all {
        free.push(number as u32).unwrap();
        slots.push(SlabBits::new(0)).unwrap();
    }
    Ok(())
}
