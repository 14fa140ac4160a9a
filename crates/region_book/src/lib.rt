//! The regions of an arena where they stand: a large one at its first page, a small one in its slab.
#![tactic(auto)]

mod larges;
mod numbers;
mod totals;

ghost use Rattle.std.specs.Prelude.{◌≡◌, ◌==◌, ◌&&◌, ◌+◌, ◌-◌, ◌*◌, ◌<◌, ◌≤◌, ◌^◌, ℕ, false, true, not, [], ◌∷◌, ◌++◌, filter, find, length, map, nat_le, nat_lt, option_map, slice_index_or, take, IfOk, IfSome, IsTrue, ◌↔◌, OnOk, Some, count_by, if◌then◌else◌};
ghost use Rattle.std.specs.List.{list_any};
ghost use Rattle.size_classes.specs.Classes.{IsSmall};
ghost use Rattle.space_model.specs.Region.{held_anew, inserted, is_held_by, is_held_by_other, landing, region_of, regions_from, starts_at};
ghost use Rattle.space_model.specs.Holding.{is_published_at};
ghost use Rattle.space_model.specs.Counts.{region_bytes, region_bytes_where, regions_by_class};
ghost use Rattle.space_model.specs.Step.{holds_at, is_given_back, staying};
ghost use Rattle.bin_book.specs.Bins.{free_of, slab_with_out, with_slab, with_regions_out};
ghost use Rattle.region_book.specs.Larges.{IsHolder};
ghost use Rattle.region_book.specs.RegionLists.{CanBeSlab, CanCome, found_held, if_published};
ghost use Rattle.region_book.specs.Slabs.{is_last, slabs_landed, slabs_returned};

use bin_book::BinBook;
use larges::LargeBook;
use size_classes::{Addrs, CLASSES, PAGE_BYTES, SMALL_CLASSES};
use space_model::Region;
use std::alloc::{AllocError as NoMemory, Global};
use std::marker::Model;
use totals::Totals;

/// How many classes are small.
const SMALL: usize = SMALL_CLASSES as usize;

/// How many classes are large.
const LARGE: usize = CLASSES as usize - SMALL;

/// The regions of an arena with the slabs of the small ones. No search finds a region, and none scans.
#[derive(Drop)]
pub struct RegionBook {
    larges: LargeBook,
    bins: BinBook,
    totals: Totals,
}

impl Model for RegionBook {
    ghost use Rattle.region_book.specs.RegionLists.{Regions};

    ghost Value = { Regions };

    ghost use Rattle.region_book.specs.Books.{shown, IsRegionBook};

    ghost view = { shown };

    ghost invariant = { IsRegionBook };
}

impl RegionBook {
    /// No region, and no place for one.
    pub fn new(alloc: Global) -> RegionBook
        ensures { result ≡ record { regions = []; slabs = []; places = 0 } }
    {
        RegionBook {
            larges: LargeBook::new(alloc),
            bins: BinBook::new(alloc),
            totals: Totals::none(),
        }
    }

    /// Makes places for the regions of at least `more` further extents. The regions stay.
    pub fn reserve(&mut self, more: u64) -> Result<(), NoMemory>
        ensures regions { self.new.regions ≡ self.old.regions }
        ensures slabs { self.new.slabs ≡ self.old.slabs }
        ensures kept { self.old.places ≤ self.new.places }
        ensures ok { OnOk result (more ≤ self.new.places) }
    {
        self.bins.reserve(more)?;
        self.larges.reserve(more)
    }

    /// How many more extents may come to serve regions.
    pub fn places(&self) -> u64
        ensures { result ≡ self.now.places }
    {
        self.bins.spare().min(self.larges.spare())
    }

    /// An extent serves the first `count` regions of a small class from now on, which the client holds.
    fn land_small(&mut self, client: u32, class: u8, first: u64, count: u32)
        requires client { client < 32 }
        requires room { 0 < self.old.places }
        requires class { class < 36 }
        requires can_be { CanBeSlab class first count self.old.slabs }
        requires can_come { CanCome (regions_from client class (4096 * first) count) self.old.regions }
        ensures regions { self.new.regions ≡ landing (regions_from client class (4096 * first) count) self.old.regions }
        ensures slabs { self.new.slabs ≡ with_slab self.old.slabs (slab_with_out class first count) }
        ensures places { self.old.places ≤ self.new.places + 1 }
    {
        self.bins.serve(client);
        self.bins.add_slab(class, first, count);
        self.totals.add(class, Some(client), u64::from(count));
    }

    /// An extent serves a region of a large class from now on, which the client holds.
    fn land_large(&mut self, client: u32, class: u8, first: u64)
        requires client { client < 32 }
        requires room { 0 < self.old.places }
        requires large { 36 ≤ class }
        requires class { class < 121 }
        requires page { first < 2 ^ 29 }
        requires can_come { CanCome (regions_from client class (4096 * first) 1) self.old.regions }
        ensures regions { self.new.regions ≡ landing (regions_from client class (4096 * first) 1) self.old.regions }
        ensures slabs { self.new.slabs ≡ self.old.slabs }
        ensures places { self.old.places ≤ self.new.places + 1 }
    {
        let addr = PAGE_BYTES * first;
        let holder = Some(client);
        self.larges.add(Region {
            addr,
            class,
            holder,
        });
        self.totals.add(class, holder, 1);
    }

    /// The first `count` regions of a class, from a page on, are the client's. A large one comes alone.
    pub fn land(&mut self, client: u32, class: u8, first: u64, count: u32)
        requires client { client < 32 }
        requires room { 0 < self.old.places }
        requires class { class < 121 }
        requires small { class < 36 → CanBeSlab class first count self.old.slabs }
        requires large { 36 ≤ class → (count ≡ 1) × (first < 2 ^ 29) }
        requires can_come { CanCome (regions_from client class (4096 * first) count) self.old.regions }
        ensures regions { self.new.regions ≡ landing (regions_from client class (4096 * first) count) self.old.regions }
        ensures slabs { self.new.slabs ≡ slabs_landed class first count self.old.slabs }
        ensures places { self.old.places ≤ self.new.places + 1 }
    {
        if class < SMALL_CLASSES {
            self.land_small(client, class, first, count);
        } else {
            self.land_large(client, class, first);
        }
    }

    /// Whether a slab of the class has a free region.
    pub fn has_free(&self, class: u8) -> bool
        requires class { IsSmall class }
        ensures { IsTrue result ↔ ¬ (free_of class self.now.slabs ≡ []) }
    {
        self.bins.has_free(class)
    }

    /// The client takes the `count` lowest free regions of a class, or all if there are fewer. Adds their addresses, which
    /// rise, to a list that has room for so many.
    pub fn fill(&mut self, client: u32, class: u8, count: u32, out: &mut Addrs)
        requires client { client < 32 }
        requires class { IsSmall class }
        requires room { count ≤ out.old.room }
        requires can_come { CanCome (map (region_of client class) (take count (free_of class self.old.slabs))) self.old.regions }
        ensures addrs { out.new.items ≡ out.old.items ++ take count (free_of class self.old.slabs) }
        ensures regions { self.new.regions ≡ landing (map (region_of client class) (take count (free_of class self.old.slabs))) self.old.regions }
        ensures slabs { self.new.slabs ≡ map (with_regions_out (take count (free_of class self.old.slabs))) self.old.slabs }
        ensures places { self.new.places ≡ self.old.places }
    {
        let before = out.as_slice().len();
        self.bins.serve(client);
        self.bins.take(class, count, out);
        let taken = out.as_slice().len() - before;
        self.totals.add(class, Some(client), taken as u64);
    }

    /// The region that begins at an address.
    pub fn at(&self, addr: u64) -> Option<Region>
        ensures at { result ≡ find (starts_at addr) self.now.regions }
        ensures published { find (is_published_at addr) self.now.regions ≡ if_published result }
        ensures held { (client : ℕ) → holds_at client self.now.regions addr ≡ found_held client result }
    {
        match self.larges.at(addr) {
            Some(region) => Some(region),
            None => self.bins.at(addr),
        }
    }

    /// The class of the region at an address, if there is one that nobody holds.
    pub fn published_at(&self, addr: u64) -> Option<u8>
        ensures { result ≡ option_map (λ r. r.class) (find (is_published_at addr) self.now.regions) }
    {
        let region = self.at(addr)?;
        if region.holder.is_none() {
            Some(region.class)
        } else {
            None
        }
    }

    /// Whether the client holds the region at an address.
    pub fn holds(&self, client: u32, addr: u64) -> bool
        ensures { result ≡ holds_at client self.now.regions addr }
    {
        match self.at(addr) {
            Some(region) => region.holder == Some(client),
            None => false,
        }
    }

    /// The bytes of all regions.
    pub fn bytes(&self) -> u64
        ensures { result ≡ region_bytes self.now.regions }
    {
        self.totals.bytes
    }

    /// The bytes of the regions of small classes.
    pub fn small_bytes(&self) -> u64
        ensures { result ≡ region_bytes_where (λ class. nat_lt class 36) self.now.regions }
    {
        self.totals.small
    }

    /// How many regions there are of each small class.
    pub fn small_numbers(&self) -> [u64; SMALL]
        ensures { result ≡ regions_by_class 0 36 self.now.regions }
    {
        let mut numbers = [0; SMALL];
        numbers.copy_from_slice(&self.totals.classes[..SMALL]);
        numbers
    }

    /// How many regions there are of each large class.
    pub fn large_numbers(&self) -> [u64; LARGE]
        ensures { result ≡ regions_by_class 36 85 self.now.regions }
    {
        let mut numbers = [0; LARGE];
        numbers.copy_from_slice(&self.totals.classes[SMALL..]);
        numbers
    }

    /// How many slabs there are of each small class.
    pub fn slabs(&self) -> [u64; SMALL]
        ensures { (class : ℕ) → class < 36
            → slice_index_or result class 0 ≡ count_by (λ s. s.class == class) self.now.slabs }
    {
        self.bins.slabs()
    }

    /// Whether there is no region.
    pub fn is_empty(&self) -> bool
        ensures { result ≡ (length self.now.regions == 0) }
    {
        self.totals.number == 0
    }

    /// How many regions the client holds.
    pub fn count_held(&self, client: u32) -> u64
        requires { client < 32 }
        ensures { result ≡ count_by (is_held_by client) self.now.regions }
    {
        self.totals.holders[client as usize + 1]
    }

    /// How many regions are held by clients other than this one.
    pub fn count_others(&self, client: u32) -> u64
        requires { client < 32 }
        ensures others { result ≡ count_by (is_held_by_other client) self.now.regions }
        ensures few { length self.now.regions < 2 ^ 64 }
    {
        self.totals.number - self.totals.holders[0] - self.totals.holders[client as usize + 1]
    }

    /// The client gives the region back that it holds at an address. Gives its class, and whether its extent then serves
    /// none, as always for a large one.
    pub fn give_back(&mut self, client: u32, addr: u64) -> (u8, bool)
        requires held { holds_at client self.old.regions addr ≡ true }
        ensures regions { self.new.regions ≡ staying client (addr ∷ []) self.old.regions }
        ensures class { map (λ r. r.class) (filter (is_given_back client (addr ∷ [])) self.old.regions) ≡ result.0 ∷ [] }
        ensures last { result.1 ≡ is_last result.0 addr self.old.slabs }
        ensures slabs { self.new.slabs ≡ slabs_returned result.0 addr self.old.slabs }
        ensures places { self.old.places ≤ self.new.places }
    {
        match self.larges.at(addr) {
            Some(region) => {
                self.larges.take(addr);
                self.totals.remove(region.class, region.holder);
                (region.class, true)
            }
            None => {
                let region = self.bins.at(addr).unwrap();
                let last = self.bins.put_back(region.class, addr);
                self.totals.remove(region.class, region.holder);
                (region.class, last)
            }
        }
    }

    /// Gives the region at an address another holder, or none.
    pub fn hand_over(&mut self, addr: u64, holder: Option<u32>)
        requires there { list_any (starts_at addr) self.old.regions ≡ true }
        requires holder { IsHolder holder }
        ensures regions { self.new.regions ≡ held_anew (starts_at addr) holder self.old.regions }
        ensures slabs { self.new.slabs ≡ self.old.slabs }
        ensures places { self.new.places ≡ self.old.places }
    {
        let region = self.at(addr).unwrap();
        self.totals.remove(region.class, region.holder);
        self.totals.add(region.class, holder, 1);
        match self.larges.at(addr) {
            Some(_) => self.larges.hand_over(addr, holder),
            None => self.bins.hand_over(addr, holder),
        }
    }

    /// The client's large region at an address, which begins a page, takes another large class.
    pub fn reclass(&mut self, client: u32, page: u64, class: u8)
        requires client { client < 32 }
        requires page { page < 2 ^ 29 }
        requires there { list_any (λ r. starts_at (4096 * page) r && nat_le 36 r.class) self.old.regions ≡ true }
        requires bytes { region_bytes self.old.regions ≤ 2 ^ 41 }
        requires large { 36 ≤ class }
        requires class { class < 121 }
        ensures regions { self.new.regions
            ≡ inserted (record { addr = 4096 * page; class = class; holder = Some client }) (filter (λ r. not (starts_at (4096 * page) r)) self.old.regions) }
        ensures slabs { self.new.slabs ≡ self.old.slabs }
        ensures places { self.new.places ≡ self.old.places }
    {
        let addr = PAGE_BYTES * page;
        let region = self.larges.at(addr).unwrap();
        let holder = Some(client);
        self.larges.replace(Region {
            addr,
            class,
            holder,
        });
        self.totals.remove(region.class, region.holder);
        self.totals.add(class, holder, 1);
    }

    /// Takes all regions out.
    pub fn clear(&mut self)
        ensures regions { self.new.regions ≡ [] }
        ensures slabs { self.new.slabs ≡ [] }
        ensures places { self.old.places ≤ self.new.places }
    {
        self.larges.clear();
        self.bins.clear();
        self.totals = Totals::none();
    }
}
