//! The large regions of an arena: a map from the page at which one begins to its class and holder.
ghost use Rattle.std.specs.Prelude.{◌≡◌, ◌+◌, ◌*◌, ◌/◌, ◌%◌, ◌<◌, ◌≤◌, None, Some, [], find, filter, not, max, IsSome, OnOk, OnErr};
ghost use Rattle.space_model.specs.Region.{held_anew, inserted, starts_at};
ghost use Rattle.region_book.specs.Larges.{IsHolder};

use crate::numbers::{packed, region_at};
use page_map::{PAGES, PageMap};
use size_classes::PAGE_BYTES;
use space_model::Region;
use std::alloc::{AllocError as NoMemory, Global};
use std::marker::Model;

/// The large regions of an arena, each at the page at which it begins. Contracts see them by address.
#[derive(Drop)]
pub struct LargeBook {
    pages: PageMap,
}

impl Model for LargeBook {
    ghost use Rattle.region_book.specs.Larges.{Larges, shown};

    ghost Value = { Larges };

    ghost view = { shown };
}

impl LargeBook {
    /// A book with no region, and no place for one. It takes no memory yet.
    #[tactic(auto, using(crate::proofs::Listing::none_listed))]
    pub fn new(alloc: Global) -> LargeBook
        ensures { result ≡ record { regions = []; spare = 0 } }
    {
        LargeBook {
            pages: PageMap::new(alloc).unwrap(),
        }
    }

    /// Makes places for at least `more` further regions, a leaf of the map for each. A refusal changes nothing.
    pub fn reserve(&mut self, more: u64) -> Result<(), NoMemory>
        ensures regions { self.new.regions ≡ self.old.regions }
        ensures ok { OnOk result (self.new.spare ≡ max self.old.spare more) }
        ensures err { OnErr result (self.new ≡ self.old) }
    {
        self.pages.reserve(more)
    }

    /// How many more regions there is certainly a place for.
    pub fn spare(&self) -> u64
        ensures { result ≡ self.now.spare }
    {
        self.pages.spare()
    }

    /// Puts a region that begins with a page behind those at lower addresses. It takes one place at most.
    #[tactic(auto, using(crate::proofs::Listing::add_is))]
    pub fn add(&mut self, region: Region)
        requires place { 0 < self.old.spare }
        requires page { region.addr % 4096 ≡ 0 }
        requires low { region.addr < 4096 * PAGES }
        requires class { region.class < 121 }
        requires holder { IsHolder region.holder }
        requires free { find (starts_at region.addr) self.old.regions ≡ None }
        ensures regions { self.new.regions ≡ inserted region self.old.regions }
        ensures spare { self.old.spare ≤ self.new.spare + 1 }
    {
        self.pages.set(region.addr / PAGE_BYTES, packed(region));
    }

    /// The region that begins at an address.
    #[tactic(auto, using(crate::proofs::Listing::larges_found))]
    pub fn at(&self, addr: u64) -> Option<Region>
        ensures { result ≡ find (starts_at addr) self.now.regions }
    {
        let page = addr / PAGE_BYTES;
        let number = self.pages.get(page)?;
        if addr % PAGE_BYTES == 0 && page < PAGES {
            Some(region_at(page, number))
        } else {
            None
        }
    }

    /// Gives the region that begins at an address another holder, or none.
    #[tactic(auto, using(crate::proofs::Listing::stands, crate::proofs::Listing::hand_over_is))]
    pub fn hand_over(&mut self, addr: u64, holder: Option<u32>)
        requires there { IsSome (find (starts_at addr) self.old.regions) }
        requires holder { IsHolder holder }
        ensures regions { self.new.regions ≡ held_anew (starts_at addr) holder self.old.regions }
        ensures spare { self.new.spare ≡ self.old.spare }
    {
        let page = addr / PAGE_BYTES;
        let number = self.pages.get(page).unwrap();
        let region = region_at(page, number);
        self.pages.set(page, packed(Region { holder, ..region }));
    }

    /// A region comes in place of the one that begins where it does.
    #[tactic(auto, using(crate::proofs::Listing::stands, crate::proofs::Listing::replace_is))]
    pub fn replace(&mut self, region: Region)
        requires there { IsSome (find (starts_at region.addr) self.old.regions) }
        requires class { region.class < 121 }
        requires holder { IsHolder region.holder }
        ensures regions { self.new.regions ≡ inserted region (filter (λ r. not (starts_at region.addr r)) self.old.regions) }
        ensures spare { self.new.spare ≡ self.old.spare }
    {
        let page = region.addr / PAGE_BYTES;
        let _number = self.pages.get(page).unwrap();
        self.pages.set(page, packed(region));
    }

    /// Takes the region that begins at an address out. The answer is that region.
    #[tactic(auto, using(crate::proofs::Listing::take_is))]
    pub fn take(&mut self, addr: u64) -> Region
        requires there { IsSome (find (starts_at addr) self.old.regions) }
        ensures region { find (starts_at addr) self.old.regions ≡ Some result }
        ensures regions { self.new.regions ≡ filter (λ r. not (starts_at addr r)) self.old.regions }
        ensures spare { self.old.spare ≤ self.new.spare }
    {
        let region = self.at(addr).unwrap();
        self.pages.clear(addr / PAGE_BYTES);
        region
    }

    /// Takes all regions out. No place is lost.
    #[tactic(auto, using(crate::proofs::Listing::none_listed))]
    pub fn clear(&mut self)
        ensures regions { self.new.regions ≡ [] }
        ensures spare { self.old.spare ≤ self.new.spare }
    {
        self.pages.clear_all();
    }
}
