//! The slab that has a page, by a map of pages.
ghost use Rattle.std.specs.Prelude.{◌≡◌, ℕ, ◌+◌, ◌*◌, ◌<◌, ◌≤◌, ◌^◌, ◌⊎◌, None, Some, max, min, slice_set, slice_index_or, option_map, vec_len, IsOkAnd, OnOk};
ghost use Rattle.std.specs.FinMap as map_of;
ghost use Rattle.bin_book.specs.Charts.{Grows, HasPage, first_at};

use ordered_set::Key;
use page_map::{LEAVES, PAGES, PageMap};
use std::alloc::{AllocError as NoMemory, Global};

// Leaves are kept for so many slabs at least.
const LEAST: u64 = 64;

/// The number of the slab that has a page, and the first page of the slab with a number. A page of a slab that came
/// when no leaf was spare has no number.
#[derive(Drop)]
pub struct Chart {
    pub pages: PageMap,
    pub firsts: Vec<u64>,
}

impl Chart {
    pub fn new(alloc: Global) -> Chart
        ensures pages { result.pages.numbers ≡ map_of.empty }
        ensures firsts { vec_len result.firsts ≡ 0 }
    {
        Chart {
            pages: PageMap::new(alloc).unwrap(),
            firsts: Vec::new(alloc),
        }
    }

    /// Makes places for the first pages of so many slots, and spare leaves for so many further slabs: the pages of a
    /// slab lie in two chunks at most. One more leaf is always spare then.
    pub fn reserve(&mut self, slabs: u64, slots: usize) -> Result<(), NoMemory>
        ensures grows { Grows self.old self.new }
        ensures places { OnOk result (slots ≤ vec_len self.new.firsts) }
        ensures leaves { OnOk result (min LEAVES (2 * max slabs LEAST + 1) ≤ self.new.pages.spare) }
    {
        let leaves = slabs.max(LEAST).saturating_mul(2).saturating_add(1);
        self.pages.reserve(LEAVES.min(leaves))?;
        self.firsts
            .reserve(slots.saturating_sub(self.firsts.len()))?;
        for _ in self.firsts.len()..slots {
            self.firsts.push(0).unwrap();
        }
        Ok(())
    }

    /// The slab that has a page, where the page has a number.
    pub fn find(&self, page: u64) -> Option<Key>
        requires { (number : ℕ) → map_of.get self.now.pages.numbers page ≡ Some number → number < vec_len self.now.firsts }
        ensures { result ≡ option_map (λ number. record { major = first_at self.now.firsts.items number; minor = number }) (map_of.get self.now.pages.numbers page) }
    {
        let number = self.pages.get(page)?;
        Some(Key {
            major: self.firsts[number as usize],
            minor: u64::from(number),
        })
    }

    /// Gives the pages of a slab its number: all of them, where three leaves are spare.
    pub fn add(&mut self, slab: Key, pages: u64)
        requires place { slab.minor < vec_len self.old.firsts }
        requires number { slab.minor < 2 ^ 32 }
        requires inside { slab.major + pages < 2 ^ 64 }
        ensures firsts { self.new.firsts.items ≡ slice_set self.old.firsts.items slab.minor slab.major }
        ensures len { vec_len self.new.firsts ≡ vec_len self.old.firsts }
        ensures only { (page number : ℕ) → map_of.get self.new.pages.numbers page ≡ Some number
            → (HasPage slab.major pages page × (slab.minor ≡ number)) ⊎ (map_of.get self.old.pages.numbers page ≡ Some number) }
        ensures each { (page : ℕ) → 2 < self.old.pages.spare → pages ≤ 512 → page < PAGES → HasPage slab.major pages page
            → map_of.get self.new.pages.numbers page ≡ Some slab.minor }
    {
        self.firsts[slab.minor as usize] = slab.major;
        for page in slab.major..PAGES.min(slab.major + pages) {
            if self.pages.spare() > 0 {
                self.pages.set(page, slab.minor as u32);
            }
        }
    }

    /// Takes the numbers of the pages of a slab away.
    pub fn remove(&mut self, first: u64, pages: u64)
        requires inside { first + pages < 2 ^ 64 }
        ensures firsts { self.new.firsts ≡ self.old.firsts }
        ensures none { (page : ℕ) → HasPage first pages page → map_of.get self.new.pages.numbers page ≡ None }
        ensures only { (page number : ℕ) → map_of.get self.new.pages.numbers page ≡ Some number
            → map_of.get self.old.pages.numbers page ≡ Some number }
    {
        for page in first..first + pages {
            self.pages.clear(page);
        }
    }
}
