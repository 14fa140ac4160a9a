//! Slots that lead to regions.

ghost use Rattle.std.specs.Prelude.{◌≡◌, ℕ, ◌<◌, ◌≤◌, ◌^◌, length, None, Some, slice_get, IfSome, IfNone};
ghost use Rattle.thread_cache.specs.declared.Held.{Held as Region};
ghost use Rattle.region_table.specs.Slots.{Passes, filled_in, home_of, is_filled, meets, next_slot, word_at, word_of};
ghost use Rattle.region_table.specs.Tables.{AreApart, AreMet, place_of};

use thread_cache::Held;

/// What an empty slot has.
pub const EMPTY: u64 = u64::MAX;

/// What a slot has whose region is gone: a search goes on behind it.
pub const GONE: u64 = u64::MAX - 1;

/// By what addresses are spread over the slots: 2^64 divided by the golden ratio.
const SPREAD: u64 = 0x9e37_79b9_7f4a_7c15;

/// A slot and the place of the region to which it leads.
#[derive(Clone, Copy)]
pub struct Spot {
    /// The slot.
    pub slot: usize,
    /// The place.
    pub place: usize,
}

/// The slot in which the search for an address begins, of so many.
#[tactic(auto, unfolding(crate::specs::Slots::home_of))]
pub fn home_of(addr: u64, count: usize) -> usize
    requires { count < 2 ^ 32 }
    ensures home { result ≡ home_of addr count }
    ensures within { 0 < count → result < count }
{
    let spread = addr.wrapping_mul(SPREAD) >> 32;
    (spread * count as u64 >> 32) as usize
}

/// What the slot of a region has.
#[tactic(auto, unfolding(crate::specs::Slots::word_of))]
pub fn word_of(addr: u64, place: usize) -> u64
    requires { place < 2 ^ 32 }
    ensures { result ≡ word_of addr place }
{
    ((addr >> 3 & 0xffff_ffff) << 32) + place as u64
}

/// The slot behind another one.
fn next_slot(at: usize, count: usize) -> usize
    requires { at < count }
    ensures next { result ≡ next_slot count at }
    ensures within { result < count }
{
    if at + 1 < count { at + 1 } else { 0 }
}

/// The place of the region at an address, if that is the one to which a slot leads.
#[tactic(auto, unfolding(crate::specs::Slots::word_of))]
fn place_in(word: u64, regions: &[Held], addr: u64) -> Option<usize>
    requires { length regions.now < 2 ^ 32 }
    ensures word { IfSome result (λ place. word ≡ word_of addr place) }
    ensures within { IfSome result (λ place. place < length regions.now) }
    ensures region { IfSome result (λ place. (region : Region) → slice_get regions.now place ≡ Some region → region.addr ≡ addr) }
    ensures none { IfNone result ((place : ℕ) (region : Region) → slice_get regions.now place ≡ Some region → region.addr ≡ addr → word ≡ word_of addr place → ⊥) }
{
    let place = (word & 0xffff_ffff) as usize;
    if word >> 32 == addr >> 3 & 0xffff_ffff
        && place < regions.len()
        && regions[place].addr == addr
    {
        Some(place)
    } else {
        None
    }
}

/// The slot that leads to the region at an address, if there is one.
pub fn seek(words: &[u64], regions: &[Held], addr: u64) -> Option<Spot>
    requires slots { length words.now < 2 ^ 32 }
    requires places { length regions.now < 2 ^ 31 }
    requires met { AreMet words.now regions.now }
    requires apart { AreApart regions.now }
    ensures word { IfSome result (λ spot. word_at words.now spot.slot ≡ word_of addr spot.place) }
    ensures slot { IfSome result (λ spot. spot.slot < length words.now) }
    ensures passed { IfSome result (λ spot. (past : ℕ) × (past < length words.now) × Passes words.now past (home_of addr (length words.now)) spot.slot) }
    ensures place { IfSome result (λ spot. place_of addr regions.now ≡ Some spot.place) }
    ensures within { IfSome result (λ spot. spot.place < length regions.now) }
    ensures none { IfNone result (place_of addr regions.now ≡ None) }
{
    let mut at = home_of(addr, words.len());
    for _past in 0..words.len() {
        let word = words[at];
        if word == EMPTY {
            return None;
        }
        if let Some(place) = place_in(word, regions, addr) {
            return Some(Spot { slot: at, place });
        }
        at = next_slot(at, words.len());
    }
    None
}

/// The first empty slot of the search for an address, or the first that leads to a region that is gone.
pub fn free_slot(words: &[u64], addr: u64) -> usize
    requires slots { length words.now < 2 ^ 32 }
    requires empty { filled_in words.now < length words.now }
    ensures slot { result < length words.now }
    ensures passed { (past : ℕ) × (past < length words.now) × Passes words.now past (home_of addr (length words.now)) result }
    ensures free { 18446744073709551614 ≤ word_at words.now result }
{
    let mut at = home_of(addr, words.len());
    for _past in 0..words.len() {
        if words[at] >= GONE {
            return at;
        }
        at = next_slot(at, words.len());
    }
    unreachable!()
}
