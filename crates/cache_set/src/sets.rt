//! The caches by identifier.

ghost use Rattle.std.specs.Prelude.{◌≡◌, ◌*◌, ◌≤◌, [], Some, None, count_by, slice_set, IfOk, OnOk, OnErr, IfSome, IfNone, IsSomeAnd, true};
ghost use Rattle.std.specs.List.{position};
ghost use Rattle.std.specs.Option.{is_none, option_map};
ghost use Rattle.thread_cache.specs.Caches.{is_empty, is_in_arena};
ghost use Rattle.cache_set.specs.Sets.{cache_at, cached_at, explicit, free_slot, made};

use std::alloc::{AllocError as NoMemory, Global};
use std::marker::Model;
use std::mem;
use thread_cache::Cache;

/// How many explicit caches a client may have: their identifiers are 0 to 7.
pub const MOST_CACHES: u32 = 8;

/// The explicit caches of a client, by identifier. Contracts see a place for each identifier that was ever given, with the
/// regions of its cache by class, or nothing.
///
/// Only `make` takes memory.
#[derive(Drop)]
pub struct CacheSet {
    caches: Vec<Option<Cache>>,
}

impl Model for CacheSet {
    ghost use Rattle.std.specs.Prelude.{List, length, ◌≤◌};
    ghost use Rattle.cache_set.specs.Sets.{Place};

    ghost Value = { List Place };

    ghost view = { λ s. s.caches.items };

    ghost invariant = { λ s. length s.caches.items ≤ 8 };
}

/// The first place without a cache.
fn free_place(caches: &[Option<Cache>]) -> Option<usize>
    ensures { result ≡ position is_none caches.now }
{
    caches.iter().position(|cache| cache.is_none())
}

/// The cache of a place and another one take each other's places, where it has one.
fn swap_in(place: &mut Option<Cache>, cache: &mut Cache)
    ensures some { IfSome place.old (λ there. (place.new ≡ Some cache.old) × (cache.new ≡ there)) }
    ensures none { IfNone place.old ((place.new ≡ None) × (cache.new ≡ cache.old)) }
{
    if let Some(there) = place {
        mem::swap(there, cache);
    }
}

/// How many regions of an arena a place has.
fn count_at(place: &Option<Cache>, arena: u32) -> u64
    ensures count { result ≡ count_by (is_in_arena arena) (cached_at place.now) }
    ensures within { result ≤ 41 * 200 }
{
    match place {
        Some(cache) => cache.count_of(arena),
        None => 0,
    }
}

impl CacheSet {
    /// No cache. Takes no memory.
    pub fn new(alloc: Global) -> CacheSet
        ensures { result ≡ [] }
    {
        CacheSet {
            caches: Vec::new(alloc),
        }
    }

    /// Makes an empty cache and gives its identifier: the least that no cache has. `None` exactly where eight are in use. Where
    /// memory is wanting nothing changes.
    pub fn make(&mut self, alloc: Global) -> Result<Option<u32>, NoMemory>
        ensures slot { IfOk result (λ slot. slot ≡ free_slot self.old) }
        ensures made { OnOk result (self.new ≡ made self.old) }
        ensures err { OnErr result (self.new ≡ self.old) }
    {
        if let Some(slot) = free_place(self.caches.as_slice()) {
            self.caches[slot] = Some(Cache::new(alloc)?);
            return Ok(Some(slot as u32));
        }
        if self.caches.len() < MOST_CACHES as usize {
            let slot = self.caches.len() as u32;
            self.caches.push(Some(Cache::new(alloc)?))?;
            return Ok(Some(slot));
        }
        Ok(None)
    }

    /// The cache with the identifier. `None` exactly where there is none.
    pub fn get(&self, slot: u32) -> Option<&Cache>
        ensures { option_map (λ cache. cache.now) result ≡ cache_at slot self.now }
    {
        match self.caches.get(slot as usize) {
            Some(Some(cache)) => Some(cache),
            _ => None,
        }
    }

    /// The cache with the identifier and another one take each other's places. Nothing changes where there is no such cache.
    pub fn exchange(&mut self, slot: u32, cache: &mut Cache)
        ensures some { IfSome (cache_at slot self.old) (λ there. (self.new ≡ slice_set self.old slot (Some cache.old)) × (cache.new ≡ there)) }
        ensures none { IfNone (cache_at slot self.old) ((self.new ≡ self.old) × (cache.new ≡ cache.old)) }
    {
        let slot = slot as usize;
        if slot < self.caches.len() {
            swap_in(&mut self.caches[slot], cache);
        }
    }

    /// The cache with the identifier, which is there and empty, goes: the identifier is free.
    pub fn end(&mut self, slot: u32)
        requires { IsSomeAnd (cache_at slot self.old) (λ cache. is_empty cache ≡ true) }
        ensures { self.new ≡ slice_set self.old slot None }
    {
        self.caches[slot as usize] = None;
    }

    /// How many regions of an arena all of them have.
    pub fn count(&self, arena: u32) -> u64
        ensures count { result ≡ count_by (is_in_arena arena) (explicit self.now) }
        ensures within { result ≤ 8 * 41 * 200 }
    {
        let mut count = 0;
        for place in &self.caches {
            count += count_at(place, arena);
        }
        count
    }
}
