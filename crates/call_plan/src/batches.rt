//! What goes back of the regions that a client has: one batch for each arena.

ghost use Rattle.std.specs.Prelude.{◌≡◌, ◌<◌, ◌≤◌, [], ◌∷◌, false, fold, length, take, IfOk, IfSome, IsOk, OnOk};
ghost use Rattle.std.specs.List.{flat_map};
ghost use Rattle.std.specs.Option.{option_map};
ghost use Rattle.thread_cache.specs.Caches.{cached_in};
ghost use Rattle.call_plan.specs.Clients.{added, addrs_in, batch_facts, batch_of, cached_of, freed_hand, gave, going_with, is_cacheable, least_arena, lesser, older_count};

use crate::Desk;
use size_classes::{Addrs, CACHED_CLASSES, slots};
use std::alloc::{AllocError as NoMemory, Global};
use std::collections::BTreeSet;
use thread_cache::Held;

/// Regions of one arena that go back.
#[derive(Drop)]
pub struct Batch {
    /// The index of the arena.
    pub arena: u32,
    /// Their addresses, rising, each once.
    pub addrs: Addrs,
}

/// The least of an index, if there is one, and the indexes of the arenas of some regions.
fn least_of(found: Option<u32>, regions: &[Held]) -> Option<u32>
    ensures { result ≡ fold lesser found regions.now }
{
    let mut least = found;
    for region in regions {
        least = match least {
            Some(arena) => Some(arena.min(region.arena)),
            None => Some(region.arena),
        };
    }
    least
}

/// Adds the addresses of those regions that are of an arena.
fn add_of(addrs: &mut BTreeSet<u64>, regions: &[Held], arena: u32) -> Result<(), NoMemory>
    ensures { OnOk result (addrs.new.keys ≡ fold (added arena) addrs.old.keys regions.now) }
{
    for region in regions {
        if region.arena == arena {
            addrs.insert(region.addr)?;
        }
    }
    Ok(())
}

/// The addresses of a set as a list.
fn listed(alloc: Global, set: &BTreeSet<u64>) -> Result<Addrs, NoMemory>
    ensures { IfOk result (λ addrs. addrs.items ≡ set.now.keys) }
{
    let mut addrs = Addrs::new(alloc);
    addrs.reserve(set.len() as u64)?;
    for addr in set.iter() {
        addrs.push(*addr);
    }
    Ok(addrs)
}

/// The addresses of those regions that are of an arena.
fn addrs_in(alloc: Global, regions: &[Held], arena: u32) -> Result<Addrs, NoMemory>
    ensures { IfOk result (λ addrs. addrs.items ≡ addrs_in arena regions.now) }
{
    let mut set = BTreeSet::new(alloc);
    add_of(&mut set, regions, arena)?;
    listed(alloc, &set)
}

/// The address of one region alone, where it is of an arena. Takes no memory.
fn addr_in(alloc: Global, region: Held, arena: u32) -> Addrs
    ensures { result.items ≡ addrs_in arena (region ∷ []) }
{
    let mut addrs = Addrs::new(alloc);
    if region.arena == arena {
        addrs.push(region.addr);
    }
    addrs
}

impl Desk {
    /// How many regions of a class go back that was full.
    fn older_count(&self, class: u8) -> u32
        requires { class < 41 }
        ensures count { result ≡ older_count class self.now.facts }
        ensures within { result ≤ length (cached_in self.now.facts.cached class) }
    {
        let stay = slots(class) - slots(class) / 2;
        self.cache.len(class).saturating_sub(stay)
    }

    /// The least arena of which regions are cached.
    fn least_cached(&self) -> Option<u32>
        ensures { result ≡ least_arena (flat_map (λ list. list) self.now.facts.cached) }
    {
        let mut least = None;
        for class in 0..CACHED_CLASSES {
            least = least_of(least, self.cache.of_class(class));
        }
        least
    }

    /// The addresses of the cached regions of an arena.
    fn cached_in(&self, alloc: Global, arena: u32) -> Result<Addrs, NoMemory>
        ensures { IfOk result (λ addrs. addrs.items ≡ addrs_in arena (flat_map (λ list. list) self.now.facts.cached)) }
    {
        let mut set = BTreeSet::new(alloc);
        for class in 0..CACHED_CLASSES {
            add_of(&mut set, self.cache.of_class(class), arena)?;
        }
        listed(alloc, &set)
    }

    /// The regions of a class that go back where it was full: those that were cached first.
    fn older(&self, class: u8) -> &[Held]
        requires { class < 41 }
        ensures { result.now ≡ take (older_count class self.now.facts) (cached_in self.now.facts.cached class) }
    {
        let count = self.older_count(class) as usize;
        &self.cache.of_class(class)[..count]
    }

    /// The arena whose regions go back next: the least one of those that go for the region that is in hand then, if one is, or
    /// else of all cached ones, if these are to go. Takes no memory.
    pub fn next_arena(&self, hand: Option<Held>, all: bool) -> Option<u32>
        ensures { result ≡ least_arena (going_with hand all self.now.facts) }
    {
        match hand {
            Some(region) if self.is_cacheable(region.class) => {
                least_of(None, self.older(region.class))
            }
            Some(region) => Some(region.arena),
            None if all => self.least_cached(),
            None => None,
        }
    }

    /// The addresses of the regions of an arena that go back, for the region in hand or of all cached ones, rising, each once.
    /// Takes no memory for a region that isn't to be cached.
    pub fn addrs_going(
        &self,
        alloc: Global,
        hand: Option<Held>,
        all: bool,
        arena: u32,
    ) -> Result<Addrs, NoMemory>
        ensures addrs { IfOk result (λ addrs. addrs.items ≡ addrs_in arena (going_with hand all self.now.facts)) }
        ensures one { IfSome hand (λ region. is_cacheable region.class self.now.facts ≡ false → IsOk result) }
    {
        match hand {
            Some(region) if self.is_cacheable(region.class) => {
                addrs_in(alloc, self.older(region.class), arena)
            }
            Some(region) => Ok(addr_in(alloc, region, arena)),
            None if all => self.cached_in(alloc, arena),
            None => Ok(Addrs::new(alloc)),
        }
    }

    /// The next batch that goes back: for the region that is in hand then, if one is, or else of all cached ones, if these
    /// are to go. Takes no memory where nothing goes, or a region that isn't to be cached.
    pub fn batch(
        &self,
        alloc: Global,
        hand: Option<Held>,
        all: bool,
    ) -> Result<Option<Batch>, NoMemory>
        ensures batch { IfOk result (λ batch. option_map batch_facts batch ≡ batch_of (going_with hand all self.now.facts)) }
        ensures nothing { going_with hand all self.now.facts ≡ [] → IsOk result }
        ensures one { IfSome hand (λ region. is_cacheable region.class self.now.facts ≡ false → IsOk result) }
    {
        let Some(arena) = self.next_arena(hand, all) else {
            return Ok(None);
        };
        let addrs = self.addrs_going(alloc, hand, all, arena)?;
        Ok(Some(Batch { arena, addrs }))
    }

    /// The batch that goes back first where a region is freed while nothing is in hand. Takes no memory where it is cached at once,
    /// or isn't to be cached.
    pub fn batch_for(&self, alloc: Global, region: Held) -> Result<Option<Batch>, NoMemory>
        ensures { IfOk result (λ batch. option_map batch_facts batch ≡ batch_of (going_with (freed_hand region self.now.facts) false self.now.facts)) }
    {
        self.batch(alloc, self.freed_hand(region), false)
    }

    /// The batch of an arena went back: its regions are cached no more, or the one in hand is there no more.
    pub fn gave(&mut self, arena: u32)
        ensures facts { self.new.facts ≡ gave arena self.old.facts }
        ensures room { self.new.room ≡ self.old.room }
    {
        match self.hand {
            Some(region) if self.is_cacheable(region.class) => {
                let count = self.older_count(region.class);
                self.cache.drop_first_of(region.class, count, arena);
            }
            Some(_) => self.let_go(),
            None => self.cache.drop_of(arena),
        }
    }

    /// How many regions of an arena are cached, in its own cache or in explicit ones.
    pub fn cached_of(&self, arena: u32) -> u64
        ensures { result ≡ cached_of arena self.now.facts }
    {
        self.cache.count_of(arena) + self.explicit_of(arena)
    }
}
