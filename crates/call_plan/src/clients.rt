//! What a client has: its cache, the regions that it holds, and the one in hand.

ghost use Rattle.std.specs.Prelude.{◌≡◌, ◌+◌, ◌&&◌, ◌<◌, ◌≤◌, [], Option, None, Some, false, true, replicate, IfOk, OnOk, OnErr, IfSome, IfNone, count_by, is_some, ◌*◌, if◌then◌else◌};
ghost use Rattle.std.specs.Option.{option_map};
ghost use Rattle.cache_set.specs.Sets.{explicit, free_slot};
ghost use Rattle.thread_cache.specs.Caches.{is_in_arena};
ghost use Rattle.call_plan.specs.Clients.{caching, has_cache, swapped_back, swapping, with_new_cache, discarding, empty_handed, freed_hand, freeing, gain_held, gaining, has_slot, held_again, held_at, hit, hitting, holding, is_cacheable, kept, not_holding, reclassing, resizing};

use cache_set::CacheSet;
use region_table::RegionTable;
use size_classes::{CACHED_CLASSES, slots};
use std::alloc::{AllocError as NoMemory, Global};
use std::marker::Model;
use thread_cache::{Cache, Held};

/// A swap of a client's own cache with an explicit one, which a call uses as its cache.
#[derive(Clone, Copy)]
pub struct Swapped {
    /// The identifier of the explicit cache.
    pub slot: u32,
    /// Whether the own cache is on.
    pub caches: bool,
    /// Whether the explicit cache goes once all is done.
    pub ends: bool,
}

/// What one client has: the arena from which it allocates, its cache and whether that is on, the regions that it holds,
/// the one that its call has in hand, which is neither held nor cached while it is given away or resized, and the one that the
/// call has gained in its place, which is held once the call has ended, and its explicit caches, of which one may be swapped
/// with its own cache for the time of a call. Contracts see all that as `facts`, and for how many more
/// held regions there is room as `room`.
///
/// A held region is found by its address. Only `new`, `reserve`, `addrs_going` and `batch` take memory.
#[derive(Drop)]
pub struct Desk {
    arena: u32,
    caches: bool,
    pub(crate) cache: Cache,
    held: RegionTable,
    pub(crate) hand: Option<Held>,
    gained: Option<Held>,
    set: CacheSet,
    swapped: Option<Swapped>,
}

impl Model for Desk {
    ghost use Rattle.call_plan.specs.Clients.{DeskSeen};

    ghost Value = { DeskSeen };

    ghost view = { λ d. record {
      facts = record {
        arena = d.arena;
        caches = d.caches;
        cached = d.cache;
        held = d.held.held;
        hand = d.hand;
        gained = d.gained;
        set = d.set;
        swapped = d.swapped;
      };
      room = d.held.room;
    } };
}

impl Desk {
    /// A client that allocates from arena 0, has its cache off, and has no region.
    pub fn new(alloc: Global) -> Result<Desk, NoMemory>
        ensures { IfOk result (λ desk. desk.facts ≡ record { arena = 0; caches = false; cached = replicate 41 []; held = []; hand = None; gained = None; set = []; swapped = None }) }
    {
        Ok(Desk {
            arena: 0,
            caches: false,
            cache: Cache::new(alloc)?,
            held: RegionTable::new(alloc),
            hand: None,
            gained: None,
            set: CacheSet::new(alloc),
            swapped: None,
        })
    }

    /// The arena from which it allocates.
    pub fn arena(&self) -> u32
        ensures { result ≡ self.now.facts.arena }
    {
        self.arena
    }

    /// Whether its cache is on.
    pub fn caches(&self) -> bool
        ensures { result ≡ self.now.facts.caches }
    {
        self.caches
    }

    /// The region in hand, if one is.
    pub fn hand(&self) -> Option<Held>
        ensures { result ≡ self.now.facts.hand }
    {
        self.hand
    }

    /// The region gained, if one is.
    pub fn gained(&self) -> Option<Held>
        ensures { result ≡ self.now.facts.gained }
    {
        self.gained
    }

    /// The region that it holds at an address.
    #[inline(always)]
    pub fn held_at(&self, addr: u64) -> Option<Held>
        ensures { result ≡ held_at addr self.now.facts }
    {
        self.held.get(addr)
    }

    /// Makes room for two more held regions.
    pub fn reserve(&mut self) -> Result<(), NoMemory>
        ensures facts { self.new.facts ≡ self.old.facts }
        ensures ok { OnOk result (2 ≤ self.new.room) }
    {
        self.held.reserve()
    }

    /// It allocates from an arena from now on.
    pub fn bind(&mut self, arena: u32)
        ensures facts { self.new.facts ≡ record self.old.facts { arena = arena } }
        ensures room { self.new.room ≡ self.old.room }
    {
        self.arena = arena;
    }

    /// Its cache is on or off from now on.
    pub fn switch(&mut self, on: bool)
        ensures facts { self.new.facts ≡ record self.old.facts { caches = on } }
        ensures room { self.new.room ≡ self.old.room }
    {
        self.caches = on;
    }

    /// It holds a region from now on.
    #[inline(always)]
    pub fn hold(&mut self, region: Held)
        requires { 1 ≤ self.old.room }
        ensures facts { self.new.facts ≡ holding region self.old.facts }
        ensures room { self.old.room ≤ self.new.room + 1 }
    {
        self.held.put(region);
    }

    /// It holds no region at the address any more.
    #[inline(always)]
    pub fn lose(&mut self, addr: u64)
        ensures facts { self.new.facts ≡ not_holding addr self.old.facts }
        ensures room { self.old.room ≤ self.new.room }
    {
        self.held.remove(addr);
    }

    /// It holds no region of an arena any more.
    pub fn discard(&mut self, arena: u32)
        ensures facts { self.new.facts ≡ discarding arena self.old.facts }
        ensures room { self.old.room ≤ self.new.room }
    {
        self.held.discard(arena);
    }

    /// A region is in hand from now on.
    pub fn take(&mut self, region: Held)
        ensures facts { self.new.facts ≡ record self.old.facts { hand = Some region } }
        ensures room { self.new.room ≡ self.old.room }
    {
        self.hand = Some(region);
    }

    /// Nothing is in hand any more.
    pub fn let_go(&mut self)
        ensures facts { self.new.facts ≡ empty_handed self.old.facts }
        ensures room { self.new.room ≡ self.old.room }
    {
        self.hand = None;
    }
}

impl Desk {
    /// Whether regions of the class are cached.
    pub(crate) fn is_cacheable(&self, class: u8) -> bool
        ensures { result ≡ is_cacheable class self.now.facts }
    {
        self.caches && class < CACHED_CLASSES
    }

    /// A region is cached, as the last of its class, where that has a slot left.
    pub fn cache(&mut self, region: Held)
        ensures facts { self.new.facts ≡ caching region self.old.facts }
        ensures room { self.new.room ≡ self.old.room }
    {
        if region.class < CACHED_CLASSES {
            let _put = self.cache.put_cached(region);
        }
    }

    /// Whether an explicit cache is in the place of its own one.
    #[inline(always)]
    pub(crate) fn is_swapped(&self) -> bool
        ensures { result ≡ is_some self.now.facts.swapped }
    {
        self.swapped.is_some()
    }

    /// Whether a region that is freed is cached at once.
    #[inline(always)]
    pub(crate) fn is_cached_at_once(&self, region: Held) -> bool
        ensures { result ≡ (is_cacheable region.class self.now.facts && has_slot region.class self.now.facts) }
    {
        self.is_cacheable(region.class) && self.cache.len(region.class) < slots(region.class)
    }

    /// What is in hand once a region is freed: the region, unless it is cached at once.
    pub fn hand_for(&self, region: Held) -> Option<Held>
        ensures { result ≡ (freeing region self.now.facts).hand }
    {
        if self.is_cached_at_once(region) {
            self.hand
        } else {
            Some(region)
        }
    }

    /// What is in hand once a region is freed where nothing was: the region, unless it is cached at once.
    pub(crate) fn freed_hand(&self, region: Held) -> Option<Held>
        ensures { result ≡ freed_hand region self.now.facts }
    {
        if self.is_cached_at_once(region) {
            None
        } else {
            Some(region)
        }
    }

    /// A region is freed: it is cached at once, or in hand until it went back or has a slot.
    pub fn free(&mut self, region: Held)
        ensures facts { self.new.facts ≡ freeing region self.old.facts }
        ensures room { self.new.room ≡ self.old.room }
    {
        if self.is_cached_at_once(region) {
            self.cache(region);
        } else {
            self.take(region);
        }
    }

    /// Whether a region of the class is cached that may be taken.
    #[inline(always)]
    pub fn has_hit(&self, class: u8) -> bool
        ensures { result ≡ is_some (hit class self.now.facts) }
    {
        self.is_cacheable(class) && self.cache.len(class) > 0
    }

    /// Takes the region of the class that was cached last, if regions of the class are cached.
    #[inline(always)]
    pub fn take_hit(&mut self, class: u8) -> Option<Held>
        ensures hit { result ≡ hit class self.old.facts }
        ensures some { IfSome result (λ _. self.new.facts ≡ hitting class self.old.facts) }
        ensures none { IfNone result (self.new.facts ≡ self.old.facts) }
        ensures room { self.new.room ≡ self.old.room }
    {
        if self.is_cacheable(class) {
            self.cache.take_cached(class)
        } else {
            None
        }
    }

    /// Where a region is in hand, it is cached.
    pub fn keep_hand(&mut self)
        ensures facts { self.new.facts ≡ kept self.old.facts }
        ensures room { self.new.room ≡ self.old.room }
    {
        if let Some(region) = self.hand {
            self.cache(region);
            self.let_go();
        }
    }

    /// Where a region is in hand, it is held again.
    pub fn hold_hand(&mut self)
        requires { 1 ≤ self.old.room }
        ensures facts { self.new.facts ≡ held_again self.old.facts }
        ensures room { self.old.room ≤ self.new.room + 1 }
    {
        if let Some(region) = self.hand {
            self.hold(region);
            self.let_go();
        }
    }
}

impl Desk {
    /// The region that it holds at an address is in hand instead, and none is gained.
    pub fn resize(&mut self, addr: u64, region: Held)
        ensures facts { self.new.facts ≡ resizing addr region self.old.facts }
        ensures room { self.old.room ≤ self.new.room }
    {
        self.lose(addr);
        self.take(region);
        self.gained = None;
    }

    /// A region is gained, and the one in hand, if one is, is freed.
    pub fn gain(&mut self, region: Held)
        ensures facts { self.new.facts ≡ gaining region self.old.facts }
        ensures room { self.new.room ≡ self.old.room }
    {
        self.gained = Some(region);
        if let Some(old) = self.hand {
            self.let_go();
            self.free(old);
        }
    }

    /// The region in hand, if one is, is gained with this class.
    pub fn reclass(&mut self, class: u8)
        ensures facts { self.new.facts ≡ reclassing class self.old.facts }
        ensures room { self.new.room ≡ self.old.room }
    {
        if let Some(region) = self.hand {
            self.let_go();
            self.gained = Some(Held { class, ..region });
        }
    }

    /// The region gained, if one is, is held.
    pub fn hold_gained(&mut self)
        requires { is_some self.old.facts.gained ≡ true → 1 ≤ self.old.room }
        ensures facts { self.new.facts ≡ gain_held self.old.facts }
        ensures room { self.old.room ≤ self.new.room + 1 }
        ensures none { self.old.facts.gained ≡ None → self.new.room ≡ self.old.room }
    {
        if let Some(region) = self.gained {
            self.hold(region);
            self.gained = None;
        }
    }
}

impl Desk {
    /// Makes one more explicit cache, and gives its identifier. `None` exactly where the client has eight. Where memory is wanting
    /// nothing changes.
    pub fn make_cache(&mut self, alloc: Global) -> Result<Option<u32>, NoMemory>
        ensures slot { IfOk result (λ slot. slot ≡ free_slot self.old.facts.set) }
        ensures facts { OnOk result (self.new.facts ≡ with_new_cache self.old.facts) }
        ensures room { self.new.room ≡ self.old.room }
        ensures err { OnErr result (self.new.facts ≡ self.old.facts) }
    {
        self.set.make(alloc)
    }

    /// How many regions of an arena its explicit caches have.
    pub(crate) fn explicit_of(&self, arena: u32) -> u64
        ensures count { result ≡ count_by (is_in_arena arena) (explicit self.now.facts.set) }
        ensures within { result ≤ 8 * 41 * 200 }
    {
        self.set.count(arena)
    }

    /// Whether it has an explicit cache with the identifier, and none is swapped with its own one.
    fn has_cache(&self, slot: u32) -> bool
        ensures { result ≡ has_cache slot self.now.facts }
    {
        self.swapped.is_none() && self.set.get(slot).is_some()
    }

    /// Swaps the explicit cache with the identifier with its own one, and tells whether it could: the explicit one is there, and
    /// none is swapped. It goes at the end, if that is told.
    pub fn swap(&mut self, slot: u32, ends: bool) -> bool
        ensures told { result ≡ has_cache slot self.old.facts }
        ensures facts { self.new.facts ≡ (if has_cache slot self.old.facts then swapping slot ends self.old.facts else self.old.facts) }
        ensures room { self.new.room ≡ self.old.room }
    {
        if !self.has_cache(slot) {
            return false;
        }
        self.set.exchange(slot, &mut self.cache);
        let caches = self.caches;
        self.swapped = Some(Swapped { slot, caches, ends });
        self.caches = true;
        true
    }

    /// Takes a swap back, if there is one. An explicit cache that was to go does, where all is done and it is empty.
    #[tactic(auto, using(crate::proofs::Swaps::swaps_twice))]
    pub fn swap_back(&mut self, done: bool)
        ensures facts { self.new.facts ≡ swapped_back done self.old.facts }
        ensures room { self.new.room ≡ self.old.room }
    {
        let Some(swapped) = self.swapped else {
            return;
        };
        self.swapped = None;
        self.caches = swapped.caches;
        let goes = swapped.ends && done && self.cache.is_empty();
        if self.set.get(swapped.slot).is_some() {
            self.set.exchange(swapped.slot, &mut self.cache);
            if goes {
                self.set.end(swapped.slot);
            }
        }
    }
}
