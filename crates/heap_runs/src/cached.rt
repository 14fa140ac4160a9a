//! What a client does by its desk alone: no turn is taken, no hook is asked, and nobody is waited for.
ghost use Rattle.std.specs.Prelude.{◌≡◌, IfOk, OnErr};
ghost use Rattle.atomic_table.specs.Seated.{TableId};
ghost use Rattle.heap_runs.specs.Cached.{FreesAtOnce, GivesAtOnce, IsFree, StaysPut};
ghost use Rattle.heap_runs.specs.Heaps.{MayCall};
ghost use Rattle.heap_runs.specs.declared.heaps.SharedHeap.{SharedHeap};

use crate::heaps::Ctx;
use size_classes::{CACHED_CLASSES, class_of};
use std::alloc::AllocError as NoMemory;

/// What came of a free that takes no turn.
#[derive(Clone, Copy, Debug, PartialEq, Eq)]
pub enum CachedFree {
    /// The region is cached.
    Kept,
    /// The slots of its class are used: the client holds the region still.
    Full,
    /// The cache is off, or its class has no slots: the client holds the region still.
    Off,
    /// The client holds no region at the address.
    NotHeld,
}

impl Ctx {
    /// A region of at least so many bytes that the client has cached, at its address, as `malloc` would give it at once. `None` is
    /// exactly where the client's cache is off, no class below 41 serves the size, or it has cached no region of the class.
    ///
    /// Takes memory only for the place of the region among those that the client holds, and nothing changes where there is none.
    pub fn malloc_cached(&mut self, size: u64) -> Result<Option<u64>, NoMemory>
        requires free { IsFree self.old }
        ensures put { StaysPut self.old self.new }
        ensures gives { IfOk result (λ addr. GivesAtOnce size addr self.old self.new) }
        ensures err { OnErr result (self.new.desk.facts ≡ self.old.desk.facts) }
        ensures may { (shelf : TableId) (heap : SharedHeap) → MayCall shelf heap self.old → MayCall shelf heap self.new }
    {
        let Ok(class) = class_of(size) else {
            return Ok(None);
        };
        self.desk.reserve()?;
        let Some(region) = self.desk.take_hit(class) else {
            return Ok(None);
        };
        self.desk.hold(region);
        Ok(Some(region.addr))
    }

    /// The client caches a region that it holds at an address, if it can.
    fn cache_held(&mut self, addr: u64) -> CachedFree
        requires free { IsFree self.old }
        ensures put { StaysPut self.old self.new }
        ensures frees { FreesAtOnce addr result self.old self.new }
    {
        let Some(region) = self.desk.held_at(addr) else {
            return CachedFree::NotHeld;
        };
        if !self.desk.caches() || region.class >= CACHED_CLASSES {
            return CachedFree::Off;
        }
        if self.desk.hand_for(region).is_some() {
            return CachedFree::Full;
        }
        self.desk.lose(addr);
        self.desk.free(region);
        CachedFree::Kept
    }

    /// The client caches a region that it holds at an address, where there is a slot left, as `free` would at once. Else nothing
    /// changes. Takes no memory.
    pub fn free_cached(&mut self, addr: u64) -> CachedFree
        requires free { IsFree self.old }
        ensures put { StaysPut self.old self.new }
        ensures frees { FreesAtOnce addr result self.old self.new }
        ensures may { (shelf : TableId) (heap : SharedHeap) → MayCall shelf heap self.old → MayCall shelf heap self.new }
    {
        self.cache_held(addr)
    }
}
