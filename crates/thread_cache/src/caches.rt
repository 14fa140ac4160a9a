//! A client's cache: the cached regions of each class.

ghost use Rattle.std.specs.Prelude.{◌≡◌, ℕ, ◌*◌, ◌/◌, ◌<◌, ◌≤◌, [], ◌∷◌, ◌++◌, count_by, filter, length, map, nat_lt, take, slice_get, slice_set, true, IfOk, IfSome, IfNone};
ghost use Rattle.std.specs.List.{list_any, position};
ghost use Rattle.size_classes.specs.Classes.{slots_at};
ghost use Rattle.thread_cache.specs.Caches.{Listed, addrs_of, all_cached, cached_in, dropped, gone_from, has_at, is_cached, is_elsewhere, is_empty, is_in_arena, no_regions, put_in, told_in};

use crate::Held;
use crate::stacks::{Put, Stack};
use size_classes::{Addrs, CACHED_CLASSES};
use std::alloc::{AllocError as NoMemory, Global};
use std::marker::Model;

/// The regions that a client has freed and may hand out again (`thread_cache` in the manual's words, TCACHE): one list
/// for each class below 41. Contracts see the lists by class, each in the order in which its regions were put.
///
/// Only `new` takes memory, and no call waits.
#[derive(Drop)]
pub struct Cache {
    stacks: Vec<Stack>,
}

impl Model for Cache {
    ghost use Rattle.std.specs.Prelude.{List};
    ghost use Rattle.thread_cache.specs.declared.Held.{Held};
    ghost use Rattle.thread_cache.specs.Caches.{regions_of, IsByClass};

    ghost Value = { List (List Held) };

    ghost view = { λ c. regions_of c.stacks.items };

    ghost invariant = { λ c. IsByClass c.stacks.items };
}

/// The least class of which a region at the address is cached.
fn class_of(stacks: &[Stack], addr: u64) -> Option<usize>
    ensures { result ≡ position (λ (stack : Listed). has_at addr stack.regions) stacks.now }
{
    stacks.iter().position(|stack| stack.has(addr))
}

/// Whether a region of any class is cached.
fn has_any(stacks: &[Stack]) -> bool
    ensures { result ≡ list_any (λ (stack : Listed). nat_lt 0 (length stack.regions)) stacks.now }
{
    stacks.iter().any(|stack| stack.len() > 0)
}

/// How many of some regions are of an arena.
fn count_of(regions: &[Held], arena: u32) -> u64
    ensures count { result ≡ count_by (is_in_arena arena) regions.now }
    ensures within { result ≤ length regions.now }
{
    let mut count = 0;
    for region in regions {
        if region.arena == arena {
            count += 1;
        }
    }
    count
}

impl Cache {
    /// An empty cache, with room for all its slots.
    pub fn new(alloc: Global) -> Result<Cache, NoMemory>
        ensures { IfOk result (λ cache. cache ≡ no_regions) }
    {
        let mut stacks = Vec::with_capacity(alloc, CACHED_CLASSES as usize)?;
        for class in 0..CACHED_CLASSES {
            stacks.push_reserved(Stack::new(alloc, class)?);
        }
        Ok(Cache { stacks })
    }

    /// Takes the region of the class that was put last. `None` exactly where none is cached, and the cache stays then.
    pub fn take_cached(&mut self, class: u8) -> Option<Held>
        requires { class < 41 }
        ensures some { IfSome result (λ held. cached_in self.old class ≡ cached_in self.new class ++ held ∷ []) }
        ensures none { IfNone result ((cached_in self.old class ≡ []) × (self.new ≡ self.old)) }
        ensures others { self.new ≡ slice_set self.old class (cached_in self.new class) }
    {
        self.stacks[class as usize].pop()
    }

    /// Puts a region last among those of its class. It is `Full` exactly where the slots of the class are used, and the
    /// cache stays as it is then.
    pub fn put_cached(&mut self, held: Held) -> Put
        requires { held.class < 41 }
        ensures told { result ≡ told_in held.class held (cached_in self.old held.class) }
        ensures lists { self.new ≡ slice_set self.old held.class (put_in held.class held (cached_in self.old held.class)) }
    {
        self.stacks[held.class as usize].push(held)
    }

    /// Appends the addresses of the half of the class's slots that were put first. There has to be room for them.
    pub fn older_half(&self, class: u8, out: &mut Addrs)
        requires class { class < 41 }
        requires half { slots_at class / 2 ≤ length (cached_in self.now class) }
        requires room { slots_at class / 2 ≤ out.old.room }
        ensures { out.new.items ≡ out.old.items ++ take (slots_at class / 2) (addrs_of (cached_in self.now class)) }
    {
        self.stacks[class as usize].older_half(out);
    }

    /// Takes the region at the address, which has to be cached, out of its list.
    pub fn drop_cached(&mut self, addr: u64)
        requires { is_cached addr self.old ≡ true }
        ensures { self.new ≡ dropped addr self.old }
    {
        let class = class_of(self.stacks.as_slice(), addr).unwrap();
        self.stacks[class].drop_at(addr);
    }

    /// The regions of the class, in the order in which they were put.
    pub fn of_class(&self, class: u8) -> &[Held]
        requires { class < 41 }
        ensures list { result.now ≡ cached_in self.now class }
        ensures within { length result.now ≤ 200 }
        ensures classes { length self.now ≡ 41 }
    {
        self.stacks[class as usize].as_slice()
    }

    /// Takes all regions of an arena out.
    pub fn drop_of(&mut self, arena: u32)
        ensures { self.new ≡ map (filter (is_elsewhere arena)) self.old }
    {
        for class in 0..CACHED_CLASSES {
            self.stacks[class as usize].drop_of(arena);
        }
    }

    /// Of so many regions of the class that were put first, takes those of an arena out.
    pub fn drop_first_of(&mut self, class: u8, count: u32, arena: u32)
        requires class { class < 41 }
        requires within { count ≤ length (cached_in self.old class) }
        ensures { self.new ≡ slice_set self.old class (gone_from arena count (cached_in self.old class)) }
    {
        self.stacks[class as usize].drop_first_of(count as usize, arena);
    }

    /// How many regions of an arena are cached, of whatever class.
    pub fn count_of(&self, arena: u32) -> u64
        ensures count { result ≡ count_by (is_in_arena arena) (all_cached self.now) }
        ensures within { result ≤ 41 * 200 }
    {
        let mut count = 0;
        for class in 0..CACHED_CLASSES {
            count += count_of(self.of_class(class), arena);
        }
        count
    }

    /// Whether no region is cached.
    pub fn is_empty(&self) -> bool
        ensures { result ≡ is_empty self.now }
    {
        !has_any(self.stacks.as_slice())
    }

    /// How many regions of the class are cached, at most its slots.
    pub fn len(&self, class: u8) -> u32
        requires { class < 41 }
        ensures len { result ≡ length (cached_in self.now class) }
        ensures within { result ≤ slots_at class }
    {
        self.stacks[class as usize].len()
    }

    /// The region at a place of the class's list, counted from 0 at the one put first. `None` exactly where the place isn't
    /// below the list's length.
    pub fn cached(&self, class: u8, place: u32) -> Option<Held>
        requires { class < 41 }
        ensures place { result ≡ slice_get (cached_in self.now class) place }
        ensures cached { IfSome result (λ held. is_cached held.addr self.now ≡ true) }
    {
        self.stacks[class as usize].at(place)
    }
}
