//! The cached regions of one class.

ghost use Rattle.std.specs.Prelude.{◌≡◌, ℕ, ◌+◌, ◌/◌, ◌<◌, ◌≤◌, [], ◌∷◌, ◌++◌, filter, length, map, take, true, IfOk, IfSome, IfNone, Some, None, slice_get};
ghost use Rattle.std.specs.List.{list_any, position};
ghost use Rattle.size_classes.specs.Classes.{slots_at};
ghost use Rattle.thread_cache.specs.Caches.{addrs_of, gone_from, is_at, is_elsewhere, put_in, told_in, without};

use crate::Held;
use size_classes::{Addrs, slots};
use std::alloc::{AllocError as NoMemory, Global};
use std::marker::Model;

/// What became of a region that was put into a cache.
#[derive(Clone, Copy, Debug, PartialEq, Eq)]
pub enum Put {
    /// It is cached.
    Kept,
    /// The slots of its class are all used, and it is not.
    Full(Held),
}

/// The regions of one class in a cache. The last one put is the first to be taken.
#[derive(Drop)]
pub(crate) struct Stack {
    class: u8,
    regions: Vec<Held>,
}

impl Model for Stack {
    ghost use Rattle.thread_cache.specs.Caches.{Listed, shown, IsStack};

    ghost Value = { Listed };

    ghost view = { λ s. shown s.class s.regions.items };

    ghost invariant = { λ s. IsStack s };
}

impl Stack {
    /// No region of the class, and room for as many as it has slots.
    pub(crate) fn new(alloc: Global, class: u8) -> Result<Stack, NoMemory>
        requires { class < 41 }
        ensures { IfOk result (λ stack. stack ≡ record { class = class; regions = [] }) }
    {
        Ok(Stack {
            class,
            regions: Vec::with_capacity(alloc, slots(class) as usize)?,
        })
    }

    /// How many there are, at most the slots of the class.
    pub(crate) fn len(&self) -> u32
        ensures len { result ≡ length self.now.regions }
        ensures within { length self.now.regions ≤ slots_at self.now.class }
    {
        self.regions.len() as u32
    }

    /// Takes the region put last.
    pub(crate) fn pop(&mut self) -> Option<Held>
        ensures class { self.new.class ≡ self.old.class }
        ensures some { IfSome result (λ held. self.old.regions ≡ self.new.regions ++ held ∷ []) }
        ensures none { IfNone result ((self.old.regions ≡ []) × (self.new.regions ≡ [])) }
    {
        self.regions.pop()
    }

    /// Puts a region of the class last, where a slot is left.
    pub(crate) fn push(&mut self, held: Held) -> Put
        ensures class { self.new.class ≡ self.old.class }
        ensures regions { self.new.regions ≡ put_in self.old.class held self.old.regions }
        ensures told { result ≡ told_in self.old.class held self.old.regions }
    {
        if self.regions.len() < slots(self.class) as usize {
            self.regions.push_reserved(held);
            Put::Kept
        } else {
            Put::Full(held)
        }
    }

    /// Appends the addresses of the older half of the slots.
    pub(crate) fn older_half(&self, out: &mut Addrs)
        requires half { slots_at self.now.class / 2 ≤ length self.now.regions }
        requires room { slots_at self.now.class / 2 ≤ out.old.room }
        ensures { out.new.items ≡ out.old.items ++ take (slots_at self.now.class / 2) (addrs_of self.now.regions) }
    {
        let half = slots(self.class) as usize / 2;
        for i in 0..half {
            out.push(self.regions[i].addr);
        }
    }

    /// Whether a region begins at the address.
    pub(crate) fn has(&self, addr: u64) -> bool
        ensures { result ≡ list_any (is_at addr) self.now.regions }
    {
        self.regions.iter().any(|held| held.addr == addr)
    }

    /// The place of the first region that begins at the address.
    fn place_of(&self, addr: u64) -> Option<usize>
        ensures { result ≡ position (is_at addr) self.now.regions }
    {
        self.regions.iter().position(|held| held.addr == addr)
    }

    /// Takes the first region that begins at the address out.
    pub(crate) fn drop_at(&mut self, addr: u64)
        requires { list_any (is_at addr) self.old.regions ≡ true }
        ensures class { self.new.class ≡ self.old.class }
        ensures regions { self.new.regions ≡ without addr self.old.regions }
    {
        let place = self.place_of(addr).unwrap();
        self.regions.remove(place);
    }

    /// The regions, in the order in which they were put.
    pub(crate) fn as_slice(&self) -> &[Held]
        ensures regions { result.now ≡ self.now.regions }
        ensures within { length result.now ≤ 200 }
    {
        self.regions.as_slice()
    }

    /// Takes the regions of an arena out.
    pub(crate) fn drop_of(&mut self, arena: u32)
        ensures class { self.new.class ≡ self.old.class }
        ensures regions { self.new.regions ≡ filter (is_elsewhere arena) self.old.regions }
    {
        self.regions.retain(|held| held.arena != arena);
    }

    /// Of so many regions that were put first, takes those of an arena out.
    pub(crate) fn drop_first_of(&mut self, count: usize, arena: u32)
        requires { count ≤ length self.old.regions }
        ensures class { self.new.class ≡ self.old.class }
        ensures regions { self.new.regions ≡ gone_from arena count self.old.regions }
    {
        for place in (0..count).rev() {
            if self.regions[place].arena == arena {
                self.regions.remove(place);
            }
        }
    }

    /// The region at a place, counted from 0 at the one put first.
    pub(crate) fn at(&self, place: u32) -> Option<Held>
        ensures { result ≡ slice_get self.now.regions place }
    {
        self.regions.get(place as usize).copied()
    }
}
