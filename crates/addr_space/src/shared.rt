//! Boxes that share one space.

ghost use Rattle.std.specs.Prelude.{◌≡◌, ◌+◌, ◌≤◌, IfOk, replicate};
ghost use Rattle.hook_api.specs.Counts.{capped, Rose};
ghost use Rattle.hook_api.specs.Hooks.{HookCall, placed_answer, said_answer};
ghost use Rattle.hook_api.specs.Shelf.{new_shelf};
ghost use Rattle.addr_space.specs.Shared.{shared_account};

use crate::space::AddrSpace;
use hook_api::{ExtentHooks, HookShelf, Placed, Said};
use space_model::{Answer, Ask, Span};
use std::alloc::{AllocError as NoMemory, Global};
use std::sync::{Arc, Mutex, Wait};

/// How many boxes of hooks a shelf has.
const BOXES: usize = 32;

/// A count of refusals, which stays at the greatest `u64`.
#[derive(Drop)]
struct Refusals {
    count: u64,
}

impl Refusals {
    /// Counts a refusal.
    fn add(&mut self)
        ensures counted { self.new.count ≡ capped (self.old.count + 1) }
        ensures rose { Rose self.old.count self.new.count }
        ensures never_falls { self.old.count ≤ self.new.count }
    {
        self.count = self.count.saturating_add(1);
    }

    /// Counts what was said, where it is a refusal.
    fn hear(&mut self, said: Said)
        ensures never_falls { self.old.count ≤ self.new.count }
        ensures rose { said ≡ Said.Refused → Rose self.old.count self.new.count }
        ensures done { said ≡ Said.Done → self.new ≡ self.old }
    {
        if said == Said::Refused {
            self.add();
        }
    }
}

/// A box over a space that several share, under a lock. Each has a count of refusals of its own, and tells nothing.
///
/// A hook waits for the lock, by the handle that the box keeps.
#[derive(Drop)]
pub struct SharedSpace<R: Drop> {
    rt: R,
    space: Arc<Mutex<AddrSpace>>,
    refusals: Refusals,
}

impl<R: Wait + Clone + Send + Drop> SharedSpace<R> {
    /// A box over this space. It has refused nothing.
    pub fn new(rt: R, alloc: Global, inner: AddrSpace) -> Result<SharedSpace<R>, NoMemory>
        ensures { IfOk result (λ shared. shared.refusals.count ≡ 0) }
    {
        Ok(SharedSpace {
            rt,
            space: Arc::new(alloc, Mutex::new(inner))?,
            refusals: Refusals { count: 0 },
        })
    }

    /// A shelf whose 32 boxes share one new space of addresses.
    pub fn shelf(rt: &R, alloc: Global) -> Result<HookShelf<SharedSpace<R>>, NoMemory>
        ensures { IfOk result (λ shelf. shelf ≡ new_shelf (replicate 32 (shared_account 0))) }
    {
        let first = SharedSpace::new(rt.clone()?, alloc, AddrSpace::new(alloc)?)?;
        let mut boxes = Vec::new(alloc);
        while boxes.len() < BOXES {
            boxes.push(first.again()?)?;
        }
        Ok(HookShelf::new(boxes))
    }

    /// One more box over the same space. It has refused nothing.
    pub fn again(&self) -> Result<SharedSpace<R>, NoMemory>
        ensures { IfOk result (λ shared. shared.refusals.count ≡ 0) }
    {
        Ok(SharedSpace {
            rt: self.rt.clone()?,
            space: self.space.clone()?,
            refusals: Refusals { count: 0 },
        })
    }
}

impl<R: Wait + Clone + Send + Drop> ExtentHooks for SharedSpace<R> {
    ghost account = { λ s. shared_account s.refusals.count };

    fn alloc(&mut self, at: Option<u64>, pages: u64, align: u64, commit: bool) -> Option<Placed> {
        let placed = self.space.lock(&self.rt).alloc(at, pages, align, commit);
        if placed.is_none() {
            self.refusals.add();
        }
        placed
    }

    fn dalloc(&mut self, span: Span, committed: bool) -> Said {
        let said = self.space.lock(&self.rt).dalloc(span, committed);
        self.refusals.hear(said);
        said
    }

    fn destroy(&mut self, span: Span, committed: bool) {
        self.space.lock(&self.rt).destroy(span, committed);
    }

    fn commit(&mut self, span: Span) -> Said {
        let said = self.space.lock(&self.rt).commit(span);
        self.refusals.hear(said);
        said
    }

    fn decommit(&mut self, span: Span) -> Said {
        let said = self.space.lock(&self.rt).decommit(span);
        self.refusals.hear(said);
        said
    }

    fn purge_lazy(&mut self, span: Span) -> Said {
        let said = self.space.lock(&self.rt).purge_lazy(span);
        self.refusals.hear(said);
        said
    }

    fn purge_forced(&mut self, span: Span) -> Said {
        let said = self.space.lock(&self.rt).purge_forced(span);
        self.refusals.hear(said);
        said
    }

    fn split(&mut self, span: Span, left: u64) -> Said {
        let said = self.space.lock(&self.rt).split(span, left);
        self.refusals.hear(said);
        said
    }

    fn merge(&mut self, low: Span, high: Span) -> Said {
        let said = self.space.lock(&self.rt).merge(low, high);
        self.refusals.hear(said);
        said
    }

    fn refusals(&self) -> u64 {
        self.refusals.count
    }
}
