//! What the names of a trace are bound to.

ghost use Rattle.std.specs.Prelude.{◌≡◌, [], OnOk, OnErr};
ghost use Rattle.replay_run.specs.Names.{address_at, address_in, named};
ghost use Rattle.replay_run.specs.World.{names_ended};

use call_plan::{Answered, Given};
use indexmap::IndexMap;
use std::alloc::{AllocError as NoMemory, Global};
use std::marker::Model;
use trace_text::{Name, Ptr, Verb};

/// The names that a trace has bound so far, which contracts see as the list of each with its address.
///
/// A name stands where it was first bound. Its address, in bytes, is the one that it was bound to last.
#[derive(Drop)]
pub struct Names {
    addresses: IndexMap<Name, u64>,
}

impl Model for Names {
    ghost use Rattle.std.specs.Prelude.{List, ℕ};

    ghost Value = { List (List ℕ × ℕ) };

    ghost view = { λ n. n.addresses.entries };
}

impl Names {
    /// No name is bound. It takes no memory.
    pub fn new(alloc: Global) -> Names
        ensures { result ≡ [] }
    {
        Names {
            addresses: IndexMap::new(alloc),
        }
    }

    /// Binds the name to the address, in bytes, in place of the one that it was bound to before.
    ///
    /// An `Err` says that a new name found no memory, and leaves the names as they were.
    pub fn bind(&mut self, name: Name, addr: u64) -> Result<(), NoMemory>
        ensures bound { OnOk result (self.new ≡ named self.old name addr) }
        ensures err { OnErr result (self.new ≡ self.old) }
    {
        self.addresses.insert(name, addr)?;
        Ok(())
    }

    /// Binds the name of a malloc, a memalign, a realloc or a mallocx whose answer gives a region to the region's address. Other calls bind none.
    ///
    /// An `Err` says that a new name found no memory, and leaves the names as they were.
    #[inline(always)]
    pub fn bind_answer(&mut self, verb: Verb, answer: &Answered) -> Result<(), NoMemory>
        ensures bound { OnOk result (self.new ≡ names_ended self.old verb answer.now) }
        ensures err { OnErr result (self.new ≡ self.old) }
    {
        match (verb, *answer) {
            (
                Verb::Malloc { name, .. }
                | Verb::Memalign { name, .. }
                | Verb::Realloc { name, .. }
                | Verb::MallocIn { name, .. },
                Answered::Ok(Given::Region { addr, .. }),
            ) => self.bind(name, addr),
            _ => Ok(()),
        }
    }

    /// The address that the name is bound to, in bytes, or 0 where it is bound to none.
    pub fn address(&self, name: &Name) -> u64
        ensures { result ≡ address_in self.now name.now }
    {
        self.addresses.get(name).copied().unwrap_or(0)
    }

    /// The address, in bytes, that a pointer in a line stands for.
    #[inline(always)]
    pub fn address_at(&self, target: &Ptr) -> u64
        ensures { result ≡ address_at self.now target.now }
    {
        match target {
            Ptr::Name(name) => self.address(name),
            Ptr::At(addr) => *addr,
        }
    }
}
