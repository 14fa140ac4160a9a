//! A list of addresses that takes memory only where it is asked to make room.
ghost use Rattle.std.specs.Prelude.{◌≡◌, ◌+◌, ◌-◌, ◌<◌, ◌≤◌, ◌==◌, ◌↔◌, [], ◌∷◌, ◌++◌, length, IsTrue, IsOk, OnOk, OnErr};

use smallvec::SmallVec;
use std::alloc::{AllocError as NoMemory, Global};
use std::marker::Model;

/// How many addresses a list holds before it needs memory.
const INLINE: usize = 2;

/// A list of addresses. Contracts see the addresses in order, as `items`, and how many more fit, as `room`.
///
/// No call but `reserve` takes memory.
#[derive(Debug, Drop)]
pub struct Addrs {
    list: SmallVec<u64, INLINE>,
}

impl Model for Addrs {
    ghost use Rattle.std.specs.Prelude.{◌-◌, ◌≤◌, length};
    ghost use Rattle.size_classes.specs.Room.{AddrList};

    ghost Value = { AddrList };

    ghost view = { λ a. record { items = a.list.items; room = a.list.capacity - length a.list.items } };

    ghost invariant = { λ a. length a.list.items ≤ a.list.capacity };
}

impl Addrs {
    /// The empty list.
    pub fn new(alloc: Global) -> Addrs
        ensures items { result.items ≡ [] }
        ensures room { result.room ≡ 2 }
    {
        Addrs {
            list: SmallVec::new(alloc),
        }
    }

    /// Makes room for `more` further addresses. The list stays as it is, also where memory is wanting.
    pub fn reserve(&mut self, more: u64) -> Result<(), NoMemory>
        ensures items { self.new.items ≡ self.old.items }
        ensures ok { OnOk result (more ≤ self.new.room) }
        ensures keeps_room { self.old.room ≤ self.new.room }
        ensures err { OnErr result (self.new ≡ self.old) }
        ensures had_room { more ≤ self.old.room → IsOk result × (self.new ≡ self.old) }
    {
        self.list.reserve(more as usize)
    }

    /// Adds an address at the end.
    pub fn push(&mut self, addr: u64)
        requires { 1 ≤ self.old.room }
        ensures items { self.new.items ≡ self.old.items ++ addr ∷ [] }
        ensures room { self.new.room + 1 ≡ self.old.room }
    {
        self.list.push_reserved(addr);
    }

    /// How many addresses there are.
    pub fn len(&self) -> usize
        ensures { result ≡ length self.now.items }
    {
        self.list.len()
    }

    /// Whether there is none.
    pub fn is_empty(&self) -> bool
        ensures { IsTrue result ↔ (self.now.items ≡ []) }
    {
        self.list.is_empty()
    }

    /// The addresses, in order.
    pub fn as_slice(&self) -> &[u64]
        ensures { result.now ≡ self.now.items }
    {
        self.list.as_slice()
    }

    /// How many more addresses fit before memory is needed.
    pub fn room(&self) -> usize
        ensures { result ≡ self.now.room }
    {
        self.list.capacity() - self.list.len()
    }
}

/// Two lists are equal where their addresses are, whatever room is left.
impl PartialEq for Addrs {
    ghost use Rattle.std.specs.Prelude.{nat_eq};
    ghost use Rattle.std.specs.Ordering.{on};
    ghost use Rattle.std.specs.Cmp.Lexicographic.{pointwise};
    ghost use Rattle.std.specs.Cmp.Rules.{comparing};

    ghost eq = { on (λ a. a.items) (pointwise nat_eq) };

    ghost laws = { Prim.search comparing };

    fn eq(&self, other: &Addrs) -> bool {
        self.as_slice() == other.as_slice()
    }
}
