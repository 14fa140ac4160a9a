//! An ordered set of pairs of numbers whose memory is reserved beforehand: of its calls only
//! `new` and `reserve` take memory.
#![tactic(auto)]

ghost use Rattle.std.specs.Prelude.{◌≡◌, ◌+◌, ◌<◌, ◌↔◌, [], length, max, slice_get, filter, find, Contains, IsTrue, OnOk, OnErr};
ghost use Rattle.ordered_set.specs.Keys.{IsAscending, is_above, is_below, is_from, last_of, with_key, without_key};

use crate::index::Index;
use std::alloc::{AllocError as NoMemory, Global};
use std::marker::Model;

mod block;
mod index;
mod key;

pub use key::Key;

/// A set of keys in ascending order.
///
/// A look-up searches the directory of the blocks and then one block, in steps that leave a third;
/// an insertion moves the keys of one block at most, and a removal those of two. `reserve` makes
/// room for a number of insertions, whatever their keys, and each removal gives its place back.
#[derive(Drop)]
pub struct OrderedSet {
    index: Index,
    len: u64,
    spare: u64,
}

impl Model for OrderedSet {
    ghost use Rattle.ordered_set.specs.Keys.{KeySet};

    ghost Value = { KeySet };

    ghost use Rattle.ordered_set.specs.Sets.{shown, IsSet};

    ghost view = { shown };

    ghost invariant = { IsSet };
}

impl OrderedSet {
    /// The empty set, with no room. Takes no memory.
    pub fn new(alloc: Global) -> Self
        ensures { result ≡ record { keys = []; spare = 0 } }
    {
        OrderedSet {
            index: Index::new(alloc),
            len: 0,
            spare: 0,
        }
    }

    /// Makes room for at least `more` further keys. A refusal leaves the keys and the room.
    pub fn reserve(&mut self, more: u64) -> Result<(), NoMemory>
        ensures keys { self.new.keys ≡ self.old.keys }
        ensures ok { OnOk result (self.new.spare ≡ max self.old.spare more) }
        ensures err { OnErr result (self.new ≡ self.old) }
    {
        if more <= self.spare {
            return Ok(());
        }
        let keys = self.len.checked_add(more).ok_or(NoMemory)?;
        // Each block but the last has at least 64 keys.
        self.index.reserve((keys / 64 + 1) as usize)?;
        self.spare = more;
        Ok(())
    }

    /// How many more keys there is room for.
    pub fn spare(&self) -> u64
        ensures { result ≡ self.now.spare }
    {
        self.spare
    }

    /// How many keys the set has.
    pub fn len(&self) -> u64
        ensures len { result ≡ length self.now.keys }
        ensures ascending { IsAscending self.now.keys }
    {
        self.len
    }

    /// Whether the set has no keys.
    pub fn is_empty(&self) -> bool
        ensures { IsTrue result ↔ (self.now.keys ≡ []) }
    {
        self.len == 0
    }

    /// Whether the set has this key.
    pub fn contains(&self, key: Key) -> bool
        ensures { IsTrue result ↔ Contains self.now.keys key }
    {
        self.at_or_after(key) == Some(key)
    }

    /// Puts a new key in its place. Takes up one place of the room.
    pub fn insert(&mut self, key: Key)
        requires room { 0 < self.old.spare }
        requires absent { ¬ Contains self.old.keys key }
        ensures keys { self.new.keys ≡ with_key self.old.keys key }
        ensures spare { self.new.spare + 1 ≡ self.old.spare }
        ensures ascending { IsAscending self.new.keys }
    {
        self.index.insert(key);
        self.len += 1;
        self.spare -= 1;
    }

    /// Takes a key out, and gives its place back to the room.
    pub fn remove(&mut self, key: Key)
        requires { Contains self.old.keys key }
        ensures keys { self.new.keys ≡ without_key self.old.keys key }
        ensures spare { self.new.spare ≡ self.old.spare + 1 }
        ensures ascending { IsAscending self.new.keys }
    {
        self.index.remove(key);
        self.len -= 1;
        self.spare += 1;
    }

    /// The least key, if the set has one.
    pub fn first(&self) -> Option<Key>
        ensures first { result ≡ slice_get self.now.keys 0 }
        ensures ascending { IsAscending self.now.keys }
    {
        self.index.firsts.first().copied()
    }

    /// The greatest key, if the set has one.
    pub fn last(&self) -> Option<Key>
        ensures last { result ≡ last_of self.now.keys }
        ensures ascending { IsAscending self.now.keys }
    {
        let block = self.index.blocks.last()?;
        block.keys().last().copied()
    }

    /// The least key that isn't below this one, if there is one.
    pub fn at_or_after(&self, key: Key) -> Option<Key>
        ensures found { result ≡ find (is_from key) self.now.keys }
        ensures ascending { IsAscending self.now.keys }
    {
        if self.index.blocks.is_empty() {
            return None;
        }
        self.index.key_from(self.index.place_of(key))
    }

    /// The least key above this one, if there is one: from key to key it walks through the set.
    pub fn after(&self, key: Key) -> Option<Key>
        ensures found { result ≡ find (is_above key) self.now.keys }
        ensures ascending { IsAscending self.now.keys }
    {
        if self.index.blocks.is_empty() {
            return None;
        }
        self.index.key_from(self.index.place_after(key))
    }

    /// The greatest key below this one, if there is one.
    #[inline(always)]
    pub fn before(&self, key: Key) -> Option<Key>
        ensures found { result ≡ last_of (filter (is_below key) self.now.keys) }
        ensures ascending { IsAscending self.now.keys }
    {
        if self.index.blocks.is_empty() {
            return None;
        }
        self.index.key_before(self.index.place_of(key))
    }
}
