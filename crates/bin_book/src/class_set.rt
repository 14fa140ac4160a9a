//! The keys of slabs by class, and the lowest one of each class.
ghost use Rattle.std.specs.Prelude.{◌≡◌, ◌+◌, ◌<◌, ◌↔◌, true, max, length, Contains, IsTrue, MatchOption, OnOk, OnErr, []};
ghost use Rattle.ordered_set.specs.Keys.{IsAscending, with_key, without_key};
ghost use Rattle.size_classes.specs.Classes.{IsSmall};
ghost use Rattle.bin_book.specs.ClassSets.{IsLowest};

use crate::table::CLASSES;
use ordered_set::{Key, OrderedSet};
use std::alloc::{AllocError as NoMemory, Global};
use std::marker::Model;

/// A set of keys whose major numbers are those of classes.
///
/// The lowest key of each class is kept. So one is sought only where the kept one goes.
#[derive(Drop)]
pub struct ClassSet {
    set: OrderedSet,
    lows: [Option<Key>; CLASSES],
}

impl Model for ClassSet {
    ghost use Rattle.ordered_set.specs.Keys.{KeySet};

    ghost Value = { KeySet };

    ghost use Rattle.bin_book.specs.Opened.{set_of, IsClassSet};

    ghost view = { set_of };

    ghost invariant = { IsClassSet };
}

impl ClassSet {
    /// The empty set, with no room.
    pub fn new(alloc: Global) -> ClassSet
        ensures { result ≡ record { keys = []; spare = 0 } }
    {
        ClassSet {
            set: OrderedSet::new(alloc),
            lows: [None; CLASSES],
        }
    }

    /// Makes room for so many further keys.
    pub fn reserve(&mut self, more: u64) -> Result<(), NoMemory>
        ensures keys { self.new.keys ≡ self.old.keys }
        ensures ok { OnOk result (self.new.spare ≡ max self.old.spare more) }
        ensures err { OnErr result (self.new ≡ self.old) }
    {
        self.set.reserve(more)
    }

    /// How many keys the set has.
    pub fn len(&self) -> u64
        ensures len { result ≡ length self.now.keys }
        ensures ascending { IsAscending self.now.keys }
    {
        self.set.len()
    }

    /// The lowest key of a class.
    pub fn lowest(&self, class: u8) -> Option<Key>
        requires { IsSmall class }
        ensures { IsLowest self.now.keys class result }
    {
        self.lows[class as usize]
    }

    /// Puts a new key in.
    pub fn insert(&mut self, key: Key)
        requires room { 0 < self.old.spare }
        requires absent { ¬ Contains self.old.keys key }
        requires class { key.major < 36 }
        ensures keys { self.new.keys ≡ with_key self.old.keys key }
        ensures spare { self.new.spare + 1 ≡ self.old.spare }
    {
        self.set.insert(key);
        let class = key.major as usize;
        if is_lower(key, self.lows[class]) {
            self.lows[class] = Some(key);
        }
    }

    /// Takes a key out.
    #[inline(always)]
    pub fn remove(&mut self, key: Key)
        requires there { Contains self.old.keys key }
        requires class { key.major < 36 }
        ensures keys { self.new.keys ≡ without_key self.old.keys key }
        ensures spare { self.new.spare ≡ self.old.spare + 1 }
    {
        self.set.remove(key);
        let class = key.major as usize;
        if self.lows[class] == Some(key) {
            self.lows[class] = lowest_of(&self.set, key.major);
        }
    }
}

// Whether a key has a lower minor number than another one, if there is another one.
fn is_lower(key: Key, other: Option<Key>) -> bool
    ensures { MatchOption other (result ≡ true) (λ o. IsTrue result ↔ key.minor < o.minor) }
{
    match other {
        Some(other) => key.minor < other.minor,
        None => true,
    }
}

// The lowest key with a major number.
fn lowest_of(set: &OrderedSet, major: u64) -> Option<Key>
    ensures { IsLowest set.now.keys major result }
{
    let start = Key { major, minor: 0 };
    let first = set.at_or_after(start)?;
    if first.major == major {
        Some(first)
    } else {
        None
    }
}
