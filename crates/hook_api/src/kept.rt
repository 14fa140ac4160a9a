//! Journals, whose entries stand beside the asks that they carry.

ghost use Rattle.std.specs.Prelude.{◌≡◌, []};
ghost use Rattle.hook_api.specs.Kept.{IsKept};

use crate::Asked;
use crate::kepts::Kepts;
use space_model::Entry;
use std::alloc::Global;
use std::marker::Model;

/// An entry of a journal and the ask that was made for it. An entry that carries an ask and its answer stands beside an
/// [`Asked`] with just those.
#[derive(Drop)]
pub struct Kept {
    entry: Entry,
    asked: Option<Asked>,
}

impl Model for Kept {
    ghost use Rattle.hook_api.specs.Kept.{KeptFacts, IsKept};

    ghost Value = { KeptFacts };

    ghost view = { λ k. record { entry = k.entry; asked = k.asked } };

    ghost invariant = { λ k. IsKept k.entry k.asked };
}

impl Kept {
    /// An entry beside the ask that it carries, if it carries one. Takes no memory.
    pub fn new(entry: Entry, asked: Option<Asked>) -> Kept
        requires { IsKept entry asked }
        ensures { result ≡ record { entry = entry; asked = asked } }
    {
        Kept { entry, asked }
    }

    /// The entry.
    pub fn entry(&self) -> &Entry
        ensures entry { result.now ≡ self.now.entry }
        ensures kept { IsKept result.now self.now.asked }
    {
        &self.entry
    }

    /// The ask that was made for the entry, if one was.
    pub fn asked(&self) -> Option<Asked>
        ensures { result ≡ self.now.asked }
    {
        self.asked
    }
}

/// The journal of one arena.
#[derive(Drop)]
pub struct Journal {
    /// The arena's index, below 32.
    pub index: u32,
    /// The entries, in order.
    pub kept: Kepts,
}

/// The journals of the 32 arenas by index, or none.
#[derive(Drop)]
pub struct Journals {
    items: Vec<Journal>,
}

impl Model for Journals {
    ghost use Rattle.std.specs.Prelude.{List};
    ghost use Rattle.hook_api.specs.declared.kept.Journal.{Journal};
    ghost use Rattle.hook_api.specs.Journals.{IsByIndex};

    ghost Value = { List Journal };

    ghost view = { λ j. j.items.items };

    ghost invariant = { λ j. IsByIndex j.items.items };
}

impl Journals {
    ghost use Rattle.hook_api.specs.Journals.{IsByIndex};

    /// No journals. Takes no memory.
    pub fn none(alloc: Global) -> Journals
        ensures { result ≡ [] }
    {
        Journals {
            items: Vec::new(alloc),
        }
    }

    /// The journals of the arenas 0 to 31. Takes no memory.
    pub fn from_vec(items: Vec<Journal>) -> Journals
        requires { IsByIndex items.items }
        ensures { result ≡ items.items }
    {
        Journals { items }
    }

    /// The journals, by index.
    pub fn as_slice(&self) -> &[Journal]
        ensures journals { result.now ≡ self.now }
        ensures by_index { IsByIndex result.now }
    {
        self.items.as_slice()
    }
}
