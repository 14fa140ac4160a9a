//! Asks that were made, in order and in few bytes.

ghost use Rattle.std.specs.Prelude.{◌≡◌, ◌+◌, ◌-◌, ◌<◌, ◌≤◌, ◌^◌, None, [], ◌∷◌, ◌++◌, length, slice_get, IfOk, IfSome, OnOk};

use crate::Asked;
use crate::narrow_asks::NarrowAsk;
use space_model::Seq;
use std::alloc::{AllocError as NoMemory, Global};
use std::marker::Model;

/// Asks in order, with places for those to come. One whose numbers are small takes 32 bytes: any other has a mark among
/// those, and stands whole in a list of its own. Only [`AskList::reserve`] takes memory.
#[derive(Drop)]
pub struct AskList {
    narrow: Vec<NarrowAsk>,
    whole: Vec<Asked>,
}

impl Model for AskList {
    ghost use Rattle.hook_api.specs.AskLists.{AskListFacts, IsAskList, asks_listed};

    ghost Value = { AskListFacts };

    ghost view = { asks_listed };

    ghost invariant = { IsAskList };
}

/// Asks in order, of which the first ones were read. Contracts see those that are left.
#[derive(Drop)]
pub(crate) struct AskReader<'a> {
    narrow: &'a [NarrowAsk],
    whole: &'a [Asked],
}

impl<'a> Model for AskReader<'a> {
    ghost use Rattle.std.specs.Prelude.{List};
    ghost use Rattle.hook_api.specs.Asked.{AskFacts};
    ghost use Rattle.hook_api.specs.Filling.{FillsIn, filled_in};

    ghost Value = { List AskFacts };

    ghost view = { λ r. filled_in r.narrow.now r.whole.now };

    ghost invariant = { λ r. FillsIn r.narrow.now r.whole.now };
}

impl<'a> AskReader<'a> {
    /// Reads the first ask that is left.
    #[tactic(auto, using(crate::proofs::Filling::fits_first, crate::proofs::Filling::fits_none, crate::proofs::Filling::fits_some))]
    pub(crate) fn next(&mut self) -> Option<Asked>
        ensures first { IfSome result (λ asked. self.old ≡ asked ∷ self.new) }
        ensures end { result ≡ None → self.old ≡ [] }
    {
        let (first, behind) = self.narrow.split_first()?;
        self.narrow = behind;
        if let Some(asked) = first.asked() {
            return Some(asked);
        }
        let (asked, others) = self.whole.split_first()?;
        self.whole = others;
        Some(*asked)
    }
}

impl AskList {
    /// No ask, and no place for one. Takes no memory.
    pub fn new(alloc: Global) -> AskList
        ensures { result.items ≡ [] }
    {
        AskList {
            narrow: Vec::new(alloc),
            whole: Vec::new(alloc),
        }
    }

    /// Makes places for at least `more` further asks. The asks stay.
    pub fn reserve(&mut self, more: u64) -> Result<(), NoMemory>
        ensures items { self.new.items ≡ self.old.items }
        ensures kept { self.old.spare ≤ self.new.spare }
        ensures ok { OnOk result (more ≤ self.new.spare) }
    {
        self.narrow.reserve(more as usize)?;
        self.whole.reserve(more as usize)?;
        Ok(())
    }

    /// Puts an ask at the end. It takes a place, and no memory.
    #[tactic(auto, using(crate::proofs::Filling::filled_mark, crate::proofs::Filling::filled_member, crate::proofs::Filling::fits_push, crate::proofs::Filling::filled_length))]
    pub fn push(&mut self, asked: &Asked)
        requires room { 0 < self.old.spare }
        ensures items { self.new.items ≡ self.old.items ++ asked.now ∷ [] }
        ensures spare { self.old.spare ≤ self.new.spare + 1 }
        ensures few { length self.new.items < 2 ^ 64 }
    {
        let narrow = NarrowAsk::of(asked);
        if narrow.is_mark() {
            self.whole.push(*asked).unwrap();
        }
        self.narrow.push(narrow).unwrap();
    }

    /// How many asks there are.
    #[tactic(auto, using(crate::proofs::Filling::filled_length))]
    pub fn len(&self) -> usize
        ensures { result ≡ length self.now.items }
    {
        self.narrow.len()
    }

    /// The last ask.
    #[tactic(auto, using(crate::proofs::Filling::last_filled))]
    pub fn last(&self) -> Option<Asked>
        ensures { result ≡ slice_get self.now.items (length self.now.items - 1) }
    {
        match self.narrow.last()?.asked() {
            Some(asked) => Some(asked),
            None => self.whole.last().copied(),
        }
    }

    /// The asks in order, to be read one behind the other.
    pub(crate) fn reader(&self) -> AskReader<'_>
        ensures { result ≡ self.now.items }
    {
        AskReader {
            narrow: &self.narrow,
            whole: &self.whole,
        }
    }

    /// The asks in order, as a list.
    pub fn to_list(&self, alloc: Global) -> Result<Seq<Asked>, NoMemory>
        ensures { IfOk result (λ list. list ≡ self.now.items) }
    {
        let mut list = Vec::with_capacity(alloc, self.len())?;
        let mut left = self.reader();
        while let Some(asked) = left.next() {
            list.push(asked)?;
        }
        Ok(Seq::from_vec(list))
    }
}

/// Asks, in the order in which they were made.
#[derive(Drop)]
pub struct Askeds {
    list: AskList,
}

impl Model for Askeds {
    ghost use Rattle.std.specs.Prelude.{List};
    ghost use Rattle.hook_api.specs.Asked.{AskFacts};

    ghost Value = { List AskFacts };

    ghost view = { λ a. a.list.items };
}

impl Askeds {
    /// No ask. Takes no memory.
    pub fn new(alloc: Global) -> Askeds
        ensures { result ≡ [] }
    {
        Askeds::from_list(AskList::new(alloc))
    }

    /// The asks of a list, once no more are to come. Takes no memory.
    pub fn from_list(list: AskList) -> Askeds
        ensures { result ≡ list.items }
    {
        Askeds { list }
    }

    /// How many asks there are.
    pub fn len(&self) -> usize
        ensures { result ≡ length self.now }
    {
        self.list.len()
    }

    /// The asks, as a list.
    pub fn to_list(&self, alloc: Global) -> Result<Seq<Asked>, NoMemory>
        ensures { IfOk result (λ list. list ≡ self.now) }
    {
        self.list.to_list(alloc)
    }
}
