//! The entries of a journal with their asks, kept in few bytes.

ghost use Rattle.std.specs.Prelude.{◌≡◌, ◌+◌, ◌<◌, ◌≤◌, ◌^◌, None, [], ◌∷◌, ◌++◌, true, is_some, length, vec_capacity, vec_len, IfOk, IfSome, OnOk};
ghost use Rattle.hook_api.specs.Deeds.{bare_of};
ghost use Rattle.hook_api.specs.Kept.{IsKept, heard_of};
ghost use Rattle.hook_api.specs.Kepts.{ask_of, asks_after, kept_of};
ghost use Rattle.hook_api.specs.Filling.{FillsIn, filled_in};

use crate::ask_list::AskReader;
use crate::slots::{NarrowSlot, Slot};
use crate::{AskList, Asked, Kept};
use space_model::{Op, Seq};
use std::alloc::{AllocError as NoMemory, Global};
use std::marker::Model;
use std::mem;

/// Entries of a journal with their asks, in order: a narrow one for each, and the whole ones for which one only stands.
#[derive(Drop)]
pub struct Kepts {
    few: Vec<NarrowSlot>,
    whole: Vec<Slot>,
    asks: AskList,
}

impl Model for Kepts {
    ghost use Rattle.std.specs.Prelude.{List};
    ghost use Rattle.hook_api.specs.Kept.{KeptFacts};
    ghost use Rattle.hook_api.specs.Kepts.{AreKept, paired};
    ghost use Rattle.hook_api.specs.Filling.{filled_in};

    ghost Value = { List KeptFacts };

    ghost view = { λ k. paired (filled_in k.few.items k.whole.items) k.asks.items };

    ghost invariant = { λ k. AreKept k.few.items k.whole.items k.asks.items };
}

impl Kepts {
    /// How many entries there are.
    #[tactic(auto, using(crate::proofs::Pairing::kept_length))]
    pub fn len(&self) -> usize
        ensures { result ≡ length self.now }
    {
        self.few.len()
    }

    /// The entries beside their asks, as a list.
    pub fn to_list(&self, alloc: Global) -> Result<Seq<Kept>, NoMemory>
        ensures { IfOk result (λ list. list ≡ self.now) }
    {
        let mut list = Vec::with_capacity(alloc, self.len())?;
        let mut left = self.reader();
        while let Some(kept) = left.next(alloc)? {
            list.push(kept)?;
        }
        Ok(Seq::from_vec(list))
    }

    /// The entries beside their asks, to be read one behind the other.
    fn reader(&self) -> KeptReader<'_>
        ensures { result ≡ self.now }
    {
        KeptReader {
            few: &self.few,
            whole: &self.whole,
            asks: self.asks.reader(),
        }
    }
}

/// Entries beside their asks, of which the first ones were read. Contracts see those that are left.
#[derive(Drop)]
struct KeptReader<'a> {
    few: &'a [NarrowSlot],
    whole: &'a [Slot],
    asks: AskReader<'a>,
}

impl<'a> Model for KeptReader<'a> {
    ghost use Rattle.std.specs.Prelude.{List};
    ghost use Rattle.hook_api.specs.Kept.{KeptFacts};
    ghost use Rattle.hook_api.specs.Kepts.{AreKept, paired};
    ghost use Rattle.hook_api.specs.Filling.{filled_in};

    ghost Value = { List KeptFacts };

    ghost view = { λ r. paired (filled_in r.few.now r.whole.now) r.asks };

    ghost invariant = { λ r. AreKept r.few.now r.whole.now r.asks };
}

impl<'a> KeptReader<'a> {
    /// Reads the first entry that is left.
    #[tactic(auto, using(crate::proofs::Filling::fits_first, crate::proofs::Filling::fits_none, crate::proofs::Filling::fits_some, crate::proofs::Pairing::fits_first, crate::proofs::Pairing::fits_rest))]
    fn next(&mut self, alloc: Global) -> Result<Option<Kept>, NoMemory>
        ensures first { IfOk result (λ next. IfSome next (λ kept. self.old ≡ kept ∷ self.new)) }
        ensures end { IfOk result (λ next. next ≡ None → self.old ≡ []) }
    {
        let Some((narrow, behind)) = self.few.split_first() else {
            return Ok(None);
        };
        self.few = behind;
        if let Some(slot) = narrow.slot(alloc) {
            return Ok(Some(kept_with(&slot, &mut self.asks, alloc)?));
        }
        let Some((slot, others)) = self.whole.split_first() else {
            return Ok(None);
        };
        self.whole = others;
        Ok(Some(kept_with(slot, &mut self.asks, alloc)?))
    }
}

/// An entry beside its ask, which is read if it has one.
fn kept_with(slot: &Slot, asks: &mut AskReader, alloc: Global) -> Result<Kept, NoMemory>
    requires { slot.now.asks ≡ true → 0 < length asks.old }
    ensures kept { IfOk result (λ kept. kept ≡ kept_of slot.now (ask_of slot.now asks.old)) }
    ensures rest { asks.new ≡ asks_after slot.now asks.old }
{
    let asked = next_ask(slot, asks);
    slot.kept(asked, alloc)
}

/// The ask of an entry, which is read if it has one.
fn next_ask(slot: &Slot, asks: &mut AskReader) -> Option<Asked>
    requires { slot.now.asks ≡ true → 0 < length asks.old }
    ensures asked { result ≡ ask_of slot.now asks.old }
    ensures has { is_some result ≡ slot.now.asks }
    ensures rest { asks.new ≡ asks_after slot.now asks.old }
{
    if slot.asks() { asks.next() } else { None }
}

/// Puts an entry behind the others: in few bytes if its numbers fit there, and else whole, behind a mark, where its operation is
/// taken out of its place. There is room for it in both lists. It has an ask where its operation carries one.
#[tactic(auto, using(crate::proofs::Filling::filled_mark, crate::proofs::Filling::filled_member, crate::proofs::Filling::fits_push))]
fn push_slot(few: &mut Vec<NarrowSlot>, whole: &mut Vec<Slot>, client: u32, op: &mut Op, asks: bool)
    requires few { vec_len few.old < vec_capacity few.old }
    requires whole { vec_len whole.old < vec_capacity whole.old }
    requires fits { FillsIn few.old.items whole.old.items }
    requires carried { is_some (heard_of op.old) ≡ true → asks ≡ true }
    ensures slots { filled_in few.new.items whole.new.items ≡ filled_in few.old.items whole.old.items ++ bare_of client op.old asks ∷ [] }
    ensures fits { FillsIn few.new.items whole.new.items }
    ensures narrow { vec_len few.new ≡ vec_len few.old + 1 }
    ensures wide { vec_len whole.new ≤ vec_len whole.old + 1 }
    ensures few_places { vec_capacity few.old ≤ vec_capacity few.new }
    ensures whole_places { vec_capacity whole.old ≤ vec_capacity whole.new }
{
    let narrow = NarrowSlot::of(client, op, asks);
    if narrow.is_mark() {
        let op = mem::replace(op, Op::Counts);
        whole.push(Slot::new(client, op, asks)).unwrap();
    }
    few.push(narrow).unwrap();
}

/// A journal that goes on, with places for entries to come.
#[derive(Drop)]
pub struct Writing {
    few: Vec<NarrowSlot>,
    whole: Vec<Slot>,
    asks: AskList,
}

impl Model for Writing {
    ghost use Rattle.hook_api.specs.Kepts.{IsWriting, Written, written_pairs};

    ghost Value = { Written };

    ghost view = { written_pairs };

    ghost invariant = { IsWriting };
}

impl Writing {
    /// No entry, and no place for one. Takes no memory.
    pub fn new(alloc: Global) -> Writing
        ensures { result.kept ≡ [] }
    {
        Writing {
            few: Vec::new(alloc),
            whole: Vec::new(alloc),
            asks: AskList::new(alloc),
        }
    }

    /// Makes places for at least `more` further entries. The entries stay.
    pub fn reserve(&mut self, more: u64) -> Result<(), NoMemory>
        ensures kept { self.new.kept ≡ self.old.kept }
        ensures spare { self.old.spare ≤ self.new.spare }
        ensures ok { OnOk result (more ≤ self.new.spare) }
    {
        self.few.reserve(more as usize)?;
        self.whole.reserve(more as usize)?;
        self.asks.reserve(more)?;
        Ok(())
    }

    /// Puts a client's operation at the end, as an entry beside the ask that it carries. It takes a place, and no memory: what
    /// doesn't fit into few bytes is taken out of the operation's place.
    #[tactic(auto, using(crate::proofs::Pairing::fits_push, crate::proofs::Pairing::kept_length, crate::proofs::Pairing::asked_carried))]
    pub fn push(&mut self, client: u32, op: &mut Op, asked: &Option<Asked>)
        requires room { 0 < self.old.spare }
        requires asked { IsKept (record { client = client; op = op.old }) asked.now }
        ensures kept { self.new.kept ≡ self.old.kept ++ record { entry = record { client = client; op = op.old }; asked = asked.now } ∷ [] }
        ensures spare { self.old.spare ≤ self.new.spare + 1 }
        ensures few { length self.new.kept < 2 ^ 64 }
    {
        if let Some(asked) = asked {
            self.asks.push(asked);
        }
        push_slot(&mut self.few, &mut self.whole, client, op, asked.is_some());
    }

    /// The entries, once no more are to come. Takes no memory.
    pub fn into_kepts(self) -> Kepts
        ensures { result ≡ self.kept }
    {
        let Writing { few, whole, asks } = self;
        Kepts { few, whole, asks }
    }
}
