//! Entries of a journal whose asks are kept elsewhere, in few bytes where their numbers are small.

ghost use Rattle.std.specs.Prelude.{◌≡◌, true, None, Some, is_none, is_some, IfOk, IfSome};
ghost use Rattle.hook_api.specs.Deeds.{bare_of};
ghost use Rattle.hook_api.specs.Kept.{heard_of};
ghost use Rattle.hook_api.specs.NarrowDeeds.{op_by};

use crate::deeds::{NOTHING, again};
use crate::narrow_deeds::{NarrowDeed, NarrowShape};
use crate::{Asked, Kept};
use space_model::{Entry, Op};
use std::alloc::{AllocError as NoMemory, Global};
use std::marker::Model;

/// An entry whose ask is kept elsewhere. Contracts see it with nothing in place of the ask that its operation carries.
#[derive(Drop)]
pub(crate) struct Slot {
    pub(crate) op: Op,
    pub(crate) client: u32,
    pub(crate) asks: bool,
    ghost carried: { is_some (heard_of op) ≡ true → asks ≡ true },
}

impl Model for Slot {
    ghost use Rattle.hook_api.specs.Deeds.{Bare, bare_of};

    ghost Value = { Bare };

    ghost view = { λ s. bare_of s.client s.op s.asks };
}

impl Slot {
    ghost use Rattle.hook_api.specs.Kepts.{kept_of};

    /// An entry, which has an ask where its operation carries one.
    pub(crate) fn new(client: u32, op: Op, asks: bool) -> Slot
        requires { is_some (heard_of op) ≡ true → asks ≡ true }
        ensures { result ≡ bare_of client op asks }
    {
        Slot { op, client, asks }
    }

    /// Whether it has an ask.
    pub(crate) fn asks(&self) -> bool
        ensures { result ≡ self.now.asks }
    {
        self.asks
    }

    /// The entry again, beside the ask that was made for it.
    #[tactic(auto, using(crate::proofs::Pairing::heard_again, crate::proofs::Pairing::kept_again))]
    pub(crate) fn kept(&self, asked: Option<Asked>, alloc: Global) -> Result<Kept, NoMemory>
        requires { is_some asked ≡ self.now.asks }
        ensures { IfOk result (λ kept. kept ≡ kept_of self.now asked) }
    {
        let heard = asked.map_or(NOTHING, |asked| asked.heard());
        let entry = Entry {
            client: self.client,
            op: again(&self.op, heard, alloc)?,
        };
        Ok(Kept::new(entry, asked))
    }
}

/// An entry without its ask in 16 bytes, or the mark of one whose numbers don't fit there. Contracts see the entry, or `None`
/// for the mark.
#[derive(Drop)]
pub(crate) struct NarrowSlot {
    shape: NarrowShape,
    mark: u8,
    asks: bool,
    client: u8,
    a: u32,
    b: u32,
    c: u32,
    ghost carried: { is_some (heard_of (op_by shape mark a b c)) ≡ true → asks ≡ true },
}

impl Model for NarrowSlot {
    ghost use Rattle.std.specs.Prelude.{Option};
    ghost use Rattle.hook_api.specs.NarrowSlots.{slot_told};
    ghost use Rattle.hook_api.specs.Deeds.{Bare};

    ghost Value = { Option Bare };

    ghost view = { slot_told };
}

/// An entry in few bytes, if its numbers fit there.
fn small(client: u32, op: &Op, asks: bool) -> Option<NarrowSlot>
    requires { is_some (heard_of op.now) ≡ true → asks ≡ true }
    ensures { IfSome result (λ narrow. narrow ≡ Some (bare_of client op.now asks)) }
{
    let deed = NarrowDeed::of(op)?;
    if client >= 256 {
        return None;
    }
    Some(NarrowSlot {
        shape: deed.shape,
        mark: deed.mark,
        asks,
        client: client as u8,
        a: deed.a,
        b: deed.b,
        c: deed.c,
    })
}

/// The mark of an entry whose numbers don't fit.
fn mark() -> NarrowSlot
    ensures { result ≡ None }
{
    NarrowSlot {
        shape: NarrowShape::Elsewhere,
        mark: 0,
        asks: false,
        client: 0,
        a: 0,
        b: 0,
        c: 0,
    }
}

impl NarrowSlot {
    /// An entry in few bytes, or the mark of one whose numbers don't fit. It has an ask where its operation carries one.
    pub(crate) fn of(client: u32, op: &Op, asks: bool) -> NarrowSlot
        requires { is_some (heard_of op.now) ≡ true → asks ≡ true }
        ensures { IfSome result (λ small. small ≡ bare_of client op.now asks) }
    {
        match small(client, op, asks) {
            Some(narrow) => narrow,
            None => mark(),
        }
    }

    /// Whether this is the mark of an entry whose numbers don't fit.
    pub(crate) fn is_mark(&self) -> bool
        ensures { result ≡ is_none self.now }
    {
        matches!(self.shape, NarrowShape::Elsewhere)
    }

    /// The entry, unless this is the mark of one.
    pub(crate) fn slot(&self, alloc: Global) -> Option<Slot>
        ensures { result ≡ self.now }
    {
        if self.is_mark() {
            return None;
        }
        let deed = NarrowDeed {
            shape: self.shape,
            mark: self.mark,
            a: self.a,
            b: self.b,
            c: self.c,
        };
        Some(Slot {
            op: deed.op(alloc),
            client: u32::from(self.client),
            asks: self.asks,
        })
    }
}
