//! The honest box.

ghost use Rattle.std.specs.Prelude.{◌≡◌, ℕ, ◌+◌, ◌<◌, ◌≤◌, ◌↔◌, max, Some, None, true, SomeIff, IsSome, IfOk, IfSome, IfNone, IsTrue};
ghost use Rattle.hook_api.specs.Counts.{capped, Rose};
ghost use Rattle.hook_api.specs.Hooks.{HookCall, placed_answer, said_answer};
ghost use Rattle.space_model.specs.Span.{pages_end};
ghost use Rattle.addr_space.specs.Chunks.{FitNowhere, IsBlank, IsFreeSpan, IsLowestFit, IsOff, IsOn, IsPlacedSpan};
ghost use Rattle.addr_space.specs.Hooks.{placing_account};

use crate::chunks::{Chunks, END};
use hook_api::{ExtentHooks, Placed, Said};
use space_model::{Answer, Ask, CHUNK_PAGES, Span};
use std::alloc::{AllocError as NoMemory, Global};
use std::marker::Model;

/// An honest box over the pages of the space. It places a range in the lowest chunks that are free, committed and
/// zeroed, or at the page that is wished. It takes ranges back, accepts everything else, and tells nothing.
///
/// Only `new` takes memory: room for a number for each chunk.
#[derive(Drop)]
pub struct AddrSpace {
    chunks: Chunks,
    refusals: u64,
}

impl Model for AddrSpace {
    ghost use Rattle.addr_space.specs.Hooks.{Placing};

    ghost Value = { Placing };

    ghost view = { λ s. record { placed = s.chunks; refusals = s.refusals } };
}

/// Whether a span ends at the end of the space or before.
fn ends_inside(span: Span) -> bool
    ensures { IsTrue result ↔ (span.first + span.pages ≤ pages_end) }
{
    match span.first.checked_add(span.pages) {
        Some(end) => end <= END,
        None => false,
    }
}

impl AddrSpace {
    /// A box that has placed nothing.
    pub fn new(alloc: Global) -> Result<AddrSpace, NoMemory>
        ensures placed { IfOk result (λ space. IsBlank space.placed) }
        ensures refusals { IfOk result (λ space. space.refusals ≡ 0) }
    {
        Ok(AddrSpace {
            chunks: Chunks::new(alloc)?,
            refusals: 0,
        })
    }

    /// Counts a refusal.
    pub(crate) fn refuse(&mut self)
        ensures counted { self.new ≡ record self.old { refusals = capped (self.old.refusals + 1) } }
        ensures rose { Rose self.old.refusals self.new.refusals }
        ensures never_falls { self.old.refusals ≤ self.new.refusals }
    {
        self.refusals = self.refusals.saturating_add(1);
    }

    /// Whether each chunk has as many pages placed as the span has of it.
    fn has_placed(&self, span: Span) -> bool
        ensures { IsTrue result ↔ IsPlacedSpan self.now.placed span }
    {
        ends_inside(span) && self.chunks.has(span)
    }

    /// Where a range would go, if it has a place.
    fn place_for(&self, at: Option<u64>, pages: u64, align: u64) -> Option<u64>
        ensures lowest { at ≡ None → IfSome result (IsLowestFit self.now.placed pages (max align 1)) }
        ensures none { at ≡ None → IfNone result (FitNowhere self.now.placed pages (max align 1)) }
        ensures wished { (first : ℕ) → at ≡ Some first → SomeIff result (IsFreeSpan self.now.placed (record { first = first; pages = pages })) first }
        ensures free { IfSome result (λ first. IsFreeSpan self.now.placed (record { first = first; pages = pages })) }
    {
        let Some(first) = at else {
            return Some(CHUNK_PAGES * self.chunks.lowest(pages, align.max(1))?);
        };
        let end = first.checked_add(pages)?;
        if end <= END && self.chunks.is_free(Span { first, pages }) {
            Some(first)
        } else {
            None
        }
    }
}

impl ExtentHooks for AddrSpace {
    ghost account = { placing_account };

    fn alloc(&mut self, at: Option<u64>, pages: u64, align: u64, _commit: bool) -> Option<Placed>
        ensures hook { HookCall (placing_account self.old) (Ask.Alloc _commit at pages align) (placed_answer result) (placing_account self.new) }
        ensures lowest { at ≡ None → IfSome result (λ placed. IsLowestFit self.old.placed pages (max align 1) placed.first) }
        ensures nowhere { at ≡ None → IfNone result (FitNowhere self.old.placed pages (max align 1)) }
        ensures wished { (first : ℕ) → at ≡ Some first → IsSome result ↔ IsFreeSpan self.old.placed (record { first = first; pages = pages }) }
        ensures there { (first : ℕ) → at ≡ Some first → IfSome result (λ placed. placed.first ≡ first) }
        ensures blank { IfSome result (λ placed. (placed.committed ≡ true) × (placed.zeroed ≡ true)) }
        ensures placed { IfSome result (λ placed. IsOn self.old.placed (record { first = placed.first; pages = pages }) self.new.placed × (self.new.refusals ≡ self.old.refusals)) }
        ensures counted { IfNone result (self.new ≡ record self.old { refusals = capped (self.old.refusals + 1) }) }
    {
        let Some(first) = self.place_for(at, pages, align) else {
            self.refuse();
            return None;
        };
        self.chunks.place(Span { first, pages });
        Some(Placed {
            first,
            committed: true,
            zeroed: true,
        })
    }

    fn dalloc(&mut self, span: Span, committed: bool) -> Said
        ensures hook { HookCall (placing_account self.old) (Ask.Dalloc span committed) (said_answer result) (placing_account self.new) }
        ensures accepts { (result ≡ Said.Done) ↔ IsPlacedSpan self.old.placed span }
        ensures off { result ≡ Said.Done → IsOff self.old.placed span self.new.placed × (self.new.refusals ≡ self.old.refusals) }
        ensures counted { result ≡ Said.Refused → self.new ≡ record self.old { refusals = capped (self.old.refusals + 1) } }
    {
        if self.has_placed(span) {
            self.chunks.take_off(span);
            Said::Done
        } else {
            self.refuse();
            Said::Refused
        }
    }

    fn destroy(&mut self, span: Span, _committed: bool)
        ensures hook { HookCall (placing_account self.old) (Ask.Destroy span _committed) Answer.Done (placing_account self.new) }
        ensures off { IsOff self.old.placed span self.new.placed }
        ensures refusals { self.new.refusals ≡ self.old.refusals }
    {
        self.chunks.take_off(span);
    }

    fn commit(&mut self, _span: Span) -> Said
        ensures hook { HookCall (placing_account self.old) (Ask.Commit _span) (said_answer result) (placing_account self.new) }
        ensures accepts { result ≡ Said.Done }
        ensures same { self.new ≡ self.old }
    {
        Said::Done
    }

    fn decommit(&mut self, _span: Span) -> Said
        ensures hook { HookCall (placing_account self.old) (Ask.Decommit _span) (said_answer result) (placing_account self.new) }
        ensures accepts { result ≡ Said.Done }
        ensures same { self.new ≡ self.old }
    {
        Said::Done
    }

    fn purge_lazy(&mut self, _span: Span) -> Said
        ensures hook { HookCall (placing_account self.old) (Ask.PurgeLazy _span) (said_answer result) (placing_account self.new) }
        ensures accepts { result ≡ Said.Done }
        ensures same { self.new ≡ self.old }
    {
        Said::Done
    }

    fn purge_forced(&mut self, _span: Span) -> Said
        ensures hook { HookCall (placing_account self.old) (Ask.PurgeForced _span) (said_answer result) (placing_account self.new) }
        ensures accepts { result ≡ Said.Done }
        ensures same { self.new ≡ self.old }
    {
        Said::Done
    }

    fn split(&mut self, _span: Span, _left: u64) -> Said
        ensures hook { HookCall (placing_account self.old) (Ask.Split _span _left) (said_answer result) (placing_account self.new) }
        ensures accepts { result ≡ Said.Done }
        ensures same { self.new ≡ self.old }
    {
        Said::Done
    }

    fn merge(&mut self, _low: Span, _high: Span) -> Said
        ensures hook { HookCall (placing_account self.old) (Ask.Merge _low _high) (said_answer result) (placing_account self.new) }
        ensures accepts { result ≡ Said.Done }
        ensures same { self.new ≡ self.old }
    {
        Said::Done
    }

    fn refusals(&self) -> u64 {
        self.refusals
    }
}
