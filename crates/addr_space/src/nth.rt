//! A box of which one call is refused.

ghost use Rattle.std.specs.Prelude.{◌≡◌, ℕ, ◌+◌, ◌-◌, ◌≤◌, ◌↔◌, max, Some, None, true, IsSome, IfSome, IfNone, IsTrue};
ghost use Rattle.hook_api.specs.Counts.{Rose};
ghost use Rattle.hook_api.specs.Hooks.{HookCall, placed_answer, said_answer};
ghost use Rattle.addr_space.specs.Chunks.{FitNowhere, IsFreeSpan, IsLowestFit, IsOff, IsOn, IsPlacedSpan};
ghost use Rattle.addr_space.specs.Nth.{PassesNow, RefusesNow, nth_account, refused_once};

use crate::space::AddrSpace;
use hook_api::{ExtentHooks, Placed, Said};
use space_model::{Answer, Ask, Span};
use std::marker::Model;

/// The honest box, one of whose calls is refused, whatever it asks. It refuses besides just what the box behind refuses.
///
/// The calls of all hooks but destroy are counted, from 1 on. The box behind hears nothing of the call that is refused.
#[derive(Drop)]
pub struct NthHooks {
    inner: AddrSpace,
    nth: u64,
}

impl Model for NthHooks {
    ghost use Rattle.addr_space.specs.Nth.{Nth};

    ghost Value = { Nth };

    ghost view = { λ h. record { inner = h.inner; nth = h.nth } };
}

impl NthHooks {
    /// This box, whose `nth` call from now on is refused; none is where `nth` is 0.
    pub fn new(inner: AddrSpace, nth: u64) -> NthHooks
        ensures { result ≡ record { inner = inner; nth = nth } }
    {
        NthHooks { inner, nth }
    }

    /// Counts a call, and tells whether it is the one that is refused. That is counted as a refusal of the box behind.
    fn refuses(&mut self) -> bool
        ensures now { IsTrue result ↔ RefusesNow self.old }
        ensures refused { RefusesNow self.old → self.new.inner ≡ refused_once self.old.inner }
        ensures passed { PassesNow self.old → self.new.inner ≡ self.old.inner }
        ensures rose { RefusesNow self.old → Rose self.old.inner.refusals self.new.inner.refusals }
        ensures never_falls { self.old.inner.refusals ≤ self.new.inner.refusals }
        ensures next { self.new.nth ≡ self.old.nth - 1 }
    {
        let is_now = self.nth == 1;
        self.nth = self.nth.saturating_sub(1);
        if is_now {
            self.inner.refuse();
        }
        is_now
    }
}

impl ExtentHooks for NthHooks {
    ghost account = { nth_account };

    fn alloc(&mut self, at: Option<u64>, pages: u64, align: u64, commit: bool) -> Option<Placed>
        ensures hook { HookCall (nth_account self.old) (Ask.Alloc commit at pages align) (placed_answer result) (nth_account self.new) }
        ensures next { self.new.nth ≡ self.old.nth - 1 }
        ensures refused { RefusesNow self.old → result ≡ None }
        ensures lowest { at ≡ None → IfSome result (λ placed. IsLowestFit self.old.inner.placed pages (max align 1) placed.first) }
        ensures nowhere { PassesNow self.old → at ≡ None → IfNone result (FitNowhere self.old.inner.placed pages (max align 1)) }
        ensures wished { PassesNow self.old → (first : ℕ) → at ≡ Some first → IsSome result ↔ IsFreeSpan self.old.inner.placed (record { first = first; pages = pages }) }
        ensures there { (first : ℕ) → at ≡ Some first → IfSome result (λ placed. placed.first ≡ first) }
        ensures blank { IfSome result (λ placed. (placed.committed ≡ true) × (placed.zeroed ≡ true)) }
        ensures placed { IfSome result (λ placed. IsOn self.old.inner.placed (record { first = placed.first; pages = pages }) self.new.inner.placed × (self.new.inner.refusals ≡ self.old.inner.refusals)) }
        ensures counted { IfNone result (self.new.inner ≡ refused_once self.old.inner) }
    {
        if self.refuses() {
            return None;
        }
        self.inner.alloc(at, pages, align, commit)
    }

    fn dalloc(&mut self, span: Span, committed: bool) -> Said
        ensures hook { HookCall (nth_account self.old) (Ask.Dalloc span committed) (said_answer result) (nth_account self.new) }
        ensures next { self.new.nth ≡ self.old.nth - 1 }
        ensures refused { RefusesNow self.old → result ≡ Said.Refused }
        ensures accepts { PassesNow self.old → (result ≡ Said.Done) ↔ IsPlacedSpan self.old.inner.placed span }
        ensures off { result ≡ Said.Done → IsOff self.old.inner.placed span self.new.inner.placed × (self.new.inner.refusals ≡ self.old.inner.refusals) }
        ensures counted { result ≡ Said.Refused → self.new.inner ≡ refused_once self.old.inner }
    {
        if self.refuses() {
            return Said::Refused;
        }
        self.inner.dalloc(span, committed)
    }

    fn destroy(&mut self, span: Span, committed: bool)
        ensures hook { HookCall (nth_account self.old) (Ask.Destroy span committed) Answer.Done (nth_account self.new) }
        ensures uncounted { self.new.nth ≡ self.old.nth }
        ensures off { IsOff self.old.inner.placed span self.new.inner.placed }
        ensures refusals { self.new.inner.refusals ≡ self.old.inner.refusals }
    {
        self.inner.destroy(span, committed);
    }

    fn commit(&mut self, span: Span) -> Said
        ensures hook { HookCall (nth_account self.old) (Ask.Commit span) (said_answer result) (nth_account self.new) }
        ensures next { self.new.nth ≡ self.old.nth - 1 }
        ensures refused { (result ≡ Said.Refused) ↔ RefusesNow self.old }
        ensures counted { result ≡ Said.Refused → self.new.inner ≡ refused_once self.old.inner }
        ensures accepted { result ≡ Said.Done → self.new.inner ≡ self.old.inner }
    {
        if self.refuses() {
            return Said::Refused;
        }
        self.inner.commit(span)
    }

    fn decommit(&mut self, span: Span) -> Said
        ensures hook { HookCall (nth_account self.old) (Ask.Decommit span) (said_answer result) (nth_account self.new) }
        ensures next { self.new.nth ≡ self.old.nth - 1 }
        ensures refused { (result ≡ Said.Refused) ↔ RefusesNow self.old }
        ensures counted { result ≡ Said.Refused → self.new.inner ≡ refused_once self.old.inner }
        ensures accepted { result ≡ Said.Done → self.new.inner ≡ self.old.inner }
    {
        if self.refuses() {
            return Said::Refused;
        }
        self.inner.decommit(span)
    }

    fn purge_lazy(&mut self, span: Span) -> Said
        ensures hook { HookCall (nth_account self.old) (Ask.PurgeLazy span) (said_answer result) (nth_account self.new) }
        ensures next { self.new.nth ≡ self.old.nth - 1 }
        ensures refused { (result ≡ Said.Refused) ↔ RefusesNow self.old }
        ensures counted { result ≡ Said.Refused → self.new.inner ≡ refused_once self.old.inner }
        ensures accepted { result ≡ Said.Done → self.new.inner ≡ self.old.inner }
    {
        if self.refuses() {
            return Said::Refused;
        }
        self.inner.purge_lazy(span)
    }

    fn purge_forced(&mut self, span: Span) -> Said
        ensures hook { HookCall (nth_account self.old) (Ask.PurgeForced span) (said_answer result) (nth_account self.new) }
        ensures next { self.new.nth ≡ self.old.nth - 1 }
        ensures refused { (result ≡ Said.Refused) ↔ RefusesNow self.old }
        ensures counted { result ≡ Said.Refused → self.new.inner ≡ refused_once self.old.inner }
        ensures accepted { result ≡ Said.Done → self.new.inner ≡ self.old.inner }
    {
        if self.refuses() {
            return Said::Refused;
        }
        self.inner.purge_forced(span)
    }

    fn split(&mut self, span: Span, left: u64) -> Said
        ensures hook { HookCall (nth_account self.old) (Ask.Split span left) (said_answer result) (nth_account self.new) }
        ensures next { self.new.nth ≡ self.old.nth - 1 }
        ensures refused { (result ≡ Said.Refused) ↔ RefusesNow self.old }
        ensures counted { result ≡ Said.Refused → self.new.inner ≡ refused_once self.old.inner }
        ensures accepted { result ≡ Said.Done → self.new.inner ≡ self.old.inner }
    {
        if self.refuses() {
            return Said::Refused;
        }
        self.inner.split(span, left)
    }

    fn merge(&mut self, low: Span, high: Span) -> Said
        ensures hook { HookCall (nth_account self.old) (Ask.Merge low high) (said_answer result) (nth_account self.new) }
        ensures next { self.new.nth ≡ self.old.nth - 1 }
        ensures refused { (result ≡ Said.Refused) ↔ RefusesNow self.old }
        ensures counted { result ≡ Said.Refused → self.new.inner ≡ refused_once self.old.inner }
        ensures accepted { result ≡ Said.Done → self.new.inner ≡ self.old.inner }
    {
        if self.refuses() {
            return Said::Refused;
        }
        self.inner.merge(low, high)
    }

    fn refusals(&self) -> u64
        ensures { result ≡ self.now.inner.refusals }
    {
        self.inner.refusals()
    }
}
