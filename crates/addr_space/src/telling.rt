//! A box that tells what it was asked.

ghost use Rattle.std.specs.Prelude.{◌≡◌, ◌+◌, ◌<◌, ◌≤◌, ◌↔◌, ℕ, [], true, max, None, Some, IsSome, IfOk, IfSome, IfNone};
ghost use Rattle.hook_api.specs.Hooks.{HookCall, placed_answer, said_answer};
ghost use Rattle.space_model.specs.Span.{pages_end};
ghost use Rattle.addr_space.specs.Chunks.{FitNowhere, IsFreeSpan, IsLowestFit, IsOff, IsOn, IsPlacedSpan};
ghost use Rattle.addr_space.specs.Telling.{ToldOne, telling_account, told_after};

use crate::space::AddrSpace;
use hook_api::{ExtentHooks, Placed, Said, heard_placed, heard_said};
use space_model::{Answer, Ask, Heard, Span};
use std::alloc::{AllocError as NoMemory, Global};
use std::marker::Model;

/// The honest box, which tells its asks with their answers as long as they are at most so many. From the next one on
/// it tells nothing. Only contracts see what it tells.
#[derive(Drop)]
pub struct TellingHooks {
    inner: AddrSpace,
    heard: Vec<Heard>,
    tells: bool,
    room: u64,
}

impl Model for TellingHooks {
    ghost use Rattle.addr_space.specs.Telling.{Told, shown, IsRoomy};

    ghost Value = { Told };

    ghost view = { λ h. shown h };

    ghost invariant = { λ h. IsRoomy h };
}

impl TellingHooks {
    /// Hooks that tell at most `room` asks, for which they take memory now.
    pub fn new(alloc: Global, inner: AddrSpace, room: u64) -> Result<TellingHooks, NoMemory>
        ensures { IfOk result (λ hooks. hooks ≡ record { inner = inner; heard = []; tells = true; room = room }) }
    {
        Ok(TellingHooks {
            inner,
            heard: Vec::with_capacity(alloc, room as usize)?,
            tells: true,
            room,
        })
    }

    /// Notes an ask and its answer, if there is room for it.
    fn note(&mut self, ask: Ask, answer: Answer)
        ensures { self.new ≡ told_after self.old (record { ask = ask; answer = answer }) }
    {
        if (self.heard.len() as u64) < self.room && self.tells {
            self.heard.push_reserved(Heard { ask, answer });
        } else {
            self.tells = false;
        }
    }

    /// Notes an ask that hands nothing out, and gives its answer.
    fn said(&mut self, ask: Ask, said: Said) -> Said
        ensures same { result ≡ said }
        ensures noted { self.new ≡ told_after self.old (record { ask = ask; answer = said_answer said }) }
    {
        self.note(ask, heard_said(said));
        said
    }
}

impl ExtentHooks for TellingHooks {
    ghost account = { telling_account };

    fn alloc(&mut self, at: Option<u64>, pages: u64, align: u64, commit: bool) -> Option<Placed>
        ensures hook { HookCall (telling_account self.old) (Ask.Alloc commit at pages align) (placed_answer result) (telling_account self.new) }
        ensures told { ToldOne self.old (record { ask = Ask.Alloc commit at pages align; answer = placed_answer result }) self.new }
        ensures lowest { at ≡ None → IfSome result (λ placed. IsLowestFit self.old.inner.placed pages (max align 1) placed.first) }
        ensures nowhere { at ≡ None → IfNone result (FitNowhere self.old.inner.placed pages (max align 1)) }
        ensures wished { (first : ℕ) → at ≡ Some first → IsSome result ↔ IsFreeSpan self.old.inner.placed (record { first = first; pages = pages }) }
        ensures blank { IfSome result (λ placed. (placed.committed ≡ true) × (placed.zeroed ≡ true)) }
        ensures placed { IfSome result (λ placed. IsOn self.old.inner.placed (record { first = placed.first; pages = pages }) self.new.inner.placed) }
        ensures stays { IfNone result (self.new.inner.placed ≡ self.old.inner.placed) }
    {
        let placed = self.inner.alloc(at, pages, align, commit);
        self.note(
            Ask::Alloc {
                at,
                pages,
                align,
                commit,
            },
            heard_placed(placed),
        );
        placed
    }

    fn dalloc(&mut self, span: Span, committed: bool) -> Said
        ensures hook { HookCall (telling_account self.old) (Ask.Dalloc span committed) (said_answer result) (telling_account self.new) }
        ensures told { ToldOne self.old (record { ask = Ask.Dalloc span committed; answer = said_answer result }) self.new }
        ensures accepts { (result ≡ Said.Done) ↔ IsPlacedSpan self.old.inner.placed span }
        ensures off { result ≡ Said.Done → IsOff self.old.inner.placed span self.new.inner.placed }
        ensures stays { result ≡ Said.Refused → self.new.inner.placed ≡ self.old.inner.placed }
    {
        let said = self.inner.dalloc(span, committed);
        self.said(Ask::Dalloc { span, committed }, said)
    }

    fn destroy(&mut self, span: Span, committed: bool)
        ensures hook { HookCall (telling_account self.old) (Ask.Destroy span committed) Answer.Done (telling_account self.new) }
        ensures told { ToldOne self.old (record { ask = Ask.Destroy span committed; answer = Answer.Done }) self.new }
        ensures off { IsOff self.old.inner.placed span self.new.inner.placed }
    {
        self.inner.destroy(span, committed);
        self.note(Ask::Destroy { span, committed }, Answer::Done);
    }

    fn commit(&mut self, span: Span) -> Said
        ensures hook { HookCall (telling_account self.old) (Ask.Commit span) (said_answer result) (telling_account self.new) }
        ensures told { ToldOne self.old (record { ask = Ask.Commit span; answer = said_answer result }) self.new }
        ensures accepts { result ≡ Said.Done }
        ensures same { self.new.inner ≡ self.old.inner }
    {
        let said = self.inner.commit(span);
        self.said(Ask::Commit(span), said)
    }

    fn decommit(&mut self, span: Span) -> Said
        ensures hook { HookCall (telling_account self.old) (Ask.Decommit span) (said_answer result) (telling_account self.new) }
        ensures told { ToldOne self.old (record { ask = Ask.Decommit span; answer = said_answer result }) self.new }
        ensures accepts { result ≡ Said.Done }
        ensures same { self.new.inner ≡ self.old.inner }
    {
        let said = self.inner.decommit(span);
        self.said(Ask::Decommit(span), said)
    }

    fn purge_lazy(&mut self, span: Span) -> Said
        ensures hook { HookCall (telling_account self.old) (Ask.PurgeLazy span) (said_answer result) (telling_account self.new) }
        ensures told { ToldOne self.old (record { ask = Ask.PurgeLazy span; answer = said_answer result }) self.new }
        ensures accepts { result ≡ Said.Done }
        ensures same { self.new.inner ≡ self.old.inner }
    {
        let said = self.inner.purge_lazy(span);
        self.said(Ask::PurgeLazy(span), said)
    }

    fn purge_forced(&mut self, span: Span) -> Said
        ensures hook { HookCall (telling_account self.old) (Ask.PurgeForced span) (said_answer result) (telling_account self.new) }
        ensures told { ToldOne self.old (record { ask = Ask.PurgeForced span; answer = said_answer result }) self.new }
        ensures accepts { result ≡ Said.Done }
        ensures same { self.new.inner ≡ self.old.inner }
    {
        let said = self.inner.purge_forced(span);
        self.said(Ask::PurgeForced(span), said)
    }

    fn split(&mut self, span: Span, left: u64) -> Said
        ensures hook { HookCall (telling_account self.old) (Ask.Split span left) (said_answer result) (telling_account self.new) }
        ensures told { ToldOne self.old (record { ask = Ask.Split span left; answer = said_answer result }) self.new }
        ensures accepts { result ≡ Said.Done }
        ensures same { self.new.inner ≡ self.old.inner }
    {
        let said = self.inner.split(span, left);
        self.said(Ask::Split { span, left }, said)
    }

    fn merge(&mut self, low: Span, high: Span) -> Said
        ensures hook { HookCall (telling_account self.old) (Ask.Merge low high) (said_answer result) (telling_account self.new) }
        ensures told { ToldOne self.old (record { ask = Ask.Merge low high; answer = said_answer result }) self.new }
        ensures accepts { result ≡ Said.Done }
        ensures same { self.new.inner ≡ self.old.inner }
    {
        let said = self.inner.merge(low, high);
        self.said(Ask::Merge { low, high }, said)
    }

    fn refusals(&self) -> u64 {
        self.inner.refusals()
    }
}
