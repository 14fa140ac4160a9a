//! Hooks that hand out ever higher chunks.

ghost use Rattle.std.specs.Prelude.{◌≡◌, ◌+◌, ◌≤◌, ◌↔◌, IsSome, IfSome, IfNone, true, SomeIff};
ghost use Rattle.hook_api.specs.Counts.{capped, Rose};
ghost use Rattle.hook_api.specs.Hooks.{HookCall, placed_answer, said_answer};
ghost use Rattle.hook_api.specs.Rising.{rising_account, rising_place, InChunks};

use crate::hooks::{ExtentHooks, Placed, Said};
use space_model::{Answer, Ask, CHUNK_PAGES, CHUNKS, Span};
use std::marker::Model;

/// The first page above the last chunk.
const END: u64 = (CHUNKS + 1) * CHUNK_PAGES;

/// Hooks that place each range behind the one before, committed and zeroed, from chunk 1 on, whatever place is wished.
/// They opt out of every dalloc, accept everything else, and tell nothing.
#[derive(Drop)]
pub struct RisingHooks {
    next: u64,
    refusals: u64,
}

impl Model for RisingHooks {
    ghost use Rattle.hook_api.specs.Rising.{RisingFacts};

    ghost Value = { RisingFacts };

    ghost view = { λ h. record { next = h.next; refusals = h.refusals } };
}

impl RisingHooks {
    /// Hooks that have handed out nothing.
    pub fn new() -> RisingHooks
        ensures { result ≡ record { next = CHUNK_PAGES; refusals = 0 } }
    {
        RisingHooks {
            next: CHUNK_PAGES,
            refusals: 0,
        }
    }

    /// Where a range would go.
    fn place(&self, pages: u64, align: u64) -> Option<u64>
        ensures { SomeIff result (InChunks (rising_place self.now.next align) pages) (rising_place self.now.next align) }
    {
        let first = self.next.checked_next_multiple_of(align.max(CHUNK_PAGES))?;
        let end = first.checked_add(pages)?;
        if end <= END { Some(first) } else { None }
    }

    /// Counts a refusal.
    fn refuse(&mut self)
        ensures counted { self.new ≡ record self.old { refusals = capped (self.old.refusals + 1) } }
        ensures rose { Rose self.old.refusals self.new.refusals }
        ensures never_falls { self.old.refusals ≤ self.new.refusals }
    {
        self.refusals = self.refusals.saturating_add(1);
    }
}

impl ExtentHooks for RisingHooks {
    ghost account = { rising_account };

    fn alloc(&mut self, _at: Option<u64>, pages: u64, align: u64, _commit: bool) -> Option<Placed>
        ensures hook { HookCall (rising_account self.old) (Ask.Alloc _commit _at pages align) (placed_answer result) (rising_account self.new) }
        ensures room { IsSome result ↔ InChunks (rising_place self.old.next align) pages }
        ensures place { IfSome result (λ placed. placed ≡ record { first = rising_place self.old.next align; committed = true; zeroed = true }) }
        ensures next { IfSome result (λ placed. self.new ≡ record self.old { next = placed.first + pages }) }
        ensures counted { IfNone result (self.new ≡ record self.old { refusals = capped (self.old.refusals + 1) }) }
    {
        let Some(first) = self.place(pages, align) else {
            self.refuse();
            return None;
        };
        self.next = first + pages;
        Some(Placed {
            first,
            committed: true,
            zeroed: true,
        })
    }

    fn dalloc(&mut self, span: Span, committed: bool) -> Said
        ensures hook { HookCall (rising_account self.old) (Ask.Dalloc span committed) (said_answer result) (rising_account self.new) }
        ensures opts_out { result ≡ Said.Refused }
        ensures counted { self.new ≡ record self.old { refusals = capped (self.old.refusals + 1) } }
    {
        self.refuse();
        Said::Refused
    }

    fn destroy(&mut self, _span: Span, _committed: bool)
        ensures hook { HookCall (rising_account self.old) (Ask.Destroy _span _committed) Answer.Done (rising_account self.new) }
        ensures same { self.new ≡ self.old }
    {}

    fn commit(&mut self, _span: Span) -> Said
        ensures hook { HookCall (rising_account self.old) (Ask.Commit _span) (said_answer result) (rising_account self.new) }
        ensures accepts { result ≡ Said.Done }
        ensures same { self.new ≡ self.old }
    {
        Said::Done
    }

    fn decommit(&mut self, _span: Span) -> Said
        ensures hook { HookCall (rising_account self.old) (Ask.Decommit _span) (said_answer result) (rising_account self.new) }
        ensures accepts { result ≡ Said.Done }
        ensures same { self.new ≡ self.old }
    {
        Said::Done
    }

    fn purge_lazy(&mut self, _span: Span) -> Said
        ensures hook { HookCall (rising_account self.old) (Ask.PurgeLazy _span) (said_answer result) (rising_account self.new) }
        ensures accepts { result ≡ Said.Done }
        ensures same { self.new ≡ self.old }
    {
        Said::Done
    }

    fn purge_forced(&mut self, _span: Span) -> Said
        ensures hook { HookCall (rising_account self.old) (Ask.PurgeForced _span) (said_answer result) (rising_account self.new) }
        ensures accepts { result ≡ Said.Done }
        ensures same { self.new ≡ self.old }
    {
        Said::Done
    }

    fn split(&mut self, _span: Span, _left: u64) -> Said
        ensures hook { HookCall (rising_account self.old) (Ask.Split _span _left) (said_answer result) (rising_account self.new) }
        ensures accepts { result ≡ Said.Done }
        ensures same { self.new ≡ self.old }
    {
        Said::Done
    }

    fn merge(&mut self, _low: Span, _high: Span) -> Said
        ensures hook { HookCall (rising_account self.old) (Ask.Merge _low _high) (said_answer result) (rising_account self.new) }
        ensures accepts { result ≡ Said.Done }
        ensures same { self.new ≡ self.old }
    {
        Said::Done
    }

    fn refusals(&self) -> u64 {
        self.refusals
    }
}
