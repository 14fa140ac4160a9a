//! A box behind rules.

ghost use Rattle.std.specs.Prelude.{◌≡◌, ◌+◌, ◌≤◌, false, true, IfSome, IsTrue, None};
ghost use Rattle.hook_api.specs.Counts.{capped, Rose};
ghost use Rattle.hook_api.specs.Hooks.{HookCall, placed_answer, said_answer};
ghost use Rattle.ruled_hooks.specs.Ruled.{is_due, ruled_account};
ghost use Rattle.ruled_hooks.specs.Rules.{may_merge_at};

use crate::rules::{KINDS, Rules, place_of};
use hook_api::{ExtentHooks, Kind, Placed, Said};
use space_model::{Answer, Ask, Span};

/// Hooks that follow rules, and pass on to other hooks what no rule refuses. They tell nothing.
///
/// Asks of a kind are counted as they reach the box, from 1 on: what a plan of the shelf refuses doesn't.
#[derive(Drop)]
pub struct RuledHooks<H: ExtentHooks> {
    inner: H,
    rules: Rules,
    asks: [u64; KINDS],
    out: u64,
    refusals: u64,
}

impl<H: ExtentHooks> RuledHooks<H> {
    /// These hooks behind rules. Nothing is out, and nothing was refused.
    pub fn new(inner: H, rules: Rules) -> RuledHooks<H>
        ensures rules { result.rules ≡ rules }
        ensures unused { (result.out ≡ 0) × (result.refusals ≡ 0) }
    {
        RuledHooks {
            inner,
            rules,
            asks: [0; KINDS],
            out: 0,
            refusals: 0,
        }
    }

    /// Counts an ask of a kind, and tells whether a rule refuses it.
    fn is_due(&mut self, kind: Kind) -> bool
        ensures due { result ≡ is_due self.old.rules self.old.asks kind }
        ensures rules { self.new.rules ≡ self.old.rules }
        ensures out { self.new.out ≡ self.old.out }
        ensures refusals { self.new.refusals ≡ self.old.refusals }
    {
        let place = place_of(kind);
        let count = self.asks[place].wrapping_add(1);
        self.asks[place] = count;
        self.rules.refuses(kind, count)
    }

    /// Counts a refusal.
    fn refuse(&mut self) -> Said
        ensures refused { result ≡ Said.Refused }
        ensures rose { Rose self.old.refusals self.new.refusals }
        ensures never_falls { self.old.refusals ≤ self.new.refusals }
        ensures rules { self.new.rules ≡ self.old.rules }
        ensures out { self.new.out ≡ self.old.out }
    {
        self.refusals = self.refusals.saturating_add(1);
        Said::Refused
    }

    /// What the hooks behind said, counted where they refuse.
    fn hear(&mut self, said: Said) -> Said
        ensures same { result ≡ said }
        ensures rules { self.new.rules ≡ self.old.rules }
        ensures rose { said ≡ Said.Refused → Rose self.old.refusals self.new.refusals }
        ensures never_falls { self.old.refusals ≤ self.new.refusals }
    {
        match said {
            Said::Refused => self.refuse(),
            Said::Done => Said::Done,
        }
    }

    /// Whether an alloc of so many pages stays within the pool.
    fn has_room(&self, pages: u64) -> bool
        ensures { IsTrue result → self.now.out + pages ≤ self.now.rules.pool }
    {
        self.out <= self.rules.pool && pages <= self.rules.pool - self.out
    }

    /// The first page of a wrong answer, where this alloc gets one.
    fn wrong_place(&self) -> Option<u64> {
        let count = self.asks[place_of(Kind::Alloc)];
        if self.rules.wrong != 0 && count == self.rules.wrong {
            Some(self.rules.wrong_first)
        } else {
            None
        }
    }

    /// So many pages are out no more.
    fn take_back(&mut self, span: Span)
        ensures rules { self.new.rules ≡ self.old.rules }
        ensures refusals { self.new.refusals ≡ self.old.refusals }
    {
        self.out = self.out.saturating_sub(span.pages);
    }

    /// A range of the hooks behind, where they have one, or a wrong one.
    fn place(&mut self, at: Option<u64>, pages: u64, align: u64, commit: bool) -> Option<Placed>
        ensures rules { self.new.rules ≡ self.old.rules }
        ensures refusals { self.new.refusals ≡ self.old.refusals }
    {
        if let Some(first) = self.wrong_place() {
            return Some(Placed {
                first,
                committed: true,
                zeroed: true,
            });
        }
        let placed = self.inner.alloc(at, pages, align, commit)?;
        self.out = self.out.saturating_add(pages);
        Some(placed)
    }
}

impl<H: ExtentHooks> ExtentHooks for RuledHooks<H> {
    ghost account = { λ h. ruled_account h.refusals };

    fn alloc(&mut self, at: Option<u64>, pages: u64, align: u64, commit: bool) -> Option<Placed>
        ensures hook { HookCall (ruled_account self.old.refusals) (Ask.Alloc commit at pages align) (placed_answer result) (ruled_account self.new.refusals) }
        ensures rules { self.new.rules ≡ self.old.rules }
        ensures due { is_due self.old.rules self.old.asks Kind.Alloc ≡ true → result ≡ None }
        ensures pool { IfSome result (λ _. self.old.out + pages ≤ self.old.rules.pool) }
        ensures uncommitted { self.old.rules.uncommitted ≡ true → IfSome result (λ placed. placed.committed ≡ false) }
    {
        if self.is_due(Kind::Alloc) || !self.has_room(pages) {
            self.refuse();
            return None;
        }
        let Some(placed) = self.place(at, pages, align, commit) else {
            self.refuse();
            return None;
        };
        Some(Placed {
            committed: placed.committed && !self.rules.uncommitted,
            ..placed
        })
    }

    fn dalloc(&mut self, span: Span, committed: bool) -> Said
        ensures hook { HookCall (ruled_account self.old.refusals) (Ask.Dalloc span committed) (said_answer result) (ruled_account self.new.refusals) }
        ensures rules { self.new.rules ≡ self.old.rules }
        ensures due { is_due self.old.rules self.old.asks Kind.Dalloc ≡ true → result ≡ Said.Refused }
    {
        if self.is_due(Kind::Dalloc) {
            return self.refuse();
        }
        let said = self.inner.dalloc(span, committed);
        if said == Said::Done {
            self.take_back(span);
        }
        self.hear(said)
    }

    fn destroy(&mut self, span: Span, committed: bool)
        ensures hook { HookCall (ruled_account self.old.refusals) (Ask.Destroy span committed) Answer.Done (ruled_account self.new.refusals) }
        ensures rules { self.new.rules ≡ self.old.rules }
    {
        self.take_back(span);
        self.inner.destroy(span, committed);
    }

    fn commit(&mut self, span: Span) -> Said
        ensures hook { HookCall (ruled_account self.old.refusals) (Ask.Commit span) (said_answer result) (ruled_account self.new.refusals) }
        ensures rules { self.new.rules ≡ self.old.rules }
        ensures due { is_due self.old.rules self.old.asks Kind.Commit ≡ true → result ≡ Said.Refused }
    {
        if self.is_due(Kind::Commit) {
            return self.refuse();
        }
        let said = self.inner.commit(span);
        self.hear(said)
    }

    fn decommit(&mut self, span: Span) -> Said
        ensures hook { HookCall (ruled_account self.old.refusals) (Ask.Decommit span) (said_answer result) (ruled_account self.new.refusals) }
        ensures rules { self.new.rules ≡ self.old.rules }
        ensures due { is_due self.old.rules self.old.asks Kind.Decommit ≡ true → result ≡ Said.Refused }
    {
        if self.is_due(Kind::Decommit) {
            return self.refuse();
        }
        let said = self.inner.decommit(span);
        self.hear(said)
    }

    fn purge_lazy(&mut self, span: Span) -> Said
        ensures hook { HookCall (ruled_account self.old.refusals) (Ask.PurgeLazy span) (said_answer result) (ruled_account self.new.refusals) }
        ensures rules { self.new.rules ≡ self.old.rules }
        ensures due { is_due self.old.rules self.old.asks Kind.PurgeLazy ≡ true → result ≡ Said.Refused }
    {
        if self.is_due(Kind::PurgeLazy) {
            return self.refuse();
        }
        let said = self.inner.purge_lazy(span);
        self.hear(said)
    }

    fn purge_forced(&mut self, span: Span) -> Said
        ensures hook { HookCall (ruled_account self.old.refusals) (Ask.PurgeForced span) (said_answer result) (ruled_account self.new.refusals) }
        ensures rules { self.new.rules ≡ self.old.rules }
        ensures due { is_due self.old.rules self.old.asks Kind.PurgeForced ≡ true → result ≡ Said.Refused }
    {
        if self.is_due(Kind::PurgeForced) {
            return self.refuse();
        }
        let said = self.inner.purge_forced(span);
        self.hear(said)
    }

    fn split(&mut self, span: Span, left: u64) -> Said
        ensures hook { HookCall (ruled_account self.old.refusals) (Ask.Split span left) (said_answer result) (ruled_account self.new.refusals) }
        ensures rules { self.new.rules ≡ self.old.rules }
        ensures due { is_due self.old.rules self.old.asks Kind.Split ≡ true → result ≡ Said.Refused }
    {
        if self.is_due(Kind::Split) {
            return self.refuse();
        }
        let said = self.inner.split(span, left);
        self.hear(said)
    }

    fn merge(&mut self, low: Span, high: Span) -> Said
        ensures hook { HookCall (ruled_account self.old.refusals) (Ask.Merge low high) (said_answer result) (ruled_account self.new.refusals) }
        ensures rules { self.new.rules ≡ self.old.rules }
        ensures due { is_due self.old.rules self.old.asks Kind.Merge ≡ true → result ≡ Said.Refused }
        ensures border { result ≡ Said.Done → may_merge_at self.old.rules high.first ≡ true }
    {
        if self.is_due(Kind::Merge) || !self.rules.may_merge_at(high.first) {
            return self.refuse();
        }
        let said = self.inner.merge(low, high);
        self.hear(said)
    }

    fn refusals(&self) -> u64
        ensures { result ≡ self.now.refusals }
    {
        self.refusals
    }
}
