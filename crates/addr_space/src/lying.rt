//! Hooks that answer what they are given.

ghost use Rattle.std.specs.Prelude.{◌≡◌};
ghost use Rattle.hook_api.specs.Hooks.{HookCall, placed_answer, said_answer};
ghost use Rattle.addr_space.specs.Lies.{Always, Listed, after_lie, lying_account, next_lie};

use hook_api::{ExtentHooks, Placed, Said};
use space_model::{Answer, Ask, Seq, Span};
use std::collections::VecDeque;
use std::marker::Model;

/// Ranges that hooks place, in order.
pub type Places = Seq<Placed>;

/// What the allocs to come are answered.
#[derive(Drop)]
enum Lies {
    /// This range, each of them.
    Always(Placed),
    /// These ranges, one behind the other.
    Listed(VecDeque<Placed>),
}

/// Hooks that answer each alloc by a range that they were given, whatever is asked, and accept everything else. They tell
/// nothing, and refuse only an alloc for which no range is left.
#[derive(Drop)]
pub struct LyingHooks {
    lies: Lies,
    refusals: u64,
}

impl Model for LyingHooks {
    ghost use Rattle.addr_space.specs.Lies.{Lying, lies_of};

    ghost Value = { Lying };

    ghost view = { λ h. record { lies = lies_of h.lies; refusals = h.refusals } };
}

impl LyingHooks {
    /// Hooks that place this range, over and over. They never refuse.
    pub fn new(placed: Placed) -> LyingHooks
        ensures { result ≡ record { lies = Always placed; refusals = 0 } }
    {
        LyingHooks {
            lies: Lies::Always(placed),
            refusals: 0,
        }
    }

    /// Hooks that place these ranges, each once and in order, and refuse each alloc behind them.
    pub fn listed(places: Places) -> LyingHooks
        ensures { result ≡ record { lies = Listed places; refusals = 0 } }
    {
        LyingHooks {
            lies: Lies::Listed(VecDeque::from_vec(places.into_vec())),
            refusals: 0,
        }
    }
}

impl ExtentHooks for LyingHooks {
    ghost account = { lying_account };

    fn alloc(&mut self, _at: Option<u64>, _pages: u64, _align: u64, _commit: bool) -> Option<Placed>
        ensures hook { HookCall (lying_account self.old) (Ask.Alloc _commit _at _pages _align) (placed_answer result) (lying_account self.new) }
        ensures places { result ≡ next_lie self.old.lies }
        ensures after { self.new ≡ after_lie self.old }
    {
        let placed = match &mut self.lies {
            Lies::Always(placed) => Some(*placed),
            Lies::Listed(places) => places.pop_front(),
        };
        if placed.is_none() {
            self.refusals = self.refusals.saturating_add(1);
        }
        placed
    }

    fn dalloc(&mut self, _span: Span, _committed: bool) -> Said
        ensures hook { HookCall (lying_account self.old) (Ask.Dalloc _span _committed) (said_answer result) (lying_account self.new) }
        ensures accepts { result ≡ Said.Done }
        ensures same { self.new ≡ self.old }
    {
        Said::Done
    }

    fn destroy(&mut self, _span: Span, _committed: bool)
        ensures hook { HookCall (lying_account self.old) (Ask.Destroy _span _committed) Answer.Done (lying_account self.new) }
        ensures same { self.new ≡ self.old }
    {}

    fn commit(&mut self, _span: Span) -> Said
        ensures hook { HookCall (lying_account self.old) (Ask.Commit _span) (said_answer result) (lying_account self.new) }
        ensures accepts { result ≡ Said.Done }
        ensures same { self.new ≡ self.old }
    {
        Said::Done
    }

    fn decommit(&mut self, _span: Span) -> Said
        ensures hook { HookCall (lying_account self.old) (Ask.Decommit _span) (said_answer result) (lying_account self.new) }
        ensures accepts { result ≡ Said.Done }
        ensures same { self.new ≡ self.old }
    {
        Said::Done
    }

    fn purge_lazy(&mut self, _span: Span) -> Said
        ensures hook { HookCall (lying_account self.old) (Ask.PurgeLazy _span) (said_answer result) (lying_account self.new) }
        ensures accepts { result ≡ Said.Done }
        ensures same { self.new ≡ self.old }
    {
        Said::Done
    }

    fn purge_forced(&mut self, _span: Span) -> Said
        ensures hook { HookCall (lying_account self.old) (Ask.PurgeForced _span) (said_answer result) (lying_account self.new) }
        ensures accepts { result ≡ Said.Done }
        ensures same { self.new ≡ self.old }
    {
        Said::Done
    }

    fn split(&mut self, _span: Span, _left: u64) -> Said
        ensures hook { HookCall (lying_account self.old) (Ask.Split _span _left) (said_answer result) (lying_account self.new) }
        ensures accepts { result ≡ Said.Done }
        ensures same { self.new ≡ self.old }
    {
        Said::Done
    }

    fn merge(&mut self, _low: Span, _high: Span) -> Said
        ensures hook { HookCall (lying_account self.old) (Ask.Merge _low _high) (said_answer result) (lying_account self.new) }
        ensures accepts { result ≡ Said.Done }
        ensures same { self.new ≡ self.old }
    {
        Said::Done
    }

    fn refusals(&self) -> u64
        ensures { result ≡ self.now.refusals }
    {
        self.refusals
    }
}
