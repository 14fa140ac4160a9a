//! The hooks of an arena (`extent_hooks_t` in the manual) as a trait.

ghost use Rattle.std.specs.Prelude.{◌≡◌};
ghost use Rattle.hook_api.specs.Hooks.{Account, HookCall, placed_answer, said_answer};

use space_model::{Answer, Ask, Span};

/// What a hook says that hands nothing out.
#[derive(Clone, Copy, Debug, PartialEq, Eq)]
pub enum Said {
    /// It is done.
    Done,
    /// The hook refuses. What that means stands at each hook.
    Refused,
}

/// A range that `alloc` hands out. Nothing says that it is free, aligned or of this world.
#[derive(Clone, Copy, Debug, PartialEq, Eq)]
pub struct Placed {
    /// The first page.
    pub first: u64,
    /// Whether the range is committed.
    pub committed: bool,
    /// Whether its bytes are zero.
    pub zeroed: bool,
}

/// The hooks of one box. Spans, sizes and alignments are in pages.
///
/// Contracts see the account of a box: what it has told, if it tells, and its count of refusals. Each hook may refuse
/// only where the count rises in this call, or stands at the greatest `u64`. Nothing else is promised of a box.
pub trait ExtentHooks: Drop {
    ghost account: { Self → Account };

    /// A new range of `pages` pages at a multiple of `align`, at page `at` if it is given. `None`: no range.
    fn alloc(&mut self, at: Option<u64>, pages: u64, align: u64, commit: bool) -> Option<Placed>
        ensures { HookCall (account self.old) (Ask.Alloc commit at pages align) (placed_answer result) (account self.new) };

    /// The range isn't needed any more. `Refused`: it stays mapped, and committed as it was.
    fn dalloc(&mut self, span: Span, committed: bool) -> Said
        ensures { HookCall (account self.old) (Ask.Dalloc span committed) (said_answer result) (account self.new) };

    /// The range goes with its arena. It is heard as done and counts nothing.
    fn destroy(&mut self, span: Span, committed: bool)
        ensures { HookCall (account self.old) (Ask.Destroy span committed) Answer.Done (account self.new) };

    /// Backs the range by memory. `Refused`: there isn't enough.
    fn commit(&mut self, span: Span) -> Said
        ensures { HookCall (account self.old) (Ask.Commit span) (said_answer result) (account self.new) };

    /// Takes the memory behind the range back. `Refused`: it stays committed.
    fn decommit(&mut self, span: Span) -> Said
        ensures { HookCall (account self.old) (Ask.Decommit span) (said_answer result) (account self.new) };

    /// The memory behind the range may go at any time. `Refused`: it isn't purged.
    fn purge_lazy(&mut self, span: Span) -> Said
        ensures { HookCall (account self.old) (Ask.PurgeLazy span) (said_answer result) (account self.new) };

    /// The memory behind the range goes now. `Refused`: it isn't purged.
    fn purge_forced(&mut self, span: Span) -> Said
        ensures { HookCall (account self.old) (Ask.PurgeForced span) (said_answer result) (account self.new) };

    /// The range is two from now on, the lower one of `left` pages. `Refused`: it stays whole.
    fn split(&mut self, span: Span, left: u64) -> Said
        ensures { HookCall (account self.old) (Ask.Split span left) (said_answer result) (account self.new) };

    /// Two ranges side by side are one from now on. `Refused`: they stay two.
    fn merge(&mut self, low: Span, high: Span) -> Said
        ensures { HookCall (account self.old) (Ask.Merge low high) (said_answer result) (account self.new) };

    /// The count of refusals. It is no hook and takes no memory.
    fn refusals(&self) -> u64
        ensures { result ≡ (account self.now).refusals };
}

/// What `alloc` gave, as an answer.
pub fn heard_placed(placed: Option<Placed>) -> Answer
    ensures { result ≡ placed_answer placed }
{
    match placed {
        None => Answer::Refused,
        Some(
            Placed {
                first,
                committed,
                zeroed,
            },
        ) => Answer::Placed {
            first,
            committed,
            zeroed,
        },
    }
}

/// What another hook said, as an answer.
pub fn heard_said(said: Said) -> Answer
    ensures { result ≡ said_answer said }
{
    match said {
        Said::Done => Answer::Done,
        Said::Refused => Answer::Refused,
    }
}
