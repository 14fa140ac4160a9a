//! Boxes of hooks that refuse now and then, of which one may wait at a gate, and the shelf of the tests.

ghost use Rattle.std.specs.Prelude.{◌≡◌, ◌≤◌, None, true};
ghost use Rattle.hook_api.specs.Counts.{Rose};

use super::draws::Draws;
use super::flags::Gate;
use hook_api::{ExtentHooks, HookShelf, Placed, Said};
use space_model::{CHUNK_PAGES, CHUNKS, Span};
use std::alloc::Global;
use std::process::Abort;
use std::sync::Arc;

/// How many pages each of the 32 boxes of a shelf hands out at most.
const BOX_PAGES: u64 = CHUNKS / 32 * CHUNK_PAGES;

/// Hooks that place each range behind the one before and take every range back, but refuse one in so many asks, or none where that is
/// 0. Those that refuse leave every second range uncommitted. Where there is a gate, the first range waits until somebody has seen that
/// it is asked for, and is refused where nobody does.
#[derive(Drop)]
pub(crate) struct FickleHooks {
    next: u64,
    end: u64,
    refusals: u64,
    one_in: u64,
    draws: Draws,
    gate: Option<Arc<Gate>>,
}

impl FickleHooks {
    /// Hooks of the box with a number.
    fn new(box_no: u32, one_in: u64, gate: Option<Arc<Gate>>) -> FickleHooks {
        let first = u64::from(box_no).saturating_mul(BOX_PAGES);
        FickleHooks {
            next: first.saturating_add(CHUNK_PAGES),
            end: first.saturating_add(CHUNK_PAGES + BOX_PAGES),
            refusals: 0,
            one_in,
            draws: Draws::new(u64::from(box_no)),
            gate,
        }
    }

    /// Counts a refusal.
    fn refuse(&mut self)
        ensures rose { Rose self.old.refusals self.new.refusals }
        ensures never_falls { self.old.refusals ≤ self.new.refusals }
    {
        self.refusals = self.refusals.saturating_add(1);
    }

    /// Whether the next ask is refused, which is counted then.
    fn refuses(&mut self) -> bool
        ensures rose { result ≡ true → Rose self.old.refusals self.new.refusals }
        ensures never_falls { self.old.refusals ≤ self.new.refusals }
    {
        let refused = self.one_in > 0 && self.draws.draw() % self.one_in == 0;
        if refused {
            self.refuse();
        }
        refused
    }

    /// Waits at the gate, if there is one. The answer is whether nobody saw that in time.
    fn is_kept_out(&mut self) -> bool
        ensures { self.new.refusals ≡ self.old.refusals }
    {
        match self.gate.take() {
            Some(gate) => !gate.pass(),
            None => false,
        }
    }

    /// Takes a range out of those that weren't handed out, if one is left.
    fn place(&mut self, pages: u64, align: u64) -> Option<u64>
        ensures { self.new.refusals ≡ self.old.refusals }
    {
        let first = self.next.checked_next_multiple_of(align.max(CHUNK_PAGES))?;
        let end = first.checked_add(pages)?;
        if end > self.end {
            return None;
        }
        self.next = end;
        Some(first)
    }

    /// The range that is handed out next, unless nobody opens the gate or none is left.
    fn hand_out(&mut self, pages: u64, align: u64) -> Option<u64>
        ensures { self.new.refusals ≡ self.old.refusals }
    {
        if self.is_kept_out() {
            None
        } else {
            self.place(pages, align)
        }
    }

    /// Whether the next range is committed.
    fn commits(&mut self) -> bool
        ensures { self.new.refusals ≡ self.old.refusals }
    {
        self.one_in == 0 || self.draws.draw() % 2 == 0
    }
}

impl ExtentHooks for FickleHooks {
    ghost account = { λ h. record { told = None; refusals = h.refusals } };

    fn alloc(&mut self, _at: Option<u64>, pages: u64, align: u64, _commit: bool) -> Option<Placed> {
        if self.refuses() {
            return None;
        }
        let Some(first) = self.hand_out(pages, align) else {
            self.refuse();
            return None;
        };
        let committed = self.commits();
        Some(Placed {
            first,
            committed,
            zeroed: true,
        })
    }

    fn dalloc(&mut self, _span: Span, _committed: bool) -> Said {
        if self.refuses() {
            Said::Refused
        } else {
            Said::Done
        }
    }

    fn destroy(&mut self, _span: Span, _committed: bool) {}

    fn commit(&mut self, _span: Span) -> Said {
        if self.refuses() {
            Said::Refused
        } else {
            Said::Done
        }
    }

    fn decommit(&mut self, _span: Span) -> Said {
        if self.refuses() {
            Said::Refused
        } else {
            Said::Done
        }
    }

    fn purge_lazy(&mut self, _span: Span) -> Said {
        if self.refuses() {
            Said::Refused
        } else {
            Said::Done
        }
    }

    fn purge_forced(&mut self, _span: Span) -> Said {
        if self.refuses() {
            Said::Refused
        } else {
            Said::Done
        }
    }

    fn split(&mut self, _span: Span, _left: u64) -> Said {
        if self.refuses() {
            Said::Refused
        } else {
            Said::Done
        }
    }

    fn merge(&mut self, _low: Span, _high: Span) -> Said {
        if self.refuses() {
            Said::Refused
        } else {
            Said::Done
        }
    }

    fn refusals(&self) -> u64 {
        self.refusals
    }
}

/// 32 boxes that refuse one in so many asks, or none where that is 0. Box 0 has a gate where one is given.
pub(crate) fn fickle(
    rt: &impl Abort,
    alloc: Global,
    one_in: u64,
    mut gate: Option<Arc<Gate>>,
) -> HookShelf<FickleHooks> {
    let mut boxes = Vec::new(alloc);
    while boxes.len() < 32 {
        let hooks = FickleHooks::new(boxes.len() as u32, one_in, gate.take());
        boxes.push(hooks).expect(rt, "memory for a box");
    }
    drop(gate);
    HookShelf::new(boxes)
}
