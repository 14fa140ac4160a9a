//! How a call goes on that gives a large region another large class where it is.

ghost use Rattle.std.specs.Prelude.{◌≡◌, ◌≤◌, ◌<◌, ◌^◌, None};
ghost use Rattle.call_plan.specs.Points.{IsFewPages};
ghost use Rattle.call_plan.specs.Stages.{led};
ghost use Rattle.call_plan.specs.Table.{alloc_behind, back, backed, behind, extend, extended, lacks, move, narrowed, own_span, spare, spared, turn_replied, widened};

use crate::{AfterFlight, AskPoint, NextStep, Resize, TurnPoint};
use size_classes::{PAGE_BYTES, class_pages};
use space_model::{Ask, CHUNK_PAGES, Reply, Span};

impl Resize {
    /// Its pages.
    pub(crate) fn span(self) -> Span
        ensures { result ≡ own_span self }
    {
        Span {
            first: self.addr / PAGE_BYTES,
            pages: self.pages,
        }
    }

    /// How many pages it lacks.
    pub(crate) fn lacks(self) -> u64
        requires { IsFewPages self }
        ensures lacks { result ≡ lacks self }
        ensures few { result ≤ 2 ^ 32 }
    {
        class_pages(self.class).saturating_sub(self.pages)
    }

    /// The first page behind it.
    pub(crate) fn behind(self) -> u64
        requires { IsFewPages self }
        ensures { result ≡ behind self }
    {
        self.addr / PAGE_BYTES + self.pages
    }

    /// An alloc of the chunks that it lacks, right behind it.
    pub(crate) fn alloc(self) -> Ask
        requires { IsFewPages self }
        ensures { result ≡ alloc_behind self }
    {
        Ask::Alloc {
            at: Some(self.behind()),
            pages: self.lacks().div_ceil(CHUNK_PAGES) * CHUNK_PAGES,
            align: CHUNK_PAGES,
            commit: false,
        }
    }

    /// Another region takes its place.
    fn move_off(self) -> NextStep
        ensures { led result None ≡ move self }
    {
        NextStep::Move(self.class)
    }

    /// The pages that it lacks are committed, or its extent is merged with them.
    fn back(self, span: Span, committed: bool, step: &mut NextStep)
        ensures { led step.new None ≡ back self span committed }
    {
        if committed {
            *step = AskPoint::Joining(self, span).first();
        } else {
            *step = AskPoint::Backing(self, span).first();
        }
    }

    /// What stands behind the pages that it lacks is cut off.
    fn spare(self, span: Span, committed: bool, step: &mut NextStep)
        requires { IsFewPages self }
        ensures { led step.new None ≡ spare self span committed }
    {
        if self.lacks() < span.pages {
            let resize = self;
            *step = AskPoint::Sparing {
                resize,
                span,
                committed,
            }
            .first();
        } else {
            self.back(span, committed, step);
        }
    }

    /// A grant right behind it serves. Any other one is put down, and another region takes its place.
    fn extend(self, span: Span, committed: bool, step: &mut NextStep)
        requires { IsFewPages self }
        ensures { led step.new None ≡ extend self span committed }
    {
        if span.first == self.behind() {
            self.spare(span, committed, step);
        } else {
            AfterFlight::Moving(self.class).put_next(Some(span), step);
        }
    }

    /// After the look for the pages behind it.
    pub(crate) fn looked(self, reply: &Reply, step: &mut NextStep)
        requires { IsFewPages self }
        ensures { led step.new None ≡ turn_replied (TurnPoint.Widening self) reply.now }
    {
        match *reply {
            Reply::Took {
                span,
                committed,
                ..
            } => self.spare(span, committed, step),
            Reply::Noted => *step = AskPoint::Extending(self).first(),
            Reply::Nothing => *step = self.move_off(),
            _ => *step = NextStep::Nowhere,
        }
    }

    /// After it was told to be cut.
    pub(crate) fn begun(self, reply: &Reply, step: &mut NextStep)
        ensures { led step.new None ≡ turn_replied (TurnPoint.Narrowing self) reply.now }
    {
        match *reply {
            Reply::Noted => *step = AskPoint::Cutting(self).first(),
            _ => *step = NextStep::Nowhere,
        }
    }

    /// After the split of its extent.
    pub(crate) fn narrowed(self, reply: &Reply, step: &mut NextStep)
        ensures { led step.new None ≡ narrowed self reply.now }
    {
        match *reply {
            Reply::Cut(high) => AfterFlight::Batches.put_next(Some(high), step),
            Reply::Whole => *step = self.move_off(),
            _ => *step = NextStep::Nowhere,
        }
    }

    /// After the alloc of the chunks that it lacks.
    pub(crate) fn extended(self, reply: &Reply, step: &mut NextStep)
        requires { IsFewPages self }
        ensures { led step.new None ≡ extended self reply.now }
    {
        match *reply {
            Reply::Refused | Reply::Bad(_) => *step = self.move_off(),
            Reply::Grown { span, committed } => self.extend(span, committed, step),
            _ => *step = NextStep::Nowhere,
        }
    }

    /// After the split of what stands behind the pages that it lacks.
    pub(crate) fn spared(self, committed: bool, reply: &Reply, step: &mut NextStep)
        ensures { led step.new None ≡ spared self committed reply.now }
    {
        match *reply {
            Reply::Cut(low) => self.back(low, committed, step),
            Reply::Whole => *step = self.move_off(),
            _ => *step = NextStep::Nowhere,
        }
    }

    /// After the commit of these pages.
    pub(crate) fn backed(self, span: Span, reply: &Reply, step: &mut NextStep)
        ensures { led step.new None ≡ backed self span reply.now }
    {
        match *reply {
            Reply::Noted => *step = AskPoint::Joining(self, span).first(),
            Reply::Whole => *step = self.move_off(),
            _ => *step = NextStep::Nowhere,
        }
    }

    /// After the merge with them.
    pub(crate) fn widened(self, reply: &Reply, step: &mut NextStep)
        ensures { led step.new None ≡ widened self reply.now }
    {
        match *reply {
            Reply::Landed { .. } => *step = NextStep::NextBatch,
            Reply::Whole => *step = self.move_off(),
            _ => *step = NextStep::Nowhere,
        }
    }
}
