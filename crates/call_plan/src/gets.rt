//! How a call goes on that gets an extent.

ghost use Rattle.std.specs.Prelude.{◌≡◌, ℕ, None};
ghost use Rattle.call_plan.specs.Table.{chunks_for, commit, got, grant, grow, need_chunks, skip_to, trim, turn_replied};
ghost use Rattle.call_plan.specs.Stages.{Asks, Go, led};

use crate::{Answered, AskPoint, Given, NextStep, TurnPoint, Wish};
use space_model::{CHUNK_PAGES, MAX_SERIES, Reply, Span};

impl AskPoint {
    /// The ask comes next.
    pub(crate) fn first(self) -> NextStep
        ensures { led result None ≡ Go (Asks self None) }
    {
        NextStep::Asks(self)
    }
}

impl Wish {
    /// How many chunks hold the pages.
    pub(crate) fn chunks(self) -> u64
        ensures { result ≡ chunks_for self.pages }
    {
        self.pages.div_ceil(CHUNK_PAGES)
    }

    /// The extent has the pages: it is committed, or the regions land in it.
    pub(crate) fn commit(self, span: Span, committed: bool, step: &mut NextStep)
        ensures { led step.new None ≡ commit self span committed }
    {
        if committed {
            *step = TurnPoint::Landing(self, span).next();
        } else {
            *step = AskPoint::Committing(self, span).first();
        }
    }

    /// A grant: what is too much of it is cut off.
    pub(crate) fn grant(self, span: Span, committed: bool, step: &mut NextStep)
        ensures { led step.new None ≡ grant self span committed }
    {
        if self.pages < span.pages {
            let wish = self;
            *step = AskPoint::SplittingExact {
                wish,
                span,
                committed,
            }
            .first();
        } else {
            self.commit(span, committed, step);
        }
    }

    /// An unused extent: what stands behind the run is cut off.
    pub(crate) fn trim(self, span: Span, committed: bool, step: &mut NextStep)
        ensures { led step.new None ≡ trim self span committed }
    {
        if self.pages < span.pages {
            let wish = self;
            *step = AskPoint::Trimming {
                wish,
                span,
                committed,
            }
            .first();
        } else {
            self.commit(span, committed, step);
        }
    }

    /// An unused extent: what stands before the run is cut off.
    fn skip_to(self, span: Span, committed: bool, skip: u64, step: &mut NextStep)
        ensures { led step.new None ≡ skip_to self span committed skip }
    {
        if 0 < skip {
            let wish = self;
            *step = AskPoint::Skipping {
                wish,
                span,
                committed,
                skip,
            }
            .first();
        } else {
            self.trim(span, committed, step);
        }
    }

    /// Just as many chunks as are needed are asked for.
    pub(crate) fn need_chunks(self) -> NextStep
        ensures { led result None ≡ need_chunks self }
    {
        AskPoint::GrowingExactly(self).first()
    }

    /// The arena grows by the chunks of the series, if these are more than are needed.
    fn grow(self, series: u64, step: &mut NextStep)
        ensures { led step.new None ≡ grow self series }
    {
        let chunks = series.min(MAX_SERIES);
        if self.chunks() < chunks {
            *step = AskPoint::Growing(self, chunks).first();
        } else {
            *step = self.need_chunks();
        }
    }

    /// After the reply to the look for an unused extent.
    pub(crate) fn looked(self, reply: &Reply, step: &mut NextStep)
        ensures { led step.new None ≡ turn_replied (TurnPoint.Looking self) reply.now }
    {
        match *reply {
            Reply::Took {
                span,
                committed,
                skip,
            } => self.skip_to(span, committed, skip, step),
            Reply::Grow { series } => self.grow(series, step),
            Reply::NoArena => *step = NextStep::NotLive,
            _ => *step = NextStep::Nowhere,
        }
    }

    /// The region at the address is the answer, or takes the place of the one in hand.
    fn got(self, addr: u64, step: &mut NextStep)
        ensures { led step.new None ≡ got self addr }
    {
        let class = self.class;
        if self.moves {
            *step = NextStep::NextBatch;
        } else {
            *step = NextStep::Ends(Answered::Ok(Given::Region { addr, class }));
        }
    }

    /// After the landing.
    pub(crate) fn landed(self, reply: &Reply, step: &mut NextStep)
        ensures { (span : Span) → led step.new None ≡ turn_replied (TurnPoint.Landing self span) reply.now }
    {
        match *reply {
            Reply::Landed { first, .. } => self.got(first, step),
            _ => *step = NextStep::Nowhere,
        }
    }

    /// After free regions of a small class were looked for.
    pub(crate) fn filled(self, reply: &Reply, step: &mut NextStep)
        ensures { (count : ℕ) → led step.new None ≡ turn_replied (TurnPoint.Filling self count) reply.now }
    {
        match *reply {
            Reply::Regions(ref addrs) => match addrs.as_slice().first() {
                Some(addr) => self.got(*addr, step),
                None => *step = NextStep::Nowhere,
            },
            Reply::Nothing => *step = NextStep::Turns(TurnPoint::Looking(self)),
            Reply::NoArena => *step = NextStep::NotLive,
            _ => *step = NextStep::Nowhere,
        }
    }
}
