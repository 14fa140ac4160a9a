//! How a call goes on that puts extents down, or purges them.

ghost use Rattle.std.specs.Prelude.{◌≡◌, None};
ghost use Rattle.call_plan.specs.Table.{beside, decommitted, dirty_visit, drop, eased, forced, visit_gives, look_on, merged, onward, put_next, put_purged, returned, turn_replied, visit_all, visited};
ghost use Rattle.call_plan.specs.Stages.{Asks, Go, Turns, led};

use crate::{AfterFlight, Answered, AskPoint, Given, NextStep, TurnPoint, Visit};
use space_model::{Reply, Rest, Span};

impl TurnPoint {
    /// The turn comes next.
    pub(crate) fn next(self) -> NextStep
        ensures { led result None ≡ Go (Turns self) }
    {
        NextStep::Turns(self)
    }
}

impl Visit {
    /// The dirty extents, of which so many pages may stay.
    pub(crate) fn dirty(keep: u64, other: Option<u64>, told: bool) -> Visit
        ensures { result ≡ dirty_visit keep other told }
    {
        Visit {
            rest: Rest::Dirty,
            keep,
            other,
            told,
        }
    }

    /// What its answer gives.
    fn given(&self) -> Given
        ensures { result ≡ visit_gives self.now.told self.now.rest self.now.keep self.now.other }
    {
        let keep = Some(self.keep);
        match (self.told, self.rest) {
            (false, _) => Given::Done,
            (true, Rest::Muzzy) => Given::Limits {
                dirty: self.other,
                muzzy: keep,
            },
            (true, _) => Given::Limits {
                dirty: keep,
                muzzy: self.other,
            },
        }
    }

    /// What follows it: a visit of the dirty extents after that of the muzzy ones, where these are visited too, or the answer.
    fn visited(&self, step: &mut NextStep)
        ensures { led step.new None ≡ visited self.now }
    {
        match (self.rest, self.other) {
            (Rest::Muzzy, Some(keep)) => *step = Visit::dirty(
                keep,
                Some(self.keep),
                self.told,
            ).first(),
            _ => *step = NextStep::Ends(Answered::Ok(self.given())),
        }
    }

    /// Its first extent is taken.
    pub(crate) fn first(self) -> NextStep
        ensures { led result None ≡ visit_all self }
    {
        TurnPoint::Taking(self, None).next()
    }

    /// After an extent was taken, if one was.
    pub(crate) fn took(&self, left: Option<u64>, reply: &Reply, step: &mut NextStep)
        ensures { led step.new None ≡ turn_replied (TurnPoint.Taking self.now left) reply.now }
    {
        match *reply {
            Reply::Taken { span, lazy, listed } => {
                let left = left.unwrap_or(listed).saturating_sub(1);
                AfterFlight::Visiting(*self, left).drop_extent(span, lazy, step);
            }
            Reply::Nothing => self.visited(step),
            Reply::NoArena => *step = NextStep::NotLive,
            _ => *step = NextStep::Nowhere,
        }
    }
}

impl AfterFlight {
    /// What follows once nothing is in flight.
    fn onward(&self, step: &mut NextStep)
        ensures { led step.new None ≡ onward self.now }
    {
        match *self {
            AfterFlight::Batches => *step = NextStep::NextBatch,
            AfterFlight::Moving(class) => *step = NextStep::Move(class),
            AfterFlight::Visiting(visit, 0) => visit.visited(step),
            AfterFlight::Visiting(visit, left) => *step = TurnPoint::Taking(
                visit,
                Some(left),
            ).next(),
        }
    }

    /// An extent in flight looks for a neighbour.
    fn find(&self, own: Span, tries: u8, fresh: bool) -> NextStep
        ensures { led result None ≡ Go (Turns (TurnPoint.Finding own tries fresh self.now)) }
    {
        TurnPoint::Finding {
            own,
            tries,
            fresh,
            then: *self,
        }
        .next()
    }

    /// The next extent in flight is put down, or there is none.
    #[inline(always)]
    pub(crate) fn put_next(&self, next: Option<Span>, step: &mut NextStep)
        ensures { led step.new None ≡ put_next self.now next }
    {
        match next {
            Some(own) => *step = self.find(own, 0, true),
            None => self.onward(step),
        }
    }

    /// The extent is merged with the neighbour that its look found.
    fn beside(&self, own: Span, tries: u8, fresh: bool, other: Span, step: &mut NextStep)
        ensures { led step.new None ≡ beside own tries fresh other self.now }
    {
        if tries == 0 && u128::from(other.first) == own.end() {
            *step = self.merge(own, other, true, fresh);
        } else if tries < 2 {
            *step = self.merge(other, own, false, fresh);
        } else {
            *step = NextStep::Nowhere;
        }
    }

    /// Two extents are merged.
    fn merge(&self, low: Span, high: Span, own_low: bool, fresh: bool) -> NextStep
        ensures { led result None ≡ Go (Asks (AskPoint.Merging low high own_low fresh self.now) None) }
    {
        AskPoint::Merging {
            low,
            high,
            own_low,
            fresh,
            then: *self,
        }
        .first()
    }

    /// After a merge the extent that stays in flight looks on.
    pub(crate) fn look_on(&self, own: Span, own_low: bool, fresh: bool) -> NextStep
        ensures { led result None ≡ look_on own own_low fresh self.now }
    {
        self.find(own, if own_low { 1 } else { 2 }, fresh)
    }

    /// An extent that was purged is put down.
    pub(crate) fn put_purged(&self, own: Span) -> NextStep
        ensures { led result None ≡ put_purged own self.now }
    {
        self.find(own, 0, false)
    }

    /// An extent is purged lazily, or offered to its hook.
    pub(crate) fn drop_extent(&self, span: Span, lazy: bool, step: &mut NextStep)
        ensures { led step.new None ≡ drop span lazy self.now }
    {
        if lazy {
            *step = AskPoint::PurgingLazily(span, *self).first();
        } else {
            *step = TurnPoint::Offering(span, *self).next();
        }
    }

    /// After the look for a neighbour.
    pub(crate) fn found(
        &self,
        own: Span,
        tries: u8,
        fresh: bool,
        reply: &Reply,
        step: &mut NextStep,
    )
        ensures { led step.new None ≡ turn_replied (TurnPoint.Finding own tries fresh self.now) reply.now }
    {
        match *reply {
            Reply::Beside(other) => self.beside(own, tries, fresh, other, step),
            Reply::Next(next) => self.put_next(next, step),
            Reply::Purge { lazy } => self.drop_extent(own, lazy, step),
            _ => *step = NextStep::Nowhere,
        }
    }

    /// After the offer of an extent.
    pub(crate) fn offered(&self, span: Span, reply: &Reply, step: &mut NextStep)
        ensures { led step.new None ≡ turn_replied (TurnPoint.Offering span self.now) reply.now }
    {
        match *reply {
            Reply::Noted => *step = AskPoint::Returning(span, *self).first(),
            _ => *step = NextStep::Nowhere,
        }
    }

    /// After a merge.
    pub(crate) fn merged(&self, own_low: bool, fresh: bool, reply: &Reply, step: &mut NextStep)
        ensures { led step.new None ≡ merged own_low fresh self.now reply.now }
    {
        match *reply {
            Reply::Joined(own) => *step = self.look_on(own, own_low, fresh),
            _ => *step = NextStep::Nowhere,
        }
    }

    /// After a lazy purge.
    pub(crate) fn eased(&self, span: Span, reply: &Reply, step: &mut NextStep)
        ensures { led step.new None ≡ eased span self.now reply.now }
    {
        match *reply {
            Reply::Lazy(true) => *step = self.put_purged(span),
            Reply::Lazy(false) => *step = TurnPoint::Offering(span, *self).next(),
            _ => *step = NextStep::Nowhere,
        }
    }

    /// After a dalloc.
    pub(crate) fn returned(&self, span: Span, reply: &Reply, step: &mut NextStep)
        ensures { led step.new None ≡ returned span self.now reply.now }
    {
        match *reply {
            Reply::Next(next) | Reply::Abandoned(next) => self.put_next(next, step),
            Reply::Kept => *step = AskPoint::Decommitting(span, *self).first(),
            _ => *step = NextStep::Nowhere,
        }
    }

    /// After a decommit.
    pub(crate) fn decommitted(&self, span: Span, reply: &Reply, step: &mut NextStep)
        ensures { led step.new None ≡ decommitted span self.now reply.now }
    {
        match *reply {
            Reply::Decommitted(true) => *step = self.put_purged(span),
            Reply::Decommitted(false) => *step = AskPoint::Forcing(span, *self).first(),
            _ => *step = NextStep::Nowhere,
        }
    }

    /// After a forced purge.
    pub(crate) fn forced(&self, span: Span, reply: &Reply, step: &mut NextStep)
        ensures { led step.new None ≡ forced span self.now reply.now }
    {
        match *reply {
            Reply::Noted => *step = self.put_purged(span),
            _ => *step = NextStep::Nowhere,
        }
    }
}
