//! Where the reply to a turn leads that takes in no answer of a hook.

ghost use Rattle.std.specs.Prelude.{◌≡◌, ℕ, List, None};
ghost use Rattle.call_plan.specs.Items.{Replied, Starved};
ghost use Rattle.call_plan.specs.Points.{IsSizedNext};
ghost use Rattle.call_plan.specs.Runs.{step_next};
ghost use Rattle.call_plan.specs.Table.{turn_replied};
ghost use Rattle.call_plan.specs.Stages.{led};

use crate::settings::{advanced, doomed, emptied, made, owned, published};
use crate::{AfterFlight, Answered, NextStep, TurnPoint};
use space_model::Reply;

/// After regions went back.
fn gave(reply: &Reply, step: &mut NextStep)
    ensures { (addrs : List ℕ) → led step.new None ≡ turn_replied (TurnPoint.Giving addrs) reply.now }
{
    match *reply {
        Reply::Next(next) => AfterFlight::Batches.put_next(next, step),
        _ => *step = NextStep::Nowhere,
    }
}

impl NextStep {
    /// Where it waits for the reply to a turn, it becomes where that leads.
    pub(crate) fn turned(&mut self, reply: &Reply)
        requires { IsSizedNext (led self.old None) }
        ensures { led self.new None ≡ step_next (led self.old None) (Replied reply.now) }
    {
        let NextStep::Turns(point) = self else {
            *self = NextStep::Nowhere;
            return;
        };
        match *point {
            TurnPoint::Filling(wish, _) => wish.filled(reply, self),
            TurnPoint::Looking(wish) => wish.looked(reply, self),
            TurnPoint::Landing(wish, _) => wish.landed(reply, self),
            TurnPoint::Giving(_) => gave(reply, self),
            TurnPoint::Finding {
                own,
                tries,
                fresh,
                then,
            } => then.found(own, tries, fresh, reply, self),
            TurnPoint::Taking(visit, left) => visit.took(left, reply, self),
            TurnPoint::Offering(span, then) => then.offered(span, reply, self),
            TurnPoint::Advancing(_) => advanced(reply, self),
            TurnPoint::Changing(_, change) => change.was_set(reply, self),
            TurnPoint::Making(index, setting) => made(index, setting, reply, self),
            TurnPoint::Resetting(_) => emptied(false, reply, self),
            TurnPoint::Destroying(_) => emptied(true, reply, self),
            TurnPoint::Dooming => doomed(reply, self),
            TurnPoint::Publishing(_) => published(reply, self),
            TurnPoint::Owning { addr, frees, .. } => owned(addr, frees, reply, self),
            TurnPoint::Widening(resize) => resize.looked(reply, self),
            TurnPoint::Narrowing(resize) => resize.begun(reply, self),
        }
    }

    /// Where it waits for a turn that found no memory, it becomes where that leads: only the first one of what belongs together
    /// may find none.
    pub(crate) fn starved(&mut self)
        ensures { led self.new None ≡ step_next (led self.old None) Starved }
    {
        *self = match self {
            NextStep::Turns(
                TurnPoint::Landing(..) | TurnPoint::Finding { .. } | TurnPoint::Offering(..),
            ) => NextStep::Nowhere,
            NextStep::Turns(_) => NextStep::Ends(Answered::NoMemory),
            _ => NextStep::Nowhere,
        };
    }
}
