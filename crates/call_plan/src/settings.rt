//! How a call goes on that asks for one thing of an arena as a whole.

ghost use Rattle.std.specs.Prelude.{◌≡◌, ℕ, Bool, true, false, None};
ghost use Rattle.call_plan.specs.Table.{setting_changed, limited, make_next, turn_replied};
ghost use Rattle.call_plan.specs.Stages.{Go, Turns, led};

use crate::{Answered, Change, Given, NextStep, TurnPoint, Visit};
use space_model::{Reply, Rest, Setting};

/// After both decays told how many pages may stay.
fn limited(dirty: Option<u64>, muzzy: Option<u64>, step: &mut NextStep)
    ensures { led step.new None ≡ limited dirty muzzy }
{
    if let Some(keep) = muzzy {
        let visit = Visit {
            rest: Rest::Muzzy,
            keep,
            other: dirty,
            told: true,
        };
        *step = visit.first();
        return;
    }
    match dirty {
        Some(keep) => *step = Visit::dirty(keep, None, true).first(),
        None => *step = NextStep::Ends(Answered::Ok(Given::Limits { dirty, muzzy })),
    }
}

impl Change {
    /// What follows once a setting is changed.
    fn changed(self, step: &mut NextStep)
        ensures { led step.new None ≡ setting_changed self }
    {
        match self {
            Change::Stops => *step = NextStep::Ends(Answered::Ok(Given::Done)),
            Change::Visits(visit) => *step = visit.first(),
            Change::Leaves(arena) => {
                *step = NextStep::InArena(
                    arena,
                    TurnPoint::Changing(Setting::Unbind, Change::Stops),
                );
            }
        }
    }

    /// After the setting.
    pub(crate) fn was_set(self, reply: &Reply, step: &mut NextStep)
        ensures { (setting : Setting) → led step.new None ≡ turn_replied (TurnPoint.Changing setting self) reply.now }
    {
        match *reply {
            Reply::Noted => self.changed(step),
            Reply::NoArena => *step = NextStep::NotLive,
            _ => *step = NextStep::Nowhere,
        }
    }
}

/// Where the index has an arena already, the next one is tried.
fn make_next(index: u32, setting: Setting, step: &mut NextStep)
    ensures { led step.new None ≡ make_next index setting }
{
    if index < 31 {
        *step = NextStep::InArena(index + 1, TurnPoint::Making(index + 1, setting));
    } else {
        *step = NextStep::Ends(Answered::ArenasFull);
    }
}

/// After an arena was to come to be.
pub(crate) fn made(index: u32, setting: Setting, reply: &Reply, step: &mut NextStep)
    ensures { led step.new None ≡ turn_replied (TurnPoint.Making index setting) reply.now }
{
    match *reply {
        Reply::Noted => *step = NextStep::Ends(Answered::Ok(Given::Arena(index))),
        Reply::Nothing => make_next(index, setting, step),
        _ => *step = NextStep::Nowhere,
    }
}

/// After the decays were told a moment.
pub(crate) fn advanced(reply: &Reply, step: &mut NextStep)
    ensures { (now : ℕ) → led step.new None ≡ turn_replied (TurnPoint.Advancing now) reply.now }
{
    match *reply {
        Reply::Limits { dirty, muzzy } => limited(dirty, muzzy, step),
        Reply::NoArena => *step = NextStep::NotLive,
        _ => *step = NextStep::Nowhere,
    }
}

/// After all regions were to be discarded, or the arena was to end.
pub(crate) fn emptied(ends: bool, reply: &Reply, step: &mut NextStep)
    ensures resets { ends ≡ false → (cached : ℕ) → led step.new None ≡ turn_replied (TurnPoint.Resetting cached) reply.now }
    ensures ends { ends ≡ true → (cached : ℕ) → led step.new None ≡ turn_replied (TurnPoint.Destroying cached) reply.now }
{
    match *reply {
        Reply::Busy {
            held,
            flights,
            threads,
        } => {
            *step = NextStep::Ends(Answered::Busy {
                held,
                flights,
                threads,
            });
        }
        Reply::Noted if ends => *step = TurnPoint::Dooming.next(),
        Reply::Noted => *step = NextStep::Ends(Answered::Ok(Given::Done)),
        Reply::Purge { .. } if !ends => *step = Visit::dirty(0, None, false).first(),
        Reply::NoArena => *step = NextStep::NotLive,
        _ => *step = NextStep::Nowhere,
    }
}

/// After an extent of an arena that has ended was to go.
pub(crate) fn doomed(reply: &Reply, step: &mut NextStep)
    ensures { led step.new None ≡ turn_replied TurnPoint.Dooming reply.now }
{
    match *reply {
        Reply::Doomed { span, committed } => *step = NextStep::Tells(span, committed),
        Reply::Nothing => *step = NextStep::Ends(Answered::Ok(Given::Done)),
        _ => *step = NextStep::Nowhere,
    }
}

/// After a region was published.
pub(crate) fn published(reply: &Reply, step: &mut NextStep)
    ensures { (addr : ℕ) → led step.new None ≡ turn_replied (TurnPoint.Publishing addr) reply.now }
{
    match *reply {
        Reply::Noted => *step = NextStep::Ends(Answered::Ok(Given::Done)),
        _ => *step = NextStep::Nowhere,
    }
}

/// After a region was to be taken over.
pub(crate) fn owned(addr: u64, frees: bool, reply: &Reply, step: &mut NextStep)
    ensures { (published : Bool) → led step.new None ≡ turn_replied (TurnPoint.Owning addr frees published) reply.now }
{
    match *reply {
        Reply::Owned { .. } if frees => *step = NextStep::NextBatch,
        Reply::Owned { class } => *step = NextStep::Ends(Answered::Ok(Given::Region {
            addr,
            class,
        })),
        Reply::Nothing => *step = NextStep::Ends(Answered::NotHeld(addr)),
        Reply::NoArena => *step = NextStep::NotLive,
        _ => *step = NextStep::Nowhere,
    }
}
