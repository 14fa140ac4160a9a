//! How the decays of an arena go on.

ghost use Rattle.std.specs.Prelude.{◌≡◌, ◌+◌, ◌-◌, ◌*◌, ◌≤◌, ◌<◌, ◌^◌, All, AllPairs, IfOk, OnOk, OnErr, if◌then◌else◌, Some, pos, ◌≤ℤ◌};
ghost use Rattle.std.specs.List.{sum_by};
ghost use Rattle.space_model.specs.Span.{IsPlaced, pages_end};
ghost use Rattle.space_model.specs.Part.{is_listed, pages_listed};
ghost use Rattle.space_model.specs.Pace.{weight, weighed, limit_at, with_new, passed, passed_if_any, advanced, advance_all, after_advance};
ghost use Rattle.space_model.specs.Stepped.{IsMade};
ghost use Rattle.space_model.specs.Sound.{Sound, IsPaced};

use crate::Replied;
use space_model::{Added, Pace, Part, Reply, Rest, Seq, Space};
use std::alloc::AllocError as NoMemory;

/// How many epochs an addition counts for.
const EPOCHS: u64 = 200;

/// How many nanoseconds an epoch has for each millisecond of the decay time: a two-hundredth of it.
const EPOCH_NANOS: u64 = 5000;

/// How a pace stands after a moment has come, and how many unused pages may stay, where that is told.
#[derive(Drop)]
struct Paced {
    pace: Pace,
    limit: Option<u64>,
}

/// How much of 2^24 an addition weighs while so many epochs are left to it, from 1 to 200.
#[tactic(auto, using(space_model::proofs::Decay::weight_fits), unfolding(space_model::specs::Pace::weight))]
fn weight(left: u64) -> u128
    requires { left ≤ 200 }
    ensures value { result ≡ weight left }
    ensures bound { result ≤ 2 ^ 24 }
{
    let left = u128::from(left);
    let all = u128::from(EPOCHS);
    (1 << 24) * (6 * left.pow(5) + 400_000 * left.pow(3) - 3000 * left.pow(4)) / all.pow(5)
}

/// What an addition weighs at an epoch: nothing from the age of 200 epochs on.
fn weighed(epoch: u64, added: &Added) -> u128
    requires { added.now.pages ≤ pages_end }
    ensures value { result ≡ weighed epoch added.now }
    ensures bound { result ≤ 2 ^ 53 }
{
    let age = epoch.saturating_sub(added.epoch);
    if age < EPOCHS {
        u128::from(added.pages) * weight(EPOCHS - age)
    } else {
        0
    }
}

/// How many pages may stay at an epoch, after all these additions.
fn limit_at(epoch: u64, added: &[Added]) -> u64
    requires pages { All (λ a. a.pages ≤ pages_end) added.now }
    requires past { All (λ a. a.epoch ≤ epoch) added.now }
    requires rising { AllPairs (λ a b. a.epoch < b.epoch) added.now }
    ensures { result ≡ limit_at epoch added.now }
{
    let weight: u128 = added.iter().map(|one| weighed(epoch, one)).sum();
    (weight >> 24) as u64
}

/// The additions with the pages that became unused since the last epoch, if there are any.
fn with_new(pace: &Pace, epoch: u64, current: u64) -> Result<Vec<Added>, NoMemory>
    ensures { IfOk result (λ all. all.items ≡ with_new pace.now epoch current) }
{
    let mut all = Vec::from_slice(pace.added.alloc(), pace.added.as_slice())?;
    if pace.left < current {
        all.push(Added {
            epoch,
            pages: current - pace.left,
        })?;
    }
    Ok(all)
}

/// So many epochs pass, each of an interval in nanoseconds, while the current pages are unused.
fn passed(pace: &Pace, interval: u64, epochs: u64, current: u64) -> Result<Paced, NoMemory>
    requires paced { IsPaced pace.now }
    requires epochs { 0 < epochs }
    requires current { current ≤ pages_end - 512 }
    requires start { pace.now.start + epochs * interval < 2 ^ 64 }
    requires epoch { pace.now.epoch + epochs < 2 ^ 64 }
    ensures pace { IfOk result (λ p. p.pace ≡ (passed pace.now interval epochs current).pace) }
    ensures limit { IfOk result (λ p. p.limit ≡ (passed pace.now interval epochs current).limit) }
{
    let epoch = pace.epoch + epochs;
    let added = with_new(pace, epoch, current)?;
    let limit = limit_at(epoch, added.as_slice());
    let pace = Pace {
        ms: pace.ms,
        start: pace.start + epochs * interval,
        epoch,
        left: current.min(limit),
        added: Seq::from_vec(added),
    };
    Ok(Paced {
        pace,
        limit: Some(limit),
    })
}

/// The same pace, with what is told of it.
fn unmoved(pace: &Pace, limit: Option<u64>) -> Result<Paced, NoMemory>
    ensures pace { IfOk result (λ p. p.pace ≡ pace.now) }
    ensures limit { IfOk result (λ p. p.limit ≡ limit) }
{
    let added = Vec::from_slice(pace.added.alloc(), pace.added.as_slice())?;
    let pace = Pace {
        ms: pace.ms,
        start: pace.start,
        epoch: pace.epoch,
        left: pace.left,
        added: Seq::from_vec(added),
    };
    Ok(Paced { pace, limit })
}

/// A decay time that isn't -1, as a number of milliseconds.
fn millis(ms: i64) -> u64
    requires { pos 0 ≤ℤ ms }
    ensures { pos result ≡ ms }
{
    ms as u64
}

/// What a moment changes in a pace, while the current pages are unused.
fn advanced(pace: &Pace, now: u64, current: u64) -> Result<Paced, NoMemory>
    requires paced { IsPaced pace.now }
    requires current { current ≤ pages_end - 512 }
    ensures pace { IfOk result (λ p. p.pace ≡ (advanced pace.now now current).pace) }
    ensures limit { IfOk result (λ p. p.limit ≡ (advanced pace.now now current).limit) }
{
    if pace.ms < 0 {
        return unmoved(pace, None);
    }
    let ms = millis(pace.ms);
    if ms == 0 {
        return unmoved(pace, Some(0));
    }
    let interval = ms * EPOCH_NANOS;
    let epochs = now.saturating_sub(pace.start) / interval;
    if epochs == 0 {
        return unmoved(pace, None);
    }
    passed(pace, interval, epochs, current)
}

/// The pages of an extent, if it is listed among those of the rest.
fn pages_if(rest: Rest, part: &Part) -> u64
    ensures { result ≡ (if is_listed rest part.now.state then part.now.span.pages else 0) }
{
    if part.state.is_listed(rest) {
        part.span.pages
    } else {
        0
    }
}

/// The pages of the extents that are listed among those of the rest.
pub fn pages_listed(rest: Rest, space: &Space) -> u64
    requires { Sound space.now }
    ensures pages { result ≡ pages_listed rest space.now.parts }
    ensures within { result ≤ pages_end - 512 }
{
    let all = space.parts.as_slice().iter();
    all.map(|part| pages_if(rest, part)).sum()
}

/// Tells both decays what time it is.
pub fn advance(space: &mut Space, now: u64) -> Replied
    requires { Sound space.old }
    ensures { IsMade space.old space.new result (after_advance space.old now) }
{
    if !space.life.is_live() {
        return Ok(Reply::NoArena);
    }
    let dirty = advanced(&space.dirty, now, pages_listed(Rest::Dirty, space))?;
    let muzzy = advanced(&space.muzzy, now, pages_listed(Rest::Muzzy, space))?;
    let Paced { pace, limit } = dirty;
    space.dirty = pace;
    let dirty = limit;
    let Paced { pace, limit } = muzzy;
    space.muzzy = pace;
    let muzzy = limit;
    Ok(Reply::Limits { dirty, muzzy })
}
