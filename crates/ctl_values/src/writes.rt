//! What a write comes to.

ghost use Rattle.std.specs.Prelude.{◌≡◌, ◌<◌, true, IfOk};
ghost use Rattle.call_plan.specs.Laws.{IsInRange};
ghost use Rattle.space_model.specs.Settings.{is_decay_time};
ghost use Rattle.ctl_values.specs.Plans.{written_step};
ghost use Rattle.ctl_values.specs.Steps.{AreTimes, IsStep, create_of};

use crate::steps::{CtlStep, Times};
use crate::values::{address_in, box_in, chunks_in, index_in, number_in, time_in, truth_in};
use call_plan::Request;
use ctl_names::{CtlError, OnWrite};
use space_model::Rest;

/// The request that creates an arena with a box of hooks.
pub(crate) fn create(box_no: u32, times: Times) -> Request
    requires box_no { box_no < 32 }
    requires times { AreTimes times }
    ensures request { result ≡ create_of box_no times }
    ensures range { IsInRange result }
{
    Request::Create {
        box_no,
        dirty_ms: times.dirty_ms,
        muzzy_ms: times.muzzy_ms,
        now: times.now,
    }
}

/// The request that sets a decay time of an arena.
fn set_time(arena: u32, rest: Rest, ms: i64, times: Times) -> CtlStep
    ensures { result ≡ CtlStep.Call (Request.Time arena rest ms times.now) }
{
    CtlStep::Call(Request::Time {
        arena,
        rest,
        ms,
        now: times.now,
    })
}

/// What a write of a text comes to, by the row of the name, whose arena is given.
pub(crate) fn written_step(
    on_write: OnWrite,
    text: &[u8],
    arena: u32,
    times: Times,
) -> Result<CtlStep, CtlError>
    requires { AreTimes times }
    ensures step { result ≡ written_step on_write text.now arena times }
    ensures range { IfOk result IsStep }
{
    Ok(match on_write {
        OnWrite::Never => return Err(CtlError::Eperm),
        OnWrite::Refresh => {
            number_in(text)?;
            CtlStep::Refresh
        }
        OnWrite::Bind => CtlStep::Call(Request::Bind {
            arena: index_in(text)?,
        }),
        OnWrite::Cache => CtlStep::Call(Request::Cache(truth_in(text)?)),
        OnWrite::DirtyTime => set_time(arena, Rest::Dirty, time_in(text)?, times),
        OnWrite::MuzzyTime => set_time(arena, Rest::Muzzy, time_in(text)?, times),
        OnWrite::HookBox => CtlStep::Call(Request::HookBox {
            arena,
            box_no: box_in(text)?,
        }),
        OnWrite::GrowLimit => CtlStep::Call(Request::GrowLimit {
            arena,
            chunks: chunks_in(text)?,
        }),
        OnWrite::NewDirtyTime => CtlStep::Default(Rest::Dirty, time_in(text)?),
        OnWrite::NewMuzzyTime => CtlStep::Default(Rest::Muzzy, time_in(text)?),
        OnWrite::Create => CtlStep::Call(create(box_in(text)?, times)),
        OnWrite::Lookup => CtlStep::Lookup(address_in(text)?),
        OnWrite::FlushCache => CtlStep::Call(Request::FlushCache {
            slot: index_in(text)?,
        }),
        OnWrite::EndCache => CtlStep::Call(Request::EndCache {
            slot: index_in(text)?,
        }),
    })
}
