//! What a line of a control comes to.

ghost use Rattle.std.specs.Prelude.{◌≡◌, ◌<◌, IfOk};
ghost use Rattle.ctl_names.specs.Names.{IsName};
ghost use Rattle.ctl_names.specs.Rows.{class_limit, row_at};
ghost use Rattle.ctl_values.specs.Plans.{action_step, class_number, class_count, plain_step, plan_of, text_of};
ghost use Rattle.ctl_values.specs.Steps.{AreTimes, IsStep};

use crate::steps::{CtlStep, Times, Upkeep, on_arenas, whose};
use crate::writes::{create, written_step};
use call_plan::Request;
use ctl_names::{Action, ClassCount, ClassReading, CtlError, CtlName, OnPlain, row_of};
use heap_stats::{Count, Whose};
use size_classes::{class_pages, size_of, slab_regions};

/// How many small classes there are.
const SMALL_CLASSES: u8 = 36;

/// What a line wants of a control.
#[derive(Clone, Copy)]
pub enum Wish<'a> {
    /// A plain line: that it is read, or acts.
    Plain,
    /// That the text is written to it.
    Write(&'a [u8]),
}

/// What is told of a size class.
fn class_number(reading: ClassReading, class: u32) -> u64
    requires { class < class_limit (OnPlain.ReadsClass reading) }
    ensures { result ≡ class_number reading class }
{
    match reading {
        ClassReading::Size => size_of(class as u8),
        ClassReading::Regions => slab_regions(class as u8),
        ClassReading::SlabSize => class_pages(class as u8) * 4096,
        ClassReading::LargeSize => size_of(SMALL_CLASSES + class as u8),
    }
}

/// The count of a size class.
fn class_count(count: ClassCount, class: u32) -> Count
    requires { class < class_limit (OnPlain.ClassStat count) }
    ensures { result ≡ class_count count class }
{
    match count {
        ClassCount::Regions => Count::Regions(class as u8),
        ClassCount::Slabs => Count::Slabs(class as u8),
        ClassCount::LargeRegions => Count::LargeRegions(class as u8),
    }
}

/// What an action comes to, on the arena with the index.
fn action_step(action: Action, arena: u32, times: Times) -> CtlStep
    requires { AreTimes times }
    ensures step { result ≡ action_step action arena times }
    ensures range { IsStep result }
{
    match action {
        Action::Flush => CtlStep::Call(Request::Flush),
        Action::Decay => on_arenas(Upkeep::Decay { now: times.now }, arena),
        Action::Purge => on_arenas(Upkeep::Purge, arena),
        Action::Reset => CtlStep::Call(Request::Reset { arena }),
        Action::Destroy => CtlStep::Call(Request::Destroy { arena }),
        Action::Create => CtlStep::Call(create(0, times)),
        Action::NewCache => CtlStep::Call(Request::NewCache),
    }
}

/// What a plain line comes to, by the row of the name.
fn plain_step(on_plain: OnPlain, name: CtlName, times: Times) -> Result<CtlStep, CtlError>
    requires class { name.j < class_limit on_plain }
    requires times { AreTimes times }
    ensures step { result ≡ plain_step on_plain name times }
    ensures range { IfOk result IsStep }
{
    let CtlName { i, j, .. } = name;
    Ok(match on_plain {
        OnPlain::Number(number) => CtlStep::Number(number),
        OnPlain::Reads(reading) => CtlStep::Setting(reading),
        OnPlain::ReadsArena(reading) => CtlStep::ArenaSetting(i, reading),
        OnPlain::ReadsClass(reading) => CtlStep::Number(class_number(reading, j)),
        OnPlain::Total(count) => CtlStep::Stat(Whose::All, count),
        OnPlain::Stat(count) => CtlStep::Stat(whose(i), count),
        OnPlain::ClassStat(count) => CtlStep::Stat(whose(i), class_count(count, j)),
        OnPlain::Acts(action) => action_step(action, i, times),
        OnPlain::Wanting => return Err(CtlError::Einval),
        OnPlain::Never => return Err(CtlError::Eperm),
    })
}

/// What a wish for a control comes to at a moment, with the decay times that arenas are created with. The name is one that
/// was read. Each request is in range, and each time is one that may be set.
///
/// # Errors
///
/// `Eperm` where a text is written and nothing may be, or none is and one has to be written; else `Einval` where the text is no value of its kind, or where a
/// value is wanted and none is given.
pub fn plan(name: CtlName, wish: Wish, times: Times) -> Result<CtlStep, CtlError>
    requires name { IsName name }
    requires times { AreTimes times }
    ensures step { result ≡ plan_of name (text_of wish.entry) times }
    ensures range { IfOk result IsStep }
{
    let (_, on_plain, on_write) = row_of(name);
    match wish {
        Wish::Plain => plain_step(on_plain, name, times),
        Wish::Write(text) => written_step(on_write, text, name.i, times),
    }
}
