//! What controls read and write beside the heap.

ghost use Rattle.std.specs.Prelude.{◌≡◌, ◌<◌, ◌+◌, ◌^◌, fold, true, Ok};
ghost use Rattle.std.specs.List.{range_with_len};
ghost use Rattle.space_model.specs.Purging.{is_purgeable};
ghost use Rattle.space_model.specs.Settings.{is_decay_time};
ghost use Rattle.ctl_values.specs.Steps.{AreTimes, IsStep};
ghost use Rattle.sits.specs.Arenas.{record_at};
ghost use Rattle.heap_core.specs.Arenas.{where_live};
ghost use Rattle.heap_stats.specs.Stats.{stat_of};
ghost use Rattle.replay_run.specs.Beginnings.{arena_with};
ghost use Rattle.replay_run.specs.Controls.{arena_answer, arena_count, controls_by, error_answer, live_answer, lookup_answer, opening_controls, or_gone, refreshed, setting_answer, times_at, with_default};

use crate::counts::all_counts;
use ctl_names::{ArenaReading, CtlError, Reading};
use ctl_values::{CtlStep, Times};
use heap_core::{ARENAS, Heap};
use heap_stats::{Count, Snapshot, Whose};
use report_text::CtlAnswer;
use space_model::{DIRTY_MS, MUZZY_MS, Rest};
use std::marker::Model;

/// How many bytes a chunk has.
const CHUNK_BYTES: u64 = 2097152;

/// What controls read and write beside the heap: the counts of the last refresh, how often there was one, and the decay times with
/// which arenas are created.
#[derive(Drop)]
pub struct Controls {
    snapshot: Snapshot,
    refreshes: u64,
    dirty_ms: i64,
    muzzy_ms: i64,
}

impl Model for Controls {
    ghost use Rattle.std.specs.Prelude.{◌≡◌, true};
    ghost use Rattle.space_model.specs.Settings.{is_decay_time};
    ghost use Rattle.replay_run.specs.Controls.{ControlFacts};

    ghost Value = { ControlFacts };

    ghost view = { λ k. record { snapshot = k.snapshot; refreshes = k.refreshes; dirty_ms = k.dirty_ms; muzzy_ms = k.muzzy_ms } };

    ghost invariant = { λ k. (is_decay_time k.dirty_ms ≡ true) × (is_decay_time k.muzzy_ms ≡ true) };
}

impl Controls {
    /// Those before the first line: nothing was refreshed.
    pub fn new() -> Controls
        ensures { result ≡ opening_controls }
    {
        Controls {
            snapshot: Snapshot::zero(),
            refreshes: 0,
            dirty_ms: DIRTY_MS,
            muzzy_ms: MUZZY_MS,
        }
    }

    /// The moment of a line in nanoseconds, and the decay times with which arenas are created.
    pub fn times(&self, now: u64) -> Times
        ensures times { result ≡ times_at self.now now }
        ensures range { AreTimes result }
    {
        Times {
            now,
            dirty_ms: self.dirty_ms,
            muzzy_ms: self.muzzy_ms,
        }
    }

    /// Sets what a line of a control sets.
    pub fn set(&mut self, heap: &Heap, step: CtlStep)
        requires { IsStep step }
        ensures { self.new ≡ controls_by heap.now.records self.old (Ok step) }
    {
        match step {
            CtlStep::Refresh => self.refresh(heap),
            CtlStep::Default(rest, ms) => self.set_default(rest, ms),
            _ => {}
        }
    }

    /// Arenas are created with this decay time of the list from now on, in milliseconds.
    fn set_default(&mut self, rest: Rest, ms: i64)
        requires { is_decay_time ms ≡ true }
        ensures { self.new ≡ with_default rest ms self.old }
    {
        match rest {
            Rest::Dirty => self.dirty_ms = ms,
            Rest::Muzzy | Rest::Retained => self.muzzy_ms = ms,
        }
    }

    /// Takes the counts of all arenas as they are now.
    #[inline(never)]
    fn refresh(&mut self, heap: &Heap)
        ensures { self.new ≡ refreshed heap.now.records self.old }
    {
        self.snapshot.refresh(&all_counts(heap));
        self.refreshes = self.refreshes.saturating_add(1);
    }

    /// A count of the last refresh.
    pub fn stat(&self, whose: Whose, count: Count) -> u64
        ensures { result ≡ stat_of whose count self.now.snapshot }
    {
        self.snapshot.stat(whose, count)
    }

    /// What is read of the heap, of a client, or of the controls.
    pub fn setting(&self, heap: &Heap, client: u32, reading: Reading) -> CtlAnswer
        requires { client < 32 }
        ensures { result ≡ setting_answer heap.now self.now client reading }
    {
        match reading {
            Reading::Refreshes => CtlAnswer::Number(self.refreshes),
            Reading::ThreadArena => CtlAnswer::Number(u64::from(heap.desk(client).arena())),
            Reading::CacheIsOn => CtlAnswer::Truth(heap.desk(client).caches()),
            Reading::ArenaCount => CtlAnswer::Number(arena_count(heap)),
            Reading::NewDirtyTime => CtlAnswer::Time(self.dirty_ms),
            Reading::NewMuzzyTime => CtlAnswer::Time(self.muzzy_ms),
        }
    }
}

/// The highest live index and one.
fn arena_count(heap: &Heap) -> u64
    ensures { result ≡ arena_count heap.now.records }
{
    let mut count = 0;
    for index in 0..ARENAS {
        if heap.live(index) {
            count = u64::from(index) + 1;
        }
    }
    count
}

/// What is read of an arena that is live.
fn live_answer(heap: &Heap, index: u32, reading: ArenaReading) -> Option<CtlAnswer>
    ensures { result ≡ where_live (live_answer reading) (record_at heap.now.records index).space }
{
    let (box_no, dirty_ms, muzzy_ms) = heap.setting(index)?;
    Some(match reading {
        ArenaReading::IsLive => CtlAnswer::Truth(true),
        ArenaReading::DirtyTime => CtlAnswer::Time(dirty_ms),
        ArenaReading::MuzzyTime => CtlAnswer::Time(muzzy_ms),
        ArenaReading::HookBox => CtlAnswer::Number(u64::from(box_no)),
        ArenaReading::GrowLimit => CtlAnswer::Number(heap.grow_limit(index)? * CHUNK_BYTES),
    })
}

/// What is read of an arena, live or not.
pub fn arena_answer(heap: &Heap, index: u32, reading: ArenaReading) -> CtlAnswer
    ensures { result ≡ arena_answer heap.now.records index reading }
{
    if let ArenaReading::IsLive = reading {
        return CtlAnswer::Truth(heap.live(index));
    }
    match live_answer(heap, index, reading) {
        Some(answer) => answer,
        None => CtlAnswer::Gone(index),
    }
}

/// The index of the arena that has an extent at an address.
pub fn lookup_answer(heap: &Heap, addr: u64) -> CtlAnswer
    ensures { result ≡ lookup_answer (arena_with heap.now.records addr) }
{
    match heap.arena_of(addr) {
        Some(index) => CtlAnswer::Number(u64::from(index)),
        None => CtlAnswer::Einval,
    }
}

/// An error.
pub fn error_answer(error: CtlError) -> CtlAnswer
    ensures { result ≡ error_answer error }
{
    match error {
        CtlError::Enoent => CtlAnswer::Enoent,
        CtlError::Eperm => CtlAnswer::Eperm,
        CtlError::Einval => CtlAnswer::Einval,
    }
}
