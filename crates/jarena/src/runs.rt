//! The top call: all that the program does, over a source, a sink and a shelf of hooks.

ghost use Rattle.std.specs.Prelude.{◌≡◌, ◌⊎◌, ℕ, Bool, [], None, false, map, string_bytes};
ghost use Rattle.replay_run.specs.declared.replays.Closing.{Closing};
ghost use Rattle.jarena.specs.Runs.{Checks, OnlyTellsUsage, Replays, RunsThreads, Soaks, run_facts, sink_facts, source_facts};
ghost use Rattle.jarena.specs.Words.{IsCheck, IsInNoList, IsReplay, IsSoak, IsThreads};

use crate::checks::check_journals;
use crate::words::{Asked, asked_by, tell_usage};
use chunk_table::ChunkBook;
use edge_io::{Sink, Source};
use hook_api::{Askeds, ExtentHooks, HookShelf, Journals};
use phase_run::{Threaded, threads};
use replay_run::{Replayed, replay, soak};
use std::alloc::Global;
use std::sync::Wait;
use std::thread::Threads;
use trace_soak::Lines;

/// What a run of the program leaves.
#[derive(Drop)]
pub struct Outcome<H: ExtentHooks> {
    /// The status that the program exits with.
    pub status: u8,
    /// The shelf that was handed in, after the asks of the run.
    pub shelf: HookShelf<H>,
    /// The journals of the arenas; none where the words ask for no run of calls, or memory for the arenas was wanting.
    pub journals: Journals,
    /// Every ask of the run, in order; none where the words ask for no run of calls.
    pub heard: Askeds,
    /// The chunks that each arena owned at the end, where threads hand journals back.
    pub chunks: Option<ChunkBook>,
}

/// The outcome of a run that carried lines out.
fn outcome_of<H: ExtentHooks>(replayed: Replayed<H>) -> Outcome<H>
    ensures status { result.status ≡ replayed.status }
    ensures shelf { result.shelf ≡ replayed.shelf }
    ensures journals { result.journals ≡ replayed.journals }
    ensures heard { result.heard ≡ replayed.heard }
    ensures chunks { result.chunks ≡ None }
{
    Outcome {
        status: replayed.status,
        shelf: replayed.shelf,
        journals: replayed.journals,
        heard: replayed.heard,
        chunks: None,
    }
}

/// The outcome of a run of threads.
fn of_threads<H: ExtentHooks>(alloc: Global, threaded: Threaded<H>) -> Outcome<H>
    ensures status { result.status ≡ threaded.status }
    ensures shelf { result.shelf ≡ threaded.shelf }
    ensures journals { result.journals ≡ threaded.journals }
    ensures heard { result.heard ≡ [] }
    ensures chunks { result.chunks ≡ threaded.chunks }
{
    Outcome {
        status: threaded.status,
        shelf: threaded.shelf,
        journals: threaded.journals,
        heard: Askeds::new(alloc),
        chunks: threaded.chunks,
    }
}

/// The outcome of a run that asked no hook.
fn untouched<H: ExtentHooks>(alloc: Global, status: u8, shelf: HookShelf<H>) -> Outcome<H>
    ensures status { result.status ≡ status }
    ensures shelf { result.shelf ≡ shelf }
    ensures journals { result.journals ≡ [] }
    ensures heard { result.heard ≡ [] }
    ensures chunks { result.chunks ≡ None }
{
    Outcome {
        status,
        shelf,
        journals: Journals::none(alloc),
        heard: Askeds::new(alloc),
        chunks: None,
    }
}

/// Does all that the program does, given its words without its own name.
///
/// Where the words are exactly `replay`, it carries out the lines of the source and prints what they answer, and a count line for
/// each live arena at the end; where they are exactly `replay --json`, one line of JSON in place of these. Where they are exactly
/// `soak START CALLS`, it carries out lines that are drawn, and prints the counts at their end. Where they are exactly
/// `threads`, it reads all lines of the source, carries them out with the clients of each phase beside each other, and prints the
/// summary of the journals; with `--journal` the journals follow. Where they are exactly
/// `check`, it judges the lines of the source as printed journals. Where they are in no list, it writes the usage line and gives
/// status 2, or 5 where the sink failed, and does nothing else.
pub fn run<R: Threads + Wait + Sync, S: Source<K>, K: Sink, H: ExtentHooks + Send>(
    rt: &R,
    alloc: Global,
    words: &[String],
    source: &mut S,
    sink: &mut K,
    shelf: HookShelf<H>,
) -> Outcome<H>
    ensures usage { IsInNoList (map string_bytes words.now) → OnlyTellsUsage (run_facts result.status result.shelf result.journals result.heard result.chunks) shelf
        (sink_facts (K.held sink.old) (K.faults sink.old) (K.waits sink.old)) (sink_facts (K.held sink.new) (K.faults sink.new) (K.waits sink.new)) }
    ensures status_2 { result.status ≡ 2 → IsInNoList (map string_bytes words.now) }
    ensures unread { ((form : Closing) × IsReplay (map string_bytes words.now) form) ⊎ (((with_journals : Bool) × IsThreads (map string_bytes words.now) with_journals)
        ⊎ (IsCheck (map string_bytes words.now) ⊎ (source.new ≡ source.old))) }
    ensures replay { (form : Closing) → IsReplay (map string_bytes words.now) form → Replays form (run_facts result.status result.shelf result.journals result.heard result.chunks) shelf
        (source_facts (S.left source.old) (S.ended source.old) (S.faults source.old)) (source_facts (S.left source.new) (S.ended source.new) (S.faults source.new))
        (sink_facts (K.held sink.old) (K.faults sink.old) (K.waits sink.old)) (sink_facts (K.held sink.new) (K.faults sink.new) (K.waits sink.new)) }
    ensures patient { (K.waits sink.old ≡ false) ⊎ ((form : Closing) × IsReplay (map string_bytes words.now) form) → S.hasty source.new ≡ S.hasty source.old }
    ensures soak { (start : ℕ) (calls : ℕ) → IsSoak (map string_bytes words.now) start calls
        → Soaks start calls (run_facts result.status result.shelf result.journals result.heard result.chunks) shelf
        (sink_facts (K.held sink.old) (K.faults sink.old) (K.waits sink.old)) (sink_facts (K.held sink.new) (K.faults sink.new) (K.waits sink.new)) }
    ensures threads { (with_journals : Bool) → IsThreads (map string_bytes words.now) with_journals
        → RunsThreads with_journals (run_facts result.status result.shelf result.journals result.heard result.chunks) shelf
        (source_facts (S.left source.old) (S.ended source.old) (S.faults source.old)) (source_facts (S.left source.new) (S.ended source.new) (S.faults source.new))
        (sink_facts (K.held sink.old) (K.faults sink.old) (K.waits sink.old)) (sink_facts (K.held sink.new) (K.faults sink.new) (K.waits sink.new)) }
    ensures check { IsCheck (map string_bytes words.now) → Checks (run_facts result.status result.shelf result.journals result.heard result.chunks) shelf
        (source_facts (S.left source.old) (S.ended source.old) (S.faults source.old)) (source_facts (S.left source.new) (S.ended source.new) (S.faults source.new))
        (sink_facts (K.held sink.old) (K.faults sink.old) (K.waits sink.old)) (sink_facts (K.held sink.new) (K.faults sink.new) (K.waits sink.new)) }
{
    match asked_by(words) {
        Asked::Replay(closing) => outcome_of(replay(alloc, source, sink, shelf, closing)),
        Asked::Soak { start, calls } => {
            outcome_of(soak(alloc, Lines::new(start, calls), sink, shelf))
        }
        Asked::Check => untouched(alloc, check_journals(alloc, source, sink), shelf),
        Asked::Threads { with_journals } => {
            let threaded = threads(rt, alloc, source, sink, shelf, with_journals);
            of_threads(alloc, threaded)
        }
        Asked::Nothing => untouched(alloc, tell_usage(sink), shelf),
    }
}
