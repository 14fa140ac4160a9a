//! The soak: lines that are drawn are carried out, and the counts at their end are printed.

ghost use Rattle.std.specs.Prelude.{◌≡◌, ◌≤◌, ◌++◌, false, List, [], map, replicate, None, IfErr, IfOk, OnOk};
ghost use Rattle.edge_io.specs.Bytes.{Rose};
ghost use Rattle.hook_api.specs.declared.kept.Journal.{Journal};
ghost use Rattle.heap_core.specs.Arenas.{journal_of};
ghost use Rattle.heap_core.specs.Heaps.{opening_heap};
ghost use Rattle.report_text.specs.Lines.{calls_line};
ghost use Rattle.replay_run.specs.declared.replays.Closing.{Closing};
ghost use Rattle.replay_run.specs.Replays.{DoesNothing, HandsOut};
ghost use Rattle.replay_run.specs.SoFar.{Here, Halted, Outset, now_of};
ghost use Rattle.replay_run.specs.Soaks.{IsSoakStatus, SoakOf};
ghost use Rattle.replay_run.specs.Stops.{HasStopCause, status_in};
ghost use Rattle.trace_text.specs.declared.lines.Line.{Line};
ghost use Rattle.replay_run.specs.Controls.{opening_controls};
ghost use Rattle.replay_run.specs.World.{Nothing, closing, no_answers};

use crate::input::Stop;
use crate::lines::carry_line;
use crate::replays::{Replayed, closing_text, leave, nothing, print_last};
use crate::state::State;
use edge_io::{Quiet, Sink};
use hook_api::{ExtentHooks, HookShelf};
use report_text::calls_line;
use std::alloc::{AllocError as NoMemory, Global};
use trace_soak::Lines;

/// The count lines of the live arenas, and how many calls answered Ok and how many otherwise.
fn soak_text(alloc: Global, state: &State, calls: u64) -> Result<Vec<u8>, NoMemory>
    ensures { IfOk result (λ text. text.items ≡ closing state.now.heap ++ calls_line calls state.now.tally.good state.now.tally.failed) }
{
    let mut text = closing_text(alloc, state)?;
    calls_line(&mut text, calls, state.tally.good, state.tally.failed)?;
    Ok(text)
}

/// Carries out all lines, and prints nothing of them.
fn carry_lines<H: ExtentHooks>(
    alloc: Global,
    mut lines: Lines,
    shelf: &mut HookShelf<H>,
    state: &mut State,
) -> Result<(), Stop>
    requires heap { state.old.heap ≡ opening_heap }
    requires calls { state.old.calls.items ≡ replicate 32 None }
    requires names { state.old.names ≡ [] }
    requires tally { state.old.tally ≡ no_answers }
    requires controls { state.old.controls ≡ opening_controls }
    requires moment { state.old.moment ≡ 0 }
    ensures through { OnOk result (Here (record { shelf = shelf.old; held = None; form = Closing.Lines }) lines Nothing [] (now_of state.new shelf.new None)) }
    ensures halted { IfErr result (λ stop. (done : List Line) × (rest : List Line) × (lines ≡ done ++ rest)
        × Halted (record { shelf = shelf.old; held = None; form = Closing.Lines }) done stop (now_of state.new shelf.new None)) }
    ensures cause { IfErr result (λ stop. HasStopCause stop 0 0 0 0) }
{
    state.heap.stands();
    let mut quiet = Quiet::new();
    'draws: while let Some(line) = lines.next_line(alloc)? {
        carry_line(alloc, &mut quiet, shelf, state, line)?;
    }
    Ok(())
}

/// Carries out all lines, prints the counts at their end, and gives the status of a run that went on to its end.
fn run_soak<K: Sink, H: ExtentHooks>(
    alloc: Global,
    lines: Lines,
    sink: &mut K,
    shelf: &mut HookShelf<H>,
    state: &mut State,
) -> Result<u8, Stop>
    requires heap { state.old.heap ≡ opening_heap }
    requires calls { state.old.calls.items ≡ replicate 32 None }
    requires names { state.old.names ≡ [] }
    requires tally { state.old.tally ≡ no_answers }
    requires controls { state.old.controls ≡ opening_controls }
    requires moment { state.old.moment ≡ 0 }
    ensures soak { SoakOf (status_in result) lines (map journal_of state.new.heap.records) state.new.heap.heard shelf.old shelf.new (K.held sink.old) (K.held sink.new) }
    ensures status { IfOk result (λ status. status ≡ 0) }
    ensures cause { IfErr result (λ stop. HasStopCause stop 0 0 (K.faults sink.old) (K.faults sink.new)) }
    ensures unfailed { OnOk result (K.faults sink.new ≡ K.faults sink.old) }
    ensures counts { K.faults sink.old ≤ K.faults sink.new }
{
    let calls = lines.len();
    carry_lines(alloc, lines, shelf, state)?;
    print_last(sink, soak_text(alloc, state, calls))
}

/// Carries out lines that are drawn over a new heap, asks the hooks of the shelf, and prints the counts of the arenas that are
/// live at the end, and how many calls answered Ok and how many otherwise. The calls themselves print nothing.
///
/// After a write that failed the status is 5, and 6 where memory was wanting; before the last line nothing is printed. The
/// journals and the asks are those up to there. Only where memory for the heap itself was wanting, and nothing was asked or
/// printed, no journals are handed back.
pub fn soak<K: Sink, H: ExtentHooks>(
    alloc: Global,
    lines: Lines,
    sink: &mut K,
    shelf: HookShelf<H>,
) -> Replayed<H>
    ensures soak { (journals : List Journal) × SoakOf result.status lines journals result.heard shelf result.shelf (K.held sink.old) (K.held sink.new)
        × HandsOut journals result.journals (DoesNothing result.status result.heard shelf result.shelf None None (K.held sink.old) (K.held sink.new)) }
    ensures write_fault { result.status ≡ 5 → Rose (K.faults sink.old) (K.faults sink.new) }
    ensures unfailed { result.status ≡ 0 → K.faults sink.new ≡ K.faults sink.old }
    ensures handed_on { result.status ≡ 0 → K.waits sink.new ≡ false }
    ensures known { IsSoakStatus result.status }
{
    let mut shelf = shelf;
    let Ok(mut state) = State::new(alloc) else {
        return nothing(alloc, shelf);
    };
    let ended = run_soak(alloc, lines, sink, &mut shelf, &mut state);
    leave(sink, shelf, state, ended)
}
