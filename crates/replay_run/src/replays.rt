//! The replay of a trace: its lines are carried out, and what they answer is printed.

ghost use Rattle.std.specs.Prelude.{◌≡◌, ◌≢◌, ◌+◌, ◌<◌, ◌≤◌, ◌⊎◌, ◌++◌, ℕ, false, true, List, [], Option, Result, Err, map, replicate, None, IfErr, IfOk, OnErr, OnOk};
ghost use Rattle.edge_io.specs.Bytes.{Appends, AppendsPrefix, Keeps, Rose};
ghost use Rattle.hook_api.specs.declared.kept.Journal.{Journal};
ghost use Rattle.heap_core.specs.Arenas.{journal_of};
ghost use Rattle.heap_core.specs.Heaps.{opening_heap};
ghost use Rattle.report_text.specs.Lines.{bad_line};
ghost use Rattle.replay_run.specs.Causes.{line_limit, status_of};
ghost use Rattle.replay_run.specs.Replays.{DoesNothing, HandsOut, ReplayOf, closing_in, json_line};
ghost use Rattle.replay_run.specs.SoFar.{Between, GoesNext, IsUnread, Outset, now_of, reading};
ghost use Rattle.replay_run.specs.Stops.{HasStopCause, IsReplayStatus, IsWholeStatus, status_in};
ghost use Rattle.replay_run.specs.declared.input.Stop.TheVariants.{ReadFault, WriteFault};
ghost use Rattle.replay_run.specs.Controls.{opening_controls};
ghost use Rattle.replay_run.specs.World.{closing, closing_line, live_counts, no_answers};

use crate::counts::all_counts;
use crate::input::{Found, Stop, find_line, has_more, read_line};
use crate::lines::carry_line;
use crate::prints::{flush, print};
use crate::state::State;
use edge_io::{Sink, Source};
use heap_core::ARENAS;
use heap_stats::json;
use hook_api::{Askeds, ExtentHooks, HookShelf, Journals};
use line_reader::Pending;
use report_text::{Cause, bad_line, counts_line};
use space_model::Counts;
use std::alloc::{AllocError as NoMemory, Global};

/// Every line was carried out.
const DONE: u8 = 0;

/// A line can't be carried out.
const BAD_LINE: u8 = 3;

/// A read failed.
const SOURCE_FAILED: u8 = 4;

/// A write failed.
const SINK_FAILED: u8 = 5;

/// Memory was wanting.
const NO_MEMORY: u8 = 6;

/// A limit of traces was passed.
const OVER_LIMIT: u8 = 7;

/// How many lines a trace has at most.
const LINES: u64 = 1 << 20;

/// What a replay or a soak leaves.
#[derive(Drop)]
pub struct Replayed<H: ExtentHooks> {
    /// The status: 0, or 3 where a line can't be carried out, 4 where a read failed, 5 where a write failed, 6 where memory was
    /// wanting, and 7 where a limit was passed. A soak reads nothing, and has only 0, 5 and 6.
    pub status: u8,
    /// The shelf that was handed in, after the asks of the run and the plans of its lines.
    pub shelf: HookShelf<H>,
    /// The journals of the 32 arenas, or none where memory for a heap was wanting.
    pub journals: Journals,
    /// Every ask of the run, in order.
    pub heard: Askeds,
}

/// How a replay tells the counts of the live arenas at its end.
#[derive(Clone, Copy, Debug, PartialEq, Eq)]
pub enum Closing {
    /// By a count line for each.
    Lines,
    /// By one line of compact JSON.
    Json,
}

/// What a look for the next line led to.
#[derive(Clone, Copy)]
pub enum Next {
    /// It was carried out.
    Carried,
    /// It can't be, for this cause.
    Bad(Cause),
    /// There is none.
    Over,
}

/// What bytes without a whole line lead to.
fn unread(found: Found, pending: &Pending) -> Next
    ensures { IsUnread found pending.now result }
{
    match found {
        Found::TooLong => Next::Bad(Cause::LimitBytes),
        _ if pending.as_slice().is_empty() => Next::Over,
        _ => Next::Bad(Cause::Cut),
    }
}

/// Looks for the next line, and carries it out.
fn next_line<S: Source<K>, K: Sink, H: ExtentHooks>(
    alloc: Global,
    source: &mut S,
    sink: &mut K,
    shelf: &mut HookShelf<H>,
    state: &mut State,
    pending: &mut Pending,
) -> Result<Next, Stop>
    ensures goes { (from : Outset) (left : Option (List ℕ)) (count : ℕ) → count < line_limit
        → Between from left count (reading pending.old (S.left source.old) (S.ended source.old)) (now_of state.old shelf.old (K.held sink.old))
        → GoesNext from left count result (reading pending.new (S.left source.new) (S.ended source.new)) (now_of state.new shelf.new (K.held sink.new)) }
    ensures cause { IfErr result (λ stop. HasStopCause stop (S.faults source.old) (S.faults source.new) (K.faults sink.old) (K.faults sink.new)) }
    ensures unfailed { OnOk result (S.faults source.new ≡ S.faults source.old) }
    ensures sink_unfailed { OnOk result (K.faults sink.new ≡ K.faults sink.old) }
    ensures patient { S.hasty source.new ≡ S.hasty source.old }
    ensures source_counts { S.faults source.old ≤ S.faults source.new }
    ensures sink_counts { K.faults sink.old ≤ K.faults sink.new }
{
    let found = find_line(source, sink, pending)?;
    let Found::Line(end) = found else {
        return Ok(unread(found, pending));
    };
    match read_line(alloc, state.moment, &pending.as_slice()[..end])? {
        Err(cause) => Ok(Next::Bad(cause)),
        Ok(line) => {
            pending.skip(end + 1);
            carry_line(alloc, sink, shelf, state, line)?;
            Ok(Next::Carried)
        }
    }
}

/// The status of a bad line.
fn status_of(cause: Cause) -> u8
    ensures { result ≡ status_of cause }
{
    match cause {
        Cause::LimitLines | Cause::LimitBytes | Cause::LimitThreads => OVER_LIMIT,
        _ => BAD_LINE,
    }
}

/// Prints that a line can't be carried out, by its number and the cause, and gives the status.
fn refuse_line<K: Sink>(alloc: Global, sink: &mut K, number: u64, cause: Cause) -> Result<u8, Stop>
    ensures status { IfOk result (λ told. told ≡ status_of cause) }
    ensures text { OnOk result (Appends (K.held sink.old) (K.held sink.new) (bad_line number cause)) }
    ensures beginning { OnErr result (AppendsPrefix (K.held sink.old) (K.held sink.new) (bad_line number cause)) }
    ensures cause { IfErr result (λ stop. HasStopCause stop 0 0 (K.faults sink.old) (K.faults sink.new)) }
    ensures unfailed { OnOk result (K.faults sink.new ≡ K.faults sink.old) }
    ensures sink_counts { K.faults sink.old ≤ K.faults sink.new }
{
    let mut text = Vec::new(alloc);
    bad_line(&mut text, number, cause)?;
    print(sink, &text)?;
    Ok(status_of(cause))
}

/// Writes the closing line of an arena, where it is live.
fn write_closing(out: &mut Vec<u8>, index: u32, counts: Option<Counts>) -> Result<(), NoMemory>
    ensures { OnOk result (out.new.items ≡ out.old.items ++ closing_line index counts) }
{
    match counts {
        Some(counts) => counts_line(out, index, &counts),
        None => Ok(()),
    }
}

/// The count lines of the live arenas, by index.
pub fn closing_text(alloc: Global, state: &State) -> Result<Vec<u8>, NoMemory>
    ensures { IfOk result (λ text. text.items ≡ closing state.now.heap) }
{
    let mut text = Vec::new(alloc);
    for index in 0..ARENAS {
        write_closing(&mut text, index, state.heap.counts(index))?;
    }
    Ok(text)
}

/// Prints a text, if there was memory for it, and gives the status of a run that went on to its end.
pub fn print_last<K: Sink>(sink: &mut K, text: Result<Vec<u8>, NoMemory>) -> Result<u8, Stop>
    ensures status { IfOk result (λ told. told ≡ 0) }
    ensures text { (bytes : List ℕ) → IfOk text (λ t. t.items ≡ bytes) → OnOk result (Appends (K.held sink.old) (K.held sink.new) bytes) }
    ensures beginning { (bytes : List ℕ) → IfOk text (λ t. t.items ≡ bytes) → OnErr result (AppendsPrefix (K.held sink.old) (K.held sink.new) bytes) }
    ensures cause { IfErr result (λ stop. HasStopCause stop 0 0 (K.faults sink.old) (K.faults sink.new)) }
    ensures unfailed { OnOk result (K.faults sink.new ≡ K.faults sink.old) }
    ensures sink_counts { K.faults sink.old ≤ K.faults sink.new }
{
    let text = text?;
    print(sink, &text)?;
    Ok(DONE)
}

/// The counts of the live arenas as one line of compact JSON.
fn closing_json(alloc: Global, state: &State) -> Result<Vec<u8>, NoMemory>
    ensures { IfOk result (λ text. text.items ≡ json_line state.now.heap) }
{
    let counts = all_counts(&state.heap);
    let mut text = json(alloc, &counts)?.into_bytes();
    text.push(b'\n')?;
    Ok(text)
}

/// The text of the counts at the end, in this form.
fn closing_in(alloc: Global, state: &State, closing: Closing) -> Result<Vec<u8>, NoMemory>
    ensures { IfOk result (λ text. text.items ≡ closing_in closing state.now.heap) }
{
    match closing {
        Closing::Lines => closing_text(alloc, state),
        Closing::Json => closing_json(alloc, state),
    }
}

/// Prints the counts at the end, and gives the status.
fn close<K: Sink>(alloc: Global, sink: &mut K, state: &State, closing: Closing) -> Result<u8, Stop>
    ensures status { IfOk result (λ told. told ≡ 0) }
    ensures text { OnOk result (Appends (K.held sink.old) (K.held sink.new) (closing_in closing state.now.heap)) }
    ensures beginning { OnErr result (AppendsPrefix (K.held sink.old) (K.held sink.new) (closing_in closing state.now.heap)) }
    ensures cause { IfErr result (λ stop. HasStopCause stop 0 0 (K.faults sink.old) (K.faults sink.new)) }
    ensures unfailed { OnOk result (K.faults sink.new ≡ K.faults sink.old) }
    ensures sink_counts { K.faults sink.old ≤ K.faults sink.new }
{
    print_last(sink, closing_in(alloc, state, closing))
}

/// Carries out the lines of the source, and gives the status: 0, or that of the first bad line.
fn run_lines<S: Source<K>, K: Sink, H: ExtentHooks>(
    alloc: Global,
    source: &mut S,
    sink: &mut K,
    shelf: &mut HookShelf<H>,
    state: &mut State,
    closing: Closing,
) -> Result<u8, Stop>
    requires heap { state.old.heap ≡ opening_heap }
    requires calls { state.old.calls.items ≡ replicate 32 None }
    requires names { state.old.names ≡ [] }
    requires tally { state.old.tally ≡ no_answers }
    requires controls { state.old.controls ≡ opening_controls }
    requires moment { state.old.moment ≡ 0 }
    ensures replay { ReplayOf closing (status_in result) (map journal_of state.new.heap.records) state.new.heap.heard shelf.old
        shelf.new (S.ended source.new) (S.left source.old) (S.left source.new) (K.held sink.old) (K.held sink.new) }
    ensures status { IfOk result (λ status. (status ≡ 0) ⊎ (status ≡ 3) ⊎ (status ≡ 7)) }
    ensures cause { IfErr result (λ stop. HasStopCause stop (S.faults source.old) (S.faults source.new) (K.faults sink.old) (K.faults sink.new)) }
    ensures unfailed { OnOk result (S.faults source.new ≡ S.faults source.old) }
    ensures sink_unfailed { OnOk result (K.faults sink.new ≡ K.faults sink.old) }
    ensures patient { S.hasty source.new ≡ S.hasty source.old }
    ensures source_counts { S.faults source.old ≤ S.faults source.new }
    ensures sink_counts { K.faults sink.old ≤ K.faults sink.new }
{
    state.heap.stands();
    let mut pending = Pending::new(alloc);
    for count in 0..LINES {
        match next_line(alloc, source, sink, shelf, state, &mut pending)? {
            Next::Carried => {}
            Next::Bad(cause) => return refuse_line(alloc, sink, count + 1, cause),
            Next::Over => return close(alloc, sink, state, closing),
        }
    }
    if has_more(source, sink, &pending)? {
        return refuse_line(alloc, sink, LINES + 1, Cause::LimitLines);
    }
    close(alloc, sink, state, closing)
}

/// The status of a replay whose lines ended so.
fn status_in(ended: Result<u8, Stop>) -> u8
    requires { IfOk ended (λ status. (status ≡ 0) ⊎ (status ≡ 3) ⊎ (status ≡ 7)) }
    ensures status { result ≡ status_in ended }
    ensures read_fault { result ≡ 4 → ended ≡ Err ReadFault }
    ensures write_fault { result ≡ 5 → ended ≡ Err WriteFault }
    ensures known { IsReplayStatus result }
{
    match ended {
        Ok(status) => status,
        Err(Stop::ReadFault) => SOURCE_FAILED,
        Err(Stop::WriteFault) => SINK_FAILED,
        Err(Stop::NoMemory) => NO_MEMORY,
    }
}

/// Hands on what waits in the sink at the end of a replay, which has a failed write where that fails and nothing else did.
fn flush_last<K: Sink>(sink: &mut K, ended: Result<u8, Stop>) -> Result<u8, Stop>
    ensures kept { Keeps (K.held sink.old) (K.held sink.new) }
    ensures same { (result ≡ ended) ⊎ ((result ≡ Err WriteFault) × Rose (K.faults sink.old) (K.faults sink.new)) }
    ensures unfailed { OnOk result (K.faults sink.new ≡ K.faults sink.old) }
    ensures handed_on { OnOk result (K.waits sink.new ≡ false) }
    ensures counts { K.faults sink.old ≤ K.faults sink.new }
{
    match (ended, flush(sink)) {
        (Ok(_), Err(stop)) => Err(stop),
        (ended, _) => ended,
    }
}

/// What a run leaves for which there was no memory: the shelf that was handed in, and nothing else.
pub fn nothing<H: ExtentHooks>(alloc: Global, shelf: HookShelf<H>) -> Replayed<H>
    ensures status { result.status ≡ 6 }
    ensures shelf { result.shelf ≡ shelf }
    ensures journals { result.journals ≡ [] }
    ensures heard { result.heard ≡ [] }
{
    Replayed {
        status: NO_MEMORY,
        shelf,
        journals: Journals::none(alloc),
        heard: Askeds::new(alloc),
    }
}

/// What a run leaves whose lines ended so, once what waits in the sink is handed on.
pub fn leave<K: Sink, H: ExtentHooks>(
    sink: &mut K,
    shelf: HookShelf<H>,
    state: State,
    ended: Result<u8, Stop>,
) -> Replayed<H>
    requires { IfOk ended (λ status. (status ≡ 0) ⊎ (status ≡ 3) ⊎ (status ≡ 7)) }
    ensures status { (result.status ≡ status_in ended) ⊎ ((result.status ≡ 5) × Rose (K.faults sink.old) (K.faults sink.new)) }
    ensures shelf { result.shelf ≡ shelf }
    ensures journals { result.journals ≡ map journal_of state.heap.records }
    ensures heard { result.heard ≡ state.heap.heard }
    ensures kept { Keeps (K.held sink.old) (K.held sink.new) }
    ensures unfailed { IsWholeStatus result.status → K.faults sink.new ≡ K.faults sink.old }
    ensures handed_on { IsWholeStatus result.status → K.waits sink.new ≡ false }
    ensures counts { K.faults sink.old ≤ K.faults sink.new }
    ensures known { IsReplayStatus result.status }
{
    let ended = flush_last(sink, ended);
    let (journals, heard) = state.into_heap().finish();
    Replayed {
        status: status_in(ended),
        shelf,
        journals,
        heard,
    }
}

/// Carries out the lines of a source over a new heap, asks the hooks of the shelf, and prints what the calls answer and the
/// counts of the arenas that are live at the end.
///
/// The first bad line is answered by its number and its cause, and ends the replay: with status 7 where it is behind the
/// 1,048,576 lines that a trace may have, has more than 256 bytes or names a client above 31, and else with status 3. After a
/// read that failed the status is 4, after a write that failed 5, and 6 where memory was wanting. The journals and the asks are
/// those up to there. Only where memory for the heap itself was wanting, and nothing was read, asked or printed, no journals
/// are handed back.
pub fn replay<S: Source<K>, K: Sink, H: ExtentHooks>(
    alloc: Global,
    source: &mut S,
    sink: &mut K,
    shelf: HookShelf<H>,
    closing: Closing,
) -> Replayed<H>
    ensures replay { (journals : List Journal) × ReplayOf closing result.status journals result.heard shelf result.shelf
        (S.ended source.new) (S.left source.old) (S.left source.new) (K.held sink.old) (K.held sink.new)
        × HandsOut journals result.journals (DoesNothing result.status result.heard shelf result.shelf
        (S.left source.old) (S.left source.new) (K.held sink.old) (K.held sink.new)) }
    ensures ended { result.status ≡ 0 → S.ended source.new ≡ true }
    ensures read_fault { result.status ≡ 4 → Rose (S.faults source.old) (S.faults source.new) }
    ensures write_fault { result.status ≡ 5 → Rose (K.faults sink.old) (K.faults sink.new) }
    ensures unfailed { IsWholeStatus result.status → S.faults source.new ≡ S.faults source.old }
    ensures sink_unfailed { IsWholeStatus result.status → K.faults sink.new ≡ K.faults sink.old }
    ensures handed_on { IsWholeStatus result.status → K.waits sink.new ≡ false }
    ensures patient { S.hasty source.new ≡ S.hasty source.old }
    ensures known { IsReplayStatus result.status }
{
    let mut shelf = shelf;
    let Ok(mut state) = State::new(alloc) else {
        return nothing(alloc, shelf);
    };
    let ended = run_lines(alloc, source, sink, &mut shelf, &mut state, closing);
    leave(sink, shelf, state, ended)
}
