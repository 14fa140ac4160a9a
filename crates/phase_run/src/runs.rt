//! A trace whose clients are workers in threads.
ghost use Rattle.std.specs.Prelude.{◌≡◌, ◌≤◌, ◌<◌, ℕ, List, [], None, Some, false, length, map, slice_index, IfOk, IfErr};
ghost use Rattle.std.specs.List.{All, AllByRecursion, sum_by};
ghost use Rattle.heap_runs.specs.Deals.{IsNew};
ghost use Rattle.heap_runs.specs.Heaps.{MayCall, shelf_id};
ghost use Rattle.hook_api.specs.Seats.{refused_at};
ghost use Rattle.hook_api.specs.Shared.{HasCounted, IsNewSeat, IsSeatOf, client_count, orders_of, own_at_share, same_locks};
ghost use Rattle.hook_api.specs.Shelf.{box_at};
ghost use Rattle.hook_api.specs.declared.seat.AskSeat.{AskSeat};
ghost use Rattle.report_text.specs.Lines.{bad_line};
ghost use Rattle.report_text.specs.declared.causes.Cause.TheVariants.{Cut};
ghost use Rattle.trace_phase.specs.Limits.{IsPartWithinLimits};
ghost use Rattle.phase_run.specs.Crews.{AllCarried};
ghost use Rattle.phase_run.specs.Reading.{IfBad};
ghost use Rattle.phase_run.specs.Summaries.{phase_count, summary_text};
ghost use Rattle.phase_run.specs.Threads.{CarriedOut, Runs, RunsPhases, TellsCarried, TellsText, TellsUnread, TellsWhole, held_by, left_by, status_of};
ghost use Rattle.heap_runs.specs.Closes.{counts_left};

use crate::crews::Crew;
use crate::phases::read_phases;
use crate::reading::Unread;
use crate::summaries::{Numbers, summary};
use chunk_table::ChunkBook;
use edge_io::{Failed, Sink, Source, write_whole};
use heap_runs::{Closed, Ctx, SharedHeap};
use hook_api::{AskSeats, ExtentHooks, HookShelf, Journals, SharedShelf};
use report_text::{Cause, bad_line};
use std::alloc::{AllocError as NoMemory, Global};
use std::sync::Wait;
use std::thread::Threads;
use trace_phase::{Part, Phases};

/// Every line was carried out.
const DONE: u8 = 0;

/// A line is bad.
const BAD_LINE: u8 = 3;

/// A read failed.
const SOURCE_FAILED: u8 = 4;

/// A write failed.
const SINK_FAILED: u8 = 5;

/// Memory was wanting.
const NO_MEMORY: u8 = 6;

/// A limit of traces was passed.
const OVER_LIMIT: u8 = 7;

/// How many clients a heap has for a trace.
const CLIENTS: u32 = 32;

/// What a run of threads leaves.
#[derive(Drop)]
pub struct Threaded<H: ExtentHooks> {
    /// The status: 0, or 3 where a line is bad, 4 where a read failed, 5 where a write failed, 6 where memory was wanting, and 7
    /// where a limit was passed.
    pub status: u8,
    /// The shelf that was handed in, after the asks of the run and the plans of its lines.
    pub shelf: HookShelf<H>,
    /// The journals of the 32 arenas, where every line was carried out and memory for the text was there; or none.
    pub journals: Journals,
    /// The chunks that each arena owned at the end, with the journals.
    pub chunks: Option<ChunkBook>,
}

/// What the phases of a trace leave that were carried out.
#[derive(Drop)]
pub struct Carried {
    /// What is left of the heap.
    pub closed: Closed,
    /// The numbers of the trace.
    pub numbers: Numbers,
}

/// What a run leaves that has no journals.
fn without_journals<H: ExtentHooks>(alloc: Global, status: u8, shelf: HookShelf<H>) -> Threaded<H>
    ensures status { result.status ≡ status }
    ensures shelf { result.shelf ≡ shelf }
    ensures journals { result.journals ≡ [] }
    ensures chunks { result.chunks ≡ None }
{
    Threaded {
        status,
        shelf,
        journals: Journals::none(alloc),
        chunks: None,
    }
}

/// The status of a bad line.
fn status_of(cause: Cause) -> u8
    ensures { result ≡ status_of cause }
{
    match cause {
        Cause::LimitLines | Cause::LimitBytes | Cause::LimitThreads => OVER_LIMIT,
        _ => BAD_LINE,
    }
}

/// The text of a bad line.
fn bad_text(alloc: Global, line: u64, cause: Cause) -> Result<Vec<u8>, NoMemory>
    ensures { IfOk result (λ text. text.items ≡ bad_line line cause) }
{
    let mut text = Vec::new(alloc);
    bad_line(&mut text, line, cause)?;
    Ok(text)
}

/// Writes a text, and gives this status, or 5 where a write failed.
fn tell_text<K: Sink>(sink: &mut K, status: u8, text: &[u8]) -> u8
    ensures { TellsWhole text.now status result (held_by (K.held sink.old) (K.faults sink.old) (K.waits sink.old)) (held_by (K.held sink.new) (K.faults sink.new) (K.waits sink.new)) }
{
    match write_whole(sink, text) {
        Ok(()) => status,
        Err(Failed) => SINK_FAILED,
    }
}

/// Writes a text, if there was memory for it, and gives this status, or 5 where a write failed.
fn tell<K: Sink>(sink: &mut K, status: u8, text: Result<Vec<u8>, NoMemory>) -> u8
    ensures { (bytes : List ℕ) → IfOk text (λ t. t.items ≡ bytes) → TellsText bytes status result (held_by (K.held sink.old) (K.faults sink.old) (K.waits sink.old)) (held_by (K.held sink.new) (K.faults sink.new) (K.waits sink.new)) }
{
    match text {
        Ok(text) => tell_text(sink, status, &text),
        Err(NoMemory) => NO_MEMORY,
    }
}

/// Tells why lines aren't read, and gives the status of that.
fn tell_unread<K: Sink>(alloc: Global, sink: &mut K, unread: Unread) -> u8
    ensures { TellsUnread unread result (held_by (K.held sink.old) (K.faults sink.old) (K.waits sink.old)) (held_by (K.held sink.new) (K.faults sink.new) (K.waits sink.new)) }
{
    match unread {
        Unread::Bad { line, cause } => tell(sink, status_of(cause), bad_text(alloc, line, cause)),
        Unread::ReadFault => SOURCE_FAILED,
        Unread::NoMemory => NO_MEMORY,
    }
}

/// Carries parts of a trace out, one behind the other, over a new heap. An `Err` says that memory was wanting.
fn carry_parts<R: Threads + Wait + Sync, H: ExtentHooks + Send>(
    rt: &R,
    alloc: Global,
    heap: &SharedHeap,
    shelf: &mut SharedShelf<H>,
    ctxs: Vec<Ctx>,
    parts: Vec<Part>,
) -> Result<Crew, NoMemory>
    requires new { (seats : List AskSeat) × IsNew heap.now seats ctxs.items × (length seats ≡ 32) }
    requires may { All (MayCall (shelf_id shelf.old) heap.now) ctxs.items }
    requires limits { AllByRecursion IsPartWithinLimits parts.items }
    ensures { IfOk result (λ crew. AllCarried shelf.old heap.now ctxs.items parts.items shelf.new crew) }
{
    let mut crew = Crew::new(alloc, ctxs);
    for part in parts {
        crew = crew.carry(rt, alloc, heap, shelf, part)?;
    }
    Ok(crew)
}

/// How many phases there are.
fn phase_count(parts: &[Part]) -> u64
    ensures { result ≡ phase_count parts.now }
{
    let mut count = 0;
    for part in parts {
        if matches!(part, Part::Phase(_)) {
            count += 1;
        }
    }
    count
}

/// Carries the phases of a trace out over a new heap, and closes that. An `Err` says that memory was wanting.
fn carry_phases<R: Threads + Wait + Sync, H: ExtentHooks + Send>(
    rt: &R,
    alloc: Global,
    shelf: &mut SharedShelf<H>,
    seats: AskSeats,
    phases: Phases,
) -> Result<Carried, NoMemory>
    requires count { length seats.items ≡ 32 }
    requires seats { All (λ seat. IsSeatOf shelf.old seat × IsNewSeat seat) seats.items }
    requires limits { AllByRecursion IsPartWithinLimits phases.parts }
    ensures carried { IfOk result (λ carried. CarriedOut shelf.old phases carried.closed carried.numbers) }
    ensures locks { IfOk result (λ _. same_locks shelf.old shelf.new) }
{
    let Phases { parts, clients } = phases;
    let parts = parts.into_vec();
    let phases = phase_count(&parts);
    let (heap, ctxs) = SharedHeap::new(alloc, seats)?;
    let Crew { ctxs, tally, .. } = carry_parts(rt, alloc, &heap, shelf, ctxs, parts)?;
    let closed = heap.close(alloc, ctxs)?;
    Ok(Carried {
        closed,
        numbers: Numbers {
            clients,
            phases,
            tally,
        },
    })
}

/// Tells what phases leave that were carried out.
fn tell_carried<K: Sink, H: ExtentHooks>(
    alloc: Global,
    sink: &mut K,
    shelf: SharedShelf<H>,
    carried: Carried,
    with_journals: bool,
) -> Threaded<H>
    requires counts { carried.closed.counts.items ≡ map counts_left carried.closed.journals }
    requires seats { All (IsSeatOf shelf) carried.closed.seats.items }
    requires count { length carried.closed.seats.items ≡ client_count shelf }
    ensures counted { (n : ℕ) → n < 32 → HasCounted (slice_index (own_at_share shelf) n) (box_at result.shelf n).account.refusals (sum_by (λ seat. refused_at seat n) carried.closed.seats.items) }
    ensures tells { TellsCarried with_journals carried.closed carried.numbers (left_by result.status result.journals result.chunks)
        (held_by (K.held sink.old) (K.faults sink.old) (K.waits sink.old)) (held_by (K.held sink.new) (K.faults sink.new) (K.waits sink.new)) }
{
    let Carried { closed, numbers } = carried;
    let Closed {
        journals,
        chunks,
        seats,
        counts,
    } = closed;
    let text = summary(alloc, journals.as_slice(), &counts, numbers, with_journals);
    let shelf = shelf.unshare(seats);
    let Ok(text) = text else {
        return without_journals(alloc, NO_MEMORY, shelf);
    };
    Threaded {
        status: tell_text(sink, DONE, &text),
        shelf,
        journals,
        chunks: Some(chunks),
    }
}

/// Carries phases out over the boxes of a shelf, and tells what they leave.
fn run_phases<R: Threads + Wait + Sync, K: Sink, H: ExtentHooks + Send>(
    rt: &R,
    alloc: Global,
    sink: &mut K,
    shelf: HookShelf<H>,
    phases: Phases,
    with_journals: bool,
) -> Threaded<H>
    requires limits { AllByRecursion IsPartWithinLimits phases.parts }
    ensures { RunsPhases with_journals phases shelf result.shelf (left_by result.status result.journals result.chunks)
        (held_by (K.held sink.old) (K.faults sink.old) (K.waits sink.old)) (held_by (K.held sink.new) (K.faults sink.new) (K.waits sink.new)) }
{
    let (mut shelf, seats) = match shelf.share(alloc, CLIENTS) {
        Ok(shared) => shared,
        Err((shelf, NoMemory)) => return without_journals(alloc, NO_MEMORY, shelf),
    };
    match carry_phases(rt, alloc, &mut shelf, seats, phases) {
        Ok(carried) => tell_carried(alloc, sink, shelf, carried, with_journals),
        Err(NoMemory) => without_journals(alloc, NO_MEMORY, shelf.unshare(Vec::new(alloc))),
    }
}

/// Reads all lines of a trace, carries them out over a new heap, each client of a phase in a thread of its own where one can be
/// made, and prints the summary: a line for each arena that is live at the end, with how many entries its journal has and its
/// counts, and a line with how many clients, phases and calls there were. The journals follow where they are wanted, by arena.
///
/// The first bad line is answered by its number and its cause, and nothing is carried out: the status is 7 where it passes a
/// limit, and else 3. After a read that failed the status is 4, after a write that failed 5, and 6 where memory was wanting for
/// anything, a call among that. The journals are handed back where all lines were carried out and memory for the text was there.
pub fn threads<R: Threads + Wait + Sync, S: Source<K>, K: Sink, H: ExtentHooks + Send>(
    rt: &R,
    alloc: Global,
    source: &mut S,
    sink: &mut K,
    shelf: HookShelf<H>,
    with_journals: bool,
) -> Threaded<H>
    ensures runs { Runs with_journals (S.left source.old) (S.ended source.new) (S.faults source.old) (S.faults source.new) shelf result.shelf (left_by result.status result.journals result.chunks)
        (held_by (K.held sink.old) (K.faults sink.old) (K.waits sink.old)) (held_by (K.held sink.new) (K.faults sink.new) (K.waits sink.new)) }
    ensures patient { K.waits sink.old ≡ false → S.hasty source.new ≡ S.hasty source.old }
{
    match read_phases(alloc, source, sink) {
        Ok(phases) => run_phases(rt, alloc, sink, shelf, phases, with_journals),
        Err(unread) => without_journals(alloc, tell_unread(alloc, sink, unread), shelf),
    }
}
