//! Lines from a source.

ghost use Rattle.std.specs.Prelude.{◌≤◌, ◌≡◌, ◌<◌, ◌++◌, IsTrue, ℕ, List, [], drop, false, take, Option, None, Bool, length, IfOk, IfErr, IfSome, OnOk, OnErr};
ghost use Rattle.edge_io.specs.Bytes.{Consumes, IsAtEnd, Keeps};
ghost use Rattle.trace_text.specs.Lines.{HasNoNewline};
ghost use Rattle.replay_run.specs.declared.input.Stop.TheVariants.{ReadFault};
ghost use Rattle.replay_run.specs.Stops.{HasStopCause};
ghost use Rattle.trace_text.specs.declared.faults.LineFault.TheVariants.{NoMemory as FaultNoMemory};
ghost use Rattle.replay_run.specs.Causes.{fault_cause, line_cause};
ghost use Rattle.replay_run.specs.Input.{InBounds, IsFirst, IsReading, MetEnd, TakesSome, TakesMore, TakesAny};

use crate::prints::flush;
use edge_io::{Failed, Sink, Source};
use line_reader::Pending;
use memchr::memchr;
use report_text::Cause;
use std::alloc::{AllocError as NoMemory, Global};
use trace_text::{Line, LineFault};

/// How many bytes a line has at most, without its newline.
const LINE_BYTES: usize = 256;

/// How many bytes are read at once.
pub const READ_BYTES: usize = 4096;

/// Why a replay stops in the middle.
#[derive(Clone, Copy, Debug, PartialEq, Eq)]
pub enum Stop {
    /// A read failed.
    ReadFault,
    /// A write failed.
    WriteFault,
    /// Memory was wanting.
    NoMemory,
}

impl From<NoMemory> for Stop {
    ghost use Rattle.std.specs.Prelude.{◌≡◌};
    ghost use Rattle.replay_run.specs.declared.input.Stop.TheVariants.{NoMemory};

    ghost from_gives = { λ _ stop. stop ≡ NoMemory };

    fn from(_: NoMemory) -> Stop {
        Stop::NoMemory
    }
}

/// What a look for a line found.
#[derive(Clone, Copy, Debug, PartialEq, Eq)]
pub enum Found {
    /// A line of so many bytes, behind which its newline stands.
    Line(usize),
    /// More bytes than a line may have, without a newline.
    TooLong,
    /// The end of the input, and no newline before it.
    End,
}

/// Where the first newline stands among the bytes of a line, or that they are too many for one.
fn line_in(pending: &[u8]) -> Option<Found>
    ensures bounds { IfSome result (λ found. InBounds found pending.now) }
    ensures first { IfSome result (λ found. IsFirst found pending.now) }
    ensures not_end { IfSome result (λ found. (left : Option (List ℕ)) (met : Bool) → MetEnd found left met) }
    ensures none { result ≡ None → (length pending.now ≤ 256) × HasNoNewline pending.now }
{
    match memchr(b'\n', pending) {
        Some(place) if place <= LINE_BYTES => Some(Found::Line(place)),
        _ if pending.len() > LINE_BYTES => Some(Found::TooLong),
        _ => None,
    }
}

/// Reads until the pending bytes begin with a line, or can't. What waits in the sink is handed on before each read.
///
/// It stands apart from `find_line`, since a call of it clears the buffer.
#[inline(never)]
fn read_to_line<S: Source<K>, K: Sink>(
    source: &mut S,
    sink: &mut K,
    pending: &mut Pending,
) -> Result<Found, Stop>
    ensures bounds { IfOk result (λ found. InBounds found pending.new) }
    ensures first { IfOk result (λ found. IsFirst found pending.new) }
    ensures moved { IfOk result (λ _. TakesMore pending.old pending.new (S.left source.old) (S.left source.new)) }
    ensures stopped { IfErr result (λ stop. TakesSome (stop ≡ ReadFault) pending.old (S.left source.old) (S.left source.new)) }
    ensures end { IfOk result (λ found. MetEnd found (S.left source.new) (S.ended source.new)) }
    ensures kept { Keeps (K.held sink.old) (K.held sink.new) }
    ensures cause { IfErr result (λ stop. HasStopCause stop (S.faults source.old) (S.faults source.new) (K.faults sink.old) (K.faults sink.new)) }
    ensures unfailed { OnOk result (S.faults source.new ≡ S.faults source.old) }
    ensures sink_unfailed { OnOk result (K.faults sink.new ≡ K.faults sink.old) }
    ensures patient { S.hasty source.new ≡ S.hasty source.old }
    ensures counts { S.faults source.old ≤ S.faults source.new }
    ensures sink_counts { K.faults sink.old ≤ K.faults sink.new }
{
    for _ in 0..LINE_BYTES + 2 {
        if let Some(found) = line_in(pending.as_slice()) {
            return Ok(found);
        }
        flush(sink)?;
        let mut buf = [0u8; READ_BYTES];
        match source.read(sink, &mut buf) {
            Ok(0) => return Ok(Found::End),
            Ok(count) => pending.extend(&buf[..count])?,
            Err(Failed) => return Err(Stop::ReadFault),
        }
    }
    Ok(Found::TooLong)
}

/// Finds the line with which the pending bytes begin, and reads on until they do, or can't. What waits in the sink is handed on before each read.
pub fn find_line<S: Source<K>, K: Sink>(
    source: &mut S,
    sink: &mut K,
    pending: &mut Pending,
) -> Result<Found, Stop>
    ensures bounds { IfOk result (λ found. InBounds found pending.new) }
    ensures first { IfOk result (λ found. IsFirst found pending.new) }
    ensures moved { IfOk result (λ _. TakesMore pending.old pending.new (S.left source.old) (S.left source.new)) }
    ensures stopped { IfErr result (λ stop. TakesSome (stop ≡ ReadFault) pending.old (S.left source.old) (S.left source.new)) }
    ensures end { IfOk result (λ found. MetEnd found (S.left source.new) (S.ended source.new)) }
    ensures kept { Keeps (K.held sink.old) (K.held sink.new) }
    ensures cause { IfErr result (λ stop. HasStopCause stop (S.faults source.old) (S.faults source.new) (K.faults sink.old) (K.faults sink.new)) }
    ensures unfailed { OnOk result (S.faults source.new ≡ S.faults source.old) }
    ensures sink_unfailed { OnOk result (K.faults sink.new ≡ K.faults sink.old) }
    ensures patient { S.hasty source.new ≡ S.hasty source.old }
    ensures counts { S.faults source.old ≤ S.faults source.new }
    ensures sink_counts { K.faults sink.old ≤ K.faults sink.new }
{
    match line_in(pending.as_slice()) {
        Some(found) => Ok(found),
        None => read_to_line(source, sink, pending),
    }
}

/// Whether bytes are left, of the pending ones or of the source. What waits in the sink is handed on before it is read.
pub fn has_more<S: Source<K>, K: Sink>(
    source: &mut S,
    sink: &mut K,
    pending: &Pending,
) -> Result<bool, Stop>
    ensures takes { IfOk result (λ more. TakesAny more pending.now (S.left source.old) (S.left source.new) (S.ended source.new)) }
    ensures stopped { OnErr result ((pending.now ≡ []) × Consumes (S.left source.old) (S.left source.new) []) }
    ensures kept { Keeps (K.held sink.old) (K.held sink.new) }
    ensures cause { IfErr result (λ stop. HasStopCause stop (S.faults source.old) (S.faults source.new) (K.faults sink.old) (K.faults sink.new)) }
    ensures unfailed { OnOk result (S.faults source.new ≡ S.faults source.old) }
    ensures sink_unfailed { OnOk result (K.faults sink.new ≡ K.faults sink.old) }
    ensures patient { S.hasty source.new ≡ S.hasty source.old }
    ensures counts { S.faults source.old ≤ S.faults source.new }
    ensures sink_counts { K.faults sink.old ≤ K.faults sink.new }
{
    if !pending.as_slice().is_empty() {
        return Ok(true);
    }
    flush(sink)?;
    let mut buf = [0u8; READ_BYTES];
    match source.read(sink, &mut buf) {
        Ok(count) => Ok(count > 0),
        Err(Failed) => Err(Stop::ReadFault),
    }
}

/// The cause of a line that isn't read, but for want of memory.
fn cause_of_fault(fault: LineFault) -> Result<Cause, NoMemory>
    ensures cause { IfOk result (λ cause. fault_cause fault ≡ Some cause) }
    ensures memory { OnErr result (fault ≡ FaultNoMemory) }
{
    match fault {
        LineFault::NoMemory => Err(NoMemory),
        LineFault::Bytes => Ok(Cause::Bytes),
        LineFault::Words => Ok(Cause::Words),
        LineFault::Number => Ok(Cause::Number),
        LineFault::Threads => Ok(Cause::LimitThreads),
        LineFault::Range => Ok(Cause::Range),
    }
}

/// Why a line that was read isn't carried out at a moment, in nanoseconds, if there is a cause.
fn cause_of_line(now: u64, line: &Line) -> Option<Cause>
    ensures { result ≡ line_cause now line.now }
{
    match line {
        Line::At(moment) if *moment < now => Some(Cause::Clock),
        Line::Phase { .. } | Line::Join => Some(Cause::Phase),
        _ => None,
    }
}

/// What the bytes of a line say at a moment, in nanoseconds, or the first cause for which that isn't carried out.
pub fn read_line(alloc: Global, now: u64, text: &[u8]) -> Result<Result<Line, Cause>, NoMemory>
    ensures { IfOk result (λ said. IsReading now text.now said) }
{
    match trace_text::read(alloc, text) {
        Ok(line) => Ok(match cause_of_line(now, &line) {
            Some(cause) => Err(cause),
            None => Ok(line),
        }),
        Err(fault) => Ok(Err(cause_of_fault(fault)?)),
    }
}
