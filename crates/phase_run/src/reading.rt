//! The lines of a trace, all of which are read before any is carried out.

ghost use Rattle.std.specs.Prelude.{◌≡◌, ◌≢◌, ◌≤◌, ◌++◌, [], Ok, Some, None, false, true, IfErr, IfOk, IfSome, OnOk};
ghost use Rattle.std.specs.List.{All};
ghost use Rattle.edge_io.specs.Bytes.{Rose};
ghost use Rattle.line_reader.specs.Lines.{lines_of};
ghost use Rattle.report_text.specs.declared.causes.Cause.TheVariants.{Cut};
ghost use Rattle.trace_text.specs.Grammar.{IsWithinLimits, line_of};
ghost use Rattle.phase_run.specs.Reading.{BadLine, IfBad, IsBadIn, IsFaulty, IsNext, Moves, Whole, reading, unread_for};
ghost use Rattle.phase_run.specs.declared.reading.Unread.TheVariants.{ReadFault};

use edge_io::{Sink, Source};
use line_reader::{Found, Pending, Stop, find_line};
use report_text::Cause;
use std::alloc::{AllocError as NoMemory, Global};
use trace_phase::{Lines, NumberedLine};
use trace_text::{Line, LineFault};

/// How many lines a trace has at most.
const LINE_LIMIT: u64 = 1_048_576;

/// How many bytes a line has at most, without its newline.
const BYTE_LIMIT: u64 = 256;

/// Why the lines of a trace aren't read.
#[derive(Clone, Copy, Debug, PartialEq, Eq)]
pub enum Unread {
    /// The line with this number is bad, and none before it is.
    Bad { line: u64, cause: Cause },
    /// A read failed.
    ReadFault,
    /// Memory was wanting.
    NoMemory,
}

impl From<NoMemory> for Unread {
    ghost use Rattle.std.specs.Prelude.{◌≡◌};
    ghost use Rattle.phase_run.specs.declared.reading.Unread.TheVariants.{NoMemory};

    ghost from_gives = { λ _ unread. unread ≡ NoMemory };

    fn from(_: NoMemory) -> Unread {
        Unread::NoMemory
    }
}

impl From<Stop> for Unread {
    ghost use Rattle.std.specs.Prelude.{◌≡◌};
    ghost use Rattle.phase_run.specs.Reading.{unread_by};

    ghost from_gives = { λ stop unread. unread ≡ unread_by stop };

    fn from(stop: Stop) -> Unread {
        match stop {
            Stop::ReadFault => Unread::ReadFault,
            Stop::NoMemory => Unread::NoMemory,
        }
    }
}

/// What is told of a line with this number that isn't read.
fn unread_for(number: u64, fault: LineFault) -> Unread
    ensures { result ≡ unread_for number fault }
{
    let cause = match fault {
        LineFault::NoMemory => return Unread::NoMemory,
        LineFault::Bytes => Cause::Bytes,
        LineFault::Words => Cause::Words,
        LineFault::Number => Cause::Number,
        LineFault::Threads => Cause::LimitThreads,
        LineFault::Range => Cause::Range,
    };
    Unread::Bad {
        line: number,
        cause,
    }
}

/// What the bytes of the line with this number say.
fn read_text(alloc: Global, number: u64, text: &[u8]) -> Result<Line, Unread>
    ensures said { IfOk result (λ line. line_of text.now ≡ Ok line) }
    ensures limits { IfOk result IsWithinLimits }
    ensures bad { IfErr result (λ unread. IfBad unread (λ line cause. (line ≡ number) × IsFaulty (line_of text.now) cause)) }
    ensures no_fault { IfErr result (λ unread. unread ≢ ReadFault) }
    ensures no_cut { IfErr result (λ unread. IfBad unread (λ line cause. cause ≢ Cut)) }
{
    match trace_text::read(alloc, text) {
        Ok(line) => Ok(line),
        Err(fault) => Err(unread_for(number, fault)),
    }
}

/// Reads the next line, which has this number; nothing, where the input has ended.
fn next_line<S: Source<K>, K: Sink>(
    alloc: Global,
    source: &mut S,
    sink: &K,
    pending: &mut Pending,
    number: u64,
) -> Result<Option<Line>, Unread>
    requires { number ≤ 1048576 }
    ensures next { IfOk result (λ line. Moves pending.old (S.left source.old) pending.new (S.left source.new) (IsNext number line)) }
    ensures limits { IfOk result (λ line. IfSome line IsWithinLimits) }
    ensures ended { IfOk result (λ line. line ≡ None → S.ended source.new ≡ true) }
    ensures bad { IfErr result (λ unread. IfBad unread (λ line cause. IfSome (S.left source.old) (λ left. IsBadIn number (pending.old ++ left) line cause))) }
    ensures cut { IfErr result (λ unread. IfBad unread (λ line cause. cause ≡ Cut → S.ended source.new ≡ true)) }
    ensures fault { IfErr result (λ unread. unread ≡ ReadFault → Rose (S.faults source.old) (S.faults source.new)) }
    ensures patient { K.waits sink.now ≡ false → S.hasty source.new ≡ S.hasty source.old }
    ensures counts { S.faults source.old ≤ S.faults source.new }
{
    let length = match find_line(source, sink, pending, BYTE_LIMIT)? {
        Found::Line(length) => length,
        Found::TooLong => {
            return Err(Unread::Bad {
                line: number,
                cause: Cause::LimitBytes,
            });
        }
        Found::Cut => {
            return Err(Unread::Bad {
                line: number,
                cause: Cause::Cut,
            });
        }
        Found::End => return Ok(None),
    };
    let line = read_text(alloc, number, &pending.as_slice()[..length])?;
    pending.skip(length + 1);
    Ok(Some(line))
}

/// Finds that the input ends behind as many lines as a trace may have.
fn end_lines<S: Source<K>, K: Sink>(
    source: &mut S,
    sink: &K,
    pending: &mut Pending,
) -> Result<(), Unread>
    ensures next { OnOk result (Moves pending.old (S.left source.old) pending.new (S.left source.new) (IsNext 1048577 None)) }
    ensures ended { OnOk result (S.ended source.new ≡ true) }
    ensures bad { IfErr result (λ unread. IfBad unread (λ line cause. IfSome (S.left source.old) (λ left. IsBadIn 1048577 (pending.old ++ left) line cause))) }
    ensures cut { IfErr result (λ unread. IfBad unread (λ line cause. cause ≢ Cut)) }
    ensures fault { IfErr result (λ unread. unread ≡ ReadFault → Rose (S.faults source.old) (S.faults source.new)) }
    ensures patient { K.waits sink.now ≡ false → S.hasty source.new ≡ S.hasty source.old }
    ensures counts { S.faults source.old ≤ S.faults source.new }
{
    // One byte is enough to tell, and no other is waited for.
    match find_line(source, sink, pending, 0)? {
        Found::End => Ok(()),
        _ => Err(Unread::Bad {
            line: LINE_LIMIT + 1,
            cause: Cause::LimitLines,
        }),
    }
}

/// Reads all lines of a trace, each with its number, into an empty list, before anything is done. A trace has at most 1048576
/// lines of at most 256 bytes each, without the newline.
///
/// `Bad` is the first line that is bad by itself: it passes a limit, is cut, or says nothing. The list has those before it. A
/// limit that the bytes read so far pass comes before a read that would fail. `ReadFault` comes only where a read failed, and
/// `NoMemory` only where memory was wanting. Each read is shown the sink, to which nothing is written.
pub fn read_lines<S: Source<K>, K: Sink>(
    alloc: Global,
    source: &mut S,
    sink: &K,
    lines: &mut Lines,
) -> Result<(), Unread>
    requires { lines.old ≡ [] }
    ensures whole { OnOk result (IfSome (S.left source.old) (λ input. reading (lines_of input) ≡ Whole lines.new)) }
    ensures limits { All (λ line. IsWithinLimits line.line) lines.new }
    ensures ended { OnOk result (S.ended source.new ≡ true) }
    ensures bad { IfErr result (λ unread. IfBad unread (λ line cause. IfSome (S.left source.old) (λ input. reading (lines_of input) ≡ BadLine lines.new line (Some cause)))) }
    ensures cut { IfErr result (λ unread. IfBad unread (λ line cause. cause ≡ Cut → S.ended source.new ≡ true)) }
    ensures fault { IfErr result (λ unread. unread ≡ ReadFault → Rose (S.faults source.old) (S.faults source.new)) }
    ensures patient { K.waits sink.now ≡ false → S.hasty source.new ≡ S.hasty source.old }
    ensures counts { S.faults source.old ≤ S.faults source.new }
{
    let mut pending = Pending::new(alloc);
    for number in 1..LINE_LIMIT + 1 {
        let Some(line) = next_line(alloc, source, sink, &mut pending, number)? else {
            return Ok(());
        };
        lines.push(NumberedLine { number, line })?;
    }
    end_lines(source, sink, &mut pending)
}
