//! The check of an input.

ghost use Rattle.std.specs.Prelude.{◌≡◌, ◌<◌, ◌≤◌, ◌+◌, ◌^◌, ◌++◌, ℕ, List, [], None, false, true, IfErr, IfOk, IfSome};
ghost use Rattle.edge_io.specs.Bytes.{Rose};
ghost use Rattle.line_reader.specs.Lines.{HasStopCause, IsFirst, is_whole_line, lines_of};
ghost use Rattle.journal_check.specs.Logs.{all_entries, opening_log};
ghost use Rattle.journal_check.specs.Verdicts.{BadLine, Follows, IfAccepted, IfLimit, IfMet, IfNotEntry, IfNotStanding, IsAccepted, IsCut, IsInside, IsMet, IsNext, IsUncut, Left, Tells, is_stop, is_whole, judged, judgement, over_limit};
ghost use Rattle.journal_check.specs.declared.verdicts.Bad.TheVariants.{NotEntry, NotStanding};
ghost use Rattle.journal_check.specs.declared.verdicts.Limits.{Limits};
ghost use Rattle.journal_check.specs.declared.verdicts.Verdict.TheVariants.{ReadFault};

use crate::logs::Log;
use crate::meetings::first_meeting;
use crate::verdicts::{Bad, Limits, Verdict};
use edge_io::{Sink, Source};
use line_reader::{Found, Pending, Stop, find_line};
use std::alloc::{AllocError as NoMemory, Global};

/// An input has at most 2^24 lines, and a line at most 2^18 bytes without its newline.
const INPUT_LIMITS: Limits = Limits {
    lines: 1 << 24,
    bytes: 1 << 18,
};

/// The verdict on an input that was read to its end and has no bad line.
fn close(alloc: Global, log: &Log) -> Result<Verdict, NoMemory>
    ensures told { IfOk result (λ verdict. Tells verdict (Left log.now)) }
    ensures whole { IfOk result (λ verdict. is_whole verdict ≡ true) }
    ensures stop { IfOk result (λ verdict. is_stop verdict ≡ false) }
{
    Ok(match first_meeting(log.arenas()) {
        Some(met) => Verdict::Met {
            chunk: met.chunk,
            low: met.low,
            high: met.high,
        },
        None => Verdict::Accepted {
            entries: log.entries(),
            ends: log.ends(alloc)?,
        },
    })
}

/// The verdict on a bad line.
fn verdict_on(line: u64, bad: Bad) -> Verdict
    ensures told { Tells result (BadLine line bad) }
    ensures line { IfNotEntry result (λ told. told ≡ line) }
    ensures part { is_whole result ≡ false }
    ensures stop { is_stop result ≡ false }
{
    match bad {
        Bad::NotEntry => Verdict::NotEntry { line },
        Bad::NotStanding => Verdict::NotStanding { line },
    }
}

/// Takes in what was found at the front of the pending bytes, as the line with this number. The answer is the verdict, if that
/// is it, and none where the next line is to be read.
fn take_found(
    alloc: Global,
    log: &mut Log,
    pending: &mut Pending,
    found: Found,
    number: u64,
) -> Result<Option<Verdict>, NoMemory>
    requires few { all_entries log.old < number }
    requires inside { IsInside found pending.old }
    ensures told { IfOk result (λ verdict. (limits : Limits) → number ≤ limits.lines → IsFirst limits.bytes found pending.old
        → (more : List ℕ) → (is_whole_line found ≡ false → more ≡ [])
        → Follows verdict (judged limits number (lines_of (pending.old ++ more)) log.old) (judged limits (number + 1) (lines_of (pending.new ++ more)) log.new)) }
    ensures ended { IfOk result (λ verdict. IfSome verdict (λ v. is_whole v ≡ true → is_whole_line found ≡ false)) }
    ensures next { IfOk result (λ verdict. verdict ≡ None → (limits : Limits) → IsFirst limits.bytes found pending.old
        → (more : List ℕ) → IsNext (lines_of (pending.old ++ more)) (lines_of (pending.new ++ more))) }
    ensures cut { IfOk result (λ verdict. IfSome verdict (λ v. (limits : Limits) → IfNotEntry v (IsUncut limits number found pending.old))) }
    ensures stop { IfOk result (λ verdict. IfSome verdict (λ v. is_stop v ≡ false)) }
    ensures few { all_entries log.new < number + 1 }
{
    let length = match found {
        Found::Line(length) => length,
        Found::TooLong => {
            return Ok(Some(Verdict::Limit {
                line: number,
                bytes: true,
            }));
        }
        Found::Cut => return Ok(Some(Verdict::NotEntry { line: number })),
        Found::End => return Ok(Some(close(alloc, log)?)),
    };
    if let Some(bad) = log.take(alloc, &pending.as_slice()[..length])? {
        return Ok(Some(verdict_on(number, bad)));
    }
    pending.skip(length + 1);
    Ok(None)
}

/// Judges an input within limits.
pub(crate) fn judge<S: Source<K>, K: Sink>(
    alloc: Global,
    source: &mut S,
    sink: &K,
    limits: Limits,
) -> Result<Verdict, Stop>
    requires { limits.lines < 2 ^ 63 }
    ensures told { IfOk result (λ verdict. IfSome (S.left source.old) (λ input. Tells verdict (judged limits 1 (lines_of input) opening_log))) }
    ensures ended { IfOk result (λ verdict. is_whole verdict ≡ true → S.ended source.new ≡ true) }
    ensures cut { IfOk result (λ verdict. IfNotEntry verdict (λ line. IfSome (S.left source.old) (λ input. IsCut line (lines_of input) → S.ended source.new ≡ true))) }
    ensures stop { IfOk result (λ verdict. is_stop verdict ≡ false) }
    ensures cause { IfErr result (λ stop. HasStopCause stop (S.faults source.old) (S.faults source.new)) }
    ensures patient { K.waits sink.now ≡ false → S.hasty source.new ≡ S.hasty source.old }
    ensures counts { S.faults source.old ≤ S.faults source.new }
{
    let mut log = Log::new(alloc)?;
    let mut pending = Pending::new(alloc);
    for number in 1..limits.lines + 1 {
        let found = find_line(source, sink, &mut pending, limits.bytes)?;
        if let Some(verdict) = take_found(alloc, &mut log, &mut pending, found, number)? {
            return Ok(verdict);
        }
    }
    match find_line(source, sink, &mut pending, limits.bytes)? {
        Found::End => Ok(close(alloc, &log)?),
        _ => Ok(Verdict::Limit {
            line: limits.lines + 1,
            bytes: false,
        }),
    }
}

/// Judges printed journals: the lines of a source, each of which is an entry of the journal of the arena that it names.
///
/// Lines that begin with `arena ` or `threads ` are passed over. Of the others the first one is told that is no entry's text,
/// or whose entry may not stand where it comes; where none is so, whether the arenas that they leave own a chunk together.
/// Each read is shown the sink, to which nothing is written. `ReadFault` comes only where a read failed, and `NoMemory` only where
/// memory was wanting.
pub fn check<S: Source<K>, K: Sink>(alloc: Global, source: &mut S, sink: &K) -> Verdict
    ensures accepted { IfAccepted result (λ entries ends. IfSome (S.left source.old) (λ input. IsAccepted (judgement input) entries ends)) }
    ensures not_entry { IfNotEntry result (λ line. IfSome (S.left source.old) (λ input. judgement input ≡ BadLine line NotEntry)) }
    ensures cut { IfNotEntry result (λ line. IfSome (S.left source.old) (λ input. IsCut line (lines_of input) → S.ended source.new ≡ true)) }
    ensures not_standing { IfNotStanding result (λ line. IfSome (S.left source.old) (λ input. judgement input ≡ BadLine line NotStanding)) }
    ensures met { IfMet result (λ chunk low high. IfSome (S.left source.old) (λ input. IsMet (judgement input) chunk low high)) }
    ensures limit { IfLimit result (λ line bytes. IfSome (S.left source.old) (λ input. judgement input ≡ over_limit line bytes)) }
    ensures ended { is_whole result ≡ true → S.ended source.new ≡ true }
    ensures read_fault { result ≡ ReadFault → Rose (S.faults source.old) (S.faults source.new) }
    ensures patient { K.waits sink.now ≡ false → S.hasty source.new ≡ S.hasty source.old }
    ensures counts { S.faults source.old ≤ S.faults source.new }
{
    match judge(alloc, source, sink, INPUT_LIMITS) {
        Ok(verdict) => verdict,
        Err(Stop::ReadFault) => Verdict::ReadFault,
        Err(Stop::NoMemory) => Verdict::NoMemory,
    }
}
