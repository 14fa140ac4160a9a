//! The check of journals: the verdict on an input, as text and status.

ghost use Rattle.std.specs.Prelude.{◌≡◌, ◌≢◌, ◌++◌, false, OnOk, IfOk};
ghost use Rattle.jarena.specs.Checks.{IsChecked, ends_text, verdict_status, verdict_text};
ghost use Rattle.jarena.specs.Facts.{sink_facts, source_facts};

use crate::status::{ACCEPTED, NO_MEMORY, NOT_ACCEPTED, OVER_LIMIT, SINK_FAILED, SOURCE_FAILED};
use edge_io::{Failed, Sink, Source, write_whole};
use journal_check::{End, Verdict, check};
use report_text::{
    Cause, accepted_line, bad_line, entries_line, met_line, no_entry_line, no_step_line,
};
use std::alloc::{AllocError as NoMemory, Global};

/// Puts the lines of live arenas behind what is there.
fn put_ends(out: &mut Vec<u8>, ends: &[End]) -> Result<(), NoMemory>
    ensures text { OnOk result (out.new.items ≡ out.old.items ++ ends_text ends.now) }
{
    for end in ends {
        entries_line(out, end.index, end.entries, &end.counts)?;
    }
    Ok(())
}

/// The line that stands last in the text of a verdict, if one does.
fn put_verdict(out: &mut Vec<u8>, verdict: &Verdict) -> Result<(), NoMemory>
    ensures text { OnOk result (out.new.items ≡ out.old.items ++ verdict_text verdict.now) }
{
    match verdict {
        Verdict::Accepted { entries, ends } => {
            put_ends(out, ends.as_slice())?;
            accepted_line(out, *entries)
        }
        Verdict::NotEntry { line } => no_entry_line(out, *line),
        Verdict::NotStanding { line } => no_step_line(out, *line),
        Verdict::Met { chunk, low, high } => met_line(out, *chunk, *low, *high),
        Verdict::Limit { line, bytes: true } => bad_line(out, *line, Cause::LimitBytes),
        Verdict::Limit { line, bytes: false } => bad_line(out, *line, Cause::LimitLines),
        Verdict::ReadFault => Ok(()),
        Verdict::NoMemory => Ok(()),
    }
}

/// The text of a verdict.
fn verdict_text(alloc: Global, verdict: &Verdict) -> Result<Vec<u8>, NoMemory>
    ensures text { IfOk result (λ text. text.items ≡ verdict_text verdict.now) }
{
    let mut text = Vec::new(alloc);
    put_verdict(&mut text, verdict)?;
    Ok(text)
}

/// The status of a verdict: 0 where journals are accepted, 8 where they aren't, 7 where a limit was passed, 4 where a read
/// failed and 6 where memory was wanting.
fn verdict_status(verdict: &Verdict) -> u8
    ensures { result ≡ verdict_status verdict.now }
{
    match verdict {
        Verdict::Accepted { .. } => ACCEPTED,
        Verdict::NotEntry { .. } => NOT_ACCEPTED,
        Verdict::NotStanding { .. } => NOT_ACCEPTED,
        Verdict::Met { .. } => NOT_ACCEPTED,
        Verdict::Limit { .. } => OVER_LIMIT,
        Verdict::ReadFault => SOURCE_FAILED,
        Verdict::NoMemory => NO_MEMORY,
    }
}

/// Judges the lines of a source as journals, writes the verdict, and gives its status, or 5 where the sink failed.
pub(crate) fn check_journals<S: Source<K>, K: Sink>(
    alloc: Global,
    source: &mut S,
    sink: &mut K,
) -> u8
    ensures checked { IsChecked result (source_facts (S.left source.old) (S.ended source.old) (S.faults source.old)) (source_facts (S.left source.new) (S.ended source.new) (S.faults source.new))
        (sink_facts (K.held sink.old) (K.faults sink.old) (K.waits sink.old)) (sink_facts (K.held sink.new) (K.faults sink.new) (K.waits sink.new)) }
    ensures patient { K.waits sink.old ≡ false → S.hasty source.new ≡ S.hasty source.old }
    ensures not_usage { result ≢ 2 }
{
    let verdict = check(alloc, source, sink);
    let Ok(text) = verdict_text(alloc, &verdict) else {
        return NO_MEMORY;
    };
    match write_whole(sink, &text) {
        Ok(()) => verdict_status(&verdict),
        Err(Failed) => SINK_FAILED,
    }
}
