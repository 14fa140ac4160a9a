//! A run that prints its report, its journals or its asks, over a source, a sink and a shelf of hooks.

ghost use Rattle.journals.specs.Runs.{PrintsAsks, PrintsJournals, PrintsRun, PrintsText, ReplaysQuietly};

use crate::asks::heard_text;
use crate::words::{Printed, SINK_FAILED};
use edge_io::{Failed, Quiet, ReadEdge, Sink, Source, write_whole};
use hook_api::{ExtentHooks, HookShelf};
use journal::put_journals;
use replay_run::{Closing, Replayed, replay};
use std::alloc::{AllocError as NoMemory, Global};
use std::io::Read;

/// Memory was wanting.
pub const NO_MEMORY: u8 = 6;

/// Carries out the lines of a source over a new heap. The report goes nowhere.
fn replay_quietly<S: Source<Quiet>, H: ExtentHooks>(
    alloc: Global,
    source: &mut S,
    shelf: HookShelf<H>,
) -> Replayed<H>
    ensures { ReplaysQuietly result.status result.journals result.heard shelf (S.ended source.new) (S.left source.old) (S.left source.new) }
{
    replay(alloc, source, &mut Quiet::new(), shelf, Closing::Lines)
}

/// Writes the text of a run whose replay ended with a status, and gives that status, or 5 where the sink failed.
fn print_text<K: Sink>(sink: &mut K, text: &[u8], status: u8) -> u8
    ensures { PrintsText result status (K.held sink.old) (K.held sink.new) text.now }
{
    match write_whole(sink, text) {
        Ok(()) => status,
        Err(Failed) => SINK_FAILED,
    }
}

/// Carries out the lines of a source, and writes the journals of the 32 arenas: by arena, entry by entry, a line each.
fn print_journals<S: Source<Quiet>, K: Sink, H: ExtentHooks>(
    alloc: Global,
    source: &mut S,
    sink: &mut K,
    shelf: HookShelf<H>,
) -> u8
    ensures prints { PrintsJournals result shelf (S.ended source.new) (S.left source.old) (S.left source.new) (K.held sink.old) (K.held sink.new) }
{
    let replayed = replay_quietly(alloc, source, shelf);
    let mut text = Vec::new(alloc);
    match put_journals(alloc, &mut text, replayed.journals.as_slice()) {
        Ok(()) => print_text(sink, &text, replayed.status),
        Err(NoMemory) => NO_MEMORY,
    }
}

/// Carries out the lines of a source, and writes all asks of hooks with their answers, in order, a line each.
fn print_asks<S: Source<Quiet>, K: Sink, H: ExtentHooks>(
    alloc: Global,
    source: &mut S,
    sink: &mut K,
    shelf: HookShelf<H>,
) -> u8
    ensures prints { PrintsAsks result shelf (S.ended source.new) (S.left source.old) (S.left source.new) (K.held sink.old) (K.held sink.new) }
{
    let replayed = replay_quietly(alloc, source, shelf);
    match heard_text(alloc, &replayed.heard) {
        Ok(text) => print_text(sink, &text, replayed.status),
        Err(NoMemory) => NO_MEMORY,
    }
}

/// Carries out the lines that a reader gives over a new heap, asks the hooks of the shelf, and writes what is wanted of the run. That is
/// its report; or, whatever the lines came to, the journals of its arenas or the asks of its hooks.
///
/// The status is that of the replay: 0, or 3 where a line can't be carried out, 4 where a read failed, and 7 where a limit was
/// passed. It is 5 after a write that failed, and 6 where memory was wanting. A check accepts journals that are written at every
/// other status, unless they pass one of its limits.
pub fn print_run<R: Read, K: Sink, H: ExtentHooks>(
    alloc: Global,
    source: &mut ReadEdge<R>,
    sink: &mut K,
    shelf: HookShelf<H>,
    printed: Printed,
) -> u8
    ensures prints { PrintsRun printed result shelf source.new.ended source.old.left source.new.left (K.held sink.old) (K.held sink.new) }
{
    match printed {
        Printed::Report => replay(alloc, source, sink, shelf, Closing::Lines).status,
        Printed::Journals => print_journals(alloc, source, sink, shelf),
        Printed::Asks => print_asks(alloc, source, sink, shelf),
    }
}
