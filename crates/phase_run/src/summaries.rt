//! What is printed of a trace that threads carried out.
ghost use Rattle.std.specs.Prelude.{◌≡◌, ◌++◌, map, IfOk, IsTrue, OnOk};
ghost use Rattle.std.specs.List.{AllByRecursion};
ghost use Rattle.heap_runs.specs.Closes.{counts_left};
ghost use Rattle.journal.specs.Texts.{AreReadAgain};
ghost use Rattle.phase_run.specs.Summaries.{arena_text, arenas_text, journals_if, summary_text};

use crate::tally::Tally;
use hook_api::Journal;
use journal::put_journals;
use report_text::{entries_line, threads_line};
use space_model::Counts;
use std::alloc::{AllocError as NoMemory, Global};

/// The numbers of a trace.
#[derive(Clone, Copy, Debug, PartialEq, Eq)]
pub struct Numbers {
    /// How many clients it names.
    pub clients: u32,
    /// How many phases it has.
    pub phases: u64,
    /// How many calls were made in them.
    pub tally: Tally,
}

/// Puts the line of an arena behind what is there, where it is live.
fn put_arena(out: &mut Vec<u8>, journal: &Journal, counts: &Option<Counts>) -> Result<(), NoMemory>
    ensures { OnOk result (out.new.items ≡ out.old.items ++ arena_text journal.now counts.now) }
{
    match counts {
        Some(counts) => entries_line(out, journal.index, journal.kept.len() as u64, counts),
        None => Ok(()),
    }
}

/// Puts the lines of all arenas behind what is there, each where it is live.
fn put_arenas(
    out: &mut Vec<u8>,
    journals: &[Journal],
    counts: &[Option<Counts>],
) -> Result<(), NoMemory>
    requires { counts.now ≡ map counts_left journals.now }
    ensures { OnOk result (out.new.items ≡ out.old.items ++ arenas_text journals.now) }
{
    for i in 0..journals.len() {
        put_arena(out, &journals[i], &counts[i])?;
    }
    Ok(())
}

/// Puts the entries of all journals behind what is there, where they are wanted.
fn put_wanted(
    alloc: Global,
    out: &mut Vec<u8>,
    journals: &[Journal],
    are_wanted: bool,
) -> Result<(), NoMemory>
    ensures text { OnOk result (out.new.items ≡ out.old.items ++ journals_if are_wanted journals.now) }
    ensures again { OnOk result (IsTrue are_wanted → AllByRecursion AreReadAgain journals.now) }
{
    if are_wanted {
        put_journals(alloc, out, journals)
    } else {
        Ok(())
    }
}

/// The summary of a trace, and behind it the journals where they are wanted. The counts are those of what the journals leave of
/// their arenas.
pub fn summary(
    alloc: Global,
    journals: &[Journal],
    counts: &[Option<Counts>],
    numbers: Numbers,
    with_journals: bool,
) -> Result<Vec<u8>, NoMemory>
    requires { counts.now ≡ map counts_left journals.now }
    ensures text { IfOk result (λ text. text.items ≡ summary_text journals.now numbers with_journals) }
    ensures again { IfOk result (λ _. IsTrue with_journals → AllByRecursion AreReadAgain journals.now) }
{
    let mut text = Vec::new(alloc);
    put_arenas(&mut text, journals, counts)?;
    let Tally { calls, failed } = numbers.tally;
    threads_line(&mut text, numbers.clients, numbers.phases, calls, failed)?;
    put_wanted(alloc, &mut text, journals, with_journals)?;
    Ok(text)
}
