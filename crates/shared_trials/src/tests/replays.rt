//! Journals that a heap left, replayed by one thread.

ghost use Rattle.std.specs.Prelude.{◌≡◌, ◌⊎◌, []};
ghost use Rattle.space_model.specs.Journal.{Good};
ghost use Rattle.space_model.specs.Opening.{absent_space, first_space};
ghost use Rattle.space_model.specs.Sound.{Sound};

use arena_core::Arena;
use heap_runs::Closed;
use hook_api::{Journal, Kept};
use plain_machine::{may_stand, plain_counts, plain_step};
use space_model::{Counts, Entry, Seq, Space};
use std::alloc::Global;
use std::process::Abort;

/// Who replays a journal.
#[derive(Clone, Copy, PartialEq, Eq)]
pub(crate) enum Machine {
    /// An arena, by look-ups.
    Arena,
    /// The slow machine, by scans.
    Plain,
}

/// The space of the arena with an index before its first entry.
fn opening(alloc: Global, index: u32) -> Space
    ensures begins { (result ≡ absent_space) ⊎ (result ≡ first_space) }
    ensures good { Good [] result }
{
    if index == 0 {
        return Space::first(alloc);
    }
    Space::absent(alloc)
}

/// The entries of a journal.
fn entries_of(rt: &impl Abort, alloc: Global, journal: &Journal) -> Seq<Kept> {
    journal.kept.to_list(alloc).expect(rt, "memory for entries")
}

/// A space takes the next entry in, which has to stand.
fn scan(rt: &impl Abort, space: &mut Space, entry: &Entry)
    requires { Sound space.old }
    ensures { Sound space.new }
{
    assert!(rt; may_stand(space, entry));
    plain_step(space, entry).expect(rt, "memory for the space");
}

/// The counts of a space, summed up by scans, where it is live.
fn counts_of_space(space: &Space) -> Option<Counts>
    requires { Sound space.now }
{
    if space.life.is_live() {
        Some(plain_counts(space))
    } else {
        None
    }
}

/// The counts of the space that a journal leaves, summed up by scans, where it is live.
fn scanned(rt: &impl Abort, alloc: Global, journal: &Journal) -> Option<Counts> {
    let mut space = opening(alloc, journal.index);
    let entries = entries_of(rt, alloc, journal);
    for kept in entries.as_slice() {
        scan(rt, &mut space, kept.entry());
    }
    let counts = counts_of_space(&space);
    drop((entries, space));
    counts
}

/// An arena takes the next entry in, which has to stand.
fn step(rt: &impl Abort, arena: &mut Arena, entry: &Entry) {
    let Entry { client, op } = entry;
    assert!(rt; arena.may_stand(*client, op));
    arena.make_room(*client).expect(rt, "memory for room");
    arena.step(*client, op).expect(rt, "memory for the arena");
}

/// The counts of an arena, where it is live.
fn counts_of_arena(arena: &Arena) -> Option<Counts> {
    if arena.life().is_live() {
        Some(arena.counts())
    } else {
        None
    }
}

/// The counts of the arena that a journal leaves, where it is live.
fn stepped(rt: &impl Abort, alloc: Global, journal: &Journal) -> Option<Counts> {
    let space = opening(alloc, journal.index);
    let mut arena = Arena::new(alloc, space).expect(rt, "memory for an arena");
    let entries = entries_of(rt, alloc, journal);
    for kept in entries.as_slice() {
        step(rt, &mut arena, kept.entry());
    }
    let counts = counts_of_arena(&arena);
    drop((entries, arena));
    counts
}

/// The counts that a journal leaves, where its arena is live.
fn counts_left(
    rt: &impl Abort,
    alloc: Global,
    machine: Machine,
    journal: &Journal,
) -> Option<Counts> {
    match machine {
        Machine::Arena => stepped(rt, alloc, journal),
        Machine::Plain => scanned(rt, alloc, journal),
    }
}

/// Checks of all journals that a heap left that each entry may stand where it comes, and that the counts of the heap's arenas are those
/// that the journals leave. How many entries there are comes back.
pub(crate) fn agree(rt: &impl Abort, alloc: Global, machine: Machine, closed: &Closed) -> u64 {
    let mut entries: u64 = 0;
    let journals = closed.journals.as_slice();
    assert_eq!(rt; (journals.len(), closed.counts.len()), (32, 32));
    for (journal, counts) in journals.iter().zip(closed.counts.iter()) {
        assert_eq!(rt; counts_left(rt, alloc, machine, journal), *counts);
        entries = entries.saturating_add(journal.kept.len() as u64);
    }
    entries
}
