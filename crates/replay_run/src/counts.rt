//! The counts of all arenas.

ghost use Rattle.std.specs.Prelude.{◌≡◌, map};
ghost use Rattle.std.specs.List.{All};
ghost use Rattle.heap_stats.specs.Stats.{AreSmallWhereLive};
ghost use Rattle.replay_run.specs.Counts.{all_counts};

use heap_core::{ARENAS, Heap};
use space_model::Counts;

/// The counts of the arenas, by index; `None` of one that isn't live.
pub fn all_counts(heap: &Heap) -> [Option<Counts>; ARENAS as usize]
    ensures counts { result ≡ all_counts heap.now.records }
    ensures small { All AreSmallWhereLive result }
{
    heap.stands();
    let mut counts = [None; ARENAS as usize];
    for index in 0..ARENAS {
        counts[index as usize] = heap.counts(index);
    }
    counts
}
