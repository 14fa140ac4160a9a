//! A law of counts, as a function that does nothing and whose contract is the law.

ghost use Rattle.heap_stats.specs.Stats.{CountsAreSmall};

/// The counts of an arena are small enough to be taken by a snapshot, whatever its hooks answered.
#[tactic(auto, using(crate::proofs::Sums::counts_small))]
pub fn counts_are_small()
    ensures { CountsAreSmall }
{}
