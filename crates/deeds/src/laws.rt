//! Laws of what calls did, as contracts of functions that do nothing.

ghost use Rattle.deeds.specs.Dids.{CallsEndOnce, RefusalsAreLast};
ghost use Rattle.deeds.specs.Reallocs.{ReallocsLeave};

/// A whole call has one answer and leaves its client one thing, and nothing comes behind what it did.
pub fn calls_end_once()
    ensures { CallsEndOnce }
{}

/// A call that was refused ends with the ask that its last entry carries: it never tells an earlier refusal.
pub fn refusals_are_last()
    ensures { RefusalsAreLast }
{}

/// A realloc leaves its client what its answer says: a region of the class for the size in the place of the old one; both, where memory
/// was wanting while the old one went back; and else the old one, and all that was cached.
pub fn reallocs_leave()
    ensures { ReallocsLeave }
{}
