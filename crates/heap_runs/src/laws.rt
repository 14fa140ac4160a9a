//! Laws of heaps that threads shared, as contracts of functions that do nothing.
ghost use Rattle.heap_runs.specs.Legal.{JournalsAreLegal, PhasesAddUp};

/// In the journal that a closed heap left of an arena, just the turns of its clients' calls stand, those of each client in the order of
/// its calls, each with the reply that its place in the journal gives it, and no entry of anybody else.
pub fn journals_are_legal<H>()
    ensures { JournalsAreLegal H }
{}

/// A client that carried requests out, and then others, carried all of them out, one behind the other.
pub fn phases_add_up<H>()
    ensures { PhasesAddUp H }
{}
