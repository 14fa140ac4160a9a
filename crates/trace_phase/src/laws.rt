//! Laws of phases. Each is a function that does nothing, whose contract says it.

ghost use Rattle.trace_phase.specs.Apart.{PhasesAreFair};
ghost use Rattle.trace_phase.specs.Limits.{PartsKeepLimits};

/// Where every line of a trace can stand, no name stands in the calls of two clients within a phase.
#[tactic(auto, using(crate::proofs::Fair::phases_fair))]
pub fn phases_are_fair()
    ensures { PhasesAreFair }
{}

/// The parts of a trace whose lines were read keep to the limits of lines.
#[tactic(auto, using(crate::proofs::Within::parts_within))]
pub fn parts_keep_limits()
    ensures { PartsKeepLimits }
{}
