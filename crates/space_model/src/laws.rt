//! What is true of every arena and of every journal. Each law is a function that does nothing, whose contract says it.

ghost use Rattle.space_model.specs.Laws.{EntriesKeepGood, EntriesKeepOthers, FirstReplaysAreGood, AbsentReplaysAreGood, ReplaysKeepGood, ReplaysKeepOthers, PartsAreApart, RegionsAreApart, RegionsRise, RegionsHaveHomes, RegionsAreGranted, RegionsAreAligned, MappedIsSum, MappedIsUnretained, BytesFitSpace, RepliesTellOutcome, RepliesTellFlights};

/// An entry that may stand keeps a good space good, and what other clients own as it was.
pub fn entries_keep_good()
    ensures good { EntriesKeepGood }
    ensures others { EntriesKeepOthers }
{}

/// So does each journal whose entries may stand where they come, from the start and from any good space on.
pub fn replays_are_good()
    ensures first { FirstReplaysAreGood }
    ensures absent { AbsentReplaysAreGood }
    ensures good { ReplaysKeepGood }
    ensures others { ReplaysKeepOthers }
{}

/// Each reply tells which way its operation went, and how many extents its client has in flight then.
pub fn replies_tell()
    ensures outcome { RepliesTellOutcome }
    ensures flights { RepliesTellFlights }
{}

/// No page is in two extents, and no byte in two regions, which stand by address.
#[tactic(auto, using(crate::proofs::LawLemmas::parts_are_apart, crate::proofs::LawLemmas::regions_are_apart, crate::proofs::LawLemmas::regions_rise))]
pub fn nothing_is_shared()
    ensures parts { PartsAreApart }
    ensures regions { RegionsAreApart }
    ensures rise { RegionsRise }
{}

/// Each region lies in an active, committed extent, on granted pages and aligned.
#[tactic(auto, using(crate::proofs::LawLemmas::regions_have_homes, crate::proofs::LawLemmas::regions_are_granted))]
pub fn regions_are_usable()
    ensures homes { RegionsHaveHomes }
    ensures granted { RegionsAreGranted }
    ensures aligned { RegionsAreAligned }
{}

/// The counts are sums over the extents, which fit into the space.
#[tactic(auto, using(crate::proofs::Sums::mapped_sum, crate::proofs::Sums::whole_sum, crate::proofs::Sums::bytes_fit_space))]
pub fn counts_add_up()
    ensures mapped { MappedIsSum }
    ensures all { MappedIsUnretained }
    ensures fits { BytesFitSpace }
{}
