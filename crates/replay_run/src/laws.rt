//! Laws of plays, as contracts of functions that do nothing.

ghost use Rattle.replay_run.specs.Answers.{AnswersHaveCauses, MemalignsAreAligned};
ghost use Rattle.replay_run.specs.Leaving.{EventsLeave, NoTrimsOpen};
ghost use Rattle.replay_run.specs.Reallocs.{ReallocsLeave};
ghost use Rattle.replay_run.specs.Served.{ValidAreServed};

/// Every answer in a play has its cause in what that very call was fed: what its client had before it, the replies to the turns
/// that were made for it, and the answers of the hooks that it asked. A call that asked for nothing was to take a region over
/// where no arena has an extent.
pub fn answers_have_causes()
    ensures { AnswersHaveCauses }
{}

/// A memalign that is given a region in a play is given one of the class for its size and alignment, at an address that is a
/// multiple of the alignment asked, wherever the region comes from.
pub fn memaligns_are_aligned()
    ensures { MemalignsAreAligned }
{}

/// A valid request in a play is answered with what it asked for, unless a hook refused an ask that it needed or answered it
/// wrongly, or memory was wanting: a malloc of at most 2 ^ 35 bytes is never told that an arena isn't live. Where each ask that it
/// needed was granted and no alloc was placed wrongly, it is answered so, or memory was wanting.
pub fn valid_are_served()
    ensures { ValidAreServed }
{}

/// What stands behind each event of a play: a turn changes its own arena alone. After a refused split or commit the extent stands
/// whole in the list that it belongs to, as committed as it was; but where a region was to be cut in place it stands as it was. After
/// a refused alloc the arena is as it was. A malloc leaves all regions as they were, unless it gives some; and where nothing could be
/// done, all is as it was.
pub fn events_leave()
    ensures { EventsLeave }
{}

/// In no world of a play a client without an open call is shrinking a region in place.
pub fn no_trims_open()
    ensures { NoTrimsOpen }
{}

/// A realloc in a play leaves its client what its answer says, whatever other clients do meanwhile: a region of the class for the size
/// in the place of the old one, which is held no more; the old one or both, where memory was wanting; and else the old one. What the
/// client held at each other address where the call began it holds there still, unless another client freed that meanwhile, and it holds
/// nothing more.
pub fn reallocs_leave()
    ensures { ReallocsLeave }
{}
