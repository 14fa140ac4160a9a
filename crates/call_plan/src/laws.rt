//! Laws of calls, as contracts of functions that do nothing.
#![tactic(auto, using(crate::proofs::Proved::laws))]

ghost use Rattle.call_plan.specs.Clients.{BatchesEnd, BatchesRise};
ghost use Rattle.call_plan.specs.Laws.{BatchesKnow, BeginsKnow, KnowledgeIsOwn, MovesKnow, StepsKeep, WantsStand};
ghost use Rattle.call_plan.specs.Rooms.{RoomsSuffice};
ghost use Rattle.call_plan.specs.Bounds.{AsksAreFew, FreesAreFew, MallocsAreShort, PurgesAreFew};
ghost use Rattle.call_plan.specs.Refusals.{RefusalsStand};
ghost use Rattle.call_plan.specs.Causes.{AnswersHaveCauses};
ghost use Rattle.call_plan.specs.Aligned.{MemalignsAreAligned};

/// What a call knows at the point where it begins: its client has nothing in flight, and holds the regions that it gives
/// back.
pub fn begins_know()
    ensures { BeginsKnow }
{}

/// Where regions went back and more are to go, the next ones are such that the client holds in the next arena.
pub fn batches_know()
    ensures { BatchesKnow }
{}

/// Where another region is to take the place of one that can't be resized where it is, the call knows what it has to, whether a
/// cached region does or one is got.
pub fn moves_know()
    ensures { MovesKnow }
{}

/// Every turn that a call wants may stand in the space of its arena, whatever others did meanwhile, and whatever chunk of
/// another arena is found.
pub fn wants_stand()
    ensures { WantsStand }
{}

/// Whatever comes of what a call wants leads on: the call knows its extents again and is nearer to its end, and where it
/// has ended, with whatever answer, its client has nothing in flight and nothing offered.
pub fn steps_keep()
    ensures { StepsKeep }
{}

/// What a call knows is of its client's own alone, so it stands as long as that does.
pub fn knowledge_is_own()
    ensures { KnowledgeIsOwn }
{}

/// A malloc that has ended made at most 5 asks and 8 turns.
pub fn mallocs_are_short()
    ensures { MallocsAreShort }
{}

/// A call that has ended made few asks: a malloc 5, and any call 2 for each extent that is put down, and 6 for each one that is
/// purged.
pub fn asks_are_few()
    ensures { AsksAreFew }
{}

/// A call that gives regions back has made at most 2 asks for each extent that its own returns emptied, and 6 more for
/// each of these that was to be purged, whatever others did meanwhile.
pub fn frees_are_few()
    ensures { FreesAreFew }
{}

/// A call takes no more dirty or muzzy extents out of their list than stood in it at the first turn of its visit there,
/// whatever others did meanwhile.
pub fn purges_are_few()
    ensures { PurgesAreFew }
{}

/// What a call wants once a hook refused its ask, and what its client then has in flight, ask by ask.
pub fn refusals_stand()
    ensures { RefusalsStand }
{}

/// Every answer of a call has its cause among what this very call was fed: a region that landed, that was free, or that was
/// published; a refused ask that was needed; a bad range that its alloc placed, and what speaks against it.
pub fn answers_have_causes()
    ensures { AnswersHaveCauses }
{}

/// A memalign that answers a region gives one of the class for its size and alignment, at an address that is a multiple of the
/// alignment asked, wherever the region comes from: a slab, an extent that landed, or the client's cache, where the small
/// regions in that are aligned.
pub fn memaligns_are_aligned()
    ensures { MemalignsAreAligned }
{}

/// Whoever has the room that is needed at a point has it wherever the call goes: a turn that takes memory makes room for
/// the turns without memory that follow it.
pub fn rooms_suffice()
    ensures { RoomsSuffice }
{}

/// The addresses of a batch rise, and each is that of one of the regions in its arena.
pub fn batches_rise()
    ensures { BatchesRise }
{}

/// Once a batch went back, fewer regions are to go.
pub fn batches_end()
    ensures { BatchesEnd }
{}
