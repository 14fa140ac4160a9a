//! The entries of an arena's journal: operations of clients, and the replies to them.

use crate::{Addresses, Boxed, Counts, Heard, Rest, Span};

/// An operation on an arena. It is plain data, and no hook is called in it.
#[derive(Debug, PartialEq, Drop)]
pub enum Op {
    /// Looks for an unused extent with a run of `pages` at a multiple of `align` pages, and takes it out of its list.
    Look {
        /// How many pages are wanted.
        pages: u64,
        /// The alignment of the first page.
        align: u64,
    },
    /// Takes in the answer to a split of an extent in flight.
    CutDone {
        /// The split.
        heard: Heard,
        /// Whether the lower piece stays in flight.
        keep_low: bool,
    },
    /// Takes in the answer to an alloc.
    GrowDone {
        /// The alloc.
        heard: Heard,
        /// A chunk of the answered range that another arena has, if one was found.
        found: Option<u64>,
    },
    /// Takes in the answer to a commit of an extent in flight.
    CommitDone {
        /// The commit.
        heard: Heard,
    },
    /// Makes an extent in flight active, with the first `count` regions of a class in it, for the client.
    Land {
        /// The extent.
        span: Span,
        /// The size class.
        class: u8,
        /// How many regions.
        count: u32,
    },
    /// Gives regions of the client back. Each extent that then serves none is in flight to the dirty ones.
    Back {
        /// Their addresses, rising.
        addrs: Addresses,
    },
    /// Looks for a neighbour of an extent in flight that may be merged with it, and puts the extent down where there is
    /// none.
    PutLook {
        /// The extent.
        span: Span,
        /// Where to look: 0 for the right and then the left, 1 for the left alone, 2 for neither.
        tries: u8,
    },
    /// Takes in the answer to a merge of two extents in flight.
    MergeDone {
        /// The merge.
        heard: Heard,
        /// Whether the lower one is the extent that looked, and the higher one its neighbour.
        own_low: bool,
    },
    /// Takes the lowest free regions of a small class's slabs for the client, `count` or as many as there are.
    Fill {
        /// The size class, below 36.
        class: u8,
        /// How many regions.
        count: u32,
    },
    /// Tells both decays what time it is.
    Advance {
        /// The moment in nanoseconds.
        now: u64,
    },
    /// Takes the oldest dirty or muzzy extent out of its list, where more pages are listed than may stay.
    PurgeTake {
        /// The list, dirty or muzzy.
        rest: Rest,
        /// How many pages may stay.
        keep: u64,
    },
    /// Takes in the answer to a lazy purge of an extent in flight to the dirty ones.
    LazyDone {
        /// The purge.
        heard: Heard,
    },
    /// Offers an extent in flight to the dalloc hook. It is no extent of the arena from then on.
    Offer {
        /// The extent.
        span: Span,
    },
    /// Takes in the answer to the dalloc of an offer.
    OfferDone {
        /// The dalloc.
        heard: Heard,
        /// A chunk of the offered range that another arena has, if one was found after a refusal.
        found: Option<u64>,
    },
    /// Takes in the answer to a decommit of an extent in flight to the retained ones.
    DecommitDone {
        /// The decommit.
        heard: Heard,
    },
    /// Takes in the answer to a forced purge of an extent in flight.
    ForcedDone {
        /// The purge.
        heard: Heard,
    },
    /// Publishes a region of the client: nobody holds it until some client takes it over.
    Publish {
        /// Its address.
        addr: u64,
    },
    /// Takes a published region over for the client.
    TakeOver {
        /// Its address.
        addr: u64,
    },
    /// Discards all regions, where no other client has anything in the arena and nothing of the client's is cached.
    Reset {
        /// How many regions of the arena the client has cached.
        cached: u64,
    },
    /// Ends the arena where it may be reset and nobody is bound to it.
    Destroy {
        /// How many regions of the arena the client has cached.
        cached: u64,
    },
    /// Takes the oldest extent off an arena that the client is destroying.
    DestroyTake,
    /// Asks for the counts.
    Counts,
    /// Changes a setting.
    Set(Setting),
    /// Looks for pages behind a large region of the client, so that the region may grow in place.
    Widen {
        /// Its address.
        addr: u64,
        /// How many pages its extent is to have.
        pages: u64,
    },
    /// Takes in the answer to a merge of a large region's extent with the extent in flight behind it.
    JoinDone {
        /// The merge.
        heard: Heard,
        /// The class that the region takes.
        class: u8,
    },
    /// Begins to shrink a large region of the client in place.
    Trim {
        /// Its address.
        addr: u64,
        /// The class that the region is to take.
        class: u8,
    },
    /// Takes in the answer to a split of a large region's extent.
    TrimDone {
        /// The split.
        heard: Heard,
        /// The class that the region takes.
        class: u8,
    },
}

/// What one entry sets in an arena (`arena.<i>.*` and `thread.arena` in the manual).
#[derive(Clone, Copy, Debug, PartialEq, Eq)]
pub enum Setting {
    /// The decay time of dirty extents.
    DirtyMs {
        /// The time in milliseconds, from -1, for never, to 1000000000.
        ms: i64,
        /// The moment in nanoseconds at which it is set.
        now: u64,
    },
    /// The decay time of muzzy extents.
    MuzzyMs {
        /// The time in milliseconds, from -1, for never, to 1000000000.
        ms: i64,
        /// The moment in nanoseconds at which it is set.
        now: u64,
    },
    /// The box of hooks, below 32.
    HookBox(u32),
    /// The client allocates from the arena from now on.
    Bind,
    /// The client doesn't allocate from the arena any more.
    Unbind,
    /// The greatest growth at once that no request needs, in chunks from 1 to 16384.
    GrowLimit {
        /// The limit.
        chunks: u64,
    },
    /// An arena comes to be at an index that has none.
    Live {
        /// Its box of hooks, below 32.
        box_no: u32,
        /// Its decay time of dirty extents in milliseconds, from -1 to 1000000000.
        dirty_ms: i64,
        /// Its decay time of muzzy extents in milliseconds, from -1 to 1000000000.
        muzzy_ms: i64,
        /// The moment in nanoseconds at which it comes to be.
        now: u64,
    },
}

/// One entry of a journal.
#[derive(Debug, PartialEq, Drop)]
pub struct Entry {
    /// The client that made it, below 32.
    pub client: u32,
    /// What it did.
    pub op: Op,
}

/// Why a range that a hook answered can't be taken.
#[derive(Clone, Copy, Debug, PartialEq, Eq)]
pub enum Why {
    /// It doesn't lie in the space of addresses.
    OffSpace,
    /// Its first page isn't a multiple of the alignment that was asked for.
    Unaligned,
    /// It meets this chunk, which has an owner already.
    Meets(Span),
}

/// The reply to an operation.
#[derive(Debug, PartialEq, Drop)]
pub enum Reply {
    /// The arena isn't live.
    NoArena,
    /// There is none.
    Nothing,
    /// It is done.
    Noted,
    /// The extent that was taken out, and how many of its pages stand before the first aligned run.
    Took {
        /// The extent.
        span: Span,
        /// Whether it is committed.
        committed: bool,
        /// The pages before the run.
        skip: u64,
    },
    /// No unused extent holds the run.
    Grow {
        /// How many chunks the arena would grow by at once, if the request doesn't need more.
        series: u64,
    },
    /// The piece that stays in flight.
    Cut(Span),
    /// The hook refused, and the extent was put down whole.
    Whole,
    /// The hook refused.
    Refused,
    /// The answered range can't be taken.
    Bad(Why),
    /// The new extent, in flight.
    Grown {
        /// The extent.
        span: Span,
        /// Whether it is committed.
        committed: bool,
    },
    /// The address of the first region, and how many there are.
    Landed {
        /// The address.
        first: u64,
        /// How many regions.
        count: u32,
    },
    /// The first extent that the client has in flight, if it has one.
    Next(Option<Span>),
    /// A neighbour, in flight from now on, which a merge may join to the extent.
    Beside(Span),
    /// The extent is still in flight and is to be purged, since no dirty one may stay.
    Purge {
        /// Whether lazily first, since muzzy ones may stay.
        lazy: bool,
    },
    /// The extent that stays in flight: both as one where they were merged, and else the one that looked.
    Joined(Span),
    /// The addresses of the regions that the client took, rising.
    Regions(Addresses),
    /// How many pages of unused extents may stay, where the moment has come to tell.
    Limits {
        /// The dirty pages.
        dirty: Option<u64>,
        /// The muzzy pages.
        muzzy: Option<u64>,
    },
    /// The extent that was taken out to be purged.
    Taken {
        /// The extent.
        span: Span,
        /// Whether lazily first: it was dirty, and muzzy ones may stay.
        lazy: bool,
        /// How many extents were listed before.
        listed: u64,
    },
    /// Whether the hook purged lazily, so that the extent is in flight to the muzzy ones.
    Lazy(bool),
    /// The hook opted out of the dalloc, and the extent is in flight to the retained ones.
    Kept,
    /// The hook opted out of the dalloc, but the pages have an owner again, so that the range is given up. With it the
    /// first extent that the client has in flight, if it has one.
    Abandoned(Option<Span>),
    /// Whether the hook decommitted the extent.
    Decommitted(bool),
    /// The extent that the arena lost, which is to be destroyed.
    Doomed {
        /// The extent.
        span: Span,
        /// Whether it is committed.
        committed: bool,
    },
    /// The region is the client's from now on.
    Owned {
        /// Its size class.
        class: u8,
    },
    /// The arena is in use.
    Busy {
        /// How many regions others hold or the client has cached.
        held: u64,
        /// How many extents others have in flight or have offered.
        flights: u64,
        /// How many clients are bound to the arena, where that matters.
        threads: u64,
    },
    /// The counts.
    Counted(Boxed<Counts>),
}
