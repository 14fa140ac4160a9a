//! The points at which a call waits.

use crate::Answered;
use space_model::{Addresses, Rest, Setting, Span};

/// The extent that a call needs, and the regions that are to land in it.
#[derive(Clone, Copy)]
pub struct Wish {
    /// Its pages.
    pub pages: u64,
    /// The alignment of its first page, in pages.
    pub align: u64,
    /// The size class that is to land in it.
    pub class: u8,
    /// How many regions of the class.
    pub count: u32,
    /// Whether the region that is handed out takes the place of the one in hand, as where that can't be resized in place.
    pub moves: bool,
}

/// A large region that is to have another large class where it is.
#[derive(Clone, Copy)]
pub struct Resize {
    /// The address of its first byte.
    pub addr: u64,
    /// The pages that it has.
    pub pages: u64,
    /// The class that it is to have.
    pub class: u8,
}

/// A purge of listed extents: of the muzzy ones, of the dirty ones, or first of those and then of these. What it gives is that
/// it is done, or how many pages might stay.
#[derive(Clone, Copy)]
pub struct Visit {
    /// Their list, dirty or muzzy.
    pub rest: Rest,
    /// Whether the answer tells how many pages might stay.
    pub told: bool,
    /// How many pages may stay.
    pub keep: u64,
    /// How many pages of the other list may stay, where that is visited before or after this one.
    pub other: Option<u64>,
}

/// What follows once the client has nothing in flight any more.
#[derive(Clone, Copy)]
pub enum AfterFlight {
    /// The next batch of regions that go back, or the end.
    Batches,
    /// The visit goes on, with at most so many more extents.
    Visiting(Visit, u64),
    /// A region of the class is got, which takes the place of the one in hand.
    Moving(u8),
}

/// What follows once a setting is changed.
#[derive(Clone, Copy)]
pub enum Change {
    /// The end.
    Stops,
    /// A visit.
    Visits(Visit),
    /// The client leaves the arena with this index, from which it allocated.
    Leaves(u32),
}

/// A point at which a call waits for the reply to a turn that takes in no answer of a hook.
#[derive(Drop)]
pub enum TurnPoint {
    /// Free regions of a small class are taken, so many or as many as there are.
    Filling(Wish, u32),
    /// Looking for an unused extent.
    Looking(Wish),
    /// The regions land in the extent.
    Landing(Wish, Span),
    /// Regions at these addresses go back. None is named until that turn comes, but where a request begins with it.
    Giving(Addresses),
    /// Looking for a neighbour of an extent in flight.
    Finding {
        /// The extent.
        own: Span,
        /// The looks that are past: 0, 1 or 2.
        tries: u8,
        /// Whether it wasn't purged yet.
        fresh: bool,
        /// What follows.
        then: AfterFlight,
    },
    /// An extent of a visit is taken out of its list, at most so many of them, or as many as there are at the first.
    Taking(Visit, Option<u64>),
    /// The extent is to be offered to its hook.
    Offering(Span, AfterFlight),
    /// The decays are told this moment.
    Advancing(u64),
    /// A setting changes.
    Changing(Setting, Change),
    /// An arena comes to be at this index, if it is absent.
    Making(u32, Setting),
    /// All regions are discarded, where the client has cached none but so many.
    Resetting(u64),
    /// The arena ends, where the client has cached none but so many.
    Destroying(u64),
    /// An extent of the arena goes.
    Dooming,
    /// The region at the address is published.
    Publishing(u64),
    /// A region is taken over.
    Owning {
        /// Its address.
        addr: u64,
        /// Whether it then goes back.
        frees: bool,
        /// Whether the client that held it has published it for this call.
        published: bool,
    },
    /// Looking for the pages that the region lacks, right behind it.
    Widening(Resize),
    /// The region in hand is to have fewer pages.
    Narrowing(Resize),
}

/// A point at which a call waits for an answer of a hook, and then for the reply to the turn that takes it in.
#[derive(Clone, Copy)]
pub enum AskPoint {
    /// The split of what stands before the run.
    Skipping {
        /// What is wanted.
        wish: Wish,
        /// The extent.
        span: Span,
        /// Whether it is committed.
        committed: bool,
        /// The pages before the run.
        skip: u64,
    },
    /// The split of what stands behind the run.
    Trimming {
        /// What is wanted.
        wish: Wish,
        /// The extent.
        span: Span,
        /// Whether it is committed.
        committed: bool,
    },
    /// The alloc of so many chunks, which are more than the pages need.
    Growing(Wish, u64),
    /// The split of what that alloc granted.
    SplittingGrown {
        /// What is wanted.
        wish: Wish,
        /// The extent.
        span: Span,
        /// Whether it is committed.
        committed: bool,
    },
    /// The alloc of as many chunks as the pages need.
    GrowingExactly(Wish),
    /// The split of what that alloc granted.
    SplittingExact {
        /// What is wanted.
        wish: Wish,
        /// The extent.
        span: Span,
        /// Whether it is committed.
        committed: bool,
    },
    /// The commit of an extent that has the pages.
    Committing(Wish, Span),
    /// The merge of two extents.
    Merging {
        /// The lower one.
        low: Span,
        /// The higher one.
        high: Span,
        /// Whether the lower one is the extent that looked.
        own_low: bool,
        /// Whether that wasn't purged yet.
        fresh: bool,
        /// What follows.
        then: AfterFlight,
    },
    /// The lazy purge of an extent.
    PurgingLazily(Span, AfterFlight),
    /// The dalloc of an extent that was offered.
    Returning(Span, AfterFlight),
    /// The decommit of an extent that the hook left with the arena.
    Decommitting(Span, AfterFlight),
    /// The forced purge of one that it left committed too.
    Forcing(Span, AfterFlight),
    /// The split of the region's extent: the low piece serves it from then on.
    Cutting(Resize),
    /// The alloc of the chunks that the region lacks, right behind it.
    Extending(Resize),
    /// The split of what stands behind the pages that the region lacks.
    Sparing {
        /// What is wanted.
        resize: Resize,
        /// The extent behind the region.
        span: Span,
        /// Whether it is committed.
        committed: bool,
    },
    /// The commit of the pages that the region lacks.
    Backing(Resize, Span),
    /// The merge of the region's extent with these.
    Joining(Resize, Span),
}

/// What a call does next: where it waits, or where an item leads. What a hook answered to an ask stands beside it.
#[derive(Drop)]
pub enum NextStep {
    /// For the reply to a turn.
    Turns(TurnPoint),
    /// For the answer to an ask, or, where it is there, for the reply to the turn that takes it in.
    Asks(AskPoint),
    /// For the ask that destroys an extent of an arena that has ended, committed or not. No turn takes its answer in.
    Tells(Span, bool),
    /// To a turn of the arena with this index.
    InArena(u32, TurnPoint),
    /// To the turn that gives the next batch of regions back, or to the end.
    NextBatch,
    /// To a region of the class, which takes the place of the one in hand.
    Move(u8),
    /// To the end, since the arena isn't live.
    NotLive,
    /// To an answer.
    Ends(Answered),
    /// Nowhere: it is none that could come.
    Nowhere,
}
