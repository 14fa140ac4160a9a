//! What is asked of a call, what it needs, and what it answers.

use hook_api::Asked;
use space_model::{Ask, Op, Reply, Rest, Span, Why};

/// What a client wants.
#[derive(Clone, Copy)]
pub enum Request {
    /// `malloc`: a region of at least so many bytes, where 0 counts as 1.
    Malloc {
        /// The bytes.
        size: u64,
    },
    /// `aligned_alloc`: a region of at least so many bytes, where 0 counts as 1, at a multiple of the alignment.
    Memalign {
        /// The alignment in bytes, a power of two from 1 to 2^30.
        align: u64,
        /// The bytes.
        size: u64,
    },
    /// `realloc`: a region that the client holds is to have at least so many bytes, where 0 counts as 1. It stays where it is as
    /// long as it has the class, or where a large one can be cut or widened in place, and else another region takes its place.
    Realloc {
        /// The address of its first byte.
        addr: u64,
        /// The bytes.
        size: u64,
    },
    /// `free`: the client gives a region back that it holds.
    Free {
        /// The address of its first byte.
        addr: u64,
    },
    /// `free` of a region that another client held: once it is published, it is taken over and given back.
    FreeForeign {
        /// The address of its first byte.
        addr: u64,
        /// The index of its arena.
        arena: u32,
    },
    /// The client publishes a region that it holds, so that another one may take it over.
    Publish {
        /// The address of its first byte.
        addr: u64,
    },
    /// The client takes a published region over.
    Take {
        /// The address of its first byte.
        addr: u64,
        /// The index of its arena.
        arena: u32,
    },
    /// `thread.tcache.flush`: all regions that the client has cached go back.
    Flush,
    /// `thread.tcache.enabled`: the client's cache is on or off from now on. It is flushed before it is off.
    Cache(bool),
    /// `arena.<i>.purge`.
    Purge {
        /// The index.
        arena: u32,
    },
    /// `arena.<i>.decay`.
    Decay {
        /// The index.
        arena: u32,
        /// The moment in nanoseconds.
        now: u64,
    },
    /// `arena.<i>.dirty_decay_ms` or `arena.<i>.muzzy_decay_ms`.
    Time {
        /// The index.
        arena: u32,
        /// The list, dirty or muzzy.
        rest: Rest,
        /// The time in milliseconds, from -1, for never, to 1000000000.
        ms: i64,
        /// The moment in nanoseconds.
        now: u64,
    },
    /// `arena.<i>.reset`.
    Reset {
        /// The index.
        arena: u32,
    },
    /// `arena.<i>.destroy`.
    Destroy {
        /// The index.
        arena: u32,
    },
    /// `arenas.create`.
    Create {
        /// The box of hooks, below 32.
        box_no: u32,
        /// The decay time of dirty extents in milliseconds, from -1 to 1000000000.
        dirty_ms: i64,
        /// The decay time of muzzy extents in milliseconds, from -1 to 1000000000.
        muzzy_ms: i64,
        /// The moment in nanoseconds.
        now: u64,
    },
    /// `thread.arena`: the client allocates from the arena from now on.
    Bind {
        /// The index.
        arena: u32,
    },
    /// `arena.<i>.extent_hooks`.
    HookBox {
        /// The index.
        arena: u32,
        /// The box of hooks, below 32.
        box_no: u32,
    },
    /// `arena.<i>.retain_grow_limit`.
    GrowLimit {
        /// The index.
        arena: u32,
        /// The limit in chunks, from 1 to 16384.
        chunks: u64,
    },
    /// `mallocx` with an explicit cache: as `Malloc` with the client's cache on, in the cache with the identifier.
    MallocIn {
        /// The identifier.
        slot: u32,
        /// The bytes.
        size: u64,
    },
    /// `dallocx` with an explicit cache: as `Free` of a region that the client holds with its cache on, in the cache with the
    /// identifier.
    FreeIn {
        /// The identifier.
        slot: u32,
        /// The address of its first byte.
        addr: u64,
    },
    /// `tcache.create`: the client has one more explicit cache, of at most eight.
    NewCache,
    /// `tcache.flush`: all regions of the explicit cache go back.
    FlushCache {
        /// The identifier.
        slot: u32,
    },
    /// `tcache.destroy`: all regions of the explicit cache go back, and then it goes.
    EndCache {
        /// The identifier.
        slot: u32,
    },
}

/// One turn of an arena.
#[derive(Drop)]
pub struct Turn {
    /// The index of the arena.
    pub arena: u32,
    /// The client whose turn it is.
    pub client: u32,
    /// The operation. The ask whose answer it carries stands with the call.
    pub op: Op,
}

/// What a call needs next.
#[derive(Drop)]
pub enum Need {
    /// A turn of an arena.
    Turn(Turn),
    /// An ask of the arena's box of hooks.
    Ask {
        /// The index of the arena.
        arena: u32,
        /// The ask.
        ask: Ask,
    },
    /// Nothing: the call has ended.
    Done(Answered),
    /// Nothing can be named: there is no memory for the addresses of the regions that go back next.
    Starved,
}

/// What a call is fed, which stays where it is.
#[derive(Clone, Copy)]
pub enum Item<'a> {
    /// The reply to the turn that it needed.
    Replied(&'a Reply),
    /// The answer to the ask that it needed.
    Told(&'a Asked),
    /// The turn that it needed found no memory, and changed nothing.
    Starved,
}

/// What an answered call gives.
#[derive(Clone, Copy)]
pub enum Given {
    /// A region.
    Region {
        /// The address of its first byte.
        addr: u64,
        /// Its size class.
        class: u8,
    },
    /// Nothing: what was wanted is done.
    Done,
    /// An arena, by its index.
    Arena(u32),
    /// An explicit cache, by its identifier.
    Cache(u32),
    /// How many pages of unused extents may stay, where the moment had come to tell.
    Limits {
        /// The dirty pages.
        dirty: Option<u64>,
        /// The muzzy pages.
        muzzy: Option<u64>,
    },
}

/// The answer of a call.
#[derive(Clone, Copy)]
pub enum Answered {
    /// What was wanted.
    Ok(Given),
    /// The hook refused an ask that was needed.
    Refused(Asked),
    /// The alloc hook answered a range that can't be taken.
    BadAnswer {
        /// The range.
        span: Span,
        /// What speaks against it.
        why: Why,
    },
    /// The size is above 2^35 bytes.
    TooLarge,
    /// The alignment isn't a power of two from 1 to 2^30.
    BadAlign,
    /// The client holds no region at the address, or none is published there.
    NotHeld(u64),
    /// The arena isn't live.
    NoArena(u32),
    /// The arena is in use.
    Busy {
        /// How many regions others hold or the client has cached.
        held: u64,
        /// How many extents others have in flight or have offered.
        flights: u64,
        /// How many clients are bound to the arena, where that matters.
        threads: u64,
    },
    /// A turn found no memory, or there was none to name the regions that it gives back.
    NoMemory,
    /// Every index has an arena.
    ArenasFull,
    /// Arena 0 can't be reset or destroyed.
    Automatic,
    /// The client has no explicit cache with the identifier.
    NoCache(u32),
    /// The client has eight explicit caches.
    CachesFull,
}
