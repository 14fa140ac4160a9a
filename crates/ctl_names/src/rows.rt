//! The table of the names.

ghost use Rattle.std.specs.Prelude.{◌≡◌, ◌<◌, map};
ghost use Rattle.ctl_names.specs.Rows.{row_at, rows, shown};

use crate::CtlName;
use heap_stats::Count;

/// What is read of the heap, or of the client whose line it is.
#[derive(Clone, Copy)]
pub enum Reading {
    /// How often the statistics were refreshed.
    Refreshes,
    /// The arena from which the client allocates.
    ThreadArena,
    /// Whether the client's cache is on.
    CacheIsOn,
    /// The highest live index and one.
    ArenaCount,
    /// The decay time of dirty extents with which arenas are created.
    NewDirtyTime,
    /// The decay time of muzzy extents with which arenas are created.
    NewMuzzyTime,
}

/// What is read of an arena.
#[derive(Clone, Copy)]
pub enum ArenaReading {
    /// Whether it is live.
    IsLive,
    /// The decay time of its dirty extents.
    DirtyTime,
    /// The decay time of its muzzy extents.
    MuzzyTime,
    /// Its box of hooks.
    HookBox,
    /// By how many bytes it grows at most.
    GrowLimit,
}

/// What is told of a size class.
#[derive(Clone, Copy)]
pub enum ClassReading {
    /// The size of a small class.
    Size,
    /// How many regions a slab of a small class has.
    Regions,
    /// The bytes of a slab of a small class.
    SlabSize,
    /// The size of a large class.
    LargeSize,
}

/// What is counted of an arena by size class.
#[derive(Clone, Copy)]
pub enum ClassCount {
    /// The regions of a small class.
    Regions,
    /// The slabs of a small class.
    Slabs,
    /// The regions of a large class.
    LargeRegions,
}

/// What a plain line of a name does.
#[derive(Clone, Copy)]
pub enum Action {
    /// All regions that the client has cached go back.
    Flush,
    /// The arena is decayed, or each live one.
    Decay,
    /// The arena is purged, or each live one.
    Purge,
    /// The arena is reset.
    Reset,
    /// The arena is destroyed.
    Destroy,
    /// An arena is created, with box 0.
    Create,
    /// The client has one more explicit cache.
    NewCache,
}

/// What a plain line of a name comes to.
#[derive(Clone, Copy)]
pub enum OnPlain {
    /// The number is read.
    Number(u64),
    /// This is read.
    Reads(Reading),
    /// This is read of the arena.
    ReadsArena(ArenaReading),
    /// This is read of the size class.
    ReadsClass(ClassReading),
    /// The count is read, summed over all arenas.
    Total(Count),
    /// The count is read.
    Stat(Count),
    /// The count of the size class is read.
    ClassStat(ClassCount),
    /// This is done.
    Acts(Action),
    /// Nothing: a value is wanted.
    Wanting,
    /// Nothing: it may only be written.
    Never,
}

/// What a write to a name comes to, and so what is a value of it.
#[derive(Clone, Copy)]
pub enum OnWrite {
    /// Nothing may be written.
    Never,
    /// Any number refreshes the statistics.
    Refresh,
    /// The client allocates from the arena with the index.
    Bind,
    /// `true` or `false`: the client's cache is on or off.
    Cache,
    /// The dirty extents of the arena have the decay time.
    DirtyTime,
    /// The muzzy extents of the arena have the decay time.
    MuzzyTime,
    /// The arena has the box of hooks.
    HookBox,
    /// The arena grows by that many bytes at most.
    GrowLimit,
    /// Arenas are created with the decay time of dirty extents.
    NewDirtyTime,
    /// Arenas are created with the decay time of muzzy extents.
    NewMuzzyTime,
    /// An arena is created, with the box of hooks.
    Create,
    /// The arena that has an extent at the address is looked up.
    Lookup,
    /// All regions go back that the explicit cache has.
    FlushCache,
    /// They go back, and then the explicit cache goes.
    EndCache,
}

/// A row of the table: the pattern of its names, what a plain line of them comes to, and what a write comes to.
///
/// In a pattern `<arena>` stands for an index below 32, `<arenas>` for that or 4096, `<counted>` for that or 4097,
/// `<bin>` for a number below 36, and `<large>` for one below 85.
pub type Row = (&'static str, OnPlain, OnWrite);

/// How many rows there are.
pub const ROW_COUNT: usize = 43;

/// The rows.
const ROWS: [Row; ROW_COUNT] = [
    (
        "epoch",
        OnPlain::Reads(Reading::Refreshes),
        OnWrite::Refresh,
    ),
    (
        "thread.arena",
        OnPlain::Reads(Reading::ThreadArena),
        OnWrite::Bind,
    ),
    (
        "thread.tcache.enabled",
        OnPlain::Reads(Reading::CacheIsOn),
        OnWrite::Cache,
    ),
    (
        "thread.tcache.flush",
        OnPlain::Acts(Action::Flush),
        OnWrite::Never,
    ),
    (
        "tcache.create",
        OnPlain::Acts(Action::NewCache),
        OnWrite::Never,
    ),
    ("tcache.flush", OnPlain::Never, OnWrite::FlushCache),
    ("tcache.destroy", OnPlain::Never, OnWrite::EndCache),
    (
        "arena.<arena>.initialized",
        OnPlain::ReadsArena(ArenaReading::IsLive),
        OnWrite::Never,
    ),
    (
        "arena.<arenas>.decay",
        OnPlain::Acts(Action::Decay),
        OnWrite::Never,
    ),
    (
        "arena.<arenas>.purge",
        OnPlain::Acts(Action::Purge),
        OnWrite::Never,
    ),
    (
        "arena.<arena>.reset",
        OnPlain::Acts(Action::Reset),
        OnWrite::Never,
    ),
    (
        "arena.<arena>.destroy",
        OnPlain::Acts(Action::Destroy),
        OnWrite::Never,
    ),
    (
        "arena.<arena>.dirty_decay_ms",
        OnPlain::ReadsArena(ArenaReading::DirtyTime),
        OnWrite::DirtyTime,
    ),
    (
        "arena.<arena>.muzzy_decay_ms",
        OnPlain::ReadsArena(ArenaReading::MuzzyTime),
        OnWrite::MuzzyTime,
    ),
    (
        "arena.<arena>.extent_hooks",
        OnPlain::ReadsArena(ArenaReading::HookBox),
        OnWrite::HookBox,
    ),
    (
        "arena.<arena>.retain_grow_limit",
        OnPlain::ReadsArena(ArenaReading::GrowLimit),
        OnWrite::GrowLimit,
    ),
    (
        "arenas.narenas",
        OnPlain::Reads(Reading::ArenaCount),
        OnWrite::Never,
    ),
    (
        "arenas.dirty_decay_ms",
        OnPlain::Reads(Reading::NewDirtyTime),
        OnWrite::NewDirtyTime,
    ),
    (
        "arenas.muzzy_decay_ms",
        OnPlain::Reads(Reading::NewMuzzyTime),
        OnWrite::NewMuzzyTime,
    ),
    ("arenas.quantum", OnPlain::Number(16), OnWrite::Never),
    ("arenas.page", OnPlain::Number(4096), OnWrite::Never),
    ("arenas.tcache_max", OnPlain::Number(32768), OnWrite::Never),
    ("arenas.nbins", OnPlain::Number(36), OnWrite::Never),
    ("arenas.nhbins", OnPlain::Number(41), OnWrite::Never),
    ("arenas.nlextents", OnPlain::Number(85), OnWrite::Never),
    (
        "arenas.bin.<bin>.size",
        OnPlain::ReadsClass(ClassReading::Size),
        OnWrite::Never,
    ),
    (
        "arenas.bin.<bin>.nregs",
        OnPlain::ReadsClass(ClassReading::Regions),
        OnWrite::Never,
    ),
    (
        "arenas.bin.<bin>.slab_size",
        OnPlain::ReadsClass(ClassReading::SlabSize),
        OnWrite::Never,
    ),
    (
        "arenas.lextent.<large>.size",
        OnPlain::ReadsClass(ClassReading::LargeSize),
        OnWrite::Never,
    ),
    (
        "arenas.create",
        OnPlain::Acts(Action::Create),
        OnWrite::Create,
    ),
    ("arenas.lookup", OnPlain::Wanting, OnWrite::Lookup),
    (
        "stats.allocated",
        OnPlain::Total(Count::Allocated),
        OnWrite::Never,
    ),
    (
        "stats.active",
        OnPlain::Total(Count::Active),
        OnWrite::Never,
    ),
    (
        "stats.retained",
        OnPlain::Total(Count::Retained),
        OnWrite::Never,
    ),
    (
        "stats.arenas.<counted>.pactive",
        OnPlain::Stat(Count::ActivePages),
        OnWrite::Never,
    ),
    (
        "stats.arenas.<counted>.pdirty",
        OnPlain::Stat(Count::DirtyPages),
        OnWrite::Never,
    ),
    (
        "stats.arenas.<counted>.pmuzzy",
        OnPlain::Stat(Count::MuzzyPages),
        OnWrite::Never,
    ),
    (
        "stats.arenas.<counted>.retained",
        OnPlain::Stat(Count::Retained),
        OnWrite::Never,
    ),
    (
        "stats.arenas.<counted>.small.allocated",
        OnPlain::Stat(Count::Small),
        OnWrite::Never,
    ),
    (
        "stats.arenas.<counted>.large.allocated",
        OnPlain::Stat(Count::Large),
        OnWrite::Never,
    ),
    (
        "stats.arenas.<counted>.bins.<bin>.curregs",
        OnPlain::ClassStat(ClassCount::Regions),
        OnWrite::Never,
    ),
    (
        "stats.arenas.<counted>.bins.<bin>.curslabs",
        OnPlain::ClassStat(ClassCount::Slabs),
        OnWrite::Never,
    ),
    (
        "stats.arenas.<counted>.lextents.<large>.curlextents",
        OnPlain::ClassStat(ClassCount::LargeRegions),
        OnWrite::Never,
    ),
];

/// The rows, which are those of the table.
pub(crate) fn table() -> [Row; ROW_COUNT]
    ensures { map shown result ≡ rows }
{
    ROWS
}

/// The row of a name that was read.
pub fn row_of(name: CtlName) -> Row
    requires { name.row < 43 }
    ensures { shown result ≡ row_at name.row }
{
    table()[name.row as usize]
}
