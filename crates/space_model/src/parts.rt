//! Spans of pages, the parts into which an arena's pages fall, and the regions that clients hold in them.

use crate::Seq;

/// The pages `first` to `first + pages - 1`. A page has 4096 bytes.
#[derive(Clone, Copy, Debug, PartialEq, Eq)]
pub struct Span {
    /// The number of the first page.
    pub first: u64,
    /// How many pages there are.
    pub pages: u64,
}

/// Where an unused extent belongs: the three lists of an arena.
#[derive(Clone, Copy, Debug, PartialEq, Eq)]
pub enum Rest {
    /// Unused since a free, and not given to the system.
    Dirty,
    /// Purged lazily: the system may take its memory at any time.
    Muzzy,
    /// Kept as addresses alone.
    Retained,
}

/// What an extent is used for.
#[derive(Clone, Copy, Debug, PartialEq, Eq)]
pub enum State {
    /// It serves regions.
    Active,
    /// It is listed among the dirty extents.
    Dirty,
    /// It is listed among the muzzy extents.
    Muzzy,
    /// It is listed among the retained extents.
    Retained,
    /// The client took it out of its list, and it goes to the given one when it is put down.
    Flight(u32, Rest),
}

/// An extent of an arena: its pages, its use, and whether its pages are committed.
#[derive(Clone, Copy, Debug, PartialEq, Eq)]
pub struct Part {
    /// The pages.
    pub span: Span,
    /// What they are used for.
    pub state: State,
    /// Whether a hook said that they are backed by memory.
    pub committed: bool,
}

/// An allocation: where it begins, its size class, and the client that holds it, or none while it is published.
#[derive(Clone, Copy, Debug, PartialEq, Eq)]
pub struct Region {
    /// The address of its first byte.
    pub addr: u64,
    /// Its size class, below 121.
    pub class: u8,
    /// The client that holds it.
    pub holder: Option<u32>,
}

/// An extent that a client has offered to its dalloc hook, and whose answer isn't known yet.
#[derive(Clone, Copy, Debug, PartialEq, Eq)]
pub struct Offered {
    /// The client that asks the hook.
    pub client: u32,
    /// The pages.
    pub span: Span,
    /// Whether they are committed.
    pub committed: bool,
}

/// The parts of an arena, in the order in which each took its present span, state and commit state.
pub type Parts = Seq<Part>;

/// The regions of an arena, by address.
pub type Regions = Seq<Region>;

/// The offers of an arena, in the order in which they were made.
pub type Offers = Seq<Offered>;
