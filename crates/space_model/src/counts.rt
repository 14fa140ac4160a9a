//! The counts of an arena.

/// The bytes of an arena by use, and its regions and slabs by class (`stats.arenas.<i>` in the manual). Offered extents
/// count nowhere.
#[derive(Clone, Copy, Debug, PartialEq, Eq)]
pub struct Counts {
    /// The sizes of all regions.
    pub allocated: u64,
    /// The bytes of the extents that serve regions.
    pub active: u64,
    /// The bytes of the dirty extents.
    pub dirty: u64,
    /// The bytes of the muzzy extents.
    pub muzzy: u64,
    /// The bytes of the retained extents.
    pub retained: u64,
    /// The bytes of the extents in flight.
    pub flight: u64,
    /// The bytes of all extents but the retained ones.
    pub mapped: u64,
    /// The sizes of the small regions.
    pub small: u64,
    /// The sizes of the large regions.
    pub large: u64,
    /// How many regions there are of each small class.
    pub regs: [u64; 36],
    /// How many slabs there are of each small class.
    pub slabs: [u64; 36],
    /// How many regions there are of each large class, from class 36 on.
    pub lextents: [u64; 85],
}
