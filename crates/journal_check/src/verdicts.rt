//! What an input comes to.

use space_model::{Counts, Seq};

/// A live arena at the end of an input.
#[derive(Clone, Copy, Debug, PartialEq, Eq)]
pub struct End {
    /// Its index, below 32.
    pub index: u32,
    /// How many entries its journal has.
    pub entries: u64,
    /// Its counts.
    pub counts: Counts,
}

/// Live arenas, by index.
pub type Ends = Seq<End>;

/// What an input comes to. Its lines are numbered from 1.
#[derive(Drop)]
pub enum Verdict {
    /// Each line is an entry that may stand where it comes, and no chunk has two owners at the end.
    Accepted {
        /// How many entries were read.
        entries: u64,
        /// The live arenas that they leave.
        ends: Ends,
    },
    /// The first bad line is the text of no entry of one of 32 arenas, or it is cut: no newline stands behind it.
    NotEntry {
        /// The number of the line.
        line: u64,
    },
    /// The entry of the first bad line may not stand where it comes.
    NotStanding {
        /// The number of the line.
        line: u64,
    },
    /// No line is bad, but at the end a chunk has two owners.
    Met {
        /// The least such chunk.
        chunk: u64,
        /// Its lowest owner.
        low: u32,
        /// Its second owner.
        high: u32,
    },
    /// A line passes a limit, and none before it is bad.
    Limit {
        /// The number of the line.
        line: u64,
        /// Whether it has more bytes than a line may have; otherwise it is one line more than an input may have.
        bytes: bool,
    },
    /// A read failed.
    ReadFault,
    /// Memory was wanting.
    NoMemory,
}

/// Why a line is bad.
#[derive(Clone, Copy, Debug, PartialEq, Eq)]
pub enum Bad {
    /// It is the text of no entry of one of 32 arenas, or it is cut.
    NotEntry,
    /// Its entry may not stand where it comes.
    NotStanding,
}

/// How much an input may have.
#[derive(Clone, Copy, Debug, PartialEq, Eq)]
pub struct Limits {
    /// How many lines it has at most.
    pub lines: u64,
    /// How many bytes a line has at most, without its newline.
    pub bytes: u64,
}
