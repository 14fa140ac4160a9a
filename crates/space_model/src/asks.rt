//! What an arena asks a box of hooks, and what it hears (`extent_hooks_t` in the manual).

use crate::Span;

/// A call of a hook, with its arguments. Spans and alignments are in pages.
#[derive(Clone, Copy, Debug, PartialEq, Eq)]
pub enum Ask {
    /// `extent_alloc_t`: a new range, at a given place or anywhere.
    Alloc {
        /// Whether the range is to be committed.
        commit: bool,
        /// The first page that is wished, if any.
        at: Option<u64>,
        /// How many pages.
        pages: u64,
        /// The alignment of the first page.
        align: u64,
    },
    /// `extent_dalloc_t`: the range isn't needed any more.
    Dalloc {
        /// The range.
        span: Span,
        /// Whether it is committed.
        committed: bool,
    },
    /// `extent_destroy_t`: the range goes, with its arena.
    Destroy {
        /// The range.
        span: Span,
        /// Whether it is committed.
        committed: bool,
    },
    /// `extent_commit_t`: back the range by memory.
    Commit(Span),
    /// `extent_decommit_t`: take the memory behind the range back.
    Decommit(Span),
    /// `extent_purge_t`, lazy: the memory behind the range may go at any time.
    PurgeLazy(Span),
    /// `extent_purge_t`, forced: the memory behind the range goes now.
    PurgeForced(Span),
    /// `extent_split_t`: the range is two from now on.
    Split {
        /// The range.
        span: Span,
        /// How many pages the lower one has.
        left: u64,
    },
    /// `extent_merge_t`: two ranges side by side are one from now on.
    Merge {
        /// The lower range.
        low: Span,
        /// The higher range.
        high: Span,
    },
}

/// What a hook answers.
#[derive(Clone, Copy, Debug, PartialEq, Eq)]
pub enum Answer {
    /// It refuses.
    Refused,
    /// It is done.
    Done,
    /// A new range begins at this page. Nothing says that the answer is true.
    Placed {
        /// Whether the range is committed.
        committed: bool,
        /// Whether its bytes are zero.
        zeroed: bool,
        /// The first page.
        first: u64,
    },
}

/// A call of a hook with its answer.
#[derive(Clone, Copy, Debug, PartialEq, Eq)]
pub struct Heard {
    /// The call.
    pub ask: Ask,
    /// The answer.
    pub answer: Answer,
}
