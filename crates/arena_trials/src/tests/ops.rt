//! Operations in short, and the spans and classes that they name.

use size_classes::Addrs;
use space_model::{Addresses, Answer, Ask, Heard, Op, Span};
use std::alloc::Global;

/// The class of 1280 bytes, of which a slab of 5 pages has 16.
pub const SLAB_CLASS: u8 = 21;

/// The class of 16384 bytes, which are 4 pages.
pub const FOUR_CLASS: u8 = 36;

/// The class of 20480 bytes, which are 5 pages.
pub const FIVE_CLASS: u8 = 37;

/// The first chunk.
pub const CHUNK: Span = Span {
    first: 512,
    pages: 512,
};

/// The next state of a linear congruential generator, of which the high bits are taken.
pub(crate) fn next_state(state: u64) -> u64 {
    state
        .wrapping_mul(6364136223846793005)
        .wrapping_add(1442695040888963407)
}

/// A look for so many pages.
pub(crate) fn look(pages: u64) -> Op {
    Op::Look { pages, align: 1 }
}

/// The range of 512 pages that came from a page on.
pub(crate) fn grown(first: u64, committed: bool) -> Op {
    let ask = Ask::Alloc {
        at: None,
        pages: 512,
        align: 512,
        commit: false,
    };
    let answer = Answer::Placed {
        first,
        committed,
        zeroed: false,
    };
    Op::GrowDone {
        heard: Heard { ask, answer },
        found: None,
    }
}

/// A split at so many pages, and whether the lower piece stays in flight.
pub(crate) fn cut(span: Span, left: u64, keep_low: bool, answer: Answer) -> Op {
    let ask = Ask::Split { span, left };
    Op::CutDone {
        heard: Heard { ask, answer },
        keep_low,
    }
}

/// A commit, and its answer.
pub(crate) fn committed(span: Span, answer: Answer) -> Op {
    let ask = Ask::Commit(span);
    Op::CommitDone {
        heard: Heard { ask, answer },
    }
}

/// The merge of two extents beside each other, of which the first one looked.
pub(crate) fn merged(own: Span, other: Span) -> Op {
    let own_low = own.first < other.first;
    let (low, high) = if own_low { (own, other) } else { (other, own) };
    let heard = Heard {
        ask: Ask::Merge { low, high },
        answer: Answer::Done,
    };
    Op::MergeDone { heard, own_low }
}

/// The list of one address, or of two.
pub(crate) fn addresses_of(alloc: Global, first: u64, second: u64) -> Addresses {
    let mut addrs = Addrs::new(alloc);
    addrs.push(first);
    if second != first {
        addrs.push(second);
    }
    Addresses::new(addrs)
}
