//! Why a line could not be read.

ghost use Rattle.std.specs.Prelude.{◌≡◌};
ghost use Rattle.trace_text.specs.declared.faults.LineFault.TheVariants.{NoMemory};

use std::alloc::AllocError;
use thiserror::Error;

/// The cause of a line that could not be read: the first that holds, in the order of the variants.
#[derive(Clone, Copy, Debug, PartialEq, Eq, Error)]
pub enum LineFault {
    /// Memory ran out. It comes before every other cause.
    #[error("out of memory")]
    NoMemory,
    /// A byte outside 32 to 126, anywhere in the line.
    #[error("a byte outside 32 to 126")]
    Bytes,
    /// The line has no shape of the grammar. Its words are parted by exactly one space.
    #[error("no line of the grammar")]
    Words,
    /// A number that isn't below 2^64 or has a leading zero, anywhere in the line.
    #[error("a number of 2^64 or more, or with a leading zero")]
    Number,
    /// A client above 31.
    #[error("a client above 31")]
    Threads,
    /// A number outside the range of its place in the line: a box above 31, an arena of 2^32 or more, a time above
    /// 1000000000 milliseconds, or 0 where the refusals of a plan are counted from 1.
    #[error("a number outside its range")]
    Range,
}

impl From<AllocError> for LineFault {
    ghost from_gives = { λ _ e. e ≡ NoMemory };

    fn from(_: AllocError) -> LineFault {
        LineFault::NoMemory
    }
}
