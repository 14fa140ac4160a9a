//! Why a word is no number.

use thiserror::Error;

/// The cause for which a word is no number: the first that holds, in the order of the variants.
#[derive(Clone, Copy, Debug, PartialEq, Eq, Error)]
pub enum NumberFault {
    /// The word isn't digits of the base, one at least. A hexadecimal one has 16 of them at most.
    #[error("no digits")]
    NotDigits,
    /// A 0 stands before another digit, or the number isn't below 2^64.
    #[error("a number of 2^64 or more, or with a leading zero")]
    NotNumeral,
}
