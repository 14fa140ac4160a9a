//! The statuses that the program gives beside those of a replay and a soak, where 4, 5 and 6 mean what they mean here.

/// The words are in no list.
pub(crate) const BAD_WORDS: u8 = 2;

/// A write to the sink failed.
pub(crate) const SINK_FAILED: u8 = 5;

/// Memory was wanting.
pub(crate) const NO_MEMORY: u8 = 6;

/// Journals are accepted.
pub(crate) const ACCEPTED: u8 = 0;

/// A read from the source failed.
pub(crate) const SOURCE_FAILED: u8 = 4;

/// Journals pass a limit.
pub(crate) const OVER_LIMIT: u8 = 7;

/// Journals aren't accepted.
pub(crate) const NOT_ACCEPTED: u8 = 8;
