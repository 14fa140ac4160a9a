//! What an arena is, what one entry of its journal does to it, and what is always true of it.
//!
//! Everything here is plain data and plain lists: nothing knows a hook object, a thread or a byte of input. The types
//! are those that the other crates speak of, `specs/` has the definitions that their contracts cite, and the laws say
//! what is always true of them.
#![tactic(auto)]

mod addresses;
mod asks;
mod boxed;
mod clients;
mod counts;
mod entries;
mod laws;
mod parts;
mod seq;
mod spaces;
mod spans;
mod states;

pub use addresses::Addresses;
pub use asks::{Answer, Ask, Heard};
pub use boxed::Boxed;
pub use clients::Clients;
pub use counts::Counts;
pub use entries::{Entry, Op, Reply, Setting, Why};
pub use laws::{
    counts_add_up, entries_keep_good, nothing_is_shared, regions_are_usable, replays_are_good,
    replies_tell,
};
pub use parts::{Offered, Offers, Part, Parts, Region, Regions, Rest, Span, State};
pub use seq::Seq;
pub use spaces::{Added, Addeds, Life, MAX_SERIES, Pace, Space};

/// How many chunks of 2 MiB the space of addresses has. They are numbered from 1.
pub const CHUNKS: u64 = 1048575;

/// How many pages of 4 KiB a chunk has.
pub const CHUNK_PAGES: u64 = 512;

/// The decay time of an arena's dirty extents where nobody set one, in milliseconds (`opt.dirty_decay_ms` in the manual).
pub const DIRTY_MS: i64 = 10000;

/// The decay time of an arena's muzzy extents where nobody set one, in milliseconds (`opt.muzzy_decay_ms` in the manual).
pub const MUZZY_MS: i64 = 0;

/// How many clients there may be. They are numbered from 0.
pub const CLIENTS: u32 = 32;
