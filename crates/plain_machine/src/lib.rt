//! The slow machine: what an entry does to a space, by scans over its lists.
//!
//! It is what every faster body is compared with. A call is as slow as its definition reads: a look compares each
//! candidate with each other one.
#![tactic(auto)]

mod ends;
mod finds;
mod frees;
mod holds;
mod moves;
mod paces;
mod purges;
mod resizes;
mod settings;
mod slabs;
mod stands;
mod sums;

pub use moves::plain_step;
use space_model::Reply;
pub use stands::may_stand;
use std::alloc::AllocError;
pub use sums::plain_counts;

/// The reply to an operation, unless memory is wanting.
type Replied = Result<Reply, AllocError>;
