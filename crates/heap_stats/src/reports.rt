//! The text of the counts as JSON.

ghost use Rattle.std.specs.Prelude.{◌≡◌, string_bytes, IfOk};
ghost use Rattle.heap_stats.specs.Json.{json_text};

use crate::values::{arena_values, report_value};
use space_model::Counts;
use std::alloc::{AllocError as NoMemory, Global};

/// The counts of the live arenas as compact JSON: an object with the key `arenas`, a list of one object for each arena
/// that is there, by index, with its index and its bytes by use. A member is `None` where its arena isn't live.
#[tactic(auto, using(crate::proofs::Floats::no_float))]
pub fn json(alloc: Global, counts: &[Option<Counts>]) -> Result<String, NoMemory>
    ensures { IfOk result (λ text. string_bytes text ≡ json_text counts.now) }
{
    let arenas = arena_values(alloc, counts)?;
    let report = report_value(alloc, arenas)?;
    report.to_string(alloc)
}
