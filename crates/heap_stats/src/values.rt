//! The counts of arenas as values of JSON.

ghost use Rattle.std.specs.Prelude.{◌≡◌, codes, map, IfOk};
ghost use Rattle.serde_json.specs.View.{items_of, view};
ghost use Rattle.serde_json.specs.Data.{array, member, no_members, object};
ghost use Rattle.heap_stats.specs.Json.{arena_data, arenas_from};

use serde_json::{Value, json};
use space_model::Counts;
use std::alloc::{AllocError as NoMemory, Global};

/// The object of one arena.
fn arena_value(alloc: Global, index: u64, counts: &Counts) -> Result<Value, NoMemory>
    ensures { IfOk result (λ value. view value ≡ arena_data index counts.now) }
{
    json!(in alloc; {
        "index": index,
        "allocated": (counts.allocated),
        "active": (counts.active),
        "dirty": (counts.dirty),
        "muzzy": (counts.muzzy),
        "retained": (counts.retained),
        "flight": (counts.flight),
        "mapped": (counts.mapped)
    })
}

/// The objects of the live arenas, by index.
pub(crate) fn arena_values(alloc: Global, counts: &[Option<Counts>]) -> Result<Vec<Value>, NoMemory>
    ensures { IfOk result (λ values. map view values.items ≡ arenas_from 0 counts.now) }
{
    let mut values = Vec::new(alloc);
    for (index, counts) in counts.iter().enumerate() {
        if let Some(counts) = counts {
            values.push(arena_value(alloc, index as u64, counts)?)?;
        }
    }
    Ok(values)
}

/// The object with these arenas.
pub(crate) fn report_value(alloc: Global, arenas: Vec<Value>) -> Result<Value, NoMemory>
    ensures { IfOk result (λ value. view value ≡ object (member (codes "arenas") (array (items_of (map view arenas.items))) no_members)) }
{
    json!(in alloc; {"arenas": (Value::Array(arenas))})
}
