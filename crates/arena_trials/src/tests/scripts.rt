//! Scripts of entries: an arena and its space carry each entry out, and tell what the script says.

ghost use Rattle.space_model.specs.Sound.{Sound};

use super::entries::entry;
use super::texts::{classes, counts, extents, places, regions};
use super::trials::Trial;
use space_model::{Entry, Reply, Space};
use std::alloc::{AllocError as NoMemory, Global};
use std::process::Abort;

/// The text of a reply, or `bars` where the entry may not stand.
fn text_of(alloc: Global, reply: Option<Reply>) -> Result<String, NoMemory> {
    match reply {
        None => Ok(String::from_str(alloc, "bars")?),
        Some(Reply::Regions(addrs)) => places(alloc, addrs.as_slice()),
        Some(reply) => Ok(format!(in alloc; "{reply:?}")?),
    }
}

/// What is seen of a space, where a line of a script asks for that.
fn seen(alloc: Global, space: &Space, text: &str) -> Option<Result<String, NoMemory>>
    requires { Sound space.now }
{
    match text {
        "counts" => Some(counts(alloc, space)),
        "classes" => Some(classes(alloc, space)),
        "extents" => Some(extents(alloc, space.parts.as_slice())),
        "regions" => Some(regions(alloc, space.regions.as_slice())),
        _ => None,
    }
}

/// The reply to the entry of a line.
fn replied(rt: &impl Abort, alloc: Global, trial: &mut Trial, text: &str) -> Option<Reply> {
    let Entry { client, op } = entry(rt, alloc, text);
    trial.attempt(rt, client, op)
}

/// What a line of a script tells.
fn told(rt: &impl Abort, alloc: Global, trial: &mut Trial, text: &str) -> String {
    let told = match seen(alloc, trial.space(), text) {
        Some(told) => told,
        None => text_of(alloc, replied(rt, alloc, trial, text)),
    };
    told.expect(rt, "memory for a text")
}

/// A line of a script told what stands behind it.
fn agrees(rt: &impl Abort, line: &str, told: &str, wanted: &str) {
    assert!(rt; told == wanted, "{line}: {told}");
}

/// Carries out a line of a script: what it tells stands behind it.
fn check(rt: &impl Abort, alloc: Global, trial: &mut Trial, line: &str) {
    if let Some((text, wanted)) = line.split_once(" = ") {
        let told = told(rt, alloc, trial, text);
        agrees(rt, line, told.as_str(), wanted);
        trial.counts_agree(rt);
    }
}

/// Carries out a script.
pub(crate) fn carry_out(rt: &impl Abort, alloc: Global, trial: &mut Trial, script: &str) {
    for line in script.lines() {
        check(rt, alloc, trial, line);
    }
}
