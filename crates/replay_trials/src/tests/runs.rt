//! A replay over a source and a sink in memory.

ghost use Rattle.std.specs.Prelude.{◌≤◌};

use edge_io::{MemSink, MemSource};
use hook_api::{Asked, ExtentHooks, HookShelf, RisingHooks};
use replay_run::{Closing, replay};
use space_model::Seq;
use std::alloc::{AllocError as NoMemory, Global};
use std::process::Abort;
use std::test::Fail;

/// A stream: how many bytes a call of it moves at most, and the ordinal of the call that fails, 0 where none does.
#[derive(Clone, Copy)]
pub(super) struct Stream {
    pub(super) most: u64,
    pub(super) failing: u64,
}

/// A stream that moves all that there is room for, and doesn't fail.
pub(super) const WHOLE: Stream = Stream {
    most: u64::MAX,
    failing: 0,
};

/// Where a trace comes from, and where its report goes.
#[derive(Clone, Copy)]
pub(super) struct Streams {
    pub(super) source: Stream,
    pub(super) sink: Stream,
}

/// Streams that don't fail.
pub(super) const SOUND: Streams = Streams {
    source: WHOLE,
    sink: WHOLE,
};

/// What came of a replay.
#[derive(Drop)]
pub(super) struct Outcome {
    pub(super) status: u8,
    pub(super) report: Vec<u8>,
    pub(super) asks: Seq<Asked>,
    /// Whether more input was read while an answer waited in the sink.
    pub(super) hasty: bool,
}

/// Replays a trace from a source and into a sink, over the boxes of a shelf.
pub(super) fn replayed<H: ExtentHooks>(
    alloc: Global,
    trace: &str,
    streams: Streams,
    shelf: HookShelf<H>,
) -> Result<Outcome, NoMemory>
    requires source { 1 ≤ streams.source.most }
    requires sink { 1 ≤ streams.sink.most }
{
    let Streams { source, sink } = streams;
    let input = trace.as_bytes().to_vec(alloc)?;
    let mut source = MemSource::pieces(input, [source.failing].to_vec(alloc)?, source.most);
    let mut sink = MemSink::pieces(alloc, [sink.failing].to_vec(alloc)?, sink.most);
    let run = replay(alloc, &mut source, &mut sink, shelf, Closing::Lines);
    Ok(Outcome {
        status: run.status,
        report: sink.held().to_vec(alloc)?,
        asks: run.heard.to_list(alloc)?,
        hasty: source.was_hasty(),
    })
}

/// A shelf whose boxes place each range behind the one before.
pub(super) fn rising(rt: &impl Abort, alloc: Global) -> Result<HookShelf<RisingHooks>, Fail> {
    let mut boxes = Vec::new(alloc);
    for _ in 0..32 {
        boxes.push(RisingHooks::new())?;
    }
    assert_eq!(rt; boxes.len(), 32);
    Ok(HookShelf::new(boxes))
}
