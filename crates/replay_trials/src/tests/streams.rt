//! Sources and sinks that move a few bytes at a call, and of which each call fails once.

ghost use Rattle.std.specs.Prelude.{◌≤◌};

use super::runs::{SOUND, Stream, Streams, replayed, rising};
use std::alloc::Global;
use std::process::Abort;
use std::test::Fail;

const TRACE: &str =
    "t0 reset 0\nt0 create 1\nt0 arena 1\nt0 cache on\nt0 malloc a 20000\nt0 malloc b 20000\n\
    t1 free b\nt0 free a\nt0 reset 1\nt0 flush\nt0 malloc c 20000\nt0 reset 1\nt0 free c\nt0 destroy 1\n\
    t0 arena 0\nt0 destroy 1\nt0 purge 1\nt0 create 1\n";

const REPORT: &str = "t0 reset automatic arena\nt0 create 1\nt0 arena ok\nt0 cache ok\n\
    t0 malloc a @200000 20480\nt0 malloc b @205000 20480\nt1 free ok\nt0 free ok\n\
    t0 reset busy held 1 flights 0 threads 0\nt0 flush ok\nt0 malloc c @200000 20480\nt0 reset ok\n\
    t0 free not held @200000\nt0 destroy busy held 0 flights 0 threads 1\nt0 arena ok\nt0 destroy ok\n\
    t0 purge no arena 1\nt0 create 1\n\
    arena 0 allocated 0 active 0 dirty 0 muzzy 0 retained 0 flight 0 mapped 0\n\
    arena 1 allocated 0 active 0 dirty 0 muzzy 0 retained 0 flight 0 mapped 0\n";

/// The most bytes that a call of a stream moves in these trials.
const PIECES: u64 = 20;

/// More calls than a stream makes.
const CALLS: u64 = 1000;

/// The stream of a replay that moves few bytes at a call, and fails.
#[derive(Clone, Copy)]
enum End {
    Source,
    Sink,
}

impl End {
    /// The status of a replay of which this stream failed.
    fn status(self) -> u8 {
        match self {
            End::Source => 4,
            End::Sink => 5,
        }
    }

    /// Streams of which this one is as given.
    fn streams(self, stream: Stream) -> Streams
        requires { 1 ≤ stream.most }
        ensures source { 1 ≤ result.source.most }
        ensures sink { 1 ≤ result.sink.most }
    {
        match self {
            End::Source => Streams {
                source: stream,
                ..SOUND
            },
            End::Sink => Streams {
                sink: stream,
                ..SOUND
            },
        }
    }
}

/// Has each call of a stream that moves so many bytes fail once, and gives how many calls there are. What was printed begins
/// the report each time, and it is the whole one where the call that would fail isn't made.
fn fail_each(rt: &impl Abort, alloc: Global, end: End, most: u64) -> Result<u64, Fail>
    requires { 1 ≤ most }
{
    for failing in 1..=CALLS {
        let streams = end.streams(Stream { most, failing });
        let run = replayed(alloc, TRACE, streams, rising(rt, alloc)?)?;
        assert!(rt; !run.hasty, "call {failing} of {most} bytes");
        if run.status == 0 {
            assert_eq!(rt;
                run.report.as_slice(),
                REPORT.as_bytes(),
                "{most} bytes at a call"
            );
            return Ok(failing - 1);
        }
        assert_eq!(rt; run.status, end.status(), "call {failing} of {most} bytes");
        assert!(rt;
            REPORT.as_bytes().starts_with(&run.report),
            "call {failing} of {most} bytes"
        );
    }
    Ok(CALLS)
}

#[test]
fn each_read_fails_alone(rt: HostRuntime) -> Result<(), Fail> {
    for most in 1..=PIECES {
        let reads = (TRACE.len() as u64).div_ceil(most);
        // The read behind them meets the end.
        assert_eq!(rt; fail_each(&rt, rt.alloc(), End::Source, most)?, reads + 1);
    }
    Ok(())
}

/// How many writes of so many bytes the report takes: each answer is a text of its own, and the counts at the end are one.
fn writes_of(most: u64) -> u64
    requires { 1 ≤ most }
{
    let mut writes = 0u64;
    let mut closing = 0u64;
    for line in REPORT.lines() {
        let length = line.len() as u64 + 1;
        if line.starts_with("arena ") {
            closing = closing.saturating_add(length);
        } else {
            writes = writes.saturating_add(length.div_ceil(most));
        }
    }
    writes.saturating_add(closing.div_ceil(most))
}

#[test]
fn each_write_fails_alone(rt: HostRuntime) -> Result<(), Fail> {
    for most in 1..=PIECES {
        assert_eq!(rt;
            fail_each(&rt, rt.alloc(), End::Sink, most)?,
            writes_of(most)
        );
    }
    Ok(())
}
