//! Lines that can't be carried out.

use super::runs::{SOUND, replayed, rising};
use std::alloc::Global;
use std::process::Abort;
use std::test::Fail;

/// Replays a trace that has a bad line and no call before it: the report is just the line that tells so, and no hook is asked.
fn tells(rt: &impl Abort, alloc: Global, trace: &str, told: &str) -> Result<(), Fail> {
    let run = replayed(alloc, trace, SOUND, rising(rt, alloc)?)?;
    let report = String::from_utf8_lossy(alloc, &run.report)?;
    assert_eq!(rt; (run.status, report.as_str()), (3, told), "{trace}");
    assert!(rt; run.asks.as_slice().is_empty(), "{trace}");
    Ok(())
}

#[test]
fn a_bad_line_is_told_by_its_cause(rt: HostRuntime) -> Result<(), Fail> {
    let rows = [
        ("t0  flush\n", "line 1: words\n"),
        ("t0 malloc A 1\n", "line 1: words\n"),
        ("t0 malloc a 01\n", "line 1: number\n"),
        ("t0 malloc a 18446744073709551616\n", "line 1: number\n"),
        ("refuse 32 alloc 1\n", "line 1: range\n"),
        ("refuse 0 alloc 0\n", "line 1: range\n"),
        ("t0 dirty 0 1000000001\n", "line 1: range\n"),
        ("t0 purge 4294967296\n", "line 1: range\n"),
        ("at 5\nat 4\n", "line 2: clock\n"),
        ("t0 free\ta\n", "line 1: bytes\n"),
        ("phase\n", "line 1: phase\n"),
    ];
    for (trace, told) in rows {
        tells(&rt, rt.alloc(), trace, told)?;
    }
    Ok(())
}
