//! All lines of a trace, read before anything is done.

use edge_io::{MemSource, Quiet};
use phase_run::{Unread, read_lines, read_phases};
use report_text::Cause;
use space_model::Seq;
use std::alloc::Global;
use std::fmt::Write;
use std::process::Abort;
use trace_phase::NumberedLine;

/// A source of a text whose reads with these numbers fail.
fn source(rt: &impl Abort, alloc: Global, text: &str, fail: &[u64]) -> MemSource {
    let text = text
        .as_bytes()
        .to_vec(alloc)
        .expect(rt, "memory for a text");
    let fail = fail.to_vec(alloc).expect(rt, "memory for numbers");
    MemSource::new(text, fail)
}

/// Writes lines with their numbers.
fn write_lines(rt: &impl Abort, out: &mut String, lines: &[NumberedLine]) {
    for line in lines {
        writeln!(out, "{} {:?}", line.number, line.line).expect(rt, "memory for a line");
    }
}

#[test]
fn lines_have_their_numbers(rt: HostRuntime) {
    let text = "phase\n\nt0 malloc a 20000\n# a comment\njoin\n";
    let mut source = source(&rt, rt.alloc(), text, &[]);
    let mut lines = Seq::new(rt.alloc());
    read_lines(rt.alloc(), &mut source, &Quiet::new(), &mut lines).expect(&rt, "lines");
    drop(source);
    let mut told = String::new(rt.alloc());
    write_lines(&rt, &mut told, lines.as_slice());
    drop(lines);
    let want = "1 Phase { rounds: 0 }
2 Blank
3 Call { client: 0, verb: Malloc { name: \"a\", size: 20000 } }
4 Blank
5 Join
";
    assert_eq!(rt; told.as_str(), want);
    drop(told);
}

/// Checks why the lines of a text aren't read.
fn is_unread(rt: &impl Abort, alloc: Global, text: &str, fail: &[u64], want: Unread) {
    let mut source = source(rt, alloc, text, fail);
    let unread = read_phases(alloc, &mut source, &Quiet::new()).err();
    drop(source);
    assert_eq!(rt; unread, Some(want), "in {text:?}");
}

/// Checks that this line of a text is bad, and the first that is.
fn is_bad(rt: &impl Abort, alloc: Global, text: &str, line: u64, cause: Cause) {
    is_unread(rt, alloc, text, &[], Unread::Bad { line, cause });
}

#[test]
fn the_first_bad_line_is_told(rt: HostRuntime) {
    let alloc = rt.alloc();
    // The clock and the phases are looked at once reading is over, and then an earlier line comes first.
    let text = "at 5\nat 4\njoin\nt0 malloc a 01\nt0";
    is_bad(&rt, alloc, text, 2, Cause::Clock);
    let text = "at 5\nphase\nt0 malloc a 01\n";
    is_bad(&rt, alloc, text, 3, Cause::Number);
    is_bad(&rt, alloc, "at 5\njoin\n\t", 2, Cause::Phase);
    is_bad(&rt, alloc, "at 5\nphase\n", 2, Cause::Phase);
    let text = "t0 arena 0\nt32 flush\n";
    is_bad(&rt, alloc, text, 2, Cause::LimitThreads);
    is_bad(&rt, alloc, "phase background 0\n", 1, Cause::Range);
    is_bad(&rt, alloc, "phase\njoin", 2, Cause::Cut);
    is_bad(&rt, alloc, "phase\n\tjoin\n", 2, Cause::Bytes);
    is_bad(&rt, alloc, "t0 counts\n", 1, Cause::Words);
    is_unread(&rt, alloc, "phase\njoin\n", &[1], Unread::ReadFault);
    is_unread(&rt, alloc, "join\njoin\n", &[2], Unread::ReadFault);
}

#[test]
fn phases_are_read(rt: HostRuntime) {
    let text = "t0 create 1\nphase\nt0 flush\njoin\n";
    let mut source = source(&rt, rt.alloc(), text, &[]);
    let phases = read_phases(rt.alloc(), &mut source, &Quiet::new()).expect(&rt, "phases");
    drop(source);
    assert_eq!(rt; (phases.parts.len(), phases.clients), (2, 1));
    drop(phases);
}

#[test]
fn limits_of_lines_and_bytes_are_told(rt: HostRuntime) {
    let mut long = String::from_str(rt.alloc(), "phase\n#").expect(&rt, "memory for a text");
    for _ in 0..256 {
        long.push_str("x").expect(&rt, "memory for a text");
    }
    let unread = Unread::Bad {
        line: 2,
        cause: Cause::LimitBytes,
    };
    is_unread(&rt, rt.alloc(), long.as_str(), &[2], unread);
    drop(long);
}
