//! What the lines of a trace come to as phases, and the first line that can't stand in them.

use space_model::Seq;
use std::alloc::Global;
use std::fmt::Write;
use std::process::Abort;
use trace_phase::{NumberedLine, Part, Phase, PhaseCause, PhaseFault, Phases, Work};
use trace_text::read;

/// What the lines of a text, which a slash parts, come to.
fn checked(rt: &impl Abort, alloc: Global, text: &str) -> Result<Phases, PhaseFault> {
    let mut lines = Seq::new(alloc);
    for (before, line) in text.split("/").enumerate() {
        let number = (before as u64).saturating_add(1);
        let line = read(alloc, line.as_bytes()).expect(rt, "a line");
        let numbered = NumberedLine { number, line };
        lines.push(numbered).expect(rt, "memory for a line");
    }
    Phases::check(alloc, lines)
}

/// Writes a client and its calls.
fn write_work(rt: &impl Abort, out: &mut String, work: &Work) {
    write!(out, " t{}", work.client).expect(rt, "memory for a client");
    for call in work.calls.as_slice() {
        write!(out, " {call:?}").expect(rt, "memory for a call");
    }
}

/// Writes a phase: its moment, its rounds, and the calls of each client.
fn write_phase(rt: &impl Abort, out: &mut String, phase: &Phase) {
    let (moment, rounds) = (phase.moment, phase.rounds);
    write!(out, "phase at {moment} rounds {rounds}").expect(rt, "memory for a phase");
    for work in phase.works.as_slice() {
        write_work(rt, out, work);
    }
}

/// Writes the parts and the number of clients.
fn write_phases(rt: &impl Abort, out: &mut String, phases: &Phases) {
    let memory = "memory for a part";
    for part in phases.parts.as_slice() {
        match part {
            Part::Setting(setting) => write!(out, "{setting:?}").expect(rt, memory),
            Part::Phase(phase) => write_phase(rt, out, phase),
        }
        out.push_str("\n").expect(rt, memory);
    }
    write!(out, "clients {}", phases.clients).expect(rt, memory);
}

/// Checks what the lines of a text come to, by the texts of the parts and the number of clients.
fn come_to(rt: &impl Abort, alloc: Global, text: &str, want: &str) {
    let phases = checked(rt, alloc, text).expect(rt, "phases");
    let mut told = String::new(alloc);
    write_phases(rt, &mut told, &phases);
    assert_eq!(rt; told.as_str(), want);
    drop(told);
    drop(phases);
}

#[test]
fn settings_and_phases_are_told(rt: HostRuntime) {
    let text =
        "# a comment/t0 create 1/at 5/t3 dirty 0 -1/refuse 1 alloc 2/t4 arena 1/t4 cache on/phase/t2 malloc a 20000/t0 memalign b 64 3/t2 publish a//t0 flush/join/phase/t0 take a/t0 free a/t1 purge 0/t1 decay 7/join/at 9/phase background 3/join";
    let want = "Call { client: 0, moment: 0, call: Create(1) }
Call { client: 3, moment: 5, call: Time { arena: 0, rest: Dirty, ms: -1 } }
Refuse { box_no: 1, kind: Alloc, nth: 2 }
Call { client: 4, moment: 5, call: Bind(1) }
Call { client: 4, moment: 5, call: Cache(true) }
phase at 5 rounds 0 t2 Malloc { name: \"a\", size: 20000 } Publish(\"a\") t0 Memalign { name: \"b\", align: 64, size: 3 } Flush
phase at 5 rounds 0 t0 Take(\"a\") Free(\"a\") t1 Purge(0) Decay(7)
phase at 9 rounds 3
clients 6";
    come_to(&rt, rt.alloc(), text, want);
}

/// Checks that a line is told as the first that can't stand: its number stands before the text.
fn is_bad(rt: &impl Abort, alloc: Global, row: &str, cause: PhaseCause) {
    let (number, text) = row.split_once(" ").expect(rt, "a number and a text");
    let line = number.parse().expect(rt, "a number");
    let fault = checked(rt, alloc, text).err();
    assert_eq!(rt; fault, Some(PhaseFault::At { line, cause }), "in {text:?}");
}

/// Checks of each of these rows that its line is told as the first that can't stand.
fn are_bad(rt: &impl Abort, alloc: Global, rows: &str, cause: PhaseCause) {
    for row in rows.lines() {
        is_bad(rt, alloc, row, cause);
    }
}

#[test]
fn the_first_bad_line_is_told(rt: HostRuntime) {
    let clocks = "3 at 5/phase/at 3\n2 at 5/at 4/phase";
    are_bad(&rt, rt.alloc(), clocks, PhaseCause::Clock);
    are_bad(&rt, rt.alloc(), "1 phase/t0 flush", PhaseCause::NotJoined);
    let phases = "3 phase/t0 malloc a 20000/t1 free a/join
2 phase/phase
1 join
1 t0 malloc a 1
1 counts 0
1 t0 step
3 at 5/phase/at 5
2 phase/t0 create 1
2 phase/t0 free @200000
2 phase/t0 call flush
2 phase/t0 free a
2 phase/refuse 0 alloc 1
3 phase/t0 malloc a 1/t0 realloc a 2
2 phase/t0 mallocx a 1 0
3 phase/t0 malloc a 1/t0 freex a 0
1 t0 realloc a 2
1 t0 mallocx a 1 0
1 t0 freex a 0";
    are_bad(&rt, rt.alloc(), phases, PhaseCause::Phase);
}

#[test]
fn names_are_used_by_one_client_in_a_phase(rt: HostRuntime) {
    // A freed name is another client's in a later phase, and not in the same one.
    let freed = "4 phase/t0 malloc a 1/t0 free a/t1 malloc a 1
7 phase/t0 malloc a 1/t0 free a/join/phase/t1 malloc a 1/t0 free a
6 phase/t0 malloc a 1/t0 free a/t0 malloc a 1/t0 free a/t0 free a";
    are_bad(&rt, rt.alloc(), freed, PhaseCause::Phase);
    // A published name waits for a take in a later phase, and nothing else stands of it.
    let published = "4 phase/t0 malloc a 1/t0 publish a/t1 take a
4 phase/t0 malloc a 1/t0 publish a/t0 malloc a 1
6 phase/t0 malloc a 1/t0 publish a/join/phase/t0 malloc a 1
7 phase/t0 malloc a 1/t0 publish a/join/phase/t1 take a/t2 take a
6 phase/t0 malloc a 1/t0 malloc a 2/join/phase/t1 memalign a 8 1";
    are_bad(&rt, rt.alloc(), published, PhaseCause::Phase);
}

#[test]
fn client_31_is_the_worker_in_the_background(rt: HostRuntime) {
    let within = "3 phase background 1/join/t31 arena 0
2 phase background 1/t31 flush
4 t31 arena 0/phase/join/phase background 1";
    are_bad(&rt, rt.alloc(), within, PhaseCause::Phase);
    let twice = "phase background 1/t0 flush/join/phase background 1000/join";
    let want = "phase at 0 rounds 1 t0 Flush\nphase at 0 rounds 1000\nclients 2";
    come_to(&rt, rt.alloc(), twice, want);
}
