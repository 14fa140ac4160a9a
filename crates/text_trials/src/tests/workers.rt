//! What the calls of workers ask for, by the names that they know, and the counts of answers.

use call_plan::{Answered, Desk, Given, Request};
use phase_run::{Job, Names, Place, Tally, request_of, setting_request};
use space_model::{Rest, Seq};
use std::alloc::Global;
use std::process::Abort;
use thread_cache::Held;
use trace_phase::{PhaseCall, SettingCall, Work};
use trace_text::Name;

/// A region of class 37 in arena 3.
const REGION: Held = Held {
    addr: 0x20_0000,
    arena: 3,
    class: 37,
};

/// The answer of a malloc that got it.
const GOT: Answered = Answered::Ok(Given::Region {
    addr: 0x20_0000,
    class: 37,
});

/// A name.
fn name(rt: &impl Abort, alloc: Global, text: &[u8; 1]) -> Name {
    Name::new(alloc, text).expect(rt, "memory for a name")
}

/// A call that takes a name.
fn take(rt: &impl Abort, alloc: Global, text: &[u8; 1]) -> PhaseCall {
    PhaseCall::Take(name(rt, alloc, text))
}

/// A desk at which the region is held.
fn desk(rt: &impl Abort, alloc: Global) -> Desk {
    let mut desk = Desk::new(alloc).expect(rt, "memory for a desk");
    desk.reserve().expect(rt, "memory for a region");
    desk.hold(REGION);
    desk
}

/// Checks which region a take of a name asks for.
fn takes(rt: &impl Abort, alloc: Global, names: &Names, text: &[u8; 1], want: (u64, u32)) {
    let call = take(rt, alloc, text);
    match request_of(0, names, &call) {
        Request::Take { addr, arena } => assert_eq!(rt; (addr, arena), want),
        _ => panic!(rt; "no take"),
    }
    drop(call);
}

/// Calls end with their answers at a desk: a malloc that got its region binds its name, and nothing else does.
fn calls_end(rt: &impl Abort, alloc: Global, names: &mut Names, desk: &Desk) {
    let memory = "memory for a name";
    let (name_a, size) = (name(rt, alloc, b"a"), 20000);
    let malloc = PhaseCall::Malloc { name: name_a, size };
    names.bind_answer(malloc, &GOT, desk).expect(rt, memory);
    takes(rt, alloc, names, b"a", (0x20_0000, 3));
    takes(rt, alloc, names, b"b", (0, 0));
    let (name_b, size) = (name(rt, alloc, b"b"), 1);
    let malloc = PhaseCall::Malloc { name: name_b, size };
    names
        .bind_answer(malloc, &Answered::TooLarge, desk)
        .expect(rt, memory);
    takes(rt, alloc, names, b"b", (0, 0));
    names
        .bind_answer(take(rt, alloc, b"b"), &GOT, desk)
        .expect(rt, memory);
    takes(rt, alloc, names, b"b", (0, 0));
}

#[test]
fn a_malloc_binds_its_name_to_where_its_region_lies(rt: HostRuntime) {
    let desk = desk(&rt, rt.alloc());
    let mut names = Names::new(rt.alloc());
    calls_end(&rt, rt.alloc(), &mut names, &desk);
    drop(names);
    drop(desk);
}

/// Binds a name.
fn bind(rt: &impl Abort, alloc: Global, names: &mut Names, text: &[u8; 1], place: (u64, u32)) {
    let (addr, arena) = place;
    let bound = names.bind(name(rt, alloc, text), Place { addr, arena });
    bound.expect(rt, "memory for a name");
}

/// A job of three calls, one that takes `b` and one that frees `c`, where these names are bound.
fn job(rt: &impl Abort, alloc: Global, names: &Names) -> Job {
    let memory = "memory for a call";
    let mut calls = Seq::new(alloc);
    calls.push(PhaseCall::Flush).expect(rt, memory);
    calls.push(take(rt, alloc, b"b")).expect(rt, memory);
    let free = PhaseCall::Free(name(rt, alloc, b"c"));
    calls.push(free).expect(rt, memory);
    Job::new(alloc, names, 9, Work { client: 7, calls }).expect(rt, "memory for a job")
}

/// Checks a job where `a` and `b` were bound, and binds `b` elsewhere among its names.
fn knows_names(rt: &impl Abort, alloc: Global, job: &mut Job) {
    assert_eq!(rt; (job.client, job.moment, job.calls.len()), (7, 9, 3));
    takes(rt, alloc, &job.names, b"a", (0, 0));
    takes(rt, alloc, &job.names, b"b", (2, 5));
    takes(rt, alloc, &job.names, b"c", (0, 0));
    bind(rt, alloc, &mut job.names, b"b", (3, 6));
}

#[test]
fn a_worker_knows_the_names_of_its_calls(rt: HostRuntime) {
    let alloc = rt.alloc();
    let mut names = Names::new(alloc);
    bind(&rt, alloc, &mut names, b"a", (1, 5));
    bind(&rt, alloc, &mut names, b"b", (2, 5));
    let mut job = job(&rt, alloc, &names);
    knows_names(&rt, alloc, &mut job);
    let Job {
        calls,
        names: own,
        ..
    } = job;
    drop(calls);
    names.merge(own).expect(&rt, "memory for names");
    takes(&rt, alloc, &names, b"a", (1, 5));
    takes(&rt, alloc, &names, b"b", (3, 6));
    drop(names);
}

#[test]
fn settings_ask_with_the_default_decay_times(rt: HostRuntime) {
    match setting_request(5, SettingCall::Create(1)) {
        Request::Create {
            box_no,
            dirty_ms,
            muzzy_ms,
            now,
        } => assert_eq!(rt; (box_no, dirty_ms, muzzy_ms, now), (1, 10_000, 0, 5)),
        _ => panic!(rt; "no create"),
    }
    let time = SettingCall::Time {
        arena: 2,
        rest: Rest::Dirty,
        ms: -1,
    };
    match setting_request(5, time) {
        Request::Time {
            arena,
            rest,
            ms,
            now,
        } => assert_eq!(rt; (arena, rest, ms, now), (2, Rest::Dirty, -1, 5)),
        _ => panic!(rt; "no time"),
    }
}

#[test]
fn answers_other_than_ok_are_counted(rt: HostRuntime) {
    let mut tally = Tally::new();
    for answer in [GOT, Answered::TooLarge, Answered::NoMemory] {
        tally.count(&answer);
    }
    tally.add(Tally {
        calls: 2,
        failed: 1,
    });
    assert_eq!(rt; (tally.calls, tally.failed), (5, 3));
}
