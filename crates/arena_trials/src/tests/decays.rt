//! A decay beside that of the slow machine, over random moments.

ghost use Rattle.std.specs.Prelude.{◌≡◌, ◌≤◌, true};
ghost use Rattle.space_model.specs.Settings.{is_decay_time};
ghost use Rattle.space_model.specs.Sound.{Sound};

use super::ops::{addresses_of, grown, look, next_state};
use decay_curve::Decay;
use plain_machine::{may_stand, plain_counts, plain_step};
use space_model::{Entry, Op, Reply, Setting, Space, Span};
use std::alloc::Global;
use std::process::Abort;

/// The class of 2 MiB, which is a chunk.
const CHUNK_CLASS: u8 = 64;

/// The most unused pages that a test has.
const MOST_PAGES: u64 = 1 << 20;

/// The operation of client 0, if it may stand.
fn turn(rt: &impl Abort, space: &mut Space, op: Op) -> Option<Reply>
    requires { Sound space.old }
    ensures { Sound space.new }
{
    let entry = Entry { client: 0, op };
    if !may_stand(space, &entry) {
        return None;
    }
    Some(plain_step(space, &entry).expect(rt, "memory for the space"))
}

/// One more chunk is granted, serves a region, and is dirty when that is given back.
fn soil(rt: &impl Abort, alloc: Global, space: &mut Space, chunk: u64)
    requires chunk { chunk ≤ 4000 }
    requires sound { Sound space.old }
    ensures { Sound space.new }
{
    let span = Span {
        first: 512 * chunk,
        pages: 512,
    };
    let class = CHUNK_CLASS;
    let count = 1;
    let addrs = addresses_of(alloc, 4096 * span.first, 4096 * span.first);
    turn(rt, space, grown(span.first, true));
    turn(rt, space, Op::Land { span, class, count });
    turn(rt, space, Op::Back { addrs });
    turn(rt, space, Op::PutLook { span, tries: 2 });
}

/// A decay time of few.
fn some_ms(number: u64) -> i64
    ensures { is_decay_time result ≡ true }
{
    match number % 8 {
        0 => -1,
        1 => 0,
        2 => 1,
        3 => 1_000_000_000,
        _ => 10000,
    }
}

/// A moment: soon, much later, or before the last one.
fn some_moment(number: u64, last: u64) -> u64 {
    match number % 8 {
        0 => last.saturating_sub(number % (1 << 34)),
        1 => last.saturating_add(number % (1 << 36)),
        2 => last.saturating_add(number % (1 << 33)),
        _ => last.saturating_add(number % (1 << 27)),
    }
}

/// The limit of the slow machine's dirty extents as a moment comes.
fn plain_limit(rt: &impl Abort, space: &mut Space, now: u64) -> Option<u64>
    requires { Sound space.old }
    ensures { Sound space.new }
{
    let reply = turn(rt, space, Op::Advance { now });
    match reply {
        Some(Reply::Limits { dirty, .. }) => dirty,
        _ => panic!(rt; "an arena that is live tells limits"),
    }
}

/// A moment comes for the decay and for the slow machine, and both tell one limit. The answer is whether they tell one.
fn same_limit(rt: &impl Abort, space: &mut Space, decay: &mut Decay, now: u64) -> bool
    requires { Sound space.old }
    ensures { Sound space.new }
{
    let dirty = plain_counts(space).dirty / 4096;
    assert!(rt; dirty <= MOST_PAGES);
    let limit = decay.advance(now, dirty);
    assert_eq!(rt; limit, plain_limit(rt, space, now));
    limit.is_some()
}

/// One random change: a chunk more or less is dirty, or the decay begins anew.
fn random_change(
    rt: &impl Abort,
    alloc: Global,
    space: &mut Space,
    decay: &mut Decay,
    number: u64,
    now: u64,
)
    requires { Sound space.old }
    ensures { Sound space.new }
{
    match number % 16 {
        0 => {
            let ms = some_ms(number / 16);
            decay.restart(ms, now);
            turn(rt, space, Op::Set(Setting::DirtyMs { ms, now }));
        }
        1..6 => {
            turn(rt, space, look(512));
        }
        6..12 => soil(rt, alloc, space, number / 16 % 4000 + 1),
        _ => {}
    }
}

/// So many random changes and moments. The answer is how many of these told a limit.
fn moments_come(
    rt: &impl Abort,
    alloc: Global,
    space: &mut Space,
    decay: &mut Decay,
    rounds: u64,
) -> u64
    requires { Sound space.old }
{
    let mut state: u64 = 1;
    let mut now: u64 = 0;
    let mut told: u64 = 0;
    for round in 0..rounds {
        state = next_state(state ^ round);
        random_change(rt, alloc, space, decay, state >> 20, now);
        now = some_moment(state >> 23, now);
        told = told.saturating_add(u64::from(same_limit(rt, space, decay, now)));
    }
    told
}

#[test]
fn limits_are_those_of_the_slow_machine(rt: HostRuntime) {
    let alloc = rt.alloc();
    let mut space = Space::first(alloc);
    let mut decay = Decay::new(alloc, 10000, 0).expect(&rt, "memory for a decay");
    let told = moments_come(&rt, alloc, &mut space, &mut decay, 1200);
    drop((space, decay));
    assert!(rt; told > 200, "{told} told");
}
