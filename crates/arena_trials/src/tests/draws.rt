//! Random operations, which a seed chooses.

use super::ops::{
    CHUNK, FIVE_CLASS, FOUR_CLASS, SLAB_CLASS, addresses_of, committed, cut, grown, look, merged,
    next_state,
};
use super::trials::Trial;
use space_model::{Answer, Ask, Heard, Op, Reply, Rest, Setting, Space, Span};
use std::alloc::Global;
use std::process::Abort;

/// A decay time of few.
fn some_ms(number: u64) -> i64 {
    match number % 4 {
        0 => -1,
        1 => 0,
        2 => 100,
        _ => 10000,
    }
}

/// One setting of many.
fn some_setting(number: u64) -> Setting {
    let ms = some_ms(number / 8);
    let now = number / 32 % (1 << 32);
    match number % 8 {
        0 => Setting::DirtyMs { ms, now },
        1 => Setting::MuzzyMs { ms, now },
        2 => Setting::HookBox((number / 8 % 32) as u32),
        3 => Setting::Unbind,
        4 | 5 => Setting::Bind,
        6 => Setting::GrowLimit {
            chunks: number / 8 % 100 + 1,
        },
        _ => Setting::Live {
            box_no: 1,
            dirty_ms: ms,
            muzzy_ms: 0,
            now,
        },
    }
}

/// Done, or refused now and then.
fn some_answer(number: u64) -> Answer {
    if number % 5 == 0 {
        Answer::Refused
    } else {
        Answer::Done
    }
}

/// An ask with its answer.
fn heard(number: u64, ask: Ask) -> Heard {
    Heard {
        ask,
        answer: some_answer(number),
    }
}

/// One operation of many, of an extent in flight or of a region at an address.
fn some_op(alloc: Global, number: u64, flight: Span, addr: u64) -> Op {
    let answer = some_answer(number);
    match number / 8 % 12 {
        0 | 1 => look(number / 64 % 12 + 1),
        2 => grown(512 * (1 + number / 64 % 8), number % 2 == 0),
        3 => cut(flight, 5, number % 3 != 0, answer),
        4 => committed(flight, answer),
        5 => some_land(number, flight),
        6 if number % 9 == 0 => Op::Publish { addr },
        6 if number % 9 == 1 => Op::TakeOver { addr },
        6 => Op::Back {
            addrs: addresses_of(alloc, addr, addr),
        },
        7 => Op::PutLook {
            span: flight,
            tries: (number / 64 % 3) as u8,
        },
        8 => Op::Fill {
            class: SLAB_CLASS,
            count: (number / 64 % 20) as u32,
        },
        9 => Op::Advance {
            now: number / 64 % (1 << 34),
        },
        10 => Op::Set(some_setting(number / 64)),
        _ => Op::Counts,
    }
}

/// A region, or some of a slab, in an extent in flight.
fn some_land(number: u64, span: Span) -> Op {
    let (class, count) = if number % 3 == 0 {
        (FIVE_CLASS, 1)
    } else {
        (SLAB_CLASS, (number / 64 % 16) as u32 + 1)
    };
    Op::Land { span, class, count }
}

/// An operation that leads an extent in flight on to a region, or one of many.
fn likely_op(alloc: Global, number: u64, flight: Span, addr: u64) -> Op {
    match number % 4 {
        0 | 1 if flight.pages > 5 => cut(flight, 5, true, Answer::Done),
        0 | 1 if flight.pages == 5 => Op::Land {
            span: flight,
            class: FIVE_CLASS,
            count: 1,
        },
        2 if flight.pages == 5 => committed(flight, Answer::Done),
        _ => some_op(alloc, number / 4, flight, addr),
    }
}

/// The dalloc of the first offer, if there is one.
fn some_dalloc(space: &Space) -> Ask {
    let offer = space.offers.as_slice().first();
    Ask::Dalloc {
        span: offer.map_or(CHUNK, |offer| offer.span),
        committed: offer.is_some_and(|offer| offer.committed),
    }
}

/// One operation of many of a purge.
fn some_purge(number: u64, flight: Span, dalloc: Ask) -> Op {
    let keep = number / 128 % 8;
    match number / 8 % 8 {
        0 => Op::PurgeTake {
            rest: Rest::Muzzy,
            keep,
        },
        1 | 2 => Op::LazyDone {
            heard: heard(number, Ask::PurgeLazy(flight)),
        },
        3 => Op::Offer { span: flight },
        4 => Op::OfferDone {
            heard: heard(number / 128, dalloc),
            found: None,
        },
        5 => Op::DecommitDone {
            heard: heard(number, Ask::Decommit(flight)),
        },
        6 => Op::ForcedDone {
            heard: heard(number, Ask::PurgeForced(flight)),
        },
        _ => Op::PurgeTake {
            rest: Rest::Dirty,
            keep,
        },
    }
}

/// One operation of many that resizes a region of 5 pages.
fn some_resize(number: u64, addr: u64) -> Op {
    let span = Span {
        first: addr / 4096,
        pages: 5,
    };
    match number / 8 % 4 {
        0 => Op::Widen { addr, pages: 6 },
        1 => Op::Trim {
            addr,
            class: FOUR_CLASS,
        },
        _ => Op::TrimDone {
            heard: heard(number, Ask::Split { span, left: 4 }),
            class: FOUR_CLASS,
        },
    }
}

/// A reset or a destroy of a client that has cached no region, or one.
fn some_end(number: u64) -> Op {
    let cached = number / 2 % 2;
    if number % 2 == 0 {
        Op::Reset { cached }
    } else {
        Op::Destroy { cached }
    }
}

/// The address of one of the first regions, if there is one.
fn some_address(space: &Space, number: u64) -> u64 {
    let mut found = 0;
    for (place, region) in space.regions.as_slice().iter().enumerate() {
        if place as u64 <= number % 16 {
            found = region.addr;
        }
    }
    found
}

/// The address of one of the client's large regions, if there is one.
pub(crate) fn some_large(space: &Space, client: u32, number: u64) -> u64 {
    let mut found = 0;
    for (place, region) in space.regions.as_slice().iter().enumerate() {
        let own = region.holder == Some(client) && region.class >= FOUR_CLASS;
        if own && (found == 0 || place as u64 <= number % 64) {
            found = region.addr;
        }
    }
    found
}

/// An operation of a client, which a number chooses.
pub(crate) fn drawn(alloc: Global, space: &Space, client: u32, number: u64, flight: Span) -> Op {
    let large = some_large(space, client, number);
    match number % 8 {
        0 | 1 => some_purge(number / 8, flight, some_dalloc(space)),
        2 => some_resize(number / 8, large),
        3 if number / 8 % 4 == 0 => some_end(number / 32),
        3 => Op::Back {
            addrs: addresses_of(alloc, large, large),
        },
        _ => likely_op(alloc, number / 8, flight, some_address(space, number)),
    }
}

/// One random operation of a client, if it may stand, and the merge that it leads to. The answer is whether it stood.
fn take_turn(rt: &impl Abort, alloc: Global, trial: &mut Trial, client: u32, number: u64) -> bool {
    let flight = trial.flight(client);
    let op = drawn(alloc, trial.space(), client, number, flight);
    let reply = trial.attempt(rt, client, op);
    let stood = reply.is_some();
    if let Some(Reply::Beside(other)) = reply {
        trial.attempt(rt, client, merged(flight, other));
    }
    stood
}

/// So many random operations of three clients, which a seed chooses. The answer is how many stood.
fn take_turns(rt: &impl Abort, alloc: Global, trial: &mut Trial, seed: u64, turns: u64) -> u64 {
    let mut state = seed;
    let mut stood: u64 = 0;
    for turn in 0..turns {
        state = next_state(state ^ turn);
        let client = (state >> 60) as u32 % 3;
        let told = take_turn(rt, alloc, trial, client, state >> 30);
        stood = stood.saturating_add(u64::from(told));
        if turn % 64 == 0 {
            trial.counts_agree(rt);
        }
    }
    stood
}

/// 70000 random operations in a new arena, which a seed chooses. The answer is how many stood.
pub(crate) fn turns_of(rt: &impl Abort, alloc: Global, seed: u64) -> u64 {
    let mut trial = Trial::of_first(rt, alloc);
    let stood = take_turns(rt, alloc, &mut trial, seed, 70000);
    drop(trial);
    stood
}
