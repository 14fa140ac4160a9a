//! Whether operations may stand, which an arena tells by look-ups and the slow machine by scans: also such operations as
//! name spans, addresses, clients and classes that aren't there.

use super::draws::{drawn, some_large};
use super::ops::{FIVE_CLASS, FOUR_CLASS, SLAB_CLASS, addresses_of, merged, next_state};
use super::trials::Trial;
use space_model::{Answer, Ask, Heard, Op, Reply, Rest, Setting, Span};
use std::alloc::Global;
use std::process::Abort;

/// The span, or one that is a page longer or a page higher.
fn near(mut span: Span, number: u64) -> Span {
    match number % 6 {
        0 => span.pages = span.pages.saturating_add(1),
        1 => span.first = span.first.saturating_add(1),
        _ => {}
    }
    span
}

/// One answer of the three kinds.
fn any_answer(number: u64) -> Answer {
    match number % 6 {
        0 => Answer::Placed {
            committed: true,
            zeroed: false,
            first: 512,
        },
        1 | 2 => Answer::Refused,
        _ => Answer::Done,
    }
}

/// One ask of ten kinds.
fn any_ask(kind: u64, number: u64, span: Span, high: Span) -> Ask {
    let committed = number % 2 == 0;
    match kind {
        0 => Ask::Split {
            span,
            left: number % 8,
        },
        1 => Ask::Alloc {
            commit: false,
            at: None,
            pages: number % 2,
            align: number / 2 % 4,
        },
        2 => Ask::Commit(span),
        3 => Ask::PurgeLazy(span),
        4 => Ask::Dalloc { span, committed },
        5 => Ask::Decommit(span),
        6 => Ask::PurgeForced(span),
        7 => Ask::Destroy { span, committed },
        _ => Ask::Merge { low: span, high },
    }
}

/// The operation that takes in an answer, of ten kinds.
fn any_done(kind: u64, heard: Heard, class: u8) -> Op {
    match kind {
        0 => Op::CutDone {
            heard,
            keep_low: true,
        },
        1 => Op::GrowDone { heard, found: None },
        2 => Op::CommitDone { heard },
        3 => Op::LazyDone { heard },
        4 => Op::OfferDone { heard, found: None },
        5 => Op::DecommitDone { heard },
        6 => Op::ForcedDone { heard },
        7 => Op::TrimDone { heard, class },
        8 => Op::JoinDone { heard, class },
        _ => Op::MergeDone {
            heard,
            own_low: true,
        },
    }
}

/// A setting in range or not.
fn any_setting(number: u64) -> Setting {
    let ms = (number / 4 % 3) as i64 - 2;
    match number % 4 {
        0 => Setting::DirtyMs { ms, now: 0 },
        1 => Setting::MuzzyMs {
            ms: ms + 1_000_000_001,
            now: 0,
        },
        2 => Setting::HookBox((number / 4 % 3) as u32 + 30),
        _ => Setting::GrowLimit {
            chunks: number / 4 % 16386,
        },
    }
}

/// An operation of a span or an address that may not be the client's.
fn any_op(alloc: Global, number: u64, span: Span, addr: u64, class: u8) -> Op {
    let few = number / 16 % 4;
    let second = if few == 0 { number / 64 } else { addr };
    match number % 16 {
        0 => Op::Look {
            pages: few,
            align: number / 64 % 5,
        },
        1 => Op::Land {
            span,
            class,
            count: (number / 16 % 18) as u32,
        },
        2 | 3 => Op::Back {
            addrs: addresses_of(alloc, addr, second),
        },
        4 => Op::PutLook {
            span,
            tries: few as u8,
        },
        5 => Op::Fill {
            class,
            count: few as u32,
        },
        6 if few == 0 => Op::DestroyTake,
        6 => Op::PurgeTake {
            rest: Rest::Retained,
            keep: 0,
        },
        7 => Op::Offer { span },
        8 => Op::Publish { addr },
        9 => Op::Reset { cached: few },
        10 => Op::Destroy { cached: few },
        11 | 12 => Op::Set(any_setting(number / 16)),
        13 => Op::Widen {
            addr,
            pages: few + 3,
        },
        _ => Op::Trim { addr, class },
    }
}

/// The answer that a number chooses, to an ask of two spans.
fn asked(number: u64, low: Span, high: Span, class: u8) -> Op {
    let kind = number % 10;
    let other = if number / 10 % 4 == 0 {
        number / 40 % 10
    } else {
        kind
    };
    // The answer of a trim is that of a split, and two operations take in a merge.
    let ask = if other == 7 { 0 } else { other };
    let heard = Heard {
        ask: any_ask(ask, number / 400, low, high),
        answer: any_answer(number / 3200),
    };
    any_done(kind, heard, class)
}

/// A class that regions have, or one of others.
fn any_class(number: u64) -> u8 {
    match number % 5 {
        0 | 1 => FOUR_CLASS,
        2 => FIVE_CLASS,
        3 => SLAB_CLASS,
        _ => (number / 5 % 130) as u8,
    }
}

/// A client of three, now and then one of more, or none of the 32.
fn any_client(number: u64) -> u32 {
    match number % 8 {
        0 => 31,
        1 => 32,
        _ => (number % 3) as u32,
    }
}

/// Asks for operations that a number chooses whether they may stand. The answer is how many may.
fn ask_some(rt: &impl Abort, alloc: Global, trial: &Trial, number: u64) -> u64 {
    let client = any_client(number);
    let flight = near(trial.flight(client), number / 8);
    let addr = some_large(trial.space(), client, number);
    let home = Span {
        first: addr / 4096,
        pages: number / 64 % 3 + 4,
    };
    let class = any_class(number / 256);
    let low = if number % 2 == 0 { flight } else { home };
    let drawn = number / 4096;
    let first = trial.stands(rt, client, asked(drawn, low, flight, class));
    let second = trial.stands(rt, client, any_op(alloc, drawn, flight, addr, class));
    u64::from(first) + u64::from(second)
}

/// So many random operations of three clients as a reader of journals carries them out, and after each some that are asked
/// for alone. The answer is how many of those may stand.
pub(crate) fn ask_on(
    rt: &impl Abort,
    alloc: Global,
    trial: &mut Trial,
    seed: u64,
    turns: u64,
) -> u64 {
    let mut state = seed;
    let mut stood: u64 = 0;
    for turn in 0..turns {
        state = next_state(state ^ turn);
        let client = (state >> 60) as u32 % 3;
        let flight = trial.flight(client);
        let op = drawn(alloc, trial.space(), client, state >> 30, flight);
        if let Some(Reply::Beside(other)) = trial.read(rt, client, op) {
            trial.read(rt, client, merged(flight, other));
        }
        stood = stood.saturating_add(ask_some(rt, alloc, trial, state >> 10));
    }
    stood
}
