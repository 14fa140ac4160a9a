//! Entries, read from their words.

use size_classes::Addrs;
use space_model::{Addresses, Answer, Ask, Entry, Heard, Op, Rest, Setting, Span};
use std::alloc::Global;
use std::process::Abort;
use std::str::SplitWhitespace;

/// The next word.
fn word<'a>(rt: &impl Abort, words: &mut SplitWhitespace<'a>) -> &'a str {
    words.next().expect(rt, "a word")
}

/// The next word as a number.
fn number(rt: &impl Abort, words: &mut SplitWhitespace<'_>) -> u64 {
    word(rt, words).parse().expect(rt, "a number")
}

/// The next word as a number, or none for a dash.
fn chance(rt: &impl Abort, words: &mut SplitWhitespace<'_>) -> Option<u64> {
    match word(rt, words) {
        "-" => None,
        word => Some(word.parse().expect(rt, "a number")),
    }
}

/// The next word as a decay time.
fn millis(rt: &impl Abort, words: &mut SplitWhitespace<'_>) -> i64 {
    word(rt, words).parse().expect(rt, "a decay time")
}

/// The next word as a small number.
fn byte(rt: &impl Abort, words: &mut SplitWhitespace<'_>) -> u8 {
    word(rt, words).parse().expect(rt, "a small number")
}

/// The next word as a number of clients, boxes or regions.
fn half(rt: &impl Abort, words: &mut SplitWhitespace<'_>) -> u32 {
    word(rt, words).parse().expect(rt, "a number of 32 bits")
}

/// The next word as a truth value.
fn flag(rt: &impl Abort, words: &mut SplitWhitespace<'_>) -> bool {
    number(rt, words) == 1
}

/// The next two words as a span.
fn span(rt: &impl Abort, words: &mut SplitWhitespace<'_>) -> Span {
    let first = number(rt, words);
    let pages = number(rt, words);
    Span { first, pages }
}

/// The next words as a call of a hook.
fn ask(rt: &impl Abort, words: &mut SplitWhitespace<'_>) -> Ask {
    match word(rt, words) {
        "alloc" => Ask::Alloc {
            at: chance(rt, words),
            pages: number(rt, words),
            align: number(rt, words),
            commit: flag(rt, words),
        },
        "dalloc" => Ask::Dalloc {
            span: span(rt, words),
            committed: flag(rt, words),
        },
        "commit" => Ask::Commit(span(rt, words)),
        "decommit" => Ask::Decommit(span(rt, words)),
        "purge_lazy" => Ask::PurgeLazy(span(rt, words)),
        "purge_forced" => Ask::PurgeForced(span(rt, words)),
        "split" => Ask::Split {
            span: span(rt, words),
            left: number(rt, words),
        },
        "merge" => Ask::Merge {
            low: span(rt, words),
            high: span(rt, words),
        },
        _ => panic!(rt; "no hook"),
    }
}

/// The next words as a call of a hook and its answer.
fn heard(rt: &impl Abort, words: &mut SplitWhitespace<'_>) -> Heard {
    let ask = ask(rt, words);
    let answer = match word(rt, words) {
        "done" => Answer::Done,
        "refused" => Answer::Refused,
        "placed" => Answer::Placed {
            first: number(rt, words),
            committed: flag(rt, words),
            zeroed: flag(rt, words),
        },
        _ => panic!(rt; "no answer"),
    };
    Heard { ask, answer }
}

/// The next words as addresses, after their number.
fn addresses(rt: &impl Abort, alloc: Global, words: &mut SplitWhitespace<'_>) -> Addresses {
    let count = number(rt, words);
    let mut list = Addrs::new(alloc);
    for _ in 0..count {
        list.reserve(1).expect(rt, "memory for an address");
        list.push(number(rt, words));
    }
    Addresses::new(list)
}

/// The next word as a list of unused extents.
fn rest(rt: &impl Abort, words: &mut SplitWhitespace<'_>) -> Rest {
    match word(rt, words) {
        "dirty" => Rest::Dirty,
        "muzzy" => Rest::Muzzy,
        "retained" => Rest::Retained,
        _ => panic!(rt; "no list"),
    }
}

/// The next words as a setting.
fn setting(rt: &impl Abort, words: &mut SplitWhitespace<'_>) -> Setting {
    match word(rt, words) {
        "dirtyms" => Setting::DirtyMs {
            ms: millis(rt, words),
            now: number(rt, words),
        },
        "muzzyms" => Setting::MuzzyMs {
            ms: millis(rt, words),
            now: number(rt, words),
        },
        "hookbox" => Setting::HookBox(half(rt, words)),
        "bind" => Setting::Bind,
        "unbind" => Setting::Unbind,
        "growlimit" => Setting::GrowLimit {
            chunks: number(rt, words),
        },
        "live" => Setting::Live {
            box_no: half(rt, words),
            dirty_ms: millis(rt, words),
            muzzy_ms: millis(rt, words),
            now: number(rt, words),
        },
        _ => panic!(rt; "no setting"),
    }
}

/// The words that follow an operation's one as an operation that takes an answer in.
fn op_of_answer(rt: &impl Abort, word: &str, words: &mut SplitWhitespace<'_>) -> Op {
    let heard = heard(rt, words);
    match word {
        "cutdone" => Op::CutDone {
            heard,
            keep_low: flag(rt, words),
        },
        "growdone" => Op::GrowDone {
            heard,
            found: chance(rt, words),
        },
        "commitdone" => Op::CommitDone { heard },
        "mergedone" => Op::MergeDone {
            heard,
            own_low: flag(rt, words),
        },
        "lazydone" => Op::LazyDone { heard },
        "offerdone" => Op::OfferDone {
            heard,
            found: chance(rt, words),
        },
        "decommitdone" => Op::DecommitDone { heard },
        "forceddone" => Op::ForcedDone { heard },
        "joindone" => Op::JoinDone {
            heard,
            class: byte(rt, words),
        },
        "trimdone" => Op::TrimDone {
            heard,
            class: byte(rt, words),
        },
        _ => panic!(rt; "no operation"),
    }
}

/// The words of an operation on extents.
fn op_of_extents(rt: &impl Abort, word: &str, words: &mut SplitWhitespace<'_>) -> Op {
    match word {
        "look" => Op::Look {
            pages: number(rt, words),
            align: number(rt, words),
        },
        "putlook" => Op::PutLook {
            span: span(rt, words),
            tries: byte(rt, words),
        },
        "advance" => Op::Advance {
            now: number(rt, words),
        },
        "purgetake" => Op::PurgeTake {
            rest: rest(rt, words),
            keep: number(rt, words),
        },
        "offer" => Op::Offer {
            span: span(rt, words),
        },
        "destroytake" => Op::DestroyTake,
        "counts" => Op::Counts,
        "set" => Op::Set(setting(rt, words)),
        _ => op_of_answer(rt, word, words),
    }
}

/// The words of an operation.
fn op(rt: &impl Abort, alloc: Global, words: &mut SplitWhitespace<'_>) -> Op {
    let name = word(rt, words);
    match name {
        "land" => Op::Land {
            span: span(rt, words),
            class: byte(rt, words),
            count: half(rt, words),
        },
        "fill" => Op::Fill {
            class: byte(rt, words),
            count: half(rt, words),
        },
        "back" => Op::Back {
            addrs: addresses(rt, alloc, words),
        },
        "publish" => Op::Publish {
            addr: number(rt, words),
        },
        "takeover" => Op::TakeOver {
            addr: number(rt, words),
        },
        "reset" => Op::Reset {
            cached: number(rt, words),
        },
        "destroy" => Op::Destroy {
            cached: number(rt, words),
        },
        "widen" => Op::Widen {
            addr: number(rt, words),
            pages: number(rt, words),
        },
        "trim" => Op::Trim {
            addr: number(rt, words),
            class: byte(rt, words),
        },
        _ => op_of_extents(rt, name, words),
    }
}

/// The words of an entry.
pub(crate) fn entry(rt: &impl Abort, alloc: Global, text: &str) -> Entry {
    let mut words = text.split_whitespace();
    let client = half(rt, &mut words);
    let op = op(rt, alloc, &mut words);
    Entry { client, op }
}
