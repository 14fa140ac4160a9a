//! Reads entries.

ghost use Rattle.std.specs.Prelude.{◌≡◌, ℕ, Some, IfOk};
ghost use Rattle.journal.specs.Asks.{answer_of, ask_of, heard_of, rest_of};
ghost use Rattle.journal.specs.Codec.{Reads, Says};
ghost use Rattle.journal.specs.Entries.{FitsEntry, entry_at, entry_of, entry_text};
ghost use Rattle.journal.specs.Ops.{arena_op_fields, heard_op_fields, op_of, setting_of};
ghost use Rattle.space_model.specs.declared.Entry.{Entry};

use crate::ReadFault;
use crate::fields::{byte, flag, int, label, long, many, maybe, span, time};
use crate::labels::Label;
use space_model::{Answer, Ask, Entry, Heard, Op, Rest, Setting};
use std::alloc::Global;
use text_words::Words;

/// A list of extents.
#[tactic(auto, unfolding(crate::specs::Asks::rest_of))]
fn rest(words: &mut Words) -> Result<Rest, ReadFault>
    ensures { Reads rest_of words.old result words.new }
{
    match label(words)? {
        Label::Dirty => Ok(Rest::Dirty),
        Label::Muzzy => Ok(Rest::Muzzy),
        Label::Retained => Ok(Rest::Retained),
        _ => Err(ReadFault::NotEntry),
    }
}

/// An ask.
#[tactic(auto, unfolding(crate::specs::Asks::ask_of))]
fn ask(words: &mut Words) -> Result<Ask, ReadFault>
    ensures { Reads ask_of words.old result words.new }
{
    Ok(match label(words)? {
        Label::Alloc => Ask::Alloc {
            at: maybe(words)?,
            pages: long(words)?,
            align: long(words)?,
            commit: flag(words)?,
        },
        Label::Dalloc => Ask::Dalloc {
            span: span(words)?,
            committed: flag(words)?,
        },
        Label::Destroy => Ask::Destroy {
            span: span(words)?,
            committed: flag(words)?,
        },
        Label::Commit => Ask::Commit(span(words)?),
        Label::Decommit => Ask::Decommit(span(words)?),
        Label::PurgeLazy => Ask::PurgeLazy(span(words)?),
        Label::PurgeForced => Ask::PurgeForced(span(words)?),
        Label::Split => Ask::Split {
            span: span(words)?,
            left: long(words)?,
        },
        Label::Merge => Ask::Merge {
            low: span(words)?,
            high: span(words)?,
        },
        _ => return Err(ReadFault::NotEntry),
    })
}

/// An answer.
#[tactic(auto, unfolding(crate::specs::Asks::answer_of))]
fn answer(words: &mut Words) -> Result<Answer, ReadFault>
    ensures { Reads answer_of words.old result words.new }
{
    Ok(match label(words)? {
        Label::Refused => Answer::Refused,
        Label::Done => Answer::Done,
        Label::Placed => Answer::Placed {
            first: long(words)?,
            committed: flag(words)?,
            zeroed: flag(words)?,
        },
        _ => return Err(ReadFault::NotEntry),
    })
}

/// An ask with its answer.
#[tactic(auto, unfolding(crate::specs::Asks::heard_of))]
fn heard(words: &mut Words) -> Result<Heard, ReadFault>
    ensures { Reads heard_of words.old result words.new }
{
    let ask = ask(words)?;
    let answer = answer(words)?;
    Ok(Heard { ask, answer })
}

/// A setting.
#[tactic(auto, unfolding(crate::specs::Ops::setting_of))]
fn setting(words: &mut Words) -> Result<Setting, ReadFault>
    ensures { Reads setting_of words.old result words.new }
{
    Ok(match label(words)? {
        Label::DirtyMs => Setting::DirtyMs {
            ms: time(words)?,
            now: long(words)?,
        },
        Label::MuzzyMs => Setting::MuzzyMs {
            ms: time(words)?,
            now: long(words)?,
        },
        Label::HookBox => Setting::HookBox(int(words)?),
        Label::Bind => Setting::Bind,
        Label::Unbind => Setting::Unbind,
        Label::GrowLimit => Setting::GrowLimit {
            chunks: long(words)?,
        },
        Label::Live => Setting::Live {
            box_no: int(words)?,
            dirty_ms: time(words)?,
            muzzy_ms: time(words)?,
            now: long(words)?,
        },
        _ => return Err(ReadFault::NotEntry),
    })
}

/// An operation: its word decides how its fields are read.
#[tactic(auto, unfolding(crate::specs::Ops::op_of))]
fn op(alloc: Global, words: &mut Words) -> Result<Op, ReadFault>
    ensures { Reads op_of words.old result words.new }
{
    let label = label(words)?;
    Ok(match label {
        Label::Look => Op::Look {
            pages: long(words)?,
            align: long(words)?,
        },
        Label::Land => Op::Land {
            span: span(words)?,
            class: byte(words)?,
            count: int(words)?,
        },
        Label::Back => Op::Back {
            addrs: many(alloc, words)?,
        },
        Label::PutLook => Op::PutLook {
            span: span(words)?,
            tries: byte(words)?,
        },
        Label::Fill => Op::Fill {
            class: byte(words)?,
            count: int(words)?,
        },
        Label::PurgeTake => Op::PurgeTake {
            rest: rest(words)?,
            keep: long(words)?,
        },
        Label::Offer => Op::Offer { span: span(words)? },
        Label::Publish => Op::Publish { addr: long(words)? },
        Label::TakeOver => Op::TakeOver { addr: long(words)? },
        Label::Widen => Op::Widen {
            addr: long(words)?,
            pages: long(words)?,
        },
        Label::Trim => Op::Trim {
            addr: long(words)?,
            class: byte(words)?,
        },
        _ => return arena_op(label, words),
    })
}

/// An operation on an arena as a whole, or one that takes in what was heard.
#[tactic(auto)]
fn arena_op(label: Label, words: &mut Words) -> Result<Op, ReadFault>
    ensures { Reads (arena_op_fields label) words.old result words.new }
{
    Ok(match label {
        Label::Advance => Op::Advance { now: long(words)? },
        Label::Reset => Op::Reset {
            cached: long(words)?,
        },
        Label::Destroy => Op::Destroy {
            cached: long(words)?,
        },
        Label::DestroyTake => Op::DestroyTake,
        Label::Counts => Op::Counts,
        Label::Set => Op::Set(setting(words)?),
        _ => return heard_op(label, words),
    })
}

/// An operation that takes in what was heard.
#[tactic(auto)]
fn heard_op(label: Label, words: &mut Words) -> Result<Op, ReadFault>
    ensures { Reads (heard_op_fields label) words.old result words.new }
{
    Ok(match label {
        Label::CutDone => Op::CutDone {
            heard: heard(words)?,
            keep_low: flag(words)?,
        },
        Label::GrowDone => Op::GrowDone {
            heard: heard(words)?,
            found: maybe(words)?,
        },
        Label::CommitDone => Op::CommitDone {
            heard: heard(words)?,
        },
        Label::MergeDone => Op::MergeDone {
            heard: heard(words)?,
            own_low: flag(words)?,
        },
        Label::LazyDone => Op::LazyDone {
            heard: heard(words)?,
        },
        Label::OfferDone => Op::OfferDone {
            heard: heard(words)?,
            found: maybe(words)?,
        },
        Label::DecommitDone => Op::DecommitDone {
            heard: heard(words)?,
        },
        Label::ForcedDone => Op::ForcedDone {
            heard: heard(words)?,
        },
        Label::JoinDone => Op::JoinDone {
            heard: heard(words)?,
            class: byte(words)?,
        },
        Label::TrimDone => Op::TrimDone {
            heard: heard(words)?,
            class: byte(words)?,
        },
        _ => return Err(ReadFault::NotEntry),
    })
}

/// The entry whose words these are, and the index of its arena. No word may be left.
#[tactic(auto, unfolding(crate::specs::Entries::entry_at))]
fn entry(alloc: Global, words: &mut Words) -> Result<(u32, Entry), ReadFault>
    ensures { Says result (entry_at words.old) }
{
    let index = int(words)?;
    let client = int(words)?;
    let op = op(alloc, words)?;
    if !words.is_empty() {
        return Err(ReadFault::NotEntry);
    }
    Ok((index, Entry { client, op }))
}

/// Reads a line, which is given without its newline: the index of an arena, and an entry of its journal.
///
/// The words of an entry are parted by one space each. A number is decimal digits without a leading zero, and one that is
/// absent is `-`. A span is its first page and its pages, and a truth value is 0 or 1. An entry has one text.
#[tactic(auto, using(crate::proofs::EntryLaws::read_only))]
pub fn read(alloc: Global, line: &[u8]) -> Result<(u32, Entry), ReadFault>
    ensures said { Says result (entry_of line.now) }
    ensures found { IfOk result (λ y. (line.now ≡ entry_text y.0 y.1) × FitsEntry y.0 y.1) }
    ensures only { (index : ℕ) (entry : Entry) → FitsEntry index entry → line.now ≡ entry_text index entry → Says result (Some (index, entry)) }
{
    entry(alloc, &mut Words::new(line, b' '))
}
