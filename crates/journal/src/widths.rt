//! What the types of an entry's fields say of their numbers. These functions do nothing; their clauses are what is known.

ghost use Rattle.std.specs.Prelude.{◌<◌, ◌^◌};
ghost use Rattle.journal.specs.Asks.{FitsAnswer, FitsAsk, FitsHeard};
ghost use Rattle.journal.specs.Fields.{FitsAll, FitsMaybe, FitsSpan, FitsTime};
ghost use Rattle.journal.specs.Ops.{FitsOp, FitsSetting};

use space_model::{Addresses, Answer, Ask, Heard, Op, Setting, Span};

/// A number of 64 bits is below 2^64.
fn is_long(number: u64)
    ensures { number < 2 ^ 64 }
{}

/// A number of 32 bits is below 2^32.
pub fn is_int(number: u32)
    ensures { number < 2 ^ 32 }
{}

/// A number of 8 bits is below 2^8.
fn is_byte(number: u8)
    ensures { number < 2 ^ 8 }
{}

/// A time fits 64 bits.
fn is_time(time: i64)
    ensures { FitsTime time }
{}

fn known_pair(a: u64, b: u64)
    ensures { (a < 2 ^ 64) × (b < 2 ^ 64) }
{
    is_long(a);
    is_long(b);
}

fn known_span(span: Span)
    ensures { FitsSpan span }
{
    is_long(span.first);
    is_long(span.pages);
}

fn known_maybe(number: Option<u64>)
    ensures { FitsMaybe number }
{
    if let Some(number) = number {
        is_long(number);
    }
}

fn known_heard(heard: Heard)
    ensures { FitsHeard heard }
{
    known_ask(heard.ask);
    known_answer(heard.answer);
}

fn known_ask(ask: Ask)
    ensures { FitsAsk ask }
{
    match ask {
        Ask::Alloc {
            at,
            pages,
            align,
            ..
        } => {
            known_maybe(at);
            is_long(pages);
            is_long(align);
        }
        Ask::Dalloc { span, .. } | Ask::Destroy { span, .. } => {
            known_span(span);
        }
        Ask::Commit(span) | Ask::Decommit(span) | Ask::PurgeLazy(span) | Ask::PurgeForced(span) => {
            known_span(span);
        }
        Ask::Split { span, left } => {
            known_span(span);
            is_long(left);
        }
        Ask::Merge { low, high } => {
            known_span(low);
            known_span(high);
        }
    }
}

fn known_answer(answer: Answer)
    ensures { FitsAnswer answer }
{
    match answer {
        Answer::Refused | Answer::Done => {}
        Answer::Placed { first, .. } => is_long(first),
    }
}

fn known_setting(setting: Setting)
    ensures { FitsSetting setting }
{
    match setting {
        Setting::DirtyMs { ms, now } => {
            is_time(ms);
            is_long(now);
        }
        Setting::MuzzyMs { ms, now } => {
            is_time(ms);
            is_long(now);
        }
        Setting::HookBox(box_no) => is_int(box_no),
        Setting::Bind | Setting::Unbind => {}
        Setting::GrowLimit { chunks } => is_long(chunks),
        Setting::Live {
            box_no,
            dirty_ms,
            muzzy_ms,
            now,
        } => {
            is_int(box_no);
            is_time(dirty_ms);
            is_time(muzzy_ms);
            is_long(now);
        }
    }
}

/// So are addresses.
fn known_addresses(addrs: &Addresses)
    ensures { FitsAll addrs.now }
{
    let addrs = addrs.as_slice();
    is_long(addrs.len() as u64);
    for addr in addrs {
        is_long(*addr);
    }
}

/// The numbers of an operation are such as its fields may have.
pub fn known(op: &Op)
    ensures { FitsOp op.now }
{
    match op {
        Op::Look { pages, align } => known_pair(*pages, *align),
        Op::CutDone { heard, .. } | Op::MergeDone { heard, .. } => known_heard(*heard),
        Op::CommitDone { heard } | Op::LazyDone { heard } => known_heard(*heard),
        Op::DecommitDone { heard } | Op::ForcedDone { heard } => known_heard(*heard),
        Op::GrowDone { heard, found } | Op::OfferDone { heard, found } => {
            known_heard(*heard);
            known_maybe(*found);
        }
        Op::JoinDone { heard, class } | Op::TrimDone { heard, class } => {
            known_heard(*heard);
            is_byte(*class);
        }
        Op::Land { span, class, count } => {
            known_span(*span);
            is_byte(*class);
            is_int(*count);
        }
        Op::PutLook { span, tries } => {
            known_span(*span);
            is_byte(*tries);
        }
        Op::Fill { class, count } => {
            is_byte(*class);
            is_int(*count);
        }
        Op::Trim { addr, class } => {
            is_long(*addr);
            is_byte(*class);
        }
        Op::Back { addrs } => known_addresses(addrs),
        Op::Offer { span } => known_span(*span),
        Op::Widen { addr, pages } => known_pair(*addr, *pages),
        Op::Publish { addr } | Op::TakeOver { addr } => is_long(*addr),
        Op::Reset { cached } | Op::Destroy { cached } => is_long(*cached),
        Op::Advance { now } => is_long(*now),
        Op::PurgeTake { keep, .. } => is_long(*keep),
        Op::Set(setting) => known_setting(*setting),
        Op::DestroyTake | Op::Counts => {}
    }
}
