//! Operations, asks, answers and settings, put behind a text word by word.

ghost use Rattle.std.specs.Prelude.{◌≡◌, [], ◌∷◌, ◌++◌, codes, map, is_some, length, true, OnOk};
ghost use Rattle.std.specs.Fmt.{decimal, signed_decimal};
ghost use Rattle.hook_api.specs.Kept.{heard_of};
ghost use Rattle.journal.specs.Asks.{answer_words, ask_words, heard_words, rest_words};
ghost use Rattle.journal.specs.Entries.{spaced, token_word};
ghost use Rattle.journal.specs.Fields.{span_words};
ghost use Rattle.journal.specs.Labels.{label_word};
ghost use Rattle.journal.specs.Ops.{op_words, setting_words};

use crate::labels::Label;
use crate::tokens::{Token, put_all, put_numbers};
use space_model::{Addresses, Answer, Ask, Heard, Op, Rest, Setting, Span};
use std::alloc::AllocError as NoMemory;

/// The word of a list of extents.
fn rest_label(rest: Rest) -> Label
    ensures { label_word result ∷ [] ≡ rest_words rest }
{
    match rest {
        Rest::Dirty => Label::Dirty,
        Rest::Muzzy => Label::Muzzy,
        Rest::Retained => Label::Retained,
    }
}

/// A label, a span, and words behind these.
#[tactic(auto)]
fn put_at(out: &mut Vec<u8>, label: Label, span: Span, tokens: &[Token]) -> Result<(), NoMemory>
    ensures { OnOk result (out.new.items ≡ out.old.items ++ spaced (label_word label ∷ span_words span ++ map token_word tokens.now)) }
{
    put_all(
        out,
        &[
            Token::Word(label),
            Token::Number(span.first),
            Token::Number(span.pages),
        ],
    )?;
    put_all(out, tokens)
}

fn put_ask(out: &mut Vec<u8>, ask: Ask) -> Result<(), NoMemory>
    ensures { OnOk result (out.new.items ≡ out.old.items ++ spaced (ask_words ask)) }
{
    match ask {
        Ask::Alloc {
            commit,
            at,
            pages,
            align,
        } => put_all(
            out,
            &[
                Token::Word(Label::Alloc),
                Token::Maybe(at),
                Token::Number(pages),
                Token::Number(align),
                Token::Flag(commit),
            ],
        ),
        Ask::Dalloc { span, committed } => put_at(
            out,
            Label::Dalloc,
            span,
            &[Token::Flag(committed)],
        ),
        Ask::Destroy { span, committed } => put_at(
            out,
            Label::Destroy,
            span,
            &[Token::Flag(committed)],
        ),
        Ask::Commit(span) => put_at(out, Label::Commit, span, &[]),
        Ask::Decommit(span) => put_at(out, Label::Decommit, span, &[]),
        Ask::PurgeLazy(span) => put_at(out, Label::PurgeLazy, span, &[]),
        Ask::PurgeForced(span) => put_at(out, Label::PurgeForced, span, &[]),
        Ask::Split { span, left } => put_at(out, Label::Split, span, &[Token::Number(left)]),
        Ask::Merge { low, high } => put_at(
            out,
            Label::Merge,
            low,
            &[Token::Number(high.first), Token::Number(high.pages)],
        ),
    }
}

fn put_answer(out: &mut Vec<u8>, answer: Answer) -> Result<(), NoMemory>
    ensures { OnOk result (out.new.items ≡ out.old.items ++ spaced (answer_words answer)) }
{
    match answer {
        Answer::Refused => put_all(out, &[Token::Word(Label::Refused)]),
        Answer::Done => put_all(out, &[Token::Word(Label::Done)]),
        Answer::Placed {
            committed,
            zeroed,
            first,
        } => put_all(
            out,
            &[
                Token::Word(Label::Placed),
                Token::Number(first),
                Token::Flag(committed),
                Token::Flag(zeroed),
            ],
        ),
    }
}

/// A label, what was heard, and words behind these.
#[tactic(auto)]
fn put_heard(
    out: &mut Vec<u8>,
    label: Label,
    heard: Heard,
    tokens: &[Token],
) -> Result<(), NoMemory>
    ensures { OnOk result (out.new.items ≡ out.old.items ++ spaced (label_word label ∷ heard_words heard ++ map token_word tokens.now)) }
{
    put_all(out, &[Token::Word(label)])?;
    put_ask(out, heard.ask)?;
    put_answer(out, heard.answer)?;
    put_all(out, tokens)
}

/// A label and the numbers behind it.
#[tactic(auto)]
fn put_numbered(out: &mut Vec<u8>, label: Label, numbers: &[u64]) -> Result<(), NoMemory>
    ensures { OnOk result (out.new.items ≡ out.old.items ++ spaced (label_word label ∷ map decimal numbers.now)) }
{
    put_all(out, &[Token::Word(label)])?;
    put_numbers(out, numbers)
}

fn put_setting(out: &mut Vec<u8>, setting: Setting) -> Result<(), NoMemory>
    ensures { OnOk result (out.new.items ≡ out.old.items ++ spaced (setting_words setting)) }
{
    match setting {
        Setting::DirtyMs { ms, now } => put_time_at(out, Label::DirtyMs, ms, now),
        Setting::MuzzyMs { ms, now } => put_time_at(out, Label::MuzzyMs, ms, now),
        Setting::HookBox(box_no) => put_numbered(out, Label::HookBox, &[u64::from(box_no)]),
        Setting::Bind => put_numbered(out, Label::Bind, &[]),
        Setting::Unbind => put_numbered(out, Label::Unbind, &[]),
        Setting::GrowLimit { chunks } => put_numbered(out, Label::GrowLimit, &[chunks]),
        Setting::Live {
            box_no,
            dirty_ms,
            muzzy_ms,
            now,
        } => put_all(
            out,
            &[
                Token::Word(Label::Live),
                Token::Number(u64::from(box_no)),
                Token::Time(dirty_ms),
                Token::Time(muzzy_ms),
                Token::Number(now),
            ],
        ),
    }
}

/// A label, a time, and the moment at which it is set.
fn put_time_at(out: &mut Vec<u8>, label: Label, ms: i64, now: u64) -> Result<(), NoMemory>
    ensures { OnOk result (out.new.items ≡ out.old.items ++ spaced (label_word label ∷ signed_decimal ms ∷ decimal now ∷ [])) }
{
    let tokens = [Token::Word(label), Token::Time(ms), Token::Number(now)];
    put_all(out, &tokens)
}

/// The label of a setting, and the setting.
#[tactic(auto)]
fn put_set(out: &mut Vec<u8>, setting: Setting) -> Result<(), NoMemory>
    ensures { OnOk result (out.new.items ≡ out.old.items ++ spaced (codes "set" ∷ setting_words setting)) }
{
    put_all(out, &[Token::Word(Label::Set)])?;
    put_setting(out, setting)
}

/// How many addresses there are, and the addresses.
fn put_addresses(out: &mut Vec<u8>, addrs: &Addresses) -> Result<(), NoMemory>
    ensures { OnOk result (out.new.items ≡ out.old.items ++ spaced (codes "back" ∷ decimal (length addrs.now) ∷ map decimal addrs.now)) }
{
    let addrs = addrs.as_slice();
    put_all(
        out,
        &[Token::Word(Label::Back), Token::Number(addrs.len() as u64)],
    )?;
    put_numbers(out, addrs)
}

/// An operation that takes in what was heard.
fn put_heard_op(out: &mut Vec<u8>, op: &Op) -> Result<(), NoMemory>
    requires { is_some (heard_of op.now) ≡ true }
    ensures { OnOk result (out.new.items ≡ out.old.items ++ spaced (op_words op.now)) }
{
    match op {
        Op::CutDone { heard, keep_low } => {
            put_heard(out, Label::CutDone, *heard, &[Token::Flag(*keep_low)])
        }
        Op::GrowDone { heard, found } => {
            put_heard(out, Label::GrowDone, *heard, &[Token::Maybe(*found)])
        }
        Op::MergeDone { heard, own_low } => {
            put_heard(out, Label::MergeDone, *heard, &[Token::Flag(*own_low)])
        }
        Op::OfferDone { heard, found } => {
            put_heard(out, Label::OfferDone, *heard, &[Token::Maybe(*found)])
        }
        Op::JoinDone { heard, class } => {
            put_heard(
                out,
                Label::JoinDone,
                *heard,
                &[Token::Number(u64::from(*class))],
            )
        }
        Op::TrimDone { heard, class } => {
            put_heard(
                out,
                Label::TrimDone,
                *heard,
                &[Token::Number(u64::from(*class))],
            )
        }
        Op::CommitDone { heard } => put_heard(out, Label::CommitDone, *heard, &[]),
        Op::LazyDone { heard } => put_heard(out, Label::LazyDone, *heard, &[]),
        Op::DecommitDone { heard } => put_heard(out, Label::DecommitDone, *heard, &[]),
        Op::ForcedDone { heard } => put_heard(out, Label::ForcedDone, *heard, &[]),
        _ => Ok(()),
    }
}

/// An operation: its label and its fields, each behind a space.
pub fn put_op(out: &mut Vec<u8>, op: &Op) -> Result<(), NoMemory>
    ensures { OnOk result (out.new.items ≡ out.old.items ++ spaced (op_words op.now)) }
{
    match op {
        Op::Look { pages, align } => put_numbered(out, Label::Look, &[*pages, *align]),
        Op::Land { span, class, count } => put_at(
            out,
            Label::Land,
            *span,
            &[
                Token::Number(u64::from(*class)),
                Token::Number(u64::from(*count)),
            ],
        ),
        Op::PutLook { span, tries } => put_at(
            out,
            Label::PutLook,
            *span,
            &[Token::Number(u64::from(*tries))],
        ),
        Op::Offer { span } => put_at(out, Label::Offer, *span, &[]),
        Op::PurgeTake { rest, keep } => put_purge_take(out, *rest, *keep),
        Op::Back { addrs } => put_addresses(out, addrs),
        Op::Fill { class, count } => {
            put_numbered(out, Label::Fill, &[u64::from(*class), u64::from(*count)])
        }
        Op::Publish { addr } => put_numbered(out, Label::Publish, &[*addr]),
        Op::TakeOver { addr } => put_numbered(out, Label::TakeOver, &[*addr]),
        Op::Widen { addr, pages } => put_numbered(out, Label::Widen, &[*addr, *pages]),
        Op::Trim { addr, class } => put_numbered(out, Label::Trim, &[*addr, u64::from(*class)]),
        Op::Advance { now } => put_numbered(out, Label::Advance, &[*now]),
        Op::Reset { cached } => put_numbered(out, Label::Reset, &[*cached]),
        Op::Destroy { cached } => put_numbered(out, Label::Destroy, &[*cached]),
        Op::DestroyTake => put_numbered(out, Label::DestroyTake, &[]),
        Op::Counts => put_numbered(out, Label::Counts, &[]),
        Op::Set(setting) => put_set(out, *setting),
        _ => put_heard_op(out, op),
    }
}

/// A take of the oldest extent of a list.
fn put_purge_take(out: &mut Vec<u8>, rest: Rest, keep: u64) -> Result<(), NoMemory>
    ensures { OnOk result (out.new.items ≡ out.old.items ++ spaced (codes "purgetake" ∷ rest_words rest ++ decimal keep ∷ [])) }
{
    let tokens = [
        Token::Word(Label::PurgeTake),
        Token::Word(rest_label(rest)),
        Token::Number(keep),
    ];
    put_all(out, &tokens)
}
