//! The texts of asks, in the words of `extent_hooks_t` (jemalloc(3), MALLCTL NAMESPACE, `arena.<i>.extent_hooks`): addresses and
//! sizes are in bytes.

ghost use Rattle.std.specs.Prelude.{◌≡◌, ◌*◌, ◌++◌, Some, IfOk, OnOk};
ghost use Rattle.std.specs.Fmt.{decimal};
ghost use Rattle.journals.specs.Asks.{address_text, ask_text, answer_text, asked_line, asks_text, flag_text, span_text, wish_text};

use hook_api::{Asked, Askeds};
use space_model::{Answer, Ask, Span};
use std::alloc::{AllocError as NoMemory, Global};
use std::fmt;
use std::io::{Error, Write};

/// The address of a page's first byte. It may pass 2^64, so it is printed from the page's own digits.
#[derive(Drop)]
struct AddressText(u64);

impl fmt::Display for AddressText {
    ghost output = { λ page. Some (address_text page.0) };

    fn fmt<W: fmt::Write>(&self, f: &mut fmt::Formatter<W>) -> fmt::Result {
        if self.0 == 0 {
            return f.write_str("0x0");
        }
        write!(f, "0x{:x}000", self.0)
    }
}

/// The address that an alloc wishes.
#[derive(Drop)]
struct WishText(Option<u64>);

impl fmt::Display for WishText {
    ghost output = { λ wish. Some (wish_text wish.0) };

    fn fmt<W: fmt::Write>(&self, f: &mut fmt::Formatter<W>) -> fmt::Result {
        match self.0 {
            Some(page) => write!(f, "{}", AddressText(page)),
            None => f.write_str("NULL"),
        }
    }
}

/// The bytes of so many pages.
fn bytes_of(pages: u64) -> u128
    ensures { result ≡ pages * 4096 }
{
    u128::from(pages) * 4096
}

/// The word of a truth value.
fn flag(truth: bool) -> &'static str
    ensures { result.now ≡ flag_text truth }
{
    if truth { "true" } else { "false" }
}

/// The address and the size of a range.
#[derive(Drop)]
struct SpanText(Span);

impl fmt::Display for SpanText {
    ghost output = { λ span. Some (span_text span.0) };

    fn fmt<W: fmt::Write>(&self, f: &mut fmt::Formatter<W>) -> fmt::Result {
        write!(
            f,
            "{}, {}",
            AddressText(self.0.first),
            bytes_of(self.0.pages)
        )
    }
}

/// An ask: the hook with its arguments.
#[derive(Drop)]
struct AskText(Ask);

impl fmt::Display for AskText {
    ghost output = { λ ask. Some (ask_text ask.0) };

    fn fmt<W: fmt::Write>(&self, f: &mut fmt::Formatter<W>) -> fmt::Result {
        match self.0 {
            Ask::Alloc {
                commit,
                at,
                pages,
                align,
            } => write!(
                f,
                "alloc({}, {}, {}, {})",
                WishText(at),
                bytes_of(pages),
                bytes_of(align),
                flag(commit)
            ),
            Ask::Dalloc { span, committed } => {
                write!(f, "dalloc({}, {})", SpanText(span), flag(committed))
            }
            Ask::Destroy { span, committed } => {
                write!(f, "destroy({}, {})", SpanText(span), flag(committed))
            }
            Ask::Commit(span) => write!(f, "commit({})", SpanText(span)),
            Ask::Decommit(span) => write!(f, "decommit({})", SpanText(span)),
            Ask::PurgeLazy(span) => write!(f, "purge_lazy({})", SpanText(span)),
            Ask::PurgeForced(span) => write!(f, "purge_forced({})", SpanText(span)),
            Ask::Split { span, left } => {
                write!(f, "split({}, {})", SpanText(span), bytes_of(left))
            }
            Ask::Merge { low, high } => write!(f, "merge({}, {})", SpanText(low), SpanText(high)),
        }
    }
}

/// What a hook answered.
#[derive(Drop)]
struct AnswerText(Answer);

impl fmt::Display for AnswerText {
    ghost output = { λ answer. Some (answer_text answer.0) };

    fn fmt<W: fmt::Write>(&self, f: &mut fmt::Formatter<W>) -> fmt::Result {
        match self.0 {
            Answer::Refused => f.write_str("refused"),
            Answer::Done => f.write_str("done"),
            Answer::Placed {
                committed,
                zeroed,
                first,
            } => write!(
                f,
                "{}, {}, {}",
                AddressText(first),
                flag(committed),
                flag(zeroed)
            ),
        }
    }
}

/// Growing the buffer is all that can fail.
fn no_memory(_: Error) -> NoMemory {
    NoMemory
}

/// Puts the line of an ask behind what is there: its box, the hook with its arguments, and the answer.
fn put_asked(asked: &Asked, out: &mut Vec<u8>) -> Result<(), NoMemory>
    ensures text { OnOk result (out.new.items ≡ out.old.items ++ asked_line asked.now) }
{
    writeln!(
        out,
        "box {} {} -> {}",
        asked.box_no(),
        AskText(asked.ask()),
        AnswerText(asked.answer())
    )
    .map_err(no_memory)
}

/// The text of asks: a line each, in order.
fn asks_text(alloc: Global, asks: &[Asked]) -> Result<Vec<u8>, NoMemory>
    ensures text { IfOk result (λ text. text.items ≡ asks_text asks.now) }
{
    let mut text = Vec::new(alloc);
    for asked in asks {
        put_asked(asked, &mut text)?;
    }
    Ok(text)
}

/// The text of all asks that a run heard.
pub fn heard_text(alloc: Global, heard: &Askeds) -> Result<Vec<u8>, NoMemory>
    ensures text { IfOk result (λ text. text.items ≡ asks_text heard.now) }
{
    asks_text(alloc, heard.to_list(alloc)?.as_slice())
}
