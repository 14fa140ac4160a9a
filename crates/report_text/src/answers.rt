//! The texts of the answers of calls and of hooks.

ghost use Rattle.std.specs.Prelude.{◌≡◌, Some};
ghost use Rattle.size_classes.specs.Classes.{size_at};
ghost use Rattle.report_text.specs.Answers.{kind_text, why_text, limit_text, given_text, answer_text, said_text};

use crate::places::{PageText, SpanText};
use call_plan::{Answered, Given};
use size_classes::{CLASSES, size_of};
use space_model::{Answer, Ask, Why};
use std::fmt;

/// The answer of a call.
#[derive(Drop)]
pub(crate) struct AnswerText(pub(crate) Answered);

impl fmt::Display for AnswerText {
    ghost output = { λ answer. Some (answer_text answer.0) };

    fn fmt<W: fmt::Write>(&self, f: &mut fmt::Formatter<W>) -> fmt::Result {
        match self.0 {
            Answered::Ok(given) => write!(f, "{}", GivenText(given)),
            Answered::Refused(asked) => write!(f, "refused {}", kind(asked.ask())),
            Answered::BadAnswer { span, why } => {
                write!(f, "bad answer {} {}", SpanText(span), WhyText(why))
            }
            Answered::TooLarge => f.write_str("too large"),
            Answered::BadAlign => f.write_str("bad alignment"),
            Answered::NotHeld(addr) => write!(f, "not held @{addr:x}"),
            Answered::NoArena(index) => write!(f, "no arena {index}"),
            Answered::Busy {
                held,
                flights,
                threads,
            } => write!(f, "busy held {held} flights {flights} threads {threads}"),
            Answered::NoMemory => f.write_str("no memory"),
            Answered::ArenasFull => f.write_str("arenas full"),
            Answered::Automatic => f.write_str("automatic arena"),
            Answered::NoCache(slot) => write!(f, "no cache {slot}"),
            Answered::CachesFull => f.write_str("caches full"),
        }
    }
}

/// What a call gives.
#[derive(Drop)]
struct GivenText(Given);

impl fmt::Display for GivenText {
    ghost output = { λ given. Some (given_text given.0) };

    fn fmt<W: fmt::Write>(&self, f: &mut fmt::Formatter<W>) -> fmt::Result {
        match self.0 {
            Given::Region { addr, class } => write!(f, "@{addr:x} {}", size(class)),
            Given::Done => f.write_str("ok"),
            Given::Arena(index) => write!(f, "{index}"),
            Given::Cache(slot) => write!(f, "{slot}"),
            Given::Limits { dirty, muzzy } => {
                write!(f, "dirty {} muzzy {}", LimitText(dirty), LimitText(muzzy))
            }
        }
    }
}

/// How many pages may stay, if that was told.
#[derive(Drop)]
struct LimitText(Option<u64>);

impl fmt::Display for LimitText {
    ghost output = { λ limit. Some (limit_text limit.0) };

    fn fmt<W: fmt::Write>(&self, f: &mut fmt::Formatter<W>) -> fmt::Result {
        match self.0 {
            Some(pages) => write!(f, "{pages}"),
            None => f.write_str("-"),
        }
    }
}

/// What speaks against a range.
#[derive(Drop)]
struct WhyText(Why);

impl fmt::Display for WhyText {
    ghost output = { λ why. Some (why_text why.0) };

    fn fmt<W: fmt::Write>(&self, f: &mut fmt::Formatter<W>) -> fmt::Result {
        match self.0 {
            Why::OffSpace => f.write_str("off space"),
            Why::Unaligned => f.write_str("unaligned"),
            Why::Meets(chunk) => write!(f, "meets {}", SpanText(chunk)),
        }
    }
}

/// The answer of a hook.
#[derive(Drop)]
pub(crate) struct SaidText(pub(crate) Answer);

impl fmt::Display for SaidText {
    ghost output = { λ said. Some (said_text said.0) };

    fn fmt<W: fmt::Write>(&self, f: &mut fmt::Formatter<W>) -> fmt::Result {
        match self.0 {
            Answer::Refused => f.write_str("refused"),
            Answer::Done => f.write_str("done"),
            Answer::Placed { first, .. } => write!(f, "placed {}", PageText(first)),
        }
    }
}

/// The kind of an ask.
pub(crate) fn kind(ask: Ask) -> &'static str
    ensures { result.now ≡ kind_text ask }
{
    match ask {
        Ask::Alloc { .. } => "alloc",
        Ask::Dalloc { .. } => "dalloc",
        Ask::Destroy { .. } => "destroy",
        Ask::Commit(_) => "commit",
        Ask::Decommit(_) => "decommit",
        Ask::PurgeLazy(_) => "purge_lazy",
        Ask::PurgeForced(_) => "purge_forced",
        Ask::Split { .. } => "split",
        Ask::Merge { .. } => "merge",
    }
}

/// The size of a class, in bytes, or 0 where there is no such class.
#[tactic(auto, using(crate::proofs::Sizes::size_past))]
pub(crate) fn size(class: u8) -> u64
    ensures { result ≡ size_at class }
{
    if class < CLASSES { size_of(class) } else { 0 }
}
