//! The words that the program is given.

ghost use Rattle.std.specs.Prelude.{◌≡◌, ◌≢◌, ◌∷◌, [], ℕ, false, ◌^◌, ◌<◌, ◌↔◌, IfNone, IfSome, IsTrue, MatchOption, map, string_bytes};
ghost use Rattle.std.specs.Fmt.{decimal};
ghost use Rattle.jarena.specs.Runs.{TellsUsage, sink_facts};
ghost use Rattle.jarena.specs.Words.{IsAsked, IsNoReplay, IsNoSoak, IsNoThreads, IsReplay, IsSoak, IsThreads};

use crate::status::{BAD_WORDS, SINK_FAILED};
use edge_io::{Failed, Sink, write_whole};
use itoa::Buffer;
use replay_run::Closing;
use report_text::usage_line;

/// How many calls a soak makes at most.
const MOST_CALLS: u64 = 1_000_000;

/// What the words ask for.
#[derive(Clone, Copy, Debug, PartialEq, Eq)]
pub(crate) enum Asked {
    /// They are in no list.
    Nothing,
    /// A replay of the input, whose counts are told in this form at the end.
    Replay(Closing),
    /// A soak of so many calls, drawn from a start.
    Soak { start: u64, calls: u64 },
    /// A check of journals.
    Check,
    /// A run of threads, with the journals printed at its end or without.
    Threads { with_journals: bool },
}

/// What the words, without the program's name, ask for.
pub(crate) fn asked_by(words: &[String]) -> Asked
    ensures { IsAsked (map string_bytes words.now) result }
{
    if let Some(closing) = replay_asked(words) {
        return Asked::Replay(closing);
    }
    if let Some(with_journals) = threads_asked(words) {
        return Asked::Threads { with_journals };
    }
    if is_word(words, "check") {
        return Asked::Check;
    }
    match soak_asked(words) {
        Some((start, calls)) => Asked::Soak { start, calls },
        None => Asked::Nothing,
    }
}

/// How the counts are to be told, where the words are exactly `replay` or `replay --json`.
fn replay_asked(words: &[String]) -> Option<Closing>
    ensures { MatchOption result (IsNoReplay (map string_bytes words.now)) (IsReplay (map string_bytes words.now)) }
{
    match words {
        [word] if word.as_str() == "replay" => Some(Closing::Lines),
        [word, option] if word.as_str() == "replay" && option.as_str() == "--json" => {
            Some(Closing::Json)
        }
        _ => None,
    }
}

/// Whether the journals are to be printed, where the words are exactly `threads` or `threads --journal`.
fn threads_asked(words: &[String]) -> Option<bool>
    ensures { MatchOption result (IsNoThreads (map string_bytes words.now)) (IsThreads (map string_bytes words.now)) }
{
    match words {
        [word] if word.as_str() == "threads" => Some(false),
        [word, option] if word.as_str() == "threads" && option.as_str() == "--journal" => {
            Some(true)
        }
        _ => None,
    }
}

/// Whether the words, without the program's name, are exactly this one.
fn is_word(words: &[String], wanted: &str) -> bool
    ensures { IsTrue result ↔ (map string_bytes words.now ≡ wanted.now ∷ []) }
{
    match words {
        [word] => word.as_str() == wanted,
        _ => false,
    }
}

/// The start and the number of calls, where the words are exactly `soak START CALLS`.
fn soak_asked(words: &[String]) -> Option<(u64, u64)>
    ensures { MatchOption result (IsNoSoak (map string_bytes words.now)) (λ soak. IsSoak (map string_bytes words.now) soak.0 soak.1) }
{
    match words {
        [word, start, calls] => soak_numbers(word.as_str(), start.as_str(), calls.as_str()),
        _ => None,
    }
}

/// The same for three words.
fn soak_numbers(word: &str, start: &str, calls: &str) -> Option<(u64, u64)>
    ensures { MatchOption result (IsNoSoak (word.now ∷ start.now ∷ calls.now ∷ [])) (λ soak. IsSoak (word.now ∷ start.now ∷ calls.now ∷ []) soak.0 soak.1) }
{
    if word != "soak" {
        return None;
    }
    let start = number(start)?;
    let calls = number(calls)?;
    if calls > MOST_CALLS {
        return None;
    }
    Some((start, calls))
}

/// The number below 2^64 that is printed as this word, if there is one: without a sign or leading zeros.
fn number(word: &str) -> Option<u64>
    ensures printed { IfSome result (λ n. word.now ≡ decimal n) }
    ensures none { IfNone result ((n : ℕ) → n < 2 ^ 64 → word.now ≢ decimal n) }
{
    let Ok(number) = word.parse::<u64>() else {
        return None;
    };
    if is_printed(number, word) {
        Some(number)
    } else {
        None
    }
}

/// Whether the word is what is printed of a number.
fn is_printed(number: u64, word: &str) -> bool
    ensures { IsTrue result ↔ (word.now ≡ decimal number) }
{
    Buffer::new().format(number) == word
}

/// Writes the usage line, and gives the status of words that are in no list: 2, or 5 where the sink fails.
pub(crate) fn tell_usage<K: Sink>(sink: &mut K) -> u8
    ensures tells { TellsUsage result (sink_facts (K.held sink.old) (K.faults sink.old) (K.waits sink.old)) (sink_facts (K.held sink.new) (K.faults sink.new) (K.waits sink.new)) }
    ensures unfailed { result ≡ 2 → K.faults sink.new ≡ K.faults sink.old }
    ensures handed_on { result ≡ 2 → K.waits sink.new ≡ false }
{
    match write_whole(sink, usage_line().as_bytes()) {
        Ok(()) => BAD_WORDS,
        Err(Failed) => SINK_FAILED,
    }
}
