//! The words that the program is given.

ghost use Rattle.std.specs.Prelude.{◌≡◌, ◌⊎◌, map, string_bytes};
ghost use Rattle.edge_io.specs.Bytes.{Rose};
ghost use Rattle.journals.specs.Wanted.{printed_by, ruled_by, unruled, wanted_of};

use edge_io::{Failed, Sink, write_whole};
use ruled_hooks::{Rules, read_rule};

/// There were words that are no list.
pub const BAD_WORDS: u8 = 2;

/// A write to the sink failed.
pub const SINK_FAILED: u8 = 5;

/// How many boxes of hooks a shelf has.
pub const BOXES: usize = 32;

/// What of a run is printed.
#[derive(Clone, Copy, Debug, PartialEq, Eq)]
pub enum Printed {
    /// The report.
    Report,
    /// The journals of the arenas.
    Journals,
    /// The asks of hooks with their answers.
    Asks,
}

/// What the words ask for.
#[derive(Clone, Copy, Debug, PartialEq, Eq)]
pub struct Wanted {
    /// What is printed.
    pub printed: Printed,
    /// The rules of each box.
    pub rules: [Rules; BOXES],
}

/// What the first word asks for.
#[tactic(auto, unfolding(crate::specs::Wanted::printed_by))]
fn printed_by(word: &str) -> Option<Printed>
    ensures { result ≡ printed_by word.now }
{
    match word {
        "replay" => Some(Printed::Report),
        "journals" => Some(Printed::Journals),
        "asks" => Some(Printed::Asks),
        _ => None,
    }
}

/// The rules of the 32 boxes, if each of the words is a rule of one.
#[tactic(auto, using(crate::proofs::Ruled::ruled_next))]
fn rules_by(words: &[String]) -> Option<[Rules; BOXES]>
    ensures { result ≡ ruled_by unruled (map string_bytes words.now) }
{
    let mut rules = [Rules::none(); BOXES];
    for word in words {
        let (box_no, rule) = read_rule(word.as_bytes())?;
        rules[box_no] = rules[box_no].with(rule);
    }
    Some(rules)
}

/// What the words, without the program's name, ask for, if they ask for anything: `replay`, `journals` or `asks`, and rules of
/// boxes behind it. No words ask for journals over boxes without rules.
pub fn wanted_by(words: &[String]) -> Option<Wanted>
    ensures { result ≡ wanted_of (map string_bytes words.now) }
{
    let Some((first, others)) = words.split_first() else {
        return Some(Wanted {
            printed: Printed::Journals,
            rules: [Rules::none(); BOXES],
        });
    };
    let printed = printed_by(first.as_str())?;
    let rules = rules_by(others)?;
    Some(Wanted { printed, rules })
}

/// Writes the usage line, and gives status 2, or 5 where the sink failed.
pub fn tell_usage<K: Sink>(sink: &mut K) -> u8
    ensures status { (result ≡ 2) ⊎ (result ≡ 5) }
    ensures write_fault { result ≡ 5 → Rose (K.faults sink.old) (K.faults sink.new) }
{
    match write_whole(sink, b"usage: journals [replay|journals|asks [RULE..]]\n") {
        Ok(()) => BAD_WORDS,
        Err(Failed) => SINK_FAILED,
    }
}
