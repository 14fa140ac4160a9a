//! Rules as words.

ghost use Rattle.std.specs.Prelude.{◌≡◌, ◌<◌, IfSome};
ghost use Rattle.std.specs.Str.{bytes_eq};
ghost use Rattle.ruled_hooks.specs.Words.{kind_named, only_number, refusal_of, named_rule, rule_of, rule_of_parts, wrong_of};

use crate::rules::Rule;
use hook_api::Kind;
use text_words::{Words, number, number_below};

/// How many boxes a shelf has.
const BOXES: u64 = 32;

/// Whether a part is this text.
fn is(part: &[u8], text: &str) -> bool
    ensures { result ≡ bytes_eq part.now text.now }
{
    part == text.as_bytes()
}

/// The kind of asks that a word names.
#[tactic(auto, unfolding(crate::specs::Words::kind_named))]
fn kind_named(word: &[u8]) -> Option<Kind>
    ensures { result ≡ kind_named word.now }
{
    if is(word, "alloc") {
        Some(Kind::Alloc)
    } else if is(word, "dalloc") {
        Some(Kind::Dalloc)
    } else if is(word, "commit") {
        Some(Kind::Commit)
    } else if is(word, "decommit") {
        Some(Kind::Decommit)
    } else if is(word, "purge_lazy") {
        Some(Kind::PurgeLazy)
    } else if is(word, "purge_forced") {
        Some(Kind::PurgeForced)
    } else if is(word, "split") {
        Some(Kind::Split)
    } else if is(word, "merge") {
        Some(Kind::Merge)
    } else {
        None
    }
}

/// The number of the only part that is left.
fn only_number(parts: &mut Words<'_>) -> Option<u64>
    ensures { result ≡ only_number parts.old }
{
    let number = number(parts.next()?)?;
    if parts.is_empty() { Some(number) } else { None }
}

/// The refusal of a kind of asks.
fn refusal_of(parts: &mut Words<'_>) -> Option<Rule>
    ensures { result ≡ refusal_of parts.old }
{
    let kind = kind_named(parts.next()?)?;
    let nth = only_number(parts)?;
    Some(Rule::Refuse(kind, nth))
}

/// A wrong answer.
fn wrong_of(parts: &mut Words<'_>) -> Option<Rule>
    ensures { result ≡ wrong_of parts.old }
{
    let nth = number(parts.next()?)?;
    let first = only_number(parts)?;
    Some(Rule::Wrong { nth, first })
}

/// The rule with this name and the parts that are left.
#[tactic(auto, unfolding(crate::specs::Words::named_rule))]
fn named_rule(name: &[u8], parts: &mut Words<'_>) -> Option<Rule>
    ensures { result ≡ named_rule name.now parts.old }
{
    if is(name, "pool") {
        Some(Rule::Pool(only_number(parts)?))
    } else if is(name, "refuse") {
        refusal_of(parts)
    } else if is(name, "uncommitted") {
        if parts.is_empty() {
            Some(Rule::Uncommitted)
        } else {
            None
        }
    } else if is(name, "border") {
        Some(Rule::Border(only_number(parts)?))
    } else if is(name, "wrong") {
        wrong_of(parts)
    } else {
        None
    }
}

/// The rule with the parts that are left.
fn rule_of_parts(parts: &mut Words<'_>) -> Option<Rule>
    ensures { result ≡ rule_of_parts parts.old }
{
    let name = parts.next()?;
    named_rule(name, parts)
}

/// The number of a box, below 32, and a rule of it, where a word says both: `B:pool:PAGES`, `B:refuse:KIND:NTH`,
/// `B:uncommitted`, `B:border:PAGES`, or `B:wrong:NTH:PAGE`. Numbers are decimal, without leading zeros.
pub fn read_rule(word: &[u8]) -> Option<(usize, Rule)>
    ensures rule { result ≡ rule_of word.now }
    ensures box_no { IfSome result (λ read. read.0 < 32) }
{
    let mut parts = Words::new(word, b':');
    let box_no = number_below(parts.next()?, BOXES)?;
    let rule = rule_of_parts(&mut parts)?;
    Some((box_no as usize, rule))
}
