//! Reading a line.

ghost use Rattle.std.specs.Prelude.{◌≡◌, ◌<◌, [], map, length, false, true, IfOk};
ghost use Rattle.std.specs.List.{list_all};
ghost use Rattle.trace_text.specs.Causes.{Gives};
ghost use Rattle.trace_text.specs.Numbers.{decimal_of};
ghost use Rattle.trace_text.specs.Verbs.{in_one};
ghost use Rattle.trace_text.specs.Grammar.{is_printable, words_of, is_blank, holding_kind_of, kind_of_word, refusals_of, plan_line_of, background_of, phase_line_of, client_line_of, other_line_of, begins_client, said_of, line_of, IsWithinLimits};

use crate::parts::{both_parts, decimal, is};
use crate::ranges::{box_number, client, nth, rounds};
use crate::verbs::{nothing, only_index, verb};
use crate::{Line, LineFault, Name, Ptr, Verb, usual};
use arrayvec::ArrayVec;
use hook_api::Kind;
use std::alloc::Global;

/// How many words a line has at most, if it has a shape at all.
const MOST_WORDS: usize = 6;

/// What a line says, which is given without its newline.
///
/// Its words are parted by exactly one space, and its shape is that of a variant of `Line` or of `Verb`. C, B, I, N and
/// ALIGN are decimal numbers and MS is one or `-1`. NAME is a lower-case letter and up to 31 lower-case letters, digits
/// or `_`; of a `ctl` it is 1 to 100 of these or `.`, and VALUE is 1 to 20 bytes. PTR is a NAME or `@` and an address of
/// 1 to 16 lower-case hexadecimal digits. An `Err` is the first cause that holds, in the order of `LineFault`. Each but
/// `NoMemory` comes exactly where it holds first.
#[tactic(auto, using(crate::proofs::Limits::within_limits, crate::proofs::Limits::client_within))]
pub fn read(alloc: Global, line: &[u8]) -> Result<Line, LineFault>
    ensures said { Gives result (line_of line.now) }
    ensures limits { IfOk result IsWithinLimits }
{
    if let Some((client, name, size)) = usual::malloc(line) {
        let name = Name::new(alloc, name)?;
        let verb = Verb::Malloc { name, size };
        return Ok(Line::Call { client, verb });
    }
    if let Some((client, name)) = usual::free(line) {
        let verb = Verb::Free(Ptr::Name(Name::new(alloc, name)?));
        return Ok(Line::Call { client, verb });
    }
    unusual(alloc, line)
}

/// What any line says, read word by word.
#[inline(never)]
#[tactic(auto, unfolding(crate::specs::Grammar::line_of), using(crate::proofs::Shapes::long_without_shape))]
fn unusual(alloc: Global, line: &[u8]) -> Result<Line, LineFault>
    ensures { Gives result (line_of line.now) }
{
    if !all_printable(line) {
        return Err(LineFault::Bytes);
    }
    if is_blank(line) {
        return Ok(Line::Blank);
    }
    let mut words = ArrayVec::new();
    if !split(line, &mut words) {
        return Err(LineFault::Words);
    }
    said(alloc, words.as_slice())
}

/// Whether a line has printable bytes alone, all of which are looked at, many at once.
fn all_printable(line: &[u8]) -> bool
    ensures { result ≡ list_all is_printable line.now }
{
    let mut all = true;
    for byte in line {
        all &= is_printable(*byte);
    }
    all
}

fn is_printable(byte: u8) -> bool
    ensures { result ≡ is_printable byte }
{
    (b' '..=b'~').contains(&byte)
}

fn is_blank(line: &[u8]) -> bool
    ensures { result ≡ is_blank line.now }
{
    matches!(line, [] | [b'#', ..])
}

/// Puts the words of a line into an empty list. Gives false where they are too many for any shape.
fn split<'a>(line: &'a [u8], words: &mut ArrayVec<&'a [u8], MOST_WORDS>) -> bool
    requires empty { words.old.items ≡ [] }
    ensures few { result ≡ true → map (λ w. w.now) words.new.items ≡ words_of line.now }
    ensures many { result ≡ false → 6 < length (words_of line.now) }
{
    let mut start = 0;
    for at in 0..line.len() {
        if line[at] == b' ' {
            words.push(&line[start..at]);
            if words.is_full() {
                return false;
            }
            start = at + 1;
        }
    }
    words.push(&line[start..]);
    true
}

#[tactic(auto, unfolding(crate::specs::Grammar::said_of))]
fn said(alloc: Global, words: &[&[u8]]) -> Result<Line, LineFault>
    ensures { Gives result (said_of (map (λ w. w.now) words.now)) }
{
    let [word, words @ ..] = words else {
        return Err(LineFault::Words);
    };
    if begins_client(word) {
        client_line(alloc, word, words)
    } else {
        setting(word, words)
    }
}

fn begins_client(word: &[u8]) -> bool
    ensures { result ≡ begins_client word.now }
{
    matches!(word, [b't', ..])
}

#[tactic(auto, unfolding(crate::specs::Grammar::other_line_of))]
fn setting(word: &[u8], words: &[&[u8]]) -> Result<Line, LineFault>
    ensures { Gives result (other_line_of word.now (map (λ w. w.now) words.now)) }
{
    if is(word, "at") {
        Ok(Line::At(only_decimal(words)?))
    } else if is(word, "refuse") {
        plan(words)
    } else if is(word, "counts") {
        Ok(Line::Counts(only_index(words)?))
    } else if is(word, "phase") {
        phase(words)
    } else if is(word, "join") {
        nothing(words)?;
        Ok(Line::Join)
    } else {
        Err(LineFault::Words)
    }
}

/// The arguments of a phase: none, or `background K`.
#[tactic(auto, unfolding(crate::specs::Grammar::phase_line_of))]
fn phase(words: &[&[u8]]) -> Result<Line, LineFault>
    ensures { result ≡ phase_line_of (map (λ w. w.now) words.now) }
{
    match words {
        [] => Ok(Line::Phase { rounds: 0 }),
        [word, count] => background(word, count),
        _ => Err(LineFault::Words),
    }
}

fn background(word: &[u8], count: &[u8]) -> Result<Line, LineFault>
    ensures { result ≡ background_of word.now count.now }
{
    if !is(word, "background") {
        return Err(LineFault::Words);
    }
    Ok(Line::Phase {
        rounds: rounds(count)?,
    })
}

fn only_decimal(words: &[&[u8]]) -> Result<u64, LineFault>
    ensures { result ≡ in_one decimal_of (map (λ w. w.now) words.now) }
{
    match words {
        [number] => decimal(number),
        _ => Err(LineFault::Words),
    }
}

#[tactic(auto, unfolding(crate::specs::Grammar::plan_line_of), using(crate::proofs::Causes::both_gives))]
fn plan(words: &[&[u8]]) -> Result<Line, LineFault>
    ensures { Gives result (plan_line_of (map (λ w. w.now) words.now)) }
{
    let [box_no, kind, which] = words else {
        return Err(LineFault::Words);
    };
    let (box_no, (kind, nth)) = both_parts(box_number(box_no), refusals(kind, which))?;
    Ok(Line::Refuse { box_no, kind, nth })
}

#[tactic(auto, unfolding(crate::specs::Grammar::refusals_of))]
fn refusals(kind_word: &[u8], which: &[u8]) -> Result<(Kind, u64), LineFault>
    ensures { result ≡ refusals_of kind_word.now which.now }
{
    both_parts(kind(kind_word), nth(which))
}

#[tactic(auto, unfolding(crate::specs::Grammar::kind_of_word))]
fn kind(word: &[u8]) -> Result<Kind, LineFault>
    ensures { result ≡ kind_of_word word.now }
{
    if is(word, "alloc") {
        Ok(Kind::Alloc)
    } else if is(word, "dalloc") {
        Ok(Kind::Dalloc)
    } else if is(word, "split") {
        Ok(Kind::Split)
    } else if is(word, "merge") {
        Ok(Kind::Merge)
    } else {
        holding_kind(word)
    }
}

#[tactic(auto, unfolding(crate::specs::Grammar::holding_kind_of))]
fn holding_kind(word: &[u8]) -> Result<Kind, LineFault>
    ensures { result ≡ holding_kind_of word.now }
{
    if is(word, "commit") {
        Ok(Kind::Commit)
    } else if is(word, "decommit") {
        Ok(Kind::Decommit)
    } else if is(word, "purge_lazy") {
        Ok(Kind::PurgeLazy)
    } else if is(word, "purge_forced") {
        Ok(Kind::PurgeForced)
    } else {
        Err(LineFault::Words)
    }
}

#[tactic(auto, unfolding(crate::specs::Grammar::client_line_of), using(crate::proofs::Causes::both_gives))]
fn client_line(alloc: Global, first: &[u8], words: &[&[u8]]) -> Result<Line, LineFault>
    ensures { Gives result (client_line_of first.now (map (λ w. w.now) words.now)) }
{
    let [word, rest @ ..] = words else {
        return Err(LineFault::Words);
    };
    if is(word, "step") {
        nothing(rest)?;
        Ok(Line::Step(client(first)?))
    } else if is(word, "end") {
        nothing(rest)?;
        Ok(Line::End(client(first)?))
    } else {
        let is_started = is(word, "call");
        let words = if is_started { rest } else { words };
        let (client, verb) = both_parts(client(first), verb(alloc, words))?;
        if is_started {
            Ok(Line::Start { client, verb })
        } else {
            Ok(Line::Call { client, verb })
        }
    }
}
