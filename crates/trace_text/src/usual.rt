//! Reading the most usual lines, a malloc and a free by a name, in one pass over their bytes.

ghost use Rattle.std.specs.Prelude.{◌≡◌, ◌≤◌, ◌++◌, ◌∷◌, true, length, take, codes, Ok, IfSome};
ghost use Rattle.std.specs.List.{list_all};
ghost use Rattle.trace_text.specs.declared.lines.Line.TheVariants.{Call};
ghost use Rattle.trace_text.specs.declared.lines.Verb.TheVariants.{Malloc, Free};
ghost use Rattle.trace_text.specs.declared.lines.Ptr.TheVariants.{Name as Named};
ghost use Rattle.trace_text.specs.Names.{is_name, is_name_byte};
ghost use Rattle.trace_text.specs.Grammar.{line_of};

use crate::parts::{begins_name, decimal, is, is_name_byte, is_region_name};
use crate::ranges::client;

/// The client, the name and the size of a line that is a client's malloc.
#[inline(always)]
pub fn malloc<'a>(line: &'a [u8]) -> Option<(u32, &'a [u8], u64)>
    ensures value { IfSome result (λ said. line_of line.now ≡ Ok (Call said.0 (Malloc said.1.now said.2))) }
    ensures bound { IfSome result (λ said. length said.1.now ≤ 100) }
{
    let (word, call) = client_word(line)?;
    let Ok(client) = client(word) else {
        return None;
    };
    let (verb, arguments) = cut(call, 6)?;
    if !is_malloc(verb) {
        return None;
    }
    let (name, digits) = cut(arguments, name_end(arguments))?;
    match decimal(digits) {
        Ok(size) if begins_name(name) => Some((client, name, size)),
        _ => None,
    }
}

/// The client and the name of a line that is a client's free by a name.
#[inline(always)]
#[tactic(auto, using(crate::proofs::Pieces::free_said))]
pub fn free<'a>(line: &'a [u8]) -> Option<(u32, &'a [u8])>
    ensures value { IfSome result (λ said. line_of line.now ≡ Ok (Call said.0 (Free (Named said.1.now)))) }
    ensures bound { IfSome result (λ said. length said.1.now ≤ 100) }
{
    let (word, call) = client_word(line)?;
    let Ok(client) = client(word) else {
        return None;
    };
    let (verb, region) = cut(call, 4)?;
    if is(verb, "free") && is_region_name(region) {
        Some((client, region))
    } else {
        None
    }
}

/// The first word of a line, of a client below 10 or one above, and what stands behind it.
#[inline(always)]
fn client_word<'a>(line: &'a [u8]) -> Option<(&'a [u8], &'a [u8])>
    ensures { IfSome result (λ parts. line.now ≡ parts.0.now ++ 32 ∷ parts.1.now) }
{
    match cut(line, 2) {
        Some(parts) => Some(parts),
        None => cut(line, 3),
    }
}

/// The bytes before and behind a space, if it stands at this place.
#[inline(always)]
#[tactic(auto, using(crate::proofs::Pieces::cut_here))]
fn cut<'a>(bytes: &'a [u8], at: usize) -> Option<(&'a [u8], &'a [u8])>
    ensures parts { IfSome result (λ parts. bytes.now ≡ parts.0.now ++ 32 ∷ parts.1.now) }
    ensures front { IfSome result (λ parts. parts.0.now ≡ take at bytes.now) }
{
    if at < bytes.len() && bytes[at] == b' ' {
        Some((&bytes[..at], &bytes[at + 1..]))
    } else {
        None
    }
}

#[inline(always)]
#[tactic(auto, using(std::proofs::lemmas::Slice::Eq::text_from_reads))]
fn is_malloc(word: &[u8]) -> bool
    ensures { result ≡ true → word.now ≡ codes "malloc" }
{
    matches!(word, b"malloc")
}

/// How many bytes of a name stand at the front.
#[inline(always)]
fn name_end(bytes: &[u8]) -> usize
    ensures within { result ≤ length bytes.now }
    ensures named { list_all is_name_byte (take result bytes.now) ≡ true }
{
    for at in 0..bytes.len() {
        if !is_name_byte(bytes[at]) {
            return at;
        }
    }
    bytes.len()
}
