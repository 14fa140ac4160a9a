//! The parts of a line, each by itself, and the first cause of two.

ghost use Rattle.std.specs.Prelude.{◌≡◌, ◌&&◌, Result, length, nat_le, slice_index};
ghost use Rattle.std.specs.Char.{is_ascii_lowercase};
ghost use Rattle.trace_text.specs.Causes.{first_cause, both, Gives};
ghost use Rattle.trace_text.specs.Numbers.{cause_of, decimal_of, hexadecimal_of};
ghost use Rattle.trace_text.specs.Names.{is_name_byte, is_name, name_of, is_control_byte, is_control, control_of, value_of};
ghost use Rattle.std.specs.List.{list_all};
ghost use Rattle.std.specs.Str.{bytes_eq};

use crate::{LineFault, Name};
use std::alloc::Global;
use text_words::NumberFault;

/// How many bytes a region's name has at most.
const NAME_LIMIT: usize = 32;
/// How many bytes a control's name has at most.
const CONTROL_LIMIT: usize = 100;
/// How many bytes the value of a control has at most.
const VALUE_LIMIT: usize = 20;

/// Two parts of a line, or the first cause of either.
#[tactic(auto, using(crate::proofs::Causes::both_gives), unfolding(crate::specs::Causes::both))]
#[inline(always)]
pub fn both_parts<A: Drop, B: Drop>(
    a: Result<A, LineFault>,
    b: Result<B, LineFault>,
) -> Result<(A, B), LineFault>
    ensures same { result ≡ both a b }
    ensures given { (x : Result A LineFault) (y : Result B LineFault) → Gives a x → Gives b y → Gives result (both x y) }
{
    match (a, b) {
        (Ok(a), Ok(b)) => Ok((a, b)),
        (Ok(_), Err(fault)) | (Err(fault), Ok(_)) => Err(fault),
        (Err(a), Err(b)) => Err(first_fault(a, b)),
    }
}

fn first_fault(a: LineFault, b: LineFault) -> LineFault
    ensures { result ≡ first_cause a b }
{
    if a as u8 <= b as u8 { a } else { b }
}

/// Whether a word is this text.
pub fn is(word: &[u8], text: &str) -> bool
    ensures { result ≡ bytes_eq word.now text.now }
{
    word == text.as_bytes()
}

/// The name of a region: a lower-case letter and up to 31 lower-case letters, digits or `_`.
#[tactic(auto, unfolding(crate::specs::Names::name_of))]
#[inline(always)]
pub fn name(alloc: Global, word: &[u8]) -> Result<Name, LineFault>
    ensures { Gives result (name_of word.now) }
{
    if !is_region_name(word) {
        return Err(LineFault::Words);
    }
    Ok(Name::new(alloc, word)?)
}

/// Whether a word is the name of a region.
#[inline(always)]
pub fn is_region_name(word: &[u8]) -> bool
    ensures { result ≡ is_name word.now }
{
    begins_name(word) && all_name_bytes(word)
}

/// Whether a word begins as the name of a region does, and isn't longer than one.
#[inline(always)]
pub fn begins_name(word: &[u8]) -> bool
    ensures { result ≡ (is_ascii_lowercase (slice_index word.now 0) && nat_le (length word.now) 32) }
{
    !word.is_empty() && word[0].is_ascii_lowercase() && word.len() <= NAME_LIMIT
}

fn all_name_bytes(word: &[u8]) -> bool
    ensures { result ≡ list_all is_name_byte word.now }
{
    word.iter().all(|byte| is_name_byte(*byte))
}

/// Whether the name of a region may have this byte.
#[inline(always)]
pub fn is_name_byte(byte: u8) -> bool
    ensures { result ≡ is_name_byte byte }
{
    byte.is_ascii_lowercase() || byte.is_ascii_digit() || byte == b'_'
}

/// The name of a control: 1 to 100 lower-case letters, digits, `_` and `.`.
#[tactic(auto, unfolding(crate::specs::Names::control_of))]
pub fn control(alloc: Global, word: &[u8]) -> Result<Name, LineFault>
    ensures { Gives result (control_of word.now) }
{
    if !is_control(word) {
        return Err(LineFault::Words);
    }
    Ok(Name::new(alloc, word)?)
}

fn is_control(word: &[u8]) -> bool
    ensures { result ≡ is_control word.now }
{
    !word.is_empty() && word.len() <= CONTROL_LIMIT && all_control_bytes(word)
}

fn all_control_bytes(word: &[u8]) -> bool
    ensures { result ≡ list_all is_control_byte word.now }
{
    word.iter().all(|byte| is_name_byte(*byte) || *byte == b'.')
}

/// What is written to a control: any word of 1 to 20 bytes.
#[tactic(auto, unfolding(crate::specs::Names::value_of))]
pub fn written(alloc: Global, word: &[u8]) -> Result<Name, LineFault>
    ensures { Gives result (value_of word.now) }
{
    if word.is_empty() || word.len() > VALUE_LIMIT {
        return Err(LineFault::Words);
    }
    Ok(Name::new(alloc, word)?)
}

/// A decimal number, of any number of digits.
#[tactic(auto, unfolding(crate::specs::Numbers::decimal_of))]
pub fn decimal(word: &[u8]) -> Result<u64, LineFault>
    ensures { result ≡ decimal_of word.now }
{
    text_words::decimal(word).map_err(cause)
}

/// An address, of 1 to 16 lower-case hexadecimal digits.
#[tactic(auto, unfolding(crate::specs::Numbers::hexadecimal_of))]
pub fn address(word: &[u8]) -> Result<u64, LineFault>
    ensures { result ≡ hexadecimal_of word.now }
{
    text_words::hexadecimal(word).map_err(cause)
}

fn cause(fault: NumberFault) -> LineFault
    ensures { result ≡ cause_of fault }
{
    match fault {
        NumberFault::NotDigits => LineFault::Words,
        NumberFault::NotNumeral => LineFault::Number,
    }
}
