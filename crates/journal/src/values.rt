//! What single words say.

ghost use Rattle.std.specs.Prelude.{◌≡◌, ◌^◌, option_and_then};
ghost use Rattle.std.specs.Str.{bytes_eq};
ghost use Rattle.text_words.specs.Numbers.{numeral_below, numeral_of};
ghost use Rattle.journal.specs.Fields.{flag_of, maybe_of, negative, signed_of};

use text_words::number;

/// The number of a word, if it is one of 32 bits.
#[tactic(auto)]
pub fn int(word: &[u8]) -> Option<u32>
    ensures { result ≡ numeral_below (2 ^ 32) word.now }
{
    let n = number(word)?;
    u32::try_from(n).ok()
}

/// The number of a word, if it is one of 8 bits.
#[tactic(auto)]
pub fn byte(word: &[u8]) -> Option<u8>
    ensures { result ≡ numeral_below (2 ^ 8) word.now }
{
    let n = number(word)?;
    u8::try_from(n).ok()
}

/// The truth value of a word.
#[tactic(auto, unfolding(crate::specs::Fields::flag_of))]
pub fn flag(word: &[u8]) -> Option<bool>
    ensures { result ≡ flag_of word.now }
{
    if is(word, "1") {
        Some(true)
    } else if is(word, "0") {
        Some(false)
    } else {
        None
    }
}

/// The number of a word, or the sign of absence.
#[tactic(auto, unfolding(crate::specs::Fields::maybe_of))]
pub fn maybe(word: &[u8]) -> Option<Option<u64>>
    ensures { result ≡ maybe_of word.now }
{
    if is(word, "-") {
        return Some(None);
    }
    let n = number(word)?;
    Some(Some(n))
}

/// The time of a word.
#[tactic(auto, unfolding(crate::specs::Fields::signed_of))]
pub fn time(word: &[u8]) -> Option<i64>
    ensures { result ≡ signed_of word.now }
{
    let [first, digits @ ..] = word else {
        return None;
    };
    if *first == b'-' {
        below_zero(digits)
    } else {
        let n = number(word)?;
        i64::try_from(n).ok()
    }
}

/// The time below zero with these digits.
fn below_zero(digits: &[u8]) -> Option<i64>
    ensures { result ≡ option_and_then negative (numeral_of digits.now) }
{
    let n = number(digits)?;
    if n == 0 || n > 1 << 63 {
        return None;
    }
    Some(-1 - (n - 1) as i64)
}

/// Whether a word is this text.
fn is(word: &[u8], text: &str) -> bool
    ensures { result ≡ bytes_eq word.now text.now }
{
    word == text.as_bytes()
}
