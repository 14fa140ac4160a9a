//! The numbers that words write.

ghost use Rattle.std.specs.Prelude.{◌≡◌, ◌+◌, ◌*◌, ◌^◌, ◌<◌, ◌≤◌, true, length};
ghost use Rattle.std.specs.Char.{digit_value, is_ascii_digit};
ghost use Rattle.std.specs.List.{list_all};
ghost use Rattle.std.specs.Option.{SomeIff};
ghost use Rattle.std.specs.Str.Parse.{AllDigits, digits_value};
ghost use Rattle.text_words.specs.Numbers.{decimal_of, has_leading_zero, hexadecimal_of, is_digit_in, number_of, numeral_below, numeral_of, value_in};

use crate::NumberFault;

/// How many decimal digits fit 64 bits, whatever they are.
const SHORT_DIGITS: usize = 19;
/// How many hexadecimal digits fit 64 bits, whatever they are.
const HEXADECIMAL_DIGITS: usize = 16;

/// The number that a word of decimal digits writes, however many they are: one below 2^64 without leading zeros.
#[tactic(auto, unfolding(crate::specs::Numbers::decimal_of), using(crate::proofs::Digits::decimals_fit))]
pub fn decimal(word: &[u8]) -> Result<u64, NumberFault>
    ensures { result ≡ decimal_of word.now }
{
    if word.len() > SHORT_DIGITS {
        long_decimal(word)
    } else {
        short_number(word, 10)
    }
}

/// The number that 1 to 16 lower-case hexadecimal digits write, without leading zeros.
#[tactic(auto, unfolding(crate::specs::Numbers::hexadecimal_of), using(crate::proofs::Digits::hexadecimals_fit))]
pub fn hexadecimal(word: &[u8]) -> Result<u64, NumberFault>
    ensures { result ≡ hexadecimal_of word.now }
{
    if word.len() > HEXADECIMAL_DIGITS {
        Err(NumberFault::NotDigits)
    } else {
        short_number(word, 16)
    }
}

/// The decimal number that a word writes, if it writes one: below 2^64, without sign and without leading zeros.
pub fn number(word: &[u8]) -> Option<u64>
    ensures { result ≡ numeral_of word.now }
{
    decimal(word).ok()
}

/// The same, where it is below a limit.
pub fn number_below(word: &[u8], limit: u64) -> Option<u64>
    ensures { result ≡ numeral_below limit word.now }
{
    let number = number(word)?;
    if number < limit { Some(number) } else { None }
}

/// The number of a word of so few digits that it fits, whatever they are.
#[inline(always)]
#[tactic(auto, unfolding(crate::specs::Numbers::number_in), using(crate::proofs::Digits::all_fit))]
fn short_number(word: &[u8], radix: u64) -> Result<u64, NumberFault>
    requires radix { 10 ≤ radix }
    requires fits { radix ^ length word.now ≤ 2 ^ 64 }
    ensures { result ≡ number_of radix word.now }
{
    if word.is_empty() {
        return Err(NumberFault::NotDigits);
    }
    let value = short_value(word, radix).ok_or(NumberFault::NotDigits)?;
    if has_leading_zero(word) {
        return Err(NumberFault::NotNumeral);
    }
    Ok(value)
}

fn has_leading_zero(digits: &[u8]) -> bool
    ensures { result ≡ has_leading_zero digits.now }
{
    digits.len() > 1 && digits[0] == b'0'
}

/// What these digits stand for, if they are digits.
#[inline(always)]
fn short_value(word: &[u8], radix: u64) -> Option<u64>
    requires radix { 10 ≤ radix }
    requires fits { radix ^ length word.now ≤ 2 ^ 64 }
    ensures { SomeIff result (list_all (is_digit_in radix) word.now ≡ true) (digits_value radix word.now) }
{
    let mut value = 0;
    for byte in word {
        value = value * radix + digit(*byte, radix)?;
    }
    Some(value)
}

/// What a digit stands for: a decimal one, or in radix 16 a lower-case hexadecimal one.
#[inline(always)]
fn digit(byte: u8, radix: u64) -> Option<u64>
    ensures { SomeIff result (is_digit_in radix byte ≡ true) (digit_value byte) }
{
    match byte {
        b'0'..=b'9' => Some(u64::from(byte - b'0')),
        b'a'..=b'f' if radix == 16 => Some(u64::from(byte - b'a') + 10),
        _ => None,
    }
}

/// A decimal number that may be too large.
#[inline(never)]
#[tactic(auto, unfolding(crate::specs::Numbers::decimal_of, crate::specs::Numbers::number_in), using(crate::proofs::Digits::decimal_digits))]
fn long_decimal(word: &[u8]) -> Result<u64, NumberFault>
    requires { 0 < length word.now }
    ensures { result ≡ decimal_of word.now }
{
    if !all_digits(word) {
        return Err(NumberFault::NotDigits);
    }
    if has_leading_zero(word) {
        return Err(NumberFault::NotNumeral);
    }
    long_value(word).ok_or(NumberFault::NotNumeral)
}

fn all_digits(word: &[u8]) -> bool
    ensures { result ≡ list_all is_ascii_digit word.now }
{
    word.iter().all(|byte| byte.is_ascii_digit())
}

fn long_value(digits: &[u8]) -> Option<u64>
    requires { AllDigits 10 digits.now }
    ensures { result ≡ value_in 10 digits.now }
{
    let mut value = 0;
    for digit in digits {
        value = with_digit(value, *digit)?;
    }
    Some(value)
}

/// The number with one more digit at its end.
fn with_digit(value: u64, digit: u8) -> Option<u64>
    requires { digit_value digit < 10 }
    ensures { SomeIff result (value * 10 + digit_value digit < 2 ^ 64) (value * 10 + digit_value digit) }
{
    let digit = (digit as char).to_digit(10)?;
    value.checked_mul(10)?.checked_add(u64::from(digit))
}
