//! Words that are put behind a text.

ghost use Rattle.std.specs.Prelude.{◌≡◌, ◌∷◌, ◌++◌, map, OnOk};
ghost use Rattle.std.specs.Fmt.{decimal, signed_decimal};
ghost use Rattle.journal.specs.Entries.{spaced, token_word};

use crate::labels::Label;
use itoa::Buffer;
use std::alloc::AllocError as NoMemory;

/// A word of an entry's text.
#[derive(Clone, Copy)]
pub enum Token {
    /// A word that isn't a number.
    Word(Label),
    /// A number.
    Number(u64),
    /// A truth value.
    Flag(bool),
    /// A number that may be absent.
    Maybe(Option<u64>),
    /// A time.
    Time(i64),
}

/// The digits of a number, behind the others.
pub fn put_number(out: &mut Vec<u8>, number: u64) -> Result<(), NoMemory>
    ensures { OnOk result (out.new.items ≡ out.old.items ++ decimal number) }
{
    let mut buffer = Buffer::new();
    out.extend_from_slice(buffer.format(number).as_bytes())
}

/// The digits of a time, behind the others.
fn put_time(out: &mut Vec<u8>, time: i64) -> Result<(), NoMemory>
    ensures { OnOk result (out.new.items ≡ out.old.items ++ signed_decimal time) }
{
    let mut buffer = Buffer::new();
    out.extend_from_slice(buffer.format(time).as_bytes())
}

/// One word behind a space.
pub fn put(out: &mut Vec<u8>, token: Token) -> Result<(), NoMemory>
    ensures { OnOk result (out.new.items ≡ out.old.items ++ 32 ∷ token_word token) }
{
    out.push(b' ')?;
    match token {
        Token::Word(label) => out.extend_from_slice(label.text().as_bytes()),
        Token::Number(number) => put_number(out, number),
        Token::Flag(true) => out.extend_from_slice("1".as_bytes()),
        Token::Flag(false) => out.extend_from_slice("0".as_bytes()),
        Token::Maybe(None) => out.extend_from_slice("-".as_bytes()),
        Token::Maybe(Some(number)) => put_number(out, number),
        Token::Time(time) => put_time(out, time),
    }
}

/// Words, each behind a space.
#[tactic(auto)]
pub fn put_all(out: &mut Vec<u8>, tokens: &[Token]) -> Result<(), NoMemory>
    ensures { OnOk result (out.new.items ≡ out.old.items ++ spaced (map token_word tokens.now)) }
{
    for token in tokens {
        put(out, *token)?;
    }
    Ok(())
}

/// Numbers, each behind a space.
pub fn put_numbers(out: &mut Vec<u8>, numbers: &[u64]) -> Result<(), NoMemory>
    ensures { OnOk result (out.new.items ≡ out.old.items ++ spaced (map decimal numbers.now)) }
{
    for number in numbers {
        put(out, Token::Number(*number))?;
    }
    Ok(())
}
