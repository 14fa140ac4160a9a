//! Pieces of a line that are laid from their last byte to their first.

ghost use Rattle.std.specs.Prelude.{◌≡◌, ◌+◌, ◌<◌, ◌≤◌, ◌∷◌, ◌++◌, false, [], drop, length};
ghost use Rattle.std.specs.Fmt.{decimal, digit_glyph};
ghost use Rattle.report_text.specs.Places.{hexadecimal};

use itoa::write_digits;
use std::marker::Model;

/// How many bytes a row has room for.
const ROW_BYTES: usize = 104;

/// The hexadecimal digits, by what they stand for.
static DIGITS: [u8; 16] = *b"0123456789abcdef";

/// The bytes that are laid so far, of which the first was laid last.
#[derive(Drop)]
pub(crate) struct Row {
    bytes: [u8; ROW_BYTES],
    first: usize,
}

impl Model for Row {
    ghost use Rattle.std.specs.Prelude.{ℕ, ◌≤◌, List, drop};

    ghost Value = { List ℕ };

    ghost view = { λ row. drop row.first row.bytes };

    ghost invariant = { λ row. row.first ≤ 104 };
}

impl Row {
    /// No bytes.
    #[inline(always)]
    pub(crate) fn new() -> Row
        ensures { result ≡ [] }
    {
        Row {
            bytes: [0; ROW_BYTES],
            first: ROW_BYTES,
        }
    }

    /// The bytes, in order.
    #[inline(always)]
    pub(crate) fn as_slice(&self) -> &[u8]
        ensures { result.now ≡ self.now }
    {
        &self.bytes[self.first..]
    }

    /// Lays one byte before the others.
    #[inline(always)]
    pub(crate) fn lay(&mut self, byte: u8)
        requires { length self.old < 104 }
        ensures { self.new ≡ byte ∷ self.old }
    {
        self.first -= 1;
        self.bytes[self.first] = byte;
    }

    /// Lays a text before the others.
    #[inline(always)]
    pub(crate) fn lay_text(&mut self, text: &[u8])
        requires { length text.now + length self.old ≤ 104 }
        ensures { self.new ≡ text.now ++ self.old }
    {
        let end = self.first;
        self.first -= text.len();
        self.bytes[self.first..end].copy_from_slice(text);
    }

    /// Lays the decimal digits of a number before the others.
    #[inline(always)]
    pub(crate) fn lay_decimal(&mut self, number: u64)
        requires { length self.old + 20 ≤ 104 }
        ensures laid { self.new ≡ decimal number ++ self.old }
        ensures room { length self.new ≤ length self.old + 20 }
    {
        self.first = write_digits(number, &mut self.bytes, self.first);
    }

    /// Lays the hexadecimal digits of a number before the others.
    #[inline(always)]
    pub(crate) fn lay_hexadecimal(&mut self, number: u64)
        requires { length self.old + 16 ≤ 104 }
        ensures laid { self.new ≡ hexadecimal number ++ self.old }
        ensures room { length self.new ≤ length self.old + 16 }
    {
        self.first = write_hexadecimal(number, &mut self.bytes, self.first);
    }
}

/// Writes a number's hexadecimal digits so that they end where `end` says, and gives where they begin.
#[inline(always)]
fn write_hexadecimal(number: u64, bytes: &mut [u8], end: usize) -> usize
    requires { (16 ≤ end) × (end ≤ length bytes.old) }
    ensures begins { (result < end) × (end ≤ result + 16) }
    ensures written { drop result bytes.new ≡ hexadecimal number ++ drop end bytes.old }
{
    let mut rest = number;
    let mut first = end - 1;
    while rest >= 16 {
        bytes[first] = digit(rest % 16);
        rest /= 16;
        first -= 1;
    }
    bytes[first] = digit(rest);
    first
}

/// The hexadecimal digit of a number below 16.
#[inline(always)]
fn digit(value: u64) -> u8
    requires { value < 16 }
    ensures { result ≡ digit_glyph false value }
{
    DIGITS[value as usize]
}
