//! The values that may be written to controls, each kind by itself.

ghost use Rattle.std.specs.Prelude.{◌≡◌, ◌<◌, ◌≤◌, true, IfOk};
ghost use Rattle.std.specs.Str.{bytes_eq};
ghost use Rattle.space_model.specs.Settings.{is_decay_time};
ghost use Rattle.ctl_values.specs.Values.{address_of, box_of, chunks_of, index_of, number_below, number_of, time_of, truth_of};

use ctl_names::CtlError;
use text_words::{hexadecimal, number};

/// How many bytes a chunk has.
const CHUNK_BYTES: u64 = 2097152;

/// The most bytes by which an arena may grow.
const MOST_GROWTH: u64 = 34359738368;

/// Whether a text is this one.
fn is(text: &[u8], value: &str) -> bool
    ensures { result ≡ bytes_eq text.now value.now }
{
    text == value.as_bytes()
}

/// A number below 2^64.
pub(crate) fn number_in(text: &[u8]) -> Result<u64, CtlError>
    ensures { result ≡ number_of text.now }
{
    match number(text) {
        Some(number) => Ok(number),
        None => Err(CtlError::Einval),
    }
}

/// A number below a limit.
fn below(text: &[u8], limit: u64) -> Result<u64, CtlError>
    ensures value { result ≡ number_below limit text.now }
    ensures range { IfOk result (λ number. number < limit) }
{
    let number = number_in(text)?;
    if number < limit {
        Ok(number)
    } else {
        Err(CtlError::Einval)
    }
}

/// The index of an arena, below 2^32.
pub(crate) fn index_in(text: &[u8]) -> Result<u32, CtlError>
    ensures { result ≡ index_of text.now }
{
    Ok(below(text, 4294967296)? as u32)
}

/// A box of hooks, below 32.
pub(crate) fn box_in(text: &[u8]) -> Result<u32, CtlError>
    ensures value { result ≡ box_of text.now }
    ensures range { IfOk result (λ box_no. box_no < 32) }
{
    Ok(below(text, 32)? as u32)
}

/// `true` or `false`.
pub(crate) fn truth_in(text: &[u8]) -> Result<bool, CtlError>
    ensures { result ≡ truth_of text.now }
{
    if is(text, "true") {
        Ok(true)
    } else if is(text, "false") {
        Ok(false)
    } else {
        Err(CtlError::Einval)
    }
}

/// A decay time in milliseconds: `-1`, for never, or a number up to 1000000000.
pub(crate) fn time_in(text: &[u8]) -> Result<i64, CtlError>
    ensures value { result ≡ time_of text.now }
    ensures range { IfOk result (λ ms. is_decay_time ms ≡ true) }
{
    if is(text, "-1") {
        return Ok(-1);
    }
    let ms = below(text, 1000000001)?;
    Ok(ms as i64)
}

/// The whole chunks of a number of bytes, which is at least one chunk and at most 34359738368.
pub(crate) fn chunks_in(text: &[u8]) -> Result<u64, CtlError>
    ensures value { result ≡ chunks_of text.now }
    ensures range { IfOk result (λ chunks. (1 ≤ chunks) × (chunks ≤ 16384)) }
{
    let bytes = number_in(text)?;
    if CHUNK_BYTES <= bytes && bytes <= MOST_GROWTH {
        Ok(bytes / CHUNK_BYTES)
    } else {
        Err(CtlError::Einval)
    }
}

/// `@` and an address of 1 to 16 lower-case hexadecimal digits without leading zeros.
pub(crate) fn address_in(text: &[u8]) -> Result<u64, CtlError>
    ensures { result ≡ address_of text.now }
{
    let [b'@', digits @ ..] = text else {
        return Err(CtlError::Einval);
    };
    match hexadecimal(digits) {
        Ok(address) => Ok(address),
        Err(_) => Err(CtlError::Einval),
    }
}
