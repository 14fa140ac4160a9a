//! The numbers of a line that have a range of their own, each by its place in the line.

ghost use Rattle.std.specs.Prelude.{◌≡◌};
ghost use Rattle.trace_text.specs.Ranges.{client_of, box_of, index_of, time_of, nth_of, rounds_of};

use crate::LineFault;
use crate::parts::{decimal, is};

/// The highest client.
const LAST_CLIENT: u64 = 31;
/// The highest box.
const LAST_BOX: u64 = 31;
/// The highest index of an arena.
const LAST_INDEX: u64 = 4_294_967_295;
/// The longest time, in milliseconds.
const LONGEST_TIME: u64 = 1_000_000_000;

/// The most rounds of a background worker.
const MOST_ROUNDS: u64 = 1000;

/// A client: `t` and its number, from 0 to 31.
#[tactic(auto, unfolding(crate::specs::Ranges::client_of))]
pub fn client(word: &[u8]) -> Result<u32, LineFault>
    ensures { result ≡ client_of word.now }
{
    let [b't', digits @ ..] = word else {
        return Err(LineFault::Words);
    };
    let client = decimal(digits)?;
    if client > LAST_CLIENT {
        return Err(LineFault::Threads);
    }
    Ok(client as u32)
}

/// A box, from 0 to 31.
#[tactic(auto, unfolding(crate::specs::Ranges::box_of))]
pub fn box_number(word: &[u8]) -> Result<u32, LineFault>
    ensures { result ≡ box_of word.now }
{
    let box_no = decimal(word)?;
    if box_no > LAST_BOX {
        return Err(LineFault::Range);
    }
    Ok(box_no as u32)
}

/// The index of an arena, or of an explicit cache.
#[tactic(auto, unfolding(crate::specs::Ranges::index_of))]
pub fn index(word: &[u8]) -> Result<u32, LineFault>
    ensures { result ≡ index_of word.now }
{
    let index = decimal(word)?;
    if index > LAST_INDEX {
        return Err(LineFault::Range);
    }
    Ok(index as u32)
}

/// A time, in milliseconds: `-1`, which is no end, or a number up to 1000000000.
#[tactic(auto, unfolding(crate::specs::Ranges::time_of))]
pub fn time(word: &[u8]) -> Result<i64, LineFault>
    ensures { result ≡ time_of word.now }
{
    if is(word, "-1") {
        return Ok(-1);
    }
    let ms = decimal(word)?;
    if ms > LONGEST_TIME {
        return Err(LineFault::Range);
    }
    Ok(ms as i64)
}

/// Which ask a plan refuses: a number from 1 on, or 0 for `all`.
#[tactic(auto, unfolding(crate::specs::Ranges::nth_of))]
pub fn nth(word: &[u8]) -> Result<u64, LineFault>
    ensures { result ≡ nth_of word.now }
{
    if is(word, "all") {
        return Ok(0);
    }
    let nth = decimal(word)?;
    if nth == 0 {
        return Err(LineFault::Range);
    }
    Ok(nth)
}

/// How many rounds the background worker of a phase makes, from 1 to 1000.
#[tactic(auto, unfolding(crate::specs::Ranges::rounds_of))]
pub fn rounds(word: &[u8]) -> Result<u32, LineFault>
    ensures { result ≡ rounds_of word.now }
{
    let rounds = decimal(word)?;
    if rounds == 0 || rounds > MOST_ROUNDS {
        return Err(LineFault::Range);
    }
    Ok(rounds as u32)
}
