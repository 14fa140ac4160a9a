//! What is read of one extent: its pages, and its keys in the ordered sets.
ghost use Rattle.std.specs.Prelude.{◌≡◌, ◌-◌, ◌+◌, ◌*◌, ◌/◌, ◌%◌, ◌<◌, ◌≤◌, ℕ, Some, IfSome};
ghost use Rattle.space_model.specs.Span.{IsPlaced, end_of, holds_run};
ghost use Rattle.part_book.specs.Rows.{first_key, key_span, rank, rank_of, size_key};

use ordered_set::Key;
use space_model::{Part, Rest, Span, State};

/// Two numbers below this are packed in one, as its two digits.
pub const RADIX: u64 = 1 << 32;

/// The page after the last one of a span of the space.
pub fn end_of(span: Span) -> u64
    requires { IsPlaced span }
    ensures { result ≡ end_of span }
{
    span.first + span.pages
}

/// The key of an extent among the first pages.
pub fn first_key(number: u32, span: Span) -> Key
    ensures { result ≡ record { major = span.first; minor = number } }
{
    Key {
        major: span.first,
        minor: u64::from(number),
    }
}

/// Where the extents of a rest stand among the unused ones.
pub fn rank(rest: Rest) -> u64
    ensures value { result ≡ rank rest }
    ensures small { result < 3 }
{
    match rest {
        Rest::Dirty => 0,
        Rest::Muzzy => 1,
        Rest::Retained => 2,
    }
}

// Where an extent in a state stands, if it is unused.
fn rank_of(state: State) -> Option<u64>
    ensures value { result ≡ rank_of state }
    ensures small { IfSome result (λ r. r < 3) }
{
    match state {
        State::Dirty => Some(0),
        State::Muzzy => Some(1),
        State::Retained => Some(2),
        State::Active => None,
        State::Flight(_, _) => None,
    }
}

/// The key of an extent among the unused ones, if it is one.
pub fn size_key(number: u32, part: &Part) -> Option<Key>
    requires { IsPlaced part.now.span }
    ensures { result ≡ size_key (record { number = number; part = part.now }) }
{
    let rank = rank_of(part.state)?;
    Some(Key {
        major: rank * RADIX + part.span.pages,
        minor: part.span.first * RADIX + u64::from(number),
    })
}

// How many pages lie between a page and the next multiple of the alignment.
fn pages_to_multiple(page: u64, align: u64) -> u64
    requires { 0 < align }
    ensures multiple { (k : ℕ) × (k * align ≡ page + result) }
    ensures least { (k : ℕ) → page ≤ k * align → page + result ≤ k * align }
{
    let over = page % align;
    if over == 0 { 0 } else { align - over }
}

/// Whether an unused extent, given by its key, holds a run of pages.
pub fn holds_run(key: Key, pages: u64, align: u64) -> bool
    requires { 0 < align }
    ensures { result ≡ holds_run pages align (key_span key) }
{
    let held = key.major % RADIX;
    let skipped = pages_to_multiple(key.minor / RADIX, align);
    skipped <= held && pages <= held - skipped
}
