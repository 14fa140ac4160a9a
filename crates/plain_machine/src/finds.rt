//! Searches over the extents of a space.

ghost use Rattle.std.specs.Prelude.{◌≡◌, ◌+◌, ◌≤◌, ◌<◌, ◌^◌, ◌&&◌, find, IfSome};
ghost use Rattle.std.specs.List.{list_any};
ghost use Rattle.space_model.specs.Span.{pages_end, end_of, run_start, meets, chunks_of};
ghost use Rattle.space_model.specs.Part.{is_listed, is_flight, is_flight_at, listed};
ghost use Rattle.space_model.specs.Fit.{is_candidate, is_better, is_best, fit_of, fit};
ghost use Rattle.space_model.specs.Step.{is_found, is_owned, is_in_space, next_flight, is_like, is_right_of, is_left_of, neighbour, why_not};

use space_model::{CHUNK_PAGES, Part, Rest, Span, Why};

/// The client's extent in flight with just this span.
pub fn flight(parts: &[Part], client: u32, span: Span) -> Option<Part>
    ensures { result ≡ find (is_flight_at client span) parts.now }
{
    let mut all = parts.iter().copied();
    all.find(|part| part.state.is_flight_of(client) && part.span == span)
}

/// The first extent that the client has in flight.
fn first_flight(client: u32, parts: &[Part]) -> Option<Part>
    ensures { result ≡ find (λ p. is_flight client p.state) parts.now }
{
    let mut all = parts.iter().copied();
    all.find(|part| part.state.is_flight_of(client))
}

/// The span of the first extent that the client has in flight.
pub fn next_flight(client: u32, parts: &[Part]) -> Option<Span>
    ensures { result ≡ next_flight client parts.now }
{
    match first_flight(client, parts) {
        Some(part) => Some(part.span),
        None => None,
    }
}

/// The right neighbour that a merge may join to the extent.
fn right_of(part: &Part, parts: &[Part]) -> Option<Part>
    ensures { result ≡ find (is_right_of part.now) parts.now }
{
    let (mut all, end) = (parts.iter().copied(), part.span.end());
    all.find(|other| part.is_like(other) && u128::from(other.span.first) == end)
}

/// The left neighbour that a merge may join to the extent.
fn left_of(part: &Part, parts: &[Part]) -> Option<Part>
    ensures { result ≡ find (is_left_of part.now) parts.now }
{
    let (mut all, first) = (parts.iter().copied(), u128::from(part.span.first));
    all.find(|other| part.is_like(other) && other.span.end() == first)
}

/// The neighbour that a merge may join to the extent: the right one at the first try, and the left one at the first two.
pub fn neighbour(tries: u8, part: &Part, parts: &[Part]) -> Option<Part>
    ensures { result ≡ neighbour tries part.now parts.now }
{
    match tries {
        0 => right_of(part, parts).or(left_of(part, parts)),
        1 => left_of(part, parts),
        _ => None,
    }
}

/// Whether the extent is listed among those of the rest and holds the run.
fn is_candidate(rest: Rest, pages: u64, align: u64, part: &Part) -> bool
    requires { 1 ≤ align }
    ensures { result ≡ is_candidate rest pages align part.now }
{
    part.state.is_listed(rest) && part.span.run_start(align) + u128::from(pages) <= part.span.end()
}

/// Whether the first extent is smaller, or as small and at a lower page.
fn is_better(part: &Part, other: &Part) -> bool
    ensures { result ≡ is_better part.now other.now }
{
    part.span.pages < other.span.pages
        || (part.span.pages == other.span.pages && part.span.first < other.span.first)
}

/// Whether some candidate is better than the extent.
fn has_better(rest: Rest, pages: u64, align: u64, parts: &[Part], part: &Part) -> bool
    requires { 1 ≤ align }
    ensures { result ≡ list_any (λ q. is_candidate rest pages align q && is_better q part.now) parts.now }
{
    let mut all = parts.iter();
    all.any(|other| is_candidate(rest, pages, align, other) && is_better(other, part))
}

/// Whether the extent is a candidate, and no candidate is better.
fn is_best(rest: Rest, pages: u64, align: u64, parts: &[Part], part: &Part) -> bool
    requires { 1 ≤ align }
    ensures { result ≡ is_best rest pages align parts.now part.now }
{
    is_candidate(rest, pages, align, part) && !has_better(rest, pages, align, parts, part)
}

/// The best candidate among the extents of one rest.
fn fit_of(rest: Rest, pages: u64, align: u64, parts: &[Part]) -> Option<Part>
    requires { 1 ≤ align }
    ensures { result ≡ fit_of rest pages align parts.now }
{
    let mut all = parts.iter().copied();
    all.find(|part| is_best(rest, pages, align, parts, part))
}

/// The extent that serves a request: a dirty one if any fits, else a muzzy one, else a retained one.
pub fn fit(pages: u64, align: u64, parts: &[Part]) -> Option<Part>
    requires { 1 ≤ align }
    ensures { result ≡ fit pages align parts.now }
{
    fit_of(Rest::Dirty, pages, align, parts)
        .or_else(|| fit_of(Rest::Muzzy, pages, align, parts))
        .or_else(|| fit_of(Rest::Retained, pages, align, parts))
}

/// Whether two spans share a page.
fn meets(span: Span, other: Span) -> bool
    ensures { result ≡ meets span other }
{
    u128::from(span.first) < other.end() && u128::from(other.first) < span.end()
}

/// Whether some extent meets the span.
pub fn any_meets(parts: &[Part], span: Span) -> bool
    ensures { result ≡ list_any (λ p. meets p.span span) parts.now }
{
    parts.iter().any(|part| meets(part.span, span))
}

/// Whether a chunk has an owner: it was found in another arena, or an extent of this one meets it.
fn is_owned(found: Option<u64>, parts: &[Part], chunk: u64) -> bool
    requires { chunk < 2 ^ 32 }
    ensures { result ≡ is_owned found parts.now chunk }
{
    found == Some(chunk) || any_meets(parts, Span::of_chunk(chunk))
}

/// The least chunk of a span in the space that has an owner.
fn owned_chunk(found: Option<u64>, parts: &[Part], span: Span) -> Option<u64>
    requires { end_of span ≤ pages_end }
    ensures least { result ≡ find (is_owned found parts.now) (chunks_of span) }
    ensures bound { IfSome result (λ chunk. chunk < 2 ^ 32) }
{
    let low = span.first / CHUNK_PAGES;
    let high = (span.first + span.pages).div_ceil(CHUNK_PAGES);
    (low..high).find(|chunk| is_owned(found, parts, *chunk))
}

/// Why an answered span can't be taken, or none.
pub fn why_not(found: Option<u64>, align: u64, parts: &[Part], span: Span) -> Option<Why>
    requires { 1 ≤ align }
    ensures { result ≡ why_not found align parts.now span }
{
    if !span.is_in_space() {
        return Some(Why::OffSpace);
    }
    if span.first % align != 0 {
        return Some(Why::Unaligned);
    }
    let chunk = owned_chunk(found, parts, span)?;
    Some(Why::Meets(Span::of_chunk(chunk)))
}
