//! How a large region is resized in place.

ghost use Rattle.std.specs.Prelude.{◌≡◌, ◌==◌, ◌&&◌, ◌+◌, ◌≤◌, ◌<◌, ◌^◌, All, IfOk, OnOk, OnErr, IsTrue, Some, find, filter, not};
ghost use Rattle.std.specs.List.{list_any};
ghost use Rattle.space_model.specs.Span.{has_page, same_span};
ghost use Rattle.space_model.specs.Region.{address_of, houses, starts_at};
ghost use Rattle.space_model.specs.Resizing.{is_large_class, is_large_at, large_home, has_large, reclassed, is_spare, is_open, widen_at, after_widen, widen_stands, widened_at, after_join, join_stands, after_trim, trim_stands, trimmed_at, after_trim_done, trim_done_stands};
ghost use Rattle.space_model.specs.Stepped.{IsMade};
ghost use Rattle.space_model.specs.Sound.{Sound};

use crate::Replied;
use crate::finds::flight;
use crate::frees::{exchange_both, houses, joined};
use crate::moves::{exchange, put_whole, replace, taken_out};
use crate::slabs::insert;
use crate::stands::{is_held_by, is_yes_or_no};
use size_classes::{CLASSES, PAGE_BYTES, SMALL_CLASSES, class_pages};
use space_model::{
    Answer, Ask, CHUNK_PAGES, CHUNKS, Heard, Part, Region, Regions, Reply, Seq, Space, Span,
};
use std::alloc::AllocError as NoMemory;

/// Whether the class is large.
fn is_large_class(class: u8) -> bool
    ensures { result ≡ is_large_class class }
{
    SMALL_CLASSES <= class && class < CLASSES
}

/// The address of a page's first byte.
fn address_of(page: u64) -> u128
    ensures { result ≡ address_of page }
{
    u128::from(PAGE_BYTES) * u128::from(page)
}

/// The client's large region at an address.
fn large_at(space: &Space, client: u32, addr: u128) -> Option<Region>
    ensures { result ≡ find (is_large_at client addr) space.now.regions }
{
    let mut all = space.regions.as_slice().iter().copied();
    all.find(|region| {
        is_held_by(client, region)
            && u128::from(region.addr) == addr
            && SMALL_CLASSES <= region.class
    })
}

/// The extent that serves a region.
fn home_of(space: &Space, region: &Region) -> Option<Part>
    ensures { result ≡ find (λ p. houses p region.now) space.now.parts }
{
    let mut all = space.parts.as_slice().iter().copied();
    all.find(|part| houses(part, region))
}

/// The client's large region at an address, with the extent that serves it.
fn large_home(space: &Space, client: u32, addr: u128) -> Option<(Region, Part)>
    ensures { result ≡ large_home space.now client addr }
{
    let region = large_at(space, client, addr)?;
    let part = home_of(space, &region)?;
    Some((region, part))
}

/// The regions after one has taken another class.
fn reclassed(region: Region, class: u8, regions: &Regions) -> Result<Vec<Region>, NoMemory>
    ensures { IfOk result (λ all. all.items ≡ reclassed region class regions.now) }
{
    let (alloc, all) = (regions.alloc(), regions.as_slice().iter().copied());
    let mut all: Vec<Region> = all
        .filter(|other| other.addr != region.addr)
        .collect(alloc)?;
    insert(&mut all, Region { class, ..region })?;
    Ok(all)
}

/// Whether the client has a large region at the address in an extent of fewer pages.
pub fn widen_stands(space: &Space, client: u32, addr: u64, pages: u64) -> bool
    ensures { result ≡ widen_stands space.now client addr pages }
{
    let home = large_home(space, client, u128::from(addr));
    matches!(home, Some((_, part)) if part.span.pages < pages)
}

/// The extent that is unused, begins at the page and has so many pages.
fn spare(space: &Space, page: u128, pages: u64) -> Option<Part>
    ensures { result ≡ find (is_spare page pages) space.now.parts }
{
    let mut all = space.parts.as_slice().iter().copied();
    all.find(|part| {
        part.state.is_unused() && u128::from(part.span.first) == page && pages <= part.span.pages
    })
}

/// Whether some extent has the page.
fn any_has(parts: &[Part], page: u128) -> bool
    ensures { result ≡ list_any (λ p. has_page page p.span) parts.now }
{
    let mut all = parts.iter();
    all.any(|part| u128::from(part.span.first) <= page && page < part.span.end())
}

/// Whether a chunk begins at the page, in the space, and no extent has the page.
fn is_open(space: &Space, page: u128) -> bool
    ensures { result ≡ is_open space.now.parts page }
{
    page % u128::from(CHUNK_PAGES) == 0
        && page < u128::from(CHUNK_PAGES * (CHUNKS + 1))
        && !any_has(space.parts.as_slice(), page)
}

/// Looks for the pages that a region's extent lacks.
fn widen_at(space: &mut Space, client: u32, pages: u64, home: (Region, Part)) -> Replied
    requires { home.1.span.pages ≤ pages }
    ensures { IsMade space.old space.new result (widen_at space.old client pages (Some home)) }
{
    let span = home.1.span;
    let page = span.end();
    if let Some(other) = spare(space, page, pages - span.pages) {
        let reply = Reply::Took {
            span: other.span,
            committed: other.committed,
            skip: 0,
        };
        return replace(space, &other, &[taken_out(client, other)], reply);
    }
    if is_open(space, page) {
        return Ok(Reply::Noted);
    }
    Ok(Reply::Nothing)
}

/// Looks for pages behind a large region.
pub fn widen(space: &mut Space, client: u32, addr: u64, pages: u64) -> Replied
    requires stands { IsTrue (widen_stands space.old client addr pages) }
    requires sound { Sound space.old }
    ensures { IsMade space.old space.new result (after_widen space.old client addr pages) }
{
    match large_home(space, client, u128::from(addr)) {
        Some(home) => widen_at(space, client, pages, home),
        None => Ok(Reply::Noted),
    }
}

/// Whether the client has a large region at the start of the span, whose extent has just this span.
fn has_large(space: &Space, client: u32, span: Span) -> bool
    ensures { result ≡ has_large space.now client (address_of span.first) (λ p. same_span p.span span) }
{
    matches!(large_home(space, client, address_of(span.first)), Some((_, part)) if part.span == span)
}

/// Whether the answer to a merge with the extent behind a large region may be taken in.
pub fn join_stands(space: &Space, client: u32, heard: Heard, class: u8) -> bool
    ensures { result ≡ join_stands space.now client class heard.ask heard.answer }
{
    let Ask::Merge { low, high } = heard.ask else {
        return false;
    };
    is_yes_or_no(heard.answer)
        && is_large_class(class)
        && u128::from(low.pages) + u128::from(high.pages) == u128::from(class_pages(class))
        && low.end() == u128::from(high.first)
        && has_large(space, client, low)
        && matches!(flight(space.parts.as_slice(), client, high), Some(part) if part.committed)
}

/// Two extents are one from now on, and the region takes the class.
fn widen_by(space: &mut Space, class: u8, region: Region, low: &Part, high: &Part) -> Replied
    requires { low.now.span.pages + high.now.span.pages < 2 ^ 64 }
    ensures { IsMade space.old space.new result (widened_at space.old class (Some (region, low.now)) (Some high.now)) }
{
    let regions = reclassed(region, class, &space.regions)?;
    let both = joined(low, high);
    exchange_both(&mut space.parts, low, high, both)?;
    space.regions = Seq::from_vec(regions);
    Ok(Reply::Landed {
        first: region.addr,
        count: 1,
    })
}

/// Takes in the answer to a merge of a large region's extent with the extent in flight behind it.
pub fn join_done(space: &mut Space, client: u32, heard: Heard, class: u8) -> Replied
    requires stands { IsTrue (join_stands space.old client class heard.ask heard.answer) }
    requires sound { Sound space.old }
    ensures { IsMade space.old space.new result (after_join space.old client class heard.ask heard.answer) }
{
    let Ask::Merge { low, high } = heard.ask else {
        return Ok(Reply::Noted);
    };
    let found = flight(space.parts.as_slice(), client, high);
    if heard.answer == Answer::Refused {
        return put_whole(space, found);
    }
    let home = large_home(space, client, address_of(low.first));
    let (Some((region, low)), Some(high)) = (home, found) else {
        return Ok(Reply::Noted);
    };
    widen_by(space, class, region, &low, &high)
}

/// Whether the client may begin to shrink its large region at the address.
pub fn trim_stands(space: &Space, client: u32, addr: u64, class: u8) -> bool
    ensures { result ≡ trim_stands space.now client addr class }
{
    let home = large_home(space, client, u128::from(addr));
    is_large_class(class)
        && !space.trims.contains(client)
        && matches!(home, Some((_, part)) if class_pages(class) < part.span.pages)
}

/// The client begins to shrink a large region.
pub fn trim(space: &mut Space, client: u32) -> Reply
    requires { client < 32 }
    ensures after { space.new ≡ (after_trim space.old client).after }
    ensures reply { result ≡ (after_trim space.old client).reply }
{
    space.trims.add(client);
    Reply::Noted
}

/// Whether the answer to a split of a large region's extent may be taken in.
pub fn trim_done_stands(space: &Space, client: u32, heard: Heard, class: u8) -> bool
    ensures { result ≡ trim_done_stands space.now client class heard.ask heard.answer }
{
    let Ask::Split { span, left } = heard.ask else {
        return false;
    };
    is_yes_or_no(heard.answer)
        && space.trims.contains(client)
        && is_large_class(class)
        && left == class_pages(class)
        && left < span.pages
        && has_large(space, client, span)
}

/// The extent is two from now on: the low one serves the region, which takes the class, and the high one is in flight.
fn cut_off(
    space: &mut Space,
    client: u32,
    left: u64,
    class: u8,
    region: Region,
    part: Part,
) -> Replied
    requires cut { left ≤ part.span.pages }
    requires fits { part.span.first + part.span.pages < 2 ^ 64 }
    ensures { IsMade space.old space.new result (trimmed_at space.old client left class (Some (region, part))) }
{
    let regions = reclassed(region, class, &space.regions)?;
    let low = part.low_piece(left);
    let high = taken_out(client, part.high_piece(left));
    exchange(&mut space.parts, part.span.first, &[low, high])?;
    space.regions = Seq::from_vec(regions);
    Ok(Reply::Cut(high.span))
}

/// Takes in the answer to a split of a large region's extent, which ends the client's shrinking.
#[tactic(auto, using(crate::proofs::Bounds::home_placed))]
pub fn trim_done(space: &mut Space, client: u32, heard: Heard, class: u8) -> Replied
    requires stands { IsTrue (trim_done_stands space.old client class heard.ask heard.answer) }
    requires sound { Sound space.old }
    ensures { IsMade space.old space.new result (after_trim_done space.old client class heard.ask heard.answer) }
{
    let reply = match (heard.ask, heard.answer) {
        (Ask::Split { span, left }, Answer::Done) => {
            match large_home(space, client, address_of(span.first)) {
                Some((region, part)) => cut_off(space, client, left, class, region, part)?,
                None => Reply::Noted,
            }
        }
        (Ask::Split { .. }, Answer::Refused) => Reply::Whole,
        _ => Reply::Noted,
    };
    space.trims.remove(client);
    Ok(reply)
}
