//! What resizing a large region in place does to the indexes.

ghost use Rattle.std.specs.Prelude.{◌≡◌, ◌==◌, ℕ, ◌+◌, ◌<◌, ◌≤◌, ◌^◌, true, not, find, filter, count_by, All, IsTrue, Some};
ghost use Rattle.space_model.specs.Span.{end_of, same_span};
ghost use Rattle.space_model.specs.Region.{address_of, inserted, starts_at};
ghost use Rattle.space_model.specs.Counts.{region_bytes};
ghost use Rattle.space_model.specs.Resizing.{after_join, after_trim, after_trim_done, after_widen, has_large, is_open, is_spare, join_stands, large_home, trim_answered, trim_done_stands, trimmed_at, widen_by, widen_stands, widened_at};
ghost use Rattle.space_model.specs.Step.{holds_at};
ghost use Rattle.space_model.specs.Sound.{Sound};
ghost use Rattle.part_book.specs.Books.{IsThere};
ghost use Rattle.arena_core.specs.Indexes.{Does, HasPlaces, Takes, space_of};

use crate::indexes::Indexes;
use crate::moves::put_whole;
use part_book::PartBook;
use size_classes::PAGE_BYTES;
use space_model::{Answer, Ask, CHUNK_PAGES, CHUNKS, Heard, Part, Reply, Rest, Span, State};

/// Whether a chunk begins at the page, in the space, and no extent has the page.
#[tactic(auto, using(list_facts::proofs::Members::is_some_find))]
fn is_open(extents: &PartBook, page: u64) -> bool
    ensures { result ≡ is_open extents.now.parts page }
{
    page % CHUNK_PAGES == 0 && page < CHUNK_PAGES * (CHUNKS + 1) && extents.holding(page).is_none()
}

/// Takes the unused extent that begins at a page out of its list, if it has so many pages.
fn widen_by(indexes: &mut Indexes, client: u32, page: u64, lacking: u64) -> Reply
    ensures { Does indexes.old indexes.new indexes.old.regions.slabs
        (widen_by (space_of indexes.old) client page (find (is_spare page lacking) (space_of indexes.old).parts)) result }
{
    let Some(part) = indexes.extents.spare_at(page, lacking) else {
        return if is_open(&indexes.extents, page) {
            Reply::Noted
        } else {
            Reply::Nothing
        };
    };
    let state = State::Flight(client, part.state.rest());
    indexes.extents.change(&part, state, part.committed);
    Reply::Took {
        span: part.span,
        committed: part.committed,
        skip: 0,
    }
}

/// Looks for pages behind a large region of the client.
pub fn widen(indexes: &mut Indexes, client: u32, addr: u64, pages: u64) -> Reply
    requires stands { IsTrue (widen_stands (space_of indexes.old) client addr pages) }
    requires sound { Sound (space_of indexes.old) }
    ensures { Does indexes.old indexes.new indexes.old.regions.slabs
        (after_widen (space_of indexes.old) client addr pages) result }
{
    let part = indexes.extents.at(addr / PAGE_BYTES);
    let end = part.span.first + part.span.pages;
    widen_by(indexes, client, end, pages - part.span.pages)
}

/// Joins an extent to the one of the client's large region at the page where that begins, and the region takes the class.
fn join_home(indexes: &mut Indexes, client: u32, low: Span, high: &Part, class: u8) -> Reply
    requires client { client < 32 }
    requires home { has_large (space_of indexes.old) client (address_of low.first) (λ p. same_span p.span low) ≡ true }
    requires there { IsThere (space_of indexes.old).parts high.now }
    requires beside { end_of low ≡ high.now.span.first }
    requires large { 36 ≤ class }
    requires class { class < 121 }
    requires sound { Sound (space_of indexes.old) }
    ensures { Does indexes.old indexes.new indexes.old.regions.slabs
        (widened_at (space_of indexes.old) class (large_home (space_of indexes.old) client (address_of low.first)) (Some high.now)) result }
{
    let part = indexes.extents.at(low.first);
    let first = PAGE_BYTES * low.first;
    indexes.extents.merge(&part, high);
    indexes.regions.reclass(client, low.first, class);
    Reply::Landed { first, count: 1 }
}

/// Takes in the answer to a merge of a large region's extent with the extent in flight behind it.
pub fn join_done(indexes: &mut Indexes, client: u32, heard: Heard, class: u8) -> Reply
    requires client { client < 32 }
    requires stands { IsTrue (join_stands (space_of indexes.old) client class heard.ask heard.answer) }
    requires sound { Sound (space_of indexes.old) }
    ensures { Does indexes.old indexes.new indexes.old.regions.slabs
        (after_join (space_of indexes.old) client class heard.ask heard.answer) result }
{
    let Ask::Merge { low, high } = heard.ask else {
        return Reply::Noted;
    };
    match (heard.answer, indexes.extents.flight(client, high)) {
        (Answer::Done, Some(part)) => join_home(indexes, client, low, &part, class),
        (Answer::Refused, found) => put_whole(indexes, found),
        _ => Reply::Noted,
    }
}

/// The client begins to shrink a large region.
pub fn trim(indexes: &mut Indexes, client: u32) -> Reply
    requires client { client < 32 }
    ensures { Does indexes.old indexes.new indexes.old.regions.slabs (after_trim (space_of indexes.old) client) result }
{
    indexes.trims.add(client);
    Reply::Noted
}

/// Cuts the pages behind the first `left` off the extent of the client's large region at a page, which takes the class. They
/// are in flight.
fn cut_home(indexes: &mut Indexes, client: u32, span: Span, left: u64, class: u8) -> Reply
    requires client { client < 32 }
    requires home { has_large (space_of indexes.old) client (address_of span.first) (λ p. same_span p.span span) ≡ true }
    requires room { HasPlaces indexes.old 1 }
    requires some { 0 < left }
    requires fewer { left < span.pages }
    requires large { 36 ≤ class }
    requires class { class < 121 }
    requires sound { Sound (space_of indexes.old) }
    ensures does { Takes indexes.old indexes.new indexes.old.regions.slabs
        (trimmed_at (space_of indexes.old) client left class (large_home (space_of indexes.old) client (address_of span.first))) result }
    ensures trims { indexes.new.trims ≡ indexes.old.trims }
{
    let part = indexes.extents.at(span.first);
    let state = State::Flight(client, part.state.rest());
    indexes.extents.cut_off(&part, left, state);
    indexes.regions.reclass(client, span.first, class);
    Reply::Cut(Span {
        first: span.first + left,
        pages: span.pages - left,
    })
}

/// What the answer to a split of a large region's extent does, but that the client is done with shrinking.
fn trim_answered(indexes: &mut Indexes, client: u32, heard: Heard, class: u8) -> Reply
    requires client { client < 32 }
    requires stands { IsTrue (trim_done_stands (space_of indexes.old) client class heard.ask heard.answer) }
    requires sound { Sound (space_of indexes.old) }
    requires room { HasPlaces indexes.old 1 }
    ensures does { Takes indexes.old indexes.new indexes.old.regions.slabs
        (trim_answered (space_of indexes.old) client class heard.ask heard.answer) result }
    ensures trims { indexes.new.trims ≡ indexes.old.trims }
{
    let Ask::Split { span, left } = heard.ask else {
        return Reply::Noted;
    };
    match heard.answer {
        Answer::Done => cut_home(indexes, client, span, left, class),
        Answer::Refused => Reply::Whole,
        Answer::Placed { .. } => Reply::Noted,
    }
}

/// Takes in the answer to a split of a large region's extent, which ends the client's shrinking.
pub fn trim_done(indexes: &mut Indexes, client: u32, heard: Heard, class: u8) -> Reply
    requires client { client < 32 }
    requires stands { IsTrue (trim_done_stands (space_of indexes.old) client class heard.ask heard.answer) }
    requires sound { Sound (space_of indexes.old) }
    requires room { HasPlaces indexes.old 1 }
    ensures { Takes indexes.old indexes.new indexes.old.regions.slabs
        (after_trim_done (space_of indexes.old) client class heard.ask heard.answer) result }
{
    let reply = trim_answered(indexes, client, heard, class);
    indexes.trims.remove(client);
    reply
}
