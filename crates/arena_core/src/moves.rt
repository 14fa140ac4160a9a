//! What the operations of a malloc do to the indexes.

ghost use Rattle.std.specs.Prelude.{◌≡◌, ℕ, ◌+◌, ◌-◌, ◌*◌, ◌≤◌, ◌<◌, ◌^◌, false, true, IsTrue, Some, find, IfSome};
ghost use Rattle.std.specs.List.{range_with_len};
ghost use Rattle.space_model.specs.Span.{IsPlaced, pages_end, end_of, run_start, chunks_of};
ghost use Rattle.space_model.specs.Part.{is_flight_at};
ghost use Rattle.space_model.specs.Step.{cut_stands, grow_stands, land_stands, land_at, after_look, after_cut, after_grow, after_commit, cut_at, whole_at, is_found, is_owned, is_in_space, is_live, why_not, grow_after};
ghost use Rattle.space_model.specs.Sound.{Sound};
ghost use Rattle.part_book.specs.Books.{IsThere};
ghost use Rattle.arena_core.specs.Indexes.{Does, HasPlaces, Takes, space_of};
ghost use Rattle.region_book.specs.RegionLists.{CanBeSlab};
ghost use Rattle.region_book.specs.Slabs.{slabs_landed};

use crate::indexes::Indexes;
use part_book::PartBook;
use size_classes::PAGE_BYTES;
use space_model::{
    Answer, Ask, CHUNK_PAGES, Heard, MAX_SERIES, Part, Reply, Rest, Span, State, Why,
};

/// Looks for the extent that serves a request, and takes it out of its list.
pub fn look(indexes: &mut Indexes, client: u32, pages: u64, align: u64) -> Reply
    requires some { 0 < pages }
    requires aligned { 0 < align }
    requires sound { Sound (space_of indexes.old) }
    ensures { Does indexes.old indexes.new indexes.old.regions.slabs
        (after_look (space_of indexes.old) client pages align) result }
{
    if !indexes.life.is_live() {
        return Reply::NoArena;
    }
    let Some(part) = indexes.extents.fit(pages, align) else {
        return Reply::Grow {
            series: indexes.grow.min(indexes.grow_limit),
        };
    };
    let state = State::Flight(client, part.state.rest());
    indexes.extents.change(&part, state, part.committed);
    Reply::Took {
        span: part.span,
        committed: part.committed,
        skip: (part.span.run_start(align) - u128::from(part.span.first)) as u64,
    }
}

/// An extent in flight whose hook refused is put down whole.
pub fn put_whole(indexes: &mut Indexes, found: Option<Part>) -> Reply
    requires { IfSome found (IsThere (space_of indexes.old).parts) }
    ensures { Does indexes.old indexes.new indexes.old.regions.slabs (whole_at (space_of indexes.old) found) result }
{
    let Some(part) = found else {
        return Reply::Noted;
    };
    let state = part.state.rest().state();
    indexes.extents.change(&part, state, part.committed);
    Reply::Whole
}

/// An extent in flight is two from now on: the piece that stays in flight comes last, behind the other one, which is put
/// down.
fn cut(indexes: &mut Indexes, part: &Part, left: u64, keep_low: bool) -> Reply
    requires there { IsThere (space_of indexes.old).parts part.now }
    requires room { HasPlaces indexes.old 1 }
    requires placed { IsPlaced part.now.span }
    requires some { 0 < left }
    requires fewer { left < part.now.span.pages }
    ensures { Takes indexes.old indexes.new indexes.old.regions.slabs
        (cut_at (space_of indexes.old) keep_low left (Some part.now)) result }
{
    indexes.extents.split(part, left, keep_low);
    let kept = if keep_low {
        Span {
            first: part.span.first,
            pages: left,
        }
    } else {
        Span {
            first: part.span.first + left,
            pages: part.span.pages - left,
        }
    };
    Reply::Cut(kept)
}

/// Takes in the answer to a split.
#[tactic(auto, using(crate::proofs::RoomSums::taken))]
pub fn cut_done(indexes: &mut Indexes, client: u32, heard: Heard, keep_low: bool) -> Reply
    requires stands { IsTrue (cut_stands (space_of indexes.old) client heard.ask heard.answer) }
    requires sound { Sound (space_of indexes.old) }
    requires room { HasPlaces indexes.old 1 }
    ensures { Takes indexes.old indexes.new indexes.old.regions.slabs
        (after_cut (space_of indexes.old) client keep_low heard.ask heard.answer) result }
{
    let Ask::Split { span, left } = heard.ask else {
        return Reply::Noted;
    };
    match (heard.answer, indexes.extents.flight(client, span)) {
        (Answer::Done, Some(part)) => cut(indexes, &part, left, keep_low),
        (Answer::Refused, found) => put_whole(indexes, found),
        _ => Reply::Noted,
    }
}

/// Takes in the answer to a commit.
pub fn commit_done(indexes: &mut Indexes, client: u32, heard: Heard) -> Reply
    ensures { Does indexes.old indexes.new indexes.old.regions.slabs
        (after_commit (space_of indexes.old) client heard.ask heard.answer) result }
{
    let Ask::Commit(span) = heard.ask else {
        return Reply::Noted;
    };
    match (heard.answer, indexes.extents.flight(client, span)) {
        (Answer::Done, Some(part)) => {
            indexes.extents.change(&part, part.state, true);
            Reply::Noted
        }
        (Answer::Refused, found) => put_whole(indexes, found),
        _ => Reply::Noted,
    }
}

/// Whether this is the chunk that was found in another arena.
fn is_found(found: Option<u64>, chunk: u64) -> bool
    ensures { result ≡ is_found found chunk }
{
    match found {
        Some(other) => other == chunk,
        None => false,
    }
}

/// Whether a chunk has an owner: it was found in another arena, or an extent of this one meets it.
fn is_owned(found: Option<u64>, extents: &PartBook, chunk: u64) -> bool
    requires { chunk < 2 ^ 32 }
    ensures { result ≡ is_owned found extents.now.parts chunk }
{
    is_found(found, chunk) || extents.meets(Span::of_chunk(chunk))
}

/// The chunk that was found in another arena, if it is one of some.
#[tactic(auto, using(crate::proofs::Granted::finds_found))]
fn found_among(found: Option<u64>, low: u64, high: u64) -> Option<u64>
    requires { low ≤ high }
    ensures found { result ≡ find (is_found found) (range_with_len low (high - low)) }
    ensures bound { IfSome result (λ chunk. chunk < high) }
{
    let chunk = found?;
    if low <= chunk && chunk < high {
        Some(chunk)
    } else {
        None
    }
}

/// The least chunk of a span in the space that has an owner. Only where an extent meets one of them is each looked at.
#[tactic(auto, using(crate::proofs::Granted::found_alone))]
fn owned_chunk(found: Option<u64>, extents: &PartBook, span: Span) -> Option<u64>
    requires { end_of span ≤ pages_end }
    ensures least { result ≡ find (is_owned found extents.now.parts) (chunks_of span) }
    ensures bound { IfSome result (λ chunk. chunk < 2 ^ 32) }
{
    let low = span.first / CHUNK_PAGES;
    let high = (span.first + span.pages).div_ceil(CHUNK_PAGES);
    let first = CHUNK_PAGES * low;
    let pages = CHUNK_PAGES * (high - low);
    if !extents.meets(Span { first, pages }) {
        return found_among(found, low, high);
    }
    (low..high).find(|chunk| is_owned(found, extents, *chunk))
}

/// Why an answered span can't be taken, or none.
fn why_not(found: Option<u64>, align: u64, extents: &PartBook, span: Span) -> Option<Why>
    requires { 1 ≤ align }
    ensures { result ≡ why_not found align extents.now.parts span }
{
    if !span.is_in_space() {
        return Some(Why::OffSpace);
    }
    if span.first % align != 0 {
        return Some(Why::Unaligned);
    }
    match owned_chunk(found, extents, span) {
        Some(chunk) => Some(Why::Meets(Span::of_chunk(chunk))),
        None => None,
    }
}

/// How many chunks the next growth has that no request needs, once a span was granted.
fn series_after(grow: u64, span: Span) -> u64
    requires { end_of span ≤ pages_end }
    ensures { result ≡ grow_after grow span }
{
    let chunks = span.pages.div_ceil(CHUNK_PAGES);
    grow.max((2 * chunks).min(MAX_SERIES))
}

/// Takes in the answer to an alloc.
pub fn grow_done(indexes: &mut Indexes, client: u32, heard: Heard, found: Option<u64>) -> Reply
    requires stands { IsTrue (grow_stands (space_of indexes.old) client heard.ask heard.answer) }
    requires sound { Sound (space_of indexes.old) }
    requires room { HasPlaces indexes.old 1 }
    ensures { Takes indexes.old indexes.new indexes.old.regions.slabs
        (after_grow (space_of indexes.old) client found heard.ask heard.answer) result }
{
    let Ask::Alloc { pages, align, .. } = heard.ask else {
        return Reply::Noted;
    };
    match heard.answer {
        Answer::Refused => Reply::Refused,
        Answer::Done => Reply::Noted,
        Answer::Placed {
            first,
            committed,
            ..
        } => {
            let span = Span { first, pages };
            if let Some(why) = why_not(found, align, &indexes.extents, span) {
                return Reply::Bad(why);
            }
            indexes.extents.add(Part {
                span,
                state: State::Flight(client, Rest::Retained),
                committed,
            });
            indexes.grow = series_after(indexes.grow, span);
            Reply::Grown { span, committed }
        }
    }
}

/// An extent in flight serves the first `count` regions of a class from now on, which the client holds.
pub fn land_done(indexes: &mut Indexes, client: u32, span: Span, class: u8, count: u32) -> Reply
    requires live { is_live (space_of indexes.old).life ≡ true }
    requires client { client < 32 }
    requires stands { IsTrue (land_stands (space_of indexes.old) client span class count) }
    requires sound { Sound (space_of indexes.old) }
    requires room { HasPlaces indexes.old 1 }
    requires may { class < 36 → CanBeSlab class span.first count indexes.old.regions.slabs }
    ensures { Takes indexes.old indexes.new (slabs_landed class span.first count indexes.old.regions.slabs)
        (land_at (space_of indexes.old) client class count (find (is_flight_at client span) (space_of indexes.old).parts)) result }
{
    let Some(part) = indexes.extents.flight(client, span) else {
        return Reply::Noted;
    };
    let first = PAGE_BYTES * part.span.first;
    indexes.extents.change(&part, State::Active, part.committed);
    indexes.regions.land(client, class, part.span.first, count);
    Reply::Landed { first, count }
}
