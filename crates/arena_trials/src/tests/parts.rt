//! A book of many extents, and one in which extents come and go.
ghost use Rattle.std.specs.Prelude.{◌≡◌};

use part_book::PartBook;
use space_model::{Part, Rest, Span, State};
use std::alloc::Global;
use std::process::Abort;

// `rt try`, which checks each access, takes far longer for so many than its minute.
const MANY: u64 = 1 << 20;

// A book with places for so many extents.
fn book_of(rt: &impl Abort, alloc: Global, places: u64) -> PartBook {
    let mut book = PartBook::new(alloc).expect(rt, "memory for a book");
    book.reserve(places).expect(rt, "memory for places");
    book
}

fn dirty(first: u64, pages: u64) -> Part
    ensures { result.span ≡ record { first = first; pages = pages } }
{
    Part {
        span: Span { first, pages },
        state: State::Dirty,
        committed: true,
    }
}

// Adds a dirty extent of one page, where there is a place for it and no other has the page.
fn add_page(book: &mut PartBook, page: u64) -> bool {
    let part = dirty(page, 1);
    let inside = 512 <= page && page < 512 + MANY;
    if inside && book.spare() > 0 && !book.meets(part.span) {
        book.add(part);
        return true;
    }
    false
}

// Whether the extent of one page is found, and its neighbours.
fn has_page(book: &PartBook, page: u64) -> bool {
    let part = dirty(page, 1);
    let left = book.neighbour(part.span, false);
    let right = book.neighbour(part.span, true);
    let ends = left.is_none() == (page == 512) && right.is_none() == (page == 511 + MANY);
    ends && book.look(page) == Some(&part) && book.holding(page) == Some(part)
}

fn lists_all(book: &PartBook) -> bool {
    let oldest = book.oldest(Rest::Dirty) == Some(dirty(512, 1));
    oldest && book.fit(2, 1).is_none() && book.pages(Rest::Dirty) == MANY
}

fn join(book: &mut PartBook, low: u64, high: u64) -> bool {
    if book.look(low).is_none() || book.look(high).is_none() {
        return false;
    }
    let (low, high) = (book.at(low), book.at(high));
    let beside = low.span.first.checked_add(low.span.pages) == Some(high.span.first);
    if beside {
        book.merge(&low, &high);
    }
    beside && low.state == high.state && low.committed == high.committed
}

// Whether the extent that begins at a page has so many pages.
fn has_pages(book: &PartBook, first: u64, pages: u64) -> bool {
    book.look(first) == Some(&dirty(first, pages))
}

// Takes an extent into flight, and out of the book.
fn flies_off(book: &mut PartBook, first: u64) -> bool {
    let state = State::Flight(1, Rest::Retained);
    if book.look(first).is_none() {
        return false;
    }
    let part = book.at(first);
    book.change(&part, state, false);
    let flown = book.next_flight(1).is_some();
    if book.look(first).is_some() {
        let part = book.at(first);
        book.take_off(&part);
    }
    flown && book.next_flight(1).is_none()
}

// Adds many extents of one page, and finds each.
fn fill(rt: &impl Abort, book: &mut PartBook) {
    for page in 512..512 + MANY {
        assert!(rt; add_page(book, page));
    }
    for page in 512..512 + MANY {
        assert!(rt; has_page(book, page) && lists_all(book));
    }
}

#[test]
fn a_large_book_is_not_scanned(rt: HostRuntime) {
    fill(&rt, &mut book_of(&rt, rt.alloc(), MANY));
}

// Cuts the first page off an extent, where it has another one and there is a place. That page comes first or last.
fn cut(book: &mut PartBook, first: u64, last: bool) -> bool {
    if book.look(first).is_none() || book.spare() == 0 {
        return false;
    }
    let part = book.at(first);
    let long = 1 < part.span.pages;
    if long && last {
        book.split(&part, 1, true);
    } else if long {
        book.cut_off(&part, 1, State::Dirty);
    }
    long
}

// Two extents of one page, from an even page on, are joined and cut, and the first one leaves.
fn come_and_go(book: &mut PartBook, half: u64) -> bool {
    let page = half.saturating_mul(2);
    let next = page.saturating_add(1);
    let added = add_page(book, page) && add_page(book, next);
    let joined = join(book, page, next) && has_pages(book, page, 2);
    let apart = cut(book, page, half % 2 == 0) && has_pages(book, next, 1);
    added && joined && apart && flies_off(book, page)
}

// A hundred pairs of extents come and go.
fn all_come_and_go(rt: &impl Abort, book: &mut PartBook) {
    for half in 512..612 {
        assert!(rt; come_and_go(book, half));
    }
}

#[test]
fn extents_come_and_go(rt: HostRuntime) {
    all_come_and_go(&rt, &mut book_of(&rt, rt.alloc(), MANY));
}

// Whether two extents of one page that begin side by side are joined by their pages, and cut again by the first one's.
fn joins_by_page(book: &mut PartBook, page: u64) -> bool {
    let next = page.saturating_add(1);
    if book.look(page).is_none() || book.look(next).is_none() {
        return false;
    }
    let (low, high) = (book.at(page), book.at(next));
    if low.span.first.checked_add(low.span.pages) != Some(high.span.first) {
        return false;
    }
    book.join(page, next);
    has_pages(book, page, 2)
}

// Cuts the first page off the extent that begins at a page: both pieces take a state, or the other one alone.
fn cuts_by_page(book: &mut PartBook, page: u64, both: bool) -> bool {
    if book.look(page).is_none() || book.spare() == 0 {
        return false;
    }
    if book.at(page).span.pages < 2 {
        return false;
    }
    if both {
        book.cut(page, 1, State::Dirty, State::Muzzy);
    } else {
        book.shed(page, 1, State::Muzzy);
    }
    book.count(Rest::Muzzy) == 1 && has_pages(book, page, 1)
}

// Takes the extent that begins at a page into another state, or out of the book.
fn leaves_by_page(book: &mut PartBook, page: u64) -> bool {
    if book.look(page).is_none() {
        return false;
    }
    book.set_state(page, State::Retained, false);
    let retained = book.count(Rest::Retained) == 1;
    if book.look(page).is_none() {
        return false;
    }
    book.drop_part(page);
    retained && book.look(page).is_none() && book.count(Rest::Retained) == 0
}

// Two extents of one page are joined, cut and taken out by the pages that they begin at.
fn goes_by_page(book: &mut PartBook, page: u64, both: bool) -> bool {
    let next = page.saturating_add(1);
    let added = add_page(book, page) && add_page(book, next);
    let cut = joins_by_page(book, page) && cuts_by_page(book, page, both);
    added && cut && leaves_by_page(book, next) && leaves_by_page(book, page) && book.is_empty()
}

// Extents go by their pages from a book, in both ways of a cut.
fn all_go_by_page(rt: &impl Abort, book: &mut PartBook) {
    assert!(rt; goes_by_page(book, 600, true));
    book.reserve(8).expect(rt, "memory for places");
    assert!(rt; goes_by_page(book, 700, false));
}

#[test]
fn extents_are_changed_by_their_pages(rt: HostRuntime) {
    all_go_by_page(&rt, &mut book_of(&rt, rt.alloc(), 8));
}
