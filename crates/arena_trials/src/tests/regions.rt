//! A book with places and no region.
use region_book::RegionBook;
use std::process::Abort;

// Checks that a book has no region.
fn has_no_region(rt: &impl Abort, book: &RegionBook) {
    assert!(rt; book.is_empty() && book.bytes() == 0 && book.count_others(31) == 0);
    assert!(rt; book.published_at(4096 * 512).is_none() && !book.has_free(8));
    assert!(rt; book.slabs() == [0; 36]);
}

// Makes places in a book, which has no region.
fn make_places(rt: &impl Abort, book: &mut RegionBook) {
    assert_eq!(rt; book.places(), 0);
    for (places, had) in [(3, 3), (2, 3)] {
        book.reserve(places).expect(rt, "memory for places");
        assert_eq!(rt; book.places(), had);
    }
    has_no_region(rt, book);
    book.clear();
    assert_eq!(rt; book.places(), 3);
}

#[test]
fn places_are_made(rt: HostRuntime) {
    make_places(&rt, &mut RegionBook::new(rt.alloc()));
}
