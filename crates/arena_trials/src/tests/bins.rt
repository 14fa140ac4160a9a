//! Many regions are taken and put back, and many slabs come and go.
use bin_book::BinBook;
use size_classes::{Addrs, class_pages, slab_regions};
use std::alloc::Global;
use std::process::Abort;

mod plain;

// A book with places for so many slabs.
fn book_of(rt: &impl Abort, alloc: Global, places: u64) -> BinBook {
    let mut book = BinBook::new(alloc);
    book.reserve(places).expect(rt, "memory for places");
    book
}

// A list with room for so many addresses.
fn list_of(rt: &impl Abort, alloc: Global, room: u64) -> Addrs {
    let mut list = Addrs::new(alloc);
    list.reserve(room).expect(rt, "memory for addresses");
    list
}

// Adds a slab with so many regions out, held by client 0, where it has a place and meets no other.
fn add_slab(book: &mut BinBook, class: u8, first: u64, count: u32) -> bool {
    if class >= 36 || first >= 1 << 31 {
        return false;
    }
    let end = first + class_pages(class);
    let has_count = 0 < count && u64::from(count) <= slab_regions(class);
    if end <= 1 << 32 && has_count && book.spare() > 0 && !book.meets(class, first) {
        book.serve(0);
        book.add_slab(class, first, count);
        return true;
    }
    false
}

// Adds a slab with one region out, likewise.
fn add(book: &mut BinBook, class: u8, first: u64) -> bool {
    add_slab(book, class, first, 1)
}

// Takes so many regions for client 1, as far as the list has room.
fn take(book: &mut BinBook, class: u8, count: u32, out: &mut Addrs) -> bool {
    if class < 36 && count as usize <= out.room() {
        book.serve(1);
        book.take(class, count, out);
        return true;
    }
    false
}

// Puts a region back, if it is out. Whether its slab has left then.
fn put_back(book: &mut BinBook, class: u8, addr: u64) -> Option<bool> {
    if class < 36 && book.is_out(class, addr) {
        return Some(book.put_back(class, addr));
    }
    None
}

// Takes all regions of 2048 slabs, and puts them back.
fn take_and_put_back(rt: &impl Abort, book: &mut BinBook, out: &mut Addrs) {
    for slab in 0..2048 {
        assert!(rt; add(book, 0, 512 + slab));
    }
    assert!(rt; take(book, 0, 1 << 20, out));
    assert!(rt; out.len() == 2048 * 511 && book.slabs()[0] == 2048 && !book.has_free(0));
    for addr in out.as_slice() {
        assert!(rt; put_back(book, 0, *addr) == Some(false));
    }
    for slab in 0..2048 {
        assert!(rt; put_back(book, 0, 4096 * (512 + slab)) == Some(true));
    }
    assert!(rt; book.slabs()[0] == 0 && book.spare() == 2048);
}

#[test]
fn many_regions_are_taken_and_put_back(rt: HostRuntime) {
    let mut book = book_of(&rt, rt.alloc(), 2048);
    take_and_put_back(&rt, &mut book, &mut list_of(&rt, rt.alloc(), 1 << 20));
}

// Fills a book with slabs of two regions, of which one is out, and empties it.
fn come_and_go(rt: &impl Abort, book: &mut BinBook, out: &mut Addrs) {
    for slab in 0..1 << 18 {
        assert!(rt; add(book, 24, 512 + 2 * slab));
        assert!(rt; take(book, 24, 1, out) == (slab < 2));
    }
    assert!(rt; out.as_slice().last().copied() == Some(4096 * 514 + 2048) && !book.has_free(23));
    assert!(rt; put_back(book, 24, 4096 * 514) == Some(false));
    assert!(rt; put_back(book, 24, 4096 * 514 + 2048) == Some(true));
    assert!(rt; put_back(book, 24, 4096 * 514).is_none());
    assert!(rt; book.slabs()[24] == (1 << 18) - 1 && book.spare() == 1);
    book.clear();
    assert!(rt; book.slabs()[24] == 0 && book.spare() == 1 << 18);
}

#[test]
fn many_slabs_come_and_go(rt: HostRuntime) {
    let mut book = book_of(&rt, rt.alloc(), 1 << 18);
    come_and_go(&rt, &mut book, &mut Addrs::new(rt.alloc()));
}

// Slabs come and go whose inner pages have no number, and one at a high page.
fn come_and_go_alone(rt: &impl Abort, book: &mut BinBook) {
    for slab in 0..400 {
        assert!(rt; add(book, 9, 511 + 1024 * slab));
        let addr = 4096 * (511 + 1024 * slab);
        assert!(rt; put_back(book, 9, addr + 5 * 4096).is_none());
        assert!(rt; put_back(book, 9, addr) == Some(true));
    }
    assert!(rt; add(book, 24, 1 << 30));
    assert!(rt; put_back(book, 24, 4096 << 30) == Some(true));
}

#[test]
fn a_page_without_a_number_is_found(rt: HostRuntime) {
    come_and_go_alone(&rt, &mut book_of(&rt, rt.alloc(), 1));
}

// Hands the region at an address over, if one begins there. Whether one does.
fn hand_over(book: &mut BinBook, addr: u64, holder: Option<u32>) -> bool {
    if holder.unwrap_or(0) < 32 && book.at(addr).is_some() {
        book.hand_over(addr, holder);
        return true;
    }
    false
}

// Who holds the region at an address, which is of the class.
fn holder(book: &BinBook, class: u8, addr: u64) -> Option<Option<u32>> {
    let region = book.at(addr)?;
    (region.addr == addr && region.class == class).then_some(region.holder)
}

// The first regions of two slabs are taken, and each has its holder.
fn are_taken(rt: &impl Abort, book: &mut BinBook, out: &mut Addrs) {
    let (first, other) = (4096 * 512, 4096 * 600);
    assert!(rt; add(book, 8, 512) && add(book, 24, 600) && take(book, 8, 2, out));
    let places = [
        (8, first, Some(Some(0))),
        (24, other, Some(Some(0))),
        (8, first + 128, Some(Some(1))),
        (8, first + 256, Some(Some(1))),
    ];
    for (class, addr, expected) in places {
        assert!(rt; holder(book, class, addr) == expected);
    }
    for addr in [first + 384, first + 64, 0] {
        assert!(rt; book.at(addr).is_none());
    }
}

// A region gets other holders, goes, and is taken again.
fn are_handed_over(rt: &impl Abort, book: &mut BinBook, out: &mut Addrs) {
    let (first, other) = (4096 * 512, 4096 * 600);
    let addr = first + 128;
    assert!(rt; hand_over(book, addr, None) && !hand_over(book, first + 384, Some(2)));
    assert!(rt; holder(book, 8, addr) == Some(None) && holder(book, 8, first) == Some(Some(0)));
    assert!(rt; hand_over(book, addr, Some(31)) && holder(book, 8, addr) == Some(Some(31)));
    assert!(rt; put_back(book, 8, addr) == Some(false) && book.at(addr).is_none());
    assert!(rt; put_back(book, 24, other) == Some(true) && book.at(other).is_none());
    assert!(rt; take(book, 8, 1, out) && holder(book, 8, addr) == Some(Some(1)));
    book.clear();
    assert!(rt; book.at(first).is_none());
}

// Regions are taken, and handed over.
fn have_their_holders(rt: &impl Abort, book: &mut BinBook, out: &mut Addrs) {
    are_taken(rt, book, out);
    are_handed_over(rt, book, out);
}

#[test]
fn each_region_has_its_holder(rt: HostRuntime) {
    let mut book = book_of(&rt, rt.alloc(), 2);
    have_their_holders(&rt, &mut book, &mut list_of(&rt, rt.alloc(), 3));
}
