//! A book beside a plain list of all regions of its slabs.
ghost use Rattle.std.specs.Prelude.{◌<◌};

use crate::tests::ops::next_state;
use bin_book::BinBook;
use size_classes::{size_of, slab_regions};
use std::process::Abort;

// Classes with 4, 16 and 2 regions a slab, of 1, 5 and 7 pages.
const CLASSES: [u8; 3] = [20, 21, 35];

// A region of a slab.
#[derive(Clone, Copy)]
struct Place {
    addr: u64,
    class: u8,
    first: u64,
    is_out: bool,
}

// Adds the regions of a slab behind those of lower slabs. The lowest, so many, are out.
fn add(rt: &impl Abort, list: &mut Vec<Place>, class: u8, first: u64, count: u64)
    requires { class < 36 }
{
    let below = list.iter().filter(|place| place.first < first).count();
    for region in 0..slab_regions(class) {
        let place = Place {
            addr: first
                .saturating_mul(4096)
                .saturating_add(region.saturating_mul(size_of(class))),
            class,
            first,
            is_out: region < count,
        };
        let at = below.saturating_add(region as usize).min(list.len());
        list.insert(at, place).expect(rt, "memory for a region");
    }
}

// Takes the lowest free region of a class.
fn take_lowest(list: &mut Vec<Place>, class: u8) -> Option<u64> {
    let at = list
        .iter()
        .position(|place| place.class == class && !place.is_out)?;
    list[at].is_out = true;
    Some(list[at].addr)
}

// Puts a region back. Its slab leaves where all its regions are free then; whether it does.
fn put_back(list: &mut Vec<Place>, addr: u64, first: u64) -> bool {
    for place in list.iter_mut() {
        place.is_out = place.is_out && place.addr != addr;
    }
    let leaves = list
        .iter()
        .all(|place| place.first != first || !place.is_out);
    list.retain(|place| !leaves || place.first != first);
    leaves
}

// A slab comes to both, where none has its first page. Whether both say the same.
fn slab_comes(rt: &impl Abort, book: &mut BinBook, list: &mut Vec<Place>, number: u64) -> bool {
    let class = CLASSES[(number % 3) as usize];
    let first = 512 + 8 * (number / 3 % 8);
    let count = 1 + number / 24 % 2;
    let comes = super::add_slab(book, class, first, count as u32);
    let stands = list.iter().any(|place| place.first == first);
    if comes && !stands && class < 36 {
        add(rt, list, class, first, count);
    }
    comes != stands
}

// Takes the lowest free regions of a class. Whether these are their addresses.
fn go_lowest(list: &mut Vec<Place>, class: u8, addrs: &[u64]) -> bool {
    for addr in addrs {
        if take_lowest(list, class) != Some(*addr) {
            return false;
        }
    }
    true
}

// The lowest free regions of a class are taken from both, up to seven, and are the same.
fn regions_go(rt: &impl Abort, book: &mut BinBook, list: &mut Vec<Place>, number: u64) -> bool {
    let class = CLASSES[(number % 3) as usize];
    let count = (number / 3 % 8) as u32;
    let mut out = super::list_of(rt, *list.allocator(), u64::from(count));
    let taken = super::take(book, class, count, &mut out);
    let same = go_lowest(list, class, out.as_slice());
    taken && same && (out.len() == count as usize || take_lowest(list, class).is_none())
}

// A region is put back into both, where it is out.
fn region_comes(book: &mut BinBook, list: &mut Vec<Place>, number: u64) -> bool {
    let Some(place) = list.get(number as usize % list.len().max(1)).copied() else {
        return true;
    };
    let left = super::put_back(book, place.class, place.addr);
    if place.is_out {
        left == Some(put_back(list, place.addr, place.first))
    } else {
        left.is_none()
    }
}

// What a number chooses happens to both. Whether both say the same.
fn change(rt: &impl Abort, book: &mut BinBook, list: &mut Vec<Place>, number: u64) -> bool {
    match number % 4 {
        0 => slab_comes(rt, book, list, number / 4),
        1 => regions_go(rt, book, list, number / 4),
        _ => region_comes(book, list, number / 4),
    }
}

// Whether both have the same regions out.
fn same_are_out(book: &BinBook, list: &[Place]) -> bool {
    list.iter()
        .all(|place| book.at(place.addr).is_some() == place.is_out)
}

// So many changes happen to both, and after each they have the same regions out.
fn all_change(rt: &impl Abort, book: &mut BinBook, list: &mut Vec<Place>) {
    let mut state = 1u64;
    for step in 0..600 {
        state = next_state(state);
        let same = change(rt, book, list, state >> 30) && same_are_out(book, list.as_slice());
        assert!(rt; same, "{step}");
    }
}

#[test]
fn a_plain_list_says_the_same(rt: HostRuntime) {
    let mut book = super::book_of(&rt, rt.alloc(), 8);
    all_change(&rt, &mut book, &mut Vec::new(rt.alloc()));
}
