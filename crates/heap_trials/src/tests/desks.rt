//! What a client has: its cache, what it holds, and its explicit caches.
use call_plan::Desk;
use std::alloc::Global;
use std::process::Abort;
use thread_cache::Held;

// A desk that has nothing. It is let go by `drop`, which is proved far faster than the end of a scope.
fn new_desk(rt: &impl Abort, alloc: Global) -> Desk {
    Desk::new(alloc).expect(rt, "memory for a desk")
}

// The region of a class at the address, in arena 0.
fn region(addr: u64, class: u8) -> Held {
    Held {
        addr,
        class,
        arena: 0,
    }
}

// A desk holds a region, and loses it.
fn hold_and_lose(rt: &impl Abort, desk: &mut Desk) {
    desk.reserve().expect(rt, "memory for a region");
    desk.hold(region(4096, 36));
    assert_eq!(rt; desk.held_at(4096), Some(region(4096, 36)));
    desk.lose(4096);
    assert_eq!(rt; desk.held_at(4096), None);
}

// A desk caches two regions, of which the last one serves a malloc and comes back.
fn cache_two(rt: &impl Abort, desk: &mut Desk) {
    desk.switch(true);
    desk.free(region(8192, 36));
    desk.free(region(4096, 36));
    assert_eq!(rt; desk.cached_of(0), 2);
    assert_eq!(rt; desk.take_hit(36), Some(region(4096, 36)));
    desk.free(region(4096, 36));
}

// A desk gives all that it caches back, and frees a region that isn't cached.
fn give_back(rt: &impl Abort, alloc: Global, desk: &mut Desk) {
    let batch = desk
        .batch(alloc, desk.hand(), true)
        .expect(rt, "memory for a batch")
        .expect(rt, "two regions are cached");
    assert_eq!(rt; batch.addrs.as_slice().get(1), Some(&8192));
    drop(batch);
    desk.gave(0);
    assert_eq!(rt; desk.cached_of(0), 0);
    desk.free(region(4096, 41));
    assert_eq!(rt; desk.hand(), Some(region(4096, 41)));
}

#[test]
fn a_desk_frees_and_gives_back(rt: HostRuntime) {
    let mut desk = new_desk(&rt, rt.alloc());
    hold_and_lose(&rt, &mut desk);
    cache_two(&rt, &mut desk);
    give_back(&rt, rt.alloc(), &mut desk);
    drop(desk);
}

// Makes an explicit cache, which has this slot.
fn make_cache(rt: &impl Abort, alloc: Global, desk: &mut Desk, slot: u32) {
    let made = desk.make_cache(alloc).expect(rt, "memory for a cache");
    assert_eq!(rt; made, Some(slot));
}

// Of two explicit caches, the second one takes the place of the own one, and is swapped back.
fn swap_once(rt: &impl Abort, alloc: Global, desk: &mut Desk) {
    assert!(rt; !desk.swap(0, false));
    make_cache(rt, alloc, desk, 0);
    make_cache(rt, alloc, desk, 1);
    assert!(rt; desk.swap(1, false));
    assert!(rt; !desk.swap(0, false));
    assert!(rt; desk.caches());
    desk.free(region(8192, 36));
    assert_eq!(rt; desk.hand(), None);
    desk.swap_back(true);
}

// The second explicit cache has a region, and ends when it is swapped once more.
fn swap_to_end(rt: &impl Abort, desk: &mut Desk) {
    assert!(rt; !desk.caches());
    assert_eq!(rt; desk.cached_of(0), 1);
    assert_eq!(rt; desk.take_hit(36), None);
    assert!(rt; desk.swap(1, true));
    assert_eq!(rt; desk.take_hit(36), Some(region(8192, 36)));
    desk.swap_back(true);
    assert_eq!(rt; desk.cached_of(0), 0);
    assert!(rt; !desk.swap(1, false));
}

#[test]
fn an_explicit_cache_takes_the_place_of_the_own_one(rt: HostRuntime) {
    let mut desk = new_desk(&rt, rt.alloc());
    swap_once(&rt, rt.alloc(), &mut desk);
    swap_to_end(&rt, &mut desk);
    make_cache(&rt, rt.alloc(), &mut desk, 1);
    drop(desk);
}
