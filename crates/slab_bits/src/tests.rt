//! A slab of two regions, and one of 512 of which a single one is free.
use crate::SlabBits;
use size_classes::slab_regions;
use std::test::Fail;

#[test]
fn the_lowest_free_region_is_taken(rt: HostRuntime) -> Result<(), Fail> {
    let mut slab = SlabBits::new(35);
    assert_eq!(rt; slab.free_count(), 2);
    assert_eq!(rt; slab.take_lowest(), Some(0));
    assert_eq!(rt; slab.take_lowest(), Some(1));
    assert_eq!(rt; slab.take_lowest(), None);
    let last = slab_regions(0) as u32 - 1;
    let mut slab = SlabBits::with_out(0, last);
    assert_eq!(rt; slab.take_lowest(), Some(511));
    assert_eq!(rt; slab.free_count(), 0);
    Ok(())
}

#[test]
fn a_region_that_was_put_back_is_free(rt: HostRuntime) -> Result<(), Fail> {
    let mut slab = SlabBits::new(35);
    if let Some(first) = slab.take_lowest() {
        slab.put(first);
    }
    assert_eq!(rt; slab.free_count(), 2);
    assert_eq!(rt; slab.take_lowest(), Some(0));
    Ok(())
}
