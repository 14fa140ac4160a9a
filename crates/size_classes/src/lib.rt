//! The size classes of the allocator: which class serves a size, and what a class's regions and slabs are.
#![tactic(auto)]

mod addrs;
mod classes;

pub use addrs::Addrs;
pub use classes::{
    CACHED_CLASSES, CLASSES, MAX_SIZE, PAGE_BYTES, SMALL_CLASSES, SizeFault, aligned_class,
    class_of, class_pages, size_of, slab_regions, slots,
};
