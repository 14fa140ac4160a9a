//! The class table, computed: sizes, pages and regions by shifts, with no table at run time.
ghost use Rattle.std.specs.Prelude.{◌≡◌, ◌+◌, ◌*◌, ◌%◌, ◌^◌, ◌<◌, ◌≤◌, ◌↔◌, IsTrue, IfOk, IfErr, OnOk};
ghost use Rattle.size_classes.specs.Classes.{size_at, class_for, IsSmall, pages_at, regions_at, slots_at, align_at, IsAlignment, aligned_for};

/// How many size classes there are.
pub const CLASSES: u8 = 121;

/// Classes below this one are small: their regions lie in slabs.
pub const SMALL_CLASSES: u8 = 36;

/// Classes below this one can be cached.
pub const CACHED_CLASSES: u8 = 41;

/// The size of the largest class, in bytes.
pub const MAX_SIZE: u64 = 1 << 35;

/// The bytes of a page.
pub const PAGE_BYTES: u64 = 4096;

const PAGE_SHIFT: u32 = 12;

const MAX_ALIGN: u64 = 1 << 30;

/// Why no class serves a request.
#[derive(Clone, Copy, Debug, PartialEq, Eq)]
pub enum SizeFault {
    /// The size is above 2^35 bytes.
    TooLarge = 1,
    /// The alignment isn't a power of two from 1 to 2^30.
    BadAlign = 2,
}

/// The least class whose size isn't below `size` bytes, where 0 counts as 1.
///
/// `TooLarge` is exactly the answer to a size above 2^35.
pub fn class_of(size: u64) -> Result<u8, SizeFault>
    ensures class { IfOk result (λ class. class ≡ class_for size) }
    ensures in_table { IfOk result (λ class. class < 121) }
    ensures fits { OnOk result (size ≤ 2 ^ 35) }
    ensures too_large { IfErr result (λ fault. (fault ≡ SizeFault.TooLarge) × (2 ^ 35 < size)) }
{
    if size > MAX_SIZE {
        return Err(SizeFault::TooLarge);
    }
    Ok(least_class(size))
}

/// The class for `size` bytes at an address that is a multiple of `align` bytes.
///
/// `BadAlign` is exactly the answer to an alignment that isn't a power of two from 1 to 2^30, whatever
/// the size, and `TooLarge` to a size above 2^35 at a good alignment.
pub fn aligned_class(size: u64, align: u64) -> Result<u8, SizeFault>
    ensures class { IfOk result (λ class. class ≡ aligned_for size align) }
    ensures in_table { IfOk result (λ class. class < 121) }
    // The addresses of a small class are multiples of the alignment.
    ensures aligned { IfOk result (λ class. IsSmall class → align_at class % align ≡ 0) }
    ensures fits { OnOk result (IsAlignment align × (size ≤ 2 ^ 35)) }
    ensures bad_align { (result ≡ Err SizeFault.BadAlign) ↔ ¬ IsAlignment align }
    ensures too_large { (result ≡ Err SizeFault.TooLarge) ↔ (IsAlignment align × (2 ^ 35 < size)) }
{
    if !is_alignment(align) {
        return Err(SizeFault::BadAlign);
    }
    let class = class_of(size)?;
    if align > PAGE_BYTES || class >= SMALL_CLASSES {
        return Ok(class.max(SMALL_CLASSES));
    }
    let rounded = size.max(1).next_multiple_of(align);
    Ok(least_class(rounded).min(SMALL_CLASSES))
}

/// The size of a class, in bytes.
pub fn size_of(class: u8) -> u64
    requires { class < 121 }
    ensures size { result ≡ size_at class }
    ensures aligned { result % align_at class ≡ 0 }
    ensures at_least { 8 ≤ result }
    ensures at_most { result ≤ 2 ^ 35 }
{
    match class {
        0 => 8,
        1..=8 => 16 * class as u64,
        _ => {
            let above = class - 9;
            ((above % 4 + 5) as u64) << (above / 4 + 5)
        }
    }
}

/// The pages of a small class's slab, or of a large class's extent.
pub fn class_pages(class: u8) -> u64
    requires { class < 121 }
    ensures pages { result ≡ pages_at class }
    ensures large { 36 ≤ class → size_at class ≡ 4096 * result }
    ensures at_least { 1 ≤ result }
    ensures at_most { result ≤ 2 ^ 23 }
{
    let size = size_of(class);
    size >> size.trailing_zeros().min(PAGE_SHIFT)
}

/// How many regions the slab of a small class has.
pub fn slab_regions(class: u8) -> u64
    requires { IsSmall class }
    ensures regions { result ≡ regions_at class }
    ensures filled { result * size_at class ≡ 4096 * pages_at class }
    ensures at_least { 1 ≤ result }
    ensures at_most { result ≤ 512 }
{
    class_pages(class) * PAGE_BYTES / size_of(class)
}

/// How many regions of a class a cache holds.
pub fn slots(class: u8) -> u32
    requires { class < 41 }
    ensures slots { result ≡ slots_at class }
    ensures at_least { 20 ≤ result }
    ensures at_most { result ≤ 200 }
{
    if class < SMALL_CLASSES {
        (2 * slab_regions(class)).clamp(20, 200) as u32
    } else {
        20
    }
}

// The class for a size that some class serves.
fn least_class(size: u64) -> u8
    requires { size ≤ 2 ^ 35 }
    ensures class { result ≡ class_for size }
    ensures in_table { result < 121 }
{
    if size <= 8 {
        return 0;
    }
    if size <= 128 {
        return size.div_ceil(16) as u8;
    }
    let last = size - 1;
    let doubling = last.ilog2();
    let quarter = last >> (doubling - 2);
    (4 * doubling as u64 + quarter - 23) as u8
}

// Whether the alignment is a power of two from 1 to 2^30.
fn is_alignment(align: u64) -> bool
    ensures { IsTrue result ↔ IsAlignment align }
{
    if align == 0 || align > MAX_ALIGN {
        return false;
    }
    align == 1 << align.ilog2()
}
