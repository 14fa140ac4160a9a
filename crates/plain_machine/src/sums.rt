//! The counts of a space, by scans over its lists.

ghost use Rattle.std.specs.Prelude.{◌≡◌, ◌==◌, ◌+◌, ◌<◌, ◌≤◌, ◌^◌, nat_lt, not, count_by, if◌then◌else◌, IfOk};
ghost use Rattle.size_classes.specs.Classes.{size_at};
ghost use Rattle.space_model.specs.Span.{IsPlaced};
ghost use Rattle.space_model.specs.Counts.{bytes_of, bytes_where, region_bytes, region_bytes_where, regions_by_class, slabs_by_class, counts_of};
ghost use Rattle.space_model.specs.Region.{is_slab};
ghost use Rattle.plain_machine.specs.Uses.{is_of};
ghost use Rattle.space_model.specs.Stepped.{if_live, stays};
ghost use Rattle.space_model.specs.Sound.{Sound};

use crate::Replied;
use crate::slabs::is_slab;
use size_classes::{PAGE_BYTES, SMALL_CLASSES, size_of};
use space_model::{Boxed, Counts, Part, Region, Reply, Rest, Space, State};
use std::alloc::AllocError as NoMemory;

/// What the bytes of an extent count as.
#[derive(Clone, Copy)]
enum Use {
    /// Bytes that serve regions.
    Active,
    /// Bytes of one of the three lists.
    Listed(Rest),
    /// Bytes in flight.
    Flight,
}

/// Whether an extent in the state counts as this.
fn is_of(kind: Use, state: State) -> bool
    ensures { result ≡ is_of kind state }
{
    match (kind, state) {
        (Use::Active, State::Active) | (Use::Flight, State::Flight(..)) => true,
        (Use::Listed(rest), _) => state.is_listed(rest),
        _ => false,
    }
}

/// The bytes of an extent, if it counts as this.
fn bytes_if(kind: Use, part: &Part) -> u64
    requires { IsPlaced part.now.span }
    ensures { result ≡ (if is_of kind part.now.state then bytes_of part.now else 0) }
{
    if is_of(kind, part.state) {
        PAGE_BYTES * part.span.pages
    } else {
        0
    }
}

/// The bytes of the extents that count as this.
fn bytes_in(kind: Use, space: &Space) -> u64
    requires { Sound space.now }
    ensures bytes { result ≡ bytes_where (is_of kind) space.now.parts }
    ensures within { result ≤ 2 ^ 41 }
{
    let all = space.parts.as_slice().iter();
    all.map(|part| bytes_if(kind, part)).sum()
}

/// The sizes of the regions.
fn region_bytes(space: &Space) -> u64
    requires { Sound space.now }
    ensures { result ≡ region_bytes space.now.regions }
{
    let all = space.regions.as_slice().iter();
    all.map(|region| size_of(region.class)).sum()
}

/// The size of a region, if it is small or large as asked.
fn size_if(small: bool, region: &Region) -> u64
    requires { region.now.class < 121 }
    ensures { result ≡ (if (if small then nat_lt region.now.class 36 else not (nat_lt region.now.class 36)) then size_at region.now.class else 0) }
{
    if small == (region.class < SMALL_CLASSES) {
        size_of(region.class)
    } else {
        0
    }
}

/// The sizes of the small regions, or of the large ones.
fn region_bytes_of(small: bool, space: &Space) -> u64
    requires { Sound space.now }
    ensures { result ≡ region_bytes_where (λ class. if small then nat_lt class 36 else not (nat_lt class 36)) space.now.regions }
{
    let all = space.regions.as_slice().iter();
    all.map(|region| size_if(small, region)).sum()
}

/// How many regions there are of a class.
fn count_of(class: u8, regions: &[Region]) -> u64
    ensures { result ≡ count_by (λ r. r.class == class) regions.now }
{
    let all = regions.iter();
    all.filter(|region| region.class == class).count() as u64
}

/// How many regions there are of each class, from one on.
fn regions_by_class<const N: usize>(first: u8, regions: &[Region]) -> [u64; N]
    requires { first + N ≤ 256 }
    ensures { result ≡ regions_by_class first N regions.now }
{
    let mut numbers = [0; N];
    for i in 0..N {
        numbers[i] = count_of(first + i as u8, regions);
    }
    numbers
}

/// How many slabs there are of a class.
fn slab_count(class: u8, space: &Space) -> u64
    requires { Sound space.now }
    ensures { result ≡ count_by (is_slab class space.now.regions) space.now.parts }
{
    let (all, regions) = (space.parts.as_slice().iter(), space.regions.as_slice());
    all.filter(|part| is_slab(class, regions, part)).count() as u64
}

/// How many slabs there are of each small class.
fn slabs_by_class(space: &Space) -> [u64; 36]
    requires { Sound space.now }
    ensures { result ≡ slabs_by_class space.now.regions space.now.parts }
{
    let mut numbers = [0; 36];
    for class in 0..36 {
        numbers[class] = slab_count(class as u8, space);
    }
    numbers
}

/// The counts, in a box.
fn boxed_counts(space: &Space) -> Result<Boxed<Counts>, NoMemory>
    requires { Sound space.now }
    ensures { IfOk result (λ boxed. boxed ≡ counts_of space.now) }
{
    let counts = plain_counts(space);
    Boxed::new(space.parts.alloc(), counts)
}

/// The counts of a live arena.
pub fn counts(space: &Space) -> Replied
    requires { Sound space.now }
    ensures reply { IfOk result (λ told. told ≡ (if_live space.now (stays space.now (Reply.Counted (counts_of space.now)))).reply) }
    ensures same { (if_live space.now (stays space.now (Reply.Counted (counts_of space.now)))).after ≡ space.now }
{
    if space.life.is_live() {
        Ok(Reply::Counted(boxed_counts(space)?))
    } else {
        Ok(Reply::NoArena)
    }
}

/// The counts of an arena, by sums over its lists.
pub fn plain_counts(space: &Space) -> Counts
    requires { Sound space.now }
    ensures { result ≡ counts_of space.now }
{
    let active = bytes_in(Use::Active, space);
    let dirty = bytes_in(Use::Listed(Rest::Dirty), space);
    let muzzy = bytes_in(Use::Listed(Rest::Muzzy), space);
    let flight = bytes_in(Use::Flight, space);
    Counts {
        allocated: region_bytes(space),
        active,
        dirty,
        muzzy,
        retained: bytes_in(Use::Listed(Rest::Retained), space),
        flight,
        mapped: active + dirty + muzzy + flight,
        small: region_bytes_of(true, space),
        large: region_bytes_of(false, space),
        regs: regions_by_class(0, space.regions.as_slice()),
        slabs: slabs_by_class(space),
        lextents: regions_by_class(SMALL_CLASSES, space.regions.as_slice()),
    }
}
