//! How free regions of slabs are taken.

ghost use Rattle.std.specs.Prelude.{◌≡◌, ℕ, ◌+◌, ◌<◌, ◌≤◌, [], true, length, map, IfOk, OnOk, OnErr};
ghost use Rattle.space_model.specs.Region.{landing, region_of};
ghost use Rattle.space_model.specs.Slabs.{after_fill, fill_at, lowest_free};
ghost use Rattle.space_model.specs.Step.{is_live};
ghost use Rattle.space_model.specs.Sound.{Sound};
ghost use Rattle.bin_book.specs.Bins.{free_of};
ghost use Rattle.arena_core.specs.Indexes.{HasPlaces, space_of};
ghost use Rattle.arena_core.specs.Slabs.{IsBooked, slabs_filled, slabs_taken};

use crate::indexes::Indexes;
use size_classes::Addrs;
use space_model::{Addresses, Reply};
use std::alloc::AllocError as NoMemory;

/// The client takes the lowest free regions of a class that has some, so many or as many as there are. Where memory is
/// wanting for the list of their addresses, nothing changes.
fn take(indexes: &mut Indexes, client: u32, class: u8, count: u32) -> Result<Reply, NoMemory>
    requires client { client < 32 }
    requires class { class < 36 }
    requires count { 0 < count }
    requires live { is_live (space_of indexes.old).life ≡ true }
    requires some { ¬ (free_of class indexes.old.regions.slabs ≡ []) }
    requires sound { Sound (space_of indexes.old) }
    requires booked { IsBooked (space_of indexes.old) indexes.old.regions.slabs }
    ensures after { OnOk result (space_of indexes.new
        ≡ (fill_at (space_of indexes.old) client class (lowest_free class count (space_of indexes.old))).after) }
    ensures reply { IfOk result (λ told. told
        ≡ (fill_at (space_of indexes.old) client class (lowest_free class count (space_of indexes.old))).reply) }
    ensures err { OnErr result (space_of indexes.new ≡ space_of indexes.old) }
    ensures slabs { OnOk result (indexes.new.regions.slabs ≡ slabs_taken (lowest_free class count (space_of indexes.old)) indexes.old.regions.slabs) }
    ensures same { OnErr result (indexes.new.regions.slabs ≡ indexes.old.regions.slabs) }
    ensures places { (n : ℕ) → HasPlaces indexes.old n → HasPlaces indexes.new n }
{
    let mut addrs = Addrs::new(indexes.alloc);
    addrs.reserve(u64::from(count))?;
    indexes.regions.fill(client, class, count, &mut addrs);
    Ok(Reply::Regions(Addresses::new(addrs)))
}

/// The client takes the lowest free regions of a small class, if there are some.
pub fn fill(indexes: &mut Indexes, client: u32, class: u8, count: u32) -> Result<Reply, NoMemory>
    requires client { client < 32 }
    requires class { class < 36 }
    requires count { 0 < count }
    requires sound { Sound (space_of indexes.old) }
    requires booked { IsBooked (space_of indexes.old) indexes.old.regions.slabs }
    ensures after { OnOk result (space_of indexes.new ≡ (after_fill (space_of indexes.old) client class count).after) }
    ensures reply { IfOk result (λ told. told ≡ (after_fill (space_of indexes.old) client class count).reply) }
    ensures err { OnErr result (space_of indexes.new ≡ space_of indexes.old) }
    ensures slabs { OnOk result (indexes.new.regions.slabs ≡ slabs_filled (space_of indexes.old) class count indexes.old.regions.slabs) }
    ensures same { OnErr result (indexes.new.regions.slabs ≡ indexes.old.regions.slabs) }
    ensures places { (n : ℕ) → HasPlaces indexes.old n → HasPlaces indexes.new n }
{
    if !indexes.life.is_live() {
        return Ok(Reply::NoArena);
    }
    if !indexes.regions.has_free(class) {
        return Ok(Reply::Nothing);
    }
    take(indexes, client, class, count)
}
