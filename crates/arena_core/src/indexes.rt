//! An arena's space as its indexes keep it.

ghost use Rattle.std.specs.Prelude.{◌≡◌, ℕ, OnOk};
ghost use Rattle.arena_core.specs.Indexes.{HasPlaces, space_of};

use crate::offer_list::OfferList;
use decay_curve::Decay;
use part_book::PartBook;
use region_book::RegionBook;
use space_model::{Clients, Life};
use std::alloc::{AllocError as NoMemory, Global};

/// A space: its extents, its regions and its offers with places for more, and all else as it is.
#[derive(Drop)]
pub struct Indexes {
    pub life: Life,
    pub extents: PartBook,
    pub regions: RegionBook,
    pub offers: OfferList,
    pub bound: Clients,
    pub box_no: u32,
    pub dirty: Decay,
    pub muzzy: Decay,
    pub grow: u64,
    pub grow_limit: u64,
    pub trims: Clients,
    pub alloc: Global,
}

/// Makes places for at least so many further extents and offers, and for the regions of as many. The space stays, and its slabs.
pub fn reserve(indexes: &mut Indexes, places: u64) -> Result<(), NoMemory>
    ensures space { space_of indexes.new ≡ space_of indexes.old }
    ensures slabs { indexes.new.regions.slabs ≡ indexes.old.regions.slabs }
    ensures kept { (n : ℕ) → HasPlaces indexes.old n → HasPlaces indexes.new n }
    ensures ok { OnOk result (HasPlaces indexes.new places) }
{
    indexes.extents.reserve(places)?;
    indexes.regions.reserve(places)?;
    indexes.offers.reserve(places)
}
