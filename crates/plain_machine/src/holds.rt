//! How a region goes from one client to another.

ghost use Rattle.std.specs.Prelude.{◌≡◌, IfOk, OnOk, OnErr, None, Some, find, if◌then◌else◌};
ghost use Rattle.space_model.specs.Region.{held_anew};
ghost use Rattle.space_model.specs.Stepped.{IsMade};
ghost use Rattle.space_model.specs.Holding.{is_held_at, is_published_at, after_publish, after_take_over};

use crate::Replied;
use crate::stands::is_held_at;
use space_model::{Region, Regions, Reply, Seq, Space};
use std::alloc::AllocError as NoMemory;

/// Whether it is a published region at the address.
fn is_published_at(addr: u64, region: &Region) -> bool
    ensures { result ≡ is_published_at addr region.now }
{
    region.holder.is_none() && region.addr == addr
}

/// The region, with another holder if it is to have one.
fn held_anew(is_due: bool, holder: Option<u32>, region: Region) -> Region
    ensures { result ≡ (if is_due then record region { holder = holder } else region) }
{
    if is_due {
        Region { holder, ..region }
    } else {
        region
    }
}

/// The regions, of which nobody holds the client's one at the address any more.
fn all_published(client: u32, addr: u64, regions: &Regions) -> Result<Vec<Region>, NoMemory>
    ensures { IfOk result (λ all. all.items ≡ held_anew (is_held_at client addr) None regions.now) }
{
    let (alloc, all) = (regions.alloc(), regions.as_slice().iter());
    all.map(|region| held_anew(is_held_at(client, addr, region), None, *region))
        .collect(alloc)
}

/// Nobody holds the client's region at the address any more.
pub fn publish(space: &mut Space, client: u32, addr: u64) -> Replied
    ensures { IsMade space.old space.new result (after_publish space.old client addr) }
{
    let regions = all_published(client, addr, &space.regions)?;
    space.regions = Seq::from_vec(regions);
    Ok(Reply::Noted)
}

/// The regions, of which the client holds the published one at the address.
fn all_taken_over(client: u32, addr: u64, regions: &Regions) -> Result<Vec<Region>, NoMemory>
    ensures { IfOk result (λ all. all.items ≡ held_anew (is_published_at addr) (Some client) regions.now) }
{
    let (alloc, all) = (regions.alloc(), regions.as_slice().iter());
    all.map(|region| held_anew(is_published_at(addr, region), Some(client), *region))
        .collect(alloc)
}

/// The published region at the address.
fn published_at(addr: u64, regions: &Regions) -> Option<Region>
    ensures { result ≡ find (is_published_at addr) regions.now }
{
    let mut all = regions.as_slice().iter().copied();
    all.find(|region| is_published_at(addr, region))
}

/// The client holds the published region at the address from now on, if there is one.
pub fn take_over(space: &mut Space, client: u32, addr: u64) -> Replied
    ensures { IsMade space.old space.new result (after_take_over space.old client addr) }
{
    if !space.life.is_live() {
        return Ok(Reply::NoArena);
    }
    let Some(found) = published_at(addr, &space.regions) else {
        return Ok(Reply::Nothing);
    };
    let regions = all_taken_over(client, addr, &space.regions)?;
    space.regions = Seq::from_vec(regions);
    Ok(Reply::Owned { class: found.class })
}
