//! How an arena is emptied and ended.

ghost use Rattle.std.specs.Prelude.{◌≡◌, ◌==◌, ◌&&◌, ◌≤◌, IfOk, OnOk, OnErr, IsTrue, not, map, count_by};
ghost use Rattle.std.specs.List.{list_any};
ghost use Rattle.space_model.specs.Part.{is_active, is_flight, is_in_flight, is_listed, moved_to, turned, turned_in_order};
ghost use Rattle.space_model.specs.Region.{is_held_by, is_held_by_other};
ghost use Rattle.space_model.specs.Ending.{held_count, flight_count, if_free, reset_reply, emptied, after_reset, reset_stands, ended, after_destroy, doom_at, after_destroy_take};
ghost use Rattle.space_model.specs.Stepped.{IsMade};
ghost use Rattle.space_model.specs.Sound.{Sound};

use crate::Replied;
use crate::frees::{in_order, is_dirty_time_over, is_lazy};
use crate::moves::replace;
use crate::stands::is_held_by;
use space_model::{Life, Part, Parts, Region, Reply, Rest, Seq, Space};
use std::alloc::{AllocError as NoMemory, Global};

/// Whether a client other than this one holds the region.
fn is_held_by_other(client: u32, region: &Region) -> bool
    ensures { result ≡ is_held_by_other client region.now }
{
    matches!(region.holder, Some(holder) if holder != client)
}

/// How many regions other clients hold.
fn others_count(space: &Space, client: u32) -> u64
    ensures { result ≡ count_by (is_held_by_other client) space.now.regions }
{
    let all = space.regions.as_slice().iter();
    all.filter(|region| is_held_by_other(client, region))
        .count() as u64
}

/// How many regions the client holds.
fn own_count(space: &Space, client: u32) -> u64
    ensures { result ≡ count_by (is_held_by client) space.now.regions }
{
    let all = space.regions.as_slice().iter();
    all.filter(|region| is_held_by(client, region)).count() as u64
}

/// Whether the client has an extent in flight.
fn has_flights(space: &Space, client: u32) -> bool
    ensures { result ≡ list_any (λ p. is_flight client p.state) space.now.parts }
{
    let mut all = space.parts.as_slice().iter();
    all.any(|part| part.state.is_flight_of(client))
}

/// Whether the client has made an offer that isn't answered.
fn has_offers(space: &Space, client: u32) -> bool
    ensures { result ≡ list_any (λ o. o.client == client) space.now.offers }
{
    let mut all = space.offers.as_slice().iter();
    all.any(|offer| offer.client == client)
}

/// Whether the client may end what is in the arena.
pub fn reset_stands(space: &Space, client: u32, cached: u64) -> bool
    ensures { result ≡ reset_stands space.now client cached }
{
    !has_flights(space, client) && !has_offers(space, client) && cached <= own_count(space, client)
}

/// How many extents others have in flight.
fn part_count(space: &Space, client: u32) -> u64
    ensures { result ≡ count_by (λ p. is_in_flight p.state && not (is_flight client p.state)) space.now.parts }
{
    let all = space.parts.as_slice().iter();
    all.filter(|part| part.state.is_in_flight() && !part.state.is_flight_of(client))
        .count() as u64
}

/// How many extents others have offered.
fn offer_count(space: &Space, client: u32) -> u64
    ensures { result ≡ count_by (λ o. not (o.client == client)) space.now.offers }
{
    let all = space.offers.as_slice().iter();
    all.filter(|offer| offer.client != client).count() as u64
}

/// What others have in the arena, or the client in its cache: how many regions, and how many extents in flight or
/// offered.
#[tactic(auto, using(space_model::proofs::Bounds::held_apart, space_model::proofs::Bounds::cached_least))]
fn load(space: &Space, client: u32, cached: u64) -> (u64, u64)
    requires { IsTrue (reset_stands space.now client cached) }
    ensures held { result.0 ≡ held_count space.now client cached }
    ensures flights { result.1 ≡ flight_count space.now client }
{
    space.regions.is_short();
    space.parts.is_short();
    space.offers.is_short();
    let held = others_count(space, client) + cached;
    let flights = part_count(space, client) + offer_count(space, client);
    (held, flights)
}

/// The extent as it goes to the list of a rest.
fn moved_to(rest: Rest, part: Part) -> Part
    ensures { result ≡ moved_to rest part }
{
    Part {
        state: rest.state(),
        ..part
    }
}

/// The extents as they go to the list of a rest.
fn all_moved(alloc: Global, rest: Rest, parts: &[Part]) -> Result<Vec<Part>, NoMemory>
    ensures { IfOk result (λ moved. moved.items ≡ map (moved_to rest) parts.now) }
{
    let all = parts.iter();
    all.map(|part| moved_to(rest, *part)).collect(alloc)
}

/// The extents as they go to the list of a rest, in order of address.
fn moved_in_order(rest: Rest, parts: &Vec<Part>) -> Result<Vec<Part>, NoMemory>
    ensures { IfOk result (λ moved. moved.items ≡ turned_in_order (moved_to rest) parts.now.items) }
{
    let alloc = *parts.allocator();
    let moved = all_moved(alloc, rest, parts.as_slice())?;
    in_order(alloc, moved.as_slice())
}

/// The extents after those that serve regions have become dirty.
fn active_to_dirty(parts: &Parts) -> Result<Vec<Part>, NoMemory>
    ensures { IfOk result (λ all. all.items ≡ turned (λ p. is_active p.state) (moved_to Rest.Dirty) parts.now) }
{
    let alloc = parts.alloc();
    let all = parts.as_slice().iter().copied();
    let mut others: Vec<Part> = all.filter(|part| !part.state.is_active()).collect(alloc)?;
    let all = parts.as_slice().iter().copied();
    let gone: Vec<Part> = all.filter(|part| part.state.is_active()).collect(alloc)?;
    let pieces = moved_in_order(Rest::Dirty, &gone)?;
    others.extend_from_slice(pieces.as_slice())?;
    Ok(others)
}

/// The extents after all have become retained.
fn all_to_retained(parts: &Parts) -> Result<Vec<Part>, NoMemory>
    ensures { IfOk result (λ all. all.items ≡ turned (λ p. not (is_listed Rest.Retained p.state)) (moved_to Rest.Retained) parts.now) }
{
    let alloc = parts.alloc();
    let all = parts.as_slice().iter().copied();
    let gone: Vec<Part> = all
        .filter(|part| !part.state.is_listed(Rest::Retained))
        .collect(alloc)?;
    let all = parts.as_slice().iter().copied();
    let mut others: Vec<Part> = all
        .filter(|part| part.state.is_listed(Rest::Retained))
        .collect(alloc)?;
    let pieces = moved_in_order(Rest::Retained, &gone)?;
    others.extend_from_slice(pieces.as_slice())?;
    Ok(others)
}

/// All regions go, and each extent that served them is dirty.
fn empty(space: &mut Space) -> Replied
    ensures { IsMade space.old space.new result (emptied space.old) }
{
    let alloc = space.regions.alloc();
    let parts = active_to_dirty(&space.parts)?;
    space.parts = Seq::from_vec(parts);
    space.regions = Seq::new(alloc);
    if is_dirty_time_over(space) {
        let lazy = is_lazy(space);
        return Ok(Reply::Purge { lazy });
    }
    Ok(Reply::Noted)
}

/// Discards all regions, unless the arena is in use.
pub fn reset(space: &mut Space, client: u32, cached: u64) -> Replied
    requires { IsTrue (reset_stands space.old client cached) }
    ensures { IsMade space.old space.new result (after_reset space.old client cached) }
{
    if !space.life.is_live() {
        return Ok(Reply::NoArena);
    }
    let (held, flights) = load(space, client, cached);
    if held == 0 && flights == 0 {
        return empty(space);
    }
    Ok(Reply::Busy {
        held,
        flights,
        threads: 0,
    })
}

/// All regions go, each extent is retained, and the client is destroying the arena.
fn end(space: &mut Space, client: u32) -> Replied
    ensures { IsMade space.old space.new result (ended space.old client) }
{
    let alloc = space.regions.alloc();
    let parts = all_to_retained(&space.parts)?;
    space.parts = Seq::from_vec(parts);
    space.regions = Seq::new(alloc);
    space.life = Life::Dying(client);
    Ok(Reply::Noted)
}

/// Ends the arena, unless it is in use.
pub fn destroy(space: &mut Space, client: u32, cached: u64) -> Replied
    requires { IsTrue (reset_stands space.old client cached) }
    ensures { IsMade space.old space.new result (after_destroy space.old client cached) }
{
    if !space.life.is_live() {
        return Ok(Reply::NoArena);
    }
    let (held, flights) = load(space, client, cached);
    let threads = space.bound.as_slice().len() as u64;
    if held == 0 && flights == 0 && threads == 0 {
        return end(space, client);
    }
    Ok(Reply::Busy {
        held,
        flights,
        threads,
    })
}

/// Takes the oldest extent off an arena that is being destroyed; after the last one it is absent.
pub fn destroy_take(space: &mut Space) -> Replied
    ensures { IsMade space.old space.new result (after_destroy_take space.old) }
{
    let Some(part) = space.parts.as_slice().first().copied() else {
        space.life = Life::Absent;
        return Ok(Reply::Nothing);
    };
    let reply = Reply::Doomed {
        span: part.span,
        committed: part.committed,
    };
    replace(space, &part, &[], reply)
}
