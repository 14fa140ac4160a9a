//! How an arena is emptied and ended.

ghost use Rattle.std.specs.Prelude.{◌≡◌, ◌<◌, ◌≤◌, ℕ, IsTrue, [], ◌∷◌, cond};
ghost use Rattle.space_model.specs.Part.{begins_at, exchanged, moved_to, turned};
ghost use Rattle.space_model.specs.Ending.{after_destroy, after_destroy_take, after_reset, emptied, ended, flight_count, held_count, reset_stands};
ghost use Rattle.space_model.specs.Sound.{Sound};
ghost use Rattle.part_book.specs.Rows.{IsApart};
ghost use Rattle.part_book.specs.Books.{IsThere};
ghost use Rattle.arena_core.specs.Ends.{goes_to};
ghost use Rattle.arena_core.specs.Indexes.{Does, HasPlaces, space_of};
ghost use Rattle.arena_core.specs.Slabs.{IsBooked, slabs_left};

use crate::indexes::Indexes;
use crate::purges;
use part_book::PartBook;
use space_model::{Life, Part, Reply, Rest, State};

/// What others have in the arena, or the client in its cache: how many regions, and how many extents in flight or offered.
fn load(indexes: &Indexes, client: u32, cached: u64) -> (u64, u64)
    requires client { client < 32 }
    requires stands { IsTrue (reset_stands (space_of indexes.now) client cached) }
    requires sound { Sound (space_of indexes.now) }
    ensures held { result.0 ≡ held_count (space_of indexes.now) client cached }
    ensures flights { result.1 ≡ flight_count (space_of indexes.now) client }
{
    let held = indexes.regions.count_others(client) + cached;
    let flights = indexes.extents.count_flights() + indexes.offers.len();
    (held, flights)
}

/// Whether an extent in a state goes to a list when an arena is emptied into it.
fn goes_to(rest: Rest, state: State) -> bool
    ensures { result ≡ goes_to rest state }
{
    match rest {
        Rest::Dirty => state.is_active(),
        _ => !state.is_listed(rest),
    }
}

/// Moves an extent to a list, if it goes there.
fn move_one(extents: &mut PartBook, part: &Part, rest: Rest)
    requires { IsThere extents.old.parts part.now }
    ensures parts { extents.new.parts ≡ cond (goes_to rest part.now.state)
        (exchanged (begins_at part.now.span.first) extents.old.parts (moved_to rest part.now ∷ [])) extents.old.parts }
    ensures spare { extents.new.spare ≡ extents.old.spare }
{
    if goes_to(rest, part.state) {
        extents.change(part, rest.state(), part.committed);
    }
}

/// Moves each extent that goes there to a list, in order of address.
#[tactic(auto, using(crate::proofs::Swaps::there_placed))]
fn move_all(extents: &mut PartBook, rest: Rest)
    requires { IsApart extents.old.parts }
    ensures parts { extents.new.parts ≡ turned (λ p. goes_to rest p.state) (moved_to rest) extents.old.parts }
    ensures spare { extents.new.spare ≡ extents.old.spare }
{
    let mut page = 0;
    while let Some(part) = extents.first_from(page) {
        move_one(extents, &part, rest);
        page = part.span.first + part.span.pages;
    }
}

/// All regions go, and each extent that served them is dirty.
fn empty(indexes: &mut Indexes) -> Reply
    requires { Sound (space_of indexes.old) }
    ensures { Does indexes.old indexes.new [] (emptied (space_of indexes.old)) result }
{
    move_all(&mut indexes.extents, Rest::Dirty);
    indexes.regions.clear();
    if indexes.dirty.ms() == 0 {
        return Reply::Purge {
            lazy: purges::is_lazy(indexes),
        };
    }
    Reply::Noted
}

/// Discards all regions, unless the arena is in use.
#[tactic(auto, using(crate::proofs::Books::stays_left))]
pub fn reset(indexes: &mut Indexes, client: u32, cached: u64) -> Reply
    requires client { client < 32 }
    requires stands { IsTrue (reset_stands (space_of indexes.old) client cached) }
    requires sound { Sound (space_of indexes.old) }
    requires booked { IsBooked (space_of indexes.old) indexes.old.regions.slabs }
    ensures { Does indexes.old indexes.new (slabs_left (after_reset (space_of indexes.old) client cached).after indexes.old.regions.slabs)
        (after_reset (space_of indexes.old) client cached) result }
{
    if !indexes.life.is_live() {
        return Reply::NoArena;
    }
    let (held, flights) = load(indexes, client, cached);
    if held == 0 && flights == 0 {
        return empty(indexes);
    }
    Reply::Busy {
        held,
        flights,
        threads: 0,
    }
}

/// All regions go, each extent is retained, and the client is destroying the arena.
fn end(indexes: &mut Indexes, client: u32) -> Reply
    requires { Sound (space_of indexes.old) }
    ensures { Does indexes.old indexes.new [] (ended (space_of indexes.old) client) result }
{
    move_all(&mut indexes.extents, Rest::Retained);
    indexes.regions.clear();
    indexes.life = Life::Dying(client);
    Reply::Noted
}

/// Ends the arena, unless it is in use.
#[tactic(auto, using(crate::proofs::Books::stays_left))]
pub fn destroy(indexes: &mut Indexes, client: u32, cached: u64) -> Reply
    requires client { client < 32 }
    requires stands { IsTrue (reset_stands (space_of indexes.old) client cached) }
    requires sound { Sound (space_of indexes.old) }
    requires booked { IsBooked (space_of indexes.old) indexes.old.regions.slabs }
    ensures after { space_of indexes.new ≡ (after_destroy (space_of indexes.old) client cached).after }
    ensures reply { result ≡ (after_destroy (space_of indexes.old) client cached).reply }
    ensures slabs { indexes.new.regions.slabs ≡ slabs_left (after_destroy (space_of indexes.old) client cached).after indexes.old.regions.slabs }
    ensures places { (n : ℕ) → HasPlaces indexes.old n → HasPlaces indexes.new n }
{
    if !indexes.life.is_live() {
        return Reply::NoArena;
    }
    let (held, flights) = load(indexes, client, cached);
    let threads = indexes.bound.as_slice().len() as u64;
    if held == 0 && flights == 0 && threads == 0 {
        return end(indexes, client);
    }
    Reply::Busy {
        held,
        flights,
        threads,
    }
}

/// Takes the oldest extent off an arena that is being destroyed. After the last one it is absent.
pub fn destroy_take(indexes: &mut Indexes) -> Reply
    ensures { Does indexes.old indexes.new indexes.old.regions.slabs (after_destroy_take (space_of indexes.old)) result }
{
    let Some(part) = indexes.extents.first() else {
        indexes.life = Life::Absent;
        return Reply::Nothing;
    };
    indexes.extents.take_off(&part);
    Reply::Doomed {
        span: part.span,
        committed: part.committed,
    }
}
