//! What giving regions back does to the indexes, and the merges that follow it.

ghost use Rattle.std.specs.Prelude.{◌≡◌, ℕ, ◌+◌, ◌≤◌, None, Some, true, cond, IsTrue, [], ◌∷◌, filter, find, length, take};
ghost use Rattle.std.specs.List.{list_all};
ghost use Rattle.space_model.specs.Part.{is_flight_at};
ghost use Rattle.space_model.specs.Step.{after_back, after_merge, holds_at, is_emptied, is_live, is_purged, merge_stands, put_at, put_beside, rises_from, staying};
ghost use Rattle.space_model.specs.Sound.{Sound};
ghost use Rattle.part_book.specs.Books.{IsThere};
ghost use Rattle.arena_core.specs.Indexes.{Does, HasPlaces, space_of};
ghost use Rattle.arena_core.specs.Slabs.{IsBooked};

use crate::indexes::Indexes;
use crate::purges;
use size_classes::PAGE_BYTES;
use space_model::{Answer, Ask, Heard, Part, Reply, Span, State};

/// Whether the extent belongs to the dirty ones, and none of these may stay.
fn is_purged(indexes: &Indexes, part: &Part) -> bool
    ensures { result ≡ is_purged (space_of indexes.now) part.now }
{
    State::Dirty.is_listed(part.state.rest()) && indexes.dirty.ms() == 0
}

/// The neighbour of an extent in flight is in flight too from now on.
fn take_out(indexes: &mut Indexes, client: u32, part: &Part, other: Part) -> Reply
    requires { IsThere (space_of indexes.old).parts other }
    ensures { Does indexes.old indexes.new indexes.old.regions.slabs (put_beside (space_of indexes.old) client part.now (Some other)) result }
{
    let state = State::Flight(client, other.state.rest());
    indexes.extents.change(&other, state, other.committed);
    Reply::Beside(other.span)
}

/// Puts an extent in flight down that has no neighbour, unless it is to be purged.
fn put_down(indexes: &mut Indexes, client: u32, part: Part) -> Reply
    requires { IsThere (space_of indexes.old).parts part }
    ensures { Does indexes.old indexes.new indexes.old.regions.slabs (put_beside (space_of indexes.old) client part None) result }
{
    if is_purged(indexes, &part) {
        let lazy = purges::is_lazy(indexes);
        return Reply::Purge { lazy };
    }
    let state = part.state.rest().state();
    indexes.extents.change(&part, state, part.committed);
    Reply::Next(indexes.extents.next_flight(client))
}

/// Looks for a neighbour of an extent in flight that may be merged with it, and puts the extent down where there is none.
pub fn put_look(indexes: &mut Indexes, client: u32, span: Span, tries: u8) -> Reply
    ensures { Does indexes.old indexes.new indexes.old.regions.slabs
        (put_at (space_of indexes.old) client tries (find (is_flight_at client span) (space_of indexes.old).parts)) result }
{
    let Some(part) = indexes.extents.flight(client, span) else {
        return Reply::Noted;
    };
    match indexes.extents.mergeable(tries, &part) {
        Some(other) => take_out(indexes, client, &part, other),
        None => put_down(indexes, client, part),
    }
}

/// Takes in the answer to a merge.
pub fn merge_done(indexes: &mut Indexes, client: u32, heard: Heard, own_low: bool) -> Reply
    requires stands { IsTrue (merge_stands (space_of indexes.old) client heard.ask heard.answer) }
    requires sound { Sound (space_of indexes.old) }
    ensures { Does indexes.old indexes.new indexes.old.regions.slabs
        (after_merge (space_of indexes.old) client own_low heard.ask heard.answer) result }
{
    let Ask::Merge { low, high } = heard.ask else {
        return Reply::Noted;
    };
    let (Some(low), Some(high)) = (
        indexes.extents.flight(client, low),
        indexes.extents.flight(client, high),
    ) else {
        return Reply::Noted;
    };
    match heard.answer {
        Answer::Done => {
            indexes.extents.merge(&low, &high);
            Reply::Joined(Span {
                first: low.span.first,
                pages: low.span.pages + high.span.pages,
            })
        }
        Answer::Refused => {
            let (kept, other) = if own_low { (low, high) } else { (high, low) };
            let state = other.state.rest().state();
            indexes.extents.change(&other, state, other.committed);
            Reply::Joined(kept.span)
        }
        Answer::Placed { .. } => Reply::Noted,
    }
}

/// The client gives one region back. Where its extent then serves none, the extent is in flight, and the answer is true.
fn give_one(indexes: &mut Indexes, client: u32, addr: u64) -> bool
    requires held { holds_at client (space_of indexes.old).regions addr ≡ true }
    requires sound { Sound (space_of indexes.old) }
    requires booked { IsBooked (space_of indexes.old) indexes.old.regions.slabs }
    ensures after { space_of indexes.new ≡ (after_back (space_of indexes.old) client (addr ∷ [])).after }
    ensures emptied { cond result 1 0
        ≡ length (filter (is_emptied (staying client (addr ∷ []) (space_of indexes.old).regions)) (space_of indexes.old).parts) }
    ensures places { (n : ℕ) → HasPlaces indexes.old n → HasPlaces indexes.new n }
    ensures booked { IsBooked (space_of indexes.new) indexes.new.regions.slabs }
{
    let (_class, emptied) = indexes.regions.give_back(client, addr);
    if emptied {
        let part = indexes.extents.holding(addr / PAGE_BYTES).unwrap();
        let state = State::Flight(client, part.state.rest());
        indexes.extents.change(&part, state, part.committed);
    }
    emptied
}

/// The client gives the regions at the addresses back. The answer is how many extents are emptied.
pub fn give_back(indexes: &mut Indexes, client: u32, addrs: &[u64]) -> u64
    requires live { is_live (space_of indexes.old).life ≡ true }
    requires rise { rises_from 0 addrs.now ≡ true }
    requires held { list_all (holds_at client (space_of indexes.old).regions) addrs.now ≡ true }
    requires sound { Sound (space_of indexes.old) }
    requires booked { IsBooked (space_of indexes.old) indexes.old.regions.slabs }
    ensures after { space_of indexes.new ≡ (after_back (space_of indexes.old) client addrs.now).after }
    ensures emptied { result
        ≡ length (filter (is_emptied (staying client addrs.now (space_of indexes.old).regions)) (space_of indexes.old).parts) }
    ensures few { result ≤ length addrs.now }
    ensures places { (n : ℕ) → HasPlaces indexes.old n → HasPlaces indexes.new n }
    ensures booked { IsBooked (space_of indexes.new) indexes.new.regions.slabs }
{
    let mut emptied = 0;
    for addr in addrs {
        emptied += u64::from(give_one(indexes, client, *addr));
    }
    emptied
}
