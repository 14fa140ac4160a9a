//! The extents that are offered to a dalloc hook.

ghost use Rattle.std.specs.Prelude.{◌≡◌, ℕ, ◌+◌, ◌==◌, ◌<◌, ◌≤◌, ◌^◌, [], ◌∷◌, ◌++◌, length, OnOk};
ghost use Rattle.std.specs.List.{list_any, position};
ghost use Rattle.space_model.specs.Purging.{is_offer, without_offer};

use space_model::{Offered, Span};
use std::alloc::{AllocError as NoMemory, Global};
use std::marker::Model;

/// The offers of an arena, in the order in which they were made. Contracts see them, and how many more there are places
/// for.
#[derive(Drop)]
pub struct OfferList {
    offers: Vec<Offered>,
}

impl Model for OfferList {
    ghost use Rattle.arena_core.specs.OfferLists.{Offering, shown};

    ghost Value = { Offering };

    ghost view = { shown };
}

impl OfferList {
    /// No offer, and no place for one.
    pub fn new(alloc: Global) -> Self
        ensures { result.offers ≡ [] }
    {
        OfferList {
            offers: Vec::new(alloc),
        }
    }

    /// How many offers there are.
    pub fn len(&self) -> u64
        ensures len { result ≡ length self.now.offers }
        ensures few { result < 2 ^ 63 }
    {
        self.offers.len() as u64
    }

    /// Whether the client has offered the span, committed or not.
    pub fn contains(&self, client: u32, span: Span, committed: bool) -> bool
        ensures { result ≡ list_any (is_offer client span committed) self.now.offers }
    {
        let mut all = self.offers.iter();
        all.any(|offer| is_offer(offer, client, span, committed))
    }

    /// Whether the client has made an offer that isn't answered.
    pub fn has_any_of(&self, client: u32) -> bool
        ensures { result ≡ list_any (λ o. o.client == client) self.now.offers }
    {
        self.offers.iter().any(|offer| offer.client == client)
    }

    /// Makes places for at least `more` further offers. The offers stay.
    pub fn reserve(&mut self, more: u64) -> Result<(), NoMemory>
        ensures offers { self.new.offers ≡ self.old.offers }
        ensures kept { self.old.spare ≤ self.new.spare }
        ensures ok { OnOk result (more ≤ self.new.spare) }
    {
        self.offers.reserve(more as usize)?;
        Ok(())
    }

    /// Puts an offer at the end. It takes a place.
    pub fn push(&mut self, offer: Offered)
        requires room { 0 < self.old.spare }
        ensures offers { self.new.offers ≡ self.old.offers ++ offer ∷ [] }
        ensures spare { self.old.spare ≤ self.new.spare + 1 }
    {
        self.offers.push(offer).unwrap();
    }

    /// Takes the client's first offer of the span off, if there is one.
    pub fn take(&mut self, client: u32, span: Span, committed: bool)
        ensures offers { self.new.offers ≡ without_offer client span committed self.old.offers }
        ensures spare { self.old.spare ≤ self.new.spare }
    {
        if let Some(place) = place_of(self.offers.as_slice(), client, span, committed) {
            self.offers.remove(place);
        }
    }
}

/// Whether it is the client's offer of the span, committed or not.
fn is_offer(offer: &Offered, client: u32, span: Span, committed: bool) -> bool
    ensures { result ≡ is_offer client span committed offer.now }
{
    offer.client == client && offer.span == span && offer.committed == committed
}

/// The place of the client's first offer of the span, committed or not.
fn place_of(offers: &[Offered], client: u32, span: Span, committed: bool) -> Option<usize>
    ensures { result ≡ position (is_offer client span committed) offers.now }
{
    let mut all = offers.iter();
    all.position(|offer| is_offer(offer, client, span, committed))
}
