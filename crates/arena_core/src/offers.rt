//! What offering an extent to the dalloc hook does to the indexes.

ghost use Rattle.std.specs.Prelude.{◌≡◌, ℕ, ◌+◌, IsTrue, find};
ghost use Rattle.space_model.specs.declared.entries.Op.TheVariants.{OfferDone};
ghost use Rattle.space_model.specs.Part.{is_flight_at};
ghost use Rattle.space_model.specs.Purging.{after_offer, is_regranted, keep_offer, offer_at};
ghost use Rattle.space_model.specs.Step.{op_stands};
ghost use Rattle.space_model.specs.Sound.{Sound};
ghost use Rattle.arena_core.specs.Indexes.{HasPlaces, Takes, space_of};

use crate::indexes::Indexes;
use part_book::PartBook;
use space_model::{Answer, Ask, Heard, Offered, Part, Reply, Rest, Span, State};

/// An extent in flight is the arena's no more, and the client asks the hook to take it.
pub fn offer(indexes: &mut Indexes, client: u32, span: Span) -> Reply
    requires room { HasPlaces indexes.old 1 }
    ensures { Takes indexes.old indexes.new indexes.old.regions.slabs
        (offer_at (space_of indexes.old) client (find (is_flight_at client span) (space_of indexes.old).parts)) result }
{
    if let Some(part) = indexes.extents.flight(client, span) {
        indexes.extents.take_off(&part);
        indexes.offers.push(Offered {
            client,
            span: part.span,
            committed: part.committed,
        });
    }
    Reply::Noted
}

/// Whether the pages of an offer have an owner again.
fn is_regranted(found: Option<u64>, extents: &PartBook, span: Span) -> bool
    ensures { result ≡ is_regranted found span extents.now.parts }
{
    found.is_some() || extents.meets(span)
}

/// An offer whose hook refused is an extent again, unless its pages have an owner again.
fn keep_offer(
    indexes: &mut Indexes,
    client: u32,
    found: Option<u64>,
    span: Span,
    committed: bool,
) -> Reply
    requires sound { Sound (keep_offer (space_of indexes.old) client found span committed).after }
    requires room { HasPlaces indexes.old 1 }
    ensures { Takes indexes.old indexes.new indexes.old.regions.slabs
        (keep_offer (space_of indexes.old) client found span committed) result }
{
    if is_regranted(found, &indexes.extents, span) {
        return Reply::Abandoned(indexes.extents.next_flight(client));
    }
    indexes.extents.add(Part {
        span,
        state: State::Flight(client, Rest::Retained),
        committed,
    });
    Reply::Kept
}

/// Takes in the answer to the dalloc of an offer, which is no offer any more.
pub fn offer_done(indexes: &mut Indexes, client: u32, heard: Heard, found: Option<u64>) -> Reply
    requires stands { IsTrue (op_stands (space_of indexes.old) client (OfferDone heard found)) }
    requires sound { Sound (space_of indexes.old) }
    requires room { HasPlaces indexes.old 1 }
    ensures { Takes indexes.old indexes.new indexes.old.regions.slabs
        (after_offer (space_of indexes.old) client found heard.ask heard.answer) result }
{
    let Ask::Dalloc { span, committed } = heard.ask else {
        return Reply::Noted;
    };
    match heard.answer {
        Answer::Done => {
            indexes.offers.take(client, span, committed);
            Reply::Next(indexes.extents.next_flight(client))
        }
        Answer::Refused => {
            indexes.offers.take(client, span, committed);
            keep_offer(indexes, client, found, span, committed)
        }
        Answer::Placed { .. } => Reply::Noted,
    }
}
