//! How unused extents are purged.

ghost use Rattle.std.specs.Prelude.{◌≡◌, ◌==◌, ◌&&◌, IfOk, OnOk, OnErr, IsTrue, Some, find, true};
ghost use Rattle.std.specs.Bool.{beq};
ghost use Rattle.std.specs.List.{list_any, position};
ghost use Rattle.space_model.specs.Part.{is_flight_at, is_listed, listed, rest_of};
ghost use Rattle.space_model.specs.Purging.{count_listed, purge_at, after_purge_take, is_purgeable, lazy_at, after_lazy, lazy_stands, offer_at, is_offer, without_offer, is_regranted, keep_offer, after_offer, offer_stands, decommit_at, after_decommit, decommit_stands, forced_stands};
ghost use Rattle.space_model.specs.Stepped.{IsMade};
ghost use Rattle.space_model.specs.Sound.{Sound};

use crate::Replied;
use crate::finds::{any_meets, flight, next_flight};
use crate::frees::is_lazy;
use crate::moves::{add_retained, not_beginning_at, replace, taken_out};
use crate::paces::pages_listed;
use crate::stands::{has_flight, is_yes_or_no};
use space_model::{
    Answer, Ask, Heard, Offered, Offers, Part, Parts, Reply, Rest, Seq, Space, Span, State,
};
use std::alloc::AllocError as NoMemory;

/// Whether extents of the rest can be purged.
pub fn is_purgeable(rest: Rest) -> bool
    ensures { result ≡ is_purgeable rest }
{
    matches!(rest, Rest::Dirty | Rest::Muzzy)
}

/// The oldest extent that is listed among those of the rest.
fn oldest(rest: Rest, parts: &Parts) -> Option<Part>
    ensures { result ≡ find (λ p. is_listed rest p.state) parts.now }
{
    let mut all = parts.as_slice().iter().copied();
    all.find(|part| part.state.is_listed(rest))
}

/// An extent leaves its list to be purged.
fn purge(space: &mut Space, client: u32, rest: Rest, part: Part) -> Replied
    ensures { IsMade space.old space.new result (purge_at space.old client rest (Some part)) }
{
    let all = space.parts.as_slice().iter();
    let reply = Reply::Taken {
        span: part.span,
        lazy: Rest::Dirty.state().is_listed(rest) && is_lazy(space),
        listed: all.filter(|part| part.state.is_listed(rest)).count() as u64,
    };
    replace(space, &part, &[taken_out(client, part)], reply)
}

/// Takes the oldest extent of the rest out, where more pages are listed than may stay.
pub fn purge_take(space: &mut Space, client: u32, rest: Rest, keep: u64) -> Replied
    requires { Sound space.old }
    ensures { IsMade space.old space.new result (after_purge_take space.old client rest keep) }
{
    if !space.life.is_live() {
        return Ok(Reply::NoArena);
    }
    if pages_listed(rest, space) <= keep {
        return Ok(Reply::Nothing);
    }
    match oldest(rest, &space.parts) {
        Some(part) => purge(space, client, rest, part),
        None => Ok(Reply::Nothing),
    }
}

/// Whether the extent belongs among those of the rest.
fn belongs(rest: Rest, part: &Part) -> bool
    ensures { result ≡ is_listed rest (listed (rest_of part.now.state)) }
{
    part.state.rest().state().is_listed(rest)
}

/// Whether the answer to a lazy purge may be taken in.
pub fn lazy_stands(space: &Space, client: u32, heard: Heard) -> bool
    ensures { result ≡ lazy_stands space.now client heard.ask heard.answer }
{
    let Ask::PurgeLazy(span) = heard.ask else {
        return false;
    };
    let found = flight(space.parts.as_slice(), client, span);
    is_yes_or_no(heard.answer) && matches!(found, Some(part) if belongs(Rest::Dirty, &part))
}

/// Takes in the answer to a lazy purge.
pub fn lazy_done(space: &mut Space, client: u32, heard: Heard) -> Replied
    ensures { IsMade space.old space.new result (after_lazy space.old client heard.ask heard.answer) }
{
    let Ask::PurgeLazy(span) = heard.ask else {
        return Ok(Reply::Noted);
    };
    let found = flight(space.parts.as_slice(), client, span);
    match (heard.answer, found) {
        (Answer::Done, Some(part)) => {
            let muzzy = Part {
                state: State::Flight(client, Rest::Muzzy),
                ..part
            };
            replace(space, &part, &[muzzy], Reply::Lazy(true))
        }
        (Answer::Refused, _) => Ok(Reply::Lazy(false)),
        _ => Ok(Reply::Noted),
    }
}

/// An extent in flight is offered to the dalloc hook.
pub fn offer(space: &mut Space, client: u32, span: Span) -> Replied
    ensures { IsMade space.old space.new result (offer_at space.old client (find (is_flight_at client span) space.old.parts)) }
{
    let Some(part) = flight(space.parts.as_slice(), client, span) else {
        return Ok(Reply::Noted);
    };
    let alloc = space.parts.alloc();
    let others = not_beginning_at(alloc, part.span.first, space.parts.as_slice())?;
    space.offers.push(Offered {
        client,
        span: part.span,
        committed: part.committed,
    })?;
    space.parts = Seq::from_vec(others);
    Ok(Reply::Noted)
}

/// Whether it is the client's offer of the span, committed or not.
fn is_offer(client: u32, span: Span, committed: bool, offer: &Offered) -> bool
    ensures { result ≡ is_offer client span committed offer.now }
{
    offer.client == client && offer.span == span && offer.committed == committed
}

/// Whether the client has offered the span, committed or not.
fn has_offer(offers: &Offers, client: u32, span: Span, committed: bool) -> bool
    ensures { result ≡ list_any (is_offer client span committed) offers.now }
{
    let mut all = offers.as_slice().iter();
    all.any(|offer| is_offer(client, span, committed, offer))
}

/// Whether the answer to a dalloc may be taken in.
pub fn offer_stands(space: &Space, client: u32, heard: Heard) -> bool
    ensures { result ≡ offer_stands space.now client heard.ask heard.answer }
{
    let Ask::Dalloc { span, committed } = heard.ask else {
        return false;
    };
    is_yes_or_no(heard.answer) && has_offer(&space.offers, client, span, committed)
}

/// The place of the client's first offer of the span, committed or not.
fn offer_place(offers: &[Offered], client: u32, span: Span, committed: bool) -> Option<usize>
    ensures { result ≡ position (is_offer client span committed) offers.now }
{
    let mut all = offers.iter();
    all.position(|offer| is_offer(client, span, committed, offer))
}

/// Takes the client's first offer of the span off, if there is one.
#[tactic(auto, using(crate::proofs::Bounds::first_place, crate::proofs::Bounds::no_place))]
fn take_offer_off(offers: &mut Offers, client: u32, span: Span, committed: bool)
    ensures { offers.new ≡ without_offer client span committed offers.old }
{
    if let Some(place) = offer_place(offers.as_slice(), client, span, committed) {
        offers.remove(place);
    }
}

/// An offer whose hook refused is an extent again, unless its pages have an owner again.
fn keep_offer(
    space: &mut Space,
    client: u32,
    found: Option<u64>,
    span: Span,
    committed: bool,
) -> Replied
    ensures { IsMade space.old space.new result (keep_offer space.old client found span committed) }
{
    if found.is_some() || any_meets(space.parts.as_slice(), span) {
        let next = next_flight(client, space.parts.as_slice());
        return Ok(Reply::Abandoned(next));
    }
    add_retained(&mut space.parts, client, span, committed)?;
    Ok(Reply::Kept)
}

/// Takes in the answer to the dalloc of an offer, which is no offer any more.
pub fn offer_done(space: &mut Space, client: u32, heard: Heard, found: Option<u64>) -> Replied
    ensures after { OnOk result (space.new ≡ (after_offer space.old client found heard.ask heard.answer).after) }
    ensures reply { IfOk result (λ told. told ≡ (after_offer space.old client found heard.ask heard.answer).reply) }
    ensures err { OnErr result (space.new ≡ space.old) }
{
    let Ask::Dalloc { span, committed } = heard.ask else {
        return Ok(Reply::Noted);
    };
    let reply = match heard.answer {
        Answer::Done => Reply::Next(next_flight(client, space.parts.as_slice())),
        Answer::Refused => keep_offer(space, client, found, span, committed)?,
        Answer::Placed { .. } => return Ok(Reply::Noted),
    };
    take_offer_off(&mut space.offers, client, span, committed);
    Ok(reply)
}

/// Whether the answer to a decommit may be taken in.
pub fn decommit_stands(space: &Space, client: u32, heard: Heard) -> bool
    ensures { result ≡ decommit_stands space.now client heard.ask heard.answer }
{
    let Ask::Decommit(span) = heard.ask else {
        return false;
    };
    let found = flight(space.parts.as_slice(), client, span);
    is_yes_or_no(heard.answer)
        && matches!(found, Some(part) if part.committed && belongs(Rest::Retained, &part))
}

/// Takes in the answer to a decommit.
pub fn decommit_done(space: &mut Space, client: u32, heard: Heard) -> Replied
    ensures { IsMade space.old space.new result (after_decommit space.old client heard.ask heard.answer) }
{
    let Ask::Decommit(span) = heard.ask else {
        return Ok(Reply::Noted);
    };
    let found = flight(space.parts.as_slice(), client, span);
    match (heard.answer, found) {
        (Answer::Done, Some(part)) => {
            let decommitted = Part {
                committed: false,
                ..part
            };
            replace(space, &part, &[decommitted], Reply::Decommitted(true))
        }
        (Answer::Refused, _) => Ok(Reply::Decommitted(false)),
        _ => Ok(Reply::Noted),
    }
}

/// Whether the answer to a forced purge may be taken in.
pub fn forced_stands(space: &Space, client: u32, heard: Heard) -> bool
    ensures { result ≡ forced_stands space.now client heard.ask heard.answer }
{
    let Ask::PurgeForced(span) = heard.ask else {
        return false;
    };
    is_yes_or_no(heard.answer) && has_flight(space, client, span)
}
