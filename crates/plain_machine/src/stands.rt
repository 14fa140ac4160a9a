//! Which entries may stand.

ghost use Rattle.std.specs.Prelude.{◌≡◌, ◌==◌, ◌&&◌, true};
ghost use Rattle.std.specs.List.{list_any, list_all};
ghost use Rattle.space_model.specs.Region.{is_held_by};
ghost use Rattle.space_model.specs.Step.{is_live, is_yes_or_no, is_range_or_no, is_customer, cut_stands, grow_stands, commit_stands, has_flight, rises_from, holds_at, back_stands, may_merge, merge_stands, op_stands, stands};

use crate::ends::reset_stands;
use crate::finds::flight;
use crate::purges::{decommit_stands, forced_stands, is_purgeable, lazy_stands, offer_stands};
use crate::resizes::{join_stands, trim_done_stands, trim_stands, widen_stands};
use crate::settings::setting_stands;
use crate::slabs::{fill_stands, land_stands};
use space_model::{Answer, Ask, CLIENTS, Entry, Heard, Op, Part, Region, Space, Span};

/// Whether the answer is one to an ask other than alloc.
pub fn is_yes_or_no(answer: Answer) -> bool
    ensures { result ≡ is_yes_or_no answer }
{
    matches!(answer, Answer::Done | Answer::Refused)
}

/// Whether the client holds the region.
pub fn is_held_by(client: u32, region: &Region) -> bool
    ensures { result ≡ is_held_by client region.now }
{
    region.holder == Some(client)
}

/// Whether the client holds a region among these.
fn holds_any(regions: &[Region], client: u32) -> bool
    ensures { result ≡ list_any (is_held_by client) regions.now }
{
    regions.iter().any(|region| is_held_by(client, region))
}

/// Whether the client allocates from the arena, or holds a region of it.
fn is_customer(space: &Space, client: u32) -> bool
    ensures { result ≡ is_customer space.now client }
{
    space.bound.contains(client) || holds_any(space.regions.as_slice(), client)
}

/// Whether the client has an extent in flight with just this span.
pub fn has_flight(space: &Space, client: u32, span: Span) -> bool
    ensures { result ≡ has_flight space.now client span (λ _. true) }
{
    flight(space.parts.as_slice(), client, span).is_some()
}

/// Whether the answer to a split may be taken in.
fn cut_stands(space: &Space, client: u32, heard: Heard) -> bool
    ensures { result ≡ cut_stands space.now client heard.ask heard.answer }
{
    let Ask::Split { span, left } = heard.ask else {
        return false;
    };
    let cuts = 0 < left && left < span.pages;
    is_yes_or_no(heard.answer) && cuts && has_flight(space, client, span)
}

/// Whether the answer to an alloc may be taken in.
fn grow_stands(space: &Space, client: u32, heard: Heard) -> bool
    ensures { result ≡ grow_stands space.now client heard.ask heard.answer }
{
    match heard.ask {
        Ask::Alloc { pages, align, .. } => {
            heard.answer != Answer::Done
                && 0 < pages
                && align.is_power_of_two()
                && is_customer(space, client)
        }
        _ => false,
    }
}

/// Whether the answer to a commit may be taken in.
fn commit_stands(space: &Space, client: u32, heard: Heard) -> bool
    ensures { result ≡ commit_stands space.now client heard.ask heard.answer }
{
    let Ask::Commit(span) = heard.ask else {
        return false;
    };
    is_yes_or_no(heard.answer)
        && matches!(flight(space.parts.as_slice(), client, span), Some(part) if !part.committed)
}

/// Whether each address is above the one before it.
fn rises(addrs: &[u64]) -> bool
    ensures { result ≡ rises_from 0 addrs.now }
{
    let mut least = 0;
    for addr in addrs {
        if u128::from(*addr) < least {
            return false;
        }
        least = u128::from(*addr) + 1;
    }
    true
}

/// Whether the client holds this region at the address.
pub fn is_held_at(client: u32, addr: u64, region: &Region) -> bool
    ensures { result ≡ (is_held_by client region.now && region.now.addr == addr) }
{
    is_held_by(client, region) && region.addr == addr
}

/// Whether the client holds a region at the address.
pub fn holds_at(client: u32, regions: &[Region], addr: u64) -> bool
    ensures { result ≡ holds_at client regions.now addr }
{
    let mut all = regions.iter();
    all.any(|region| is_held_at(client, addr, region))
}

/// Whether the client holds a region at each of the addresses.
fn holds_all(client: u32, regions: &[Region], addrs: &[u64]) -> bool
    ensures { result ≡ list_all (holds_at client regions.now) addrs.now }
{
    addrs.iter().all(|addr| holds_at(client, regions, *addr))
}

/// Whether regions may be given back: at least one, by rising addresses, and each is one that the client holds.
fn back_stands(space: &Space, client: u32, addrs: &[u64]) -> bool
    ensures { result ≡ back_stands space.now client addrs.now }
{
    0 < addrs.len() && rises(addrs) && holds_all(client, space.regions.as_slice(), addrs)
}

/// Whether the answer to a merge may be taken in.
fn merge_stands(space: &Space, client: u32, heard: Heard) -> bool
    ensures { result ≡ merge_stands space.now client heard.ask heard.answer }
{
    let Ask::Merge { low, high } = heard.ask else {
        return false;
    };
    let parts = space.parts.as_slice();
    let both = (flight(parts, client, low), flight(parts, client, high));
    is_yes_or_no(heard.answer)
        && low.end() == u128::from(high.first)
        && match both {
            (Some(low), Some(high)) => {
                high.state.rest().state().is_listed(low.state.rest())
                    && low.committed == high.committed
            }
            _ => false,
        }
}

/// Whether the operation may come next.
fn op_stands(space: &Space, client: u32, op: &Op) -> bool
    ensures { result ≡ op_stands space.now client op.now }
{
    let live = space.life.is_live();
    match op {
        Op::Look { pages, align } => 0 < *pages && align.is_power_of_two(),
        Op::CutDone { heard, .. } => live && cut_stands(space, client, *heard),
        Op::GrowDone { heard, .. } => live && grow_stands(space, client, *heard),
        Op::CommitDone { heard } => live && commit_stands(space, client, *heard),
        Op::Land { span, class, count } => live
            && land_stands(space, client, *span, *class, *count),
        Op::Back { addrs } => live && back_stands(space, client, addrs.as_slice()),
        Op::PutLook { span, tries } => live && *tries < 3 && has_flight(space, client, *span),
        Op::MergeDone { heard, .. } => live && merge_stands(space, client, *heard),
        Op::Fill { class, count } => fill_stands(*class, *count),
        Op::Advance { .. } | Op::TakeOver { .. } | Op::Counts => true,
        Op::PurgeTake { rest, .. } => is_purgeable(*rest),
        Op::LazyDone { heard } => live && lazy_stands(space, client, *heard),
        Op::Offer { span } => live && has_flight(space, client, *span),
        Op::OfferDone { heard, .. } => live && offer_stands(space, client, *heard),
        Op::DecommitDone { heard } => live && decommit_stands(space, client, *heard),
        Op::ForcedDone { heard } => live && forced_stands(space, client, *heard),
        Op::Publish { addr } => live && holds_at(client, space.regions.as_slice(), *addr),
        Op::Reset { cached } | Op::Destroy { cached } => reset_stands(space, client, *cached),
        Op::DestroyTake => space.life.is_dying(client),
        Op::Set(setting) => setting_stands(*setting),
        Op::Widen { addr, pages } => live && widen_stands(space, client, *addr, *pages),
        Op::JoinDone { heard, class } => live && join_stands(space, client, *heard, *class),
        Op::Trim { addr, class } => live && trim_stands(space, client, *addr, *class),
        Op::TrimDone { heard, class } => live && trim_done_stands(space, client, *heard, *class),
    }
}

/// Whether the entry can come next in the journal of an arena that stands so.
pub fn may_stand(space: &Space, entry: &Entry) -> bool
    ensures { result ≡ stands space.now entry.now }
{
    entry.client < CLIENTS && op_stands(space, entry.client, &entry.op)
}
