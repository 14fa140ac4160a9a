//! Which operations may stand, by look-ups: no extent and no region is scanned for it, and the offers alone are.

ghost use Rattle.std.specs.Prelude.{◌≡◌, ◌&&◌, ◌<◌, nat_le, true};
ghost use Rattle.std.specs.List.{list_any, list_all};
ghost use Rattle.std.specs.Option.{option_map};
ghost use Rattle.space_model.specs.Span.{same_span};
ghost use Rattle.space_model.specs.Part.{is_flight, is_listed, listed, rest_of};
ghost use Rattle.space_model.specs.Region.{address_of, is_held_by};
ghost use Rattle.space_model.specs.Slabs.{fill_stands, land_stands, most_regions};
ghost use Rattle.space_model.specs.Purging.{decommit_stands, forced_stands, is_purgeable, lazy_stands, offer_stands};
ghost use Rattle.space_model.specs.Ending.{reset_stands};
ghost use Rattle.space_model.specs.Settings.{is_decay_time, setting_stands};
ghost use Rattle.space_model.specs.Resizing.{has_large, is_large_class, join_stands, large_home, trim_done_stands, trim_stands, widen_stands};
ghost use Rattle.space_model.specs.Step.{back_stands, commit_stands, cut_stands, grow_stands, has_flight, holds_at, is_customer, is_yes_or_no, merge_stands, op_stands, rises_from, stands};
ghost use Rattle.space_model.specs.Sound.{Sound};
ghost use Rattle.arena_core.specs.Arenas.{entry_of};
ghost use Rattle.arena_core.specs.Indexes.{space_of};

use crate::indexes::Indexes;
use region_book::RegionBook;
use size_classes::{CLASSES, PAGE_BYTES, SMALL_CLASSES, class_pages, slab_regions};
use space_model::{Answer, Ask, CLIENTS, Heard, MAX_SERIES, Op, Part, Region, Rest, Setting, Span};

/// The longest decay time, in milliseconds.
const MAX_DECAY_MS: i64 = 1_000_000_000;

/// How many boxes of hooks there are.
const BOXES: u32 = 32;

// ---- What is asked of more than one operation

/// Whether the answer is one to an ask other than alloc.
fn is_yes_or_no(answer: Answer) -> bool
    ensures { result ≡ is_yes_or_no answer }
{
    matches!(answer, Answer::Done | Answer::Refused)
}

/// Whether the client has an extent in flight with just this span.
fn has_flight(indexes: &Indexes, client: u32, span: Span) -> bool
    ensures { result ≡ has_flight (space_of indexes.now) client span (λ _. true) }
{
    indexes.extents.flight(client, span).is_some()
}

/// Whether the client has a committed extent in flight with just this span.
fn has_committed(indexes: &Indexes, client: u32, span: Span) -> bool
    ensures { result ≡ has_flight (space_of indexes.now) client span (λ p. p.committed) }
{
    matches!(indexes.extents.flight(client, span), Some(part) if part.committed)
}

/// Whether the class is large.
fn is_large_class(class: u8) -> bool
    ensures { result ≡ is_large_class class }
{
    SMALL_CLASSES <= class && class < CLASSES
}

/// Whether it is a large region that the client holds.
fn is_large_of(client: u32, region: &Region) -> bool
    ensures { result ≡ (is_held_by client region.now && nat_le 36 region.now.class) }
{
    region.holder == Some(client) && SMALL_CLASSES <= region.class
}

/// The extent of the client's large region at an address: the one that begins there.
fn large_home(indexes: &Indexes, client: u32, addr: u64) -> Option<Part>
    requires { Sound (space_of indexes.now) }
    ensures { result ≡ option_map (λ home. home.1) (large_home (space_of indexes.now) client addr) }
{
    let region = indexes.regions.at(addr)?;
    if is_large_of(client, &region) {
        indexes.extents.look(addr / PAGE_BYTES).copied()
    } else {
        None
    }
}

/// Whether the span is that of the extent of a large region of the client.
fn has_large(indexes: &Indexes, client: u32, span: Span) -> bool
    requires { Sound (space_of indexes.now) }
    ensures { result ≡ has_large (space_of indexes.now) client (address_of span.first) (λ p. same_span p.span span) }
{
    let Some(addr) = PAGE_BYTES.checked_mul(span.first) else {
        return false;
    };
    matches!(large_home(indexes, client, addr), Some(part) if part.span == span)
}

// ---- The operations of a malloc

/// Whether the answer to a split may be taken in.
fn cut_stands(indexes: &Indexes, client: u32, heard: Heard) -> bool
    ensures { result ≡ cut_stands (space_of indexes.now) client heard.ask heard.answer }
{
    let Ask::Split { span, left } = heard.ask else {
        return false;
    };
    let cuts = 0 < left && left < span.pages;
    is_yes_or_no(heard.answer) && cuts && has_flight(indexes, client, span)
}

/// Whether the client allocates from the arena, or holds a region of it.
#[tactic(auto, using(crate::proofs::Lookups::any_counted))]
fn is_customer(indexes: &Indexes, client: u32) -> bool
    requires { client < 32 }
    ensures { result ≡ is_customer (space_of indexes.now) client }
{
    indexes.bound.contains(client) || indexes.regions.count_held(client) > 0
}

/// Whether the answer to an alloc may be taken in.
fn grow_stands(indexes: &Indexes, client: u32, heard: Heard) -> bool
    requires { client < 32 }
    ensures { result ≡ grow_stands (space_of indexes.now) client heard.ask heard.answer }
{
    match heard.ask {
        Ask::Alloc { pages, align, .. } => {
            heard.answer != Answer::Done
                && 0 < pages
                && align.is_power_of_two()
                && is_customer(indexes, client)
        }
        _ => false,
    }
}

/// Whether the answer to a commit may be taken in.
fn commit_stands(indexes: &Indexes, client: u32, heard: Heard) -> bool
    ensures { result ≡ commit_stands (space_of indexes.now) client heard.ask heard.answer }
{
    let Ask::Commit(span) = heard.ask else {
        return false;
    };
    is_yes_or_no(heard.answer)
        && matches!(indexes.extents.flight(client, span), Some(part) if !part.committed)
}

/// How many regions an extent of the class may serve.
fn most_regions(class: u8) -> u64
    ensures { result ≡ most_regions class }
{
    if class < SMALL_CLASSES {
        slab_regions(class)
    } else {
        1
    }
}

/// Whether so many regions of the class may land in the extent.
fn land_stands(indexes: &Indexes, client: u32, span: Span, class: u8, count: u32) -> bool
    ensures { result ≡ land_stands (space_of indexes.now) client span class count }
{
    class < CLASSES
        && 0 < count
        && u64::from(count) <= most_regions(class)
        && span.pages == class_pages(class)
        && has_committed(indexes, client, span)
}

// ---- The operations of a free

/// Whether each address is above the one before it.
fn rises(addrs: &[u64]) -> bool
    ensures { result ≡ rises_from 0 addrs.now }
{
    let mut least = 0;
    for addr in addrs {
        if u128::from(*addr) < least {
            return false;
        }
        least = u128::from(*addr) + 1;
    }
    true
}

/// Whether the client holds a region at each of the addresses.
fn holds_all(regions: &RegionBook, client: u32, addrs: &[u64]) -> bool
    ensures { result ≡ list_all (holds_at client regions.now.regions) addrs.now }
{
    addrs.iter().all(|addr| regions.holds(client, *addr))
}

/// Whether regions may be given back: at least one, by rising addresses, and each is one that the client holds.
fn back_stands(indexes: &Indexes, client: u32, addrs: &[u64]) -> bool
    ensures { result ≡ back_stands (space_of indexes.now) client addrs.now }
{
    0 < addrs.len() && rises(addrs) && holds_all(&indexes.regions, client, addrs)
}

/// Whether the answer to a merge may be taken in.
fn merge_stands(indexes: &Indexes, client: u32, heard: Heard) -> bool
    ensures { result ≡ merge_stands (space_of indexes.now) client heard.ask heard.answer }
{
    let Ask::Merge { low, high } = heard.ask else {
        return false;
    };
    let extents = &indexes.extents;
    let both = (extents.flight(client, low), extents.flight(client, high));
    is_yes_or_no(heard.answer)
        && low.end() == u128::from(high.first)
        && match both {
            (Some(low), Some(high)) => {
                high.state.rest().state().is_listed(low.state.rest())
                    && low.committed == high.committed
            }
            _ => false,
        }
}

// ---- The operations of a purge

/// Whether extents of the rest can be purged.
fn is_purgeable(rest: Rest) -> bool
    ensures { result ≡ is_purgeable rest }
{
    matches!(rest, Rest::Dirty | Rest::Muzzy)
}

/// Whether the extent belongs among those of the rest.
fn belongs(rest: Rest, part: &Part) -> bool
    ensures { result ≡ is_listed rest (listed (rest_of part.now.state)) }
{
    part.state.rest().state().is_listed(rest)
}

/// Whether the answer to a lazy purge may be taken in.
fn lazy_stands(indexes: &Indexes, client: u32, heard: Heard) -> bool
    ensures { result ≡ lazy_stands (space_of indexes.now) client heard.ask heard.answer }
{
    let Ask::PurgeLazy(span) = heard.ask else {
        return false;
    };
    let found = indexes.extents.flight(client, span);
    is_yes_or_no(heard.answer) && matches!(found, Some(part) if belongs(Rest::Dirty, &part))
}

/// Whether the answer to a dalloc may be taken in.
fn offer_stands(indexes: &Indexes, client: u32, heard: Heard) -> bool
    ensures { result ≡ offer_stands (space_of indexes.now) client heard.ask heard.answer }
{
    let Ask::Dalloc { span, committed } = heard.ask else {
        return false;
    };
    is_yes_or_no(heard.answer) && indexes.offers.contains(client, span, committed)
}

/// Whether the answer to a decommit may be taken in.
fn decommit_stands(indexes: &Indexes, client: u32, heard: Heard) -> bool
    ensures { result ≡ decommit_stands (space_of indexes.now) client heard.ask heard.answer }
{
    let Ask::Decommit(span) = heard.ask else {
        return false;
    };
    let found = indexes.extents.flight(client, span);
    is_yes_or_no(heard.answer)
        && matches!(found, Some(part) if part.committed && belongs(Rest::Retained, &part))
}

/// Whether the answer to a forced purge may be taken in.
fn forced_stands(indexes: &Indexes, client: u32, heard: Heard) -> bool
    ensures { result ≡ forced_stands (space_of indexes.now) client heard.ask heard.answer }
{
    let Ask::PurgeForced(span) = heard.ask else {
        return false;
    };
    is_yes_or_no(heard.answer) && has_flight(indexes, client, span)
}

// ---- Ends and settings

/// Whether the client has an extent in flight.
#[tactic(auto, using(crate::proofs::Lookups::any_read))]
fn has_flights(indexes: &Indexes, client: u32) -> bool
    ensures { result ≡ list_any (λ p. is_flight client p.state) (space_of indexes.now).parts }
{
    indexes.extents.next_flight(client).is_some()
}

/// Whether the client may end what is in the arena: it has nothing in flight, and holds the regions of its cache.
fn reset_stands(indexes: &Indexes, client: u32, cached: u64) -> bool
    requires { client < 32 }
    ensures { result ≡ reset_stands (space_of indexes.now) client cached }
{
    !has_flights(indexes, client)
        && !indexes.offers.has_any_of(client)
        && cached <= indexes.regions.count_held(client)
}

/// Whether it is a decay time.
fn is_decay_time(ms: i64) -> bool
    ensures { result ≡ is_decay_time ms }
{
    -1 <= ms && ms <= MAX_DECAY_MS
}

/// Whether the setting is in range.
fn setting_stands(setting: Setting) -> bool
    ensures { result ≡ setting_stands setting }
{
    match setting {
        Setting::DirtyMs { ms, .. } => is_decay_time(ms),
        Setting::MuzzyMs { ms, .. } => is_decay_time(ms),
        Setting::HookBox(box_no) => box_no < BOXES,
        Setting::Bind | Setting::Unbind => true,
        Setting::GrowLimit { chunks } => 1 <= chunks && chunks <= MAX_SERIES,
        Setting::Live {
            box_no,
            dirty_ms,
            muzzy_ms,
            ..
        } => box_no < BOXES && is_decay_time(dirty_ms) && is_decay_time(muzzy_ms),
    }
}

// ---- Large regions

/// Whether the client has a large region at the address in an extent of fewer pages.
fn widen_stands(indexes: &Indexes, client: u32, addr: u64, pages: u64) -> bool
    requires { Sound (space_of indexes.now) }
    ensures { result ≡ widen_stands (space_of indexes.now) client addr pages }
{
    matches!(large_home(indexes, client, addr), Some(part) if part.span.pages < pages)
}

/// Whether the answer to a merge with the extent behind a large region may be taken in.
fn join_stands(indexes: &Indexes, client: u32, heard: Heard, class: u8) -> bool
    requires { Sound (space_of indexes.now) }
    ensures { result ≡ join_stands (space_of indexes.now) client class heard.ask heard.answer }
{
    let Ask::Merge { low, high } = heard.ask else {
        return false;
    };
    is_yes_or_no(heard.answer)
        && is_large_class(class)
        && u128::from(low.pages) + u128::from(high.pages) == u128::from(class_pages(class))
        && low.end() == u128::from(high.first)
        && has_large(indexes, client, low)
        && has_committed(indexes, client, high)
}

/// Whether the client may begin to shrink its large region at the address.
fn trim_stands(indexes: &Indexes, client: u32, addr: u64, class: u8) -> bool
    requires { Sound (space_of indexes.now) }
    ensures { result ≡ trim_stands (space_of indexes.now) client addr class }
{
    let home = large_home(indexes, client, addr);
    is_large_class(class)
        && !indexes.trims.contains(client)
        && matches!(home, Some(part) if class_pages(class) < part.span.pages)
}

/// Whether the answer to a split of a large region's extent may be taken in.
fn trim_done_stands(indexes: &Indexes, client: u32, heard: Heard, class: u8) -> bool
    requires { Sound (space_of indexes.now) }
    ensures { result ≡ trim_done_stands (space_of indexes.now) client class heard.ask heard.answer }
{
    let Ask::Split { span, left } = heard.ask else {
        return false;
    };
    is_yes_or_no(heard.answer)
        && indexes.trims.contains(client)
        && is_large_class(class)
        && left == class_pages(class)
        && left < span.pages
        && has_large(indexes, client, span)
}

// ---- All operations

/// Whether the operation may come next.
fn op_stands(indexes: &Indexes, client: u32, op: &Op) -> bool
    requires client { client < 32 }
    requires sound { Sound (space_of indexes.now) }
    ensures { result ≡ op_stands (space_of indexes.now) client op.now }
{
    let live = indexes.life.is_live();
    match op {
        Op::Look { pages, align } => 0 < *pages && align.is_power_of_two(),
        Op::CutDone { heard, .. } => live && cut_stands(indexes, client, *heard),
        Op::GrowDone { heard, .. } => live && grow_stands(indexes, client, *heard),
        Op::CommitDone { heard } => live && commit_stands(indexes, client, *heard),
        Op::Land { span, class, count } => live
            && land_stands(indexes, client, *span, *class, *count),
        Op::Back { addrs } => live && back_stands(indexes, client, addrs.as_slice()),
        Op::PutLook { span, tries } => live && *tries < 3 && has_flight(indexes, client, *span),
        Op::MergeDone { heard, .. } => live && merge_stands(indexes, client, *heard),
        Op::Fill { class, count } => *class < SMALL_CLASSES && 0 < *count,
        Op::Advance { .. } | Op::TakeOver { .. } | Op::Counts => true,
        Op::PurgeTake { rest, .. } => is_purgeable(*rest),
        Op::LazyDone { heard } => live && lazy_stands(indexes, client, *heard),
        Op::Offer { span } => live && has_flight(indexes, client, *span),
        Op::OfferDone { heard, .. } => live && offer_stands(indexes, client, *heard),
        Op::DecommitDone { heard } => live && decommit_stands(indexes, client, *heard),
        Op::ForcedDone { heard } => live && forced_stands(indexes, client, *heard),
        Op::Publish { addr } => live && indexes.regions.holds(client, *addr),
        Op::Reset { cached } | Op::Destroy { cached } => reset_stands(indexes, client, *cached),
        Op::DestroyTake => indexes.life.is_dying(client),
        Op::Set(setting) => setting_stands(*setting),
        Op::Widen { addr, pages } => live && widen_stands(indexes, client, *addr, *pages),
        Op::JoinDone { heard, class } => live && join_stands(indexes, client, *heard, *class),
        Op::Trim { addr, class } => live && trim_stands(indexes, client, *addr, *class),
        Op::TrimDone { heard, class } => live && trim_done_stands(indexes, client, *heard, *class),
    }
}

/// Whether an operation of a client may come next.
pub fn may_stand(indexes: &Indexes, client: u32, op: &Op) -> bool
    requires { Sound (space_of indexes.now) }
    ensures { result ≡ stands (space_of indexes.now) (entry_of client op.now) }
{
    client < CLIENTS && op_stands(indexes, client, op)
}
