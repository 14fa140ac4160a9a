//! What is read of an arena's indexes.

ghost use Rattle.std.specs.Prelude.{◌≡◌, ◌≤◌, IfSome, MatchOption};
ghost use Rattle.std.specs.List.{list_any};
ghost use Rattle.space_model.specs.Span.{chunk_span, has_page, meets};
ghost use Rattle.space_model.specs.Counts.{counts_of};
ghost use Rattle.space_model.specs.Sound.{Sound};
ghost use Rattle.space_model.specs.declared.TheConstants.{CHUNKS};
ghost use Rattle.arena_core.specs.Chunks.{HasNoChunkFrom, IsNextChunk};
ghost use Rattle.arena_core.specs.Indexes.{space_of};
ghost use Rattle.arena_core.specs.Slabs.{IsBooked};

use crate::indexes::Indexes;
use size_classes::PAGE_BYTES;
use space_model::{CHUNK_PAGES, CHUNKS, Counts, Rest, Span};

/// The counts: sums that are kept, and no scan.
#[tactic(auto, using(crate::proofs::Totals::pages_few))]
pub fn counts(indexes: &Indexes) -> Counts
    requires sound { Sound (space_of indexes.now) }
    requires booked { IsBooked (space_of indexes.now) indexes.now.regions.slabs }
    ensures { result ≡ counts_of (space_of indexes.now) }
{
    let active = PAGE_BYTES * indexes.extents.active_pages();
    let dirty = PAGE_BYTES * indexes.extents.pages(Rest::Dirty);
    let muzzy = PAGE_BYTES * indexes.extents.pages(Rest::Muzzy);
    let retained = PAGE_BYTES * indexes.extents.pages(Rest::Retained);
    let mapped = PAGE_BYTES * indexes.extents.all_pages() - retained;
    let allocated = indexes.regions.bytes();
    let small = indexes.regions.small_bytes();
    Counts {
        allocated,
        active,
        dirty,
        muzzy,
        retained,
        flight: mapped - (active + dirty + muzzy),
        mapped,
        small,
        large: allocated - small,
        regs: indexes.regions.small_numbers(),
        slabs: indexes.regions.slabs(),
        lextents: indexes.regions.large_numbers(),
    }
}

/// Whether an extent meets a chunk.
pub fn owns_chunk(indexes: &Indexes, chunk: u64) -> bool
    requires { Sound (space_of indexes.now) }
    ensures { result ≡ list_any (λ p. meets p.span (chunk_span chunk)) (space_of indexes.now).parts }
{
    if chunk > CHUNKS {
        return false;
    }
    indexes.extents.meets(Span {
        first: CHUNK_PAGES * chunk,
        pages: CHUNK_PAGES,
    })
}

/// Whether an extent has a page.
#[tactic(auto, using(list_facts::proofs::Members::is_some_find))]
pub fn holds_page(indexes: &Indexes, page: u64) -> bool
    ensures { result ≡ list_any (λ p. has_page page p.span) (space_of indexes.now).parts }
{
    indexes.extents.holding(page).is_some()
}

/// The first chunk from this one on that an extent meets, if one does.
#[tactic(auto, using(crate::proofs::Chunks::met_itself, crate::proofs::Chunks::begins_inside))]
pub fn next_chunk(indexes: &Indexes, chunk: u64) -> Option<u64>
    requires { Sound (space_of indexes.now) }
    ensures next { MatchOption result (HasNoChunkFrom (space_of indexes.now).parts chunk) (IsNextChunk (space_of indexes.now).parts chunk) }
    ensures bound { IfSome result (λ next. next ≤ CHUNKS) }
{
    if chunk > CHUNKS {
        return None;
    }
    if owns_chunk(indexes, chunk) {
        return Some(chunk);
    }
    let Some(part) = indexes.extents.first_from(CHUNK_PAGES * chunk) else {
        return None;
    };
    Some(part.span.first / CHUNK_PAGES)
}
