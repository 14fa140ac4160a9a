//! How many pages of each chunk are placed.

ghost use Rattle.std.specs.Prelude.{◌≡◌, ℕ, ◌+◌, ◌<◌, ◌≤◌, ◌↔◌, max, vec_capacity, vec_len, IsTrue, IfOk, IfSome, IfNone};
ghost use Rattle.space_model.specs.Span.{end_of, pages_end};
ghost use Rattle.addr_space.specs.Chunks.{AreFree, IsBlank, IsFit, IsFreeSpan, IsOff, IsOn, IsPlacedSpan, NoFit, overlap, used_at};

use space_model::{CHUNK_PAGES, CHUNKS, Span};
use std::alloc::{AllocError as NoMemory, Global};
use std::marker::Model;

/// The first page above the last chunk.
pub(crate) const END: u64 = (CHUNKS + 1) * CHUNK_PAGES;

/// How many pages of each chunk are placed. There is no chunk 0.
///
/// Numbers are kept of the chunks up to the highest of which a page was ever placed, and none is placed of those above. There
/// is room for all from the start, which costs no memory before it is written to. No chunk below `low` is free, so a search
/// begins there.
#[derive(Drop)]
pub(crate) struct Chunks {
    placed: Vec<u16>,
    low: u64,
}

impl Model for Chunks {
    ghost use Rattle.std.specs.Prelude.{List, ℕ, ◌≤◌, vec_capacity};
    ghost use Rattle.addr_space.specs.Chunks.{IsChunks, all_chunks};

    ghost Value = { List ℕ };

    ghost view = { λ c. all_chunks c.placed.items };

    ghost invariant = { λ c. IsChunks c.placed.items c.low × (1048576 ≤ vec_capacity c.placed) };
}

/// Keeps a number for each chunk below one: 0 where none was kept.
fn lengthen(placed: &mut Vec<u16>, chunks: u64)
    requires { chunks ≤ vec_capacity placed.old }
    ensures len { vec_len placed.new ≡ max (vec_len placed.old) chunks }
    ensures same { (chunk : ℕ) → used_at placed.new.items chunk ≡ used_at placed.old.items chunk }
    ensures room { vec_capacity placed.old ≤ vec_capacity placed.new }
{
    placed.resize(placed.len().max(chunks as usize), 0).unwrap();
}

/// How many pages of a chunk a span has that ends at this page.
fn overlap(first: u64, end: u64, chunk: u64) -> u64
    requires { chunk ≤ 1048576 }
    ensures { result ≡ overlap first end chunk }
{
    let low = first.max(CHUNK_PAGES * chunk);
    let high = end.min(CHUNK_PAGES * chunk + CHUNK_PAGES);
    high.saturating_sub(low)
}

impl Chunks {
    /// Nothing is placed.
    #[tactic(auto, using(crate::proofs::AllChunks::used_all, crate::proofs::AllChunks::length_all))]
    pub(crate) fn new(alloc: Global) -> Result<Chunks, NoMemory>
        ensures { IfOk result IsBlank }
    {
        Ok(Chunks {
            placed: Vec::with_capacity(alloc, (CHUNKS + 1) as usize)?,
            low: 1,
        })
    }

    /// How many chunks have a number of their own. No page of those above is placed.
    #[tactic(auto, using(crate::proofs::AllChunks::none_behind))]
    fn kept(&self) -> u64
        ensures few { result ≤ 1048576 }
        ensures rest { AreFree self.now result 1048576 }
    {
        self.placed.len() as u64
    }

    /// How many pages of a chunk are placed.
    #[tactic(auto, using(crate::proofs::AllChunks::used_all))]
    fn used(&self, chunk: u64) -> u16
        ensures { result ≡ used_at self.now chunk }
    {
        self.placed.get(chunk as usize).copied().unwrap_or(0)
    }

    /// The first chunk among so many from this one on of which a page is placed.
    fn first_used(&self, chunk: u64, count: u64) -> Option<u64>
        requires { chunk + count ≤ 1048576 }
        ensures some { IfSome result (λ used. (chunk ≤ used) × (used < chunk + count) × (0 < used_at self.now used)) }
        ensures none { IfNone result (AreFree self.now chunk (chunk + count)) }
    {
        for c in chunk..(chunk + count).min(self.kept()) {
            if self.used(c) != 0 {
                return Some(c);
            }
        }
        None
    }

    /// The lowest chunk from which on so many pages can be placed at the alignment, if there is one.
    #[tactic(auto, using(crate::proofs::AllChunks::used_all))]
    pub(crate) fn lowest(&self, pages: u64, align: u64) -> Option<u64>
        requires { 1 ≤ align }
        ensures some { IfSome result (λ chunk. IsFit self.now pages align chunk) }
        ensures lowest { IfSome result (λ chunk. (lower : ℕ) → lower < chunk → NoFit self.now pages align lower) }
        ensures none { IfNone result ((chunk : ℕ) → NoFit self.now pages align chunk) }
    {
        let count = pages.div_ceil(CHUNK_PAGES).max(1);
        let mut chunk = self.low;
        while count <= CHUNKS + 1 - chunk {
            if CHUNK_PAGES * chunk % align != 0 {
                chunk += 1;
            } else if let Some(used) = self.first_used(chunk, count) {
                chunk = used + 1;
            } else {
                return Some(chunk);
            }
        }
        None
    }

    /// Whether a span can be placed: each chunk that has a page of it is one of the space, and none of its pages is placed.
    pub(crate) fn is_free(&self, span: Span) -> bool
        requires { end_of span ≤ pages_end }
        ensures { IsTrue result ↔ IsFreeSpan self.now span }
    {
        let end = span.first + span.pages;
        for chunk in span.first / CHUNK_PAGES..end.div_ceil(CHUNK_PAGES) {
            let pages = overlap(span.first, end, chunk);
            if 0 < pages && (chunk == 0 || self.used(chunk) != 0) {
                return false;
            }
        }
        true
    }

    /// Whether each chunk has as many pages placed as the span has of it.
    pub(crate) fn has(&self, span: Span) -> bool
        requires { end_of span ≤ pages_end }
        ensures { IsTrue result ↔ IsPlacedSpan self.now span }
    {
        let end = span.first + span.pages;
        for chunk in span.first / CHUNK_PAGES..end.div_ceil(CHUNK_PAGES) {
            if u64::from(self.used(chunk)) < overlap(span.first, end, chunk) {
                return false;
            }
        }
        true
    }

    /// Places the pages of a span that can be placed.
    #[tactic(auto, using(crate::proofs::AllChunks::used_all, crate::proofs::AllChunks::length_all))]
    pub(crate) fn place(&mut self, span: Span)
        requires inside { end_of span ≤ pages_end }
        requires free { IsFreeSpan self.old span }
        ensures { IsOn self.old span self.new }
    {
        if span.pages == 0 {
            return;
        }
        let end = span.first + span.pages;
        let above = end.div_ceil(CHUNK_PAGES);
        lengthen(&mut self.placed, above);
        for chunk in span.first / CHUNK_PAGES..above {
            self.placed[chunk as usize] += overlap(span.first, end, chunk) as u16;
        }
        if span.first / CHUNK_PAGES == self.low {
            self.low = above;
        }
    }

    /// Takes the pages of a span off, as far as they are placed.
    #[tactic(auto, using(crate::proofs::AllChunks::used_all, crate::proofs::AllChunks::length_all, crate::proofs::AllChunks::none_behind))]
    pub(crate) fn take_off(&mut self, span: Span)
        ensures { IsOff self.old span self.new }
    {
        let end = span.first.saturating_add(span.pages);
        let above = end.div_ceil(CHUNK_PAGES).min(self.placed.len() as u64);
        for chunk in span.first / CHUNK_PAGES..above {
            let pages = overlap(span.first, end, chunk) as u16;
            self.placed[chunk as usize] = self.placed[chunk as usize].saturating_sub(pages);
        }
        self.low = self.low.min((span.first / CHUNK_PAGES).max(1));
    }
}
