//! The chunks that an arena claims and releases.
ghost use Rattle.std.specs.Prelude.{◌≡◌, ℕ, Option, Some};
ghost use Rattle.std.specs.Arc.{arc_value};
ghost use Rattle.chunk_table.specs.Tables.{failed, share_of, IsSeatOf};
ghost use Rattle.call_plan.specs.Laws.{with_found};
ghost use Rattle.heap_shared.specs.Claims.{Claimed, IsElsewhere, OwnsMet, Released, found_in, granted_span, high_chunk, low_chunk, refused_span, touched, wanted};
ghost use Rattle.heap_shared.specs.Touches.{touched_with};
ghost use Rattle.space_model.specs.declared.entries.Reply.{Reply};

use arena_core::Arena;
use chunk_table::{ChunkSeat, ChunkTable, Claim};
use space_model::{Answer, Ask, CHUNK_PAGES, CHUNKS, Heard, Op, Reply, Span};
use std::alloc::Global;
use std::sync::Arc;

/// An arena's seat of the table that all arenas share.
#[derive(Drop)]
pub struct Claims {
    pub table: Arc<ChunkTable, Global>,
    pub seat: ChunkSeat,
    ghost seated: { IsSeatOf (arc_value table) seat },
}

/// The chunks of the space that a span meets: the first, and the one after the last.
fn chunks_of(span: Span) -> (u64, u64)
    ensures { result ≡ (low_chunk span, high_chunk span) }
{
    let low = (span.first / CHUNK_PAGES).max(1);
    let high = span.end().div_ceil(u128::from(CHUNK_PAGES));
    (low, high.min(u128::from(CHUNKS + 1)) as u64)
}

/// The span that an alloc answered, where it lies in the space and is aligned.
fn granted_span(heard: Heard) -> Option<Span>
    ensures { result ≡ granted_span heard.ask heard.answer }
{
    let (Ask::Alloc { pages, align, .. }, Answer::Placed { first, .. }) = (heard.ask, heard.answer)
    else {
        return None;
    };
    let span = Span { first, pages };
    if span.is_in_space() && align != 0 && first % align == 0 {
        Some(span)
    } else {
        None
    }
}

/// The span that a dalloc refused to take.
fn refused_span(heard: Heard) -> Option<Span>
    ensures { result ≡ refused_span heard.ask heard.answer }
{
    match (heard.ask, heard.answer) {
        (Ask::Dalloc { span, .. }, Answer::Refused) => Some(span),
        _ => None,
    }
}

/// The span whose chunks are claimed for an operation.
fn wanted(op: &Op) -> Option<Span>
    ensures { result ≡ wanted op.now }
{
    match op {
        Op::GrowDone { heard, .. } => granted_span(*heard),
        Op::OfferDone { heard, .. } => refused_span(*heard),
        _ => None,
    }
}

/// The operation with the chunk that was found in another arena, if one was.
fn with_found(op: Op, found: Option<u64>) -> Op
    ensures { result ≡ with_found found op }
{
    match op {
        Op::GrowDone { heard, .. } => Op::GrowDone { heard, found },
        Op::OfferDone { heard, .. } => Op::OfferDone { heard, found },
        op => op,
    }
}

impl Claims {
    /// Claims the chunks of a span that no extent of the arena meets, in rising order, up to the first one that another
    /// arena has, which is told.
    fn claim_span(&mut self, arena: &Arena, span: Span) -> Option<u64>
        requires owned { OwnsMet self.old.seat arena.now.space }
        ensures table { arc_value self.new.table ≡ arc_value self.old.table }
        ensures claimed { Claimed (Some span) result (share_of self.old.seat) (share_of self.new.seat) }
        ensures elsewhere { IsElsewhere (Some span) arena.now.space result }
    {
        let (low, high) = chunks_of(span);
        for chunk in low..high {
            if !arena.owns_chunk(chunk)
                && self.table.claim(&mut self.seat, chunk) != Claim::Claimed
            {
                return Some(chunk);
            }
        }
        None
    }

    /// Releases the chunks of a span that no extent of the arena meets.
    #[tactic(auto, using(crate::proofs::Sweeps::released_more))]
    fn release_span(&mut self, arena: &Arena, span: Span)
        ensures table { arc_value self.new.table ≡ arc_value self.old.table }
        ensures released { Released (Some span) arena.now.space (share_of self.old.seat) (share_of self.new.seat) }
        ensures number { (share_of self.new.seat).number ≡ (share_of self.old.seat).number }
        ensures failed { failed self.new.seat ≡ failed self.old.seat }
    {
        let (low, high) = chunks_of(span);
        for chunk in low..high {
            if !arena.owns_chunk(chunk) && self.table.owns(&mut self.seat, chunk) {
                self.table.release(&mut self.seat, chunk);
            }
        }
    }

    /// Claims the chunks of an operation, which then has the first one that another arena has.
    pub fn settle(&mut self, arena: &Arena, op: Op) -> Op
        requires owned { OwnsMet self.old.seat arena.now.space }
        ensures table { arc_value self.new.table ≡ arc_value self.old.table }
        ensures op { (chunk : Option ℕ) × (result ≡ with_found chunk op) × IsElsewhere (wanted op) arena.now.space chunk }
        ensures claimed { Claimed (wanted result) (found_in result) (share_of self.old.seat) (share_of self.new.seat) }
    {
        let found = match wanted(&op) {
            Some(span) => self.claim_span(arena, span),
            None => None,
        };
        with_found(op, found)
    }

    /// What an operation touches, as far as that is known before its reply.
    pub fn touch(op: &Op) -> Touch
        ensures { (reply : Reply) → touched_with result reply ≡ touched op.now reply }
    {
        match op {
            Op::Offer { span } => Touch::Known(Some(*span)),
            Op::DestroyTake => Touch::Doomed,
            _ => Touch::Known(wanted(op)),
        }
    }

    /// Releases the chunks of a span that no extent of the arena meets.
    pub fn release(&mut self, arena: &Arena, span: Option<Span>)
        ensures table { arc_value self.new.table ≡ arc_value self.old.table }
        ensures released { Released span arena.now.space (share_of self.old.seat) (share_of self.new.seat) }
        ensures number { (share_of self.new.seat).number ≡ (share_of self.old.seat).number }
        ensures failed { failed self.new.seat ≡ failed self.old.seat }
    {
        if let Some(span) = span {
            self.release_span(arena, span);
        }
    }
}

/// The span whose chunks are released after an operation, or that its reply tells it.
#[derive(Clone, Copy)]
pub enum Touch {
    Known(Option<Span>),
    Doomed,
}

impl Touch {
    /// The span, by the reply.
    pub fn with(&self, reply: &Reply) -> Option<Span>
        ensures { result ≡ touched_with self.now reply.now }
    {
        match (self, reply) {
            (Touch::Known(span), _) => *span,
            (Touch::Doomed, Reply::Doomed { span, .. }) => Some(*span),
            _ => None,
        }
    }
}
