//! What entries of a journal did, in 16 bytes, where their numbers are small.

ghost use Rattle.std.specs.Prelude.{◌≡◌, [], ◌∷◌, false, IfSome};
ghost use Rattle.space_model.specs.declared.entries.Op.TheVariants.{Back, PurgeTake};
ghost use Rattle.hook_api.specs.Deeds.{nothing, with_heard};
ghost use Rattle.hook_api.specs.NarrowDeeds.{op_of, says_elsewhere, of_halves};

use crate::deeds::NOTHING;
use size_classes::Addrs;
use space_model::{Addresses, Op, Rest, Span};
use std::alloc::Global;

/// The first number that 32 bits don't hold.
pub(crate) const WIDE: u64 = 1 << 32;

/// What an entry did, with what is no number in it, or that the entry stands elsewhere.
#[derive(Clone, Copy)]
pub(crate) enum NarrowShape {
    Looks,
    CutsLow,
    CutsHigh,
    Grows,
    Commits,
    Lands,
    GivesOne,
    Seeks,
    MergesLow,
    MergesHigh,
    Fills,
    TakesDirty,
    TakesMuzzy,
    PurgesLazily,
    Offers,
    Returns,
    Decommits,
    PurgesForcibly,
    Publishes,
    TakesOver,
    Elsewhere,
}

/// What an entry did: its shape, a small number that may be a class or how often it was tried, and up to three numbers.
/// A number that may have 64 bits is two of them, its low half and its high one.
#[derive(Clone, Copy)]
pub(crate) struct NarrowDeed {
    pub(crate) shape: NarrowShape,
    pub(crate) mark: u8,
    pub(crate) a: u32,
    pub(crate) b: u32,
    pub(crate) c: u32,
}

/// A deed by its shape, its mark and a third number.
fn marked(shape: NarrowShape, mark: u8, c: u32) -> NarrowDeed
    ensures { result ≡ record { shape = shape; mark = mark; a = 0; b = 0; c = c } }
{
    NarrowDeed {
        shape,
        mark,
        a: 0,
        b: 0,
        c,
    }
}

/// A deed with two numbers, if both are small.
fn paired(shape: NarrowShape, mark: u8, a: u64, b: u64, c: u32) -> Option<NarrowDeed>
    ensures { IfSome result (λ narrow. narrow ≡ record { shape = shape; mark = mark; a = a; b = b; c = c }) }
{
    if a < WIDE && b < WIDE {
        Some(NarrowDeed {
            shape,
            mark,
            a: a as u32,
            b: b as u32,
            c,
        })
    } else {
        None
    }
}

/// A deed with a number of 64 bits.
fn halved(shape: NarrowShape, number: u64) -> NarrowDeed
    ensures number { of_halves result.a result.b ≡ number }
    ensures shape { result.shape ≡ shape }
{
    NarrowDeed {
        shape,
        mark: 0,
        a: (number % WIDE) as u32,
        b: (number / WIDE) as u32,
        c: 0,
    }
}

impl NarrowDeed {
    /// What an operation does in few small numbers, if they tell it.
    pub(crate) fn of(op: &Op) -> Option<NarrowDeed>
        ensures { IfSome result (λ narrow. (op_of narrow ≡ with_heard op.now nothing) × (says_elsewhere narrow.shape ≡ false)) }
    {
        Some(match op {
            Op::Look { pages, align } => paired(NarrowShape::Looks, 0, *pages, *align, 0)?,
            Op::CutDone { keep_low: true, .. } => marked(NarrowShape::CutsLow, 0, 0),
            Op::CutDone { .. } => marked(NarrowShape::CutsHigh, 0, 0),
            Op::GrowDone { found: None, .. } => marked(NarrowShape::Grows, 0, 0),
            Op::CommitDone { .. } => marked(NarrowShape::Commits, 0, 0),
            Op::Land { span, class, count } => {
                paired(NarrowShape::Lands, *class, span.first, span.pages, *count)?
            }
            Op::Back { addrs } => match addrs.as_slice() {
                [addr] => halved(NarrowShape::GivesOne, *addr),
                _ => return None,
            },
            Op::PutLook { span, tries } => {
                paired(NarrowShape::Seeks, *tries, span.first, span.pages, 0)?
            }
            Op::MergeDone { own_low: true, .. } => marked(NarrowShape::MergesLow, 0, 0),
            Op::MergeDone { .. } => marked(NarrowShape::MergesHigh, 0, 0),
            Op::Fill { class, count } => marked(NarrowShape::Fills, *class, *count),
            Op::PurgeTake {
                rest: Rest::Dirty,
                keep,
            } => halved(NarrowShape::TakesDirty, *keep),
            Op::PurgeTake {
                rest: Rest::Muzzy,
                keep,
            } => halved(NarrowShape::TakesMuzzy, *keep),
            Op::LazyDone { .. } => marked(NarrowShape::PurgesLazily, 0, 0),
            Op::Offer { span } => paired(NarrowShape::Offers, 0, span.first, span.pages, 0)?,
            Op::OfferDone { found: None, .. } => marked(NarrowShape::Returns, 0, 0),
            Op::DecommitDone { .. } => marked(NarrowShape::Decommits, 0, 0),
            Op::ForcedDone { .. } => marked(NarrowShape::PurgesForcibly, 0, 0),
            Op::Publish { addr } => halved(NarrowShape::Publishes, *addr),
            Op::TakeOver { addr } => halved(NarrowShape::TakesOver, *addr),
            _ => return None,
        })
    }

    /// The range of the first two numbers.
    fn span(self) -> Span
        ensures { result ≡ record { first = self.a; pages = self.b } }
    {
        Span {
            first: u64::from(self.a),
            pages: u64::from(self.b),
        }
    }

    /// The number whose halves are the first two numbers.
    fn number(self) -> u64
        ensures { result ≡ of_halves self.a self.b }
    {
        u64::from(self.a) + u64::from(self.b) * WIDE
    }

    /// The operation, with nothing for an ask. Takes no memory.
    pub(crate) fn op(self, alloc: Global) -> Op
        ensures { result ≡ op_of self }
    {
        let (mark, span) = (self.mark, self.span());
        let (heard, found) = (NOTHING, None);
        match self.shape {
            NarrowShape::Looks => Op::Look {
                pages: span.first,
                align: span.pages,
            },
            NarrowShape::CutsLow => Op::CutDone {
                heard,
                keep_low: true,
            },
            NarrowShape::CutsHigh => Op::CutDone {
                heard,
                keep_low: false,
            },
            NarrowShape::Grows => Op::GrowDone { heard, found },
            NarrowShape::Commits => Op::CommitDone { heard },
            NarrowShape::Lands => Op::Land {
                span,
                class: mark,
                count: self.c,
            },
            NarrowShape::GivesOne => back_one(self.number(), alloc),
            NarrowShape::Seeks => Op::PutLook { span, tries: mark },
            NarrowShape::MergesLow => Op::MergeDone {
                heard,
                own_low: true,
            },
            NarrowShape::MergesHigh => Op::MergeDone {
                heard,
                own_low: false,
            },
            NarrowShape::Fills => Op::Fill {
                class: mark,
                count: self.c,
            },
            NarrowShape::TakesDirty => self.take(Rest::Dirty),
            NarrowShape::TakesMuzzy => self.take(Rest::Muzzy),
            NarrowShape::PurgesLazily => Op::LazyDone { heard },
            NarrowShape::Offers => Op::Offer { span },
            NarrowShape::Returns => Op::OfferDone { heard, found },
            NarrowShape::Decommits => Op::DecommitDone { heard },
            NarrowShape::PurgesForcibly => Op::ForcedDone { heard },
            NarrowShape::Publishes => Op::Publish {
                addr: self.number(),
            },
            NarrowShape::TakesOver => Op::TakeOver {
                addr: self.number(),
            },
            NarrowShape::Elsewhere => Op::Counts,
        }
    }

    /// An extent of a list is taken, with as many pages to stay as the first two numbers say.
    fn take(self, rest: Rest) -> Op
        ensures { result ≡ PurgeTake rest (of_halves self.a self.b) }
    {
        Op::PurgeTake {
            rest,
            keep: self.number(),
        }
    }
}

/// The return of the region at an address. Takes no memory.
fn back_one(addr: u64, alloc: Global) -> Op
    ensures { result ≡ Back (addr ∷ []) }
{
    let mut list = Addrs::new(alloc);
    list.push(addr);
    let addrs = Addresses::new(list);
    Op::Back { addrs }
}
