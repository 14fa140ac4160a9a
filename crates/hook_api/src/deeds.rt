//! Operations of a journal's entries, whose asks are kept elsewhere.

ghost use Rattle.std.specs.Prelude.{◌≡◌, IfOk};
ghost use Rattle.space_model.specs.declared.entries.Op.TheVariants.{Back};
ghost use Rattle.hook_api.specs.Deeds.{nothing, with_heard};

use size_classes::Addrs;
use space_model::{Addresses, Answer, Ask, Heard, Op, Span};
use std::alloc::{AllocError as NoMemory, Global};

/// What stands for an ask that is kept elsewhere.
pub(crate) const NOTHING: Heard = Heard {
    ask: Ask::Commit(Span { first: 0, pages: 0 }),
    answer: Answer::Done,
};

/// The same operation again, with that ask in place of the one that it carries. Only a return of several regions takes memory.
pub(crate) fn again(op: &Op, heard: Heard, alloc: Global) -> Result<Op, NoMemory>
    ensures { IfOk result (λ copy. copy ≡ with_heard op.now heard) }
{
    Ok(match *op {
        Op::Look { pages, align } => Op::Look { pages, align },
        Op::CutDone { keep_low, .. } => Op::CutDone { heard, keep_low },
        Op::GrowDone { found, .. } => Op::GrowDone { heard, found },
        Op::CommitDone { .. } => Op::CommitDone { heard },
        Op::Land { span, class, count } => Op::Land { span, class, count },
        Op::Back { ref addrs } => back(addrs.as_slice(), alloc)?,
        Op::PutLook { span, tries } => Op::PutLook { span, tries },
        Op::MergeDone { own_low, .. } => Op::MergeDone { heard, own_low },
        Op::Fill { class, count } => Op::Fill { class, count },
        Op::Advance { now } => Op::Advance { now },
        Op::PurgeTake { rest, keep } => Op::PurgeTake { rest, keep },
        Op::LazyDone { .. } => Op::LazyDone { heard },
        Op::Offer { span } => Op::Offer { span },
        Op::OfferDone { found, .. } => Op::OfferDone { heard, found },
        Op::DecommitDone { .. } => Op::DecommitDone { heard },
        Op::ForcedDone { .. } => Op::ForcedDone { heard },
        Op::Publish { addr } => Op::Publish { addr },
        Op::TakeOver { addr } => Op::TakeOver { addr },
        Op::Reset { cached } => Op::Reset { cached },
        Op::Destroy { cached } => Op::Destroy { cached },
        Op::DestroyTake => Op::DestroyTake,
        Op::Counts => Op::Counts,
        Op::Set(setting) => Op::Set(setting),
        Op::Widen { addr, pages } => Op::Widen { addr, pages },
        Op::JoinDone { class, .. } => Op::JoinDone { heard, class },
        Op::Trim { addr, class } => Op::Trim { addr, class },
        Op::TrimDone { class, .. } => Op::TrimDone { heard, class },
    })
}

/// The return of regions at these addresses.
fn back(addrs: &[u64], alloc: Global) -> Result<Op, NoMemory>
    ensures { IfOk result (λ op. op ≡ Back addrs.now) }
{
    let mut list = Addrs::new(alloc);
    list.reserve(addrs.len() as u64)?;
    for addr in addrs {
        list.push(*addr);
    }
    let addrs = Addresses::new(list);
    Ok(Op::Back { addrs })
}
