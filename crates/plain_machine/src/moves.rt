//! What an entry does.

ghost use Rattle.std.specs.Prelude.{◌≡◌, ◌≢◌, ℕ, ◌+◌, ◌≤◌, ◌<◌, ◌^◌, IsTrue, [], ◌∷◌, ◌++◌, IfOk, OnOk, OnErr, Some, filter, not};
ghost use Rattle.space_model.specs.Span.{run_start};
ghost use Rattle.space_model.specs.Part.{exchanged, begins_at, put_down, taken_out};
ghost use Rattle.space_model.specs.Fit.{fit};
ghost use Rattle.space_model.specs.Step.{cut_stands, grow_stands, replaced, after_look, low_piece, high_piece, cut_at, whole_at, after_cut, new_part, grow_after, grow_unless, after_grow, after_commit, step_of, space_after, reply_to, stands, op_stands};
ghost use Rattle.space_model.specs.Sound.{Sound};
ghost use Rattle.space_model.specs.Journal.{Good};
ghost use Rattle.space_model.specs.Stepped.{IsMade};
ghost use Rattle.space_model.specs.Own.{mine};

use crate::Replied;
use crate::ends::{destroy, destroy_take, reset};
use crate::finds::{fit, flight, why_not};
use crate::frees::{give_back, merge_done, put_look};
use crate::holds::{publish, take_over};
use crate::paces::advance;
use crate::purges::{decommit_done, lazy_done, offer, offer_done, purge_take};
use crate::resizes::{join_done, trim, trim_done, widen};
use crate::settings::set;
use crate::slabs::{fill, land_done};
use crate::sums::counts;
use space_model::{
    Answer, Ask, CHUNK_PAGES, Entry, Heard, MAX_SERIES, Op, Part, Parts, Reply, Rest, Seq, Space,
    Span, State, Why,
};
use std::alloc::{AllocError as NoMemory, Global};

/// The extents that don't begin at the page.
pub fn not_beginning_at(alloc: Global, first: u64, parts: &[Part]) -> Result<Vec<Part>, NoMemory>
    ensures { IfOk result (λ all. all.items ≡ filter (λ p. not (begins_at first p)) parts.now) }
{
    let all = parts.iter().copied();
    all.filter(|part| part.span.first != first).collect(alloc)
}

/// The extents that begin at a page go, and pieces come last.
pub fn exchange(parts: &mut Parts, first: u64, pieces: &[Part]) -> Result<(), NoMemory>
    ensures ok { OnOk result (parts.new ≡ exchanged (begins_at first) parts.old pieces.now) }
    ensures err { OnErr result (parts.new ≡ parts.old) }
{
    let alloc = parts.alloc();
    let mut all = not_beginning_at(alloc, first, parts.as_slice())?;
    all.extend_from_slice(pieces)?;
    *parts = Seq::from_vec(all);
    Ok(())
}

/// One extent goes, and pieces come last.
pub fn replace(space: &mut Space, part: &Part, pieces: &[Part], reply: Reply) -> Replied
    ensures { IsMade space.old space.new result (replaced space.old part.now pieces.now reply) }
{
    exchange(&mut space.parts, part.span.first, pieces)?;
    Ok(reply)
}

/// The extent as the client takes it out of its list.
pub fn taken_out(client: u32, part: Part) -> Part
    ensures { result ≡ taken_out client part }
{
    Part {
        state: State::Flight(client, part.state.rest()),
        ..part
    }
}

/// The extent as it is put down.
pub fn put_down(part: Part) -> Part
    ensures { result ≡ put_down part }
{
    Part {
        state: part.state.rest().state(),
        ..part
    }
}

/// Looks for the extent that serves a request.
fn look(space: &mut Space, client: u32, pages: u64, align: u64) -> Replied
    requires align { 1 ≤ align }
    requires sound { Sound space.old }
    ensures { IsMade space.old space.new result (after_look space.old client pages align) }
{
    if !space.life.is_live() {
        return Ok(Reply::NoArena);
    }
    let Some(part) = fit(pages, align, space.parts.as_slice()) else {
        let series = space.grow.min(space.grow_limit);
        return Ok(Reply::Grow { series });
    };
    let reply = Reply::Took {
        span: part.span,
        committed: part.committed,
        skip: (part.span.run_start(align) - u128::from(part.span.first)) as u64,
    };
    replace(space, &part, &[taken_out(client, part)], reply)
}

/// An extent in flight whose hook refused is put down whole.
pub fn put_whole(space: &mut Space, found: Option<Part>) -> Replied
    ensures { IsMade space.old space.new result (whole_at space.old found) }
{
    match found {
        Some(part) => replace(space, &part, &[put_down(part)], Reply::Whole),
        None => Ok(Reply::Noted),
    }
}

/// An extent is two from now on: the piece that stays in flight comes last, behind the other one, which is put down.
fn cut(space: &mut Space, keep_low: bool, left: u64, part: Part) -> Replied
    requires cut { left ≤ part.span.pages }
    requires fits { part.span.first + part.span.pages < 2 ^ 64 }
    ensures { IsMade space.old space.new result (cut_at space.old keep_low left (Some part)) }
{
    let low = part.low_piece(left);
    let high = part.high_piece(left);
    let (kept, other) = if keep_low { (low, high) } else { (high, low) };
    replace(
        space,
        &part,
        &[put_down(other), kept],
        Reply::Cut(kept.span),
    )
}

/// Takes in the answer to a split.
#[tactic(auto, using(crate::proofs::Bounds::cut_bounds))]
fn cut_done(space: &mut Space, client: u32, heard: Heard, keep_low: bool) -> Replied
    requires stands { IsTrue (cut_stands space.old client heard.ask heard.answer) }
    requires sound { Sound space.old }
    ensures { IsMade space.old space.new result (after_cut space.old client keep_low heard.ask heard.answer) }
{
    let Ask::Split { span, left } = heard.ask else {
        return Ok(Reply::Noted);
    };
    let found = flight(space.parts.as_slice(), client, span);
    match (heard.answer, found) {
        (Answer::Done, Some(part)) => cut(space, keep_low, left, part),
        (Answer::Refused, found) => put_whole(space, found),
        _ => Ok(Reply::Noted),
    }
}

/// Takes in the answer to a commit.
fn commit_done(space: &mut Space, client: u32, heard: Heard) -> Replied
    ensures { IsMade space.old space.new result (after_commit space.old client heard.ask heard.answer) }
{
    let Ask::Commit(span) = heard.ask else {
        return Ok(Reply::Noted);
    };
    let found = flight(space.parts.as_slice(), client, span);
    match (heard.answer, found) {
        (Answer::Done, Some(part)) => {
            let committed = Part {
                committed: true,
                ..part
            };
            replace(space, &part, &[committed], Reply::Noted)
        }
        (Answer::Refused, found) => put_whole(space, found),
        _ => Ok(Reply::Noted),
    }
}

/// A new extent is in flight to the retained ones.
pub fn add_retained(
    parts: &mut Parts,
    client: u32,
    span: Span,
    committed: bool,
) -> Result<(), NoMemory>
    ensures ok { OnOk result (parts.new ≡ parts.old ++ new_part client span committed ∷ []) }
    ensures err { OnErr result (parts.new ≡ parts.old) }
{
    parts.push(Part {
        span,
        state: State::Flight(client, Rest::Retained),
        committed,
    })
}

/// The growth after one by a span: twice that, if it isn't larger already, within the most that there may be.
fn grow_after(grow: u64, span: Span) -> u64
    ensures { result ≡ grow_after grow span }
{
    let chunks = span.pages.div_ceil(CHUNK_PAGES);
    grow.max((2 * chunks).min(MAX_SERIES))
}

/// The answered span joins the arena, unless something speaks against it.
fn grow(space: &mut Space, client: u32, span: Span, committed: bool, why: Option<Why>) -> Replied
    ensures { IsMade space.old space.new result (grow_unless space.old client span committed why) }
{
    if let Some(why) = why {
        return Ok(Reply::Bad(why));
    }
    add_retained(&mut space.parts, client, span, committed)?;
    space.grow = grow_after(space.grow, span);
    Ok(Reply::Grown { span, committed })
}

/// Takes in the answer to an alloc.
fn grow_done(space: &mut Space, client: u32, heard: Heard, found: Option<u64>) -> Replied
    requires { IsTrue (grow_stands space.old client heard.ask heard.answer) }
    ensures { IsMade space.old space.new result (after_grow space.old client found heard.ask heard.answer) }
{
    let Ask::Alloc { pages, align, .. } = heard.ask else {
        return Ok(Reply::Noted);
    };
    let (first, committed) = match heard.answer {
        Answer::Placed {
            first,
            committed,
            ..
        } => (first, committed),
        Answer::Refused => return Ok(Reply::Refused),
        Answer::Done => return Ok(Reply::Noted),
    };
    let span = Span { first, pages };
    let why = why_not(found, align, space.parts.as_slice(), span);
    grow(space, client, span, committed, why)
}

/// What an operation does that may stand.
fn step(space: &mut Space, client: u32, op: &Op) -> Replied
    requires client { client < 32 }
    requires stands { IsTrue (op_stands space.old client op.now) }
    requires sound { Sound space.old }
    ensures { IsMade space.old space.new result (step_of space.old client op.now) }
{
    match op {
        Op::Look { pages, align } => look(space, client, *pages, *align),
        Op::CutDone { heard, keep_low } => cut_done(space, client, *heard, *keep_low),
        Op::GrowDone { heard, found } => grow_done(space, client, *heard, *found),
        Op::CommitDone { heard } => commit_done(space, client, *heard),
        Op::Land { span, class, count } => land_done(space, client, *span, *class, *count),
        Op::Back { addrs } => give_back(space, client, addrs),
        Op::PutLook { span, tries } => put_look(space, client, *span, *tries),
        Op::MergeDone { heard, own_low } => merge_done(space, client, *heard, *own_low),
        Op::Fill { class, count } => fill(space, client, *class, *count),
        Op::Advance { now } => advance(space, *now),
        Op::PurgeTake { rest, keep } => purge_take(space, client, *rest, *keep),
        Op::LazyDone { heard } => lazy_done(space, client, *heard),
        Op::Offer { span } => offer(space, client, *span),
        Op::OfferDone { heard, found } => offer_done(space, client, *heard, *found),
        Op::DecommitDone { heard } => decommit_done(space, client, *heard),
        Op::ForcedDone { .. } => Ok(Reply::Noted),
        Op::Publish { addr } => publish(space, client, *addr),
        Op::TakeOver { addr } => take_over(space, client, *addr),
        Op::Reset { cached } => reset(space, client, *cached),
        Op::Destroy { cached } => destroy(space, client, *cached),
        Op::DestroyTake => destroy_take(space),
        Op::Counts => counts(space),
        Op::Set(setting) => Ok(set(space, client, *setting)),
        Op::Widen { addr, pages } => widen(space, client, *addr, *pages),
        Op::JoinDone { heard, class } => join_done(space, client, *heard, *class),
        Op::Trim { .. } => Ok(trim(space, client)),
        Op::TrimDone { heard, class } => trim_done(space, client, *heard, *class),
    }
}

/// The step of an entry that may stand, by scans over the lists. The space is sound before and after it, it is good for
/// the longer journal where it was good, and what every other client owns stays as it was.
///
/// Where memory is wanting, the space is unchanged.
pub fn plain_step(space: &mut Space, entry: &Entry) -> Result<Reply, NoMemory>
    requires stands { IsTrue (stands space.old entry.now) }
    requires sound { Sound space.old }
    ensures after { OnOk result (space.new ≡ space_after space.old entry.now) }
    ensures reply { IfOk result (λ told. told ≡ reply_to space.old entry.now) }
    ensures err { OnErr result (space.new ≡ space.old) }
    ensures sound { Sound space.new }
    ensures good { (turns : _) → Good turns space.old → IfOk result (λ told. Good (turns ++ (entry.now, told) ∷ []) space.new) }
    ensures others { (client : ℕ) → client ≢ entry.now.client → mine client space.new ≡ mine client space.old }
{
    step(space, entry.client, &entry.op)
}
