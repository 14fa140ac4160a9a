//! The asks of a call, and where the reply to the turn leads that takes an answer in.

ghost use Rattle.std.specs.Prelude.{◌≡◌, ◌≤◌, ◌*◌, ◌^◌, max, None};
ghost use Rattle.call_plan.specs.Table.{alloc_of, answered_span, ask_at, committed, done_at, grant_split, grown, needed, skipped, told, trimmed, whole_chunks};
ghost use Rattle.call_plan.specs.Points.{IsSized};
ghost use Rattle.call_plan.specs.Stages.{led};

use crate::calls::{ask, turn};
use crate::{Answered, AskPoint, Need, NextStep, Resize, TurnPoint, Wish};
use hook_api::Asked;
use size_classes::class_pages;
use space_model::{Answer, Ask, CHUNK_PAGES, Op, Reply, Span};

/// The range that an alloc's answer places, of so many pages.
fn answered_span(pages: u64, answer: Answer) -> Span
    ensures { result ≡ answered_span pages answer }
{
    match answer {
        Answer::Placed { first, .. } => Span { first, pages },
        Answer::Done | Answer::Refused => Span { first: 0, pages },
    }
}

/// `need` becomes the ask for a split of so many pages off an extent.
fn put_split(arena: u32, span: Span, left: u64, need: &mut Need)
    ensures { need.new ≡ Need.Ask arena (Ask.Split span left) }
{
    *need = ask(arena, Ask::Split { span, left });
}

impl Wish {
    /// The pages of as many chunks as are needed.
    fn chunk_pages(self) -> u64
        requires { self.pages ≤ 2 ^ 32 }
        ensures { result ≡ whole_chunks self.pages }
    {
        self.chunks() * CHUNK_PAGES
    }

    /// An alloc of so many pages, anywhere.
    fn alloc(self, pages: u64) -> Ask
        ensures { result ≡ alloc_of self pages }
    {
        Ask::Alloc {
            at: None,
            pages,
            align: self.align.max(CHUNK_PAGES),
            commit: false,
        }
    }

    /// After the split of what stands before the run.
    fn skipped(self, committed: bool, reply: &Reply, step: &mut NextStep)
        ensures { led step.new None ≡ skipped self committed reply.now }
    {
        match *reply {
            Reply::Cut(high) => self.trim(high, committed, step),
            Reply::Whole => *step = self.need_chunks(),
            _ => *step = NextStep::Nowhere,
        }
    }

    /// After the split of what stands behind the run, or of a grant of more chunks than are needed.
    fn trimmed(self, committed: bool, reply: &Reply, step: &mut NextStep)
        ensures { led step.new None ≡ trimmed self committed reply.now }
    {
        match *reply {
            Reply::Cut(low) => self.commit(low, committed, step),
            Reply::Whole => *step = self.need_chunks(),
            _ => *step = NextStep::Nowhere,
        }
    }

    /// After the alloc of more chunks than are needed.
    fn grown(self, chunks: u64, answer: Answer, reply: &Reply, step: &mut NextStep)
        requires { chunks ≤ 16384 }
        ensures { led step.new None ≡ grown self chunks answer reply.now }
    {
        match *reply {
            Reply::Refused => *step = self.need_chunks(),
            Reply::Bad(why) => {
                let span = answered_span(chunks * CHUNK_PAGES, answer);
                *step = NextStep::Ends(Answered::BadAnswer { span, why });
            }
            Reply::Grown { span, committed } => {
                let wish = self;
                *step = AskPoint::SplittingGrown {
                    wish,
                    span,
                    committed,
                }
                .first();
            }
            _ => *step = NextStep::Nowhere,
        }
    }

    /// After the alloc of as many chunks as are needed.
    fn needed(self, asked: &Asked, reply: &Reply, step: &mut NextStep)
        requires { self.pages ≤ 2 ^ 32 }
        ensures { led step.new None ≡ needed self asked.now reply.now }
    {
        match *reply {
            Reply::Refused => *step = NextStep::Ends(Answered::Refused(*asked)),
            Reply::Bad(why) => {
                let span = answered_span(self.chunk_pages(), asked.answer());
                *step = NextStep::Ends(Answered::BadAnswer { span, why });
            }
            Reply::Grown { span, committed } => self.grant(span, committed, step),
            _ => *step = NextStep::Nowhere,
        }
    }

    /// After the split of what that granted.
    fn granted(self, committed: bool, asked: &Asked, reply: &Reply, step: &mut NextStep)
        ensures { led step.new None ≡ grant_split self committed asked.now reply.now }
    {
        match *reply {
            Reply::Cut(low) => self.commit(low, committed, step),
            Reply::Whole => *step = NextStep::Ends(Answered::Refused(*asked)),
            _ => *step = NextStep::Nowhere,
        }
    }

    /// After a commit.
    fn committed(self, span: Span, asked: &Asked, reply: &Reply, step: &mut NextStep)
        ensures { led step.new None ≡ committed self span asked.now reply.now }
    {
        match *reply {
            Reply::Noted => *step = TurnPoint::Landing(self, span).next(),
            Reply::Whole => *step = NextStep::Ends(Answered::Refused(*asked)),
            _ => *step = NextStep::Nowhere,
        }
    }
}

impl AskPoint {
    /// `need` becomes the ask of the box of the arena with this index, written where it stands.
    pub(crate) fn put_ask(&self, arena: u32, need: &mut Need)
        requires { IsSized self.now }
        ensures { need.new ≡ Need.Ask arena (ask_at self.now) }
    {
        match *self {
            AskPoint::Skipping { span, skip, .. } => put_split(arena, span, skip, need),
            AskPoint::Trimming { wish, span, .. }
            | AskPoint::SplittingGrown { wish, span, .. }
            | AskPoint::SplittingExact { wish, span, .. } => put_split(
                arena, span, wish.pages, need,
            ),
            AskPoint::Growing(wish, chunks) => {
                *need = ask(arena, wish.alloc(chunks * CHUNK_PAGES));
            }
            AskPoint::GrowingExactly(wish) => *need = ask(arena, wish.alloc(wish.chunk_pages())),
            AskPoint::Committing(_, span) => *need = ask(arena, Ask::Commit(span)),
            AskPoint::Merging { low, high, .. } => *need = ask(arena, Ask::Merge { low, high }),
            AskPoint::PurgingLazily(span, _) => *need = ask(arena, Ask::PurgeLazy(span)),
            AskPoint::Returning(span, _) => {
                let committed = true;
                *need = ask(arena, Ask::Dalloc { span, committed });
            }
            AskPoint::Decommitting(span, _) => *need = ask(arena, Ask::Decommit(span)),
            AskPoint::Forcing(span, _) => *need = ask(arena, Ask::PurgeForced(span)),
            AskPoint::Cutting(resize) => {
                put_split(arena, resize.span(), class_pages(resize.class), need);
            }
            AskPoint::Extending(resize) => *need = ask(arena, resize.alloc()),
            AskPoint::Sparing { resize, span, .. } => put_split(arena, span, resize.lacks(), need),
            AskPoint::Backing(_, span) => *need = ask(arena, Ask::Commit(span)),
            AskPoint::Joining(resize, span) => {
                let (low, high) = (resize.span(), span);
                *need = ask(arena, Ask::Merge { low, high });
            }
        }
    }

    /// `need` becomes the turn that takes the answer of the ask in, written where it stands.
    pub(crate) fn put_done(&self, asked: &Asked, arena: u32, client: u32, need: &mut Need)
        ensures { need.new ≡ Need.Turn (record { arena = arena; client = client; op = done_at self.now asked.now }) }
    {
        let heard = asked.heard();
        match *self {
            AskPoint::Skipping { .. } => {
                let keep_low = false;
                *need = turn(arena, client, Op::CutDone { heard, keep_low });
            }
            AskPoint::Trimming { .. }
            | AskPoint::SplittingGrown { .. }
            | AskPoint::SplittingExact { .. }
            | AskPoint::Sparing { .. } => {
                let keep_low = true;
                *need = turn(arena, client, Op::CutDone { heard, keep_low });
            }
            AskPoint::Growing(..) | AskPoint::GrowingExactly(_) | AskPoint::Extending(_) => {
                *need = turn(arena, client, Op::GrowDone { heard, found: None });
            }
            AskPoint::Committing(..) | AskPoint::Backing(..) => {
                *need = turn(arena, client, Op::CommitDone { heard });
            }
            AskPoint::Merging { own_low, .. } => {
                *need = turn(arena, client, Op::MergeDone { heard, own_low });
            }
            AskPoint::PurgingLazily(..) => *need = turn(arena, client, Op::LazyDone { heard }),
            AskPoint::Returning(..) => {
                *need = turn(arena, client, Op::OfferDone { heard, found: None });
            }
            AskPoint::Decommitting(..) => {
                *need = turn(arena, client, Op::DecommitDone { heard });
            }
            AskPoint::Forcing(..) => *need = turn(arena, client, Op::ForcedDone { heard }),
            AskPoint::Cutting(Resize { class, .. }) => {
                *need = turn(arena, client, Op::TrimDone { heard, class });
            }
            AskPoint::Joining(Resize { class, .. }, _) => {
                *need = turn(arena, client, Op::JoinDone { heard, class });
            }
        }
    }

    /// Where the reply to the turn leads that took the answer in.
    pub(crate) fn told(&self, asked: &Asked, reply: &Reply, step: &mut NextStep)
        requires { IsSized self.now }
        ensures { led step.new None ≡ told self.now asked.now reply.now }
    {
        match *self {
            AskPoint::Skipping {
                wish,
                committed,
                ..
            } => wish.skipped(committed, reply, step),
            AskPoint::Trimming {
                wish,
                committed,
                ..
            }
            | AskPoint::SplittingGrown {
                wish,
                committed,
                ..
            } => wish.trimmed(committed, reply, step),
            AskPoint::Growing(wish, chunks) => wish.grown(chunks, asked.answer(), reply, step),
            AskPoint::GrowingExactly(wish) => wish.needed(asked, reply, step),
            AskPoint::SplittingExact {
                wish,
                committed,
                ..
            } => wish.granted(committed, asked, reply, step),
            AskPoint::Committing(wish, span) => wish.committed(span, asked, reply, step),
            AskPoint::Merging {
                own_low,
                fresh,
                then,
                ..
            } => then.merged(own_low, fresh, reply, step),
            AskPoint::PurgingLazily(span, then) => then.eased(span, reply, step),
            AskPoint::Returning(span, then) => then.returned(span, reply, step),
            AskPoint::Decommitting(span, then) => then.decommitted(span, reply, step),
            AskPoint::Forcing(span, then) => then.forced(span, reply, step),
            AskPoint::Cutting(resize) => resize.narrowed(reply, step),
            AskPoint::Extending(resize) => resize.extended(reply, step),
            AskPoint::Sparing {
                resize,
                committed,
                ..
            } => resize.spared(committed, reply, step),
            AskPoint::Backing(resize, span) => resize.backed(span, reply, step),
            AskPoint::Joining(resize, _) => resize.widened(reply, step),
        }
    }
}
