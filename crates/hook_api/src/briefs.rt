//! An ask and its answer in few numbers, so that many of them take little room.

ghost use Rattle.std.specs.Prelude.{◌≡◌};
ghost use Rattle.hook_api.specs.Briefs.{brief, read_answer, read_ask};

use space_model::{Answer, Ask, Span};

/// Which ask it is.
#[derive(Clone, Copy)]
pub(crate) enum AskShape {
    /// An alloc anywhere.
    Anywhere,
    /// An alloc at a page that is wished.
    At,
    /// A dalloc.
    Dallocs,
    /// A destroy.
    Destroys,
    /// A commit.
    Commits,
    /// A decommit.
    Decommits,
    /// A lazy purge.
    Eases,
    /// A forced purge.
    Forces,
    /// A split.
    Splits,
    /// A merge.
    Merges,
}

/// Which answer it is.
#[derive(Clone, Copy)]
pub(crate) enum AnswerShape {
    /// It refuses.
    No,
    /// It is done.
    Yes,
    /// A range.
    Range,
    /// A committed range.
    Committed,
    /// A range whose bytes are zero.
    Zeroed,
    /// A committed range whose bytes are zero.
    Ready,
}

/// An ask: its shape, whether it commits or its range is committed, and its numbers in order.
#[derive(Clone, Copy)]
pub(crate) struct BriefAsk {
    pub(crate) shape: AskShape,
    pub(crate) flag: bool,
    pub(crate) a: u64,
    pub(crate) b: u64,
    pub(crate) c: u64,
    pub(crate) d: u64,
}

/// An answer: its shape, and the first page of its range.
#[derive(Clone, Copy)]
pub(crate) struct BriefAnswer {
    pub(crate) shape: AnswerShape,
    pub(crate) first: u64,
}

/// An ask of a range.
fn brief(shape: AskShape, flag: bool, span: Span, c: u64, d: u64) -> BriefAsk
    ensures { result ≡ brief shape flag span c d }
{
    BriefAsk {
        shape,
        flag,
        a: span.first,
        b: span.pages,
        c,
        d,
    }
}

/// An alloc.
fn alloc(at: Option<u64>, pages: u64, align: u64, commit: bool) -> BriefAsk
    ensures { read_ask result ≡ Ask.Alloc commit at pages align }
{
    let (shape, c) = match at {
        None => (AskShape::Anywhere, 0),
        Some(first) => (AskShape::At, first),
    };
    BriefAsk {
        shape,
        flag: commit,
        a: pages,
        b: align,
        c,
        d: 0,
    }
}

impl BriefAsk {
    /// An ask in few numbers.
    pub(crate) fn of(ask: Ask) -> BriefAsk
        ensures { read_ask result ≡ ask }
    {
        match ask {
            Ask::Alloc {
                at,
                pages,
                align,
                commit,
            } => alloc(at, pages, align, commit),
            Ask::Dalloc { span, committed } => brief(AskShape::Dallocs, committed, span, 0, 0),
            Ask::Destroy { span, committed } => brief(AskShape::Destroys, committed, span, 0, 0),
            Ask::Commit(span) => brief(AskShape::Commits, false, span, 0, 0),
            Ask::Decommit(span) => brief(AskShape::Decommits, false, span, 0, 0),
            Ask::PurgeLazy(span) => brief(AskShape::Eases, false, span, 0, 0),
            Ask::PurgeForced(span) => brief(AskShape::Forces, false, span, 0, 0),
            Ask::Split { span, left } => brief(AskShape::Splits, false, span, left, 0),
            Ask::Merge { low, high } => brief(AskShape::Merges, false, low, high.first, high.pages),
        }
    }

    /// An alloc at the page that is wished, if one is.
    fn alloc(self, at: Option<u64>) -> Ask
        ensures { result ≡ Ask.Alloc self.flag at self.a self.b }
    {
        Ask::Alloc {
            at,
            pages: self.a,
            align: self.b,
            commit: self.flag,
        }
    }

    /// The ask.
    pub(crate) fn ask(self) -> Ask
        ensures { result ≡ read_ask self }
    {
        let committed = self.flag;
        let span = Span {
            first: self.a,
            pages: self.b,
        };
        match self.shape {
            AskShape::Anywhere => self.alloc(None),
            AskShape::At => self.alloc(Some(self.c)),
            AskShape::Dallocs => Ask::Dalloc { span, committed },
            AskShape::Destroys => Ask::Destroy { span, committed },
            AskShape::Commits => Ask::Commit(span),
            AskShape::Decommits => Ask::Decommit(span),
            AskShape::Eases => Ask::PurgeLazy(span),
            AskShape::Forces => Ask::PurgeForced(span),
            AskShape::Splits => Ask::Split { span, left: self.c },
            AskShape::Merges => Ask::Merge {
                low: span,
                high: Span {
                    first: self.c,
                    pages: self.d,
                },
            },
        }
    }
}

impl BriefAnswer {
    /// An answer in few numbers.
    pub(crate) fn of(answer: Answer) -> BriefAnswer
        ensures { read_answer result ≡ answer }
    {
        let (shape, first) = match answer {
            Answer::Refused => (AnswerShape::No, 0),
            Answer::Done => (AnswerShape::Yes, 0),
            Answer::Placed {
                first,
                committed,
                zeroed,
            } => match (committed, zeroed) {
                (false, false) => (AnswerShape::Range, first),
                (true, false) => (AnswerShape::Committed, first),
                (false, true) => (AnswerShape::Zeroed, first),
                (true, true) => (AnswerShape::Ready, first),
            },
        };
        BriefAnswer { shape, first }
    }

    /// The answer.
    pub(crate) fn answer(self) -> Answer
        ensures { result ≡ read_answer self }
    {
        let first = self.first;
        let (committed, zeroed) = match self.shape {
            AnswerShape::No => return Answer::Refused,
            AnswerShape::Yes => return Answer::Done,
            AnswerShape::Range => (false, false),
            AnswerShape::Committed => (true, false),
            AnswerShape::Zeroed => (false, true),
            AnswerShape::Ready => (true, true),
        };
        Answer::Placed {
            first,
            committed,
            zeroed,
        }
    }
}
