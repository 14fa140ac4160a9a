//! The rules that a box may follow.

ghost use Rattle.std.specs.Prelude.{◌≡◌, ◌<◌, slice_set};
ghost use Rattle.ruled_hooks.specs.Rules.{may_merge_at, no_rules, place_of, refuses, with_rule};

use hook_api::Kind;

/// How many kinds of asks a box can refuse.
pub(crate) const KINDS: usize = 8;

/// One rule of a box.
#[derive(Clone, Copy, Debug, PartialEq, Eq)]
pub enum Rule {
    /// At most so many pages are out at once; an alloc of more is refused.
    Pool(u64),
    /// Of the asks of a kind every so-manieth is refused; none where the number is 0.
    Refuse(Kind, u64),
    /// Each range comes uncommitted.
    Uncommitted,
    /// No merge is done at a multiple of so many pages, which isn't 0.
    Border(u64),
    /// The so-manieth alloc is answered by the range that begins at a page, whatever is there.
    Wrong {
        /// Which alloc, counted from 1.
        nth: u64,
        /// The first page of the answer.
        first: u64,
    },
}

/// All rules of a box.
#[derive(Clone, Copy, Debug, PartialEq, Eq)]
pub struct Rules {
    /// How many pages may be out at once.
    pub(crate) pool: u64,
    /// Of each kind, by its number, every so-manieth ask is refused; none where it is 0.
    pub(crate) every: [u64; KINDS],
    /// Whether each range comes uncommitted.
    pub(crate) uncommitted: bool,
    /// No merge is done at a multiple of so many pages; 0 where there is no such border.
    pub(crate) border: u64,
    /// Which alloc is answered wrongly, counted from 1; 0 where none is.
    pub(crate) wrong: u64,
    /// The first page of that answer.
    pub(crate) wrong_first: u64,
}

/// The number of a kind, below 8.
pub(crate) fn place_of(kind: Kind) -> usize
    ensures place { result ≡ place_of kind }
    ensures bound { result < 8 }
{
    match kind {
        Kind::Alloc => 0,
        Kind::Dalloc => 1,
        Kind::Commit => 2,
        Kind::Decommit => 3,
        Kind::PurgeLazy => 4,
        Kind::PurgeForced => 5,
        Kind::Split => 6,
        Kind::Merge => 7,
    }
}

impl Rules {
    /// No rule: the box does what the box behind it does.
    pub fn none() -> Rules
        ensures { result ≡ no_rules }
    {
        Rules {
            pool: u64::MAX,
            every: [0; KINDS],
            uncommitted: false,
            border: 0,
            wrong: 0,
            wrong_first: 0,
        }
    }

    /// These rules and one more, which takes the place of an earlier one of its kind.
    pub fn with(self, rule: Rule) -> Rules
        ensures { result ≡ with_rule self rule }
    {
        match rule {
            Rule::Pool(pages) => Rules {
                pool: pages,
                ..self
            },
            Rule::Refuse(kind, nth) => self.refusing(kind, nth),
            Rule::Uncommitted => Rules {
                uncommitted: true,
                ..self
            },
            Rule::Border(pages) => Rules {
                border: pages,
                ..self
            },
            Rule::Wrong { nth, first } => Rules {
                wrong: nth,
                wrong_first: first,
                ..self
            },
        }
    }

    /// These rules, with which of the asks of a kind every so-manieth is refused.
    fn refusing(self, kind: Kind, nth: u64) -> Rules
        ensures { result ≡ record self { every = slice_set self.every (place_of kind) nth } }
    {
        let mut every = self.every;
        every[place_of(kind)] = nth;
        Rules { every, ..self }
    }

    /// Whether the so-manieth ask of a kind is refused.
    pub(crate) fn refuses(&self, kind: Kind, count: u64) -> bool
        ensures { result ≡ refuses self.now kind count }
    {
        let every = self.every[place_of(kind)];
        every != 0 && count % every == 0
    }

    /// Whether two ranges that meet at a page may be one.
    pub(crate) fn may_merge_at(&self, page: u64) -> bool
        ensures { result ≡ may_merge_at self.now page }
    {
        self.border == 0 || page % self.border != 0
    }
}
