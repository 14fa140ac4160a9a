//! Plans: which of the next asks of a kind are refused without being passed on.

ghost use Rattle.std.specs.Prelude.{◌≡◌};
ghost use Rattle.hook_api.specs.Plans.{kind_of, kind_index, plan_of, refuses_next, next_plan};

use space_model::Ask;

/// The kinds of asks that a plan can refuse: all but destroy.
#[derive(Clone, Copy, Debug, PartialEq, Eq)]
pub enum Kind {
    /// Of an alloc.
    Alloc,
    /// Of a dalloc.
    Dalloc,
    /// Of a commit.
    Commit,
    /// Of a decommit.
    Decommit,
    /// Of a lazy purge.
    PurgeLazy,
    /// Of a forced purge.
    PurgeForced,
    /// Of a split.
    Split,
    /// Of a merge.
    Merge,
}

impl Kind {
    /// How many kinds there are.
    pub(crate) const COUNT: usize = 8;

    /// The kind of an ask; a destroy has none.
    pub(crate) fn of(ask: Ask) -> Option<Kind>
        ensures { result ≡ kind_of ask }
    {
        match ask {
            Ask::Alloc { .. } => Some(Kind::Alloc),
            Ask::Dalloc { .. } => Some(Kind::Dalloc),
            Ask::Destroy { .. } => None,
            Ask::Commit(_) => Some(Kind::Commit),
            Ask::Decommit(_) => Some(Kind::Decommit),
            Ask::PurgeLazy(_) => Some(Kind::PurgeLazy),
            Ask::PurgeForced(_) => Some(Kind::PurgeForced),
            Ask::Split { .. } => Some(Kind::Split),
            Ask::Merge { .. } => Some(Kind::Merge),
        }
    }

    /// Its number, below `COUNT`.
    pub(crate) fn index(self) -> usize
        ensures { result ≡ kind_index self }
    {
        match self {
            Kind::Alloc => 0,
            Kind::Dalloc => 1,
            Kind::Commit => 2,
            Kind::Decommit => 3,
            Kind::PurgeLazy => 4,
            Kind::PurgeForced => 5,
            Kind::Split => 6,
            Kind::Merge => 7,
        }
    }
}

/// What happens to the next asks of one kind.
#[derive(Clone, Copy, Debug, PartialEq, Eq)]
pub enum Plan {
    /// None is refused.
    Pass,
    /// So many pass, and the next one is refused.
    After(u64),
    /// Each is refused.
    All,
}

impl Plan {
    /// The `nth` ask from now on is refused, or every ask where `nth` is 0.
    pub(crate) fn of(nth: u64) -> Plan
        ensures { result ≡ plan_of nth }
    {
        if nth == 0 {
            Plan::All
        } else {
            Plan::After(nth - 1)
        }
    }

    /// Whether the next ask is refused.
    pub(crate) fn refuses_next(self) -> bool
        ensures { result ≡ refuses_next self }
    {
        match self {
            Plan::Pass => false,
            Plan::After(passing) => passing == 0,
            Plan::All => true,
        }
    }

    /// The plan after one ask.
    pub(crate) fn next(self) -> Plan
        ensures { result ≡ next_plan self }
    {
        match self {
            Plan::Pass | Plan::After(0) => Plan::Pass,
            Plan::After(passing) => Plan::After(passing - 1),
            Plan::All => Plan::All,
        }
    }
}
