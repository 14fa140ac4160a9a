//! The texts of the counts of an arena, in bytes.

ghost use Rattle.std.specs.Prelude.{Some};
ghost use Rattle.report_text.specs.Lines.{counts_text, used_text, unused_text, mapped_text};

use space_model::Counts;
use std::fmt;

/// What serves regions.
#[derive(Clone, Copy)]
pub(crate) struct UsedText<'a>(pub(crate) &'a Counts);

impl<'a> fmt::Display for UsedText<'a> {
    ghost output = { λ counts. Some (used_text counts.0.now) };

    #[tactic(auto, unfolding(crate::specs::Lines::used_text))]
    fn fmt<W: fmt::Write>(&self, f: &mut fmt::Formatter<W>) -> fmt::Result {
        let Counts {
            allocated,
            active,
            ..
        } = *self.0;
        write!(f, "allocated {allocated} active {active}")
    }
}

/// What is listed as unused.
#[derive(Clone, Copy)]
pub(crate) struct UnusedText<'a>(pub(crate) &'a Counts);

impl<'a> fmt::Display for UnusedText<'a> {
    ghost output = { λ counts. Some (unused_text counts.0.now) };

    #[tactic(auto, unfolding(crate::specs::Lines::unused_text))]
    fn fmt<W: fmt::Write>(&self, f: &mut fmt::Formatter<W>) -> fmt::Result {
        let Counts {
            dirty,
            muzzy,
            retained,
            ..
        } = *self.0;
        write!(f, "dirty {dirty} muzzy {muzzy} retained {retained}")
    }
}

/// What is in flight, and all that is mapped.
#[derive(Clone, Copy)]
pub(crate) struct MappedText<'a>(pub(crate) &'a Counts);

impl<'a> fmt::Display for MappedText<'a> {
    ghost output = { λ counts. Some (mapped_text counts.0.now) };

    #[tactic(auto, unfolding(crate::specs::Lines::mapped_text))]
    fn fmt<W: fmt::Write>(&self, f: &mut fmt::Formatter<W>) -> fmt::Result {
        let Counts { flight, mapped, .. } = *self.0;
        write!(f, "flight {flight} mapped {mapped}")
    }
}

/// All of them.
#[derive(Clone, Copy)]
pub(crate) struct CountsText<'a>(pub(crate) &'a Counts);

impl<'a> fmt::Display for CountsText<'a> {
    ghost output = { λ counts. Some (counts_text counts.0.now) };

    #[tactic(auto, unfolding(crate::specs::Lines::counts_text))]
    fn fmt<W: fmt::Write>(&self, f: &mut fmt::Formatter<W>) -> fmt::Result {
        let used = UsedText(self.0);
        let unused = UnusedText(self.0);
        let mapped = MappedText(self.0);
        write!(f, "{used} {unused} {mapped}")
    }
}
