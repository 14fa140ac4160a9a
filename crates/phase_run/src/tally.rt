//! How many calls have their answers.

ghost use Rattle.std.specs.Prelude.{◌≡◌};
ghost use Rattle.phase_run.specs.Requests.{is_failed};
ghost use Rattle.phase_run.specs.Tally.{IsCapped, added, no_answers, tallied};

use call_plan::Answered;

/// How many calls were made, and how many of them weren't answered Ok, each up to the greatest `u64`.
#[derive(Clone, Copy, Debug, PartialEq, Eq)]
pub struct Tally {
    /// All of them.
    pub calls: u64,
    /// Those that weren't answered Ok.
    pub failed: u64,
}

/// Whether a call wasn't answered Ok.
fn is_failed(answer: &Answered) -> bool
    ensures { result ≡ is_failed answer.now }
{
    !matches!(answer, Answered::Ok(_))
}

impl Tally {
    /// No call was made.
    pub fn new() -> Tally
        ensures { result ≡ no_answers }
    {
        Tally {
            calls: 0,
            failed: 0,
        }
    }

    /// Counts one more answer.
    pub fn count(&mut self, answer: &Answered)
        ensures { self.new ≡ tallied self.old answer.now }
    {
        self.add(Tally {
            calls: 1,
            failed: u64::from(is_failed(answer)),
        });
    }

    /// Counts what another one counted.
    pub fn add(&mut self, other: Tally)
        ensures { self.new ≡ added self.old other }
    {
        self.calls = self.calls.saturating_add(other.calls);
        self.failed = self.failed.saturating_add(other.failed);
    }

    /// Tells that both counts are at most the greatest `u64`.
    pub(crate) fn fits(&self)
        ensures { IsCapped self.now }
    {
        let _calls = self.calls;
        let _failed = self.failed;
    }
}
