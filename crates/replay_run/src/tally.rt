//! How many calls have their answers.

ghost use Rattle.std.specs.Prelude.{◌≡◌};
ghost use Rattle.replay_run.specs.World.{is_good, no_answers, tallied};

use call_plan::Answered;

/// How many calls have answered Ok, and how many otherwise, each up to the greatest `u64`.
#[derive(Clone, Copy, Debug, PartialEq, Eq)]
pub struct Tally {
    /// Those that answered Ok.
    pub good: u64,
    /// The others.
    pub failed: u64,
}

/// Whether a call answered Ok.
fn is_good(answer: &Answered) -> bool
    ensures { result ≡ is_good answer.now }
{
    matches!(answer, Answered::Ok(_))
}

impl Tally {
    /// No call has an answer.
    pub fn new() -> Tally
        ensures { result ≡ no_answers }
    {
        Tally { good: 0, failed: 0 }
    }

    /// Counts one more answer.
    pub fn count(&mut self, answer: &Answered)
        ensures { self.new ≡ tallied self.old answer.now }
    {
        if is_good(answer) {
            self.good = self.good.saturating_add(1);
        } else {
            self.failed = self.failed.saturating_add(1);
        }
    }
}
