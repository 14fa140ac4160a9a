//! What a shelf gives back for an ask.

ghost use Rattle.std.specs.Prelude.{◌≡◌};
ghost use Rattle.hook_api.specs.Asked.{by_box, heard_in, RefusalCounts};

use space_model::{Answer, Ask, Heard};
use std::marker::Model;

/// An ask that was made, with its answer. Only a shelf makes one. `Refused` means that the count of refusals of its box
/// number rose from `before` to `after`, or stands at the greatest `u64`.
#[derive(Clone, Copy)]
pub struct Asked {
    pub(crate) box_no: u32,
    pub(crate) planned: bool,
    pub(crate) ask: Ask,
    pub(crate) answer: Answer,
    pub(crate) place: u64,
    pub(crate) before: u64,
    pub(crate) after: u64,
}

impl Model for Asked {
    ghost use Rattle.hook_api.specs.Asked.{AskFacts, RefusalCounts};

    ghost Value = { AskFacts };

    ghost view = { λ a. record { box_no = a.box_no; place = a.place; ask = a.ask; answer = a.answer; before = a.before; after = a.after; planned = a.planned } };

    ghost invariant = { λ a. RefusalCounts a.answer a.before a.after };

    ghost inverse = { λ f. record { box_no = f.box_no; planned = f.planned; ask = f.ask; answer = f.answer; place = f.place; before = f.before; after = f.after } };
}

impl Asked {
    /// An ask that was made of a box number at a place, with its answer, the counts of refusals before and after, and
    /// whether a plan refused it.
    pub(crate) fn new(
        at: (u32, u64),
        ask: Ask,
        answer: Answer,
        counts: (u64, u64),
        planned: bool,
    ) -> Asked
        requires { RefusalCounts answer counts.0 counts.1 }
        ensures { result ≡ record { box_no = at.0; place = at.1; ask = ask; answer = answer; before = counts.0; after = counts.1; planned = planned } }
    {
        let ((box_no, place), (before, after)) = (at, counts);
        Asked {
            box_no,
            planned,
            ask,
            answer,
            place,
            before,
            after,
        }
    }

    /// The box number, below 32.
    pub fn box_no(&self) -> u32
        ensures { result ≡ self.now.box_no }
    {
        self.box_no
    }

    /// Which ask of that box number it is, counted from 0; at a shared shelf, which of those that its seat made. It stays
    /// at the greatest `u64` once it is reached.
    pub fn place(&self) -> u64
        ensures { result ≡ self.now.place }
    {
        self.place
    }

    /// The ask.
    pub fn ask(&self) -> Ask
        ensures { result ≡ self.now.ask }
    {
        self.ask
    }

    /// The answer.
    pub fn answer(&self) -> Answer
        ensures answer { result ≡ self.now.answer }
        ensures counted { RefusalCounts result self.now.before self.now.after }
    {
        self.answer
    }

    /// The count of refusals of the box number before the ask.
    pub fn before(&self) -> u64
        ensures { result ≡ self.now.before }
    {
        self.before
    }

    /// The count of refusals of the box number after the ask.
    pub fn after(&self) -> u64
        ensures { result ≡ self.now.after }
    {
        self.after
    }

    /// Whether a plan refused the ask. Where none did, the box was asked and gave the answer.
    pub fn planned(&self) -> bool
        ensures { result ≡ self.now.planned }
    {
        self.planned
    }

    /// The same ask at another place.
    pub(crate) fn at(self, place: u64) -> Asked
        ensures { result ≡ record self { place = place } }
    {
        Asked { place, ..self }
    }

    /// Whether the box refused the ask, and no plan.
    pub(crate) fn by_box(&self) -> bool
        ensures { result ≡ by_box self.now }
    {
        matches!(self.answer, Answer::Refused) && !self.planned
    }

    /// The ask with its answer.
    pub fn heard(&self) -> Heard
        ensures { result ≡ heard_in self.now }
    {
        Heard {
            ask: self.ask(),
            answer: self.answer(),
        }
    }
}
