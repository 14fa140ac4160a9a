//! An ask that was made, in few bytes where its numbers are small.

ghost use Rattle.std.specs.Prelude.{◌≡◌, ◌<◌, ◌^◌, None, is_none, true, IfSome};

use crate::Asked;
use crate::briefs::{AnswerShape, AskShape, BriefAnswer, BriefAsk};
use crate::narrow_deeds::WIDE;
use std::marker::Model;

/// An ask with its answer in 32 bytes, or the mark of one whose numbers don't fit there. Of the last number of the ask and the
/// first page of the answer's range one is 0, and the other is `number`. Contracts see the ask, or `None` for the mark.
#[derive(Drop)]
pub(crate) struct NarrowAsk {
    whole: bool,
    box_no: u8,
    planned: bool,
    ask_shape: AskShape,
    flag: bool,
    answer_shape: AnswerShape,
    ranged: bool,
    rose: bool,
    a: u32,
    b: u32,
    c: u32,
    number: u32,
    place: u32,
    before: u32,
}

impl Model for NarrowAsk {
    ghost use Rattle.std.specs.Prelude.{Option};
    ghost use Rattle.hook_api.specs.Asked.{AskFacts};
    ghost use Rattle.hook_api.specs.NarrowAsks.{IsNarrow, ask_told};

    ghost Value = { Option AskFacts };

    ghost view = { ask_told };

    ghost invariant = { IsNarrow };
}

/// Whether a number has at most 32 bits.
fn is_small(number: u64) -> bool
    ensures { result ≡ true → number < 2 ^ 32 }
{
    number < WIDE
}

/// The mark of an ask whose numbers don't fit.
fn mark() -> NarrowAsk
    ensures { result ≡ None }
{
    NarrowAsk {
        whole: true,
        box_no: 0,
        planned: false,
        ask_shape: AskShape::Anywhere,
        flag: false,
        answer_shape: AnswerShape::No,
        ranged: false,
        rose: false,
        a: 0,
        b: 0,
        c: 0,
        number: 0,
        place: 0,
        before: 0,
    }
}

impl NarrowAsk {
    /// An ask in few bytes, or the mark of one whose numbers don't fit.
    pub(crate) fn of(asked: &Asked) -> NarrowAsk
        ensures { IfSome result (λ small. small ≡ asked.now) }
    {
        let brief = BriefAsk::of(asked.ask);
        let said = BriefAnswer::of(asked.answer);
        let (ranged, number) = match (brief.d, said.first) {
            (0, first) => (true, first),
            (d, 0) => (false, d),
            _ => return mark(),
        };
        let rose = match asked.after.checked_sub(asked.before) {
            Some(0) => false,
            Some(1) => true,
            _ => return mark(),
        };
        let is_called = is_small(brief.a) && is_small(brief.b) && is_small(brief.c);
        let is_counted = asked.box_no < 256 && is_small(asked.place) && is_small(asked.before);
        if !(is_called && is_counted && is_small(number)) {
            return mark();
        }
        NarrowAsk {
            whole: false,
            box_no: asked.box_no as u8,
            planned: asked.planned,
            ask_shape: brief.shape,
            flag: brief.flag,
            answer_shape: said.shape,
            ranged,
            rose,
            a: brief.a as u32,
            b: brief.b as u32,
            c: brief.c as u32,
            number: number as u32,
            place: asked.place as u32,
            before: asked.before as u32,
        }
    }

    /// Whether this is the mark of an ask whose numbers don't fit.
    pub(crate) fn is_mark(&self) -> bool
        ensures { result ≡ is_none self.now }
    {
        self.whole
    }

    /// The ask, unless this is the mark of one.
    pub(crate) fn asked(&self) -> Option<Asked>
        ensures { result ≡ self.now }
    {
        if self.whole {
            return None;
        }
        let number = u64::from(self.number);
        let (d, first) = if self.ranged {
            (0, number)
        } else {
            (number, 0)
        };
        let before = u64::from(self.before);
        let brief = BriefAsk {
            shape: self.ask_shape,
            flag: self.flag,
            a: u64::from(self.a),
            b: u64::from(self.b),
            c: u64::from(self.c),
            d,
        };
        let said = BriefAnswer {
            shape: self.answer_shape,
            first,
        };
        Some(Asked {
            box_no: u32::from(self.box_no),
            planned: self.planned,
            ask: brief.ask(),
            answer: said.answer(),
            place: u64::from(self.place),
            before,
            after: if self.rose { before + 1 } else { before },
        })
    }
}
