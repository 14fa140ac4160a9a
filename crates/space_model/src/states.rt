//! What the states of extents and of arenas say.

ghost use Rattle.std.specs.Prelude.{◌≡◌, ◌+◌, ◌≤◌, ◌<◌, ◌^◌};
ghost use Rattle.space_model.specs.Part.{is_active, is_flight, is_listed, is_unused, listed, rest_of};
ghost use Rattle.space_model.specs.Own.{is_dying};
ghost use Rattle.space_model.specs.Sound.{is_in_flight};
ghost use Rattle.space_model.specs.Step.{is_like, is_live, low_piece, high_piece};

use crate::{Life, Part, Rest, Span, State};

impl Rest {
    /// The state of an extent that is listed here.
    pub fn state(self) -> State
        ensures { result ≡ listed self }
    {
        match self {
            Rest::Dirty => State::Dirty,
            Rest::Muzzy => State::Muzzy,
            Rest::Retained => State::Retained,
        }
    }
}

impl State {
    /// Whether an extent in this state serves regions.
    pub fn is_active(self) -> bool
        ensures { result ≡ is_active self }
    {
        matches!(self, State::Active)
    }

    /// Whether the client has an extent in this state out of its list.
    pub fn is_flight_of(self, client: u32) -> bool
        ensures { result ≡ is_flight client self }
    {
        matches!(self, State::Flight(owner, _) if owner == client)
    }

    /// Whether some client has an extent in this state out of its list.
    pub fn is_in_flight(self) -> bool
        ensures { result ≡ is_in_flight self }
    {
        matches!(self, State::Flight(..))
    }

    /// Whether an extent in this state is in one of the three lists.
    pub fn is_unused(self) -> bool
        ensures { result ≡ is_unused self }
    {
        !self.is_active() && !self.is_in_flight()
    }

    /// Where an extent in this state belongs when it is put down.
    pub fn rest(self) -> Rest
        ensures { result ≡ rest_of self }
    {
        match self {
            State::Active | State::Dirty => Rest::Dirty,
            State::Muzzy => Rest::Muzzy,
            State::Retained => Rest::Retained,
            State::Flight(_, rest) => rest,
        }
    }

    /// Whether an extent in this state is listed there.
    pub fn is_listed(self, rest: Rest) -> bool
        ensures { result ≡ is_listed rest self }
    {
        self == rest.state()
    }
}

impl Part {
    /// Whether another extent is listed where this one belongs, and is committed where this one is.
    pub fn is_like(&self, other: &Part) -> bool
        ensures { result ≡ is_like self.now other.now }
    {
        other.state.is_listed(self.state.rest()) && other.committed == self.committed
    }

    /// Its first pages, `left` of them.
    pub fn low_piece(self, left: u64) -> Part
        ensures { result ≡ low_piece left self }
    {
        let span = Span {
            first: self.span.first,
            pages: left,
        };
        Part { span, ..self }
    }

    /// Its pages but for the first `left` ones.
    pub fn high_piece(self, left: u64) -> Part
        requires cut { left ≤ self.span.pages }
        requires fits { self.span.first + self.span.pages < 2 ^ 64 }
        ensures { result ≡ high_piece left self }
    {
        let span = Span {
            first: self.span.first + left,
            pages: self.span.pages - left,
        };
        Part { span, ..self }
    }
}

impl Life {
    /// Whether an arena in this state serves requests.
    pub fn is_live(self) -> bool
        ensures { result ≡ is_live self }
    {
        matches!(self, Life::Live)
    }

    /// Whether the client is destroying the arena.
    pub fn is_dying(self, client: u32) -> bool
        ensures { result ≡ is_dying client self }
    {
        matches!(self, Life::Dying(by) if by == client)
    }
}
