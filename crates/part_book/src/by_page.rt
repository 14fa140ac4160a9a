//! Changes of the extent that begins at a page.

ghost use Rattle.std.specs.Prelude.{◌≡◌, ◌<◌, ◌+◌, ◌||◌, [], ◌∷◌, not, find, filter, IfSome, IsSome};
ghost use Rattle.space_model.specs.Part.{begins_at, exchanged};
ghost use Rattle.space_model.specs.Step.{high_piece, low_piece};
ghost use Rattle.space_model.specs.Stepped.{joined};
ghost use Rattle.part_book.specs.Books.{AreBeside};

use crate::PartBook;
use space_model::State;

impl PartBook {
    /// Takes the extent that begins at a page out. Its place counts again after the next
    /// `reserve`.
    pub fn drop_part(&mut self, first: u64)
        requires begins { IsSome (find (begins_at first) self.old.parts) }
        ensures parts { self.new.parts ≡ filter (λ p. not (begins_at first p)) self.old.parts }
        ensures spare { self.new.spare ≡ self.old.spare }
    {
        let part = self.at(first);
        self.take_off(&part);
    }

    /// Gives the extent that begins at a page a state and a commit state. It comes last.
    pub fn set_state(&mut self, first: u64, state: State, committed: bool)
        requires begins { IsSome (find (begins_at first) self.old.parts) }
        ensures parts { IfSome (find (begins_at first) self.old.parts) (λ p. self.new.parts
            ≡ exchanged (begins_at first) self.old.parts (record p { state = state; committed = committed } ∷ [])) }
        ensures spare { self.new.spare ≡ self.old.spare }
    {
        let part = self.at(first);
        self.change(&part, state, committed);
    }

    /// Makes two of the extent that begins at a page: its first `left` pages and the others, each in a
    /// state of its own. Both have its commit state and come last, the low one first. It takes a place.
    pub fn cut(&mut self, first: u64, left: u64, low: State, high: State)
        requires room { 0 < self.old.spare }
        requires begins { IsSome (find (begins_at first) self.old.parts) }
        requires some { 0 < left }
        requires fewer { IfSome (find (begins_at first) self.old.parts) (λ p. left < p.span.pages) }
        ensures parts { IfSome (find (begins_at first) self.old.parts) (λ p. self.new.parts
            ≡ exchanged (begins_at first) self.old.parts
            (record (low_piece left p) { state = low } ∷ record (high_piece left p) { state = high } ∷ [])) }
        ensures spare { self.new.spare + 1 ≡ self.old.spare }
    {
        let part = self.at(first);
        self.halve(&part, left, low, high);
    }

    /// Makes an extent of its own, in a state of its own, of the pages behind the first `left` of the extent that begins at a
    /// page. Both have its commit state and come last, the new one first. It takes a place.
    pub fn shed(&mut self, first: u64, left: u64, state: State)
        requires room { 0 < self.old.spare }
        requires begins { IsSome (find (begins_at first) self.old.parts) }
        requires some { 0 < left }
        requires fewer { IfSome (find (begins_at first) self.old.parts) (λ p. left < p.span.pages) }
        ensures parts { IfSome (find (begins_at first) self.old.parts) (λ p. self.new.parts
            ≡ exchanged (begins_at first) self.old.parts (record (high_piece left p) { state = state } ∷ low_piece left p ∷ [])) }
        ensures spare { self.new.spare + 1 ≡ self.old.spare }
    {
        let part = self.at(first);
        self.shed_high(&part, left, state);
    }

    /// Makes one of the two extents that begin at these pages, of which the second begins where
    /// the first one ends. It keeps the first one's state and commit state, and comes last. The
    /// place of the other one counts again after the next `reserve`.
    pub fn join(&mut self, low: u64, high: u64)
        requires low { IsSome (find (begins_at low) self.old.parts) }
        requires high { IsSome (find (begins_at high) self.old.parts) }
        requires beside { IfSome (find (begins_at low) self.old.parts) (λ p.
            IfSome (find (begins_at high) self.old.parts) (λ q. AreBeside p q)) }
        ensures parts { IfSome (find (begins_at low) self.old.parts) (λ p.
            IfSome (find (begins_at high) self.old.parts) (λ q. self.new.parts
            ≡ exchanged (λ r. begins_at low r || begins_at high r) self.old.parts (joined p q ∷ []))) }
        ensures spare { self.new.spare ≡ self.old.spare }
    {
        let first = self.at(low);
        let second = self.at(high);
        self.merge(&first, &second);
    }
}
