//! The extents of one arena, found by page, by size and by age. Of its calls only `new` and
//! `reserve` take memory.
#![tactic(auto)]

ghost use Rattle.std.specs.Prelude.{◌≡◌, ◌==◌, ◌&&◌, ◌<◌, ◌+◌, false, [], ◌∷◌, ◌++◌, cond, length, max, nat_le, find, count_by, option_copied, option_map, slice_get, All, IfSome, IsNone, IsSome, OnOk, OnErr, IfOk, Some};
ghost use Rattle.std.specs.List.{list_any};
ghost use Rattle.space_model.specs.Span.{IsPlaced, has_page, meets};
ghost use Rattle.space_model.specs.Part.{begins_at, exchanged, is_flight, is_flight_at, is_in_flight, is_listed, is_unused, put_down};
ghost use Rattle.space_model.specs.Resizing.{is_spare};
ghost use Rattle.space_model.specs.Step.{begins_either, high_piece, is_left_of, is_like, is_right_of, low_piece, neighbour};
ghost use Rattle.space_model.specs.Fit.{fit};
ghost use Rattle.space_model.specs.Stepped.{joined};
ghost use Rattle.part_book.specs.Books.{AreBeside, CanCut, IsFirstFrom, IsThere, active_pages, all_pages, found_if, is_beside, pages_of};

use crate::table::Table;
use space_model::{Part, Rest, Span, State};
use std::alloc::{AllocError as NoMemory, Global};
use std::marker::Model;

mod by_page;
mod changes;
mod finds;
mod rows;
mod table;

/// The extents of an arena, in the order in which each took its present span, state and commit
/// state.
///
/// An extent that a call is given must be there: the one that begins where it does. What is changed at a page by `set_state`, `cut`, `shed`,
/// `join` and `drop_part` is changed at the extent that begins there. Each look-up searches a few ordered sets or reads a page's
/// entry in a table, and scans no list of extents; only `next_flight` goes through those in flight,
/// which are few. [`PartBook::reserve`] makes room for a number of further extents, whatever their
/// pages and states. An extent lies in the pages of the space, and no page is in two.
#[derive(Drop)]
pub struct PartBook {
    table: Table,
    spare: u64,
}

impl Model for PartBook {
    ghost use Rattle.part_book.specs.Books.{Book};

    ghost Value = { Book };

    ghost use Rattle.part_book.specs.Shown.{shown, IsPartBook};

    ghost view = { shown };

    ghost invariant = { IsPartBook };
}

impl PartBook {
    /// A book without extents, with no place for one.
    pub fn new(alloc: Global) -> Result<PartBook, NoMemory>
        ensures { IfOk result (λ book. book ≡ record { parts = []; spare = 0 }) }
    {
        Ok(PartBook {
            table: Table::new(alloc)?,
            spare: 0,
        })
    }

    /// Makes places for at least `more` further extents. A refusal changes nothing.
    pub fn reserve(&mut self, more: u64) -> Result<(), NoMemory>
        ensures parts { self.new.parts ≡ self.old.parts }
        ensures ok { OnOk result (self.new.spare ≡ max self.old.spare more) }
        ensures err { OnErr result (self.new ≡ self.old) }
    {
        if more <= self.spare {
            return Ok(());
        }
        self.table.reserve(more)?;
        self.spare = more;
        Ok(())
    }

    /// How many more extents there is a place for.
    pub fn spare(&self) -> u64
        ensures { result ≡ self.now.spare }
    {
        self.spare
    }

    /// How many extents there are.
    pub fn len(&self) -> u64
        ensures { result ≡ length self.now.parts }
    {
        self.table.order.len()
    }

    /// Whether there is no extent.
    pub fn is_empty(&self) -> bool
        ensures { result ≡ (length self.now.parts == 0) }
    {
        self.len() == 0
    }

    /// The extent that begins at a page.
    pub fn look(&self, first: u64) -> Option<&Part>
        ensures { option_copied result ≡ find (begins_at first) self.now.parts }
    {
        self.table.look(first)
    }

    /// The extent that begins at a page, where one does.
    #[tactic(auto, using(crate::proofs::Searches::found_there, crate::proofs::Searches::found_first))]
    pub fn at(&self, first: u64) -> Part
        requires { IsSome (find (begins_at first) self.now.parts) }
        ensures at { find (begins_at first) self.now.parts ≡ Some result }
        ensures first { result.span.first ≡ first }
        ensures there { IsThere self.now.parts result }
    {
        self.table.look(first).copied().unwrap()
    }

    /// The unused extent that begins at a page, if it has so many pages.
    #[tactic(auto, using(crate::proofs::Searches::spare_inside, crate::proofs::Searches::found_inside))]
    pub fn spare_at(&self, page: u64, pages: u64) -> Option<Part>
        ensures spare { result ≡ find (is_spare page pages) self.now.parts }
        ensures there { IfSome result (IsThere self.now.parts) }
    {
        spare_of(pages, self.table.look(page))
    }

    /// The client's extent in flight with just this span.
    #[tactic(auto, using(crate::proofs::Searches::flight_inside, crate::proofs::Searches::found_inside))]
    pub fn flight(&self, client: u32, span: Span) -> Option<Part>
        ensures flight { result ≡ find (is_flight_at client span) self.now.parts }
        ensures there { IfSome result (IsThere self.now.parts) }
    {
        flight_of(client, span.pages, self.table.look(span.first))
    }

    /// The extent that has a page.
    #[tactic(auto, using(crate::proofs::Searches::found_inside))]
    pub fn holding(&self, page: u64) -> Option<Part>
        ensures holds { result ≡ find (λ p. has_page page p.span) self.now.parts }
        ensures there { IfSome result (IsThere self.now.parts) }
    {
        self.table.holding(page).copied()
    }

    /// The first extent that begins at a page or behind it: from extent to extent it walks through the book by address.
    #[tactic(auto, using(crate::proofs::Searches::from_inside))]
    pub fn first_from(&self, page: u64) -> Option<Part>
        ensures none { IsNone result → All (λ p. p.span.first < page) self.now.parts }
        ensures first { IfSome result (IsFirstFrom page self.now.parts) }
        ensures there { IfSome result (IsThere self.now.parts) }
    {
        self.table.first_from(page)
    }

    /// Whether some extent shares a page with a span.
    pub fn meets(&self, span: Span) -> bool
        ensures { result ≡ list_any (λ p. meets p.span span) self.now.parts }
    {
        self.table.meets(span)
    }

    /// The extent right after a span, or the one right before it.
    pub fn neighbour(&self, span: Span, right: bool) -> Option<&Part>
        ensures { option_copied result ≡ find (is_beside span right) self.now.parts }
    {
        self.table.beside(span, right)
    }

    /// The right neighbour that a merge may join to an extent.
    fn right_of(&self, part: &Part) -> Option<Part>
        ensures right { result ≡ find (is_right_of part.now) self.now.parts }
        ensures there { IfSome result (IsThere self.now.parts) }
    {
        like(part, self.table.beside(part.span, true))
    }

    /// The left neighbour that a merge may join to an extent.
    fn left_of(&self, part: &Part) -> Option<Part>
        ensures left { result ≡ find (is_left_of part.now) self.now.parts }
        ensures there { IfSome result (IsThere self.now.parts) }
    {
        like(part, self.table.beside(part.span, false))
    }

    /// The neighbour that a merge may join to an extent: the right one at the first try, and the
    /// left one at the first two.
    pub fn mergeable(&self, tries: u8, part: &Part) -> Option<Part>
        ensures mergeable { result ≡ neighbour tries part.now self.now.parts }
        ensures there { IfSome result (IsThere self.now.parts) }
    {
        if tries == 0
            && let Some(right) = self.right_of(part)
        {
            return Some(right);
        }
        if tries < 2 { self.left_of(part) } else { None }
    }

    /// The extent that serves a request for so many pages from a multiple of `align` on: the
    /// smallest dirty one that holds the run, the lowest among equally small ones; where no dirty
    /// one does, likewise of the muzzy ones, then of the retained ones.
    #[tactic(auto, using(crate::proofs::Searches::fit_inside))]
    pub fn fit(&self, pages: u64, align: u64) -> Option<Part>
        requires some { 0 < pages }
        requires aligned { 0 < align }
        ensures fit { result ≡ fit pages align self.now.parts }
        ensures there { IfSome result (IsThere self.now.parts) }
    {
        self.table.fit(pages, align)
    }

    /// The oldest extent that is listed for a rest.
    #[tactic(auto, using(crate::proofs::Searches::found_inside))]
    pub fn oldest(&self, rest: Rest) -> Option<Part>
        ensures oldest { result ≡ find (λ p. is_listed rest p.state) self.now.parts }
        ensures there { IfSome result (IsThere self.now.parts) }
    {
        self.table.oldest(rest)
    }

    /// The oldest extent of all.
    #[tactic(auto, using(crate::proofs::Searches::first_inside))]
    pub fn first(&self) -> Option<Part>
        ensures first { result ≡ slice_get self.now.parts 0 }
        ensures there { IfSome result (IsThere self.now.parts) }
    {
        self.table.first()
    }

    /// How many extents are listed for a rest.
    pub fn count(&self, rest: Rest) -> u64
        ensures { result ≡ count_by (λ p. is_listed rest p.state) self.now.parts }
    {
        self.table.count(rest)
    }

    /// How many pages the extents listed for a rest have together.
    pub fn pages(&self, rest: Rest) -> u64
        ensures { result ≡ pages_of rest self.now.parts }
    {
        self.table.pages(rest)
    }

    /// The pages of all extents.
    #[tactic(auto, using(crate::proofs::Rowed::all_sum))]
    pub fn all_pages(&self) -> u64
        ensures { result ≡ all_pages self.now.parts }
    {
        self.table.sums.all
    }

    /// The pages of the extents that serve regions.
    #[tactic(auto, using(crate::proofs::Rowed::active_sum))]
    pub fn active_pages(&self) -> u64
        ensures { result ≡ active_pages self.now.parts }
    {
        self.table.sums.active
    }

    /// How many extents are in flight.
    pub fn count_flights(&self) -> u64
        ensures { result ≡ count_by (λ p. is_in_flight p.state) self.now.parts }
    {
        self.table.count_flights()
    }

    /// The span of the first extent that the client has in flight.
    pub fn next_flight(&self, client: u32) -> Option<Span>
        ensures { result
            ≡ option_map (λ p. p.span) (find (λ p. is_flight client p.state) self.now.parts) }
    {
        self.table.next_flight(client)
    }

    /// Puts a new extent at the end. It takes a place.
    pub fn add(&mut self, part: Part)
        requires room { 0 < self.old.spare }
        requires placed { IsPlaced part.span }
        requires apart { list_any (λ p. meets p.span part.span) self.old.parts ≡ false }
        ensures parts { self.new.parts ≡ self.old.parts ++ part ∷ [] }
        ensures spare { self.new.spare + 1 ≡ self.old.spare }
    {
        self.table.put_on(part);
        self.spare -= 1;
    }

    /// Takes an extent out. Its place counts again after the next `reserve`.
    pub fn take_off(&mut self, part: &Part)
        requires { IsThere self.old.parts part.now }
        ensures parts { self.new.parts ≡ exchanged (begins_at part.now.span.first) self.old.parts [] }
        ensures spare { self.new.spare ≡ self.old.spare }
    {
        self.table.take_off(part);
    }

    /// Gives an extent a state and a commit state. It comes last.
    #[inline(always)]
    pub fn change(&mut self, part: &Part, state: State, committed: bool)
        requires { IsThere self.old.parts part.now }
        ensures parts { self.new.parts ≡ exchanged (begins_at part.now.span.first) self.old.parts
            (record part.now { state = state; committed = committed } ∷ []) }
        ensures spare { self.new.spare ≡ self.old.spare }
    {
        let number = self.table.number_of(part);
        let changed = Part {
            state,
            committed,
            ..*part
        };
        self.table.exchange(number, *part, changed);
    }

    /// Cuts an extent in two, each in a state of its own, of which the higher one comes last, behind the lower one. It takes
    /// a place.
    fn halve(&mut self, part: &Part, left: u64, low: State, high: State)
        requires { CanCut self.old part.now left }
        ensures parts { self.new.parts ≡ exchanged (begins_at part.now.span.first) self.old.parts
            (record (low_piece left part.now) { state = low } ∷ record (high_piece left part.now) { state = high } ∷ []) }
        ensures spare { self.new.spare + 1 ≡ self.old.spare }
    {
        let number = self.table.number_of(part);
        let low = Part {
            state: low,
            ..part.low_piece(left)
        };
        let high = Part {
            state: high,
            ..part.high_piece(left)
        };
        self.table.exchange(number, *part, low);
        self.table.put_on(high);
        self.spare -= 1;
    }

    /// Makes an extent of its own, in another state, of the pages behind the first `left`. The first pages come last, behind
    /// it. It takes a place.
    fn shed_high(&mut self, part: &Part, left: u64, state: State)
        requires { CanCut self.old part.now left }
        ensures parts { self.new.parts ≡ exchanged (begins_at part.now.span.first) self.old.parts
            (record (high_piece left part.now) { state = state } ∷ low_piece left part.now ∷ []) }
        ensures spare { self.new.spare + 1 ≡ self.old.spare }
    {
        let number = self.table.number_of(part);
        let low = part.low_piece(left);
        let high = Part {
            state,
            ..part.high_piece(left)
        };
        self.table.divide(number, *part, low, high);
        self.spare -= 1;
    }

    /// Makes two of an extent: its first `left` pages and the others. The piece that keeps its state comes last, behind the
    /// other one, which is put down. It takes a place.
    pub fn split(&mut self, part: &Part, left: u64, keep_low: bool)
        requires { CanCut self.old part.now left }
        ensures parts { self.new.parts ≡ exchanged (begins_at part.now.span.first) self.old.parts
            (cond keep_low (put_down (high_piece left part.now) ∷ low_piece left part.now ∷ [])
            (put_down (low_piece left part.now) ∷ high_piece left part.now ∷ [])) }
        ensures spare { self.new.spare + 1 ≡ self.old.spare }
    {
        let down = part.state.rest().state();
        if keep_low {
            self.shed_high(part, left, down);
        } else {
            self.halve(part, left, down, part.state);
        }
    }

    /// Cuts the pages behind the first `left` off an extent, as one of another state. It comes last, behind the first pages.
    /// It takes a place.
    pub fn cut_off(&mut self, part: &Part, left: u64, state: State)
        requires { CanCut self.old part.now left }
        ensures parts { self.new.parts ≡ exchanged (begins_at part.now.span.first) self.old.parts
            (low_piece left part.now ∷ record (high_piece left part.now) { state = state } ∷ []) }
        ensures spare { self.new.spare + 1 ≡ self.old.spare }
    {
        self.halve(part, left, part.state, state);
    }

    /// Makes one of two extents side by side, with the first one's state and commit state. It comes last. The place of the
    /// other one counts again after the next `reserve`.
    #[inline(always)]
    pub fn merge(&mut self, low: &Part, high: &Part)
        requires low { IsThere self.old.parts low.now }
        requires high { IsThere self.old.parts high.now }
        requires beside { AreBeside low.now high.now }
        ensures parts { self.new.parts
            ≡ exchanged (begins_either low.now high.now) self.old.parts (joined low.now high.now ∷ []) }
        ensures spare { self.new.spare ≡ self.old.spare }
    {
        self.table.take_off(high);
        let number = self.table.number_of(low);
        let first = low.span.first;
        let pages = low.span.pages + high.span.pages;
        let both = Part {
            span: Span { first, pages },
            ..*low
        };
        self.table.exchange(number, *low, both);
    }
}

/// What was found, where it is the client's extent in flight and has so many pages.
fn flight_of(client: u32, pages: u64, found: Option<&Part>) -> Option<Part>
    ensures { result ≡ found_if (λ p. is_flight client p.state && p.span.pages == pages) (option_copied found.entry) }
{
    let part = found?;
    if part.state.is_flight_of(client) && part.span.pages == pages {
        Some(*part)
    } else {
        None
    }
}

/// What was found, where it is unused and has so many pages.
fn spare_of(pages: u64, found: Option<&Part>) -> Option<Part>
    ensures { result ≡ found_if (λ p. is_unused p.state && nat_le pages p.span.pages) (option_copied found.entry) }
{
    let part = found?;
    if part.state.is_unused() && pages <= part.span.pages {
        Some(*part)
    } else {
        None
    }
}

/// What was found, where it is listed where an extent in flight belongs, and as committed.
fn like(part: &Part, found: Option<&Part>) -> Option<Part>
    ensures { result ≡ found_if (is_like part.now) (option_copied found.entry) }
{
    let other = found?;
    if part.is_like(other) {
        Some(*other)
    } else {
        None
    }
}
