//! The searches for an extent.
ghost use Rattle.std.specs.Prelude.{◌≡◌, ◌<◌, ◌≤◌, count_by, find, option_copied, option_map, slice_get, vec_len, All, IfSome, IsNone};
ghost use Rattle.std.specs.List.{list_any};
ghost use Rattle.space_model.specs.Span.{has_page, meets};
ghost use Rattle.space_model.specs.Part.{begins_at, is_flight, is_in_flight, is_listed};
ghost use Rattle.space_model.specs.Fit.{fit, fit_of};
ghost use Rattle.part_book.specs.Books.{IsFirstFrom, ends_at, is_beside, pages_of};
ghost use Rattle.part_book.specs.Rows.{IsLastBelow, is_edge, part_at};
ghost use Rattle.part_book.specs.Tables.{IsListOf, IsRowTable, parts_of, rows_of};

use crate::rows::{RADIX, end_of, holds_run, rank};
use crate::table::{AgeList, Table};
use ordered_set::Key;
use space_model::{Part, Rest, Span};

impl Table {
    /// The extent with a number.
    pub fn part_at(&self, number: u32) -> &Part
        requires { number < vec_len self.now.slots }
        ensures { result.now ≡ part_at self.now.slots.items number }
    {
        &self.slots[number as usize]
    }

    // The extent whose first or last page this is.
    fn at_edge(&self, page: u64) -> Option<&Part>
        requires table { IsRowTable self.now (rows_of self.now) }
        ensures { option_copied result ≡ find (is_edge page) (parts_of self.now) }
    {
        let number = self.edges.get(page)?;
        Some(self.part_at(number))
    }

    /// The extent that begins at a page.
    pub fn look(&self, first: u64) -> Option<&Part>
        requires table { IsRowTable self.now (rows_of self.now) }
        ensures { option_copied result ≡ find (begins_at first) (parts_of self.now) }
    {
        let part = self.at_edge(first)?;
        if part.span.first == first {
            Some(part)
        } else {
            None
        }
    }

    /// The extent that ends before a page.
    pub fn ending_at(&self, page: u64) -> Option<&Part>
        requires table { IsRowTable self.now (rows_of self.now) }
        ensures { option_copied result ≡ find (ends_at page) (parts_of self.now) }
    {
        let part = self.at_edge(page.checked_sub(1)?)?;
        if end_of(part.span) == page {
            Some(part)
        } else {
            None
        }
    }

    /// The extent right after a span, or the one right before it.
    pub fn beside(&self, span: Span, right: bool) -> Option<&Part>
        requires table { IsRowTable self.now (rows_of self.now) }
        ensures { option_copied result ≡ find (is_beside span right) (parts_of self.now) }
    {
        if right {
            self.look(span.first.checked_add(span.pages)?)
        } else {
            self.ending_at(span.first)
        }
    }

    // The last extent that begins below a page.
    fn last_below(&self, page: u64) -> Option<&Part>
        requires table { IsRowTable self.now (rows_of self.now) }
        ensures none { IsNone result → All (λ p. page ≤ p.span.first) (parts_of self.now) }
        ensures last { IfSome result (λ part. IsLastBelow page (parts_of self.now) part.now) }
    {
        let key = self.firsts.before(Key {
            major: page,
            minor: 0,
        })?;
        Some(self.part_at(key.minor as u32))
    }

    /// The first extent that begins at a page or behind it.
    pub fn first_from(&self, page: u64) -> Option<Part>
        requires table { IsRowTable self.now (rows_of self.now) }
        ensures none { IsNone result → All (λ p. p.span.first < page) (parts_of self.now) }
        ensures first { IfSome result (IsFirstFrom page (parts_of self.now)) }
    {
        let key = self.firsts.at_or_after(Key {
            major: page,
            minor: 0,
        })?;
        Some(*self.part_at(key.minor as u32))
    }

    /// The extent that has a page. Only a page within one is searched for.
    pub fn holding(&self, page: u64) -> Option<&Part>
        requires table { IsRowTable self.now (rows_of self.now) }
        ensures { option_copied result ≡ find (λ p. has_page page p.span) (parts_of self.now) }
    {
        if let Some(part) = self.at_edge(page) {
            return Some(part);
        }
        let part = self.last_below(page.saturating_add(1))?;
        if page < end_of(part.span) {
            Some(part)
        } else {
            None
        }
    }

    /// Whether some extent shares a page with a span.
    pub fn meets(&self, span: Span) -> bool
        requires table { IsRowTable self.now (rows_of self.now) }
        ensures { result ≡ list_any (λ p. meets p.span span) (parts_of self.now) }
    {
        match self.last_below(span.first.saturating_add(span.pages)) {
            Some(part) => span.first < end_of(part.span),
            None => false,
        }
    }

    // The list of a rest.
    fn list_of(&self, rest: Rest) -> &AgeList
        requires table { IsRowTable self.now (rows_of self.now) }
        ensures { IsListOf rest result.now (vec_len self.now.slots) (rows_of self.now) }
    {
        match rest {
            Rest::Dirty => &self.dirty,
            Rest::Muzzy => &self.muzzy,
            Rest::Retained => &self.retained,
        }
    }

    /// The smallest extent of a rest that holds such a run, the lowest among equally small ones.
    pub fn fit_of(&self, rest: Rest, pages: u64, align: u64) -> Option<Part>
        requires table { IsRowTable self.now (rows_of self.now) }
        requires some { 0 < pages }
        requires aligned { 0 < align }
        ensures { result ≡ fit_of rest pages align (parts_of self.now) }
    {
        if self.list_of(rest).pages < pages {
            return None;
        }
        let rank = rank(rest);
        let start = Key {
            major: rank * RADIX + pages,
            minor: 0,
        };
        let mut size = self.sizes.at_or_after(start)?;
        while size.major / RADIX == rank {
            if holds_run(size, pages, align) {
                return Some(*self.part_at((size.minor % RADIX) as u32));
            }
            size = self.sizes.after(size)?;
        }
        None
    }

    /// The extent that serves a request: the smallest dirty one that holds the run, the lowest among equally small ones;
    /// where no dirty one does, likewise of the muzzy ones, then of the retained ones.
    pub fn fit(&self, pages: u64, align: u64) -> Option<Part>
        requires table { IsRowTable self.now (rows_of self.now) }
        requires some { 0 < pages }
        requires aligned { 0 < align }
        ensures { result ≡ fit pages align (parts_of self.now) }
    {
        if let Some(part) = self.fit_of(Rest::Dirty, pages, align) {
            return Some(part);
        }
        if let Some(part) = self.fit_of(Rest::Muzzy, pages, align) {
            return Some(part);
        }
        self.fit_of(Rest::Retained, pages, align)
    }

    /// The oldest extent of a rest.
    pub fn oldest(&self, rest: Rest) -> Option<Part>
        requires table { IsRowTable self.now (rows_of self.now) }
        ensures { result ≡ find (λ p. is_listed rest p.state) (parts_of self.now) }
    {
        let number = self.list_of(rest).ages.first()?;
        Some(*self.part_at(number))
    }

    /// The oldest extent of all.
    pub fn first(&self) -> Option<Part>
        requires table { IsRowTable self.now (rows_of self.now) }
        ensures { result ≡ slice_get (parts_of self.now) 0 }
    {
        let number = self.order.first()?;
        Some(*self.part_at(number))
    }

    /// How many extents there are of a rest.
    pub fn count(&self, rest: Rest) -> u64
        requires table { IsRowTable self.now (rows_of self.now) }
        ensures { result ≡ count_by (λ p. is_listed rest p.state) (parts_of self.now) }
    {
        self.list_of(rest).ages.len()
    }

    /// How many pages the extents of a rest have together.
    pub fn pages(&self, rest: Rest) -> u64
        requires table { IsRowTable self.now (rows_of self.now) }
        ensures { result ≡ pages_of rest (parts_of self.now) }
    {
        self.list_of(rest).pages
    }

    /// How many extents are in flight.
    pub fn count_flights(&self) -> u64
        requires table { IsRowTable self.now (rows_of self.now) }
        ensures { result ≡ count_by (λ p. is_in_flight p.state) (parts_of self.now) }
    {
        self.flights.len() as u64
    }

    /// The span of the first extent that the client has in flight.
    pub fn next_flight(&self, client: u32) -> Option<Span>
        requires table { IsRowTable self.now (rows_of self.now) }
        ensures { result ≡ option_map (λ p. p.span) (find (λ p. is_flight client p.state) (parts_of self.now)) }
    {
        for number in &self.flights {
            let part = self.part_at(*number);
            if part.state.is_flight_of(client) {
                return Some(part.span);
            }
        }
        None
    }
}
