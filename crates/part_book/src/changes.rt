//! An extent is taken off all indexes, put on all of them, or changed where it stands.
ghost use Rattle.std.specs.Prelude.{◌≡◌, ◌≢◌, ◌==◌, ℕ, ◌+◌, ◌-◌, ◌/◌, ◌^◌, ◌<◌, ◌≤◌, true, false, [], ◌∷◌, ◌++◌, not, cond, count_by, length, filter, All, Contains, IsSome, IsTrue, IfSome, Some, is_some, vec_len, vec_capacity};
ghost use Rattle.std.specs.FinMap as map_of;
ghost use Rattle.std.specs.FinSet as set;
ghost use Rattle.space_model.specs.Span.{IsPlaced, end_of, meets};
ghost use Rattle.space_model.specs.Part.{begins_at, exchanged, is_active, is_listed};
ghost use Rattle.space_model.specs.Sound.{is_in_flight};
ghost use Rattle.part_book.specs.Books.{IsThere};
ghost use Rattle.part_book.specs.Leaves.{HasLeaves, HasMore, leaves_for};
ghost use Rattle.part_book.specs.Lists.{CanList, CanUnlist, GainsPages, GainsRow, LosesRow};
ghost use Rattle.part_book.specs.Rows.{ArePieces, Own, keys_with, keys_without, with_edges, without_edges};
ghost use Rattle.part_book.specs.Tables.{CanEnter, CanLower, GainsLists, HasListRoom, HasRoomFor, IsRowTable, KeepsExtents, KeepsOthers, LosesLists, lists_of, parts_of, rows_of};

use crate::rows::{end_of, first_key, size_key};
use crate::table::{AgeList, PageSums, Table};
use ordered_set::{Key, OrderedSet};
use page_map::PageMap;
use space_model::{Part, Rest, Span, State};

impl Table {
    /// The number of an extent.
    pub fn number_of(&self, part: &Part) -> u32
        requires table { IsRowTable self.now (rows_of self.now) }
        requires there { IsThere (parts_of self.now) part.now }
        ensures row { Contains (rows_of self.now) (record { number = result; part = part.now }) }
        ensures placed { IsPlaced part.now.span }
        ensures apart { All (λ p. meets p.span part.now.span ≡ false) (filter (λ p. not (begins_at part.now.span.first p)) (parts_of self.now)) }
        ensures leaves { leaves_for self.now.edges part.now.span ≡ 0 }
    {
        self.edges.get(part.span.first).unwrap()
    }

    /// Takes an extent off.
    pub fn take_off(&mut self, part: &Part)
        requires table { IsRowTable self.old (rows_of self.old) }
        requires there { IsThere (parts_of self.old) part.now }
        ensures kept { KeepsExtents self.new (filter (λ p. not (begins_at part.now.span.first p)) (parts_of self.old)) }
        ensures placed { IsPlaced part.now.span }
        ensures apart { All (λ p. meets p.span part.now.span ≡ false) (parts_of self.new) }
        ensures room { (n : ℕ) → HasRoomFor self.old n → HasRoomFor self.new (n + 1) }
        ensures chunks { self.new.edges.chunks ≡ self.old.edges.chunks }
        ensures spare { self.new.edges.spare ≡ self.old.edges.spare }
        ensures leaves { leaves_for self.new.edges part.now.span ≡ 0 }
    {
        let number = self.number_of(part);
        self.lift(number, part);
        clear_edges(&mut self.edges, part.span);
        self.firsts.remove(first_key(number, part.span));
        self.free.push(number).unwrap();
    }

    /// Puts a new extent on, behind all others.
    #[inline(always)]
    pub fn put_on(&mut self, part: Part)
        requires table { IsRowTable self.old (rows_of self.old) }
        requires placed { IsPlaced part.span }
        requires apart { All (λ p. meets p.span part.span ≡ false) (parts_of self.old) }
        requires room { HasRoomFor self.old 1 }
        requires leaves { HasLeaves self.old.edges (leaves_for self.old.edges part.span) }
        ensures kept { KeepsExtents self.new (parts_of self.old ++ part ∷ []) }
        ensures room { (n : ℕ) → HasRoomFor self.old (n + 1) → HasRoomFor self.new n }
        ensures leaves { (n : ℕ) → HasLeaves self.old.edges (n + leaves_for self.old.edges part.span)
            → HasLeaves self.new.edges n }
        ensures chunks { (chunk : ℕ) → set.contains self.old.edges.chunks chunk ≡ true
            → set.contains self.new.edges.chunks chunk ≡ true }
    {
        let number = self.free.pop().unwrap();
        self.slots[number as usize] = part;
        set_edges(&mut self.edges, part.span, number);
        self.firsts.insert(first_key(number, part.span));
        self.lower(number, &part);
    }

    /// Makes another one of an extent, behind all others, which begins at the same page.
    #[inline(always)]
    pub fn exchange(&mut self, number: u32, part: Part, other: Part)
        requires table { IsRowTable self.old (rows_of self.old) }
        requires there { Contains (rows_of self.old) (record { number = number; part = part }) }
        requires first { other.span.first ≡ part.span.first }
        requires placed { IsPlaced other.span }
        requires room { HasListRoom self.old 0 }
        requires apart { All (λ p. meets p.span other.span ≡ false) (filter (λ p. not (begins_at part.span.first p)) (parts_of self.old)) }
        requires leaves { HasLeaves self.old.edges (leaves_for self.old.edges other.span) }
        ensures kept { KeepsExtents self.new (exchanged (begins_at part.span.first) (parts_of self.old) (other ∷ [])) }
        ensures room { (n : ℕ) → HasRoomFor self.old n → HasRoomFor self.new n }
        ensures leaves { (n : ℕ) → HasLeaves self.old.edges (n + leaves_for self.old.edges other.span)
            → HasLeaves self.new.edges n }
        ensures chunks { (chunk : ℕ) → set.contains self.old.edges.chunks chunk ≡ true
            → set.contains self.new.edges.chunks chunk ≡ true }
    {
        self.leave(number, &part);
        self.slots[number as usize] = other;
        move_edges(&mut self.edges, part.span, other.span, number);
        self.enter(number, &other);
        self.order.renew(number);
    }

    /// Makes two of an extent, behind all others: a high one, and behind that a low one, which begins at the same page.
    pub fn divide(&mut self, number: u32, part: Part, low: Part, high: Part)
        requires table { IsRowTable self.old (rows_of self.old) }
        requires there { Contains (rows_of self.old) (record { number = number; part = part }) }
        requires pieces { ArePieces part low high }
        requires apart { All (λ p. meets p.span part.span ≡ false) (filter (λ p. not (begins_at part.span.first p)) (parts_of self.old)) }
        requires room { HasRoomFor self.old 1 }
        requires leaves { HasLeaves self.old.edges 2 }
        ensures kept { KeepsExtents self.new (exchanged (begins_at part.span.first) (parts_of self.old) (high ∷ low ∷ [])) }
        ensures room { (n : ℕ) → HasRoomFor self.old (n + 1) → HasRoomFor self.new n }
        ensures leaves { (n : ℕ) → HasLeaves self.old.edges (n + 2) → HasLeaves self.new.edges n }
    {
        self.lift(number, &part);
        let other = self.free.pop().unwrap();
        self.slots[other as usize] = high;
        self.slots[number as usize] = low;
        move_edges(&mut self.edges, part.span, low.span, number);
        set_edges(&mut self.edges, high.span, other);
        self.firsts.insert(first_key(other, high.span));
        self.lower(other, &high);
        self.lower(number, &low);
    }

    // Takes an extent off the order and off what its state puts it on.
    #[inline(always)]
    fn lift(&mut self, number: u32, part: &Part)
        requires table { IsRowTable self.old (rows_of self.old) }
        requires there { Contains (rows_of self.old) (record { number = number; part = part.now }) }
        ensures order { self.new.order.numbers ≡ filter (λ n. not (n == number)) self.old.order.numbers }
        ensures places { self.new.order.places ≡ self.old.order.places }
        ensures lists { LosesLists (lists_of self.old) (lists_of self.new) (record { number = number; part = part.now }) }
        ensures others { KeepsOthers self.old self.new }
        ensures room { (n : ℕ) → HasListRoom self.old n → HasListRoom self.new (n + 1) }
    {
        self.leave(number, part);
        self.order.remove(number);
    }

    // Takes an extent off what its state puts it on.
    fn leave(&mut self, number: u32, part: &Part)
        requires table { IsRowTable self.old (rows_of self.old) }
        requires there { Contains (rows_of self.old) (record { number = number; part = part.now }) }
        ensures lists { LosesLists (lists_of self.old) (lists_of self.new) (record { number = number; part = part.now }) }
        ensures others { KeepsOthers self.old self.new }
        ensures order { self.new.order ≡ self.old.order }
        ensures room { (n : ℕ) → HasListRoom self.old n → HasListRoom self.new n }
    {
        self.sums.lose(part);
        unlist(
            &mut self.dirty,
            &mut self.muzzy,
            &mut self.retained,
            &mut self.flights,
            number,
            part,
        );
        drop_key(&mut self.sizes, size_key(number, part));
    }

    // Puts an extent last in the order, and on what its state puts it on.
    #[inline(always)]
    fn lower(&mut self, number: u32, part: &Part)
        requires { CanLower self.old (record { number = number; part = part.now }) }
        ensures order { self.new.order.numbers ≡ self.old.order.numbers ++ number ∷ [] }
        ensures places { self.new.order.places ≡ self.old.order.places }
        ensures lists { GainsLists (lists_of self.old) (lists_of self.new) (record { number = number; part = part.now }) }
        ensures others { KeepsOthers self.old self.new }
        ensures room { (n : ℕ) → HasListRoom self.old (n + 1) → HasListRoom self.new n }
    {
        self.enter(number, part);
        self.order.push(number);
    }

    // Puts an extent on what its state puts it on.
    fn enter(&mut self, number: u32, part: &Part)
        requires { CanEnter self.old (record { number = number; part = part.now }) }
        ensures lists { GainsLists (lists_of self.old) (lists_of self.new) (record { number = number; part = part.now }) }
        ensures others { KeepsOthers self.old self.new }
        ensures order { self.new.order ≡ self.old.order }
        ensures room { (n : ℕ) → HasListRoom self.old n → HasListRoom self.new n }
    {
        self.sums.gain(part);
        list(
            &mut self.dirty,
            &mut self.muzzy,
            &mut self.retained,
            &mut self.flights,
            number,
            part,
        );
        put_key(&mut self.sizes, size_key(number, part));
    }
}

impl AgeList {
    // Puts an extent of so many pages behind the others.
    fn push(&mut self, number: u32, pages: u64)
        requires place { number < self.old.ages.places }
        requires new_number { All (λ n. n ≢ number) self.old.ages.numbers }
        requires fits { self.old.pages + pages < 2 ^ 64 }
        ensures numbers { self.new.ages.numbers ≡ self.old.ages.numbers ++ number ∷ [] }
        ensures pages { self.new.pages ≡ self.old.pages + pages }
        ensures places { self.new.ages.places ≡ self.old.ages.places }
    {
        self.ages.push(number);
        self.pages += pages;
    }

    // Takes an extent of so many pages out.
    fn remove(&mut self, number: u32, pages: u64)
        requires there { Contains self.old.ages.numbers number }
        requires within { pages ≤ self.old.pages }
        ensures numbers { self.new.ages.numbers ≡ filter (λ n. not (n == number)) self.old.ages.numbers }
        ensures pages { self.new.pages + pages ≡ self.old.pages }
        ensures places { self.new.ages.places ≡ self.old.ages.places }
    {
        self.ages.remove(number);
        self.pages -= pages;
    }
}

impl PageSums {
    // An extent comes.
    fn gain(&mut self, part: &Part)
        requires within { self.old.active ≤ self.old.all }
        requires fits { self.old.all + part.now.span.pages < 2 ^ 64 }
        ensures { GainsPages self.old self.new part.now }
    {
        self.all += part.span.pages;
        if part.state.is_active() {
            self.active += part.span.pages;
        }
    }

    // An extent goes.
    fn lose(&mut self, part: &Part)
        requires all { part.now.span.pages ≤ self.old.all }
        requires active { IsTrue (is_active part.now.state) → part.now.span.pages ≤ self.old.active }
        ensures { GainsPages self.new self.old part.now }
    {
        self.all -= part.span.pages;
        if part.state.is_active() {
            self.active -= part.span.pages;
        }
    }
}

// Gives the first and the last page of a span a number.
fn set_edges(edges: &mut PageMap, span: Span, number: u32)
    requires placed { IsPlaced span }
    requires leaves { HasLeaves edges.old (leaves_for edges.old span) }
    ensures numbers { edges.new.numbers ≡ with_edges edges.old.numbers span number }
    ensures chunks { HasMore edges.old.chunks edges.new.chunks span }
    ensures leaves { (n : ℕ) → HasLeaves edges.old (n + leaves_for edges.old span) → HasLeaves edges.new n }
{
    edges.set(span.first, number);
    edges.set(end_of(span) - 1, number);
}

// Takes the numbers of the first and the last page of a span away.
fn clear_edges(edges: &mut PageMap, span: Span)
    requires placed { IsPlaced span }
    ensures { edges.new ≡ record edges.old { numbers = without_edges edges.old.numbers span } }
{
    edges.clear(span.first);
    edges.clear(end_of(span) - 1);
}

// Takes the number of a span to another one that begins at the same page, which keeps it.
fn move_edges(edges: &mut PageMap, from: Span, to: Span, number: u32)
    requires from { IsPlaced from }
    requires to { IsPlaced to }
    requires first { to.first ≡ from.first }
    requires own { Own edges.old from number }
    requires leaves { HasLeaves edges.old (leaves_for edges.old to) }
    ensures numbers { (page : ℕ) → map_of.get edges.new.numbers page
        ≡ map_of.get (with_edges (without_edges edges.old.numbers from) to number) page }
    ensures chunks { HasMore edges.old.chunks edges.new.chunks to }
    ensures leaves { (n : ℕ) → HasLeaves edges.old (n + leaves_for edges.old to) → HasLeaves edges.new n }
{
    if to.pages != from.pages {
        edges.set(end_of(to) - 1, number);
        if from.pages > 1 {
            edges.clear(end_of(from) - 1);
        }
    }
}

// Puts an extent on the list of its state, or behind those in flight, if it belongs there.
fn list(
    dirty: &mut AgeList,
    muzzy: &mut AgeList,
    retained: &mut AgeList,
    flights: &mut Vec<u32>,
    number: u32,
    part: &Part,
)
    requires dirty { CanList dirty.old (record { number = number; part = part.now }) }
    requires muzzy { CanList muzzy.old (record { number = number; part = part.now }) }
    requires retained { CanList retained.old (record { number = number; part = part.now }) }
    requires flights { vec_len flights.old < vec_capacity flights.old }
    ensures dirty { GainsRow Rest.Dirty dirty.old dirty.new (record { number = number; part = part.now }) }
    ensures muzzy { GainsRow Rest.Muzzy muzzy.old muzzy.new (record { number = number; part = part.now }) }
    ensures retained { GainsRow Rest.Retained retained.old retained.new (record { number = number; part = part.now }) }
    ensures flights { flights.new.items ≡ flights.old.items ++ cond (is_in_flight part.now.state) (number ∷ []) [] }
    ensures room { vec_capacity flights.old ≤ vec_capacity flights.new }
{
    match part.state {
        State::Active => {}
        State::Dirty => dirty.push(number, part.span.pages),
        State::Muzzy => muzzy.push(number, part.span.pages),
        State::Retained => retained.push(number, part.span.pages),
        State::Flight(_, _) => flights.push(number).unwrap(),
    }
}

// Takes an extent off the list of its state, or off those in flight, if it is there.
fn unlist(
    dirty: &mut AgeList,
    muzzy: &mut AgeList,
    retained: &mut AgeList,
    flights: &mut Vec<u32>,
    number: u32,
    part: &Part,
)
    requires dirty { CanUnlist Rest.Dirty dirty.old (record { number = number; part = part.now }) }
    requires muzzy { CanUnlist Rest.Muzzy muzzy.old (record { number = number; part = part.now }) }
    requires retained { CanUnlist Rest.Retained retained.old (record { number = number; part = part.now }) }
    requires flights { count_by (λ flight. flight == number) flights.old.items ≤ 1 }
    ensures dirty { LosesRow Rest.Dirty dirty.old dirty.new (record { number = number; part = part.now }) }
    ensures muzzy { LosesRow Rest.Muzzy muzzy.old muzzy.new (record { number = number; part = part.now }) }
    ensures retained { LosesRow Rest.Retained retained.old retained.new (record { number = number; part = part.now }) }
    ensures flights { flights.new.items ≡ cond (is_in_flight part.now.state)
        (filter (λ flight. not (flight == number)) flights.old.items) flights.old.items }
    ensures room { vec_capacity flights.new ≡ vec_capacity flights.old }
{
    match part.state {
        State::Active => {}
        State::Dirty => dirty.remove(number, part.span.pages),
        State::Muzzy => muzzy.remove(number, part.span.pages),
        State::Retained => retained.remove(number, part.span.pages),
        State::Flight(_, _) => land(flights, number),
    }
}

// Puts a key in, if there is one.
fn put_key(keys: &mut OrderedSet, key: Option<Key>)
    requires room { IsSome key → 0 < keys.old.spare }
    requires absent { IfSome key (λ k. ¬ Contains keys.old.keys k) }
    ensures keys { keys.new.keys ≡ keys_with keys.old.keys key }
    ensures spare { keys.new.spare + cond (is_some key) 1 0 ≡ keys.old.spare }
{
    if let Some(key) = key {
        keys.insert(key);
    }
}

// Takes a key out, if there is one.
fn drop_key(keys: &mut OrderedSet, key: Option<Key>)
    requires { IfSome key (λ k. Contains keys.old.keys k) }
    ensures keys { keys.new.keys ≡ keys_without keys.old.keys key }
    ensures spare { keys.new.spare ≡ keys.old.spare + cond (is_some key) 1 0 }
{
    if let Some(key) = key {
        keys.remove(key);
    }
}

// Takes an extent off those in flight, of which it mostly is the last one.
fn land(flights: &mut Vec<u32>, number: u32)
    requires { count_by (λ flight. flight == number) flights.old.items ≤ 1 }
    ensures numbers { flights.new.items ≡ filter (λ flight. not (flight == number)) flights.old.items }
    ensures room { vec_capacity flights.new ≡ vec_capacity flights.old }
{
    if let Some(last) = flights.last()
        && *last == number
    {
        flights.pop();
    } else {
        flights.retain(|flight| *flight != number);
    }
}
