//! The indexes over the extents of an arena, and the room in them.
ghost use Rattle.std.specs.Prelude.{◌≡◌, ℕ, ◌==◌, ◌+◌, ◌-◌, ◌*◌, ◌<◌, ◌≤◌, ◌^◌, [], cond, count_by, nat_lt, max, OnOk, IfOk, vec_capacity, vec_len, length};
ghost use Rattle.part_book.specs.Leaves.{HasLeaves};
ghost use Rattle.part_book.specs.Lists.{AgesGrow};
ghost use Rattle.part_book.specs.Rows.{part_at};
ghost use Rattle.part_book.specs.Tables.{HasRoomFor, IsRowTable, KeepsExtents, parts_of, rows_of};

use age_ring::AgeRing;
use ordered_set::OrderedSet;
use page_map::{LEAVES, PageMap};
use space_model::{Part, Span, State};
use std::alloc::{AllocError as NoMemory, Global};

// No more extents than this are given numbers: each has a page.
const NUMBERS: u64 = (1 << 32) - 1;

const NO_PART: Part = Part {
    span: Span { first: 0, pages: 0 },
    state: State::Active,
    committed: false,
};

/// The extents of a rest in order of age, and how many pages they have together.
#[derive(Drop)]
pub struct AgeList {
    pub ages: AgeRing,
    pub pages: u64,
}

/// The pages of all extents, and of those that serve regions.
#[derive(Drop)]
pub struct PageSums {
    pub all: u64,
    pub active: u64,
}

/// Each extent has a number, the place of the slot that has it. The rings and sets have numbers: all
/// of them in order, those of each rest in order of age, those in flight, those by first page, those
/// of a rest by size, and the number of each page that is the first or the last one of an extent.
#[derive(Drop)]
pub struct Table {
    pub order: AgeRing,
    pub dirty: AgeList,
    pub muzzy: AgeList,
    pub retained: AgeList,
    pub flights: Vec<u32>,
    pub sums: PageSums,
    pub firsts: OrderedSet,
    pub sizes: OrderedSet,
    pub edges: PageMap,
    pub slots: Vec<Part>,
    pub free: Vec<u32>,
}

impl Table {
    pub fn new(alloc: Global) -> Result<Table, NoMemory>
        ensures kept { IfOk result (λ t. KeepsExtents t []) }
        ensures room { IfOk result (λ t. HasRoomFor t 0) }
        ensures leaves { IfOk result (λ t. HasLeaves t.edges 0) }
    {
        Ok(Table {
            order: AgeRing::new(alloc),
            dirty: no_list(alloc),
            muzzy: no_list(alloc),
            retained: no_list(alloc),
            flights: Vec::new(alloc),
            sums: PageSums { all: 0, active: 0 },
            firsts: OrderedSet::new(alloc),
            sizes: OrderedSet::new(alloc),
            edges: PageMap::new(alloc)?,
            slots: Vec::new(alloc),
            free: Vec::new(alloc),
        })
    }

    /// Makes room for so many further extents in each index. The extents stay.
    pub fn reserve(&mut self, more: u64) -> Result<(), NoMemory>
        requires { IsRowTable self.old (rows_of self.old) }
        ensures kept { KeepsExtents self.new (parts_of self.old) }
        ensures room { (n : ℕ) → HasRoomFor self.old n → HasRoomFor self.new n }
        ensures leaves { (n : ℕ) → HasLeaves self.old.edges n → HasLeaves self.new.edges n }
        ensures ok { OnOk result (HasRoomFor self.new more) }
        ensures ok_leaves { OnOk result (HasLeaves self.new.edges (2 * more)) }
    {
        let all = self.order.len().checked_add(more).ok_or(NoMemory)?;
        if all > NUMBERS {
            return Err(NoMemory);
        }
        reserve_rings(
            &mut self.order,
            &mut self.dirty.ages,
            &mut self.muzzy.ages,
            &mut self.retained.ages,
            all,
        )?;
        self.sizes.reserve(all)?;
        self.firsts.reserve(more)?;
        self.edges.reserve(LEAVES.min(more.saturating_mul(2)))?;
        reserve_numbers(
            &mut self.slots,
            &mut self.free,
            &mut self.flights,
            all as usize,
        )
    }
}

fn no_list(alloc: Global) -> AgeList
    ensures { result ≡ record { ages = record { numbers = []; places = 0 }; pages = 0 } }
{
    AgeList {
        ages: AgeRing::new(alloc),
        pages: 0,
    }
}

// Makes so many places in each ring.
fn reserve_rings(
    order: &mut AgeRing,
    dirty: &mut AgeRing,
    muzzy: &mut AgeRing,
    retained: &mut AgeRing,
    all: u64,
) -> Result<(), NoMemory>
    requires { all ≤ NUMBERS }
    ensures order { AgesGrow order.old order.new }
    ensures dirty { AgesGrow dirty.old dirty.new }
    ensures muzzy { AgesGrow muzzy.old muzzy.new }
    ensures retained { AgesGrow retained.old retained.new }
    ensures ok_order { OnOk result (all ≤ order.new.places) }
    ensures ok_dirty { OnOk result (all ≤ dirty.new.places) }
    ensures ok_muzzy { OnOk result (all ≤ muzzy.new.places) }
    ensures ok_retained { OnOk result (all ≤ retained.new.places) }
{
    order.reserve(all)?;
    dirty.reserve(all)?;
    muzzy.reserve(all)?;
    retained.reserve(all)
}

// Makes the slots at least so many, and room for as many flights. The new slots are free.
fn reserve_numbers(
    slots: &mut Vec<Part>,
    free: &mut Vec<u32>,
    flights: &mut Vec<u32>,
    all: usize,
) -> Result<(), NoMemory>
    requires all { all ≤ NUMBERS }
    requires small { vec_len slots.old ≤ NUMBERS }
    requires room { vec_len slots.old ≤ vec_capacity free.old }
    requires fewer { vec_len free.old ≤ vec_len slots.old }
    ensures kept { (number : ℕ) → number < vec_len slots.old
        → part_at slots.new.items number ≡ part_at slots.old.items number }
    ensures free { (number : ℕ) → count_by (λ n. n == number) free.new.items + cond (nat_lt number (vec_len slots.old)) 1 0
        ≡ count_by (λ n. n == number) free.old.items + cond (nat_lt number (vec_len slots.new)) 1 0 }
    ensures places { vec_len free.new + vec_len slots.old ≡ vec_len free.old + vec_len slots.new }
    ensures more { vec_len slots.old ≤ vec_len slots.new }
    ensures most { vec_len slots.new ≤ max (vec_len slots.old) all }
    ensures small { vec_len slots.new ≤ NUMBERS }
    ensures room { vec_len slots.new ≤ vec_capacity free.new }
    ensures flights { flights.new.items ≡ flights.old.items }
    ensures flights_room { vec_capacity flights.old ≤ vec_capacity flights.new }
    ensures ok { OnOk result (all ≤ vec_len slots.new) }
    ensures flights_ok { OnOk result (all ≤ vec_capacity flights.new) }
{
    flights.reserve(all.saturating_sub(flights.len()))?;
    free.reserve(all.saturating_sub(free.len()))?;
    slots.reserve(all.saturating_sub(slots.len()))?;
    for number in slots.len()..all {
        free.push(number as u32).unwrap();
        slots.push(NO_PART).unwrap();
    }
    Ok(())
}
