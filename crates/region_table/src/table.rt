//! Regions by address.

ghost use Rattle.std.specs.Prelude.{◌≡◌, ◌+◌, ◌*◌, ◌<◌, ◌≤◌, ◌^◌, nat_eq, true, ℕ, [], ◌∷◌, ◌++◌, filter, length, slice_get, Some, IfOk, OnOk, OnErr, vec_capacity, vec_len};
ghost use Rattle.std.specs.List.{swap_remove};
ghost use Rattle.std.specs.Map.{lookup};
ghost use Rattle.indexmap.specs.IndexMap.{insert_entry, swap_remove_entry};
ghost use Rattle.thread_cache.specs.declared.Held.{Held as Region};
ghost use Rattle.thread_cache.specs.Caches.{is_elsewhere};
ghost use Rattle.region_table.specs.Slots.{filled_in, home_of, meets, word_at, word_of as word};
ghost use Rattle.region_table.specs.Tables.{AreApart, AreKept, AreMet};

use crate::slots::{EMPTY, GONE, Spot, free_slot, seek, word_of};
use std::alloc::{AllocError as NoMemory, Global};
use std::marker::Model;
use thread_cache::Held;

/// How many slots a table has at least, once it has any.
const FEW_SLOTS: usize = 16;

/// How many regions a table has at most, but for two.
const MOST: usize = 1 << 29;

/// The regions that a client holds, each found by its address, which contracts see as a list of each with its address, and for
/// how many more there is room.
///
/// A region stands where it came, but that the last one takes the place of one that goes. Slots lead to the places: at least
/// half of them are empty, so that a search is short. Only `reserve` takes memory.
#[derive(Drop)]
pub struct RegionTable {
    regions: Vec<Held>,
    words: Vec<u64>,
    filled: usize,
    room: usize,
}

impl Model for RegionTable {
    ghost use Rattle.region_table.specs.Tables.{Regions, shown, IsTable};

    ghost Value = { Regions };

    ghost view = { shown };

    ghost invariant = { IsTable };
}

/// A slot leads to the region at a place from now on, and its search meets it, as others meet what they did. How many slots have
/// been filled is told.
fn lead(words: &mut [u64], filled: usize, addr: u64, place: usize) -> usize
    requires slots { length words.old < 2 ^ 32 }
    requires filled { filled ≡ filled_in words.old }
    requires empty { filled < length words.old }
    requires place { place < 2 ^ 31 }
    ensures len { length words.new ≡ length words.old }
    ensures filled { result ≡ filled_in words.new }
    ensures few { result ≤ filled + 1 }
    ensures met { meets words.new (length words.old) (home_of addr (length words.old)) (word addr place) ≡ true }
    ensures kept { AreKept words.old words.new }
{
    let slot = free_slot(words, addr);
    let more = usize::from(words[slot] == EMPTY);
    words[slot] = word_of(addr, place);
    filled + more
}

/// The region of a spot goes, and the last one takes its place: the slots lead to those that stay.
fn leave(words: &mut [u64], regions: &[Held], spot: Spot)
    requires slots { length words.old < 2 ^ 32 }
    requires places { length regions.now < 2 ^ 31 }
    requires met { AreMet words.old regions.now }
    requires apart { AreApart regions.now }
    requires slot { spot.slot < length words.old }
    requires place { spot.place < length regions.now }
    requires word { (region : Region) → slice_get regions.now spot.place ≡ Some region → word_at words.old spot.slot ≡ word region.addr spot.place }
    ensures len { length words.new ≡ length words.old }
    ensures filled { filled_in words.new ≡ filled_in words.old }
    ensures met { (gone : Region) → AreMet words.new (swap_remove regions.now spot.place gone) }
{
    let last = regions.len() - 1;
    let moved = regions[last].addr;
    let Some(end) = seek(words, regions, moved) else {
        unreachable!()
    };
    words[spot.slot] = GONE;
    if spot.place < last {
        words[end.slot] = word_of(moved, spot.place);
    }
}

/// The slots lead to just these regions from now on. How many have been filled is told.
fn lead_all(words: &mut [u64], regions: &[Held]) -> usize
    requires slots { length words.old < 2 ^ 32 }
    requires empty { length regions.now ≤ length words.old }
    requires places { length regions.now < 2 ^ 31 }
    ensures len { length words.new ≡ length words.old }
    ensures filled { result ≡ filled_in words.new }
    ensures few { result ≤ length regions.now }
    ensures met { AreMet words.new regions.now }
{
    words.fill(EMPTY);
    let mut filled = 0;
    for place in 0..regions.len() {
        filled = lead(words, filled, regions[place].addr, place);
    }
    filled
}

/// Makes the slots anew, four times as many as regions, if there are fewer. How many have been filled is told.
#[inline(never)]
fn spread(words: &mut Vec<u64>, regions: &[Held]) -> Result<usize, NoMemory>
    requires slots { vec_len words.old < 2 ^ 32 }
    requires places { length regions.now ≤ 2 ^ 29 }
    ensures slots { vec_len words.new < 2 ^ 32 }
    ensures more { OnOk result (4 * length regions.now + 8 ≤ vec_len words.new) }
    ensures filled { IfOk result (λ filled. filled ≡ filled_in words.new.items) }
    ensures few { IfOk result (λ filled. filled ≤ length regions.now) }
    ensures met { OnOk result (AreMet words.new.items regions.now) }
    ensures err { OnErr result (words.new.items ≡ words.old.items) }
    ensures err_len { OnErr result (vec_len words.new ≡ vec_len words.old) }
{
    let count = (4 * (regions.len() + 2)).max(FEW_SLOTS);
    if words.len() < count {
        words.resize(count, EMPTY)?;
    }
    Ok(lead_all(words, regions))
}

/// Makes places for two more regions, and slots that lead to them. How many slots have been filled is told.
#[inline(always)]
fn make_room(
    regions: &mut Vec<Held>,
    words: &mut Vec<u64>,
    filled: usize,
) -> Result<usize, NoMemory>
    requires slots { vec_len words.old < 2 ^ 32 }
    requires met { AreMet words.old.items regions.old.items }
    requires filled { filled ≡ filled_in words.old.items }
    ensures items { regions.new.items ≡ regions.old.items }
    ensures capacity { vec_capacity regions.old ≤ vec_capacity regions.new }
    ensures slots { vec_len words.new < 2 ^ 32 }
    ensures met { AreMet words.new.items regions.new.items }
    ensures filled { IfOk result (λ filled. filled ≡ filled_in words.new.items) }
    ensures places { OnOk result (vec_len regions.new ≤ 2 ^ 29) }
    ensures spare { OnOk result (vec_len regions.new + 2 ≤ vec_capacity regions.new) }
    ensures empty { IfOk result (λ filled. filled + 2 < vec_len words.new) }
    ensures enough { OnOk result (vec_len regions.new + 2 < vec_len words.new) }
    ensures len { vec_len regions.new ≡ vec_len regions.old }
    ensures err { OnErr result (words.new.items ≡ words.old.items) }
    ensures err_len { OnErr result (vec_len words.new ≡ vec_len words.old) }
{
    regions.reserve(2)?;
    if regions.len() > MOST {
        return Err(NoMemory);
    }
    let most = filled.max(regions.len());
    if 2 * most + 4 > words.len() {
        spread(words, regions)
    } else {
        Ok(filled)
    }
}

/// A slot leads to a region that comes behind the others. How many slots have been filled is told.
fn lead_more(words: &mut [u64], regions: &[Held], filled: usize, addr: u64) -> usize
    requires slots { length words.old < 2 ^ 32 }
    requires places { length regions.now < 2 ^ 31 }
    requires filled { filled ≡ filled_in words.old }
    requires empty { filled < length words.old }
    requires met { AreMet words.old regions.now }
    ensures len { length words.new ≡ length words.old }
    ensures filled { result ≡ filled_in words.new }
    ensures few { result ≤ filled + 1 }
    ensures met { (region : Region) → region.addr ≡ addr → AreMet words.new (regions.now ++ region ∷ []) }
{
    lead(words, filled, addr, regions.len())
}

/// A region comes behind the others, and a slot leads to it. How many slots have been filled is told.
fn add(regions: &mut Vec<Held>, words: &mut Vec<u64>, filled: usize, region: Held) -> usize
    requires slots { vec_len words.old < 2 ^ 32 }
    requires places { vec_len regions.old < 2 ^ 31 }
    requires spare { vec_len regions.old < vec_capacity regions.old }
    requires filled { filled ≡ filled_in words.old.items }
    requires empty { filled < vec_len words.old }
    requires met { AreMet words.old.items regions.old.items }
    ensures items { regions.new.items ≡ regions.old.items ++ region ∷ [] }
    ensures more { vec_len regions.new ≡ vec_len regions.old + 1 }
    ensures capacity { vec_capacity regions.old ≤ vec_capacity regions.new }
    ensures len { vec_len words.new ≡ vec_len words.old }
    ensures filled { result ≡ filled_in words.new.items }
    ensures few { result ≤ filled + 1 }
    ensures met { AreMet words.new.items regions.new.items }
{
    let filled = lead_more(words, regions, filled, region.addr);
    regions.push(region).unwrap();
    filled
}

/// The region of a spot goes, and the last one takes its place.
fn take_out(regions: &mut Vec<Held>, words: &mut Vec<u64>, spot: Spot)
    requires slots { vec_len words.old < 2 ^ 32 }
    requires places { vec_len regions.old < 2 ^ 31 }
    requires met { AreMet words.old.items regions.old.items }
    requires apart { AreApart regions.old.items }
    requires slot { spot.slot < vec_len words.old }
    requires place { spot.place < vec_len regions.old }
    requires word { (region : Region) → slice_get regions.old.items spot.place ≡ Some region → word_at words.old.items spot.slot ≡ word region.addr spot.place }
    ensures items { (gone : Region) → regions.new.items ≡ swap_remove regions.old.items spot.place gone }
    ensures fewer { vec_len regions.new + 1 ≡ vec_len regions.old }
    ensures capacity { vec_capacity regions.new ≡ vec_capacity regions.old }
    ensures len { vec_len words.new ≡ vec_len words.old }
    ensures filled { filled_in words.new.items ≡ filled_in words.old.items }
    ensures met { AreMet words.new.items regions.new.items }
{
    leave(words, regions, spot);
    let _gone = regions.swap_remove(spot.place);
}

/// The regions of an arena go, and the slots lead to just the others. How many slots have been filled is told.
fn take_out_of(regions: &mut Vec<Held>, words: &mut Vec<u64>, arena: u32) -> usize
    requires slots { vec_len words.old < 2 ^ 32 }
    requires places { vec_len regions.old < 2 ^ 31 }
    requires long { vec_len regions.old ≤ vec_len words.old }
    ensures items { regions.new.items ≡ filter (is_elsewhere arena) regions.old.items }
    ensures fewer { vec_len regions.new ≤ vec_len regions.old }
    ensures capacity { vec_capacity regions.new ≡ vec_capacity regions.old }
    ensures len { vec_len words.new ≡ vec_len words.old }
    ensures filled { result ≡ filled_in words.new.items }
    ensures few { result ≤ vec_len regions.new }
    ensures met { AreMet words.new.items regions.new.items }
{
    regions.retain(|region| region.arena != arena);
    lead_all(words, regions)
}

impl RegionTable {
    /// No regions. Takes no memory.
    pub fn new(alloc: Global) -> RegionTable
        ensures { result ≡ record { held = []; room = 0 } }
    {
        RegionTable {
            regions: Vec::new(alloc),
            words: Vec::new(alloc),
            filled: 0,
            room: 0,
        }
    }

    /// The region at an address.
    #[inline(always)]
    pub fn get(&self, addr: u64) -> Option<Held>
        ensures { result ≡ lookup (nat_eq addr) self.now.held }
    {
        let spot = seek(&self.words, &self.regions, addr)?;
        Some(self.regions[spot.place])
    }

    /// Makes room for two more regions. `NoMemory` is also what a table of over 2^29 regions gives.
    #[inline(always)]
    pub fn reserve(&mut self) -> Result<(), NoMemory>
        ensures held { self.new.held ≡ self.old.held }
        ensures ok { OnOk result (2 ≤ self.new.room) }
    {
        match make_room(&mut self.regions, &mut self.words, self.filled) {
            Ok(filled) => {
                self.filled = filled;
                self.room = 2;
                Ok(())
            }
            Err(error) => Err(error),
        }
    }

    /// Puts a region, in the place of the one at its address, if there is one.
    pub fn put(&mut self, region: Held)
        requires { 1 ≤ self.old.room }
        ensures held { self.new.held ≡ insert_entry nat_eq self.old.held region.addr region }
        ensures room { self.old.room ≤ self.new.room + 1 }
    {
        match seek(&self.words, &self.regions, region.addr) {
            Some(spot) => self.regions[spot.place] = region,
            None => {
                self.filled = add(&mut self.regions, &mut self.words, self.filled, region);
                self.room -= 1;
            }
        }
    }

    /// Takes the region at an address out, if there is one.
    #[inline(always)]
    pub fn remove(&mut self, addr: u64)
        ensures held { self.new.held ≡ swap_remove_entry (nat_eq addr) self.old.held }
        ensures room { self.old.room ≤ self.new.room }
    {
        if let Some(spot) = seek(&self.words, &self.regions, addr) {
            take_out(&mut self.regions, &mut self.words, spot);
        }
    }

    /// Takes the regions of an arena out.
    pub fn discard(&mut self, arena: u32)
        ensures held { self.new.held ≡ filter (λ (e : ℕ × Region). is_elsewhere arena e.1) self.old.held }
        ensures room { self.old.room ≤ self.new.room }
    {
        self.filled = take_out_of(&mut self.regions, &mut self.words, arena);
    }
}
