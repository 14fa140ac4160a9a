//! Who holds the regions of each slot.
ghost use Rattle.std.specs.Prelude.{◌≡◌, ◌≢◌, ℕ, ◌+◌, ◌-◌, ◌++◌, replicate, max, ◌*◌, ◌/◌, ◌<◌, ◌≤◌, ◌^◌, ◌⊎◌, [], Some, length, slice_index_or, vec_capacity, vec_len, IfSome, OnOk};
ghost use Rattle.list_facts.specs.Codes.{of_code};
ghost use Rattle.bin_book.specs.Holders.{AreBlocks, code_at, holder_at};

use std::alloc::{AllocError as NoMemory, Global};
use std::marker::Model;

// A slab has no more regions than this.
const PLACES: usize = 512;

// How many places a block has. A slot has eight blocks.
const BLOCK: usize = 64;

/// A code for each place of each slot: 0 where nobody holds its region, and else one more than the client's number. The code
/// of a region that isn't out means nothing.
///
/// A block of places gets codes once one of its regions gets a holder, and keeps them; in a block without them nobody holds any.
/// Room is made for the codes of all blocks, and memory that isn't written to costs nothing. So a slot takes as many codes as
/// the slabs that it had have regions, in whole blocks.
#[derive(Drop)]
pub struct Holders {
    blocks: Vec<u32>,
    codes: Vec<u8>,
}

impl Model for Holders {
    ghost use Rattle.std.specs.Prelude.{ℕ, List};

    ghost Value = { List ℕ };

    ghost use Rattle.bin_book.specs.Kept.{shown, IsHolders};

    ghost view = { shown };

    ghost invariant = { IsHolders };
}

impl Holders {
    #[tactic(auto, unfolding(crate::specs::Holders::codes_in))]
    pub fn new(alloc: Global) -> Holders
        ensures { result ≡ [] }
    {
        Holders {
            blocks: Vec::new(alloc),
            codes: Vec::new(alloc),
        }
    }

    /// Makes places for so many slots. The holders stay. Fewer than 2^29 slots find room.
    #[tactic(auto, using(crate::proofs::Blocks::codes_length, crate::proofs::Blocks::codes_read))]
    pub fn reserve(&mut self, slots: usize) -> Result<(), NoMemory>
        requires small { slots < 2 ^ 32 }
        ensures kept { (place : ℕ) → place < length self.old
            → holder_at self.new place ≡ holder_at self.old place }
        ensures more { length self.old ≤ length self.new }
        ensures ok { OnOk result (512 * slots ≤ length self.new) }
    {
        let blocks = self.blocks.len().max(PLACES / BLOCK * slots);
        if blocks > u32::MAX as usize {
            return Err(NoMemory);
        }
        self.codes.reserve(BLOCK * blocks - self.codes.len())?;
        self.blocks.reserve(blocks - self.blocks.len())?;
        lengthen(&mut self.blocks, blocks, 0);
        Ok(())
    }

    /// The holder of a region of a slot.
    #[tactic(auto, using(crate::proofs::Blocks::codes_length, crate::proofs::Blocks::codes_read))]
    pub fn at(&self, slot: u64, region: u32) -> Option<u32>
        requires inside { 512 * slot + region < length self.now }
        ensures { result ≡ holder_at self.now (512 * slot + region) }
    {
        let blocks = &self.blocks;
        let place = PLACES * slot as usize + region as usize;
        let block = blocks[place / BLOCK] as usize;
        if block == 0 {
            return None;
        }
        match self.codes[BLOCK * (block - 1) + place % BLOCK] {
            0 => None,
            code => Some(u32::from(code) - 1),
        }
    }

    /// Gives a region of a slot a holder.
    #[tactic(auto, using(crate::proofs::Blocks::codes_length, crate::proofs::Blocks::codes_read))]
    pub fn set(&mut self, slot: u64, region: u32, holder: Option<u32>)
        requires inside { 512 * slot + region < length self.old }
        requires client { IfSome holder (λ client. client < 32) }
        ensures here { holder_at self.new (512 * slot + region) ≡ holder }
        ensures others { (place : ℕ) → place ≢ 512 * slot + region
            → holder_at self.new place ≡ holder_at self.old place }
        ensures len { length self.new ≡ length self.old }
    {
        let blocks = &mut self.blocks;
        let codes = &mut self.codes;
        let place = PLACES * slot as usize + region as usize;
        let block = own_block(blocks, codes, place / BLOCK);
        codes[BLOCK * (block - 1) + place % BLOCK] = code_of(holder);
    }

    /// Gives the lowest regions of a slot, so many, to a client.
    pub fn give(&mut self, slot: u64, count: u32, client: u32)
        requires inside { 512 * slot + count ≤ length self.old }
        requires client { client < 32 }
        ensures here { (region : ℕ) → region < count → holder_at self.new (512 * slot + region) ≡ Some client }
        ensures others { (place : ℕ) → (place < 512 * slot) ⊎ (512 * slot + count ≤ place)
            → holder_at self.new place ≡ holder_at self.old place }
        ensures len { length self.new ≡ length self.old }
    {
        for region in 0..count {
            self.set(slot, region, Some(client));
        }
    }
}

// The code of a holder.
fn code_of(holder: Option<u32>) -> u8
    requires { IfSome holder (λ client. client < 32) }
    ensures { of_code result ≡ holder }
{
    match holder {
        None => 0,
        Some(client) => client as u8 + 1,
    }
}

// The number of a block's codes, counted from 1. A block without codes gets the next ones, which are all 0.
fn own_block(blocks: &mut Vec<u32>, codes: &mut Vec<u8>, index: usize) -> usize
    requires blocks { AreBlocks blocks.old.items (vec_len codes.old) }
    requires inside { index < vec_len blocks.old }
    requires room { 64 * vec_len blocks.old ≤ vec_capacity codes.old }
    requires small { vec_len blocks.old < 2 ^ 32 }
    ensures number { result ≡ slice_index_or blocks.new.items index 0 }
    ensures some { 0 < result }
    ensures blocks { AreBlocks blocks.new.items (vec_len codes.new) }
    ensures same { (place : ℕ) → code_at blocks.new.items codes.new.items place ≡ code_at blocks.old.items codes.old.items place }
    ensures len { vec_len blocks.new ≡ vec_len blocks.old }
    ensures room { vec_capacity codes.old ≤ vec_capacity codes.new }
{
    if blocks[index] == 0 {
        let filled = codes.len();
        blocks[index] = (filled / BLOCK) as u32 + 1;
        lengthen(codes, filled + BLOCK, 0);
    }
    blocks[index] as usize
}

// Makes a list at least so long, by filling it up.
fn lengthen<T: Copy>(list: &mut Vec<T>, len: usize, filling: T)
    requires { len ≤ vec_capacity list.old }
    ensures items { list.new.items ≡ list.old.items ++ replicate (len - vec_len list.old) filling }
    ensures len { vec_len list.new ≡ max (vec_len list.old) len }
    ensures capacity { vec_capacity list.old ≤ vec_capacity list.new }
{
    list.resize(list.len().max(len), filling).unwrap();
}
