//! A root with a place for each chunk of pages up to the highest one that was asked for, and leaves, one behind
//! another, with a place for each page of a chunk. A place has a number, and a bit that marks the number as present.
ghost use Rattle.std.specs.Prelude.{true, ◌≡◌, ◌+◌, ◌-◌, ◌*◌, ◌/◌, ◌%◌, ◌<◌, ◌≤◌, false, None, ◌++◌, replicate, if◌then◌else◌, slice_index_or, vec_capacity, vec_len, IsOkAnd, IsSome, OnOk, OnErr, max};
ghost use Rattle.std.specs.FinMap as map;
ghost use Rattle.std.specs.FinSet as set;

use lane_scan::{clear_bit, has_bit, set_bit};
use std::alloc::{AllocError as NoMemory, Global};
use std::marker::Model;

/// Pages are numbered below this bound.
pub const PAGES: u64 = 1 << 29;

/// How many pages a chunk has: chunk `c` has the pages from `512 * c` on.
pub const CHUNK_PAGES: u64 = 512;

/// How many leaves there may be, one a chunk: chunks are numbered below this bound.
pub const LEAVES: u64 = PAGES / CHUNK_PAGES;

const ROOT: usize = LEAVES as usize;

const LEAF: usize = CHUNK_PAGES as usize;

// How many marks a word has.
const WORD: usize = 64;

/// A finite map from pages to numbers. A chunk that had a number once keeps its leaf, and a leaf has room for the
/// numbers of all pages of its chunk. Only [`PageMap::reserve`] takes memory.
#[derive(Drop)]
pub struct PageMap {
    root: Vec<Option<u32>>,
    numbers: Vec<u32>,
    present: Vec<u64>,
    spare: u64,
}

impl Model for PageMap {
    ghost use Rattle.page_map.specs.Pages.{Pages, pages_code};

    ghost Value = { Pages };

    ghost coded = { pages_code };

    ghost use Rattle.page_map.specs.Maps.{shown, IsMap};

    ghost view = { shown };

    ghost invariant = { IsMap };
}

impl PageMap {
    ghost use Rattle.page_map.specs.Pages.{no_pages, put, with_leaf};

    /// An empty map. It takes no memory yet.
    pub fn new(alloc: Global) -> Result<PageMap, NoMemory>
        ensures { IsOkAnd result (λ pages. pages ≡ no_pages) }
    {
        Ok(PageMap {
            root: Vec::new(alloc),
            numbers: Vec::new(alloc),
            present: Vec::new(alloc),
            spare: 0,
        })
    }

    /// Makes the spare leaves at least so many, and changes nothing else. After a refusal nothing has changed.
    pub fn reserve(&mut self, leaves: u64) -> Result<(), NoMemory>
        ensures ok { OnOk result (self.new ≡ record self.old { spare = max self.old.spare leaves }) }
        ensures err { OnErr result (self.new ≡ self.old) }
    {
        if leaves <= self.spare {
            return Ok(());
        }
        let places = leaves.checked_mul(CHUNK_PAGES).ok_or(NoMemory)? as usize;
        self.root
            .reserve_exact(ROOT.saturating_sub(self.root.len()))?;
        self.numbers.reserve(places)?;
        self.present.reserve(places / WORD)?;
        self.spare = leaves;
        Ok(())
    }

    /// How many chunks may still get a leaf before memory is needed.
    pub fn spare(&self) -> u64
        ensures { result ≡ self.now.spare }
    {
        self.spare
    }

    /// Gives a page a number. A chunk without a leaf takes a spare one for it, and keeps it.
    #[inline(always)]
    pub fn set(&mut self, page: u64, number: u32)
        requires page { page < PAGES }
        requires room { set.contains self.old.chunks (page / CHUNK_PAGES) ≡ false
            → 0 < self.old.spare }
        ensures number { self.new.numbers ≡ map.insert self.old.numbers page number }
        ensures leaf { self.new.chunks ≡ set.insert self.old.chunks (page / CHUNK_PAGES) }
        ensures spare { self.new.spare
            ≡ (if set.contains self.old.chunks (page / CHUNK_PAGES)
            then self.old.spare
            else self.old.spare - 1) }
    {
        if leaf_at(&self.root, page).is_none() {
            self.give_leaf((page / CHUNK_PAGES) as usize);
        }
        self.write(page, Some(number));
    }

    /// Takes the number of a page away. Its chunk keeps its leaf.
    pub fn clear(&mut self, page: u64)
        ensures { self.new ≡ record self.old { numbers = map.remove self.old.numbers page } }
    {
        if leaf_at(&self.root, page).is_some() {
            self.write(page, None);
        }
    }

    /// Takes the numbers of all pages away, by going once through the leaves. Each chunk keeps its leaf.
    pub fn clear_all(&mut self)
        ensures { self.new ≡ record self.old { numbers = map.empty } }
    {
        self.present.fill(0);
    }

    /// The number of a page. The chunk of a page that has one has a leaf.
    pub fn get(&self, page: u64) -> Option<u32>
        ensures number { result ≡ map.get self.now.numbers page }
        ensures leaf { IsSome result
            → set.contains self.now.chunks (page / CHUNK_PAGES) ≡ true }
    {
        let place = leaf_at(&self.root, page)? * LEAF + place_at(page);
        if has_bit(&self.present, place) {
            Some(self.numbers[place])
        } else {
            None
        }
    }

    // Gives a chunk without a leaf a spare one.
    fn give_leaf(&mut self, chunk: usize)
        requires chunk { chunk < LEAVES }
        requires bare { set.contains self.old.chunks chunk ≡ false }
        requires spare { 0 < self.old.spare }
        ensures { self.new ≡ with_leaf self.old chunk }
    {
        lengthen(&mut self.root, chunk + 1, None);
        let filled = self.numbers.len();
        self.root[chunk] = Some((filled / LEAF) as u32);
        lengthen(&mut self.numbers, filled + LEAF, 0);
        lengthen(&mut self.present, (filled + LEAF) / WORD, 0);
        self.spare -= 1;
    }

    // Puts a number, or none, at a page whose chunk has a leaf.
    fn write(&mut self, page: u64, number: Option<u32>)
        requires { set.contains self.old.chunks (page / CHUNK_PAGES) ≡ true }
        ensures { self.new ≡ record self.old { numbers = put self.old.numbers page number } }
    {
        match leaf_at(&self.root, page) {
            Some(leaf) => {
                let place = leaf * LEAF + place_at(page);
                match number {
                    Some(number) => {
                        self.numbers[place] = number;
                        set_bit(&mut self.present, place);
                    }
                    None => clear_bit(&mut self.present, place),
                }
            }
            None => unreachable!(),
        }
    }
}

// Which leaf the chunk of a page has.
fn leaf_at(root: &[Option<u32>], page: u64) -> Option<usize>
    ensures { result ≡ slice_index_or root.now (page / CHUNK_PAGES) None }
{
    let chunk = (page / CHUNK_PAGES) as usize;
    if chunk < root.len() {
        root[chunk].map(|leaf| leaf as usize)
    } else {
        None
    }
}

// Where a page stands in the leaf of its chunk.
fn place_at(page: u64) -> usize
    ensures { result ≡ page % CHUNK_PAGES }
{
    (page % CHUNK_PAGES) as usize
}

// Makes a list at least so long, by filling it up.
fn lengthen<T: Copy>(list: &mut Vec<T>, len: usize, filling: T)
    requires { len ≤ vec_capacity list.old }
    ensures items { list.new.items ≡ list.old.items ++ replicate (len - vec_len list.old) filling }
    ensures len { vec_len list.new ≡ max (vec_len list.old) len }
    ensures capacity { vec_capacity list.old ≤ vec_capacity list.new }
{
    list.resize(list.len().max(len), filling).unwrap();
}
