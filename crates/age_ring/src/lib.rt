//! Numbers in order of age, linked through places that are reserved beforehand: of its calls only
//! `new` and `reserve` take memory.
#![tactic(auto)]

ghost use Rattle.std.specs.Prelude.{◌≡◌, ◌==◌, ℕ, ◌+◌, ◌<◌, ◌≤◌, ◌^◌, ◌≢◌, [], ◌∷◌, ◌++◌, not, cond, length, max, filter, slice_get, vec_len, All, Contains, OnOk, OnErr};
ghost use Rattle.age_ring.specs.Links.{link_at, next_of, prev_of};

use std::alloc::{AllocError as NoMemory, Global};
use std::marker::Model;

/// The places of the neighbours in the ring.
#[derive(Clone, Copy)]
pub struct Link {
    pub prev: u32,
    pub next: u32,
}

const NO_LINK: Link = Link { prev: 0, next: 0 };

/// Different numbers in the order in which they came.
///
/// Each number has a place for its links to the one before it and to the one after it, so a number
/// comes, goes and is found first in one step. `reserve` makes the places, one for each number
/// below a bound.
#[derive(Drop)]
pub struct AgeRing {
    // The first link joins the last number to the first one; that of a number is at its successor.
    links: Vec<Link>,
    len: u64,
}

impl Model for AgeRing {
    ghost use Rattle.age_ring.specs.Ages.{Ages};

    ghost Value = { Ages };

    ghost use Rattle.age_ring.specs.Rings.{shown, IsShown};

    ghost view = { shown };

    ghost invariant = { IsShown };
}

impl AgeRing {
    /// No numbers, and no places. Takes no memory.
    pub fn new(alloc: Global) -> Self
        ensures { result ≡ record { numbers = []; places = 0 } }
    {
        AgeRing {
            links: Vec::new(alloc),
            len: 0,
        }
    }

    /// Makes the places at least so many. A refusal changes nothing.
    pub fn reserve(&mut self, places: u64) -> Result<(), NoMemory>
        requires { places < 2 ^ 32 }
        ensures numbers { self.new.numbers ≡ self.old.numbers }
        ensures ok { OnOk result (self.new.places ≡ max self.old.places places) }
        ensures err { OnErr result (self.new ≡ self.old) }
    {
        lengthen(&mut self.links, places as usize + 1)
    }

    /// How many numbers there are.
    pub fn len(&self) -> u64
        ensures { result ≡ length self.now.numbers }
    {
        self.len
    }

    /// Whether there is no number.
    pub fn is_empty(&self) -> bool
        ensures { result ≡ (length self.now.numbers == 0) }
    {
        self.len() == 0
    }

    /// The number that came first, if there is one.
    pub fn first(&self) -> Option<u32>
        ensures { result ≡ slice_get self.now.numbers 0 }
    {
        if self.len == 0 {
            return None;
        }
        Some(link_at(&self.links, 0).next - 1)
    }

    /// Puts a new number behind all others.
    pub fn push(&mut self, number: u32)
        requires place { number < self.old.places }
        requires new_number { All (λ n. n ≢ number) self.old.numbers }
        ensures numbers { self.new.numbers ≡ self.old.numbers ++ number ∷ [] }
        ensures places { self.new.places ≡ self.old.places }
    {
        let last = link_at(&self.links, 0).prev;
        join(&mut self.links, last, number + 1);
        join(&mut self.links, number + 1, 0);
        self.len += 1;
    }

    /// Takes a number out.
    pub fn remove(&mut self, number: u32)
        requires { Contains self.old.numbers number }
        ensures numbers { self.new.numbers ≡ filter (λ n. not (n == number)) self.old.numbers }
        ensures places { self.new.places ≡ self.old.places }
    {
        let link = link_at(&self.links, number + 1);
        join(&mut self.links, link.prev, link.next);
        self.len -= 1;
    }

    /// Puts a number that is there behind all others.
    pub fn renew(&mut self, number: u32)
        requires { Contains self.old.numbers number }
        ensures numbers { self.new.numbers ≡ filter (λ n. not (n == number)) self.old.numbers ++ number ∷ [] }
        ensures places { self.new.places ≡ self.old.places }
    {
        if link_at(&self.links, 0).prev != number + 1 {
            self.remove(number);
            self.push(number);
        }
    }
}

// The links of a place.
fn link_at(links: &Vec<Link>, place: u32) -> Link
    requires { place < vec_len links.now }
    ensures { result ≡ link_at links.now.items place }
{
    links[place as usize]
}

// Makes one place follow another.
fn join(links: &mut Vec<Link>, before: u32, after: u32)
    requires before { before < vec_len links.old }
    requires after { after < vec_len links.old }
    ensures next { (k : ℕ) → next_of links.new.items k ≡ cond (k == before) after (next_of links.old.items k) }
    ensures prev { (k : ℕ) → prev_of links.new.items k ≡ cond (k == after) before (prev_of links.old.items k) }
    ensures len { vec_len links.new ≡ vec_len links.old }
{
    links[before as usize].next = after;
    links[after as usize].prev = before;
}

// Makes the links at least so many.
fn lengthen(links: &mut Vec<Link>, wanted: usize) -> Result<(), NoMemory>
    ensures kept { (k : ℕ) → link_at links.new.items k ≡ link_at links.old.items k }
    ensures more { vec_len links.old ≤ vec_len links.new }
    ensures most { vec_len links.new ≤ max (vec_len links.old) wanted }
    ensures ok { OnOk result (vec_len links.new ≡ max (vec_len links.old) wanted) }
    ensures err { OnErr result (links.new.items ≡ links.old.items) }
{
    links.reserve(wanted.saturating_sub(links.len()))?;
    for _ in links.len()..wanted {
        links.push(NO_LINK).unwrap();
    }
    Ok(())
}
