//! A heap.

ghost use Rattle.std.specs.Prelude.{◌≡◌, ◌<◌, ◌≤◌, ◌/◌, ◌^◌, ℕ, None, length, map, is_some, false, IfOk, IfSome, IsOk, OnOk, OnErr};
ghost use Rattle.heap_core.specs.Words.{list_any, position, counts_of, has_page, is_live, takes_memory, IsInRange, held_at, record_at};
ghost use Rattle.space_model.specs.Span.{max_series};
ghost use Rattle.heap_core.specs.Arenas.{IsArenas, grow_limit_of, journal_of, setting_of, where_live};
ghost use Rattle.heap_core.specs.Heaps.{opening_heap, started};
ghost use Rattle.heap_core.specs.Logs.{last_asked};
ghost use Rattle.heap_core.specs.Seats.{answer_of, asked_for, begun, free_request, held_by, holder_of, seat_at};
ghost use Rattle.heap_core.specs.Sitting.{SeatSound};

use crate::Arenas;
use crate::arenas::ARENAS;
use crate::logs::AskLog;
use crate::seats::Client;
use arena_core::Arena;
use call_plan::{Answered, Desk, Request};
use hook_api::{Asked, Askeds, Journals};
use size_classes::PAGE_BYTES;
use space_model::{CLIENTS, Counts};
use std::alloc::{AllocError as NoMemory, Global};
use std::marker::Model;
use thread_cache::Held;

/// What a step of a client did.
#[derive(Clone, Copy)]
pub enum Did {
    /// Nothing: the client has no open call.
    Idle,
    /// A turn of an arena was made for its call, or found no memory.
    Turn,
    /// Its call made an ask, which is the last one that was made.
    Ask,
}

/// What a step of a client told.
#[derive(Clone, Copy)]
pub struct Stepped {
    /// What it did.
    pub did: Did,
    /// The answer of its call, where that has ended by it.
    pub ended: Option<Answered>,
}

impl Stepped {
    /// Nothing was done.
    pub fn none() -> Stepped
        ensures { result ≡ record { did = Did.Idle; ended = None } }
    {
        Stepped {
            did: Did::Idle,
            ended: None,
        }
    }

    /// This was done, and no call has ended by it.
    pub(crate) fn go_on(&mut self, did: Did)
        ensures { self.new ≡ record { did = did; ended = None } }
    {
        self.did = did;
        if self.ended.is_some() {
            self.ended = None;
        }
    }
}

/// The 32 arenas and the 32 clients of a heap, with every ask that was made. Contracts see the arenas with their journals, what
/// each client has and its open call, and the asks.
///
/// Each step of a client carries its call on by one turn or one ask, whatever steps of other clients come between. A call may
/// end for want of memory at a turn that takes some. An ask and the turn that takes its answer in take none.
#[derive(Drop)]
pub struct Heap {
    pub(crate) arenas: Arenas,
    pub(crate) clients: Vec<Client>,
    pub(crate) log: AskLog,
}

impl Model for Heap {
    ghost use Rattle.heap_core.specs.Heaps.{HeapFacts};
    ghost use Rattle.heap_core.specs.Owing.{IsHeap};

    ghost Value = { HeapFacts };

    ghost view = { λ h. record { records = h.arenas; seats = h.clients.items; heard = h.log.asks } };

    ghost invariant = { λ h. IsHeap h.arenas h.clients.items h.log.owed };
}

/// The place of the first client that holds a region at an address.
pub(crate) fn holder_of(clients: &[Client], addr: u64) -> Option<usize>
    ensures holder { result ≡ holder_of addr clients.now }
    ensures within { IfSome result (λ holder. holder < length clients.now) }
{
    clients
        .iter()
        .position(|client| client.held_at(addr).is_some())
}

/// The region that some client holds at an address.
fn held_by(clients: &[Client], addr: u64) -> Option<Held>
    ensures { result ≡ held_by addr clients.now (holder_of addr clients.now) }
{
    let holder = holder_of(clients, addr)?;
    clients[holder].held_at(addr)
}

/// A free of a region that the client holds, or else of one that another client holds.
fn free_of(addr: u64, other: Option<Held>) -> Request
    ensures { result ≡ free_request addr None other }
{
    match other {
        Some(region) => Request::FreeForeign {
            addr,
            arena: region.arena,
        },
        None => Request::Free { addr },
    }
}

/// What a client asks for by a request: a free of a region that another client holds takes it over first.
fn asked_for(clients: &[Client], client: u32, request: Request) -> Request
    requires { client < length clients.now }
    ensures { result ≡ asked_for clients.now client request }
{
    match request {
        Request::Free { addr } => {
            if clients[client as usize].held_at(addr).is_some() {
                return request;
            }
            free_of(addr, held_by(clients, addr))
        }
        request => request,
    }
}

impl Heap {
    /// A new heap: arena 0 is there, and no other, and no client has anything.
    pub fn new(alloc: Global) -> Result<Heap, NoMemory>
        ensures { IfOk result (λ heap. heap ≡ opening_heap) }
    {
        let mut clients = Vec::with_capacity(alloc, CLIENTS as usize)?;
        while clients.len() < CLIENTS as usize {
            clients.push(Client::new(alloc)?)?;
        }
        Ok(Heap {
            arenas: Arenas::new(alloc)?,
            clients,
            log: AskLog::new(alloc),
        })
    }

    /// What is always so: the arenas are as their journals leave them, of which no two own a chunk; each of the 32 clients has
    /// just the regions that it holds in them, and its open call knows there what it has to.
    pub fn stands(&self)
        ensures arenas { IsArenas self.now.records }
        ensures clients { length self.now.seats ≡ 32 }
        ensures seats { (c : ℕ) → c < 32 → SeatSound self.now.records c (seat_at self.now.seats c) }
        ensures entries { (i : ℕ) → i < 32 → length (record_at self.now.records i).kept < 2 ^ 64 }
        ensures asks { length self.now.heard < 2 ^ 64 }
    {
        self.arenas.are_apart();
        self.log.is_few();
    }

    /// Whether a client has an open call.
    pub fn has_call(&self, client: u32) -> bool
        requires { client < 32 }
        ensures { result ≡ is_some (seat_at self.now.seats client).call }
    {
        self.clients[client as usize].has_call()
    }

    /// What a client has.
    pub fn desk(&self, client: u32) -> &Desk
        requires { client < 32 }
        ensures { result.now.facts ≡ (seat_at self.now.seats client).desk }
    {
        self.clients[client as usize].desk()
    }

    /// The arena with an index, where it is live.
    fn live_arena(&self, index: u32) -> Option<&Arena>
        ensures space { IfSome result (λ arena. arena.now.space ≡ (record_at self.now.records index).space) }
        ensures live { is_some result ≡ is_live (record_at self.now.records index).space.life }
    {
        self.arenas.are_apart();
        if index >= ARENAS {
            return None;
        }
        let arena = self.arenas.at(index);
        if arena.life().is_live() {
            Some(arena)
        } else {
            None
        }
    }

    /// Whether the arena with an index is live.
    pub fn live(&self, arena: u32) -> bool
        ensures { result ≡ is_live (record_at self.now.records arena).space.life }
    {
        self.live_arena(arena).is_some()
    }

    /// The counts of the arena with an index, where it is live (`stats.arenas.<i>` in the manual).
    pub fn counts(&self, arena: u32) -> Option<Counts>
        ensures { result ≡ where_live counts_of (record_at self.now.records arena).space }
    {
        Some(self.live_arena(arena)?.counts())
    }

    /// The box of hooks that the arena with an index asks, and its decay times of dirty and of muzzy extents in milliseconds, -1
    /// for never, where it is live (`arena.<i>` in the manual).
    pub fn setting(&self, arena: u32) -> Option<(u32, i64, i64)>
        ensures { result ≡ where_live setting_of (record_at self.now.records arena).space }
    {
        let arena = self.live_arena(arena)?;
        let (dirty_ms, muzzy_ms) = arena.times();
        Some((arena.box_no(), dirty_ms, muzzy_ms))
    }

    /// The most chunks by which the arena with an index grows where no request needs so many, from 1 to 16384, where it is live
    /// (`arena.<i>.retain_grow_limit` in the manual, there in bytes).
    pub fn grow_limit(&self, arena: u32) -> Option<u64>
        ensures limit { result ≡ where_live grow_limit_of (record_at self.now.records arena).space }
        ensures bound { IfSome result (λ chunks. chunks ≤ max_series) }
    {
        Some(self.live_arena(arena)?.grow_limit())
    }

    /// The client that holds a region at an address, if one does. One that is cached or in hand is held by nobody in this sense.
    pub fn holder_of(&self, addr: u64) -> Option<u32>
        ensures { result ≡ holder_of addr self.now.seats }
    {
        self.arenas.are_apart();
        let holder = holder_of(&self.clients, addr)?;
        Some(holder as u32)
    }

    /// The index of the arena of which an extent has the page of an address, if there is one.
    pub fn arena_of(&self, addr: u64) -> Option<u32>
        ensures { result ≡ position (λ r. list_any (λ p. has_page (addr / 4096) p.span) r.space.parts) self.now.records }
    {
        self.arenas.arena_of(addr / PAGE_BYTES)
    }

    /// The last ask that was made.
    pub fn last_ask(&self) -> Option<Asked>
        ensures { result ≡ last_asked self.now.heard }
    {
        self.log.last()
    }

    /// Begins a call of a client that has none open. Gives its answer, where it has ended already. A free of a region that
    /// another client holds takes it over first. Where memory is wanting nothing changes.
    pub fn start(
        &mut self,
        alloc: Global,
        client: u32,
        request: Request,
    ) -> Result<Option<Answered>, NoMemory>
        requires client { client < 32 }
        requires rests { (seat_at self.old.seats client).call ≡ None }
        requires range { IsInRange request }
        ensures heap { OnOk result (self.new ≡ started self.old client request) }
        ensures answer { IfOk result (λ ended. ended ≡ answer_of (begun self.old.seats client request)) }
        ensures spare { takes_memory (asked_for self.old.seats client request) (seat_at self.old.seats client).desk ≡ false → IsOk result }
        ensures err { OnErr result (self.new ≡ self.old) }
    {
        let request = asked_for(&self.clients, client, request);
        self.arenas.are_apart();
        self.clients[client as usize].start(alloc, client, request)
    }

    /// The journals of all arenas, which leave the spaces that these have, and every ask, in order. Takes no memory.
    pub fn finish(self) -> (Journals, Askeds)
        ensures journals { result.0 ≡ map journal_of self.records }
        ensures asks { result.1 ≡ self.heard }
    {
        let Heap { arenas, log, .. } = self;
        (arenas.into_journals(), log.into_asks())
    }
}
