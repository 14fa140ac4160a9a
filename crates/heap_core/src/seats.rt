//! A client of a heap: what it has, and its call while one is open.

ghost use Rattle.std.specs.Prelude.{◌≡◌, IfSome, IfNone, IfOk, IsOk, IsSomeAnd, None, Some, OnOk, OnErr, false, true, is_some};
ghost use Rattle.heap_core.specs.Words.{option_and_then, DeskFacts, held_at, not_holding, moment_of, takes_memory, lent, Goes, ended_by, taken_next, after, begin, open_call, seat_of};
ghost use Rattle.heap_core.specs.Seats.{answer_of, first_seat, heard_by};
ghost use Rattle.heap_core.specs.Feeding.{FedTo, aimed_seat};
ghost use Rattle.heap_core.specs.Stepping.{Needs, TakesAt};

use call_plan::{Answered, Call, Desk, Item, Need, Request};
use hook_api::Asked;
use std::alloc::{AllocError as NoMemory, Global};
use std::marker::Model;
use thread_cache::Held;

/// A client: what it has, and its call while one is open. While that is so, its desk has room for the regions that it
/// may come to hold. Contracts see the call with the regions named that go back next.
#[derive(Drop)]
pub struct Client {
    pub(crate) desk: Desk,
    pub(crate) call: Option<Call>,
}

impl Model for Client {
    ghost use Rattle.sits.specs.Seats.{Seat};

    ghost Value = { Seat };

    ghost use Rattle.heap_core.specs.Feeding.{HasDeskRoom, shown};

    ghost view = { shown };

    ghost invariant = { HasDeskRoom };
}

/// Keeps a call only while it is open. Its answer is told, once it has ended.
pub(crate) fn settle(place: &mut Option<Call>, ended: &mut Option<Answered>)
    ensures open { IfSome place.old (λ call. (desk : DeskFacts) → place.new ≡ open_call call.client (moment_of call desk) call.stage.next) }
    ensures answer { IfSome place.old (λ call. ended.new ≡ ended_by call.stage.next) }
{
    if ended.is_some() {
        *ended = None;
    }
    let Some(call) = place else {
        return;
    };
    if let Some(answer) = call.answer() {
        *ended = Some(*answer);
        *place = None;
    }
}

impl Client {
    /// A client before its first call.
    pub fn new(alloc: Global) -> Result<Client, NoMemory>
        ensures { IfOk result (λ client. client ≡ first_seat) }
    {
        Ok(Client {
            desk: Desk::new(alloc)?,
            call: None,
        })
    }

    /// What it has.
    pub fn desk(&self) -> &Desk
        ensures { result.now.facts ≡ self.now.desk }
    {
        &self.desk
    }

    /// Whether it has an open call.
    pub fn has_call(&self) -> bool
        ensures { result ≡ is_some self.now.call }
    {
        self.call.is_some()
    }

    /// The region that it holds at an address.
    pub fn held_at(&self, addr: u64) -> Option<Held>
        ensures { result ≡ held_at addr self.now.desk }
    {
        self.desk.held_at(addr)
    }

    /// It holds no region at the address any more.
    #[tactic(auto, using(crate::proofs::Wanting::named_lost))]
    pub fn lose(&mut self, addr: u64)
        ensures { self.new ≡ record self.old { desk = not_holding addr self.old.desk } }
    {
        self.desk.lose(addr);
    }

    /// `need` becomes what its open call needs next, with the regions named that go back. Gives false where it has none. It is
    /// starved where there is no memory to name them, and nothing has changed then either.
    #[inline(always)]
    pub fn put_need(&mut self, alloc: Global, need: &mut Need) -> bool
        ensures same { self.new ≡ self.old }
        ensures none { result ≡ false → self.old.call ≡ None }
        ensures some { result ≡ true → Needs self.old.call need.new }
    {
        let Some(call) = &mut self.call else {
            return false;
        };
        call.put_need(alloc, &self.desk, need);
        true
    }

    /// The ask whose answer the turn carries that its open call needs, where it carries one.
    #[tactic(auto, using(crate::proofs::Wanting::named_hears))]
    pub fn heard(&self) -> &Option<Asked>
        requires { is_some self.now.call ≡ true }
        ensures { result.now ≡ heard_by self.now.call }
    {
        let Some(call) = &self.call else {
            unreachable!()
        };
        call.heard()
    }

    /// The address of a region of another client, where its open call takes that over next to free it.
    #[tactic(auto, using(crate::proofs::Wanting::named_takes))]
    pub fn takes(&self) -> Option<u64>
        ensures { result ≡ option_and_then (λ call. taken_next call.stage.next) self.now.call }
    {
        self.call.as_ref()?.takes()
    }

    /// Its open call takes that region over in the arena with this index.
    #[tactic(auto, using(crate::proofs::Wanting::named_aims))]
    pub fn aim(&mut self, arena: u32)
        requires { TakesAt self.old.call }
        ensures { self.new ≡ aimed_seat self.old arena }
    {
        if let Some(call) = &mut self.call {
            call.aim(arena);
        }
    }

    /// Begins a call. Gives its answer, where it has ended already. Where memory is wanting nothing changes.
    pub fn start(
        &mut self,
        alloc: Global,
        client: u32,
        request: Request,
    ) -> Result<Option<Answered>, NoMemory>
        requires { self.old.call ≡ None }
        ensures seat { OnOk result (self.new ≡ seat_of client (begin request self.old.desk)) }
        ensures answer { IfOk result (λ ended. ended ≡ answer_of (begin request self.old.desk)) }
        ensures spare { takes_memory request self.old.desk ≡ false → IsOk result }
        ensures err { OnErr result (self.new ≡ self.old) }
    {
        Call::start(alloc, &mut self.call, client, &mut self.desk, &request)
    }

    /// Feeds an item to its open call. The answer is told, where the call has ended by it. Takes no memory.
    #[inline(always)]
    pub fn feed(&mut self, alloc: Global, item: Item<'_>, ended: &mut Option<Answered>)
        requires { IsSomeAnd self.old.call (λ call. Goes (after (moment_of call self.old.desk) (lent item)).stage.next) }
        ensures { IfSome self.old.call (λ call. FedTo call self.old.desk (lent item.entry) ended.new self.new) }
    {
        let Some(call) = &mut self.call else {
            unreachable!()
        };
        call.next(alloc, &mut self.desk, item);
        settle(&mut self.call, ended);
    }
}
