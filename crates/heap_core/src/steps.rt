//! A step of a client of a heap: one turn or one ask for its open call.

ghost use Rattle.std.specs.Prelude.{◌≡◌, ◌≢◌, ◌+◌, ◌<◌, ◌≤◌, ℕ, None, Some, false, true, length, IfNone, IfOk, IfSome, IsOk, IsSomeAnd, OnOk, OnErr};
ghost use Rattle.heap_core.specs.Words.{Shelf, all_rooms, opens, held_at, lent, reply_in, room_in, record_at, most_room};
ghost use Rattle.space_model.specs.declared.entries.Op.TheVariants.{Publish};
ghost use Rattle.heap_core.specs.Arenas.{spaces_of};
ghost use Rattle.heap_core.specs.Clients.{CanTurn, after_turn};
ghost use Rattle.heap_core.specs.Feeding.{aimed_seat};
ghost use Rattle.heap_core.specs.Heaps.{IsStep, IsSure, parted, seated};
ghost use Rattle.heap_core.specs.Logs.{owed_to};
ghost use Rattle.heap_core.specs.Seats.{seat_at};
ghost use Rattle.heap_core.specs.Stepping.{HolderIs, IsPublished, MadeTurn, Needs, StarvesAt, TakesAt, item_of, replied_by, with_ask};

use crate::Arenas;
use crate::heaps::{Did, Heap, Stepped, holder_of};
use crate::logs::AskLog;
use arena_core::Arena;
use call_plan::{Answered, Item, Need, Turn};
use hook_api::{Asked, ExtentHooks, HookShelf};
use recorded_arena::places_for;
use space_model::{Ask, Op, Reply};
use std::alloc::{AllocError as NoMemory, Global};
use thread_cache::Held;

/// Promises a client places for the asks that may come between a turn in an arena that takes memory and the next one.
fn promise(log: &mut AskLog, arena: &Arena, client: u32, op: &Op) -> Result<(), NoMemory>
    requires { client < 32 }
    ensures asks { log.new.asks ≡ log.old.asks }
    ensures others { (other : ℕ) → other ≢ client → owed_to log.new.owed other ≡ owed_to log.old.owed other }
    ensures kept { owed_to log.old.owed client ≤ owed_to log.new.owed client }
    ensures ok { OnOk result (opens op.now ≡ true → all_rooms arena.now.rooms + most_room op.now + 1 ≤ owed_to log.new.owed client) }
    ensures sure { opens op.now ≡ false → IsOk result }
{
    if !Arena::opens(op) {
        return Ok(());
    }
    log.promise(client, places_for(arena, op)?)
}

/// A turn in one of the arenas, with places for the asks that may follow it. The reply is written into the place for it. Where
/// memory is wanting, nothing else changes. The operation is from then on as it entered the journal.
#[inline(always)]
pub(crate) fn make_turn(
    arenas: &mut Arenas,
    log: &mut AskLog,
    turn: &mut Turn,
    asked: &Option<Asked>,
    reply: &mut Reply,
) -> Result<(), NoMemory>
    requires arena { turn.old.arena < 32 }
    requires client { turn.old.client < 32 }
    requires can { CanTurn arenas.old turn.old.client turn.old.arena turn.old.op asked.now }
    ensures turn { MadeTurn arenas.old log.old.owed (with_ask turn.old asked.now) (replied_by result reply.new) arenas.new log.new.owed }
    ensures asks { log.new.asks ≡ log.old.asks }
{
    promise(log, arenas.at(turn.arena), turn.client, &turn.op)?;
    arenas.turn(turn.arena, turn.client, &mut turn.op, asked, reply)
}

/// What a call is fed that wanted a turn.
fn item_of<'a>(made: Result<(), NoMemory>, reply: &'a Reply) -> Item<'a>
    ensures { lent result ≡ item_of (replied_by made reply.now) }
{
    match made {
        Ok(()) => Item::Replied(reply),
        Err(_) => Item::Starved,
    }
}

impl Heap {
    /// `need` becomes what the open call of a client needs next, with the regions named that go back. Gives false where it has
    /// none. It is starved where there is no memory to name them. Nothing else changes.
    #[inline(always)]
    fn put_need(&mut self, alloc: Global, client: u32, need: &mut Need) -> bool
        requires { client < 32 }
        ensures same { self.new ≡ self.old }
        ensures none { result ≡ false → (seat_at self.old.seats client).call ≡ None }
        ensures some { result ≡ true → Needs (seat_at self.old.seats client).call need.new }
    {
        self.arenas.are_apart();
        self.clients[client as usize].put_need(alloc, need)
    }

    /// The client that holds the region which a client's call takes over next to free it, with that region.
    fn holder_for(&self, client: u32) -> Option<(usize, Held)>
        requires { client < 32 }
        ensures { IfSome (seat_at self.now.seats client).call (λ call. HolderIs self.now call result) }
    {
        let addr = self.clients[client as usize].takes()?;
        let holder = holder_of(&self.clients, addr)?;
        let Some(region) = self.clients[holder].held_at(addr) else {
            unreachable!()
        };
        Some((holder, region))
    }

    /// A client publishes a region that it holds, and holds it no more. Where memory is wanting nothing changes.
    fn publish(&mut self, holder: u32, region: Held) -> Result<(), NoMemory>
        requires holder { holder < 32 }
        requires held { held_at region.addr (seat_at self.old.seats holder).desk ≡ Some region }
        ensures ok { OnOk result (IsPublished self.old holder region self.new) }
        ensures err { OnErr result (self.new ≡ self.old) }
    {
        self.arenas.are_apart();
        let mut turn = Turn {
            arena: region.arena,
            client: holder,
            op: Op::Publish { addr: region.addr },
        };
        let mut reply = Reply::Noted;
        make_turn(
            &mut self.arenas,
            &mut self.log,
            &mut turn,
            &None,
            &mut reply,
        )?;
        self.clients[holder as usize].lose(region.addr);
        Ok(())
    }

    /// The call of a client that is about to take a region over does so in the arena with this index.
    fn aim(&mut self, client: u32, arena: u32)
        requires client { client < 32 }
        requires arena { arena < 32 }
        requires takes { TakesAt (seat_at self.old.seats client).call }
        ensures { self.new ≡ seated self.old client (aimed_seat (seat_at self.old.seats client) arena) }
    {
        self.clients[client as usize].aim(arena);
    }

    /// The call of a client has ended, since the turn that it wants found no memory, or none to name what it gives back.
    fn starve(&mut self, alloc: Global, client: u32, told: &mut Stepped)
        requires client { client < 32 }
        requires starves { StarvesAt (seat_at self.old.seats client).call }
        ensures step { (shelf : Shelf) → IsStep self.old shelf client (seat_at self.old.seats client).call told.new self.new shelf }
        ensures sure { IsSure self.old client (seat_at self.old.seats client).call self.new }
    {
        self.arenas.are_apart();
        told.did = Did::Turn;
        self.clients[client as usize].feed(alloc, Item::Starved, &mut told.ended);
    }

    /// The turn that a client's call wants.
    fn turn(&mut self, alloc: Global, turn: &mut Turn, told: &mut Stepped)
        requires client { turn.old.client < 32 }
        requires needs { Needs (seat_at self.old.seats turn.old.client).call (Need.Turn turn.old) }
        requires free { IfSome (seat_at self.old.seats turn.old.client).call (λ call. HolderIs self.old call None) }
        ensures step { (shelf : Shelf) → IsStep self.old shelf turn.old.client (seat_at self.old.seats turn.old.client).call told.new self.new shelf }
        ensures sure { IsSure self.old turn.old.client (seat_at self.old.seats turn.old.client).call self.new }
    {
        let client = turn.client as usize;
        self.arenas.are_apart();
        let asked = self.clients[client].heard();
        let mut reply = Reply::Noted;
        let made = make_turn(&mut self.arenas, &mut self.log, turn, asked, &mut reply);
        told.did = Did::Turn;
        self.clients[client].feed(alloc, item_of(made, &reply), &mut told.ended);
    }

    /// The turn by which a holder publishes the region that a client's call takes over next.
    fn take_over(
        &mut self,
        alloc: Global,
        client: u32,
        holder: u32,
        region: Held,
        told: &mut Stepped,
    )
        requires client { client < 32 }
        requires holder { IsSomeAnd (seat_at self.old.seats client).call (λ call. HolderIs self.old call (Some (holder, region))) }
        ensures step { (shelf : Shelf) → IsStep self.old shelf client (seat_at self.old.seats client).call told.new self.new shelf }
        ensures sure { IsSure self.old client (seat_at self.old.seats client).call self.new }
    {
        self.stands();
        match self.publish(holder, region) {
            Ok(()) => {
                self.aim(client, region.arena);
                told.go_on(Did::Turn);
            }
            Err(_) => self.starve(alloc, client, told),
        }
    }

    /// A turn for a client's call: the one by which a holder publishes, if there is one, and else the one that the call wants.
    fn turn_for(&mut self, alloc: Global, turn: &mut Turn, told: &mut Stepped)
        requires client { turn.old.client < 32 }
        requires needs { Needs (seat_at self.old.seats turn.old.client).call (Need.Turn turn.old) }
        ensures step { (shelf : Shelf) → IsStep self.old shelf turn.old.client (seat_at self.old.seats turn.old.client).call told.new self.new shelf }
        ensures sure { IsSure self.old turn.old.client (seat_at self.old.seats turn.old.client).call self.new }
    {
        match self.holder_for(turn.client) {
            Some((holder, region)) => {
                self.take_over(alloc, turn.client, holder as u32, region, told);
            }
            None => self.turn(alloc, turn, told),
        }
    }

    /// The ask that a client's call wants, of the box of its arena.
    fn ask<H: ExtentHooks>(
        &mut self,
        alloc: Global,
        client: u32,
        arena: u32,
        ask: Ask,
        shelf: &mut HookShelf<H>,
        told: &mut Stepped,
    )
        requires client { client < 32 }
        requires needs { Needs (seat_at self.old.seats client).call (Need.Ask arena ask) }
        ensures step { IsStep self.old shelf.old client (seat_at self.old.seats client).call told.new self.new shelf.new }
        ensures sure { IsSure self.old client (seat_at self.old.seats client).call self.new }
    {
        self.arenas.are_apart();
        let asked = shelf.ask(self.arenas.at(arena).box_no(), ask);
        self.log.push(client, &asked);
        told.did = Did::Ask;
        self.clients[client as usize].feed(alloc, Item::Told(&asked), &mut told.ended);
    }

    /// Carries the open call of a client on, if it has one, by one turn or one ask. Where the call has ended by it, its answer
    /// is told: `NoMemory` where there was none for a turn, or to name the regions that it gives back, and then no turn was made. A
    /// turn that takes no memory is always made, and so is an ask.
    pub fn step_client<H: ExtentHooks>(
        &mut self,
        alloc: Global,
        client: u32,
        shelf: &mut HookShelf<H>,
    ) -> Stepped
        requires { client < 32 }
        ensures step { IsStep self.old shelf.old client (seat_at self.old.seats client).call result self.new shelf.new }
        ensures sure { IsSure self.old client (seat_at self.old.seats client).call self.new }
    {
        let mut told = Stepped::none();
        self.step_into(alloc, client, shelf, &mut told);
        told
    }

    /// The same, for a caller that has a place for what is told.
    #[inline(always)]
    pub fn step_into<H: ExtentHooks>(
        &mut self,
        alloc: Global,
        client: u32,
        shelf: &mut HookShelf<H>,
        told: &mut Stepped,
    )
        requires { client < 32 }
        ensures step { IsStep self.old shelf.old client (seat_at self.old.seats client).call told.new self.new shelf.new }
        ensures sure { IsSure self.old client (seat_at self.old.seats client).call self.new }
    {
        self.stands();
        let mut need = Need::Starved;
        if !self.put_need(alloc, client, &mut need) {
            told.go_on(Did::Idle);
            return;
        }
        match &mut need {
            Need::Ask { arena, ask } => self.ask(alloc, client, *arena, *ask, shelf, told),
            Need::Turn(turn) => self.turn_for(alloc, turn, told),
            Need::Starved => self.starve(alloc, client, told),
            Need::Done(_) => unreachable!(),
        }
    }
}
