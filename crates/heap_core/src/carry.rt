//! Calls that are carried out where they begin, without a place in which they stand, as far as that goes by turns alone.

ghost use Rattle.std.specs.Prelude.{◌≡◌, ◌<◌, ◌≤◌, [], ◌∷◌, None, false, true, IfSome, IsOk, IsSomeAnd, OnErr, OnOk};
ghost use Rattle.call_plan.specs.Soon.{Gets, Gives, replied_first, took_whole};
ghost use Rattle.size_classes.specs.Classes.{pages_at};
ghost use Rattle.heap_core.specs.Words.{Goes, HasRoomToHold, IsInRange, Replied, Shelf, after, begin, held_at, moment_at, takes_memory};
ghost use Rattle.heap_core.specs.Carrying.{CameOf, CarriedOut, LeadsTo, Shows, look_of};
ghost use Rattle.heap_core.specs.Seats.{asked_for, seat_at};
ghost use Rattle.heap_core.specs.Sitting.{Comes};

use crate::Arenas;
use crate::heaps::Heap;
use crate::logs::AskLog;
use crate::seats::{Client, settle};
use crate::steps::make_turn;
use call_plan::{Answered, Call, Desk, Given, Item, Request, Turn, whole_fit};
use size_classes::{Addrs, SMALL_CLASSES, class_pages};
use space_model::{Addresses, Op, Reply, Span};
use std::alloc::{AllocError as NoMemory, Global};
use thread_cache::Held;

/// A turn that gives one region back.
#[inline(always)]
fn back(alloc: Global, client: u32, region: Held) -> Turn
    ensures { result ≡ record { arena = region.arena; client = client; op = Op.Back (region.addr ∷ []) } }
{
    let mut addrs = Addrs::new(alloc);
    addrs.push(region.addr);
    let addrs = Addresses::new(addrs);
    Turn {
        arena: region.arena,
        client,
        op: Op::Back { addrs },
    }
}

/// A turn that looks for one region of a class in the slabs, or for an extent for it.
#[inline(always)]
fn look(arena: u32, client: u32, class: u8) -> Turn
    requires { class < 121 }
    ensures { result ≡ record { arena = arena; client = client; op = look_of class } }
{
    let op = if class < SMALL_CLASSES {
        Op::Fill { class, count: 1 }
    } else {
        let pages = class_pages(class);
        Op::Look { pages, align: 1 }
    };
    Turn { arena, client, op }
}

/// The call in a place takes in the reply to its turn, and stands there while it is open. Its answer is told, once it has ended.
#[inline(never)]
fn go_on(
    alloc: Global,
    desk: &mut Desk,
    place: &mut Option<Call>,
    reply: &Reply,
    ended: &mut Option<Answered>,
)
    requires goes { IsSomeAnd place.old (λ call. Goes (after (moment_at call desk.old.facts) (Replied reply.now)).stage.next) }
    requires room { IfSome place.old (λ call. HasRoomToHold desk.old.facts desk.old.room call.stage.next) }
    ensures { IfSome place.old (λ call. Shows call.client (after (moment_at call desk.old.facts) (Replied reply.now)) desk.new place.new ended.new) }
{
    let Some(call) = place else { unreachable!() };
    call.next(alloc, desk, Item::Replied(reply));
    settle(place, ended);
}

/// What a malloc of a small class comes to by the reply to the turn that looked for its region.
#[inline(always)]
fn end_fill(
    alloc: Global,
    client: u32,
    size: u64,
    class: u8,
    desk: &mut Desk,
    place: &mut Option<Call>,
    reply: &Reply,
    ended: &mut Option<Answered>,
)
    requires gets { Gets size desk.old.facts class }
    requires small { class < 36 }
    requires room { 2 ≤ desk.old.room }
    requires free { place.old ≡ None }
    requires goes { Goes (replied_first (Request.Malloc size) desk.old.facts reply.now).stage.next }
    ensures { Shows client (replied_first (Request.Malloc size) desk.old.facts reply.now) desk.new place.new ended.new }
{
    match desk.filled(size, class, reply) {
        Some(addr) => *ended = Some(Answered::Ok(Given::Region { addr, class })),
        None => {
            *place = Some(Call::of_malloc(client, size, class, desk));
            go_on(alloc, desk, place, reply, ended);
        }
    }
}

/// What a malloc of a large class comes to by the reply to the turn by which its region was to land in an extent.
#[inline(always)]
fn end_landing(
    alloc: Global,
    client: u32,
    size: u64,
    class: u8,
    span: Span,
    desk: &mut Desk,
    place: &mut Option<Call>,
    reply: &Reply,
    ended: &mut Option<Answered>,
)
    requires gets { Gets size desk.old.facts class }
    requires large { 36 ≤ class }
    requires whole { span.pages ≡ pages_at class }
    requires room { 2 ≤ desk.old.room }
    requires free { place.old ≡ None }
    requires goes { Goes (after (took_whole size desk.old.facts span) (Replied reply.now)).stage.next }
    ensures { Shows client (after (took_whole size desk.old.facts span) (Replied reply.now)) desk.new place.new ended.new }
{
    match desk.landed(size, class, span, reply) {
        Some(addr) => *ended = Some(Answered::Ok(Given::Region { addr, class })),
        None => {
            *place = Some(Call::of_landing(client, size, class, span, desk));
            go_on(alloc, desk, place, reply, ended);
        }
    }
}

/// The second turn of a malloc of a large class, by which its region lands in the extent that it took as a whole at the first.
#[inline(always)]
fn land(
    alloc: Global,
    client: u32,
    size: u64,
    class: u8,
    span: Span,
    arenas: &mut Arenas,
    log: &mut AskLog,
    desk: &mut Desk,
    place: &mut Option<Call>,
    ended: &mut Option<Answered>,
)
    requires client { client < 32 }
    requires gets { Gets size desk.old.facts class }
    requires large { 36 ≤ class }
    requires whole { span.pages ≡ pages_at class }
    requires room { 2 ≤ desk.old.room }
    requires free { place.old ≡ None }
    requires sits { Comes arenas.old client (took_whole size desk.old.facts span) }
    ensures led { LeadsTo arenas.old log.old.owed client (took_whole size desk.old.facts span) arenas.new log.new.owed desk.new place.new ended.new }
    ensures asks { log.new.asks ≡ log.old.asks }
{
    let op = Op::Land {
        span,
        class,
        count: 1,
    };
    let mut turn = Turn {
        arena: desk.arena(),
        client,
        op,
    };
    let mut reply = Reply::Noted;
    arenas.are_apart();
    make_turn(arenas, log, &mut turn, &None, &mut reply).unwrap();
    end_landing(alloc, client, size, class, span, desk, place, &reply, ended);
}

/// What a malloc comes to by the reply to its first turn.
#[inline(always)]
fn end_malloc(
    alloc: Global,
    client: u32,
    size: u64,
    class: u8,
    arenas: &mut Arenas,
    log: &mut AskLog,
    desk: &mut Desk,
    place: &mut Option<Call>,
    reply: &Reply,
    ended: &mut Option<Answered>,
)
    requires client { client < 32 }
    requires gets { Gets size desk.old.facts class }
    requires room { 2 ≤ desk.old.room }
    requires free { place.old ≡ None }
    requires sits { Comes arenas.old client (replied_first (Request.Malloc size) desk.old.facts reply.now) }
    ensures led { LeadsTo arenas.old log.old.owed client (replied_first (Request.Malloc size) desk.old.facts reply.now) arenas.new log.new.owed desk.new place.new ended.new }
    ensures asks { log.new.asks ≡ log.old.asks }
{
    if class < SMALL_CLASSES {
        end_fill(alloc, client, size, class, desk, place, reply, ended);
        return;
    }
    match whole_fit(class, reply) {
        Some(span) => land(
            alloc, client, size, class, span, arenas, log, desk, place, ended,
        ),
        None => {
            *place = Some(Call::of_malloc(client, size, class, desk));
            go_on(alloc, desk, place, reply, ended);
        }
    }
}

/// What a free comes to by the reply to the turn that gave its region back.
#[inline(always)]
fn end_back(
    alloc: Global,
    client: u32,
    addr: u64,
    region: Held,
    desk: &mut Desk,
    place: &mut Option<Call>,
    reply: &Reply,
    ended: &mut Option<Answered>,
)
    requires gives { Gives addr desk.old.facts region }
    requires room { 2 ≤ desk.old.room }
    requires free { place.old ≡ None }
    requires goes { Goes (replied_first (Request.Free addr) desk.old.facts reply.now).stage.next }
    ensures { Shows client (replied_first (Request.Free addr) desk.old.facts reply.now) desk.new place.new ended.new }
{
    if desk.given(addr, region, reply) {
        *ended = Some(Answered::Ok(Given::Done));
    } else {
        *place = Some(Call::of_free(alloc, client, addr, region, desk));
        go_on(alloc, desk, place, reply, ended);
    }
}

impl Client {
    /// A malloc of so many bytes takes a region from the cache, or has turns until it wants an ask. Gives false where nothing was done.
    /// The answer is told, where the call has ended.
    #[inline(always)]
    fn malloc(
        &mut self,
        alloc: Global,
        client: u32,
        size: u64,
        arenas: &mut Arenas,
        log: &mut AskLog,
        ended: &mut Option<Answered>,
    ) -> bool
        requires client { client < 32 }
        requires rests { self.old.call ≡ None }
        requires sits { Comes arenas.old client (begin (Request.Malloc size) self.old.desk) }
        ensures came { CameOf result arenas.old log.old.owed client (Request.Malloc size) self.old arenas.new log.new.owed self.new ended.new }
        ensures asks { log.new.asks ≡ log.old.asks }
    {
        if let Some(Held { addr, class, .. }) = self.desk.malloc_cached(size) {
            *ended = Some(Answered::Ok(Given::Region { addr, class }));
            return true;
        }
        let Some(class) = self.desk.gets(size) else {
            return false;
        };
        let mut turn = look(self.desk.arena(), client, class);
        let mut reply = Reply::Noted;
        arenas.are_apart();
        if make_turn(arenas, log, &mut turn, &None, &mut reply).is_err() {
            return false;
        }
        let (desk, place) = (&mut self.desk, &mut self.call);
        end_malloc(
            alloc, client, size, class, arenas, log, desk, place, &reply, ended,
        );
        true
    }

    /// A free of a region that the client holds puts it into the cache, or gives it back by a turn. Gives false where nothing was
    /// done. The answer is told, where the call has ended.
    #[inline(always)]
    fn free(
        &mut self,
        alloc: Global,
        client: u32,
        addr: u64,
        arenas: &mut Arenas,
        log: &mut AskLog,
        ended: &mut Option<Answered>,
    ) -> bool
        requires client { client < 32 }
        requires rests { self.old.call ≡ None }
        requires sits { Comes arenas.old client (begin (Request.Free addr) self.old.desk) }
        ensures came { CameOf result arenas.old log.old.owed client (Request.Free addr) self.old arenas.new log.new.owed self.new ended.new }
        ensures asks { log.new.asks ≡ log.old.asks }
    {
        let Some(region) = self.desk.held_at(addr) else {
            return false;
        };
        if self.desk.free_cached(addr, region) {
            *ended = Some(Answered::Ok(Given::Done));
            return true;
        }
        if !self.desk.gives(addr, region) {
            return false;
        }
        let mut turn = back(alloc, client, region);
        let mut reply = Reply::Noted;
        arenas.are_apart();
        if make_turn(arenas, log, &mut turn, &None, &mut reply).is_err() {
            return false;
        }
        let (desk, place) = (&mut self.desk, &mut self.call);
        end_back(alloc, client, addr, region, desk, place, &reply, ended);
        true
    }

    /// Carries a request out, if it is a malloc or a free, as far as that goes without an ask. Gives false where nothing was done.
    #[inline(always)]
    fn carry(
        &mut self,
        alloc: Global,
        client: u32,
        request: &Request,
        arenas: &mut Arenas,
        log: &mut AskLog,
        ended: &mut Option<Answered>,
    ) -> bool
        requires client { client < 32 }
        requires rests { self.old.call ≡ None }
        requires sits { Comes arenas.old client (begin request.now self.old.desk) }
        ensures came { CameOf result arenas.old log.old.owed client request.now self.old arenas.new log.new.owed self.new ended.new }
        ensures asks { log.new.asks ≡ log.old.asks }
    {
        match *request {
            Request::Malloc { size } => self.malloc(alloc, client, size, arenas, log, ended),
            Request::Free { addr } => self.free(alloc, client, addr, arenas, log, ended),
            _ => false,
        }
    }
}

impl Heap {
    /// Carries a request of a client that has no open call out, if it is a malloc or a free of a region that the client holds, as far
    /// as that goes without an ask. Gives false where nothing was done.
    #[inline(always)]
    fn carry_own(
        &mut self,
        alloc: Global,
        client: u32,
        request: &Request,
        ended: &mut Option<Answered>,
    ) -> bool
        requires client { client < 32 }
        requires rests { (seat_at self.old.seats client).call ≡ None }
        requires range { IsInRange request.now }
        ensures carried { result ≡ true → (shelf : Shelf) → CarriedOut self.old shelf client request.now self.new shelf ended.new }
        ensures same { result ≡ false → self.new ≡ self.old }
    {
        self.stands();
        let (arenas, log) = (&mut self.arenas, &mut self.log);
        self.clients[client as usize].carry(alloc, client, request, arenas, log, ended)
    }

    /// Begins a request of a client that has no open call, and carries it out by turns, as far as that goes at once: a malloc or a
    /// free as far as it goes without an ask, and another one not at all. The answer is told, where the call has ended; else it is
    /// open. A free of a region that another client holds takes it over first. Where memory is wanting nothing changes.
    pub fn carry(
        &mut self,
        alloc: Global,
        client: u32,
        request: Request,
        ended: &mut Option<Answered>,
    ) -> Result<(), NoMemory>
        requires client { client < 32 }
        requires rests { (seat_at self.old.seats client).call ≡ None }
        requires range { IsInRange request }
        ensures carried { OnOk result ((shelf : Shelf) → CarriedOut self.old shelf client request self.new shelf ended.new) }
        ensures spare { takes_memory (asked_for self.old.seats client request) (seat_at self.old.seats client).desk ≡ false → IsOk result }
        ensures err { OnErr result (self.new ≡ self.old) }
    {
        if !self.carry_own(alloc, client, &request, ended) {
            *ended = self.start(alloc, client, request)?;
        }
        Ok(())
    }
}
