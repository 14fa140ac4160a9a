//! The automaton of a call.

ghost use Rattle.std.specs.Prelude.{◌≡◌, List, ◌∷◌, None, Some, IfNone, IfOk, IfSome, IsOk, OnOk, OnErr, ◌≤◌, ◌||◌, true, false, is_some, length};
ghost use Rattle.call_plan.specs.Calls.{HasRoomToHold, IsCall, may_hold, moment_at, named_call, started, takes_memory};
ghost use Rattle.call_plan.specs.Desks.{flushes};
ghost use Rattle.call_plan.specs.Items.{Item as Fed, lent};
ghost use Rattle.call_plan.specs.Points.{IsSizedNext, IsSizedTurn};
ghost use Rattle.call_plan.specs.Needs.{Goes, GivesNone, HasFewAddresses, IsFed, IsFewAddresses, IsGiving, IsPointOrEnd, NeedIs, named};
ghost use Rattle.call_plan.specs.Reads.{aimed, ended_by, heard_next, taken_next};
ghost use Rattle.call_plan.specs.Runs.{after, begin, desk_led, run, settle, stage, step_next};
ghost use Rattle.call_plan.specs.Table.{op_at};
ghost use Rattle.call_plan.specs.Stages.{Go, NextBatch, Turns, hears_next, led};
ghost use Rattle.call_plan.specs.Clients.{DeskFacts};

use crate::{Answered, Desk, Given, Item, Need, NextStep, Request, Turn, TurnPoint};
use hook_api::Asked;
use size_classes::{Addrs, class_pages};
use space_model::{Addresses, Ask, Op};
use std::alloc::{AllocError as NoMemory, Global};
use std::marker::Model;
use std::mem;

/// Where a call stands: the arena whose turn or ask it waits for, and the place, or its answer. What a hook answered stands
/// beside the place until a turn takes it in. Contracts see the arena, and the point or the answer.
#[derive(Drop)]
pub struct Stage {
    pub(crate) arena: u32,
    pub(crate) step: NextStep,
    pub(crate) heard: Option<Asked>,
}

impl Model for Stage {
    ghost use Rattle.call_plan.specs.Stages.{IsHeardAt, Stage as StageFacts, led};

    ghost Value = { StageFacts };

    ghost view = { λ s. record { arena = s.arena; next = led s.step s.heard } };

    ghost invariant = { λ s. IsHeardAt s.step s.heard };
}

/// The same addresses again.
fn copied(alloc: Global, addrs: &Addresses) -> Result<Addresses, NoMemory>
    ensures copy { IfOk result (λ copy. copy ≡ addrs.now) }
    ensures few { length addrs.now ≤ 2 → IsOk result }
{
    let mut list = Addrs::new(alloc);
    list.reserve(addrs.as_slice().len() as u64)?;
    for addr in addrs.as_slice() {
        list.push(*addr);
    }
    Ok(Addresses::new(list))
}

/// A turn of an arena.
pub(crate) fn turn(arena: u32, client: u32, op: Op) -> Need
    ensures { result ≡ Need.Turn (record { arena = arena; client = client; op = op }) }
{
    Need::Turn(Turn { arena, client, op })
}

/// An ask of an arena's box of hooks.
pub(crate) fn ask(arena: u32, ask: Ask) -> Need
    ensures { result ≡ Need.Ask arena ask }
{
    Need::Ask { arena, ask }
}

impl TurnPoint {
    /// `need` becomes the turn of the point, written where it stands, or starved where there is no memory to name the regions
    /// that go back.
    fn put_op(&self, alloc: Global, arena: u32, client: u32, need: &mut Need)
        requires { IsSizedTurn self.now }
        ensures need { NeedIs client arena (Go (Turns self.now)) need.new }
        ensures few { HasFewAddresses (Go (Turns self.now)) → IsFed need.new }
    {
        match self {
            TurnPoint::Giving(addrs) => match copied(alloc, addrs) {
                Ok(addrs) => *need = turn(arena, client, Op::Back { addrs }),
                Err(_) => *need = Need::Starved,
            },
            TurnPoint::Filling(wish, count) => {
                let (class, count) = (wish.class, *count);
                *need = turn(arena, client, Op::Fill { class, count });
            }
            TurnPoint::Looking(wish) => {
                let (pages, align) = (wish.pages, wish.align);
                *need = turn(arena, client, Op::Look { pages, align });
            }
            TurnPoint::Landing(wish, span) => {
                let (span, class, count) = (*span, wish.class, wish.count);
                *need = turn(arena, client, Op::Land { span, class, count });
            }
            TurnPoint::Finding { own, tries, .. } => {
                let (span, tries) = (*own, *tries);
                *need = turn(arena, client, Op::PutLook { span, tries });
            }
            TurnPoint::Taking(visit, _) => {
                let (rest, keep) = (visit.rest, visit.keep);
                *need = turn(arena, client, Op::PurgeTake { rest, keep });
            }
            TurnPoint::Offering(span, _) => {
                *need = turn(arena, client, Op::Offer { span: *span });
            }
            TurnPoint::Advancing(now) => {
                *need = turn(arena, client, Op::Advance { now: *now });
            }
            TurnPoint::Changing(setting, _) | TurnPoint::Making(_, setting) => {
                *need = turn(arena, client, Op::Set(*setting));
            }
            TurnPoint::Resetting(cached) => {
                *need = turn(arena, client, Op::Reset { cached: *cached });
            }
            TurnPoint::Destroying(cached) => {
                *need = turn(arena, client, Op::Destroy { cached: *cached });
            }
            TurnPoint::Dooming => {
                *need = turn(arena, client, Op::DestroyTake);
            }
            TurnPoint::Publishing(addr) => {
                *need = turn(arena, client, Op::Publish { addr: *addr });
            }
            TurnPoint::Owning { addr, .. } => {
                *need = turn(arena, client, Op::TakeOver { addr: *addr });
            }
            TurnPoint::Widening(resize) => {
                let (addr, pages) = (resize.addr, class_pages(resize.class));
                *need = turn(arena, client, Op::Widen { addr, pages });
            }
            TurnPoint::Narrowing(resize) => {
                let (addr, class) = (resize.addr, resize.class);
                *need = turn(arena, client, Op::Trim { addr, class });
            }
        }
    }
}

impl Request {
    /// Whether all cached regions go back.
    fn flushes(&self) -> bool
        ensures { result ≡ flushes self.now }
    {
        match *self {
            Request::Flush => true,
            Request::Cache(on) => !on,
            Request::FlushCache { .. } | Request::EndCache { .. } => true,
            _ => false,
        }
    }

    /// Whether its client may come to hold a region by it.
    fn may_hold(&self) -> bool
        ensures { result ≡ may_hold self.now }
    {
        match *self {
            Request::Malloc { .. }
            | Request::Memalign { .. }
            | Request::Free { .. }
            | Request::FreeForeign { .. }
            | Request::Publish { .. }
            | Request::Take { .. }
            | Request::Realloc { .. }
            | Request::MallocIn { .. }
            | Request::FreeIn { .. } => true,
            _ => false,
        }
    }

    /// Makes room for the regions that its client may come to hold by it, or has in hand or gained. Takes no memory where there are
    /// none.
    fn make_room(&self, desk: &mut Desk) -> Result<(), NoMemory>
        ensures facts { desk.new.facts ≡ desk.old.facts }
        ensures room { OnOk result ((may_hold self.now || is_some desk.old.facts.hand || is_some desk.old.facts.gained) ≡ true → 2 ≤ desk.new.room) }
        ensures spare { (may_hold self.now || is_some desk.old.facts.hand || is_some desk.old.facts.gained) ≡ false → IsOk result }
    {
        if self.may_hold() || desk.hand().is_some() || desk.gained().is_some() {
            desk.reserve()
        } else {
            Ok(())
        }
    }
}

impl Stage {
    /// It stands nowhere yet.
    pub(crate) fn new() -> Stage
        ensures { result ≡ stage 0 (led NextStep.Nowhere None) }
    {
        Stage {
            arena: 0,
            step: NextStep::Nowhere,
            heard: None,
        }
    }

    /// It takes the next step in the arena with this index.
    pub(crate) fn stand(&mut self, arena: u32, step: NextStep)
        ensures { self.new ≡ stage arena (led step None) }
    {
        self.arena = arena;
        self.go(step);
    }

    /// It stands at the next batch of regions that go back, which its turn names, or at the end. Takes no memory.
    pub(crate) fn go_on(&mut self, alloc: Global, request: &Request, desk: &Desk)
        ensures stage { named request.now desk.now.facts self.new ≡ settle request.now desk.now.facts self.old.arena NextBatch }
        ensures sized { IsSizedNext self.new.next }
    {
        match desk.next_arena(desk.hand(), request.flushes()) {
            Some(arena) => {
                let unnamed = Addresses::new(Addrs::new(alloc));
                self.stand(arena, TurnPoint::Giving(unnamed).next());
            }
            None => self.all_done(request.gives(desk)),
        }
    }

    /// It takes the next step in its arena.
    pub(crate) fn go(&mut self, step: NextStep)
        ensures { self.new ≡ stage self.old.arena (led step None) }
    {
        if self.heard.is_some() {
            self.heard = None;
        }
        self.step = step;
    }

    /// Where a step led to no place yet, it stands at the one that this comes to by what the client has then. Takes no memory: the
    /// regions that go back are named at their turn.
    fn settle(&mut self, alloc: Global, request: &Request, desk: &mut Desk)
        requires none { GivesNone self.old.next }
        requires sized { IsSizedNext self.old.next }
        ensures stage { named request.now desk.new.facts self.new ≡ settle request.now desk.old.facts self.old.arena self.old.next }
        ensures facts { desk.new.facts ≡ desk_led desk.old.facts self.old.next }
        ensures room { desk.new.room ≡ desk.old.room }
        ensures sized { IsSizedNext self.new.next }
    {
        match self.step {
            NextStep::NextBatch => self.go_on(alloc, request, desk),
            NextStep::Move(class) => self.move_to(alloc, request, class, desk),
            NextStep::NotLive => self.go(NextStep::Ends(Answered::NoArena(self.arena))),
            NextStep::InArena(..) => {
                let step = mem::replace(&mut self.step, NextStep::Nowhere);
                if let NextStep::InArena(arena, point) = step {
                    self.stand(arena, NextStep::Turns(point));
                }
            }
            _ => (),
        }
    }

    /// The turn that it stands at names the regions that go back, where it names none yet. Where memory is wanting nothing changes.
    fn name(&mut self, alloc: Global, request: &Request, desk: &Desk) -> Result<(), NoMemory>
        ensures named { OnOk result (self.new ≡ named request.now desk.now.facts self.old) }
        ensures err { OnErr result (self.new ≡ self.old) }
        ensures giving { OnErr result (IsGiving self.old.next) }
        ensures few { IsFewAddresses desk.now.facts self.old.next → IsOk result × HasFewAddresses self.new.next }
    {
        if let NextStep::Turns(TurnPoint::Giving(addrs)) = &self.step {
            if addrs.as_slice().is_empty() {
                let addrs = desk.addrs_going(alloc, desk.hand(), request.flushes(), self.arena)?;
                self.go(TurnPoint::Giving(Addresses::new(addrs)).next());
            }
        }
        Ok(())
    }

    /// The answer to its ask stands beside the place, if the item is that.
    fn hear(&mut self, item: Item<'_>) -> bool
        ensures hears { result ≡ hears_next self.old.next (lent item.entry) }
        ensures heard { (request : Request) (desk : DeskFacts) → result ≡ true
            → named request desk self.new ≡ settle request desk self.old.arena (step_next self.old.next (lent item.entry)) }
        ensures sized { IsSizedNext self.old.next → IsSizedNext self.new.next }
        ensures other { result ≡ false → self.new ≡ self.old }
    {
        match (&self.step, &self.heard, item) {
            (NextStep::Asks(_), None, Item::Told(asked)) => {
                self.heard = Some(*asked);
                true
            }
            _ => false,
        }
    }

    /// It stands where an item leads that isn't the answer to an ask.
    fn step(&mut self, item: Item<'_>)
        requires sized { IsSizedNext self.old.next }
        requires item { hears_next self.old.next (lent item) ≡ false }
        ensures { self.new ≡ stage self.old.arena (step_next self.old.next (lent item.entry)) }
    {
        match (&self.step, &self.heard, item) {
            (NextStep::Turns(_), _, Item::Replied(reply)) => self.step.turned(reply),
            (NextStep::Turns(_), _, Item::Starved) => self.step.starved(),
            (NextStep::Asks(point), Some(asked), Item::Replied(reply)) => {
                let point = *point;
                point.told(asked, reply, &mut self.step);
                self.heard = None;
            }
            (NextStep::Tells(..), _, Item::Told(_)) => self.step = TurnPoint::Dooming.next(),
            _ => self.go(NextStep::Nowhere),
        }
    }

    /// Its answer, where the call has ended.
    fn answer(&self) -> Option<&Answered>
        ensures some { IfSome result (λ answer. ended_by self.now.next ≡ Some answer.now) }
        ensures none { IfNone result (ended_by self.now.next ≡ None) }
    {
        match &self.step {
            NextStep::Ends(answer) => Some(answer),
            _ => None,
        }
    }

    /// `need` becomes what a client needs there, or the answer of its call. It is starved only where regions go back.
    #[inline(always)]
    fn put_needed(&self, alloc: Global, client: u32, need: &mut Need)
        requires place { IsPointOrEnd self.now.next }
        requires sized { IsSizedNext self.now.next }
        ensures need { NeedIs client self.now.arena self.now.next need.new }
        ensures few { HasFewAddresses self.now.next → IsFed need.new }
    {
        match (&self.step, &self.heard) {
            (NextStep::Turns(point), _) => point.put_op(alloc, self.arena, client, need),
            (NextStep::Asks(point), None) => point.put_ask(self.arena, need),
            (NextStep::Asks(point), Some(asked)) => point.put_done(asked, self.arena, client, need),
            (NextStep::Tells(span, committed), _) => {
                let (span, committed) = (*span, *committed);
                *need = ask(self.arena, Ask::Destroy { span, committed });
            }
            (NextStep::Ends(answer), _) => *need = Need::Done(*answer),
            _ => unreachable!(),
        }
    }

    /// `need` becomes what a client needs there, with the regions named that go back, or the answer of its call. Where memory is
    /// wanting to name them it is starved.
    #[inline(always)]
    pub(crate) fn put_need(
        &mut self,
        alloc: Global,
        request: &Request,
        desk: &Desk,
        client: u32,
        need: &mut Need,
    )
        requires place { IsPointOrEnd self.old.next }
        requires sized { IsSizedNext self.old.next }
        ensures need { NeedIs client self.old.arena (named request.now desk.now.facts self.old).next need.new }
        ensures few { IsFewAddresses desk.now.facts self.old.next → IsFed need.new }
        ensures named { named request.now desk.now.facts self.new ≡ named request.now desk.now.facts self.old }
        ensures place { IsPointOrEnd self.new.next }
        ensures sized { IsSizedNext self.new.next }
    {
        match self.name(alloc, request, desk) {
            Ok(()) => self.put_needed(alloc, client, need),
            Err(_) => *need = Need::Starved,
        }
    }

    /// It takes in an item, by what the client has after it.
    pub(crate) fn feed(&mut self, alloc: Global, request: &Request, desk: &mut Desk, item: Item<'_>)
        requires { IsSizedNext self.old.next }
        ensures stage { named request.now desk.new.facts self.new ≡ settle request.now desk.old.facts self.old.arena (step_next self.old.next (lent item.entry)) }
        ensures facts { desk.new.facts ≡ desk_led desk.old.facts (step_next self.old.next (lent item.entry)) }
        ensures room { desk.new.room ≡ desk.old.room }
        ensures sized { IsSizedNext self.new.next }
    {
        if self.hear(item) {
            return;
        }
        self.step(item);
        self.settle(alloc, request, desk);
    }
}

/// A call of a client: one automaton for all requests. Contracts see its client, what that wants, and where it stands.
#[derive(Drop)]
pub struct Call {
    client: u32,
    request: Request,
    stage: Stage,
}

impl Model for Call {
    ghost use Rattle.call_plan.specs.Calls.{CallFacts, IsCall};

    ghost Value = { CallFacts };

    ghost view = { λ c. record { client = c.client; request = c.request; stage = c.stage } };

    ghost invariant = { λ c. IsCall c.stage };

    ghost inverse = { λ f. record { client = f.client; request = f.request; stage = f.stage } };
}

impl Call {
    /// A call in the arena with this index, at this next step.
    pub(crate) fn at(client: u32, request: Request, arena: u32, step: NextStep) -> Call
        requires { IsCall (stage arena (led step None)) }
        ensures { result ≡ record { client = client; request = request; stage = stage arena (led step None) } }
    {
        let mut stage = Stage::new();
        stage.stand(arena, step);
        Call {
            client,
            request,
            stage,
        }
    }

    /// A call begins that carries out a request of a client. It stands in the place where it is open, and else gives its answer.
    /// The desk is from now on as the call leaves it, with room for the region that it may come to hold. `NoMemory` where there
    /// is none for that, or to name several regions that go back first: the client has what it had. A request by which no region
    /// is got, given away or flushed takes no memory, where none is in hand.
    pub fn start(
        alloc: Global,
        place: &mut Option<Call>,
        client: u32,
        desk: &mut Desk,
        request: &Request,
    ) -> Result<Option<Answered>, NoMemory>
        ensures place { OnOk result (place.new ≡ started client (begin request.now desk.old.facts) place.old (begin request.now desk.old.facts).stage.next) }
        ensures desk { OnOk result (desk.new.facts ≡ (begin request.now desk.old.facts).desk) }
        ensures answer { IfOk result (λ ended. ended ≡ ended_by (begin request.now desk.old.facts).stage.next) }
        ensures room { OnOk result (HasRoomToHold desk.new.facts desk.new.room (begin request.now desk.old.facts).stage.next) }
        ensures spare { takes_memory request.now desk.old.facts ≡ false → IsOk result }
        ensures err { OnErr result (desk.new.facts ≡ desk.old.facts) }
        ensures free { OnErr result (place.new ≡ place.old) }
    {
        request.make_room(desk)?;
        let mut stage = Stage::new();
        let request = stage.begin_meant(alloc, request, desk)?;
        stage.close(&request, desk);
        if let Some(answer) = stage.answer() {
            return Ok(Some(*answer));
        }
        let call = Call {
            client,
            request,
            stage,
        };
        *place = Some(call);
        Ok(None)
    }

    /// `need` becomes what the call needs next, or its answer, with its client's desk, which is as the call left it but for held
    /// regions that others were given since. The regions that go back next are named by it. Where memory is wanting for that it is
    /// starved, and stands as it did: that turn then finds no memory.
    #[inline(always)]
    pub fn put_need(&mut self, alloc: Global, desk: &Desk, need: &mut Need)
        ensures need { NeedIs self.old.client self.old.stage.arena (named_call desk.now.facts self.old).stage.next need.new }
        ensures few { IsFewAddresses desk.now.facts self.old.stage.next → IsFed need.new }
        ensures named { named_call desk.now.facts self.new ≡ named_call desk.now.facts self.old }
    {
        self.stage
            .put_need(alloc, &self.request, desk, self.client, need);
    }

    /// The ask whose answer the turn carries that it needs next, where it carries one.
    pub fn heard(&self) -> &Option<Asked>
        ensures { result.now ≡ heard_next self.now.stage.next }
    {
        &self.stage.heard
    }

    /// Its answer, where it has ended.
    pub fn answer(&self) -> Option<&Answered>
        ensures some { IfSome result (λ answer. ended_by self.now.stage.next ≡ Some answer.now) }
        ensures none { IfNone result (ended_by self.now.stage.next ≡ None) }
        ensures place { IsPointOrEnd self.now.stage.next }
    {
        self.stage.answer()
    }

    /// The address of a region of another client, where the call takes that over next to free it, and it wasn't published for
    /// the call yet.
    pub fn takes(&self) -> Option<u64>
        ensures { result ≡ taken_next self.now.stage.next }
    {
        match &self.stage.step {
            NextStep::Turns(
                TurnPoint::Owning {
                    addr,
                    frees: true,
                    published: false,
                },
            ) => Some(*addr),
            _ => None,
        }
    }

    /// Takes that region over in the arena with this index, in which it is published.
    pub fn aim(&mut self, arena: u32)
        ensures { self.new ≡ aimed self.old arena }
    {
        self.stage.arena = arena;
        if let Some(addr) = self.takes() {
            let point = TurnPoint::Owning {
                addr,
                frees: true,
                published: true,
            };
            self.stage.step = NextStep::Turns(point);
        }
    }

    /// Takes in what came of its need, with its client's desk, which is as the call left it but for held regions that others
    /// were given since. The item is one that could come there.
    ///
    /// The run of the call goes on as from here. Takes no memory: the regions that go back next are named at their turn.
    pub fn next(&mut self, alloc: Global, desk: &mut Desk, item: Item<'_>)
        requires goes { Goes (after (moment_at self.old desk.old.facts) (lent item)).stage.next }
        requires room { HasRoomToHold desk.old.facts desk.old.room self.old.stage.next }
        ensures client { self.new.client ≡ self.old.client }
        ensures moment { moment_at self.new desk.new.facts ≡ after (moment_at self.old desk.old.facts) (lent item.entry) }
        ensures reads { (items : List Fed) → run (moment_at self.old desk.old.facts) (lent item.entry ∷ items) ≡ run (moment_at self.new desk.new.facts) items }
        ensures room { HasRoomToHold desk.new.facts desk.new.room self.new.stage.next }
    {
        self.stage.tell(desk, item);
        self.stage.feed(alloc, &self.request, desk, item);
        self.stage.close(&self.request, desk);
    }
}
