//! How a call changes what its client has.

ghost use Rattle.std.specs.Prelude.{◌≡◌, ◌<◌, ◌≤◌, true, length, take, drop};
ghost use Rattle.call_plan.specs.Calls.{HasRoomToHold, places};
ghost use Rattle.call_plan.specs.Desks.{address_behind, desk_closed, desk_ended, desk_fed, desk_told, desk_turned, landed_behind, plain, ready, sharing, slot_of, swaps, switched, taking_place};
ghost use Rattle.call_plan.specs.Items.{lent};
ghost use Rattle.call_plan.specs.Points.{IsSizedNext, IsSizedTurn};
ghost use Rattle.call_plan.specs.Stages.{Ends};

use crate::{
    Answered, AskPoint, Change, Desk, Given, Item, NextStep, Request, Stage, TurnPoint, Wish,
};
use size_classes::size_of;
use space_model::Reply;
use thread_cache::Held;

/// The regions of a class at these addresses are cached, the first one last.
fn share(desk: &mut Desk, arena: u32, class: u8, addrs: &[u64])
    ensures facts { desk.new.facts ≡ sharing arena class addrs.now desk.old.facts }
    ensures room { desk.old.room ≤ desk.new.room }
{
    for place in (0..addrs.len()).rev() {
        let addr = addrs[place];
        desk.cache(Held { addr, class, arena });
    }
}

/// The address of a region of a class at a place behind the first one.
#[tactic(auto, using(crate::proofs::Shares::limit_once))]
fn address_behind(first: u64, class: u8, place: u32) -> u64
    requires { class < 121 }
    ensures { result ≡ address_behind first class place }
{
    first.saturating_add(size_of(class).saturating_mul(u64::from(place)))
}

/// The regions that landed are cached but for the first one, the lowest last.
#[tactic(auto, using(crate::proofs::Shares::landings))]
fn share_landed(desk: &mut Desk, arena: u32, class: u8, first: u64, count: u32)
    requires { class < 121 }
    ensures facts { desk.new.facts ≡ sharing arena class (landed_behind first class count) desk.old.facts }
    ensures room { desk.old.room ≤ desk.new.room }
{
    for place in (1..count).rev() {
        let addr = address_behind(first, class, place);
        desk.cache(Held { addr, class, arena });
    }
}

impl Wish {
    /// A region that was got takes the place of the one in hand, if that is wanted.
    fn take_place(&self, desk: &mut Desk, arena: u32, addr: u64)
        ensures facts { desk.new.facts ≡ taking_place self.now (record { addr = addr; class = self.now.class; arena = arena }) desk.old.facts }
        ensures room { desk.new.room ≡ desk.old.room }
    {
        if self.moves {
            let class = self.class;
            desk.gain(Held { addr, class, arena });
        }
    }
}

impl AskPoint {
    /// What the client has after the reply to the turn that took its answer in.
    fn tell(&self, desk: &mut Desk, reply: &Reply)
        ensures facts { desk.new.facts ≡ desk_told desk.old.facts self.now reply.now }
        ensures room { desk.new.room ≡ desk.old.room }
    {
        match (self, reply) {
            (AskPoint::Cutting(resize), Reply::Cut(_))
            | (AskPoint::Joining(resize, _), Reply::Landed { .. }) => desk.reclass(resize.class),
            _ => (),
        }
    }
}

impl TurnPoint {
    /// What the client has after the reply to the turn.
    fn tell(&self, desk: &mut Desk, arena: u32, reply: &Reply)
        requires { IsSizedTurn self.now }
        ensures facts { desk.new.facts ≡ desk_turned desk.old.facts arena self.now reply.now }
        ensures room { desk.old.room ≤ desk.new.room }
    {
        match (self, reply) {
            (TurnPoint::Filling(wish, _), Reply::Regions(addrs)) => {
                if let Some((addr, others)) = addrs.as_slice().split_first() {
                    share(desk, arena, wish.class, others);
                    wish.take_place(desk, arena, *addr);
                }
            }
            (TurnPoint::Landing(wish, _), Reply::Landed { first, count }) => {
                share_landed(desk, arena, wish.class, *first, *count);
                wish.take_place(desk, arena, *first);
            }
            (TurnPoint::Giving(_), Reply::Next(_)) => desk.gave(arena),
            (TurnPoint::Changing(_, Change::Leaves(_)), Reply::Noted) => desk.bind(arena),
            (TurnPoint::Resetting(_), Reply::Noted | Reply::Purge { .. })
            | (TurnPoint::Destroying(_), Reply::Noted) => desk.discard(arena),
            (TurnPoint::Publishing(_), Reply::Noted) => desk.let_go(),
            (TurnPoint::Owning { addr, frees, .. }, Reply::Owned { class }) if *frees => {
                let (addr, class) = (*addr, *class);
                desk.free(Held { addr, class, arena });
            }
            _ => (),
        }
    }
}

impl Request {
    /// The explicit cache that it uses, by its identifier.
    fn slot(&self) -> Option<u32>
        ensures { result ≡ slot_of self.now }
    {
        match *self {
            Request::MallocIn { slot, .. }
            | Request::FreeIn { slot, .. }
            | Request::FlushCache { slot }
            | Request::EndCache { slot } => Some(slot),
            _ => None,
        }
    }

    /// The same of the cache that stands in the place of the client's own one.
    pub(crate) fn plain(&self) -> Request
        ensures { result ≡ plain self.now }
    {
        match *self {
            Request::MallocIn { size, .. } => Request::Malloc { size },
            Request::FreeIn { addr, .. } => Request::Free { addr },
            Request::FlushCache { .. } | Request::EndCache { .. } => Request::Flush,
            _ => *self,
        }
    }

    /// Swaps the explicit cache that it uses with the client's own one, and tells whether it could.
    pub(crate) fn swap(&self, desk: &mut Desk) -> bool
        ensures told { result ≡ swaps self.now desk.old.facts }
        ensures facts { desk.new.facts ≡ ready self.now desk.old.facts }
        ensures room { desk.new.room ≡ desk.old.room }
    {
        match self.slot() {
            Some(slot) => desk.swap(slot, matches!(self, Request::EndCache { .. })),
            None => false,
        }
    }

    /// A cache that was to be on or off is so.
    fn switch(&self, desk: &mut Desk)
        ensures { desk.new.facts ≡ switched self.now desk.old.facts }
    {
        if let Request::Cache(on) = *self {
            desk.switch(on);
        }
    }

    /// What the client has once its call has ended.
    #[inline(never)]
    fn end(&self, desk: &mut Desk, arena: u32, answer: &Answered)
        requires { places desk.old.facts (Ends answer.now) ≤ desk.old.room }
        ensures { desk.new.facts ≡ desk_ended self.now arena answer.now desk.old.facts }
    {
        match *answer {
            Answered::Ok(Given::Region { addr, class }) if desk.gained().is_none() => {
                desk.hold(Held { addr, class, arena });
            }
            Answered::Ok(Given::Region { .. }) => {
                desk.keep_hand();
                desk.hold_gained();
            }
            Answered::Ok(Given::Done) => {
                desk.keep_hand();
                desk.hold_gained();
                self.switch(desk);
            }
            _ => {
                if desk.hand().is_some() {
                    desk.hold_hand();
                }
                desk.hold_gained();
            }
        }
    }
}

impl Stage {
    /// What the client has after an item.
    pub(crate) fn tell(&self, desk: &mut Desk, item: Item<'_>)
        requires { IsSizedNext self.now.next }
        ensures facts { desk.new.facts ≡ desk_fed desk.old.facts self.now.arena self.now.next (lent item.entry) }
        ensures room { desk.old.room ≤ desk.new.room }
    {
        match (&self.step, &self.heard, item) {
            (NextStep::Turns(point), _, Item::Replied(reply)) => point.tell(
                desk, self.arena, reply,
            ),
            (NextStep::Asks(point), Some(_), Item::Replied(reply)) => point.tell(desk, reply),
            _ => (),
        }
    }

    /// What the client has where its call stands now.
    #[inline(always)]
    pub(crate) fn close(&self, request: &Request, desk: &mut Desk)
        requires { places desk.old.facts self.now.next ≤ desk.old.room }
        ensures facts { desk.new.facts ≡ desk_closed request.now self.now.arena self.now.next desk.old.facts }
        ensures room { HasRoomToHold desk.new.facts desk.new.room self.now.next }
    {
        if let NextStep::Ends(answer) = &self.step {
            request.end(desk, self.arena, answer);
            desk.swap_back(matches!(answer, Answered::Ok(Given::Done)));
        }
    }
}
