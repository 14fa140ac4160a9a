//! Calls that end where they begin, or by their first turn, without a place in which they stand.

ghost use Rattle.std.specs.Prelude.{◌≡◌, ◌<◌, ◌≤◌, true, false, Some, IfNone, IfSome};
ghost use Rattle.call_plan.specs.Calls.{HasRoomToHold, moment_at};
ghost use Rattle.call_plan.specs.Clients.{held_at};
ghost use Rattle.call_plan.specs.Items.{Replied};
ghost use Rattle.call_plan.specs.Runs.{after, begin};
ghost use Rattle.size_classes.specs.Classes.{pages_at};
ghost use Rattle.call_plan.specs.Soon.{EndsSo, Gets, Gives, IsPlain, all_is_done, gives_region, replied_first, took_whole};

use crate::begins::get;
use crate::{Call, Desk, Request, TurnPoint, Wish};
use size_classes::{Addrs, SMALL_CLASSES, class_of, class_pages};
use space_model::{Addresses, Reply, Span};
use std::alloc::Global;
use thread_cache::Held;

impl Desk {
    /// Whether nothing is in hand or gained, and no explicit cache is in the place of the client's own one.
    #[inline(always)]
    fn is_plain(&self) -> bool
        ensures { result ≡ true → IsPlain self.now.facts }
    {
        self.hand().is_none() && self.gained().is_none() && !self.is_swapped()
    }

    /// A malloc of so many bytes that takes a region from the cache: the region, which is held. `None` where nothing was done.
    #[inline(always)]
    pub fn malloc_cached(&mut self, size: u64) -> Option<Held>
        ensures some { IfSome result (λ region. EndsSo (begin (Request.Malloc size) self.old.facts) (gives_region region.addr region.class) self.new.facts) }
        ensures none { IfNone result (self.new.facts ≡ self.old.facts) }
    {
        let class = class_of(size).ok()?;
        if !self.has_hit(class) || !self.is_plain() {
            return None;
        }
        self.reserve().ok()?;
        let hit = self.take_hit(class)?;
        let region = Held { class, ..hit };
        self.hold(region);
        Some(region)
    }

    /// A free of a held region that is cached at once. Gives false where nothing was done.
    #[inline(always)]
    pub fn free_cached(&mut self, addr: u64, region: Held) -> bool
        requires { held_at addr self.old.facts ≡ Some region }
        ensures ends { result ≡ true → EndsSo (begin (Request.Free addr) self.old.facts) all_is_done self.new.facts }
        ensures same { result ≡ false → self.new ≡ self.old }
    {
        if !self.is_cached_at_once(region) || !self.is_plain() {
            return false;
        }
        self.lose(addr);
        self.cache(region);
        true
    }

    /// The class of a malloc of so many bytes that begins with a turn which looks for one region, or for an extent for it. There is
    /// room then for two more held regions.
    #[inline(always)]
    pub fn gets(&mut self, size: u64) -> Option<u8>
        ensures facts { self.new.facts ≡ self.old.facts }
        ensures gets { IfSome result (Gets size self.old.facts) }
        ensures room { IfSome result (λ _. 2 ≤ self.new.room) }
    {
        let class = class_of(size).ok()?;
        if self.has_hit(class) || self.caches() && class < SMALL_CLASSES || !self.is_plain() {
            return None;
        }
        self.reserve().ok()?;
        Some(class)
    }

    /// The address of the region with which such a malloc of a small class ends by the reply to that turn; it is held. `None` where
    /// the malloc goes on behind it: nothing was done.
    #[inline(always)]
    #[tactic(auto, using(crate::proofs::FirstTurns::filled_ends))]
    pub fn filled(&mut self, size: u64, class: u8, reply: &Reply) -> Option<u64>
        requires gets { Gets size self.old.facts class }
        requires small { class < 36 }
        requires room { 2 ≤ self.old.room }
        ensures some { IfSome result (λ addr. EndsSo (replied_first (Request.Malloc size) self.old.facts reply.now) (gives_region addr class) self.new.facts) }
        ensures none { IfNone result (self.new ≡ self.old) }
    {
        let Reply::Regions(addrs) = reply else {
            return None;
        };
        let [addr] = addrs.as_slice() else {
            return None;
        };
        let (addr, arena) = (*addr, self.arena());
        self.hold(Held { addr, class, arena });
        Some(addr)
    }

    /// The address of the region with which such a malloc of a large class ends by the reply to its second turn, where it took an
    /// extent as a whole at the first; it is held. `None` where nothing was done.
    #[inline(always)]
    #[tactic(auto, using(crate::proofs::FirstTurns::landed_ends))]
    pub fn landed(&mut self, size: u64, class: u8, span: Span, reply: &Reply) -> Option<u64>
        requires gets { Gets size self.old.facts class }
        requires large { 36 ≤ class }
        requires whole { span.pages ≡ pages_at class }
        requires room { 2 ≤ self.old.room }
        ensures some { IfSome result (λ addr. EndsSo (after (took_whole size self.old.facts span) (Replied reply.now)) (gives_region addr class) self.new.facts) }
        ensures none { IfNone result (self.new ≡ self.old) }
    {
        let Reply::Landed { first, count: 1 } = reply else {
            return None;
        };
        let (addr, arena) = (*first, self.arena());
        self.hold(Held { addr, class, arena });
        Some(addr)
    }

    /// Whether a free of a held region begins with a turn that gives it back alone. There is room then for two more held regions.
    #[inline(always)]
    pub fn gives(&mut self, addr: u64, region: Held) -> bool
        requires { held_at addr self.old.facts ≡ Some region }
        ensures facts { self.new.facts ≡ self.old.facts }
        ensures gives { result ≡ true → Gives addr self.old.facts region }
        ensures room { result ≡ true → 2 ≤ self.new.room }
    {
        !self.is_cacheable(region.class) && self.is_plain() && self.reserve().is_ok()
    }

    /// Whether such a free ends by the reply to that turn; the region is held no more. Where it goes on behind it, nothing was done.
    #[inline(always)]
    pub fn given(&mut self, addr: u64, region: Held, reply: &Reply) -> bool
        requires { Gives addr self.old.facts region }
        ensures ends { result ≡ true → EndsSo (replied_first (Request.Free addr) self.old.facts reply.now) all_is_done self.new.facts }
        ensures same { result ≡ false → self.new ≡ self.old }
    {
        if !matches!(reply, Reply::Next(None)) {
            return false;
        }
        self.lose(addr);
        true
    }
}

/// The extent that a look for one of this class took as a whole, committed.
#[inline(always)]
pub fn whole_fit(class: u8, reply: &Reply) -> Option<Span>
    requires { class < 121 }
    ensures took { IfSome result (λ span. reply.now ≡ Reply.Took span true 0) }
    ensures whole { IfSome result (λ span. span.pages ≡ pages_at class) }
{
    match reply {
        Reply::Took {
            span,
            committed: true,
            skip: 0,
        } if span.pages == class_pages(class) => Some(*span),
        _ => None,
    }
}

impl Call {
    /// The call of a malloc that begins with a turn which looks for one region of a class, or for an extent for it.
    #[inline(never)]
    #[tactic(auto, using(crate::proofs::FirstTurns::gets_first))]
    pub fn of_malloc(client: u32, size: u64, class: u8, desk: &mut Desk) -> Call
        requires gets { Gets size desk.old.facts class }
        requires room { 2 ≤ desk.old.room }
        ensures client { result.client ≡ client }
        ensures moment { moment_at result desk.new.facts ≡ begin (Request.Malloc size) desk.old.facts }
        ensures room { HasRoomToHold desk.new.facts desk.new.room result.stage.next }
    {
        let request = Request::Malloc { size };
        Call::at(client, request, desk.arena(), get(false, class, 1, 1))
    }

    /// The call of such a malloc behind the turn that took an extent as a whole.
    #[inline(never)]
    #[tactic(auto, using(crate::proofs::FirstTurns::took_then))]
    pub fn of_landing(client: u32, size: u64, class: u8, span: Span, desk: &mut Desk) -> Call
        requires gets { Gets size desk.old.facts class }
        requires large { 36 ≤ class }
        requires whole { span.pages ≡ pages_at class }
        requires room { 2 ≤ desk.old.room }
        ensures client { result.client ≡ client }
        ensures moment { moment_at result desk.new.facts ≡ took_whole size desk.old.facts span }
        ensures room { HasRoomToHold desk.new.facts desk.new.room result.stage.next }
    {
        let request = Request::Malloc { size };
        let wish = Wish::of_class(false, class, 1, 1);
        Call::at(
            client,
            request,
            desk.arena(),
            TurnPoint::Landing(wish, span).next(),
        )
    }

    /// The call of a free that begins with a turn which gives the region back alone. The region is in hand.
    #[inline(never)]
    pub fn of_free(alloc: Global, client: u32, addr: u64, region: Held, desk: &mut Desk) -> Call
        requires gives { Gives addr desk.old.facts region }
        requires room { 2 ≤ desk.old.room }
        ensures client { result.client ≡ client }
        ensures moment { moment_at result desk.new.facts ≡ begin (Request.Free addr) desk.old.facts }
        ensures room { HasRoomToHold desk.new.facts desk.new.room result.stage.next }
    {
        let mut addrs = Addrs::new(alloc);
        addrs.push(region.addr);
        desk.lose(addr);
        desk.take(region);
        let request = Request::Free { addr };
        Call::at(
            client,
            request,
            region.arena,
            TurnPoint::Giving(Addresses::new(addrs)).next(),
        )
    }
}
