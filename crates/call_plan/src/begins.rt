//! Where a request begins.

ghost use Rattle.std.specs.Prelude.{◌≡◌, ◌<◌, ◌≤◌, min, true, false, IfOk, IsOk, OnOk, OnErr, None};
ghost use Rattle.std.specs.Option.{option_map};
ghost use Rattle.space_model.specs.Slabs.{most_regions};
ghost use Rattle.call_plan.specs.Clients.{batch_facts, held_at};
ghost use Rattle.call_plan.specs.Calls.{makes_cache, may_hold};
ghost use Rattle.call_plan.specs.Desks.{flushes, meant as meant_by, ready};
ghost use Rattle.call_plan.specs.Needs.{LeavesDesk};
ghost use Rattle.call_plan.specs.Points.{IsSizedNext};
ghost use Rattle.call_plan.specs.Runs.{after_time, all_done, batch_goes, begin, begin_bind, begin_cache, begin_desk, begin_flush, begin_free, begin_get, begin_malloc, begin_memalign, begin_publish, begin_set, begin_stage, first_turn, first_turn_but_0, get, purge_visit, share, stage, decay_setting, whole_visit, wish_for};
ghost use Rattle.call_plan.specs.Stages.{Ends, led};

use crate::{
    Answered, Batch, Change, Desk, Given, NextStep, Request, Stage, TurnPoint, Visit, Wish,
};
use size_classes::{
    PAGE_BYTES, SMALL_CLASSES, SizeFault, aligned_class, class_of, class_pages, slab_regions, slots,
};
use space_model::{Addresses, Rest, Setting};
use std::alloc::{AllocError as NoMemory, Global};
use thread_cache::Held;

impl Wish {
    /// So many regions of a class, in an extent at an alignment in pages, of which one takes the place of the one in hand or none
    /// does.
    pub(crate) fn of_class(moves: bool, class: u8, align: u64, count: u32) -> Wish
        requires { class < 121 }
        ensures { result ≡ wish_for moves class align count }
    {
        Wish {
            pages: class_pages(class),
            align,
            class,
            count,
            moves,
        }
    }
}

/// As many regions of the class as are wanted, or as one extent serves of them, if these are fewer.
fn served(class: u8, count: u32) -> u32
    requires { class < 121 }
    ensures { result ≡ min count (most_regions class) }
{
    let most = if class < SMALL_CLASSES {
        slab_regions(class)
    } else {
        1
    };
    u64::from(count).min(most) as u32
}

/// Regions of a small class are looked for in the slabs first.
pub(crate) fn get(moves: bool, class: u8, align: u64, count: u32) -> NextStep
    requires { class < 121 }
    ensures { led result None ≡ get moves class align count }
{
    let wish = Wish::of_class(moves, class, align, served(class, count));
    if class < SMALL_CLASSES {
        TurnPoint::Filling(wish, count).next()
    } else {
        TurnPoint::Looking(wish).next()
    }
}

/// How many regions of a class are got at once.
pub(crate) fn share(class: u8, desk: &Desk) -> u32
    ensures { result ≡ share class desk.now.facts }
{
    if desk.caches() && class < SMALL_CLASSES {
        slots(class) / 2
    } else {
        1
    }
}

/// The setting of a decay time.
fn time_of(rest: Rest, ms: i64, now: u64) -> Setting
    ensures { result ≡ decay_setting rest ms now }
{
    match rest {
        Rest::Dirty => Setting::DirtyMs { ms, now },
        Rest::Muzzy | Rest::Retained => Setting::MuzzyMs { ms, now },
    }
}

impl Visit {
    /// The extents of the list, all of them.
    fn whole(rest: Rest) -> Visit
        ensures { result ≡ whole_visit rest }
    {
        Visit {
            rest,
            keep: 0,
            other: None,
            told: false,
        }
    }

    /// The muzzy extents and then the dirty ones, all of them.
    fn purge() -> Visit
        ensures { result ≡ purge_visit }
    {
        Visit {
            other: Some(0),
            ..Visit::whole(Rest::Muzzy)
        }
    }
}

/// A new time purges, unless it is never.
fn after_time(rest: Rest, ms: i64) -> Change
    ensures { result ≡ after_time rest ms }
{
    if ms == -1 {
        Change::Stops
    } else {
        Change::Visits(Visit::whole(rest))
    }
}

impl Stage {
    /// The call ends with an answer.
    pub(crate) fn end(&mut self, arena: u32, answer: Answered)
        ensures { self.new ≡ stage arena (Ends answer) }
    {
        self.stand(arena, NextStep::Ends(answer));
    }

    /// A region of a class: the one that was hit in the cache, or one of those that are got.
    #[inline(always)]
    fn get(&mut self, class: u8, align: u64, hit: Option<Held>, desk: &Desk)
        requires { class < 121 }
        ensures { self.new ≡ begin_get class align hit desk.now.facts }
    {
        match hit {
            Some(region) => {
                let addr = region.addr;
                self.end(region.arena, Answered::Ok(Given::Region { addr, class }));
            }
            None => self.stand(desk.arena(), get(false, class, align, share(class, desk))),
        }
    }

    /// A malloc of so many bytes.
    fn malloc(&mut self, size: u64, desk: &mut Desk)
        ensures stage { self.new ≡ begin_malloc size desk.old.facts }
        ensures facts { desk.new.facts ≡ begin_desk (Request.Malloc size) desk.old.facts }
        ensures room { desk.new.room ≡ desk.old.room }
    {
        match class_of(size) {
            Ok(class) => {
                let hit = desk.take_hit(class);
                self.get(class, 1, hit, desk);
            }
            Err(_) => self.end(desk.arena(), Answered::TooLarge),
        }
    }

    /// A malloc of so many bytes at an alignment in bytes.
    #[tactic(auto, using(crate::proofs::Aligned::alignments))]
    fn memalign(&mut self, align: u64, size: u64, desk: &mut Desk)
        ensures stage { self.new ≡ begin_memalign align size desk.old.facts }
        ensures facts { desk.new.facts ≡ begin_desk (Request.Memalign align size) desk.old.facts }
        ensures room { desk.new.room ≡ desk.old.room }
    {
        let pages = (align / PAGE_BYTES).max(1);
        match aligned_class(size, align) {
            Ok(class) if class < SMALL_CLASSES => {
                let hit = desk.take_hit(class);
                self.get(class, pages, hit, desk);
            }
            Ok(class) => self.get(class, pages, None, desk),
            Err(SizeFault::TooLarge) => self.end(desk.arena(), Answered::TooLarge),
            Err(SizeFault::BadAlign) => self.end(desk.arena(), Answered::BadAlign),
        }
    }

    /// A turn of the arena with this index comes first, if there may be one.
    fn first(&mut self, arena: u32, point: TurnPoint)
        ensures { self.new ≡ first_turn arena point }
    {
        let step = if arena < 32 {
            point.next()
        } else {
            NextStep::Ends(Answered::NoArena(arena))
        };
        self.stand(arena, step);
    }

    /// The same, but arena 0 stays.
    fn first_but_0(&mut self, arena: u32, point: TurnPoint)
        ensures { self.new ≡ first_turn_but_0 arena point }
    {
        if arena == 0 {
            self.end(arena, Answered::Automatic);
        } else {
            self.first(arena, point);
        }
    }

    /// The batch goes back, or where there is none, all is done.
    #[inline(always)]
    pub(crate) fn go_back(&mut self, batch: Option<Batch>, gained: Option<Held>)
        ensures { self.new ≡ batch_goes self.old.arena gained (option_map batch_facts batch) }
    {
        match batch {
            Some(batch) => {
                self.arena = batch.arena;
                self.go(TurnPoint::Giving(Addresses::new(batch.addrs)).next());
            }
            None => self.all_done(gained),
        }
    }

    /// All is done, and the region that was gained is the answer, if one was.
    pub(crate) fn all_done(&mut self, gained: Option<Held>)
        ensures { self.new ≡ all_done self.old.arena gained }
    {
        match gained {
            Some(region) => {
                let (addr, class) = (region.addr, region.class);
                self.end(region.arena, Answered::Ok(Given::Region { addr, class }));
            }
            None => self.go(NextStep::Ends(Answered::Ok(Given::Done))),
        }
    }

    /// The region that the client holds at an address is freed.
    fn free(&mut self, alloc: Global, addr: u64, desk: &mut Desk) -> Result<(), NoMemory>
        ensures stage { OnOk result (self.new ≡ begin_free addr (held_at addr desk.old.facts) desk.old.facts) }
        ensures facts { OnOk result (desk.new.facts ≡ begin_desk (Request.Free addr) desk.old.facts) }
        ensures room { desk.old.room ≤ desk.new.room }
        ensures err { OnErr result (desk.new.facts ≡ desk.old.facts) }
    {
        let Some(region) = desk.held_at(addr) else {
            self.end(0, Answered::NotHeld(addr));
            return Ok(());
        };
        let batch = desk.batch(alloc, desk.hand_for(region), false)?;
        self.arena = region.arena;
        self.go_back(batch, None);
        desk.lose(addr);
        desk.free(region);
        Ok(())
    }

    /// The region that the client holds at an address is published.
    fn publish(&mut self, addr: u64, desk: &mut Desk)
        ensures stage { self.new ≡ begin_publish addr (held_at addr desk.old.facts) }
        ensures facts { desk.new.facts ≡ begin_desk (Request.Publish addr) desk.old.facts }
        ensures room { desk.old.room ≤ desk.new.room }
    {
        let Some(region) = desk.held_at(addr) else {
            self.end(0, Answered::NotHeld(addr));
            return;
        };
        desk.lose(addr);
        desk.take(region);
        self.stand(region.arena, TurnPoint::Publishing(region.addr).next());
    }

    /// All cached regions go back.
    fn flush(&mut self, alloc: Global, desk: &Desk) -> Result<(), NoMemory>
        ensures { OnOk result (self.new ≡ begin_flush desk.now.facts) }
    {
        let batch = desk.batch(alloc, desk.hand(), true)?;
        self.arena = desk.arena();
        self.go_back(batch, None);
        Ok(())
    }

    /// The cache is on at once, or it is flushed first.
    fn cache(&mut self, alloc: Global, on: bool, desk: &Desk) -> Result<(), NoMemory>
        ensures stage { OnOk result (self.new ≡ begin_cache on desk.now.facts) }
        ensures spare { on ≡ true → IsOk result }
    {
        if on {
            self.end(desk.arena(), Answered::Ok(Given::Done));
            Ok(())
        } else {
            self.flush(alloc, desk)
        }
    }

    /// Another arena is bound first, and then the client leaves its own.
    fn bind(&mut self, arena: u32, index: u32)
        ensures { self.new ≡ begin_bind arena index }
    {
        if index == arena {
            self.end(arena, Answered::Ok(Given::Done));
        } else {
            let change = Change::Leaves(arena);
            self.first(index, TurnPoint::Changing(Setting::Bind, change));
        }
    }

    /// The setting alone.
    fn set(&mut self, index: u32, setting: Setting)
        ensures { self.new ≡ begin_set index setting }
    {
        self.first(index, TurnPoint::Changing(setting, Change::Stops));
    }

    /// A region is taken over, and then goes back, if that is told.
    fn own(&mut self, index: u32, addr: u64, frees: bool)
        ensures { self.new ≡ first_turn index (TurnPoint.Owning addr frees false) }
    {
        let point = TurnPoint::Owning {
            addr,
            frees,
            published: false,
        };
        self.first(index, point);
    }

    /// An arena comes to be at the first index from 1 on that has none, with this box of hooks and these decay times.
    fn create(&mut self, box_no: u32, dirty_ms: i64, muzzy_ms: i64, now: u64)
        ensures { self.new ≡ first_turn 1 (TurnPoint.Making 1 (Setting.Live box_no dirty_ms muzzy_ms now)) }
    {
        let setting = Setting::Live {
            box_no,
            dirty_ms,
            muzzy_ms,
            now,
        };
        self.first(1, TurnPoint::Making(1, setting));
    }

    /// Where a request begins that leaves what the client has as it is, and takes no memory.
    fn begin_rare(&mut self, request: &Request, desk: &Desk)
        requires { LeavesDesk request.now }
        ensures { self.new ≡ begin_stage request.now desk.now.facts }
    {
        match *request {
            Request::FreeForeign { addr, arena } => self.own(arena, addr, true),
            Request::Take { addr, arena } => self.own(arena, addr, false),
            Request::Purge { arena } => self.first(arena, TurnPoint::Taking(Visit::purge(), None)),
            Request::Decay { arena, now } => self.first(arena, TurnPoint::Advancing(now)),
            Request::Time {
                arena,
                rest,
                ms,
                now,
            } => {
                let setting = time_of(rest, ms, now);
                self.first(arena, TurnPoint::Changing(setting, after_time(rest, ms)));
            }
            Request::Reset { arena } => {
                self.first_but_0(arena, TurnPoint::Resetting(desk.cached_of(arena)));
            }
            Request::Destroy { arena } => {
                self.first_but_0(arena, TurnPoint::Destroying(desk.cached_of(arena)));
            }
            Request::Create {
                box_no,
                dirty_ms,
                muzzy_ms,
                now,
            } => self.create(box_no, dirty_ms, muzzy_ms, now),
            Request::Bind { arena } => self.bind(desk.arena(), arena),
            Request::HookBox { arena, box_no } => self.set(arena, Setting::HookBox(box_no)),
            Request::GrowLimit { arena, chunks } => {
                self.set(arena, Setting::GrowLimit { chunks });
            }
            Request::MallocIn { slot, .. }
            | Request::FreeIn { slot, .. }
            | Request::FlushCache { slot }
            | Request::EndCache { slot } => self.end(desk.arena(), Answered::NoCache(slot)),
            _ => unreachable!(),
        }
    }

    /// One more explicit cache is made, and its identifier told, if there may be one.
    fn new_cache(&mut self, alloc: Global, desk: &mut Desk) -> Result<(), NoMemory>
        ensures stage { OnOk result (self.new ≡ begin_stage Request.NewCache desk.old.facts) }
        ensures facts { OnOk result (desk.new.facts ≡ begin_desk Request.NewCache desk.old.facts) }
        ensures room { desk.new.room ≡ desk.old.room }
        ensures err { OnErr result (desk.new.facts ≡ desk.old.facts) }
    {
        let answer = match desk.make_cache(alloc)? {
            Some(slot) => Answered::Ok(Given::Cache(slot)),
            None => Answered::CachesFull,
        };
        self.end(desk.arena(), answer);
        Ok(())
    }

    /// It stands where a request begins of a client, whose desk is as it is then. `NoMemory` only where there is none to name
    /// several regions that go back: the desk is as it was.
    pub(crate) fn begin(
        &mut self,
        alloc: Global,
        request: &Request,
        desk: &mut Desk,
    ) -> Result<(), NoMemory>
        ensures stage { OnOk result (self.new ≡ begin_stage request.now desk.old.facts) }
        ensures facts { OnOk result (desk.new.facts ≡ begin_desk request.now desk.old.facts) }
        ensures sized { OnOk result (IsSizedNext self.new.next) }
        ensures room { desk.old.room ≤ desk.new.room }
        ensures spare { may_hold request.now ≡ false → flushes request.now ≡ false → makes_cache request.now ≡ false → IsOk result }
        ensures err { OnErr result (desk.new.facts ≡ desk.old.facts) }
    {
        match *request {
            Request::Malloc { size } => self.malloc(size, desk),
            Request::Memalign { align, size } => self.memalign(align, size, desk),
            Request::Free { addr } => return self.free(alloc, addr, desk),
            Request::Publish { addr } => self.publish(addr, desk),
            Request::Realloc { addr, size } => return self.realloc(alloc, addr, size, desk),
            Request::Flush => return self.flush(alloc, desk),
            Request::Cache(on) => return self.cache(alloc, on, desk),
            Request::NewCache => return self.new_cache(alloc, desk),
            _ => self.begin_rare(request, desk),
        }
        Ok(())
    }
    /// It stands where a request begins of a client, whose desk is as it is then: one that uses an explicit cache is as one of the
    /// client's own cache, in whose place that is. Gives the request as it is carried out. Where memory is wanting the desk is as
    /// it was.
    #[tactic(auto, using(crate::proofs::Swaps::undoing))]
    pub(crate) fn begin_meant(
        &mut self,
        alloc: Global,
        request: &Request,
        desk: &mut Desk,
    ) -> Result<Request, NoMemory>
        ensures request { IfOk result (λ meant. meant ≡ meant_by request.now desk.old.facts) }
        ensures stage { OnOk result (self.new ≡ (begin request.now desk.old.facts).stage) }
        ensures facts { OnOk result (desk.new.facts ≡ begin_desk (meant_by request.now desk.old.facts) (ready request.now desk.old.facts)) }
        ensures room { desk.old.room ≤ desk.new.room }
        ensures spare { may_hold request.now ≡ false → flushes request.now ≡ false → makes_cache request.now ≡ false → IsOk result }
        ensures err { OnErr result (desk.new.facts ≡ desk.old.facts) }
    {
        let swaps = request.swap(desk);
        let meant = if swaps { request.plain() } else { *request };
        let begun = self.begin(alloc, &meant, desk);
        if begun.is_err() && swaps {
            desk.swap_back(false);
        }
        begun.map(|_| meant)
    }
}
