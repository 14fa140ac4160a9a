//! Where a realloc begins, and how another region takes the place of one that can't be resized where it is.

ghost use Rattle.std.specs.Prelude.{◌≡◌, ◌≢◌, ◌<◌, ◌≤◌, ℕ, Some, true, false, is_some, IfOk, OnOk, OnErr, None};
ghost use Rattle.std.specs.Option.{option_map};
ghost use Rattle.call_plan.specs.Clients.{held_at, hit, resizing};
ghost use Rattle.call_plan.specs.Needs.{named};
ghost use Rattle.call_plan.specs.Points.{IsSizedNext};
ghost use Rattle.call_plan.specs.Runs.{are_large, begin_desk, begin_realloc, begin_resize, desk_led, desk_resized, gives, move_stage, resize_at, settle};
ghost use Rattle.call_plan.specs.Stages.{Move};

use crate::begins::{get, share};
use crate::{Answered, Desk, NextStep, Request, Resize, Stage, TurnPoint};
use size_classes::{CLASSES, SMALL_CLASSES, class_of, class_pages};
use std::alloc::{AllocError as NoMemory, Global};
use thread_cache::Held;

/// Whether two classes are large ones.
fn are_large(one: u8, other: u8) -> bool
    ensures { result ≡ are_large one other }
{
    one >= SMALL_CLASSES && other >= SMALL_CLASSES && other < CLASSES
}

/// A region that is to have another class is cut, or widened.
fn resize_at(class: u8, region: Held) -> TurnPoint
    requires { region.class < 121 }
    ensures { result ≡ resize_at class region }
{
    let resize = Resize {
        addr: region.addr,
        pages: class_pages(region.class),
        class,
    };
    if class < region.class {
        TurnPoint::Narrowing(resize)
    } else {
        TurnPoint::Widening(resize)
    }
}

impl Request {
    /// The region that it gives in the end, of all that the client has.
    pub(crate) fn gives(&self, desk: &Desk) -> Option<Held>
        ensures { result ≡ gives self.now desk.now.facts }
    {
        match *self {
            Request::Realloc { .. } => desk.gained(),
            _ => None,
        }
    }
}

impl Stage {
    /// A region of the class takes the place of the one in hand: one that is cached, or one that is got. Takes no memory: the
    /// regions that go back are named at their turn.
    pub(crate) fn move_to(&mut self, alloc: Global, request: &Request, class: u8, desk: &mut Desk)
        requires { class < 121 }
        ensures stage { named request.now desk.new.facts self.new ≡ settle request.now desk.old.facts self.old.arena (Move class) }
        ensures facts { desk.new.facts ≡ desk_led desk.old.facts (Move class) }
        ensures room { desk.new.room ≡ desk.old.room }
        ensures sized { IsSizedNext self.new.next }
    {
        match desk.take_hit(class) {
            Some(region) => {
                desk.gain(Held { class, ..region });
                self.go_on(alloc, request, desk);
            }
            None => self.stand(desk.arena(), get(true, class, 1, share(class, desk))),
        }
    }

    /// The same at once for a region that the client holds, where a cached one takes its place.
    fn move_to_hit(
        &mut self,
        alloc: Global,
        class: u8,
        addr: u64,
        region: Held,
        desk: &mut Desk,
    ) -> Result<(), NoMemory>
        requires other { class ≢ region.class }
        requires hit { is_some (hit class desk.old.facts) ≡ true }
        ensures stage { OnOk result ((size : ℕ) → self.new ≡ move_stage (Request.Realloc addr size) region.arena class (hit class desk.old.facts) (resizing addr region desk.old.facts)) }
        ensures facts { OnOk result (desk.new.facts ≡ desk_led (resizing addr region desk.old.facts) (Move class)) }
        ensures room { desk.old.room ≤ desk.new.room }
        ensures err { OnErr result (desk.new.facts ≡ desk.old.facts) }
    {
        let batch = desk.batch_for(alloc, region)?;
        desk.resize(addr, region);
        let hit = desk.take_hit(class).unwrap();
        let gained = Held { class, ..hit };
        desk.gain(gained);
        self.arena = region.arena;
        self.go_back(batch, Some(gained));
        Ok(())
    }

    /// A region that the client holds gets the class.
    fn resize(
        &mut self,
        alloc: Global,
        class: u8,
        addr: u64,
        region: Held,
        desk: &mut Desk,
    ) -> Result<(), NoMemory>
        requires { class < 121 }
        ensures stage { OnOk result ((size : ℕ) → self.new ≡ begin_resize (Request.Realloc addr size) class region (resizing addr region desk.old.facts)) }
        ensures facts { OnOk result (desk.new.facts ≡ desk_resized class region (resizing addr region desk.old.facts)) }
        ensures room { desk.old.room ≤ desk.new.room }
        ensures err { OnErr result (desk.new.facts ≡ desk.old.facts) }
    {
        if class == region.class {
            desk.resize(addr, region);
            desk.reclass(class);
            self.all_done(Some(region));
        } else if are_large(class, region.class) {
            desk.resize(addr, region);
            self.stand(region.arena, resize_at(class, region).next());
        } else if desk.has_hit(class) {
            return self.move_to_hit(alloc, class, addr, region, desk);
        } else {
            desk.resize(addr, region);
            self.stand(desk.arena(), get(true, class, 1, share(class, desk)));
        }
        Ok(())
    }

    /// The region that the client holds at an address is to have so many bytes.
    pub(crate) fn realloc(
        &mut self,
        alloc: Global,
        addr: u64,
        size: u64,
        desk: &mut Desk,
    ) -> Result<(), NoMemory>
        ensures stage { OnOk result (self.new ≡ begin_realloc addr size (held_at addr desk.old.facts) desk.old.facts) }
        ensures facts { OnOk result (desk.new.facts ≡ begin_desk (Request.Realloc addr size) desk.old.facts) }
        ensures room { desk.old.room ≤ desk.new.room }
        ensures err { OnErr result (desk.new.facts ≡ desk.old.facts) }
    {
        let Some(region) = desk.held_at(addr) else {
            self.end(0, Answered::NotHeld(addr));
            return Ok(());
        };
        match class_of(size) {
            Ok(class) => self.resize(alloc, class, addr, region, desk),
            Err(_) => {
                self.end(desk.arena(), Answered::TooLarge);
                Ok(())
            }
        }
    }
}
