//! One lock for each box: a word, and a slot with the box.

ghost use Rattle.std.specs.Prelude.{◌≡◌, ◌+◌, ◌<◌, ◌≤◌, [], ◌∷◌, true, length, None, IsTrue, MatchBool, if◌then◌else◌};
ghost use Rattle.hook_api.specs.Asked.{by_box};
ghost use Rattle.hook_api.specs.Orders.{IsByPlanOf, plan_for};
ghost use Rattle.hook_api.specs.Plans.{kind_of};
ghost use Rattle.hook_api.specs.Shelf.{BoxState, BoxStep};
ghost use Rattle.hook_api.specs.ShareSteps.{HasBox, Took, after_ask, idle};

use crate::asked::Asked;
use crate::hooks::ExtentHooks;
use crate::orders::Orders;
use crate::share_rule::{Board, Counts, Gives, Place, Takes, Waits};
use space_model::{Answer, Ask};
use std::sync::Wait;
use std::thread;

/// The word of a box that is at home.
const HOME: u64 = 0;

/// The word of a box that is out, and nobody sleeps for it.
const OUT: u64 = 1;

/// The word of a box that is out, and somebody may sleep until it is back.
const WANTED: u64 = 2;

/// How often a seat tries to take a box before it sleeps.
const TRIES: u32 = 64;

/// The locks of 32 boxes.
#[derive(Drop)]
pub struct Locks<H: ExtentHooks> {
    pub(crate) table: Board<H>,
    ghost sized: { (table.shared.table_id.words ≡ 32) × (table.shared.table_id.slots ≡ 32) },
    ghost some: { 0 < table.shared.key.clients },
}

impl<H: ExtentHooks> Locks<H> {
    /// Takes a box if it is at home. Its word is `word` then, which isn't 0.
    fn try_take(&self, place: &mut Place<H>, i: usize, word: u64) -> bool
        requires inside { (i < 32) × (0 < word) }
        requires table { place.old.table_id ≡ self.now.table.shared.table_id }
        requires idle { (place.old.me.0.taken ≡ None) × (0 < length place.old.me.0.tallies) × (place.old.me.1 ≡ []) }
        ensures table { (place.new.table_id ≡ place.old.table_id) × (place.new.id ≡ place.old.id) }
        ensures taken { MatchBool result (Took i place.old.me place.new.me) (place.new.me ≡ place.old.me) }
    {
        let found = self
            .table
            .shared
            .compare_exchange::<Takes>(place, i, HOME, word);
        found == HOME
    }

    /// Tries for a while to take a box.
    fn take_soon(&self, place: &mut Place<H>, i: usize) -> bool
        requires inside { i < 32 }
        requires table { place.old.table_id ≡ self.now.table.shared.table_id }
        requires idle { (place.old.me.0.taken ≡ None) × (0 < length place.old.me.0.tallies) × (place.old.me.1 ≡ []) }
        ensures table { (place.new.table_id ≡ place.old.table_id) × (place.new.id ≡ place.old.id) }
        ensures taken { MatchBool result (Took i place.old.me place.new.me) (place.new.me ≡ place.old.me) }
    {
        for _ in 0..TRIES {
            if self.try_take(place, i, OUT) {
                return true;
            }
            thread::yield_now();
        }
        false
    }

    /// Waits until a box is at home, and takes it.
    fn take<R: Wait>(&self, rt: &R, place: &mut Place<H>, i: usize)
        requires inside { i < 32 }
        requires table { place.old.table_id ≡ self.now.table.shared.table_id }
        requires idle { (place.old.me.0.taken ≡ None) × (0 < length place.old.me.0.tallies) × (place.old.me.1 ≡ []) }
        ensures table { (place.new.table_id ≡ place.old.table_id) × (place.new.id ≡ place.old.id) }
        ensures taken { Took i place.old.me place.new.me }
    {
        if self.take_soon(place, i) {
            return;
        }
        for _ in rt.forever() {
            if self.try_take(place, i, WANTED) {
                return;
            }
            let found = self
                .table
                .shared
                .compare_exchange::<Waits>(place, i, OUT, WANTED);
            if found != HOME {
                self.table.shared.park(rt, i, WANTED as u32);
            }
        }
        unreachable!()
    }

    /// Gives a box back, and counts its refusal if it refused. Who sleeps for it is woken.
    fn give(&self, place: &mut Place<H>, i: usize, refused: bool)
        requires inside { i < 32 }
        requires table { place.old.table_id ≡ self.now.table.shared.table_id }
        requires taken { HasBox i refused place.old.me }
        ensures table { (place.new.table_id ≡ place.old.table_id) × (place.new.id ≡ place.old.id) }
        ensures home { place.new.me ≡ (idle (after_ask i refused place.old.me.0.tallies), []) }
    {
        let found = if refused {
            self.table.shared.swap::<Counts>(place, i, HOME)
        } else {
            self.table.shared.swap::<Gives>(place, i, HOME)
        };
        if found == WANTED {
            self.table.shared.wake_one(i);
        }
    }

    /// Waits for a box, asks it, except where a plan refuses the ask, and gives it back. Takes no memory.
    pub(crate) fn ask<R: Wait>(
        &self,
        rt: &R,
        place: &mut Place<H>,
        box_no: u32,
        ask: Ask,
        orders: &Orders,
    ) -> Asked
        requires inside { box_no < 32 }
        requires table { place.old.table_id ≡ self.now.table.shared.table_id }
        requires idle { (place.old.me.0.taken ≡ None) × (length place.old.me.0.tallies ≡ 1) × (place.old.me.1 ≡ []) }
        ensures table { (place.new.table_id ≡ place.old.table_id) × (place.new.id ≡ place.old.id) }
        ensures home { place.new.me ≡ (idle (after_ask box_no (by_box result) place.old.me.0.tallies), []) }
        ensures step { (from : BoxState) × (after : BoxState) × BoxStep from result after }
        ensures of_box { result.box_no ≡ box_no }
        ensures of_ask { result.ask ≡ ask }
        ensures by_plan { IsByPlanOf (plan_for orders.now (kind_of ask)) result.planned }
    {
        let i = box_no as usize;
        self.take(rt, place, i);
        let asked = place
            .slot_mut(&self.table.shared, i)
            .ask(box_no, ask, orders);
        self.give(place, i, asked.by_box());
        asked
    }
}
