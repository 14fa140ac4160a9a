//! A shelf that threads share.

ghost use Rattle.std.specs.Prelude.{◌≡◌, ◌+◌, ◌<◌, ◌≤◌, length, slice_set, vec_capacity, if◌then◌else◌};
ghost use Rattle.hook_api.specs.Asked.{by_box};
ghost use Rattle.hook_api.specs.Counts.{capped};
ghost use Rattle.hook_api.specs.Orders.{IsByPlanOf};
ghost use Rattle.hook_api.specs.Plans.{kind_of};
ghost use Rattle.hook_api.specs.ShareSteps.{one_more};
ghost use Rattle.hook_api.specs.Seats.{place_at};

use crate::asked::Asked;
use crate::hooks::ExtentHooks;
use crate::locks::Locks;
use crate::orders::Orders;
use crate::plans::Kind;
use crate::seat::AskSeat;
use crate::share_rule::Place;
use atomic_table::Badge;
use space_model::Ask;
use std::mem;
use std::sync::{Mutex, Wait};

/// The most that a seat's number of refusals comes to.
const MOST_REFUSED: u64 = 1 << 58;

/// An empty list with room for the boxes.
#[derive(Drop)]
pub struct Room<T> {
    pub(crate) boxes: Vec<T>,
    ghost room: { (length boxes.items ≡ 0) × (32 ≤ vec_capacity boxes) },
}

/// 32 boxes of hooks, each under a lock of its own. Threads share it by reference, and each asks by a seat of its own.
#[derive(Drop)]
pub struct SharedShelf<H: ExtentHooks> {
    pub(crate) locks: Locks<H>,
    pub(crate) orders: [Orders; 32],
    pub(crate) room: Mutex<Room<H>>,
}

impl<H: ExtentHooks> SharedShelf<H> {
    ghost use Rattle.hook_api.specs.Shared.{IsAskOfSome, IsSeatOf, orders_of, plan_of_kind, same_locks, with_plan_set};

    /// Waits for the box, passes the ask to it and gives its answer, except where a plan refuses the ask. Takes no
    /// memory.
    ///
    /// The place of what comes back is the seat's next one for the box. A refusal by the box is counted in the seat.
    pub fn ask<R: Wait>(&self, rt: &R, seat: &mut AskSeat, box_no: u32, ask: Ask) -> Asked
        requires inside { box_no < 32 }
        requires seat { IsSeatOf self.now seat.old }
        ensures seat { IsSeatOf self.now seat.new }
        ensures step { IsAskOfSome result }
        ensures of_box { result.box_no ≡ box_no }
        ensures of_ask { result.ask ≡ ask }
        ensures place { result.place ≡ place_at seat.old box_no }
        ensures places { seat.new.places ≡ slice_set seat.old.places box_no (capped (place_at seat.old box_no + 1)) }
        ensures refused { seat.new.refused ≡ (if by_box result then one_more box_no seat.old.refused else seat.old.refused) }
        ensures by_plan { IsByPlanOf (plan_of_kind self.now box_no (kind_of ask)) result.planned }
    {
        let i = box_no as usize;
        let mut place: Place<H> = mem::replace(&mut seat.badge, Badge::blank()).into_seat();
        let asked = self.locks.ask(rt, &mut place, box_no, ask, &self.orders[i]);
        seat.badge = place.into_badge();
        if asked.by_box() {
            seat.refused[i] = seat.refused[i].saturating_add(1).min(MOST_REFUSED);
        }
        let place = seat.places[i];
        seat.places[i] = place.saturating_add(1);
        asked.at(place)
    }

    /// Sets the plan of that box number and kind: from now on the `nth` ask of the kind is refused, or every ask where
    /// `nth` is 0. A refused `nth` ends its plan. Waits for nobody, and takes no memory.
    pub fn plan(&mut self, box_no: u32, kind: Kind, nth: u64)
        requires inside { box_no < 32 }
        ensures plan { orders_of self.new ≡ with_plan_set (orders_of self.old) box_no kind nth }
        ensures locks { same_locks self.old self.new }
    {
        self.orders[box_no as usize].set(kind, nth);
    }
}
