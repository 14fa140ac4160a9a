//! How shared boxes are taken out again.

ghost use Rattle.std.specs.Prelude.{◌≡◌, ℕ, ◌<◌, ◌≤◌, [], length, map, slice_index, slice_index_or, vec_capacity, vec_len, Some, IfSome, IfNone};
ghost use Rattle.std.specs.List.{All, sum_by};
ghost use Rattle.std.specs.Mem.Slots.{slots_items, slots_len, IsFull};
ghost use Rattle.hook_api.specs.Orders.{AreInForce, IsLeftOf, no_orders};
ghost use Rattle.hook_api.specs.Plans.{plan_at};
ghost use Rattle.hook_api.specs.Seats.{refused_at, tallies_of};
ghost use Rattle.hook_api.specs.Shared.{HasCounted, IsSeatOf, client_count, own_at_share, plan_of_kind};
ghost use Rattle.hook_api.specs.Sharing.{Covers};
ghost use Rattle.hook_api.specs.ShareSteps.{idle};
ghost use Rattle.hook_api.specs.Shelf.{box_at, no_box};

use crate::books::Book;
use crate::desk::Desk;
use crate::hooks::ExtentHooks;
use crate::locks::Locks;
use crate::orders::Orders;
use crate::plans::Kind;
use crate::seat::{AskSeat, AskSeats};
use crate::share_rule::{Gathers, Place};
use crate::shared::{Room, SharedShelf};
use crate::shelf::{BOXES, HookShelf};
use atomic_table::Closed;
use std::alloc::Global;

/// Takes the boxes and their books out of their slots.
fn empty<H: ExtentHooks>(
    mut closed: Closed<Desk<H>, Global>,
    orders: &[Orders; BOXES],
    mut boxes: Vec<H>,
) -> HookShelf<H>
    requires slots { (slots_len closed.slots ≡ 32) × IsFull closed.slots }
    requires room { (boxes.items ≡ []) × (32 ≤ vec_capacity boxes) }
    ensures accounts { result.accounts ≡ map (λ d. d.account) (slots_items closed.slots) }
    ensures in_force { (n : ℕ) → n < 32 → AreInForce (slice_index_or orders.now n no_orders) (box_at result n).book.plans }
{
    let mut books = [Book::new(); BOXES];
    for i in 0..BOXES {
        let (hooks, book) = closed.take(i).close(&orders[i]);
        boxes.push_reserved(hooks);
        books[i] = book;
    }
    closed.free();
    HookShelf { boxes, books }
}

impl<H: ExtentHooks> Locks<H> {
    /// Joins the seats to one, if there are any.
    fn gather(&self, mut items: Vec<AskSeat>) -> Option<Place<H>>
        requires seats { All (λ seat. seat.badge.table_id ≡ self.now.table.shared.table_id) items.items }
        ensures some { IfSome result (λ place. (place.table_id ≡ self.now.table.shared.table_id) × (place.me ≡ (idle (tallies_of items.items), []))) }
        ensures none { IfNone result (items.items ≡ []) }
    {
        let mut place: Place<H> = items.pop()?.badge.into_seat();
        while let Some(seat) = items.pop() {
            self.table
                .shared
                .join_seat::<Gathers>(&mut place, seat.badge.into_seat());
        }
        Some(place)
    }

    /// Ends the locks. Where the seats of all clients are given, each box covers the refusals that they counted.
    fn close(self, items: Vec<AskSeat>) -> Closed<Desk<H>, Global>
        requires seats { All (λ seat. seat.badge.table_id ≡ self.table.shared.table_id) items.items }
        ensures slots { (slots_len result.slots ≡ 32) × IsFull result.slots }
        ensures covered { length items.items ≡ self.table.shared.key.clients → (n : ℕ) → n < 32 → Covers (slice_index_or (slots_items result.slots) n no_box).account.refusals (slice_index self.table.shared.key.own n) (sum_by (λ seat. refused_at seat n) items.items) }
    {
        let place = self.gather(items);
        let Locks { table } = self;
        match place {
            Some(place) => table.close_with(place),
            None => table.close(),
        }
    }
}

impl<H: ExtentHooks> SharedShelf<H> {
    /// Takes the boxes out, with the plans that are in force: what the asks so far left of each plan that was set last.
    /// Where the seats of all clients are given, the refusals that they counted for each box add up to at most what the
    /// box's own count gained, or that count stands at the greatest `u64`. Takes no memory.
    pub fn unshare(self, given: AskSeats) -> HookShelf<H>
        requires seats { All (IsSeatOf self) given.items }
        ensures counted { length given.items ≡ client_count self → (n : ℕ) → n < 32 → HasCounted (slice_index (own_at_share self) n) (box_at result n).account.refusals (sum_by (λ seat. refused_at seat n) given.items) }
        ensures plans { (n : ℕ) → n < 32 → (kind : Kind) → IsLeftOf (plan_of_kind self n (Some kind)) (plan_at (box_at result n).book.plans kind) }
    {
        let SharedShelf {
            locks,
            orders,
            room,
        } = self;
        let Room { boxes } = room.into_inner();
        empty(locks.close(given), &orders, boxes)
    }
}
