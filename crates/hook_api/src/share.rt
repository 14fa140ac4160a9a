//! How boxes come to be shared.

ghost use Rattle.std.specs.Prelude.{◌≡◌, ℕ, ◌+◌, ◌<◌, ◌≤◌, [], ◌∷◌, length, map, replicate, slice_index, slice_index_or, vec_capacity, vec_len, Some, IfOk, IfErr};
ghost use Rattle.std.specs.List.{All};
ghost use Rattle.hook_api.specs.Orders.{AreOf, no_orders};
ghost use Rattle.hook_api.specs.Plans.{plan_at};
ghost use Rattle.hook_api.specs.Shared.{IsNewSeat, IsSeatOf, client_count, own_at_share};
ghost use Rattle.hook_api.specs.Sharing.{blank};
ghost use Rattle.hook_api.specs.ShareSteps.{idle};
ghost use Rattle.hook_api.specs.Shelf.{new_book, no_box};

use crate::books::Book;
use crate::desk::Desk;
use crate::hooks::ExtentHooks;
use crate::locks::Locks;
use crate::orders::Orders;
use crate::plans::Kind;
use crate::seat::{AskSeat, AskSeats};
use crate::share_rule::{Board, Parts, Place};
use crate::shared::{Room, SharedShelf};
use crate::shelf::{BOXES, HookShelf};
use crate::sights::Began;
use atomic_table::Table;
use std::alloc::{AllocError as NoMemory, Global};
use std::sync::Mutex;

/// The boxes, each with its book.
fn desks_of<H: ExtentHooks>(
    boxes: Vec<H>,
    books: &[Book; BOXES],
    mut desks: Vec<Desk<H>>,
) -> Vec<Desk<H>>
    requires full { vec_len boxes ≡ 32 }
    requires room { (desks.items ≡ []) × (32 ≤ vec_capacity desks) }
    ensures { map (λ d. d.account) result.items ≡ map H.account boxes.items }
{
    for hooks in boxes {
        let book = books[desks.len()];
        desks.push_reserved(Desk::new(hooks, book));
    }
    desks
}

/// The plans in force, by box number.
fn orders_in(books: &[Book; BOXES]) -> [Orders; BOXES]
    ensures { (n : ℕ) → n < 32 → AreOf (slice_index_or result n no_orders) (slice_index_or books.now n new_book).plans }
{
    let mut orders = [Orders::none(); BOXES];
    for i in 0..BOXES {
        orders[i] = Orders::of(&books[i]);
    }
    orders
}

/// The boxes without their books.
fn boxes_of<H: ExtentHooks>(desks: Vec<Desk<H>>, mut boxes: Vec<H>) -> Vec<H>
    requires room { (boxes.items ≡ []) × (vec_len desks ≤ vec_capacity boxes) }
    ensures { map H.account result.items ≡ map (λ d. d.account) desks.items }
{
    for desk in desks {
        boxes.push_reserved(desk.into_box());
    }
    boxes
}

/// The boxes' own counts of refusals.
fn own_counts<H: ExtentHooks>(desks: &[Desk<H>]) -> [u64; BOXES]
    requires { length desks.now ≡ 32 }
    ensures { (i : ℕ) → i < 32 → slice_index result i ≡ (slice_index_or desks.now i no_box).account.refusals }
{
    let mut own = [0; BOXES];
    for i in 0..BOXES {
        own[i] = desks[i].own();
    }
    own
}

/// An empty list with room for so many.
fn room_for<T: Drop>(alloc: Global, count: usize) -> Result<Vec<T>, NoMemory>
    ensures { IfOk result (λ v. (v.items ≡ []) × (count ≤ vec_capacity v)) }
{
    let mut items = Vec::new(alloc);
    items.reserve(count)?;
    Ok(items)
}

/// A seat that has asked nothing.
fn new_seat<H: ExtentHooks>(place: Place<H>) -> AskSeat
    requires { place.me ≡ (idle (blank ∷ []), []) }
    ensures seat { result.badge.table_id ≡ place.table_id }
    ensures new { IsNewSeat result }
{
    AskSeat {
        badge: place.into_badge(),
        places: [0; BOXES],
        refused: [0; BOXES],
    }
}

impl<H: ExtentHooks> Locks<H> {
    /// Parts the seat of all clients into one for each.
    fn deal(&self, clients: u32, mut place: Place<H>, items: &mut Vec<AskSeat>)
        requires some { 0 < clients }
        requires place { (place.table_id ≡ self.now.table.shared.table_id) × (place.me ≡ (idle (replicate clients blank), [])) }
        requires room { (items.old.items ≡ []) × (clients ≤ vec_capacity items.old) }
        ensures count { vec_len items.new ≡ clients }
        ensures seats { All (λ seat. (seat.badge.table_id ≡ self.now.table.shared.table_id) × IsNewSeat seat) items.new.items }
    {
        for _ in 1..clients {
            let others = self.table.shared.split_seat::<Parts>(&mut place);
            items.push_reserved(new_seat(place));
            place = others;
        }
        items.push_reserved(new_seat(place));
    }
}

impl<H: ExtentHooks> HookShelf<H> {
    ghost use Rattle.hook_api.specs.Shelf.{box_at};
    ghost use Rattle.hook_api.specs.Shared.{plan_of_kind};

    /// Puts the boxes under locks of their own, with the plans that are in force, and makes a seat for each client. Where
    /// there is no memory the shelf comes back.
    pub fn share(
        self,
        alloc: Global,
        clients: u32,
    ) -> Result<(SharedShelf<H>, AskSeats), (HookShelf<H>, NoMemory)>
        requires clients { (0 < clients) × (clients ≤ 32) }
        ensures clients { IfOk result (λ r. client_count r.0 ≡ clients) }
        ensures own { IfOk result (λ r. (n : ℕ) → n < 32 → slice_index (own_at_share r.0) n ≡ (box_at self n).account.refusals) }
        ensures plans { IfOk result (λ r. (n : ℕ) → n < 32 → (kind : Kind) → plan_of_kind r.0 n (Some kind) ≡ plan_at (box_at self n).book.plans kind) }
        ensures count { IfOk result (λ r. length r.1.items ≡ clients) }
        ensures seats { IfOk result (λ r. All (λ seat. IsSeatOf r.0 seat × IsNewSeat seat) r.1.items) }
        ensures back { IfErr result (λ r. r.0 ≡ self) }
    {
        let HookShelf { boxes, books } = self;
        let Ok(room) = room_for(alloc, BOXES) else {
            return Err((HookShelf { boxes, books }, NoMemory));
        };
        let Ok(mut items) = room_for(alloc, clients as usize) else {
            return Err((HookShelf { boxes, books }, NoMemory));
        };
        let Ok(desks) = room_for(alloc, BOXES) else {
            return Err((HookShelf { boxes, books }, NoMemory));
        };
        let desks = desks_of(boxes, &books, desks);
        let began = Began {
            own: own_counts(&desks),
            clients,
        };
        let (table, place): (Board<H>, Place<H>) = match Table::new(
            alloc,
            &[0; BOXES],
            desks,
            &began,
        ) {
            Ok(made) => made,
            Err(refused) => {
                let boxes = boxes_of(refused.slots, room);
                return Err((HookShelf { boxes, books }, NoMemory));
            }
        };
        let locks = Locks { table };
        locks.deal(clients, place, &mut items);
        let shelf = SharedShelf {
            locks,
            orders: orders_in(&books),
            room: Mutex::new(Room { boxes: room }),
        };
        Ok((shelf, items))
    }
}
