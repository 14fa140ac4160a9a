//! A box of hooks with what a shelf keeps for it, as it lies under its lock.

ghost use Rattle.std.specs.Prelude.{◌≡◌};
ghost use Rattle.hook_api.specs.Orders.{AreInForce, IsByPlanOf, IsLeftOf, order_at, plan_for};
ghost use Rattle.hook_api.specs.Plans.{kind_of, plan_at};
ghost use Rattle.hook_api.specs.Shelf.{BoxState, BoxStep};

use crate::asked::Asked;
use crate::books::Book;
use crate::hooks::ExtentHooks;
use crate::orders::Orders;
use crate::plans::Kind;
use crate::shelf::ask_box;
use space_model::Ask;
use std::marker::Model;

/// A box, its book, and which of the plans set outside its lock the book has taken over.
#[derive(Drop)]
pub struct Desk<H: ExtentHooks> {
    hooks: H,
    book: Book,
    taken_over: Orders,
}

impl<H: ExtentHooks> Model for Desk<H> {
    ghost use Rattle.hook_api.specs.Orders.{AreInForce};
    ghost use Rattle.hook_api.specs.Shelf.{BoxState};

    ghost Value = { BoxState };

    ghost view = { λ d. record { account = H.account d.hooks; book = d.book } };

    ghost invariant = { λ d. AreInForce d.taken_over d.book.plans };
}

impl<H: ExtentHooks> Desk<H> {
    /// A box with its book. No plan was set outside its lock.
    pub(crate) fn new(hooks: H, book: Book) -> Desk<H>
        ensures { result ≡ record { account = H.account hooks; book = book } }
    {
        let taken_over = Orders::of(&book);
        Desk {
            hooks,
            book,
            taken_over,
        }
    }

    /// The box.
    pub(crate) fn into_box(self) -> H
        ensures { H.account result ≡ self.account }
    {
        let Desk { hooks, .. } = self;
        hooks
    }

    /// The box and its book, which has taken over the plans that were set outside its lock.
    pub(crate) fn close(self, orders: &Orders) -> (H, Book)
        ensures account { H.account result.0 ≡ self.account }
        ensures in_force { AreInForce orders.now result.1.plans }
    {
        let Desk {
            hooks,
            mut book,
            taken_over,
        } = self;
        for i in 0..Kind::COUNT {
            book.plans[i] = orders.kinds[i].in_force(taken_over.kinds[i], book.plans[i]);
        }
        (hooks, book)
    }

    /// The box's own count of refusals.
    pub(crate) fn own(&self) -> u64
        ensures { result ≡ self.now.account.refusals }
    {
        self.hooks.refusals()
    }

    /// The book takes the plan of a kind over, where one was set since it last did.
    pub(crate) fn take_over(&mut self, kind: Kind, orders: &Orders)
        ensures account { self.new.account ≡ self.old.account }
        ensures in_force { IsLeftOf (order_at orders.now kind).plan (plan_at self.new.book.plans kind) }
    {
        let i = kind.index();
        let order = orders.kinds[i];
        self.book.plans[i] = order.in_force(self.taken_over.kinds[i], self.book.plans[i]);
        self.taken_over.kinds[i] = order;
    }

    /// Asks the box, except where a plan refuses the ask.
    pub(crate) fn ask(&mut self, box_no: u32, ask: Ask, orders: &Orders) -> Asked
        ensures step { (from : BoxState) × (from.account ≡ self.old.account) × BoxStep from result self.new }
        ensures of_box { result.box_no ≡ box_no }
        ensures of_ask { result.ask ≡ ask }
        ensures by_plan { IsByPlanOf (plan_for orders.now (kind_of ask)) result.planned }
    {
        if let Some(kind) = Kind::of(ask) {
            self.take_over(kind, orders);
        }
        ask_box(&mut self.hooks, &mut self.book, box_no, ask)
    }
}
