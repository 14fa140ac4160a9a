//! The plans of a shared shelf, as they were set outside its locks.

ghost use Rattle.std.specs.Prelude.{◌≡◌};
ghost use Rattle.hook_api.specs.Orders.{IsLeftOf, no_orders, with_order};

use crate::books::Book;
use crate::plans::{Kind, Plan};

/// The plan that was set last for one kind. A box takes it over at the next ask of the kind.
#[derive(Clone, Copy, PartialEq, Eq)]
pub struct Order {
    /// How many plans were set while the shelf was shared. It wraps.
    pub number: u64,
    /// The plan, as it was when it was set, or when the shelf came to be shared.
    pub plan: Plan,
}

impl Order {
    /// What is in force of it where `left` is left of another one: that, if this is the same one.
    pub(crate) fn in_force(self, other: Order, left: Plan) -> Plan
        requires { IsLeftOf other.plan left }
        ensures { IsLeftOf self.plan result }
    {
        if self == other { left } else { self.plan }
    }
}

/// The plans that were set last for one box, by the number of their kind.
#[derive(Clone, Copy)]
pub struct Orders {
    /// The order of each kind.
    pub kinds: [Order; Kind::COUNT],
}

impl Orders {
    ghost use Rattle.hook_api.specs.Orders.{AreOf};

    /// No plan was ever set.
    pub(crate) fn none() -> Orders
        ensures { result ≡ no_orders }
    {
        Orders {
            kinds: [Order {
                number: 0,
                plan: Plan::Pass,
            }; Kind::COUNT],
        }
    }

    /// The plans of a book. None was set since.
    pub(crate) fn of(book: &Book) -> Orders
        ensures { AreOf result book.now.plans }
    {
        let mut orders = Orders::none();
        for i in 0..Kind::COUNT {
            orders.kinds[i].plan = book.plans[i];
        }
        orders
    }

    /// Sets a plan for a kind.
    pub(crate) fn set(&mut self, kind: Kind, nth: u64)
        ensures { self.new ≡ with_order self.old kind nth }
    {
        let number = self.kinds[kind.index()].number.wrapping_add(1);
        self.kinds[kind.index()] = Order {
            number,
            plan: Plan::of(nth),
        };
    }
}
