//! What a shelf keeps for each box number.

ghost use Rattle.std.specs.Prelude.{◌≡◌, ◌+◌};
ghost use Rattle.hook_api.specs.Counts.{capped};
ghost use Rattle.hook_api.specs.Plans.{kind_of, plan_at, plan_of, plans_after, refuses, with_plan};

use crate::plans::{Kind, Plan};
use space_model::Ask;

/// The asks of one box number so far, as far as the next ones depend on them.
#[derive(Clone, Copy)]
pub struct Book {
    /// The place of the next ask. It stays at the greatest `u64` once it is reached.
    pub next_place: u64,
    /// How many asks were refused by a plan, at most the greatest `u64`.
    pub planned: u64,
    /// The plan of each kind, by its number.
    pub plans: [Plan; Kind::COUNT],
}

impl Book {
    ghost use Rattle.hook_api.specs.Shelf.{new_book};

    /// No ask so far, and no plan.
    pub(crate) fn new() -> Book
        ensures { result ≡ new_book }
    {
        Book {
            next_place: 0,
            planned: 0,
            plans: [Plan::Pass; Kind::COUNT],
        }
    }

    /// The place of an ask that is made now.
    pub(crate) fn take_place(&mut self) -> u64
        ensures place { result ≡ self.old.next_place }
        ensures moved { self.new ≡ record self.old { next_place = capped (self.old.next_place + 1) } }
    {
        let place = self.next_place;
        self.next_place = place.saturating_add(1);
        place
    }

    /// Whether a plan refuses an ask that is made now. The plans move on.
    pub(crate) fn take_plan(&mut self, ask: Ask) -> bool
        ensures planned { result ≡ refuses self.old.plans (kind_of ask) }
        ensures plans { self.new ≡ record self.old { plans = plans_after self.old.plans (kind_of ask) } }
    {
        let Some(kind) = Kind::of(ask) else {
            return false;
        };
        let plan = self.plans[kind.index()];
        self.plans[kind.index()] = plan.next();
        plan.refuses_next()
    }

    /// Replaces the plan of a kind.
    pub(crate) fn set_plan(&mut self, kind: Kind, nth: u64)
        ensures plans { self.new ≡ record self.old { plans = with_plan self.old.plans kind (plan_of nth) } }
        ensures plan { plan_at self.new.plans kind ≡ plan_of nth }
    {
        self.plans[kind.index()] = Plan::of(nth);
    }
}
