//! The locks of the boxes: one word and one slot each.
ghost use Rattle.std.specs.Prelude.{◌≡◌};

use crate::desk::Desk;
use crate::hooks::ExtentHooks;
use crate::sights::{Began, Sight};
use atomic_table::{Join, Play, Seat, Split, Table, TableRule};
use std::alloc::Global;
use std::marker::PhantomData;

/// The rule of the words, the slots and the seats.
pub struct Sharing<H> {
    hooks: PhantomData<H>,
}

impl<H: ExtentHooks> TableRule<Desk<H>, Sight, Began> for Sharing<H> {
    ghost use Rattle.hook_api.specs.Sharing.{Rule, opening_sight};

    ghost holds = { λ began. Rule began.own began.clients };

    ghost first = { λ began. opening_sight began.clients };
}

/// The table of the locks. Where a word is 0 its box is at home.
pub type Board<H: ExtentHooks> = Table<Desk<H>, Sight, Began, Sharing<H>, Global>;

/// A seat at that table.
pub type Place<H: ExtentHooks> = Seat<Desk<H>, Sight>;

/// Takes a box that is at home.
pub struct Takes;

impl<H: ExtentHooks> Play<Desk<H>, Sight> for Takes {
    ghost use Rattle.hook_api.specs.ShareSteps.{took};

    ghost then = { took };
}

/// Notes that somebody waits for a box that is out.
pub struct Waits;

impl<S> Play<S, Sight> for Waits {
    ghost use Rattle.hook_api.specs.ShareSteps.{waited};

    ghost then = { waited };
}

/// Gives a box back after an ask that it didn't refuse.
pub struct Gives;

impl<S> Play<S, Sight> for Gives {
    ghost use Rattle.hook_api.specs.ShareSteps.{came_home};

    ghost then = { came_home };
}

/// Gives a box back after an ask that it refused.
pub struct Counts;

impl<S> Play<S, Sight> for Counts {
    ghost use Rattle.hook_api.specs.ShareSteps.{counted};

    ghost then = { counted };
}

/// Parts the first client's tally from the others.
pub struct Parts;

impl Split<Sight> for Parts {
    ghost use Rattle.hook_api.specs.ShareSteps.{first_part, later_part};

    ghost left = { first_part };

    ghost right = { later_part };
}

/// Puts the tallies of two seats together.
pub struct Gathers;

impl Join<Sight> for Gathers {
    ghost use Rattle.hook_api.specs.ShareSteps.{both_tallies, spent};

    ghost both = { both_tallies };

    ghost spent = { spent };
}
