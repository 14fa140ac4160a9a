//! The rule of the two words and the slot, and what each step on them tells. These types are for the proofs alone.
use crate::machine::Machine;
use crate::view::{Key, View};
use atomic_table::{Join, Play, Seat, Split, Table, TableRule};
use std::alloc::Global;
use std::marker::PhantomData;

/// The rule.
pub struct Turning<M> {
    machine: PhantomData<M>,
}

impl<M: Machine> TableRule<M::State, View<M::State, M::Entry>, Key<M::State>> for Turning<M> {
    ghost use Rattle.turn_lock.specs.Rule.{Rule, opening_view};

    ghost holds = { λ key. Rule M.logs M.after M.kept key.first.value key.seats };

    ghost first = { λ key. opening_view key.first.value key.seats };
}

/// The table of a lock.
pub type Board<M: Machine> = Table<
    M::State,
    View<M::State, M::Entry>,
    Key<M::State>,
    Turning<M>,
    Global,
>;

/// A seat at that table.
pub type Place<M: Machine> = Seat<M::State, View<M::State, M::Entry>>;

/// Draws a ticket.
pub struct Draw;

impl<S, E> Play<S, View<S, E>> for Draw {
    ghost use Rattle.turn_lock.specs.Steps.{drew};

    ghost then = { drew };
}

/// Reads the ticket that is served, and takes the slot where it is the seat's.
pub struct Look<M> {
    machine: PhantomData<M>,
}

impl<M: Machine> Play<M::State, View<M::State, M::Entry>> for Look<M> {
    ghost use Rattle.turn_lock.specs.Steps.{looked};

    ghost then = { looked M.logs M.after M.kept };
}

/// Serves the next ticket, and adds the turn to the history.
pub struct Add<M> {
    machine: PhantomData<M>,
}

impl<M: Machine> Play<M::State, View<M::State, M::Entry>> for Add<M> {
    ghost use Rattle.turn_lock.specs.Steps.{entry_added};

    ghost then = { entry_added M.kept };
}

/// Serves the next ticket after a step that found no memory.
pub struct Skip;

impl<S, E> Play<S, View<S, E>> for Skip {
    ghost use Rattle.turn_lock.specs.Steps.{nothing_added};

    ghost then = { nothing_added };
}

/// Splits off the numbers after the first.
pub struct Cut;

impl<S, E> Split<View<S, E>> for Cut {
    ghost use Rattle.turn_lock.specs.Steps.{first_part, later_part};

    ghost left = { first_part };

    ghost right = { later_part };
}

/// Joins the claims of two seats.
pub struct Glue;

impl<S, E> Join<View<S, E>> for Glue {
    ghost use Rattle.turn_lock.specs.Steps.{both_views, spent};

    ghost both = { both_views };

    ghost spent = { spent };
}
