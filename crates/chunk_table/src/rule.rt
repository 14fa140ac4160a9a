//! The rule of the words, and what each step on them tells. These types are for the proofs alone.
use crate::view::View;
use atomic_table::{Join, Play, Seat, Split, Table, TableRule};
use std::alloc::Global;

/// The rule.
pub struct Owning;

impl TableRule<(), View, u32> for Owning {
    ghost use Rattle.chunk_table.specs.Rule.{Rule, opening_view};

    ghost holds = { Rule };

    ghost first = { opening_view };
}

/// The words.
pub type Board = Table<(), View, u32, Owning, Global>;

/// A seat at them.
pub type Place = Seat<(), View>;

/// Makes a free chunk the seat's own, or notes who has it.
pub struct Claims;

impl Play<(), View> for Claims {
    ghost use Rattle.chunk_table.specs.Steps.{claimed};

    ghost then = { claimed };
}

/// Makes a chunk of the seat's free.
pub struct Frees;

impl Play<(), View> for Frees {
    ghost use Rattle.chunk_table.specs.Steps.{freed};

    ghost then = { freed };
}

/// Reads who has a chunk, and notes it.
pub struct Notices;

impl Play<(), View> for Notices {
    ghost use Rattle.chunk_table.specs.Steps.{noticed};

    ghost then = { noticed };
}

/// Reads who has a chunk.
pub struct Looks;

impl Play<(), View> for Looks {
    ghost use Rattle.chunk_table.specs.Steps.{looked};

    ghost then = { looked };
}

/// Parts the first share from the others.
pub struct Parts;

impl Split<View> for Parts {
    ghost use Rattle.chunk_table.specs.Steps.{first_part, later_part};

    ghost left = { first_part };

    ghost right = { later_part };
}

/// Puts the shares of two seats together.
pub struct Gathers;

impl Join<View> for Gathers {
    ghost use Rattle.chunk_table.specs.Steps.{both_views, spent};

    ghost both = { both_views };

    ghost spent = { spent };
}
