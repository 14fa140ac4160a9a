//! The lock and its passes.
ghost use Rattle.std.specs.Prelude.{◌≡◌, ℕ, ◌-◌, ◌<◌, true, length};
ghost use Rattle.std.specs.List.{range_with_len};
ghost use Rattle.turn_lock.specs.History.{entries_by};
ghost use Rattle.turn_lock.specs.Rule.{is_idle};
ghost use Rattle.turn_lock.specs.Views.{seen_by, first_numbers};

use crate::machine::Machine;
use crate::rule::{Board, Place};

/// A lock round the state of a machine. Threads share it by reference.
#[derive(Drop)]
pub struct TurnLock<M: Machine> {
    pub(crate) table: Board<M>,
    ghost sized: { (table.shared.table_id.words ≡ 2) × (table.shared.table_id.slots ≡ 1) },
}

/// The right to take turns under one number, and to give away the numbers that follow it. It has no lifetime, and may go to another thread.
#[derive(Drop)]
pub struct Pass<M: Machine> {
    pub(crate) seat: Place<M>,
    pub(crate) number: u32,
    pub(crate) end: u32,
    ghost home: { length seat.me.1 ≡ 0 },
    ghost idle: { is_idle seat.me.0.stage ≡ true },
    ghost one: { length seat.me.0.claims ≡ 1 },
    ghost numbers: { first_numbers seat.me.0.claims ≡ range_with_len number (end - number) },
    ghost some: { number < end },
    ghost fresh: { (n : ℕ) → number < n → n < end → length (entries_by n (seen_by seat.me.0.claims)) ≡ 0 },
}

/// A list of passes.
#[derive(Drop)]
pub struct Passes<M: Machine> {
    pub(crate) items: Vec<Pass<M>>,
}
