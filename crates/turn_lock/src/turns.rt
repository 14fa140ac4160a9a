//! How a pass takes its turn.
ghost use Rattle.std.specs.Prelude.{◌≡◌, ℕ, ◌<◌, [], true, length, slice_index, Some, IfOk, OnErr, IsOk};
ghost use Rattle.turn_lock.specs.History.{replay_turns};
ghost use Rattle.turn_lock.specs.Rule.{number_count, is_idle};
ghost use Rattle.turn_lock.specs.Steps.{Enters};
ghost use Rattle.turn_lock.specs.Views.{seen_by, first_numbers, Served};
ghost use Rattle.turn_lock.specs.Locks.{first, number, spare, seen, own_known, IsPassOf, Turned};

use crate::lock::{Pass, TurnLock};
use crate::machine::Machine;
use crate::rule::{Add, Draw, Look, Place, Skip};
use std::alloc::AllocError as NoMemory;
use std::sync::Wait;
use std::thread;

impl<M: Machine> TurnLock<M> {
    // Draws a ticket, waits until it is served, and takes the slot.
    fn enter<R: Wait>(&self, rt: &R, seat: &mut Place<M>)
        requires table { seat.old.table_id ≡ self.now.table.shared.table_id }
        requires idle { is_idle seat.old.me.0.stage ≡ true }
        requires home { seat.old.me.1 ≡ [] }
        requires named { 0 < number_count seat.old.me.0 }
        ensures table { (seat.new.table_id ≡ seat.old.table_id) × (seat.new.id ≡ seat.old.id) }
        ensures entered { (k : ℕ) × Enters M.logs M.after M.kept k seat.old.me.0 seat.new.me }
    {
        let ticket = self.table.shared.fetch_add::<Draw>(seat, 0, 1);
        for _ in rt.forever() {
            if self.table.shared.load::<Look<M>>(seat, 1) == ticket {
                return;
            }
            thread::yield_now();
        }
        unreachable!()
    }

    // Takes a turn from a seat that has one claim, under its first number.
    fn serve<R: Wait>(
        &self,
        rt: &R,
        seat: &mut Place<M>,
        number: u32,
        op: M::Op,
    ) -> Result<M::Reply, NoMemory>
        requires lock { (seat.old.table_id ≡ self.now.table.shared.table_id) × (seat.old.me.0.first ≡ Some (first self.now)) }
        requires idle { (is_idle seat.old.me.0.stage ≡ true) × (seat.old.me.1 ≡ []) }
        requires claim { (length seat.old.me.0.claims ≡ 1) × (0 < length (first_numbers seat.old.me.0.claims)) × (slice_index (first_numbers seat.old.me.0.claims) 0 ≡ number) }
        requires may { M.may (M.own (replay_turns M.after (first self.now) (seen_by seat.old.me.0.claims)) number) op }
        ensures lock { (seat.new.table_id ≡ seat.old.table_id) × (seat.new.me.0.first ≡ seat.old.me.0.first) }
        ensures idle { (is_idle seat.new.me.0.stage ≡ true) × (seat.new.me.1 ≡ []) }
        ensures claim { (length seat.new.me.0.claims ≡ 1) × (first_numbers seat.new.me.0.claims ≡ first_numbers seat.old.me.0.claims) }
        ensures sure { M.sure (M.own (replay_turns M.after (first self.now) (seen_by seat.old.me.0.claims)) number) op → IsOk result }
        ensures served { IfOk result (λ r. Served M.logs M.after M.own (first self.now) number (first_numbers seat.old.me.0.claims) op r (seen_by seat.old.me.0.claims) (seen_by seat.new.me.0.claims)) }
        ensures no_memory { OnErr result (seat.new.me.0.claims ≡ seat.old.me.0.claims) }
    {
        self.enter(rt, seat);
        match M::step(seat.slot_mut(&self.table.shared, 0), number, op) {
            Ok((_entry, reply)) => {
                self.table.shared.fetch_add::<Add<M>>(seat, 1, 1);
                Ok(reply)
            }
            Err(NoMemory) => {
                self.table.shared.fetch_add::<Skip>(seat, 1, 1);
                Err(NoMemory)
            }
        }
    }

    /// Waits for its turn, and takes one step of the machine in it.
    ///
    /// The reply is the machine's after all turns that were taken before, and the pass then knows these and its own (`Turned`).
    /// `Err` is want of memory: the pass is left as it was, and the history has no turn more.
    pub fn turn<R: Wait>(&self, rt: &R, pass: &mut Pass<M>, op: M::Op) -> Result<M::Reply, NoMemory>
        requires lock { IsPassOf self.now pass.old }
        requires may { M.may (own_known M.after M.own self.now pass.old) op }
        ensures lock { IsPassOf self.now pass.new }
        ensures numbers { (number pass.new ≡ number pass.old) × (spare pass.new ≡ spare pass.old) }
        ensures sure { M.sure (own_known M.after M.own self.now pass.old) op → IsOk result }
        ensures turned { IfOk result (λ r. Turned M.logs M.after M.own self.now pass.old pass.new op r) }
        ensures no_memory { OnErr result (seen pass.new ≡ seen pass.old) }
    {
        let number = pass.number;
        self.serve(rt, &mut pass.seat, number, op)
    }
}
