//! How a lock is made, and how its passes are split.
ghost use Rattle.std.specs.Prelude.{◌≡◌, ◌+◌, ◌<◌, [], IfOk};
ghost use Rattle.turn_lock.specs.Locks.{first, seat_count, number, spare, seen, own_entries, IsPassOf};

use crate::lock::{Pass, TurnLock};
use crate::machine::Machine;
use crate::rule::Cut;
use crate::view::Key;
use atomic_table::Table;
use std::alloc::{AllocError as NoMemory, Global};
use std::snapshot::Snapshot;

impl<M: Machine> TurnLock<M> {
    /// A lock round a state that keeps no entry, and the pass with the number 0, which has the other numbers below `seats` to give away.
    ///
    /// Where there is no memory the state is dropped.
    pub fn new(
        alloc: Global,
        state: M::State,
        seats: u32,
    ) -> Result<(TurnLock<M>, Pass<M>), NoMemory>
        requires seats { 0 < seats }
        requires empty { M.kept state ≡ [] }
        ensures lock { IfOk result (λ r. (first r.0 ≡ state) × (seat_count r.0 ≡ seats)) }
        ensures pass { IfOk result (λ r. IsPassOf r.0 r.1 × (seen r.1 ≡ [])) }
        ensures numbers { IfOk result (λ r. (number r.1 ≡ 0) × (spare r.1 + 1 ≡ seats)) }
    {
        let key = Key {
            first: Snapshot::of(&state),
            seats,
        };
        let mut slots = Vec::new(alloc);
        slots.reserve(1)?;
        slots.push_reserved(state);
        let Ok((table, seat)) = Table::new(alloc, &[0, 0], slots, &key) else {
            return Err(NoMemory);
        };
        let pass = Pass {
            seat,
            number: 0,
            end: seats,
        };
        Ok((TurnLock { table }, pass))
    }

    /// Splits a pass that has numbers to give away. The first keeps its number alone. The second takes the others, and the least of them is its own.
    pub fn split_pass(&self, pass: Pass<M>) -> (Pass<M>, Pass<M>)
        requires lock { IsPassOf self.now pass }
        requires spare { 0 < spare pass }
        ensures lock { IsPassOf self.now result.0 × IsPassOf self.now result.1 }
        ensures first { (number result.0 ≡ number pass) × (spare result.0 ≡ 0) }
        ensures second { (number result.1 ≡ number pass + 1) × (spare result.1 + 1 ≡ spare pass) }
        ensures seen { (seen result.0 ≡ seen pass) × (seen result.1 ≡ seen pass) }
        ensures unused { own_entries result.1 ≡ [] }
    {
        let Pass {
            mut seat,
            number,
            end,
        } = pass;
        let later = self.table.shared.split_seat::<Cut>(&mut seat);
        let kept = Pass {
            seat,
            number,
            end: number + 1,
        };
        let given = Pass {
            seat: later,
            number: number + 1,
            end,
        };
        (kept, given)
    }
}
