//! Lists of passes, and how a lock is closed.
ghost use Rattle.std.specs.Prelude.{◌≡◌, ◌+◌, ◌<◌, ◌≤◌, [], ◌∷◌, ◌++◌, OnOk};
ghost use Rattle.std.specs.List.{All, sum_by};
ghost use Rattle.turn_lock.specs.Locks.{first, seat_count, held, passes, room, IsPassOf, IsWhole};

use crate::lock::{Pass, Passes, TurnLock};
use crate::machine::Machine;
use crate::rule::Glue;
use std::alloc::{AllocError as NoMemory, Global};

impl<M: Machine> Passes<M> {
    /// No passes.
    pub fn new(alloc: Global) -> Passes<M>
        ensures { passes result ≡ [] }
    {
        Passes {
            items: Vec::new(alloc),
        }
    }

    /// Makes room for `more` further passes, and changes nothing else.
    pub fn reserve(&mut self, more: u64) -> Result<(), NoMemory>
        ensures passes { passes self.new ≡ passes self.old }
        ensures room { OnOk result (more ≤ room self.new) }
    {
        self.items.reserve(more as usize)
    }

    /// Adds a pass, for which there has to be room.
    pub fn push(&mut self, pass: Pass<M>)
        requires room { 0 < room self.old }
        ensures passes { passes self.new ≡ passes self.old ++ pass ∷ [] }
        ensures room { room self.new + 1 ≡ room self.old }
    {
        self.items.push_reserved(pass);
    }
}

impl<M: Machine> TurnLock<M> {
    /// Ends the lock, for which all its passes are given, and gives the state back.
    ///
    /// The state is the replay of the whole history, which has just the entries that these passes made, each pass's own in their order.
    pub fn close(self, pass: Pass<M>, others: Passes<M>) -> M::State
        requires lock { IsPassOf self pass × All (IsPassOf self) (passes others) }
        requires all { held pass + sum_by held (passes others) ≡ seat_count self }
        ensures { IsWhole M.logs M.after M.kept M.start (first self) (pass ∷ passes others) result }
    {
        let Passes { mut items } = others;
        let Pass {
            mut seat,
            number: _,
            end: _,
        } = pass;
        while let Some(
            Pass {
                seat: other,
                number: _,
                end: _,
            },
        ) = items.pop()
        {
            self.table.shared.join_seat::<Glue>(&mut seat, other);
        }
        let mut closed = self.table.close_with(seat);
        let state = closed.take(0);
        closed.free();
        state
    }
}
