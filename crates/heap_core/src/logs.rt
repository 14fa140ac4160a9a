//! The asks of a heap, with places for those to come.

ghost use Rattle.std.specs.Prelude.{◌≡◌, ◌≢◌, ◌+◌, ◌<◌, ◌≤◌, ◌^◌, ℕ, [], ◌∷◌, ◌++◌, length, OnOk};
ghost use Rattle.heap_core.specs.Logs.{last_asked, owed_to};

use hook_api::{AskList, Asked, Askeds};
use std::alloc::{AllocError as NoMemory, Global};
use std::marker::Model;

/// How many clients there are.
const CLIENTS: usize = space_model::CLIENTS as usize;

/// The asks of a heap, in order, and how many places each client was promised for further ones. Only
/// [`AskLog::promise`] takes memory.
#[derive(Drop)]
pub struct AskLog {
    asks: AskList,
    owed: [u64; CLIENTS],
    total: u64,
}

impl Model for AskLog {
    ghost use Rattle.heap_core.specs.Logs.{IsLog, LogFacts, shown};

    ghost Value = { LogFacts };

    ghost view = { shown };

    ghost invariant = { IsLog };
}

impl AskLog {
    /// No ask, and no place promised.
    pub fn new(alloc: Global) -> AskLog
        ensures { result.asks ≡ [] }
    {
        AskLog {
            asks: AskList::new(alloc),
            owed: [0; CLIENTS],
            total: 0,
        }
    }

    /// Promises a client at least so many places.
    pub fn promise(&mut self, client: u32, places: u64) -> Result<(), NoMemory>
        requires { client < 32 }
        ensures asks { self.new.asks ≡ self.old.asks }
        ensures others { (other : ℕ) → other ≢ client → owed_to self.new.owed other ≡ owed_to self.old.owed other }
        ensures kept { owed_to self.old.owed client ≤ owed_to self.new.owed client }
        ensures ok { OnOk result (places ≤ owed_to self.new.owed client) }
    {
        let owed = self.owed[client as usize];
        let places = places.max(owed);
        let total = (self.total - owed).checked_add(places).ok_or(NoMemory)?;
        self.asks.reserve(total)?;
        self.owed[client as usize] = places;
        self.total = total;
        Ok(())
    }

    /// An ask of a client, which takes one of the places that it was promised.
    pub fn push(&mut self, client: u32, asked: &Asked)
        requires client { client < 32 }
        requires place { 0 < owed_to self.old.owed client }
        ensures asks { self.new.asks ≡ self.old.asks ++ asked.now ∷ [] }
        ensures others { (other : ℕ) → other ≢ client → owed_to self.new.owed other ≡ owed_to self.old.owed other }
        ensures one { owed_to self.old.owed client ≤ owed_to self.new.owed client + 1 }
    {
        self.asks.push(asked);
        self.owed[client as usize] -= 1;
        self.total -= 1;
    }

    /// The last ask.
    pub fn last(&self) -> Option<Asked>
        ensures { result ≡ last_asked self.now.asks }
    {
        self.asks.last()
    }

    /// What is always so: there are fewer than 2^64 asks.
    pub fn is_few(&self)
        ensures { length self.now.asks < 2 ^ 64 }
    {
        let _asks = &self.asks;
    }

    /// The asks, in order. Takes no memory.
    pub fn into_asks(self) -> Askeds
        ensures { result ≡ self.asks }
    {
        let AskLog { asks, .. } = self;
        Askeds::from_list(asks)
    }
}
