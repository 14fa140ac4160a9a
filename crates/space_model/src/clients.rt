//! A list of clients, which takes no memory.

ghost use Rattle.std.specs.Prelude.{◌≡◌, ◌<◌, []};
ghost use Rattle.std.specs.List.{range_with_len};
ghost use Rattle.space_model.specs.Clients.{is_in, with_client, without_client};

use arrayvec::ArrayVec;
use std::marker::Model;

/// How many numbers a list of clients can hold: one for each client.
const ROOM: usize = 32;

/// Some of the 32 clients, each once, in the order in which they came. Contracts see the list of their numbers.
#[derive(Drop)]
pub struct Clients {
    numbers: ArrayVec<u32, ROOM>,
}

impl Model for Clients {
    ghost use Rattle.std.specs.Prelude.{List, ℕ};
    ghost use Rattle.space_model.specs.Clients.{IsRoster};

    ghost Value = { List ℕ };

    ghost view = { λ c. c.numbers.items };

    ghost invariant = { λ c. IsRoster c.numbers.items };
}

impl Clients {
    /// No client.
    #[tactic(auto, using(crate::proofs::Roster::empty_roster))]
    pub fn none() -> Self
        ensures { result ≡ [] }
    {
        Clients {
            numbers: ArrayVec::new(),
        }
    }

    /// All 32 clients, by number.
    #[tactic(auto, using(crate::proofs::Ranges::range_with_len_more, crate::proofs::Roster::range_misses))]
    pub fn everyone() -> Self
        ensures { result ≡ range_with_len 0 32 }
    {
        let mut everyone = Clients::none();
        for client in 0..crate::CLIENTS {
            everyone.add(client);
        }
        everyone
    }

    /// The numbers of the clients, in order.
    pub fn as_slice(&self) -> &[u32]
        ensures { result.now ≡ self.now }
    {
        self.numbers.as_slice()
    }

    /// Whether the client is among them.
    pub fn contains(&self, client: u32) -> bool
        ensures { result ≡ is_in client self.now }
    {
        self.numbers.as_slice().iter().any(|other| *other == client)
    }

    /// Puts a client behind the others, if it isn't among them.
    pub fn add(&mut self, client: u32)
        requires { client < 32 }
        ensures { self.new ≡ with_client client self.old }
    {
        if !self.contains(client) {
            self.numbers.push(client);
        }
    }

    /// Takes a client off, if it is among them.
    pub fn remove(&mut self, client: u32)
        ensures { self.new ≡ without_client client self.old }
    {
        self.numbers.retain(|other| *other != client);
    }
}
