//! The recurrence, and the calls that it draws.

ghost use Rattle.std.specs.Prelude.{◌≡◌, ◌+◌, ◌^◌, ◌<◌};
ghost use Rattle.trace_soak.specs.Soak.{IsOfClient, drawn_of, draws, member_after, opening};

use std::marker::Model;

/// How many slots there are.
const SLOTS: usize = 256;

/// How many clients there are.
const CLIENTS: u64 = 4;

/// Each line whose number is a multiple of this purges.
const PURGE_EVERY: u64 = 64;

/// What the recurrence is multiplied by.
const FACTOR: u64 = 6364136223846793005;

/// What is added then.
const TERM: u64 = 1442695040888963407;

/// A draw is a member of the recurrence, divided by this.
const DIVISOR: u64 = 1 << 33;

/// How many sizes are drawn from: up to each power of two below this one.
const POWERS: u64 = 17;

/// A call that was drawn.
#[derive(Clone, Copy, Debug, PartialEq, Eq)]
pub(crate) enum Drawn {
    /// Client 0 purges arena 0.
    Purge,
    /// A client allocates for a slot, so many bytes.
    Malloc { client: u32, slot: u64, size: u64 },
    /// The owner of a slot frees its region.
    Free { client: u32, slot: u64 },
}

/// The recurrence, the owner of each slot, and the number of the last line. Contracts see it as a `State`.
#[derive(Drop)]
pub(crate) struct Recurrence {
    member: u64,
    owners: [Option<u32>; SLOTS],
    number: u64,
}

impl Model for Recurrence {
    ghost use Rattle.std.specs.Prelude.{◌≡◌, ◌<◌, All, length};
    ghost use Rattle.std.specs.Option.{ForSome};
    ghost use Rattle.trace_soak.specs.Soak.{State};

    ghost Value = { State };

    ghost view = { λ r. record { member = r.member; owners = r.owners; number = r.number } };

    ghost invariant = { λ r. (length r.owners ≡ 256) × All (λ owner. ForSome owner (λ client. client < 4)) r.owners };
}

/// The next member of the recurrence.
#[tactic(auto, using(crate::proofs::Wrapping::member_wraps))]
fn member_after(member: u64) -> u64
    ensures { result ≡ member_after member }
{
    member.wrapping_mul(FACTOR).wrapping_add(TERM)
}

impl Recurrence {
    /// Before the first line.
    pub(crate) fn new(start: u64) -> Recurrence
        ensures { result ≡ opening start }
    {
        Recurrence {
            member: start,
            owners: [None; SLOTS],
            number: 0,
        }
    }

    /// A draw.
    fn draw(&mut self) -> u64
        ensures value { result ≡ drawn_of (member_after self.old.member) }
        ensures bound { result < 2 ^ 31 }
        ensures moved { self.new ≡ record self.old { member = member_after self.old.member } }
    {
        self.member = member_after(self.member);
        self.member / DIVISOR
    }

    /// The call of the next line.
    pub(crate) fn next_call(&mut self) -> Drawn
        requires { self.old.number + 1 < 2 ^ 64 }
        ensures call { result ≡ (draws self.old).call }
        ensures client { IsOfClient result }
        ensures moved { self.new ≡ (draws self.old).after }
    {
        self.number += 1;
        if self.number % PURGE_EVERY == 0 {
            return Drawn::Purge;
        }
        let client = (self.draw() % CLIENTS) as u32;
        let slot = self.draw() % SLOTS as u64;
        if let Some(owner) = self.owners[slot as usize].take() {
            return Drawn::Free {
                client: owner,
                slot,
            };
        }
        self.owners[slot as usize] = Some(client);
        let power = self.draw() % POWERS;
        let size = 1 + self.draw() % (1 << power);
        Drawn::Malloc { client, slot, size }
    }
}
