//! Laws of the calls of a heap's clients, as contracts of functions that do nothing.
#![tactic(auto, using(crate::proofs::Sitting::laws))]

ghost use Rattle.heap_core.specs.Clients.{AsksLeadOn, OthersStay, TurnsLeadOn};
ghost use Rattle.heap_core.specs.Sitting.{AimsSit, AsksSit, HoldersPublish, OpeningSits, OthersSit, StartsSit, StarvesSit, TurnsSit};

/// Whatever turn another client takes in whatever arena, a call waits as it did, and a client without a call has nothing in
/// flight.
pub fn others_stay()
    ensures { OthersStay }
{}

/// The turn that a waiting call wants can be taken, with the chunk that is found, in the room that there is. Then the call
/// waits again, or its client has nothing in flight in any arena.
pub fn turns_lead_on()
    ensures { TurnsLeadOn }
{}

/// Whatever a hook answers to an ask that a waiting call wants, the call waits on.
pub fn asks_lead_on()
    ensures { AsksLeadOn }
{}

/// Each client of a new heap rests: it has nothing, and is bound to arena 0, from which it allocates.
pub fn opening_sits()
    ensures { OpeningSits }
{}

/// A client that rests may begin any request in range: its call waits at a point that suits what the client has, or has ended.
pub fn starts_sit()
    ensures { StartsSit }
{}

/// The turn that a call wants can be made. After it the client holds in the arenas just the regions that it has, each once,
/// and its call waits on or has ended, whatever goes back next.
pub fn turns_sit()
    ensures { TurnsSit }
{}

/// Whatever a hook answers to an ask that a call wants, the call waits on with all that its client has.
pub fn asks_sit()
    ensures { AsksSit }
{}

/// Where a turn that takes memory finds none, the call has ended and its client has what it had.
pub fn starves_sit()
    ensures { StarvesSit }
{}

/// Whatever turn another client takes in whatever arena, a client is as it has to be.
pub fn others_sit()
    ensures { OthersSit }
{}

/// A client may publish a region that it holds at any moment, also in the middle of a call of its own, which goes on as before.
pub fn holders_publish()
    ensures { HoldersPublish }
{}

/// A call that is about to take a region over to free it may do so in any arena, once it is published there.
pub fn aims_sit()
    ensures { AimsSit }
{}
