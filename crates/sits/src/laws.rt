//! Laws of the calls of a client, as contracts of functions that do nothing.

ghost use Rattle.sits.specs.Laws.{AsksSit, OwnSits, StartsSit, StarvesSit, TurnsSit};

/// A client that rests may begin any request in range: its call waits at a point that suits what the client has, or has ended.
pub fn starts_sit()
    ensures { StartsSit }
{}

/// The turn that a call wants may stand, whatever chunk of another arena is found. After it the client holds in the arenas the
/// regions that it has, and its call waits on or has ended, whatever goes back next.
pub fn turns_sit()
    ensures { TurnsSit }
{}

/// Whatever a hook answers to an ask that a call wants, the call waits on with all that its client has.
pub fn asks_sit()
    ensures { AsksSit }
{}

/// Where a turn that takes memory finds none, the call has ended and its client has what it had.
pub fn starves_sit()
    ensures { StarvesSit }
{}

/// Whatever others do meanwhile, a client is as it has to be by what it owns in each arena and by its room there.
pub fn own_sits()
    ensures { OwnSits }
{}
