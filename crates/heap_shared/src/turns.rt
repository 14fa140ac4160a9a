//! The turns of a client.
ghost use Rattle.std.specs.Prelude.{◌≡◌, false, IfOk, IsOk, OnErr};
ghost use Rattle.arena_core.specs.Arenas.{opens};
ghost use Rattle.heap_shared.specs.Turns.{PassMay, Turned};
ghost use Rattle.turn_lock.specs.Locks.{number, seen, spare, IsPassOf};

use crate::machine::ArenaTurns;
use deeds::{Doing, Told};
use std::alloc::AllocError as NoMemory;
use std::sync::Wait;
use turn_lock::{Pass, TurnLock};

/// Waits for the pass's turn, and takes a step of its client in the arena.
///
/// The client owns then what it owned after its last turn, whatever others did in between. `Err` is want of memory, which comes
/// only at the first turn of a unit, and leaves the pass as it was.
pub fn turn<R: Wait>(
    rt: &R,
    lock: &TurnLock<ArenaTurns>,
    pass: &mut Pass<ArenaTurns>,
    doing: Doing,
) -> Result<Told, NoMemory>
    requires lock { IsPassOf lock.now pass.old }
    requires may { PassMay lock.now pass.old doing }
    ensures lock { IsPassOf lock.now pass.new }
    ensures numbers { (number pass.new ≡ number pass.old) × (spare pass.new ≡ spare pass.old) }
    ensures turned { IfOk result (λ r. Turned lock.now pass.old pass.new doing r) }
    ensures no_memory { OnErr result (seen pass.new ≡ seen pass.old) }
    ensures sure { opens doing.op ≡ false → IsOk result }
{
    lock.turn(rt, pass, doing)
}
