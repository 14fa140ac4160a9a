//! What follows from the rule that the table of a lock keeps.
ghost use Rattle.std.specs.Prelude.{◌≡◌, ℕ, [], ◌∷◌};
ghost use mathlib.Core.Option.{some};
ghost use Rattle.atomic_table.specs.Table.{State};
ghost use Rattle.turn_lock.specs.declared.view.View.{View};
ghost use Rattle.turn_lock.specs.History.{entries, replay_turns};
ghost use Rattle.turn_lock.specs.Rule.{Rule, NoneServed};

use crate::machine::Machine;

/// Whenever no seat is served, the state is at home, and is the replay of the whole history, whose entries it keeps.
///
/// A seat is served from the load that found its ticket to the step that serves the next ticket.
pub fn free_turn<M: Machine>()
    ensures home { (first : M.State) (seats : ℕ) (s : State M.State (View M.State M.Entry)) (r : Rule M.logs M.after M.kept first seats s) → NoneServed s.views → s.homes ≡ some (replay_turns M.after first r.log) ∷ [] }
    ensures keeps { (first : M.State) (seats : ℕ) (s : State M.State (View M.State M.Entry)) (r : Rule M.logs M.after M.kept first seats s) → M.kept (replay_turns M.after first r.log) ≡ entries r.log }
{}
