//! What a lock serves: a state that changes by one step at a time.
ghost use Rattle.std.specs.Prelude.{◌≡◌, ◌≢◌, ℕ, List, [], ◌∷◌, ◌++◌, IfOk, OnErr, IsOk};

use std::alloc::AllocError as NoMemory;

/// A state, and the steps that change it. Each step is made under a number, and leaves an entry.
pub trait Machine {
    type State: Drop;

    type Op;

    type Entry: Drop;

    type Reply;

    /// What a state has that belongs to one number. Clauses alone see it.
    type Own;

    /// A step of this number, from this state and for this operation, may leave this entry.
    ghost logs: { Self.State → ℕ → Self.Op → Self.Entry → Type 0 };

    /// The state after a step, and its reply, which its entry settles.
    ghost after: { Self.State → Self.Entry → Self.State × Self.Reply };

    /// What belongs to a number.
    ghost own: { Self.State → ℕ → Self.Own };

    /// An operation may stand, by what belongs to its number.
    ghost may: { Self.Own → Self.Op → Type 0 };

    /// A step finds its memory, by what belongs to its number.
    ghost sure: { Self.Own → Self.Op → Type 0 };

    /// The entries that a state keeps.
    ghost kept: { Self.State → List Self.Entry };

    /// What a state began as.
    ghost start: { Self.State → Self.State };

    /// One step. `Err` is want of memory, and leaves the state as it was.
    fn step(
        state: &mut Self::State,
        number: u32,
        op: Self::Op,
    ) -> Result<(Self::Entry, Self::Reply), NoMemory>
        requires may { may (own state.old number) op }
        ensures entry { IfOk result (λ r. logs state.old number op r.0) }
        ensures after { IfOk result (λ r. (state.new, r.1) ≡ after state.old r.0) }
        ensures unchanged { OnErr result (state.new ≡ state.old) }
        ensures sure { sure (own state.old number) op → IsOk result };

    /// A step adds its entry to those that the state keeps.
    ghost keeps: { (s : Self.State) (n : ℕ) (op : Self.Op) (e : Self.Entry) → logs s n op e → kept (after s e).0 ≡ kept s ++ e ∷ [] };

    /// No step changes what a state began as.
    ghost starts: { (s : Self.State) (n : ℕ) (op : Self.Op) (e : Self.Entry) → logs s n op e → start (after s e).0 ≡ start s };

    /// A step leaves what belongs to every other number as it was.
    ghost others: { (s : Self.State) (n : ℕ) (op : Self.Op) (e : Self.Entry) (k : ℕ) → logs s n op e → k ≢ n → own (after s e).0 k ≡ own s k };
}
