//! What follows from the rule of the words.
ghost use Rattle.std.specs.Prelude.{◌≡◌, ◌==◌, ℕ, List, slice_index};
ghost use mathlib.Core.Option.{some};
ghost use lib.ListN.{get_elem?};
ghost use Rattle.atomic_table.specs.Table.{State};
ghost use Rattle.chunk_table.specs.declared.view.Share.{Share};
ghost use Rattle.chunk_table.specs.declared.view.View.{View};
ghost use Rattle.chunk_table.specs.Rule.{Rule, mark, owns};
ghost use Rattle.chunk_table.specs.Steps.{alone};

/// At every moment the word of a chunk is the number of an arena and one exactly where that arena's seat owns the chunk.
pub fn words_name_owners<S>()
    ensures { (arenas : ℕ) (s : State S View) → Rule arenas s → (j : ℕ) (share : Share) → get_elem? s.views j ≡ some (alone share) → (chunk : ℕ) → owns chunk share ≡ (slice_index s.words chunk == mark share) }
{}
