//! Laws of a client's end. Each is the contract of a function that does nothing.

ghost use Rattle.std.specs.Prelude.{◌≡◌, ◌≢◌, ℕ, List};
ghost use Rattle.row_indexes.specs.declared.moves.Moved.{Moved as OneChange};
ghost use Rattle.row_indexes.specs.Places.{Keepers, Places};
ghost use Rattle.row_indexes.specs.Changes.{AreAllKept, CanUndoAll, all_undone};
ghost use Rattle.row_indexes.specs.index_changes.Ending.{ended, freed};

/// The end of a client changes nothing of what another client can undo.
pub fn an_end_leaves_what_others_can_undo()
    ensures can { (client c : ℕ) (changes : List OneChange) (places : Places) → c ≢ client →
        CanUndoAll c changes places → CanUndoAll c changes (ended client places) }
    ensures kept { (client c : ℕ) (changes : List OneChange) (keepers : Keepers) → c ≢ client →
        AreAllKept c changes keepers → AreAllKept c changes (freed client keepers) }
    ensures undone { (client c : ℕ) (changes : List OneChange) (places : Places) → c ≢ client →
        all_undone c changes (ended client places) ≡ ended client (all_undone c changes places) }
{}
