//! Laws of moves and changes. Each is the contract of a function that does nothing.

ghost use Rattle.std.specs.Prelude.{◌≡◌, ◌++◌, ◌∷◌, [], ℕ, List, Some, None};
ghost use Rattle.row_indexes.specs.declared.moves.Move.{Move as OneMove};
ghost use Rattle.row_indexes.specs.declared.moves.Moved.{Moved as OneChange};
ghost use Rattle.row_indexes.specs.Places.{Keepers, Places, CanUndo, owner_before, owner_after, undone, with_place};
ghost use Rattle.row_indexes.specs.Making.{CanMake, kept_after, made};
ghost use Rattle.row_indexes.specs.Changes.{AreAllKept, CanUndoAll, IsOfRow};

/// A further move can be undone: where its place has the content from before the move, or is empty.
pub fn a_further_move_can_be_undone()
    ensures again { (client row : ℕ) (moves : List OneMove) (m : OneMove) (places : Places) →
        CanUndo client row moves places →
        places m.index m.key row ≡ Some (owner_before client m) →
        CanUndo client row (moves ++ m ∷ []) (with_place places m row (owner_after client m)) }
    ensures fresh { (client row : ℕ) (moves : List OneMove) (m : OneMove) (places : Places) →
        CanUndo client row moves places →
        places m.index m.key row ≡ None →
        CanUndo client row (moves ++ m ∷ []) (with_place places m row (owner_after client m)) }
{}

/// With a further move in the present change, the earlier changes can still be undone.
pub fn earlier_changes_can_be_undone()
    ensures again { (client row : ℕ) (changes : List OneChange) (moves : List OneMove) (m : OneMove) (places : Places) →
        CanUndoAll client changes (undone client row moves places) →
        places m.index m.key row ≡ Some (owner_before client m) →
        CanUndoAll client changes (undone client row (moves ++ m ∷ []) (with_place places m row (owner_after client m))) }
    ensures fresh { (client row : ℕ) (changes : List OneChange) (moves : List OneMove) (m : OneMove) (places : Places) →
        CanUndoAll client changes (undone client row moves places) →
        CanUndo client row moves places →
        places m.index m.key row ≡ None →
        CanUndoAll client changes (undone client row (moves ++ m ∷ []) (with_place places m row (owner_after client m))) }
{}

/// Moves of other rows change nothing that can be undone.
pub fn others_leave_what_can_be_undone()
    ensures { (client : ℕ) (changes : List OneChange) (places other : Places) →
        ((j : ℕ) (key : List ℕ) (at : ℕ) → IsOfRow changes at → other j key at ≡ places j key at) →
        CanUndoAll client changes places →
        CanUndoAll client changes other }
{}

/// A change whose moves were made can be undone, and after it the earlier changes.
pub fn what_is_made_can_be_undone()
    ensures made { (client : ℕ) (changes : List OneChange) (c : OneChange) (places : Places) (keepers : Keepers) →
        CanMake client c.row c.moves.items places keepers →
        CanUndoAll client changes places →
        CanUndoAll client (changes ++ c ∷ []) (made client c.row c.moves.items places) }
    ensures kept { (client : ℕ) (changes : List OneChange) (later : List OneMove) (keepers : Keepers) →
        AreAllKept client changes keepers →
        AreAllKept client changes (kept_after client later keepers) }
{}
