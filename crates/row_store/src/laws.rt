//! Laws of lists of changes. Each is the contract of a function that does nothing.

ghost use Rattle.std.specs.Prelude.{◌≡◌, ◌≢◌, ◌≤◌, ◌+◌, ◌-◌, suc, ◌<◌, ℕ, List, length, take, drop, IsTrue, IsFalse, slice_index_or};
ghost use Rattle.std.specs.FinMap.{empty};
ghost use Rattle.row_store.specs.declared.store.RowChange.{RowChange};
ghost use Rattle.database_meaning.specs.State.{Overlay};
ghost use Rattle.row_store.specs.Changes.{AreCopies, AreMarks, IsOverlay, RowsById, change_at, has_change, undone};

/// Going back to a mark gives the copy of its level, and leaves the copies of the outer levels.
pub fn going_back_gives_the_copy()
    ensures copy { (rows : RowsById) (changes : List RowChange) (marks : List ℕ) (copies : List Overlay) (i : ℕ) →
        AreCopies rows changes marks copies → i < length marks →
        let mark = slice_index_or marks i 0 in
        IsOverlay (slice_index_or copies i empty) (change_at (undone (drop mark changes) rows) (take mark changes)) }
    ensures copies { (rows : RowsById) (changes : List RowChange) (marks : List ℕ) (copies : List Overlay) (i : ℕ) →
        AreCopies rows changes marks copies → AreMarks 0 marks (length changes) → i < length marks →
        let mark = slice_index_or marks i 0 in
        AreCopies (undone (drop mark changes) rows) (take mark changes) (take (i + 1) marks) (take (i + 1) copies) }
{}

/// A change of other rows changes neither the overlay nor the copies of a client.
pub fn others_keep_their_copies()
    ensures overlay { (rows other : RowsById) (changes : List RowChange) → ((k : ℕ) → IsTrue (has_change changes k) → other k ≡ rows k) →
        (k : ℕ) → change_at other changes k ≡ change_at rows changes k }
    ensures copies { (rows other : RowsById) (changes : List RowChange) (marks : List ℕ) (copies : List Overlay) →
        ((k : ℕ) → IsTrue (has_change changes k) → other k ≡ rows k) →
        AreCopies rows changes marks copies → AreCopies other changes marks copies }
{}
