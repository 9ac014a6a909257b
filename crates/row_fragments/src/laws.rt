//! What holds of rows while several clients change them and undo their changes.

ghost use Rattle.std.specs.Prelude.{◌≡◌, ◌≢◌, ◌++◌, ℕ, List, false};
ghost use Rattle.std.specs.List.{Contains};
ghost use Rattle.storage.specs.Slots.{IsReadable, Goes, GoesBack, Ends};
ghost use Rattle.row_fragments.specs.Calls.{Wrote};
ghost use Rattle.row_fragments.specs.Chains.{KeepsChains, Rewrites};
ghost use Rattle.row_fragments.specs.Fragments.{ends, kind_in, next_in, row_at};
ghost use Rattle.row_fragments.specs.Stops.{rows_left, RowsGo};
ghost use Rattle.row_fragments.specs.Tied.{IsFreeAlone, IsInRow, IsMix, IsTied, IsValue, given};

use storage::Slots;

/// Where slots are tied to rows, two mixes of their values that agree on the slots of a row have the
/// same row there: so what others change or undo leaves the row as it is.
pub fn rows_lie_apart<S: Slots>(slots: &S)
    ensures { (row_of : ℕ → ℕ) → IsTied (IsValue (S.Slots.state slots.now)) row_of →
        (a b : ℕ → List ℕ) (row : ℕ) → IsMix (IsValue (S.Slots.state slots.now)) a → IsMix (IsValue (S.Slots.state slots.now)) b →
        ((k : ℕ) → row_of k ≡ row → b k ≡ a k) → row_at b row ≡ row_at a row }
{}

/// A change of one row's slots leaves every other row as it was.
pub fn other_rows_stay<S: Slots>(old: &S, new: &S)
    ensures { (row_of : ℕ → ℕ) (client row : ℕ) (written : List ℕ) →
        IsTied (IsValue (S.Slots.state old.now)) row_of → IsTied (IsValue (S.Slots.state new.now)) row_of →
        Wrote (S.Slots.state old.now) (S.Slots.state new.now) client written → IsReadable (S.Slots.state old.now) →
        ((k : ℕ) → Contains written k → row_of k ≡ row) →
        (other : ℕ) → other ≢ row → row_at (S.Slots.state new.now).reads other ≡ row_at (S.Slots.state old.now).reads other }
{}

/// Slots stay tied to rows over a change whose slots point into their own row.
pub fn a_change_keeps_ties<S: Slots>(old: &S, new: &S)
    ensures { (row_of : ℕ → ℕ) (client : ℕ) (written : List ℕ) →
        IsTied (IsValue (S.Slots.state old.now)) row_of →
        Wrote (S.Slots.state old.now) (S.Slots.state new.now) client written → IsReadable (S.Slots.state old.now) →
        ((c : ℕ) → c ≢ client → (S.Slots.state new.now).transaction c ≡ (S.Slots.state old.now).transaction c) →
        ((k : ℕ) → Contains written k → IsInRow row_of k ((S.Slots.state new.now).reads k)) →
        IsTied (IsValue (S.Slots.state new.now)) row_of }
{}

/// Slots stay tied to rows where a client goes back to a mark.
pub fn going_back_keeps_ties<S: Slots>(old: &S, new: &S)
    ensures { (row_of : ℕ → ℕ) (client mark : ℕ) →
        IsTied (IsValue (S.Slots.state old.now)) row_of → IsReadable (S.Slots.state old.now) →
        GoesBack (S.Slots.state old.now) (S.Slots.state new.now) client mark →
        IsTied (IsValue (S.Slots.state new.now)) row_of }
{}

/// A free slot may be given to any row: slots stay tied to rows.
pub fn drawing_keeps_ties<S: Slots>(slots: &S)
    ensures { (row_of : ℕ → ℕ) (at row : ℕ) → IsTied (IsValue (S.Slots.state slots.now)) row_of → IsFreeAlone (IsValue (S.Slots.state slots.now)) row_of →
        row_of at ≡ 0 → IsTied (IsValue (S.Slots.state slots.now)) (given row_of at row) }
{}

/// A slot that is free, and that no slot points to, may be taken from its row: slots stay tied to
/// rows.
pub fn freeing_keeps_ties<S: Slots>(slots: &S)
    ensures { (row_of : ℕ → ℕ) (at : ℕ) → IsTied (IsValue (S.Slots.state slots.now)) row_of →
        ((bytes : List ℕ) → IsValue (S.Slots.state slots.now) at bytes → kind_in bytes ≡ 0) →
        ((k : ℕ) (bytes : List ℕ) → IsValue (S.Slots.state slots.now) k bytes → ends k ≡ false → ends (next_in bytes) ≡ false → next_in bytes ≢ at) →
        IsTied (IsValue (S.Slots.state slots.now)) (given row_of at 0) }
{}

/// What a call says of the slots that a stop leaves, it says of the rows that a stop leaves.
pub fn stops_leave_rows<S: Slots>(old: &S, new: &S)
    ensures { Goes (S.Slots.state old.now) (S.Slots.state new.now) (S.Slots.stop old.now) (S.Slots.stop new.now) →
        RowsGo (rows_left (S.Slots.stop old.now)) (rows_left (S.Slots.stop new.now)) (S.Slots.state old.now).moment (S.Slots.state new.now).moment
        (row_at (S.Slots.state old.now).committed) (row_at (S.Slots.state new.now).doubt) }
{}

/// A change of one row leaves slots chains that were chains, whatever the other slots have.
pub fn a_change_keeps_chains()
    ensures { (before after : ℕ → List ℕ) (own drawn : List ℕ) (keep table : ℕ) (bytes : List ℕ) →
        Rewrites before after own drawn keep table bytes → KeepsChains before after (own ++ drawn) }
{}
