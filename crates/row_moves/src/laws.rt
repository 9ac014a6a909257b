//! Laws of a store of rows with indexes: each of its calls keeps what holds between two calls. Each
//! is the contract of a function that does nothing.

ghost use Rattle.std.specs.Prelude.{◌≡◌, ◌≢◌, ◌++◌, ◌∷◌, [], ℕ, ℤ, List, Option, length, take, drop, false};
ghost use Rattle.database_meaning.specs.declared.state.StoredRow.{StoredRow};
ghost use Rattle.row_store.specs.Rows.{Abandons, Begins, ChangesRow, Commits, Fails, GoesBack, IsConsistent, IsObservable, RowState};
ghost use Rattle.key_index.specs.Index.{Keys};
ghost use Rattle.row_indexes.specs.declared.moves.Moved.{Moved as OneChange};
ghost use Rattle.row_indexes.specs.Places.{AreWithin, keepers_of, places_of};
ghost use Rattle.row_indexes.specs.Changes.{all_undone};
ghost use Rattle.row_indexes.specs.Making.{CanMake, kept_after, made};
ghost use Rattle.row_indexes.specs.index_changes.Ending.{ended, freed};
ghost use Rattle.row_keys.specs.Entries.{AreEntriesAt};
ghost use Rattle.row_keys.specs.Numbers.{index_count};
ghost use Rattle.row_moves.specs.Indexed.{FitsSchema, IsIndexed};

/// A change of a row whose moves give the row the entries of its new value.
pub fn a_change_keeps_the_indexes()
    ensures { (old new : RowState) (client : ℕ) (value : Option StoredRow) (was now : List Keys) (moved left : ℕ → List OneChange) (m : OneChange) →
        IsIndexed old moved was → ChangesRow old new client m.row value → IsConsistent new →
        CanMake client m.row m.moves.items (places_of was) (keepers_of was) → AreWithin (index_count old.schema) m.moves.items →
        places_of now ≡ made client m.row m.moves.items (places_of was) → keepers_of now ≡ kept_after client m.moves.items (keepers_of was) → length now ≡ length was →
        left client ≡ moved client ++ m ∷ [] → ((d : ℕ) → d ≢ client → left d ≡ moved d) → FitsSchema old.schema value →
        (IsObservable old → AreEntriesAt old.schema (old.rows m.row) (places_of was) m.row → AreEntriesAt old.schema value (made client m.row m.moves.items (places_of was)) m.row) →
        IsIndexed new left now }
{}

/// The return to a mark, in rows and indexes.
pub fn going_back_keeps_the_indexes()
    ensures { (old new : RowState) (client mark : ℕ) (was now : List Keys) (moved left : ℕ → List OneChange) →
        IsIndexed old moved was → GoesBack old new client mark → IsConsistent old →
        places_of now ≡ all_undone client (drop mark (moved client)) (places_of was) → keepers_of now ≡ keepers_of was → length now ≡ length was →
        left client ≡ take mark (moved client) → ((d : ℕ) → d ≢ client → left d ≡ moved d) →
        IsIndexed new left now }
{}

/// The begin of a transaction, which changes no index, and the answer Disk.
pub fn indexes_stay_indexed()
    ensures begins { (old new : RowState) (client : ℕ) (moved : ℕ → List OneChange) (keys : List Keys) →
        IsIndexed old moved keys → Begins old new client → IsConsistent old → (old.transaction client).begun ≡ false → IsIndexed new moved keys }
    ensures fails { (old new : RowState) (moved : ℕ → List OneChange) (keys : List Keys) → Fails old new → IsIndexed old moved keys → IsIndexed new moved keys }
{}
