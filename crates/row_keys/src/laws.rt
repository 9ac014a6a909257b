//! Laws of the moves of a change. Each is the contract of a function that does nothing.

ghost use Rattle.std.specs.Prelude.{◌≡◌, ◌≢◌, ◌||◌, ℕ, false, List, Option, Some, None};
ghost use Rattle.abl_base.specs.declared.value.Value.{Value};
ghost use Rattle.abl_base.specs.declared.value.Kind.{Kind};
ghost use Rattle.abl_values.specs.declared.schema.KeyPart.{KeyPart};
ghost use Rattle.abl_values.specs.Keys.{has_unknown, key_bytes};
ghost use Rattle.abl_values.specs.Rows.{FitsFields};
ghost use Rattle.abl_values.specs.Schema.{SchemaData};
ghost use Rattle.database_meaning.specs.declared.state.StoredRow.{StoredRow};
ghost use Rattle.database_meaning.specs.declared.state.Key.{Key};
ghost use Rattle.row_store.specs.Rows.{is_moved};
ghost use Rattle.row_indexes.specs.declared.moves.Move.{Move};
ghost use Rattle.row_indexes.specs.Places.{Keepers, Places, undone};
ghost use Rattle.row_indexes.specs.Making.{CanMake, kept_after, made};
ghost use Rattle.row_keys.specs.Entries.{AreEntriesAt};
ghost use Rattle.row_keys.specs.Moves.{AreMovesOf};
ghost use Rattle.row_keys.specs.Reserved.{reserved_at};

/// The moves of a change make the entries of the row those of its new values, and undone those of
/// its old values.
pub fn a_change_moves_the_entries()
    ensures made { (schema : SchemaData) (old new : Option StoredRow) (moves : List Move) (client row : ℕ) (places : Places) →
        AreMovesOf schema old new moves → AreEntriesAt schema old places row → AreEntriesAt schema new (made client row moves places) row }
    ensures undone { (schema : SchemaData) (old new : Option StoredRow) (moves : List Move) (client row : ℕ) (places : Places) →
        AreMovesOf schema old new moves → AreEntriesAt schema new places row → AreEntriesAt schema old (undone client row moves places) row }
    ensures none { (schema : SchemaData) (places : Places) (row : ℕ) → ((j : ℕ) (key : List ℕ) → places j key row ≡ None) → AreEntriesAt schema None places row }
{}

/// Two rows of a table with the same key in an index have `?` in the same components.
pub fn equal_keys_are_unknown_alike()
    ensures { (kinds : List (Option Kind)) (parts : List KeyPart) (a b : List Value) → FitsFields kinds a → FitsFields kinds b →
        key_bytes parts a ≡ key_bytes parts b → has_unknown parts a ≡ has_unknown parts b }
{}

/// The moves of a change reserve the unique keys that only one of the two rows has, and change
/// nothing of what others have reserved.
pub fn a_change_reserves_its_keys()
    ensures own { (schema : SchemaData) (old new : Option StoredRow) (moves : List Move) (client : ℕ) (keepers : Keepers) →
        AreMovesOf schema old new moves →
        reserved_at schema (kept_after client moves keepers) client ≡ (λ key. is_moved schema old new key || reserved_at schema keepers client key) }
    ensures others { (schema : SchemaData) (moves : List Move) (client row other : ℕ) (places : Places) (keepers : Keepers) →
        other ≢ client → CanMake client row moves places keepers →
        reserved_at schema (kept_after client moves keepers) other ≡ reserved_at schema keepers other }
    ensures none { (schema : SchemaData) (keepers : Keepers) (client : ℕ) →
        ((j : ℕ) (key : List ℕ) → keepers j key ≢ Some client) → reserved_at schema keepers client ≡ (λ key. false) }
{}
