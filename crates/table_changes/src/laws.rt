//! Laws of changed tables. Each is the contract of a function that does nothing.

ghost use Rattle.std.specs.Prelude.{◌≡◌, ◌<◌, ◌++◌, ◌∷◌, [], ◌≢◌, ℕ, suc, All, IsFalse, IsTrue, List, Some, length};
ghost use Rattle.abl_base.specs.declared.limits.TheConstants.{MAX_FIELDS};
ghost use Rattle.abl_base.specs.declared.value.Value.{Value};
ghost use Rattle.abl_values.specs.declared.schema.FieldDef.{FieldDef};
ghost use Rattle.abl_values.specs.declared.schema.TableDef.{TableDef as Table};
ghost use Rattle.abl_values.specs.Names.{is_name};
ghost use Rattle.abl_values.specs.Schema.{field_names};
ghost use Rattle.abl_values.specs.Sound.{IsSoundField, IsSoundTable, is_among};
ghost use Rattle.stored_fields.specs.Rows.{row_in};
ghost use Rattle.stored_schema.specs.Stored.{AreStoredAs};
ghost use Rattle.table_changes.specs.Changes.{StoredTable, table_with, table_without, with_field, without, without_field};

/// After a field was added, the table has at most 256 stored fields where it had fewer, and its live
/// ones are its fields in order. A row of before has the field's initial value.
pub fn added_fields_are_last()
    ensures stored { (f : FieldDef) (t : StoredTable) → AreStoredAs t.fields t.stored → length t.stored < MAX_FIELDS → AreStoredAs (with_field f t).fields (with_field f t).stored }
    ensures rows { (f : FieldDef) (t : StoredTable) (bytes : List ℕ) (row : List Value) → AreStoredAs t.fields t.stored → row_in (length t.fields) t.stored bytes ≡ Some row
        → row_in (suc (length t.fields)) (with_field f t).stored bytes ≡ Some (row ++ f.initial ∷ []) }
{}

/// After a field was dropped, the table is stored as its other fields say, and a row of before has the
/// values of the other fields, in their order.
pub fn dropped_fields_are_left_out()
    ensures stored { (n : ℕ) (t : StoredTable) → All (λ f. IsTrue (is_name f.name)) t.fields → n < length t.fields → AreStoredAs t.fields t.stored → AreStoredAs (without_field n t).fields (without_field n t).stored }
    ensures rows { (n count : ℕ) (t : StoredTable) (bytes : List ℕ) (row : List Value) → n < suc count → row_in (suc count) t.stored bytes ≡ Some row
        → row_in count (without_field n t).stored bytes ≡ Some (without n row) }
{}

/// A sound table stays sound with a sound field more whose name it has not, and with a field less that
/// no index has.
pub fn changed_tables_are_sound()
    ensures added { (t : Table) (f : FieldDef) → IsSoundTable t → IsSoundField f → IsFalse (is_among f.name (field_names t.fields)) → IsSoundTable (table_with f t) }
    ensures dropped { (t : Table) (n : ℕ) → IsSoundTable t → n < length t.fields → All (λ i. All (λ p. p.field ≢ n) i.parts) t.indexes → IsSoundTable (table_without n t) }
{}
