//! Laws of stored schemas. Each is the contract of a function that does nothing.

ghost use Rattle.std.specs.Prelude.{◌≡◌, ◌<◌, ℕ, IsTrue, length, slice_index_or};
ghost use Rattle.abl_values.specs.declared.schema.TableDef.{TableDef as Table};
ghost use Rattle.abl_values.specs.Held.{IsHeld};
ghost use Rattle.abl_values.specs.Schema.{SchemaData, canonical_text, no_index};
ghost use Rattle.abl_values.specs.Sound.{IsSound, IsSoundTable};
ghost use Rattle.stored_schema.specs.Agreement.{same_table};
ghost use Rattle.stored_schema.specs.Laid.{laid};
ghost use Rattle.stored_schema.specs.Seen.{HasIndex, IsLaid, IsSeen};
ghost use Rattle.stored_schema.specs.Stored.{IsOwn, Stored};
ghost use Rattle.stored_schema.specs.Text.{stored_text};

/// The schema that a database has sees its own stored fields as they are, so it agrees with itself.
pub fn own_schemas_see_themselves()
    ensures { (stored : Stored) → IsOwn stored → IsSeen stored.schema stored stored }
{}

/// What a sound schema sees of a database's own holds the rows of that schema.
pub fn seen_schemas_are_laid()
    ensures { (given : SchemaData) (own seen : Stored) → IsSound given → IsOwn own → IsSeen given own seen → IsLaid seen }
{}

/// At creation a schema is stored so, and its stored text is the canonical one.
pub fn new_schemas_are_own()
    ensures own { (schema : SchemaData) → IsSound schema → IsHeld schema → IsOwn (record { schema = schema; fields = laid schema.tables; text = stored_text schema (laid schema.tables) }) }
    ensures text { (schema : SchemaData) → stored_text schema (laid schema.tables) ≡ canonical_text schema }
{}

/// Where two tables agree, each index of the one is an index of the other with the same UNIQUE and the
/// same components in order, each with the number of its field there.
pub fn agreeing_tables_have_the_same_indexes()
    ensures { (given own : Table) → IsSoundTable given → IsSoundTable own → IsTrue (same_table given own)
        → (k : ℕ) → k < length own.indexes → HasIndex given own (slice_index_or own.indexes k no_index) }
{}
