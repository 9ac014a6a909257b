//! What holds of the text of a schema in slots. Each law is the contract of a function that does nothing.

ghost use Rattle.std.specs.Prelude.{◌≤◌, ℕ, List, length};
ghost use Rattle.abl_values.specs.Schema.{SchemaData, canonical_text};
ghost use Rattle.database_layout.specs.contents.Contents.{HoldSchema};
ghost use Rattle.database_layout.specs.stored_text.Held.{HoldText};

/// Slots that hold a schema, whose text has at most 2^20 bytes, hold its text.
pub fn a_schema_is_its_text()
    ensures { (slots : ℕ → List ℕ) (schema : SchemaData) → HoldSchema slots schema → length (canonical_text schema) ≤ 1048576 → HoldText slots (canonical_text schema) }
{}
