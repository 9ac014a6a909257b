//! The laws. Each is the contract of a function with an empty body.

ghost use Rattle.std.specs.Prelude.{◌≡◌, ℕ, List};
ghost use Rattle.abl_values.specs.Schema.{SchemaData, canonical_text};
ghost use Rattle.abl_values.specs.Sound.{IsSound};
ghost use Rattle.indexed_store.specs.Opened.{HoldStore};
ghost use Rattle.slot_rows.specs.Decoded.{decoded};

/// Whether slots hold the rows and sequence values of a database depends on the schema's canonical text
/// alone: the case of names and the masks do not matter.
pub fn the_text_decides_what_slots_hold()
    ensures { (a b : SchemaData) (slots : ℕ → List ℕ) → IsSound a → IsSound b → canonical_text a ≡ canonical_text b → HoldStore a slots → HoldStore b slots }
{}

/// So it is of the rows that are read from slots, whatever these hold: under two schemas with one
/// canonical text each identity has the same row, or none.
pub fn the_text_decides_which_rows_are_read()
    ensures { (a b : SchemaData) (slots : ℕ → List ℕ) → IsSound a → IsSound b → canonical_text a ≡ canonical_text b → decoded a slots ≡ decoded b slots }
{}
