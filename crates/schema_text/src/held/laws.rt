//! What holds of the schemas of files. The law is the contract of a function that does nothing.

ghost use Rattle.std.specs.Prelude.{◌≡◌, ℕ, List, None};
ghost use Rattle.schema_reader.specs.Meaning.{schema_of};
ghost use Rattle.schema_reader.specs.Rules.{violation_of};
ghost use Rattle.schema_lines.specs.Files.{items_of};
ghost use Rattle.schema_text.specs.Written.{IsHeld};

/// What a file without violation means, a `Schema` can hold: no two of its tables, of its sequences or
/// of the indexes of a table have one name, there are at most 256 sequences, and the number of a
/// primary index has 16 bits.
pub fn schemas_of_files_are_held()
    ensures { (text : List ℕ) → violation_of text ≡ None → IsHeld (schema_of (items_of text)) }
{}
