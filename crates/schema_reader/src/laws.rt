//! What the canonical text of a schema determines, and that a file means a schema.

ghost use Rattle.std.specs.Prelude.{◌≡◌};
ghost use Rattle.abl_values.specs.Schema.{canonical_text};
ghost use Rattle.schema_reader.specs.Laws.{AnswerAlike, SchemasOfFilesAreSound};

use abl_values::Schema;

/// Two schemas with one canonical text answer every reader alike, names taken without case, and have
/// tables and sequences in one order. Masks are left out, since the canonical text has none.
pub fn canonical_text_determines_answers(a: &Schema, b: &Schema)
    requires { canonical_text a.now ≡ canonical_text b.now }
    ensures { AnswerAlike a.now b.now }
{
    a.soundness();
    b.soundness();
}

/// The converse: two schemas that answer every reader alike, names taken without case, and have
/// tables and sequences in one order, have one canonical text, whatever their masks are.
pub fn answers_determine_canonical_text(a: &Schema, b: &Schema)
    requires { AnswerAlike a.now b.now }
    ensures { canonical_text a.now ≡ canonical_text b.now }
{}

/// What a file without violation means is a sound schema, as each `Schema` is.
pub fn schemas_of_files_are_sound()
    ensures { SchemasOfFilesAreSound }
{}
