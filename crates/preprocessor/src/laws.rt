//! What the definition of an expansion says by itself.

ghost use Rattle.std.specs.Prelude.{◌≡◌, true};
ghost use Rattle.preprocessor.specs.Expansion.{expansion};
ghost use Rattle.preprocessor.specs.Laws.{DefinitionsEnd, IsItself, IsShort, is_plain};
ghost use Rattle.preprocessor.specs.Texts.{AreTexts, bytes_at};

use crate::texts::NamedText;

/// A source without `{` and `&` expands to itself, and each byte has its own place.
pub fn plain_text_is_itself(texts: &[NamedText])
    requires short { AreTexts texts.now }
    requires plain { is_plain (bytes_at texts.now 0) ≡ true }
    ensures { IsItself texts.now }
{}

/// What a file defines for itself ends with it.
pub fn definitions_end(texts: &[NamedText])
    ensures { DefinitionsEnd texts.now }
{}

/// An expansion has at most 1,048,576 bytes.
pub fn an_expansion_is_short(texts: &[NamedText])
    ensures { IsShort (expansion texts.now) }
{}
