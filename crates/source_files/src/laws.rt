//! What the definitions say by themselves.

ghost use Rattle.std.specs.Prelude.{◌≡◌, ◌≤◌, List, length, true, ℕ};
ghost use Rattle.preprocessor.specs.Laws.{is_plain};
ghost use Rattle.source_files.specs.declared.files.TheConstants.{MAX_FILE_BYTES};
ghost use Rattle.source_files.specs.Laws.{IsItself};

/// A source whose text has neither `{` nor `&` needs no file, its expansion is its own text, and each
/// place of it is its own.
pub fn a_plain_source_is_itself()
    ensures { (name bytes : List ℕ) → is_plain bytes ≡ true → length bytes ≤ MAX_FILE_BYTES → IsItself name bytes }
{}
