//! What every legal trace of the database machine commits. Its law is the contract of a function that
//! does nothing.

ghost use Rattle.std.specs.Prelude.{ℕ, List};
ghost use Rattle.database_protocol.specs.declared.event.Event.{Event};
ghost use Rattle.database_meaning.specs.declared.contents.Contents.{Contents};
ghost use Rattle.database_meaning.specs.Setting.{Setting};
ghost use Rattle.database_meaning.specs.Traces.{IsLegal, IsSoundContents, after_commits};

/// The contents after each commit of a legal trace are contents that a database of its schema can have:
/// each row is one of its table with keys that are not too long, and no two rows have one unique key.
pub fn commits_are_sound()
    ensures { (f : Setting) (contents : Contents) (trace : List Event) (n : ℕ) → IsLegal f contents trace → IsSoundContents f (after_commits f contents trace n) }
{}
