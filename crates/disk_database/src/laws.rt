//! What holds of the images of a database. Each law is the contract of a function that does nothing.

ghost use Rattle.std.specs.Prelude.{◌≡◌, ◌≤◌, ℕ, List, length, true};
ghost use Rattle.abl_values.specs.Schema.{SchemaData, canonical_text};
ghost use Rattle.abl_values.specs.Sound.{IsSound};
ghost use Rattle.schema_text.specs.Written.{IsHeld};
ghost use Rattle.database_meaning.specs.declared.contents.Contents.{Contents};
ghost use Rattle.database_meaning.specs.Setting.{Setting};
ghost use Rattle.database_meaning.specs.Traces.{IsSoundContents};
ghost use Rattle.log_meaning.specs.steps.Steps.{Image};
ghost use Rattle.database_layout.specs.contents.Born.{IsBorn};
ghost use Rattle.database_layout.specs.contents.Contents.{contents_in, new_contents};
ghost use Rattle.disk_database.specs.Answers.{IsDatabaseOf, IsRefused};
ghost use Rattle.disk_database.specs.Images.{IsImageOf, created, stored_contents};
ghost use Rattle.disk_database.specs.declared.refusals.OpenRefusal.TheVariants.{NotCreated, SchemaDiffers};

/// An image that is born of a schema is one of the contents of a new database: no rows, and each
/// sequence at its initial value.
pub fn a_new_database_is_one()
    ensures { (schema : SchemaData) (image : Image) → IsBorn image (new_contents schema) → length (canonical_text schema) ≤ 1048576 → IsImageOf schema (created schema) image }
{}

/// The image of a database is born, with the contents that its slots hold.
pub fn a_database_is_born()
    ensures { (schema : SchemaData) (image : Image) → (database : IsDatabaseOf image schema) → IsBorn image (contents_in schema database.slots) }
{}

/// An image of sound contents is that of a database, where the schema is sound and a `Schema` can
/// hold it.
pub fn an_image_of_contents_is_a_database()
    ensures { (f : Setting) (contents : Contents) (image : Image) → IsSound f.schema → IsHeld f.schema → IsSoundContents f contents → IsImageOf f.schema contents image → ∥ IsDatabaseOf image f.schema ∥₁ }
{}

/// A disk whose reads give an image of contents of the schema is not refused for its text; nor because
/// it holds no database, where the schema and the contents are sound and a `Schema` can hold the
/// schema.
pub fn a_database_is_not_refused()
    ensures differs { (schema : SchemaData) (contents : Contents) (seen : Image) (stored given : List ℕ) → IsImageOf schema contents seen → IsRefused schema true seen (SchemaDiffers stored given) → ⊥ }
    ensures not_created { (f : Setting) (contents : Contents) (seen : Image) → IsSound f.schema → IsHeld f.schema → IsSoundContents f contents → IsImageOf f.schema contents seen → IsRefused f.schema true seen NotCreated → ⊥ }
{}

/// An image of sound contents is that of a database: it is born, with these contents.
pub fn an_image_of_contents_is_born()
    ensures { (f : Setting) (contents : Contents) (image : Image) → IsSound f.schema → IsSoundContents f contents → IsImageOf f.schema contents image → ∥ IsBorn image (stored_contents f.schema contents) ∥₁ }
{}
