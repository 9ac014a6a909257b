//! The laws. Each is the contract of a function with an empty body.

ghost use Rattle.std.specs.Prelude.{◌≤◌, ◌++◌, ◌∷◌, [], ℕ, List, IsTrue, length, true};
ghost use Rattle.abl_values.specs.Schema.{SchemaData, canonical_text};
ghost use Rattle.abl_values.specs.Sound.{IsSound};
ghost use Rattle.schema_text.specs.Written.{IsHeld};
ghost use Rattle.database_protocol.specs.declared.event.Event.{Event};
ghost use Rattle.database_meaning.specs.declared.contents.Contents.{Contents};
ghost use Rattle.database_meaning.specs.Setting.{Setting};
ghost use Rattle.database_meaning.specs.Traces.{IsLegal, acknowledged, commits, is_acknowledged};
ghost use Rattle.log_meaning.specs.steps.Steps.{Image};
ghost use Rattle.log_meaning.specs.Images.{Recovers};
ghost use Rattle.database_layout.specs.contents.Born.{IsBorn};
ghost use Rattle.database_layout.specs.contents.Contents.{Contents as SlotContents};
ghost use Rattle.db_core.specs.Crashes.{AreMoments};
ghost use Rattle.disk_database.specs.Answers.{IsBornOf, IsDatabaseOf, IsNoDatabase, IsRefused};
ghost use Rattle.disk_database.specs.Images.{AreImagesOf, IsImageOf, created};
ghost use Rattle.disk_database.specs.declared.refusals.OpenRefusal.TheVariants.{NotCreated};
ghost use Rattle.crash_laws.specs.Births.{LeavesBorn, RunLeavesBorn};
ghost use Rattle.crash_laws.specs.Calls.{CallHistory, IsCallHistory, KeptCall, NothingIsLostIn};
ghost use Rattle.crash_laws.specs.Disks.{ComesNext, IsBeingMade, IsMade, MayBeOpened, view_of};
ghost use Rattle.crash_laws.specs.Logs.{AreCommands, HasShortLog, LogStaysShort};
ghost use Rattle.crash_laws.specs.History.{PastRun, History, IsDurable, IsHistory, IsLeftBy, IsOpenedAfter, NothingIsLost};

use storage::Disk;

/// A disk on which `create` answered Ok may be opened, after a crash too: with no rows, and with each
/// sequence at its initial value.
pub fn a_creation_is_opened<D: Disk>()
    ensures { (schema : SchemaData) (made disk : D) → IsMade schema (view_of D.Disk made) → ComesNext (view_of D.Disk made) (view_of D.Disk disk) → ∥ MayBeOpened schema (created schema) (view_of D.Disk disk) ∥₁ }
{}

/// A crash during a creation on an empty disk leaves nothing, or the new database: whatever the image
/// recovers to, it is one of the new database.
pub fn a_creation_is_whole_or_nothing<D: Disk>()
    ensures { (schema : SchemaData) (was now : D) (m : ℕ) (image : Image) (slots : ℕ → List ℕ) → IsBeingMade schema (view_of D.Disk was) (view_of D.Disk now) →
        D.time was ≤ m → D.left now m image → Recovers image slots → ∥ IsImageOf schema (created schema) image ∥₁ }
{}

/// Each crash of a run over contents that the disk held leaves a database: each image that a crash at a
/// moment from its opening on may leave is born, with the contents after the commits that were
/// acknowledged by then, or after one more.
pub fn each_crash_leaves_a_database<D: Disk>()
    ensures { (schema : SchemaData) (contents : Contents) (run : PastRun D) → IsSound schema → IsDurable (view_of D.Disk) schema run →
        AreImagesOf (D.observable run.was) (D.time run.was) (D.left run.was) schema contents → RunLeavesBorn (view_of D.Disk) schema contents run }
{}

/// What survives a crash is opened again. A run over contents of a sound schema, one that a `Schema` can
/// hold, that the disk held crashed, or ended, and left a disk: this one may be opened, with the contents
/// after some first commits of the run, among which is each one that was acknowledged by then, and of the
/// others at most one.
pub fn what_survives_is_opened<D: Disk>()
    ensures { (schema : SchemaData) (contents : Contents) (run : PastRun D) (disk : D) → IsSound schema → IsHeld schema → IsDurable (view_of D.Disk) schema run →
        AreImagesOf (D.observable run.was) (D.time run.was) (D.left run.was) schema contents → IsLeftBy (view_of D.Disk) run disk → ∥ IsOpenedAfter (view_of D.Disk) schema contents run disk ∥₁ }
{}

/// Nothing acknowledged is lost, in any history of a database: a creation, then runs, each over what the
/// one before left, at a crash or at its end. The first run opens a new database, each other one the
/// contents after the commits of the run before that were acknowledged by then, or after one more, and so
/// does whoever opens the disk that is left at last.
pub fn nothing_acknowledged_is_lost<D: Disk>()
    ensures { (history : History D) → IsHistory (view_of D.Disk) history → ∥ NothingIsLost (view_of D.Disk) history.schema (created history.schema) history.runs history.last ∥₁ }
{}

/// No call on a database loses what was acknowledged, in any history: a creation, then runs and calls
/// that keep the contents, as dumps and refused commands do, a creation too, each over what the one
/// before left, at a crash or at its end. A call after a run is over the contents after the commits of the
/// run that were acknowledged by then, or after one more; after every other call it is over the same
/// contents.
pub fn no_call_loses_what_was_acknowledged<D: Disk>()
    ensures { (history : CallHistory D) → IsCallHistory (view_of D.Disk) history → ∥ NothingIsLostIn (view_of D.Disk) history.schema (created history.schema) history.calls history.last ∥₁ }
{}

/// Each crash leaves a database, in any history of one: a creation, then runs and calls that keep the
/// contents, each over what the one before left, at a crash or at its end. Each image that a crash at a
/// moment of a run may leave is born, with the contents after the commits that were acknowledged by
/// then, or after one more; each image of a moment of every other call with the contents that it found;
/// and so are the images of the disk that is left at last.
pub fn each_crash_of_a_history_leaves_a_database<D: Disk>()
    ensures { (history : CallHistory D) → IsCallHistory (view_of D.Disk) history → ∥ LeavesBorn (view_of D.Disk) history.schema (created history.schema) history.calls history.last ∥₁ }
{}

/// An image that is born is that of a database, where a `Schema` can hold its schema and the text of
/// this is at most 1,048,576 bytes long. So no disk whose reads give such an image is refused as not
/// created, whatever the schema that it is opened with; and an image that is not born of such a schema is
/// that of no database. What `open` ensures after Ok (`IsBornOf`) makes it a database of the schema that was
/// given: so over the image of no database `open` answers NotCreated, unless the disk fails or memory is
/// out.
pub fn a_born_image_is_a_database()
    ensures database { (image : Image) (contents : SlotContents) (born : IsBorn image contents) → IsHeld born.schema → length (canonical_text born.schema) ≤ 1048576 → IsDatabaseOf image born.schema }
    ensures not_refused { (schema : SchemaData) (image : Image) (contents : SlotContents) (born : IsBorn image contents) → IsHeld born.schema → length (canonical_text born.schema) ≤ 1048576 →
        IsRefused schema true image NotCreated → ⊥ }
    ensures opened { (schema : SchemaData) (image : Image) → IsBornOf image schema → IsHeld schema → length (canonical_text schema) ≤ 1048576 → IsDatabaseOf image schema }
    ensures no_other { (image : Image) → ((contents : SlotContents) (born : IsBorn image contents) → IsHeld born.schema → length (canonical_text born.schema) ≤ 1048576 → ⊥) → IsNoDatabase image }
{}

/// The log stays short, in any history of commands, `create` too, each over what the one before left, at
/// a crash or at its end: where no image of the first disk has an area of the log longer than
/// 167,772,160 bytes, no image of any moment of these commands has one, nor of the disk that is left.
pub fn the_log_stays_short<D: Disk>()
    ensures { (calls : List (KeptCall D)) (last : D) → AreCommands (view_of D.Disk) (λ disk. HasShortLog (view_of D.Disk disk)) calls last → LogStaysShort (view_of D.Disk) calls last }
{}

/// An acknowledged commit is among the first ones of its trace: through an event that was answered
/// Committed by a moment, the trace has no more commits than were acknowledged by that moment.
pub fn an_acknowledged_commit_is_among_the_first()
    ensures { (f : Setting) (contents : Contents) (before later : List Event) (e : Event) (from now m : ℕ) → IsLegal f contents (before ++ e ∷ later) → AreMoments from (before ++ e ∷ later) now →
        IsTrue (is_acknowledged m e.answer) → commits f contents (before ++ e ∷ []) ≤ acknowledged m (before ++ e ∷ later) }
{}
