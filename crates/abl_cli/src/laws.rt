//! What follows from what a command did. Each law is what its function ensures.

ghost use Rattle.std.specs.Prelude.{◌≡◌, ◌<◌, ◌⊎◌, ◌∷◌, ◌++◌, ℕ, IsTrue, List, None, Some, length};
ghost use Rattle.storage.specs.faults.Faults.{Rose};
ghost use Rattle.bound_tree.specs.Tree.{Source as Tree};
ghost use Rattle.abl_base.specs.declared.rule.Rule.{Rule as TheRule};
ghost use Rattle.preprocessor.specs.declared.expanded.Origin.{Origin};
ghost use Rattle.preprocessor.specs.declared.texts.NamedText.{NamedText};
ghost use Rattle.schema_reader.specs.Rules.{violation_of};
ghost use Rattle.run_report.specs.declared.refusal.Refusal.{Refusal};
ghost use Rattle.run_report.specs.declared.refusal.Refusal.TheVariants.{Usage, File, TooLong, Schema, Source, Output};
ghost use Rattle.run_works.specs.declared.outcome.Outcome.{Outcome};
ghost use Rattle.run_works.specs.Disks.{IsUntouched, state_of};
ghost use Rattle.source_files.specs.declared.files.TheConstants.{MAX_FILE_BYTES as MOST};
ghost use Rattle.host_io.specs.Out.{appended};
ghost use Rattle.host_io.specs.declared.out.Stream.TheVariants.{Output as Standard};
ghost use Rattle.command_arguments.specs.CommandLine.{Bank, Check, Create, Dump, Run, HaveForm, IsBank, IsWrong, bank_arguments, create_arguments};
ghost use Rattle.abl_values.specs.Schema.{SchemaData, table_named};
ghost use Rattle.bank_run.specs.declared.inputs.sources.TheConstants.{BANK_SCHEMA};
ghost use Rattle.bank_run.specs.Result.{bank_schema};
ghost use Rattle.bank_run.specs.Texts.{bank_texts};
ghost use Rattle.disk_database.specs.Answers.{IsDatabaseOf, IsNoDatabase};
ghost use Rattle.abl_cli.specs.Check.{HaveListings, check_text};
ghost use Rattle.host_io.specs.Out.{OutState};
ghost use Rattle.host_io.specs.Files.{FileState};
ghost use Rattle.abl_cli.specs.Command.{AllThere, AreSources, AreThere, AreTrees, AsksCheck, AsksRun, bank_of, CommandResult, HasWholeText, IsRefusal, IsThere, IsUsage, NamesRun, named_inputs};
ghost use Rattle.source_files.specs.Compiled.{BreaksFirst, schema_in};
ghost use Rattle.source_files.specs.Expansions.{file_of};
ghost use Rattle.abl_cli.specs.Stored.{SaysOfDisk, WritesNothingIfRefused};
ghost use Rattle.abl_cli.specs.Undisturbed.{HasDatabase, IsDone, NamesCreation, NamesTable, RunEnd};
ghost use Rattle.abl_cli.specs.CheckFiles.{NamesSources, SourcesThere};

use storage::Disk;

/// The refusal is Usage, with the number of the wrong argument, exactly where the arguments have no
/// form.
pub fn usage_names_the_wrong_argument<D: Disk>()
    ensures wrong { (disk : D) (arguments : List (List ℕ)) (files : FileState) (faults : ℕ) (old new : OutState) (outcome : Outcome D) (arg : ℕ) → CommandResult (state_of D.Disk) disk arguments files faults old new outcome → outcome.report.refusal ≡ Some (Usage arg) → IsWrong arguments arg }
    ensures reported { (disk : D) (arguments : List (List ℕ)) (files : FileState) (faults : ℕ) (old new : OutState) (outcome : Outcome D) → CommandResult (state_of D.Disk) disk arguments files faults old new outcome → (HaveForm arguments → ⊥) → IsUsage outcome.report.refusal }
    ensures formed { (disk : D) (arguments : List (List ℕ)) (files : FileState) (faults : ℕ) (old new : OutState) (outcome : Outcome D) → CommandResult (state_of D.Disk) disk arguments files faults old new outcome → HaveForm arguments → IsUsage outcome.report.refusal → ⊥ }
{}

/// Over files that are observable and sound, and arguments that name a run, the refusal is the first
/// cause that prevents it, exactly: the first of the schema file and each client's source, the files
/// that the source needs, and its input that is missing or too long, then a rule that the schema breaks
/// first, then the rule that the first source that breaks one breaks first, with the number of its
/// client, and the file and the place where it does, then the first file after INPUT FROM that is
/// missing or too long. In each case it may be out of memory instead.
pub fn the_first_cause_is_the_refusal<D: Disk>()
    ensures no_file { (disk : D) (arguments : List (List ℕ)) (files : FileState) (faults : ℕ) (old new : OutState) (outcome : Outcome D) (run : Run) →
        CommandResult (state_of D.Disk) disk arguments files faults old new outcome → NamesRun arguments files run →
        (name : List ℕ) → AsksRun files run.schema run.clients name →
        files.file name ≡ None → IsRefusal outcome.report.refusal (File name) }
    ensures long_file { (disk : D) (arguments : List (List ℕ)) (files : FileState) (faults : ℕ) (old new : OutState) (outcome : Outcome D) (run : Run) →
        CommandResult (state_of D.Disk) disk arguments files faults old new outcome → NamesRun arguments files run →
        (name text : List ℕ) → AsksRun files run.schema run.clients name →
        files.file name ≡ Some text → MOST < length text → IsRefusal outcome.report.refusal (TooLong name MOST) }
    ensures broken_schema { (disk : D) (arguments : List (List ℕ)) (files : FileState) (faults : ℕ) (old new : OutState) (outcome : Outcome D) (run : Run) →
        CommandResult (state_of D.Disk) disk arguments files faults old new outcome → NamesRun arguments files run →
        (df : List ℕ) (sources : List (List NamedText)) → AllThere files run df sources →
        (rule : TheRule) (line : ℕ) → violation_of df ≡ Some (record { rule = rule; line = line }) → IsRefusal outcome.report.refusal (Schema rule line) }
    ensures broken_source { (disk : D) (arguments : List (List ℕ)) (files : FileState) (faults : ℕ) (old new : OutState) (outcome : Outcome D) (run : Run) →
        CommandResult (state_of D.Disk) disk arguments files faults old new outcome → NamesRun arguments files run →
        (df : List ℕ) (sources : List (List NamedText)) → AllThere files run df sources → violation_of df ≡ None →
        (before after : List (List NamedText)) (trees : List Tree) (texts : List NamedText) → sources ≡ before ++ texts ∷ after → AreSources (schema_in df) before trees →
        (rule : TheRule) (at : Origin) → BreaksFirst (schema_in df) texts rule at → IsRefusal outcome.report.refusal (Source (length before) (file_of texts at.text) rule at.place) }
    ensures no_named_input { (disk : D) (arguments : List (List ℕ)) (files : FileState) (faults : ℕ) (old new : OutState) (outcome : Outcome D) (run : Run) →
        CommandResult (state_of D.Disk) disk arguments files faults old new outcome → NamesRun arguments files run →
        (df : List ℕ) (sources : List (List NamedText)) → AllThere files run df sources → violation_of df ≡ None → (trees : List Tree) → AreSources (schema_in df) sources trees →
        (before after : List (List ℕ)) (name : List ℕ) → named_inputs trees ≡ before ++ name ∷ after → AreThere files before →
        files.file name ≡ None → IsRefusal outcome.report.refusal (File name) }
    ensures long_named_input { (disk : D) (arguments : List (List ℕ)) (files : FileState) (faults : ℕ) (old new : OutState) (outcome : Outcome D) (run : Run) →
        CommandResult (state_of D.Disk) disk arguments files faults old new outcome → NamesRun arguments files run →
        (df : List ℕ) (sources : List (List NamedText)) → AllThere files run df sources → violation_of df ≡ None → (trees : List Tree) → AreSources (schema_in df) sources trees →
        (before after : List (List ℕ)) (name input : List ℕ) → named_inputs trees ≡ before ++ name ∷ after → AreThere files before →
        files.file name ≡ Some input → MOST < length input → IsRefusal outcome.report.refusal (TooLong name MOST) }
{}

/// Where the arguments name a run, the files are observable and sound, the schema file, the sources, the
/// files that they need, the clients' inputs and the files after INPUT FROM are there and short enough,
/// the schema and the sources break no rule, and no write fails, the clients run: the status is 0 or 8
/// by their ends, or 7, for out of memory, or 5, where the disk failed during the run. Or the database
/// was not opened, and the refusal says why.
pub fn a_run_without_faults_is_done<D: Disk>()
    ensures { (disk : D) (arguments : List (List ℕ)) (files : FileState) (faults : ℕ) (old new : OutState) (outcome : Outcome D) (run : Run) →
        CommandResult (state_of D.Disk) disk arguments files faults old new outcome → NamesRun arguments files run →
        (df : List ℕ) (sources : List (List NamedText)) → AllThere files run df sources →
        violation_of df ≡ None → (trees : List Tree) → AreSources (schema_in df) sources trees → AreThere files (named_inputs trees) →
        (Rose old.faults new.faults → ⊥) → IsDone (state_of D.Disk) disk (schema_in df) outcome }
{}

/// Where besides the disk has a database of the schema, and does not fail in the command, the database
/// is opened: the status is 0 or 8 by the clients' ends, or 7, or 5, where an event was answered Closed.
pub fn a_run_over_its_database_ends<D: Disk>()
    ensures { (disk : D) (arguments : List (List ℕ)) (files : FileState) (faults : ℕ) (old new : OutState) (outcome : Outcome D) (run : Run) →
        CommandResult (state_of D.Disk) disk arguments files faults old new outcome → NamesRun arguments files run →
        (df : List ℕ) (sources : List (List NamedText)) → AllThere files run df sources →
        violation_of df ≡ None → (trees : List Tree) → AreSources (schema_in df) sources trees → AreThere files (named_inputs trees) →
        (Rose old.faults new.faults → ⊥) → HasDatabase (schema_in df) (state_of D.Disk disk) → (Rose (D.failures disk) (D.failures outcome.disk) → ⊥) → RunEnd outcome.report }
{}

/// A bank likewise: where its schema and its sources break no rule, the disk has a database of the
/// schema, and neither the disk nor a write fails, it ends as a run does.
pub fn a_bank_over_its_database_ends<D: Disk>()
    ensures { (disk : D) (arguments : List (List ℕ)) (files : FileState) (faults : ℕ) (old new : OutState) (outcome : Outcome D) (bank : Bank) →
        CommandResult (state_of D.Disk) disk arguments files faults old new outcome → IsBank bank → arguments ≡ bank_arguments bank →
        violation_of BANK_SCHEMA.now ≡ None → (trees : List Tree) → AreTrees bank_schema (bank_texts (bank_of bank)) trees →
        (Rose old.faults new.faults → ⊥) → HasDatabase bank_schema (state_of D.Disk disk) → (Rose (D.failures disk) (D.failures outcome.disk) → ⊥) → RunEnd outcome.report }
{}

/// Where the arguments name a creation, the files are observable and sound, the schema file is there,
/// short enough and breaks no rule, and the disk holds no database, of whatever schema, and does not
/// fail: the status is 0, or 7, for out of memory.
pub fn a_creation_without_faults_is_done<D: Disk>()
    ensures { (disk : D) (arguments : List (List ℕ)) (files : FileState) (faults : ℕ) (old new : OutState) (outcome : Outcome D) (create : Create) →
        CommandResult (state_of D.Disk) disk arguments files faults old new outcome → NamesCreation arguments files create →
        (df : List ℕ) → IsThere files create.schema df → violation_of df ≡ None → IsTrue (D.observable disk) → IsNoDatabase (D.seen disk) →
        (Rose (D.failures disk) (D.failures outcome.disk) → ⊥) → (outcome.report.status ≡ 0) ⊎ (outcome.report.status ≡ 7) }
{}

/// A refusal says what a disk that is observable holds: NotCreated, that its image is that of no
/// database, of whatever schema; AlreadyCreated, that it is that of one; SchemaDiffers, that it is that
/// of a database of a schema with the stored text, which is not that of the given one.
pub fn a_refusal_says_what_the_disk_holds<D: Disk>()
    ensures { (disk : D) (arguments : List (List ℕ)) (files : FileState) (faults : ℕ) (old new : OutState) (outcome : Outcome D) (refusal : Refusal) →
        CommandResult (state_of D.Disk) disk arguments files faults old new outcome → IsTrue (D.observable disk) → outcome.report.refusal ≡ Some refusal →
        SaysOfDisk (state_of D.Disk disk) refusal }
{}

/// A refused command writes nothing. Where it ends by a wrong argument, a file that cannot be read or is
/// too long, a rule that the schema or a source breaks, a table that is not there, or by what the disk
/// holds (not created, already created, another schema), the disk is untouched: it reads as before, no
/// write and no sync was made, and a crash leaves the same images.
pub fn a_refused_command_writes_nothing<D: Disk>()
    ensures { (disk : D) (arguments : List (List ℕ)) (files : FileState) (faults : ℕ) (old new : OutState) (outcome : Outcome D) →
        CommandResult (state_of D.Disk) disk arguments files faults old new outcome →
        WritesNothingIfRefused (state_of D.Disk disk) (state_of D.Disk outcome.disk) outcome.report }
{}

/// A creation harms no database. Where the disk is observable and holds one, of whatever schema, it is
/// as it was after a creation, also where it failed.
pub fn a_creation_harms_no_database<D: Disk>()
    ensures { (disk : D) (arguments : List (List ℕ)) (files : FileState) (faults : ℕ) (old new : OutState) (outcome : Outcome D) (create : Create) (schema : SchemaData) →
        CommandResult (state_of D.Disk) disk arguments files faults old new outcome → arguments ≡ create_arguments create → IsTrue (D.observable disk) →
        IsDatabaseOf (D.seen disk) schema → IsUntouched (state_of D.Disk disk) (state_of D.Disk outcome.disk) }
{}

/// After a creation with status 0 over an observable disk, the disk has a database of the schema, which
/// the other commands open.
pub fn a_created_database_may_be_opened<D: Disk>()
    ensures { (disk : D) (arguments : List (List ℕ)) (files : FileState) (faults : ℕ) (old new : OutState) (outcome : Outcome D) (create : Create) →
        CommandResult (state_of D.Disk) disk arguments files faults old new outcome → NamesCreation arguments files create →
        (df : List ℕ) → IsThere files create.schema df → outcome.report.status ≡ 0 → IsTrue (D.observable disk) →
        HasDatabase (schema_in df) (state_of D.Disk outcome.disk) }
{}

/// Where the arguments name a dump of a table of the schema, the files are observable and sound, the
/// schema file is there, short enough and breaks no rule, and the disk has a database of the schema, and
/// neither the disk nor a write fails: the status is 0, or 7, for out of memory.
pub fn a_dump_without_faults_is_done<D: Disk>()
    ensures { (disk : D) (arguments : List (List ℕ)) (files : FileState) (faults : ℕ) (old new : OutState) (outcome : Outcome D) (dump : Dump) →
        CommandResult (state_of D.Disk) disk arguments files faults old new outcome → NamesTable arguments files dump →
        (df : List ℕ) → IsThere files dump.schema df → violation_of df ≡ None → (table : ℕ) → table_named (schema_in df) dump.table ≡ Some table →
        HasDatabase (schema_in df) (state_of D.Disk disk) → (Rose (D.failures disk) (D.failures outcome.disk) → ⊥) → (Rose old.faults new.faults → ⊥) →
        (outcome.report.status ≡ 0) ⊎ (outcome.report.status ≡ 7) }
{}

/// Over files that are observable and sound, and arguments that name a check, the refusal is the first
/// cause that prevents it, exactly: the first of the schema file and the sources, each with the files
/// that it needs, that is missing or too long, then a rule that the schema breaks first, then the rule
/// that the first source that breaks one breaks first, with the number of that source, and the file and
/// the place where it does. In each case it may be out of memory instead.
pub fn the_first_cause_is_the_refusal_of_a_check<D: Disk>()
    ensures no_file { (disk : D) (arguments : List (List ℕ)) (files : FileState) (faults : ℕ) (old new : OutState) (outcome : Outcome D) (check : Check) →
        CommandResult (state_of D.Disk) disk arguments files faults old new outcome → NamesSources arguments files check →
        (name : List ℕ) → AsksCheck files check name →
        files.file name ≡ None → IsRefusal outcome.report.refusal (File name) }
    ensures long_file { (disk : D) (arguments : List (List ℕ)) (files : FileState) (faults : ℕ) (old new : OutState) (outcome : Outcome D) (check : Check) →
        CommandResult (state_of D.Disk) disk arguments files faults old new outcome → NamesSources arguments files check →
        (name text : List ℕ) → AsksCheck files check name →
        files.file name ≡ Some text → MOST < length text → IsRefusal outcome.report.refusal (TooLong name MOST) }
    ensures broken_schema { (disk : D) (arguments : List (List ℕ)) (files : FileState) (faults : ℕ) (old new : OutState) (outcome : Outcome D) (check : Check) →
        CommandResult (state_of D.Disk) disk arguments files faults old new outcome → NamesSources arguments files check →
        (df : List ℕ) (sources : List (List NamedText)) → SourcesThere files check df sources →
        (rule : TheRule) (line : ℕ) → violation_of df ≡ Some (record { rule = rule; line = line }) → IsRefusal outcome.report.refusal (Schema rule line) }
    ensures broken_source { (disk : D) (arguments : List (List ℕ)) (files : FileState) (faults : ℕ) (old new : OutState) (outcome : Outcome D) (check : Check) →
        CommandResult (state_of D.Disk) disk arguments files faults old new outcome → NamesSources arguments files check →
        (df : List ℕ) (sources : List (List NamedText)) → SourcesThere files check df sources → violation_of df ≡ None →
        (before after : List (List NamedText)) (listings : List (List ℕ)) (texts : List NamedText) → sources ≡ before ++ texts ∷ after → HaveListings (schema_in df) before listings →
        (rule : TheRule) (at : Origin) → BreaksFirst (schema_in df) texts rule at → IsRefusal outcome.report.refusal (Source (length before) (file_of texts at.text) rule at.place) }
{}

/// Where the arguments name a check, the files are observable and sound, the schema file, the sources
/// and the files that they need are there and short enough, and the schema and the sources break no
/// rule, and no write fails: the text of the check with exactly these listings is appended to standard
/// output and the status is 0, or the command is out of memory.
pub fn a_check_without_faults_lists_the_sources<D: Disk>()
    ensures { (disk : D) (arguments : List (List ℕ)) (files : FileState) (faults : ℕ) (old new : OutState) (outcome : Outcome D) (check : Check) →
        CommandResult (state_of D.Disk) disk arguments files faults old new outcome → NamesSources arguments files check →
        (df : List ℕ) (sources : List (List NamedText)) → SourcesThere files check df sources → violation_of df ≡ None →
        (listings : List (List ℕ)) → HaveListings (schema_in df) sources listings → (Rose old.faults new.faults → ⊥) → IsTrue old.observable →
        ((outcome.report.status ≡ 0) × (new.texts ≡ appended Standard (check_text check.programs listings) old.texts)) ⊎ (outcome.report.status ≡ 7) }
{}

/// Status 0 means that the whole report, of a run in a mode, or of the check or the dump that the
/// arguments name, was appended to standard output, and nothing to standard error.
pub fn status_0_says_that_the_report_is_whole<D: Disk>()
    ensures { (disk : D) (arguments : List (List ℕ)) (files : FileState) (faults : ℕ) (old new : OutState) (outcome : Outcome D) →
        CommandResult (state_of D.Disk) disk arguments files faults old new outcome → outcome.report.status ≡ 0 → IsTrue old.observable →
        HasWholeText (state_of D.Disk) disk arguments files outcome.report old new }
{}

/// The output is at fault only where the count of write faults rose.
pub fn output_is_at_fault_where_its_count_rose<D: Disk>()
    ensures { (disk : D) (arguments : List (List ℕ)) (files : FileState) (faults : ℕ) (old new : OutState) (outcome : Outcome D) →
        CommandResult (state_of D.Disk) disk arguments files faults old new outcome → outcome.report.refusal ≡ Some Output → Rose old.faults new.faults }
{}
