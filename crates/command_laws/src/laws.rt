//! The laws. Each is the contract of a function with an empty body.

ghost use Rattle.std.specs.Prelude.{◌≡◌, ◌+◌, ℕ, List, None, length, map};
ghost use Rattle.abl_values.specs.Schema.{SchemaData};
ghost use Rattle.bank_run.specs.Phases.{HasRunPhases};
ghost use Rattle.client_threads.specs.served.Works.{Work};
ghost use Rattle.command_arguments.specs.CommandLine.{Run, arguments_of};
ghost use Rattle.command_arguments.specs.declared.parts.Mode.{Mode};
ghost use Rattle.database_meaning.specs.Laws.{IsIsolatedThroughout};
ghost use Rattle.database_meaning.specs.declared.contents.Contents.{Contents};
ghost use Rattle.host_io.specs.Files.{FileState};
ghost use Rattle.host_io.specs.Out.{OutState};
ghost use Rattle.schema_reader.specs.Rules.{violation_of};
ghost use Rattle.source_files.specs.Compiled.{schema_in};
ghost use Rattle.disk_database.specs.Images.{created};
ghost use Rattle.run_works.specs.declared.outcome.Outcome.{Outcome};
ghost use Rattle.run_report.specs.declared.ending.Report.{Report};
ghost use Rattle.run_works.specs.Disks.{HoldsContents, state_of};
ghost use Rattle.run_works.specs.Works.{HasRun};
ghost use Rattle.command_laws.specs.refusals.Unrefused.{NoneRefused};
ghost use Rattle.abl_cli.specs.Command.{CommandResult};
ghost use Rattle.abl_cli.specs.Undisturbed.{HasDatabase};
ghost use Rattle.crash_laws.specs.Disks.{ComesNext, view_of};
ghost use Rattle.crash_laws.specs.History.{NothingIsLost};
ghost use Rattle.command_laws.specs.Databases.{AreCommandsOver, IsOver, LeaveDatabases, LeavesDatabases, LoseNothing, TimedCommand};
ghost use Rattle.command_laws.specs.History.{CommandHistory, HasCreated, HasResult, IsCommandHistory, PastCommand, past_run};

use database_meaning::laws::legal_traces_are_isolated;
use storage::Disk;

/// No answer to an operation of a client of a run is Refused, whatever the files, the disk and the
/// schedule.
pub fn no_client_of_a_run_is_refused<D: Disk>()
    ensures { (disk : D) (arguments : List (List ℕ)) (files : FileState) (faults : ℕ) (old new : OutState) (outcome : Outcome D) (run : Run) →
        CommandResult (state_of D.Disk) disk arguments files faults old new outcome → arguments ≡ arguments_of run → NoneRefused outcome.report.trace }
{}

/// Nothing acknowledged is lost. A creation with status 0, then runs of clients, each over the disk that
/// the one before left, at a crash at any moment from its opening on, or at its end: the first run opens
/// a new database of the schema file, each other one the contents after the commits of the run before
/// that were acknowledged by then, or after one more, and so does whoever opens the disk that is left at
/// last.
pub fn nothing_acknowledged_is_lost<D: Disk>()
    ensures { (history : CommandHistory D) → IsCommandHistory D.Disk history →
        ∥ NothingIsLost (view_of D.Disk) (schema_in history.df) (created (schema_in history.df)) (map past_run history.runs) history.last ∥₁ }
{}

/// No command loses what was acknowledged. A creation with status 0, then any commands over its database
/// (runs, banks, dumps, checks, other creations, commands that are refused), each over the disk that the
/// one before left, at a crash at any moment from its call on, or at its end: each command finds the
/// contents after the commits that the one before acknowledged, or after one more, and so does whoever
/// opens the disk that is left at last. A command that is no run leaves the contents that it found, also
/// a creation in which the disk fails.
pub fn no_command_loses_what_was_acknowledged<D: Disk>()
    ensures { (df : List ℕ) (creation : PastCommand D) (commands : List (TimedCommand D)) (last : D) → HasCreated D.Disk df creation →
        AreCommandsOver D.Disk df (λ disk. ComesNext (view_of D.Disk creation.outcome.disk) (view_of D.Disk disk)) commands last →
        ∥ LoseNothing D.Disk (schema_in df) (created (schema_in df)) commands last ∥₁ }
{}

/// Each crash of a command leaves a database. A command over the database of a schema file that breaks
/// no rule, whatever the command is, what its files hold besides, and the schedule: each image that a
/// crash at a moment from its call to its return may leave is born, with some contents of that schema.
/// So it is of a creation too, of any schema file, also where the disk fails.
pub fn a_command_leaves_a_database<D: Disk>()
    ensures { (df : List ℕ) (command : PastCommand D) → HasResult D.Disk command → IsOver df command → violation_of df ≡ None →
        HasDatabase (schema_in df) (state_of D.Disk command.disk) → LeavesDatabases D.Disk (schema_in df) command }
{}

/// Each crash leaves a database, in any history of commands: a creation with status 0, then any
/// commands over its database (runs, banks, dumps, checks, other creations, commands that are refused),
/// each over the disk that the one before left, at a crash at any moment from its call on, or at its
/// end. Each image that a crash at a moment of one of them may leave is born, with some contents of the
/// schema of the file, and so is each image of the disk that is left at last.
pub fn each_crash_leaves_a_database<D: Disk>()
    ensures { (df : List ℕ) (creation : PastCommand D) (commands : List (TimedCommand D)) (last : D) → HasCreated D.Disk df creation →
        AreCommandsOver D.Disk df (λ disk. ComesNext (view_of D.Disk creation.outcome.disk) (view_of D.Disk disk)) commands last → ∥ LeaveDatabases D.Disk (schema_in df) commands last ∥₁ }
{}

/// The clients of a run are isolated, and those of a bank, over any contents that the disk held, whatever
/// the schedule. After each event of the reported trace no clients wait for each other in a cycle, a row
/// that one client holds exclusively is held by no other, the uncommitted changes of two clients are of
/// different rows, no two clients keep one key, and unique keys are unique; and what a client reads under
/// a lock inside a transaction is what its own changes then have for the row, or what is committed for
/// it at each later moment up to the end of that transaction.
pub fn the_clients_of_a_run_are_isolated<D: Disk>()
    ensures run { (mode : Mode) (schema : SchemaData) (names : List (List ℕ)) (units : ℕ) (works : List Work) (was now : D) (old new : OutState) (report : Report) (contents : Contents) →
        HasRun mode schema names units works (state_of D.Disk was) (state_of D.Disk now) old new report → HoldsContents (state_of D.Disk was) schema contents →
        IsIsolatedThroughout (record { schema = schema; clients = length works }) contents report.trace }
    ensures bank { (mode : Mode) (schema : SchemaData) (names : List (List ℕ)) (units clients : ℕ) (works : List Work) (was now : D) (old new : OutState) (report : Report) (contents : Contents) →
        HasRunPhases mode schema names units clients works (state_of D.Disk was) (state_of D.Disk now) old new report → HoldsContents (state_of D.Disk was) schema contents →
        IsIsolatedThroughout (record { schema = schema; clients = clients + 2 }) contents report.trace }
{
    legal_traces_are_isolated();
}
