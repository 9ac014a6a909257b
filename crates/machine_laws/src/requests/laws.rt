//! The laws. Each is the contract of a function with an empty body.

ghost use Rattle.std.specs.Prelude.{◌≢◌, List, ℕ};
ghost use Rattle.abl_values.specs.Schema.{SchemaData};
ghost use Rattle.flat_machine.specs.Code.{Code, IsCodeOf};
ghost use Rattle.block_meaning.specs.Meaning.{run};
ghost use Rattle.block_meaning.specs.Program.{Program};
ghost use Rattle.bound_tree.specs.Tree.{Body};
ghost use Rattle.database_protocol.specs.declared.event.Event.{Event};
ghost use Rattle.database_protocol.specs.declared.operation.Op.{Op};
ghost use Rattle.client_runner.specs.Levels.{levels_left};
ghost use Rattle.machine_laws.specs.levels.Flagged.{IsFlaggedProgram};
ghost use Rattle.machine_laws.specs.levels.Reached.{IsInside};
ghost use Rattle.machine_laws.specs.operations.HeldRows.{IsOfHeldRow};
ghost use Rattle.machine_laws.specs.pending.Inserted.{IsInsertedInside};
ghost use Rattle.machine_laws.specs.requests.Requested.{IsReached, Requests};

/// Each operation but End that a run requests is one that a configuration asks which the client
/// reaches with its own events.
pub fn requests_are_reached()
    ensures { (code : Code) (p : Program) (tree : ℕ → Body) (schema : SchemaData) (units : ℕ) (own : List Event) (op : Op) → IsCodeOf code p tree → Requests (run p units) schema own op → op ≢ Op.End → IsReached code p schema units own op }
{}

/// A run requests Leave and Back only of levels that the client's own events have left open, Insert,
/// Put and Delete only while they have left one open, and Put and Delete only of rows that it holds
/// exclusively by them.
pub fn changes_are_requested_rightly()
    ensures inside { (code : Code) (p : Program) (tree : ℕ → Body) (schema : SchemaData) (units : ℕ) (own : List Event) (op : Op) → IsCodeOf code p tree → IsFlaggedProgram p → Requests (run p units) schema own op → IsInside (levels_left 0 own) op }
    ensures inserted { (code : Code) (p : Program) (tree : ℕ → Body) (schema : SchemaData) (units : ℕ) (own : List Event) (op : Op) → IsCodeOf code p tree → IsFlaggedProgram p → Requests (run p units) schema own op → IsInsertedInside (levels_left 0 own) op }
    ensures held { (code : Code) (p : Program) (tree : ℕ → Body) (schema : SchemaData) (units : ℕ) (own : List Event) (op : Op) → IsCodeOf code p tree → IsFlaggedProgram p → Requests (run p units) schema own op → IsOfHeldRow own op }
{}
