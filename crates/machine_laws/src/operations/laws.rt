//! The laws. Each is the contract of a function with an empty body.

ghost use Rattle.std.specs.Prelude.{List, ℕ};
ghost use Rattle.abl_values.specs.Schema.{SchemaData};
ghost use Rattle.flat_machine.specs.Code.{Code, IsCodeOf};
ghost use Rattle.bound_tree.specs.Tree.{Body};
ghost use Rattle.machine_laws.specs.levels.Flagged.{IsFlaggedProgram};
ghost use Rattle.machine_laws.specs.levels.Reached.{Reached};
ghost use Rattle.flat_machine.specs.Config.{Await, OnAnswer, StackEntry};
ghost use Rattle.flat_machine.specs.Steps.{config};
ghost use Rattle.block_meaning.specs.Program.{Program};
ghost use Rattle.block_meaning.specs.State.{State};
ghost use Rattle.database_protocol.specs.declared.event.Event.{Event};
ghost use Rattle.database_protocol.specs.declared.operation.Op.{Op};
ghost use Rattle.machine_laws.specs.operations.HeldRows.{IsOfHeldRow};

/// A client requests Put and Delete only of rows that it holds exclusively by its own events.
pub fn changes_are_of_rows_held_exclusively()
    ensures { (code : Code) (p : Program) (tree : ℕ → Body) (schema : SchemaData) (units : ℕ) (own : List Event) (op : Op) (on : OnAnswer) (ks : List StackEntry) (s : State) → IsCodeOf code p tree → IsFlaggedProgram p → Reached code p schema units own (config (Await op on) ks s) → IsOfHeldRow own op }
{}
