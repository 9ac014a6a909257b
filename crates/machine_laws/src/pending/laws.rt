//! The law. It is the contract of a function with an empty body.

ghost use Rattle.std.specs.Prelude.{List, ℕ};
ghost use Rattle.abl_values.specs.Schema.{SchemaData};
ghost use Rattle.flat_machine.specs.Code.{Code, IsCodeOf};
ghost use Rattle.flat_machine.specs.Config.{Await, OnAnswer, StackEntry};
ghost use Rattle.flat_machine.specs.Steps.{config};
ghost use Rattle.block_meaning.specs.Program.{Program};
ghost use Rattle.block_meaning.specs.State.{State};
ghost use Rattle.bound_tree.specs.Tree.{Body};
ghost use Rattle.database_protocol.specs.declared.event.Event.{Event};
ghost use Rattle.database_protocol.specs.declared.operation.Op.{Op};
ghost use Rattle.client_runner.specs.Levels.{levels_left};
ghost use Rattle.machine_laws.specs.levels.Flagged.{IsFlaggedProgram};
ghost use Rattle.machine_laws.specs.levels.Reached.{Reached};
ghost use Rattle.machine_laws.specs.pending.Inserted.{IsInsertedInside};

/// A client requests Insert only while its own events have left a level open.
pub fn insertions_are_inside_a_level()
    ensures { (code : Code) (p : Program) (tree : ℕ → Body) (schema : SchemaData) (units : ℕ) (own : List Event) (op : Op) (on : OnAnswer) (ks : List StackEntry) (s : State) → IsCodeOf code p tree → IsFlaggedProgram p → Reached code p schema units own (config (Await op on) ks s) → IsInsertedInside (levels_left 0 own) op }
{}
