//! The laws. Each is the contract of a function with an empty body.

ghost use Rattle.std.specs.Prelude.{◌≡◌, List, true, ℕ};
ghost use Rattle.std.specs.List.{list_all};
ghost use Rattle.abl_values.specs.Schema.{SchemaData};
ghost use Rattle.flat_machine.specs.Code.{Code, IsCodeOf};
ghost use Rattle.flat_machine.specs.Config.{Await, OnAnswer, StackEntry};
ghost use Rattle.flat_machine.specs.Steps.{config};
ghost use Rattle.block_meaning.specs.Program.{Program};
ghost use Rattle.block_meaning.specs.State.{State};
ghost use Rattle.bound_tree.specs.Tree.{Body, Procedure, Source};
ghost use Rattle.txn_infer.specs.Flags.{with_flags};
ghost use Rattle.txn_infer.specs.Undo.{has_undo};
ghost use Rattle.database_protocol.specs.declared.event.Event.{Event};
ghost use Rattle.database_protocol.specs.declared.operation.Op.{Op};
ghost use Rattle.client_runner.specs.Levels.{levels_left};
ghost use Rattle.machine_laws.specs.levels.Flagged.{IsFlaggedProgram};
ghost use Rattle.machine_laws.specs.levels.Reached.{IsInside, Reached};

/// A client requests Leave and Back only of levels that its own events have left open, and Put and
/// Delete only while they have left one open.
pub fn changes_are_inside_a_level()
    ensures { (code : Code) (p : Program) (tree : ℕ → Body) (schema : SchemaData) (units : ℕ) (own : List Event) (op : Op) (on : OnAnswer) (ks : List StackEntry) (s : State) → IsCodeOf code p tree → IsFlaggedProgram p → Reached code p schema units own (config (Await op on) ks s) → IsInside (levels_left 0 own) op }
{}

/// The flags that `txn_infer` sets say of each block whether it starts a transaction, where the block
/// of each procedure can be undone.
pub fn inferred_flags_say_what_starts()
    ensures { (p : Program) (plain : Source) → p.source ≡ with_flags plain → list_all (λ (q : Procedure). has_undo q.header) plain.procedures ≡ true → IsFlaggedProgram p }
{}
