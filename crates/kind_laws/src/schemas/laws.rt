//! The law. It is the contract of a function with an empty body.

ghost use Rattle.std.specs.Prelude.{◌≡◌, Ok, true};
ghost use Rattle.abl_values.specs.Schema.{SchemaData};
ghost use Rattle.abl_values.specs.Sound.{IsSound};
ghost use Rattle.syntax_tree.specs.Syntax.{Program};
ghost use Rattle.bound_tree.specs.Tree.{Source};
ghost use Rattle.binder.specs.Sources.{bound};
ghost use Rattle.buffer_scope.specs.Scoped.{with_scopes};
ghost use Rattle.txn_infer.specs.Flags.{with_flags};
ghost use Rattle.kind_laws.specs.schemas.Named.{has_source};

/// A sound schema has what the tree of a source names that breaks none of the rules Y: the tables of the
/// buffers in which it reads or creates records, the indexes by which it reads, and the sequences.
pub fn trees_name_what_the_schema_has()
    ensures { (schema : SchemaData) (program : Program) (plain : Source) → IsSound schema → bound schema program ≡ Ok plain → has_source schema (with_flags (with_scopes program plain)) ≡ true }
{}
