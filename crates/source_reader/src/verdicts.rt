//! A source judged by some of the rules alone, for rows that show one pass at a time.

ghost use Rattle.std.specs.Prelude.{◌+◌, ◌<◌, ◌≡◌, ◌^◌, Err, IfOk, OnOk, length};
ghost use Rattle.abl_base.specs.declared.place.Place.{Place as ThePlace};
ghost use Rattle.abl_base.specs.declared.rule.Rule.{Rule as TheRule};
ghost use Rattle.bound_tree.specs.Bound.{source_of};
ghost use Rattle.source_reader.specs.Sources.{BreaksRule};
ghost use Rattle.source_reader.specs.Verdicts.{HasNames, IsScopedTree};

use crate::source::{SourceFault, bind_syntax, flagged, read_syntax, scope_buffers};
use abl_values::Schema;
use bound_tree::Bound;
use std::alloc::Global;

/// Judges a source over the schema by the rules of tokens, of the grammar, and of names and types
/// alone: the first rule L, else G, else Y that the text breaks, and its place. Out of memory may come
/// at any time.
pub fn judge_names(alloc: Global, schema: &Schema, text: &[u8]) -> Result<(), SourceFault>
    requires { length text.now + 1 < 2 ^ 32 }
    ensures clean { OnOk result (HasNames schema.now text.now) }
    ensures broken { (rule : TheRule) (place : ThePlace) → result ≡ Err (SourceFault.Broken rule place) → BreaksRule schema.now text.now rule place }
{
    let program = read_syntax(alloc, text)?;
    bind_syntax(alloc, schema, text, &program)?;
    Ok(())
}

/// The tree of a source over the schema as `read_source` returns it, for a text that may break a rule
/// U of labels and blocks: the first rule L, else G, else Y, else S that the text breaks, and its
/// place. Out of memory may come at any time.
pub fn read_scopes(alloc: Global, schema: &Schema, text: &[u8]) -> Result<Bound, SourceFault>
    requires { length text.now + 1 < 2 ^ 32 }
    ensures tree { IfOk result (λ bound. IsScopedTree schema.now text.now (source_of bound)) }
    ensures broken { (rule : TheRule) (place : ThePlace) → result ≡ Err (SourceFault.Broken rule place) → BreaksRule schema.now text.now rule place }
{
    let program = read_syntax(alloc, text)?;
    let plain = bind_syntax(alloc, schema, text, &program)?;
    let scoped = scope_buffers(alloc, schema, text, &program, plain)?;
    Ok(flagged(scoped))
}
