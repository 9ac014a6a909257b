//! The lines of EXPORT and MESSAGE.

ghost use Rattle.std.specs.Prelude.{◌≡◌, ◌++◌, ◌∷◌, [], Bool, List, IfOk, OnOk, map, flat_map};
ghost use Rattle.bound_tree.specs.Tree as tree;
ghost use Rattle.bound_tree.specs.Bound.{expr_of};
ghost use Rattle.block_meaning.specs.Program.{Program};
ghost use Rattle.block_meaning.specs.State.{State};
ghost use Rattle.block_meaning.specs.Values.{values_now, export_line, message_line, text_line};
ghost use Rattle.client_streams.specs.lines.Reads.{IsReadIn, value_read, ReadsAllAs, ReadsNext};
ghost use Rattle.client_streams.specs.lines.Writes.{WritesText, line_text, text_in};

use crate::lines::read::{Read, read_value};
use crate::lines::values::{Form, push_value};
use abl_base::Bytes;
use bound_tree::Expr;
use evaluator::{EvalFault, Surroundings};
use std::alloc::{AllocError, Global};

/// The line of EXPORT: the values with a blank between, texts in `"`, and a line feed. Refuses with
/// the fault of the first expression that has one; else out of memory is the only refusal. (OpenEdge
/// ABL Reference, EXPORT.)
pub fn export_values<S: Surroundings>(
    alloc: Global,
    surroundings: &S,
    expressions: &[Expr],
) -> Result<Bytes, EvalFault>
    ensures { (p : Program) (retry : Bool) (s : State) → IsReadIn p retry s (S.env surroundings.now) → WritesText result (line_text export_line (values_now p (map expr_of expressions.now) retry s)) }
{
    let values = read_all(alloc, surroundings, expressions)?;
    Ok(line(alloc, Form::Export, &values)?)
}

/// The line of MESSAGE: the plain texts of the values with a blank between, and a line feed.
/// Refuses as `export_values`. (OpenEdge ABL Reference, MESSAGE.)
pub fn message_values<S: Surroundings>(
    alloc: Global,
    surroundings: &S,
    expressions: &[Expr],
) -> Result<Bytes, EvalFault>
    ensures { (p : Program) (retry : Bool) (s : State) → IsReadIn p retry s (S.env surroundings.now) → WritesText result (line_text message_line (values_now p (map expr_of expressions.now) retry s)) }
{
    let values = read_all(alloc, surroundings, expressions)?;
    Ok(line(alloc, Form::Plain, &values)?)
}

/// The values of expressions, from left to right.
fn read_all<'a, S: Surroundings>(
    alloc: Global,
    surroundings: &'a S,
    expressions: &[Expr],
) -> Result<Vec<Read<'a>>, EvalFault>
    ensures { (p : Program) (retry : Bool) (s : State) → IsReadIn p retry s (S.env surroundings.now) → ReadsAllAs result (values_now p (map expr_of expressions.now) retry s) }
{
    let mut values = Vec::with_capacity(alloc, expressions.len())?;
    for expression in expressions {
        push_read(alloc, surroundings, &mut values, expression)?;
    }
    Ok(values)
}

/// Adds the value of an expression at the end.
fn push_read<'a, S: Surroundings>(
    alloc: Global,
    surroundings: &'a S,
    values: &mut Vec<Read<'a>>,
    expression: &Expr,
) -> Result<(), EvalFault>
    ensures { (p : Program) (retry : Bool) (s : State) → IsReadIn p retry s (S.env surroundings.now) → (es : List tree.Expr) → ReadsNext result values.old.items values.new.items (values_now p (expr_of expression.now ∷ es) retry s) (values_now p es retry s) }
{
    let value = read_value(alloc, surroundings, expression)?;
    match values.push(value) {
        Ok(()) => Ok(()),
        Err(full) => Err(AllocError::from(full).into()),
    }
}

/// The line of values.
fn line(alloc: Global, form: Form, values: &[Read<'_>]) -> Result<Bytes, AllocError>
    ensures { IfOk result (λ text. text ≡ text_line (text_in form) (map value_read values.now)) }
{
    let mut text = Vec::new(alloc);
    if let [first, rest @ ..] = values {
        push_value(alloc, &mut text, form, first.value())?;
        push_after_blanks(alloc, &mut text, form, rest)?;
    }
    text.push(b'\n')?;
    Ok(Bytes::from_vec(text))
}

/// Appends the texts of values with a blank before each.
fn push_after_blanks(
    alloc: Global,
    text: &mut Vec<u8>,
    form: Form,
    values: &[Read<'_>],
) -> Result<(), AllocError>
    ensures { OnOk result (text.new.items ≡ text.old.items ++ flat_map (λ v. 32 ∷ text_in form (value_read v)) values.now) }
{
    for value in values {
        text.push(b' ')?;
        push_value(alloc, text, form, value.value())?;
    }
    Ok(())
}
