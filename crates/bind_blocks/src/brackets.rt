//! The bracket of a WHERE: the values of the leading components of the index, from the parts
//! `field = value` that AND joins outside of parentheses.

ghost use Rattle.std.specs.List.{list_any};
ghost use Rattle.std.specs.Prelude.{◌≡◌, [], IfOk, map, slice_index_or, unwrap_or};
ghost use Rattle.abl_base.specs.declared.value.Kind.TheVariants.{Character};
ghost use Rattle.abl_values.specs.Schema.{no_field, same_name};
ghost use Rattle.bound_tree.specs.Bound.{bracket_value_of, maybe_expr_of};
ghost use Rattle.syntax_tree.specs.Syntax.{Expression as SyntaxExpression};
ghost use Rattle.syntax_tree.specs.Typed.{expression_of, joined, linked_of};
ghost use Rattle.bind_names.specs.Names.{buffer_number, meaning, or_else};
ghost use Rattle.bind_names.specs.Views.{buffer_of, meaning_of, scene_of};
ghost use Rattle.bind_blocks.specs.Records.{and_parts, bracket_of, first_said, is_equal_sign, is_field};
ghost use Rattle.bind_blocks.specs.Views.{lone_name, name_in, said_by};

use abl_base::{Items, Kind};
use abl_values::{FieldDef, KeyPart, same_name};
use bind_expressions::expressions::expression;
use bind_names::meaning::{Buffer, Meaning, buffer_number, named_meaning};
use bind_names::{BindFault, Naming, Notes, Scene};
use bound_tree::{Binary, BracketValue, Expr};
use std::alloc::Global;
use syntax_tree::{Expression, Link, Named, Operator};

/// What an expression before an operator is.
#[derive(Clone, Copy)]
pub enum Left<'a> {
    Name(&'a Named),
    Other,
}

fn is_equal_sign(operator: Binary) -> bool
    ensures { result ≡ is_equal_sign operator }
{
    matches!(operator, Binary::Equal)
}

/// Nothing noted so far.
fn no_notes(alloc: Global) -> Notes
    ensures { result.names ≡ [] }
{
    Notes {
        first: None,
        names: Items::empty(alloc),
    }
}

/// Whether this is the field of the buffer.
fn is_field(buffer: u32, field: u16, meaning: Meaning<'_>) -> bool
    ensures { result ≡ is_field buffer field (meaning_of meaning.entry) }
{
    match meaning {
        Meaning::Field {
            buffer: b,
            field: f,
            ..
        } => b == buffer && f == field,
        _ => false,
    }
}

/// Whether the name means the field of the buffer.
fn means_field(
    alloc: Global,
    scene: &Scene<'_>,
    buffer: Buffer<'_>,
    field: u16,
    name: &Named,
) -> Result<bool, BindFault>
    ensures { IfOk result (λ r. r ≡ is_field (buffer_number (scene_of scene.now) buffer.entry.name.now) field (meaning (scene_of scene.now) name.now).is) }
{
    let number = buffer_number(scene, buffer.name)?;
    let mut notes = no_notes(alloc);
    let meaning = named_meaning(alloc, scene, name, &mut notes)?;
    Ok(is_field(number, field, meaning))
}

/// Whether one of the namings is of a buffer with the name.
fn names_buffer(names: &[Naming], buffer: &[u8]) -> bool
    ensures { result ≡ list_any (λ n. same_name n.name buffer.now) names.now }
{
    for naming in names {
        if same_name(naming.name.as_slice(), buffer) {
            return true;
        }
    }
    false
}

/// The value that `name operator e` says the field is equal to; none where it says no such thing,
/// or where the value names the buffer.
fn said_by(
    alloc: Global,
    scene: &Scene<'_>,
    buffer: Buffer<'_>,
    field: u16,
    operator: Binary,
    left: Left<'_>,
    e: &Expression,
) -> Result<Option<Expr>, BindFault>
    ensures { IfOk result (λ r. maybe_expr_of r ≡ said_by (scene_of scene.now) (buffer_of buffer.entry) field operator (name_in left.entry) (expression_of e.now)) }
{
    let Left::Name(name) = left else {
        return Ok(None);
    };
    if !is_equal_sign(operator) || !means_field(alloc, scene, buffer, field, name)? {
        return Ok(None);
    }
    let mut notes = no_notes(alloc);
    let x = expression(alloc, scene, e, &mut notes)?;
    if names_buffer(notes.names.as_slice(), buffer.name) {
        return Ok(None);
    }
    Ok(Some(x.expr))
}

/// What an expression is, as an operand before an operator.
fn left_of(e: &Expression) -> Left<'_>
    ensures { name_in result ≡ lone_name (expression_of e.now) }
{
    match e {
        Expression::Name(name) => Left::Name(name),
        Expression::Chain { first, rest } => {
            if rest.is_empty() {
                left_of(first)
            } else {
                Left::Other
            }
        }
        Expression::Literal { .. }
        | Expression::Grouped { .. }
        | Expression::Plus { .. }
        | Expression::Minus { .. }
        | Expression::Not { .. }
        | Expression::If { .. }
        | Expression::Available { .. }
        | Expression::Locked { .. }
        | Expression::Retry { .. }
        | Expression::ReturnValue { .. }
        | Expression::ErrorStatus { .. }
        | Expression::Text { .. }
        | Expression::Call { .. } => Left::Other,
    }
}

/// The value that the first of the AND parts of an expression says the field is equal to.
#[cycle(parts)]
#[tactic(auto, using(syntax_tree::proofs::Chains::chain_is))]
fn first_said(
    alloc: Global,
    scene: &Scene<'_>,
    buffer: Buffer<'_>,
    field: u16,
    e: &Expression,
) -> Result<Option<Expr>, BindFault>
    ensures { IfOk result (λ r. maybe_expr_of r ≡ first_said (scene_of scene.now) (buffer_of buffer.entry) field (and_parts (expression_of e.now))) }
{
    match e {
        Expression::Chain { first, rest } => {
            let begun = first_said(alloc, scene, buffer, field, first)?;
            let made = said_in_links(alloc, scene, buffer, field, left_of(first), begun, rest)?;
            Ok(made)
        }
        Expression::Name(_)
        | Expression::Literal { .. }
        | Expression::Grouped { .. }
        | Expression::Plus { .. }
        | Expression::Minus { .. }
        | Expression::Not { .. }
        | Expression::If { .. }
        | Expression::Available { .. }
        | Expression::Locked { .. }
        | Expression::Retry { .. }
        | Expression::ReturnValue { .. }
        | Expression::ErrorStatus { .. }
        | Expression::Text { .. }
        | Expression::Call { .. } => Ok(None),
    }
}

/// The same of a chain, from what its first operand says.
#[cycle(parts)]
fn said_in_links(
    alloc: Global,
    scene: &Scene<'_>,
    buffer: Buffer<'_>,
    field: u16,
    left: Left<'_>,
    begun: Option<Expr>,
    rest: &[Link],
) -> Result<Option<Expr>, BindFault>
    ensures { (a : SyntaxExpression) → name_in left.entry ≡ lone_name a → maybe_expr_of begun ≡ first_said (scene_of scene.now) (buffer_of buffer.entry) field (and_parts a)
        → IfOk result (λ r. maybe_expr_of r ≡ first_said (scene_of scene.now) (buffer_of buffer.entry) field (and_parts (linked_of rest.now a))) }
{
    let mut found = begun;
    let mut left = left;
    for link in rest {
        found = said_with(alloc, scene, buffer, field, left, found, link)?;
        left = Left::Other;
    }
    Ok(found)
}

/// What was said so far, else the same of one more expression.
#[cycle(parts)]
fn said_or(
    alloc: Global,
    scene: &Scene<'_>,
    buffer: Buffer<'_>,
    field: u16,
    so_far: Option<Expr>,
    e: &Expression,
) -> Result<Option<Expr>, BindFault>
    ensures { IfOk result (λ r. maybe_expr_of r ≡ or_else (maybe_expr_of so_far) (first_said (scene_of scene.now) (buffer_of buffer.entry) field (and_parts (expression_of e.now)))) }
{
    match so_far {
        Some(value) => Ok(Some(value)),
        None => {
            let made = first_said(alloc, scene, buffer, field, e)?;
            Ok(made)
        }
    }
}

/// The same of an operator with the operands on both sides, from what the left one says.
#[cycle(parts)]
fn said_with(
    alloc: Global,
    scene: &Scene<'_>,
    buffer: Buffer<'_>,
    field: u16,
    left: Left<'_>,
    so_far: Option<Expr>,
    link: &Link,
) -> Result<Option<Expr>, BindFault>
    ensures { (a : SyntaxExpression) → name_in left.entry ≡ lone_name a → maybe_expr_of so_far ≡ first_said (scene_of scene.now) (buffer_of buffer.entry) field (and_parts a)
        → IfOk result (λ r. maybe_expr_of r ≡ first_said (scene_of scene.now) (buffer_of buffer.entry) field (and_parts (joined link.now.operator link.now.at a (expression_of link.now.operand)))) }
{
    match link.operator {
        Operator::And => {
            let made = said_or(alloc, scene, buffer, field, so_far, &link.operand)?;
            Ok(made)
        }
        Operator::Two(two) => {
            let made = said_by(alloc, scene, buffer, field, two, left, &link.operand)?;
            Ok(made)
        }
        Operator::Or => Ok(None),
    }
}

/// The kind of the field with this number; CHARACTER where it has none.
fn kind_of(fields: &[FieldDef], field: u16) -> Kind
    ensures { result ≡ unwrap_or (slice_index_or fields.now field no_field).kind Character }
{
    match fields.get(usize::from(field)) {
        None => Kind::Character,
        Some(def) => match def.kind {
            None => Kind::Character,
            Some(kind) => kind,
        },
    }
}

/// The values of the leading components of an index that a WHERE says they are equal to. It looks
/// at the WHERE once for each component.
pub fn values_of(
    alloc: Global,
    scene: &Scene<'_>,
    buffer: Buffer<'_>,
    fields: &[FieldDef],
    e: &Expression,
    components: &[KeyPart],
) -> Result<Vec<BracketValue>, BindFault>
    ensures { IfOk result (λ r. map bracket_value_of r.items ≡ bracket_of (scene_of scene.now) (buffer_of buffer.entry) fields.now (and_parts (expression_of e.now)) components.now) }
{
    let mut bound = Vec::new(alloc);
    for component in components {
        let said = first_said(alloc, scene, buffer, component.field, e)?;
        let Some(value) = said else {
            return Ok(bound);
        };
        bound.push(BracketValue {
            kind: kind_of(fields, component.field),
            value,
        })?;
    }
    Ok(bound)
}
