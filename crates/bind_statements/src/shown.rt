//! PUT and MESSAGE.

ghost use Rattle.std.specs.Prelude.{◌≡◌, ◌≤◌, IfOk, MatchOption, None, Some, if◌then◌else◌, map, true, unwrap_or};
ghost use Rattle.abl_base.specs.declared.value.Kind.TheVariants.{Character};
ghost use Rattle.syntax_tree.specs.Syntax.{Shows as TheShows};
ghost use Rattle.syntax_tree.specs.Typed.{count_of, expression_of, put_item_of};
ghost use Rattle.bound_tree.specs.Bound.{expr_of, item_of, stmt_of};
ghost use Rattle.bound_tree.specs.Tree.{Message, PutItems};
ghost use Rattle.bind_names.specs.Names.{meaning};
ghost use Rattle.bind_names.specs.Sorts.{kind_in};
ghost use Rattle.bind_names.specs.Views.{IsJudged, scene_of};
ghost use Rattle.bind_expressions.specs.Parts.{does, listed};
ghost use Rattle.bind_statements.specs.Definitions.{default_mask};
ghost use Rattle.bind_statements.specs.Shown.{count, mask_of, mask_of_meaning, mask_of_name, message, put, put_item, put_mask};
ghost use Rattle.bind_statements.specs.Views.{expr_in, name_in};

use crate::definitions::default_mask;
use crate::streams::stream;
use abl_base::{Bytes, Items, Kind, Rule};
use bind_expressions::expressions::expression;
use bind_names::functions::mask_fits;
use bind_names::meaning::{Meaning, named_meaning};
use bind_names::{BindFault, Notes, Scene, Sort};
use bound_tree::{Expr, PutItem as BoundItem, Stmt};
use std::alloc::Global;
use syntax_tree::{Count, Expression, Named, PutItem, Word};

/// The name that an expression is, where it is a name alone.
#[tactic(auto, using(syntax_tree::proofs::Chains::chain_is, syntax_tree::proofs::Chains::call_is, crate::proofs::Alone::chain_has_no_name, crate::proofs::Alone::first_of_chain))]
pub fn name_in(e: &Expression) -> Option<&Named>
    ensures { MatchOption result (name_in (expression_of e.now) ≡ None) (λ n. name_in (expression_of e.now) ≡ Some n.now) }
{
    match e {
        Expression::Name(name) => Some(name),
        Expression::Chain { first, rest } => {
            if rest.is_empty() {
                let found = name_in(first);
                found
            } else {
                None
            }
        }
        Expression::Literal { .. } => None,
        Expression::Grouped { .. } => None,
        Expression::Plus { .. } => None,
        Expression::Minus { .. } => None,
        Expression::Not { .. } => None,
        Expression::If { .. } => None,
        Expression::Available { .. } => None,
        Expression::Locked { .. } => None,
        Expression::Retry { .. } => None,
        Expression::ReturnValue { .. } => None,
        Expression::ErrorStatus { .. } => None,
        Expression::Text { .. } => None,
        Expression::Call { .. } => None,
    }
}

/// The mask of a variable or field.
fn mask_of_named(alloc: Global, scene: &Scene<'_>, name: &Named) -> Result<Option<Bytes>, BindFault>
    ensures { IfOk result (λ m. m ≡ mask_of_meaning (meaning (scene_of scene.now) name.now).is) }
{
    let mut unused = Notes {
        first: None,
        names: Items::empty(alloc),
    };
    match named_meaning(alloc, scene, name, &mut unused)? {
        Meaning::Variable { mask, .. } => Ok(Some(Items::of(alloc, mask)?)),
        Meaning::Field { mask, .. } => Ok(Some(Items::of(alloc, mask)?)),
        Meaning::Buffer(_) => Ok(None),
        Meaning::Nothing => Ok(None),
    }
}

/// The mask of the variable or field that an expression is.
#[tactic(auto, using(crate::proofs::Alone::mask_of_no_name, crate::proofs::Alone::mask_of_a_name))]
fn mask_of_name(
    alloc: Global,
    scene: &Scene<'_>,
    e: &Expression,
) -> Result<Option<Bytes>, BindFault>
    ensures { IfOk result (λ m. m ≡ mask_of_name (scene_of scene.now) (expression_of e.now)) }
{
    match name_in(e) {
        None => Ok(None),
        Some(name) => mask_of_named(alloc, scene, name),
    }
}

/// The mask of the kind; that of CHARACTER where there is none.
fn mask_of_sort(sort: Sort) -> &'static [u8]
    ensures { result.now ≡ default_mask (unwrap_or (kind_in sort) Character) }
{
    match sort.kind() {
        Some(kind) => default_mask(kind),
        None => default_mask(Kind::Character),
    }
}

/// The mask of an item of PUT that has none.
fn mask_of(alloc: Global, scene: &Scene<'_>, e: &Expression, sort: Sort) -> Result<Bytes, BindFault>
    ensures { IfOk result (λ m. m ≡ mask_of (scene_of scene.now) (expression_of e.now) sort) }
{
    match mask_of_name(alloc, scene, e)? {
        Some(mask) => Ok(mask),
        None => Ok(Items::of(alloc, mask_of_sort(sort))?),
    }
}

/// The mask, and none under UNFORMATTED.
fn put_mask(plain: bool, mask: Bytes) -> Option<Bytes>
    ensures { result ≡ put_mask plain mask }
{
    if plain { None } else { Some(mask) }
}

/// The number after SKIP or SPACE, 1 where there is none: Y7 outside 1 to 99.
fn count(given: &Option<Count>, notes: &mut Notes) -> u32
    ensures { IsJudged (count (count_of given.now)) result notes.old notes.new }
{
    match given {
        None => 1,
        Some(given) => {
            let good = 1 <= given.number && given.number <= 99;
            notes.unless(good, Rule::Y7, given.at);
            count_or_one(good, given.number)
        }
    }
}

/// The number where it is good, and else 1.
fn count_or_one(good: bool, number: u64) -> u32
    requires { good ≡ true → number ≤ 99 }
    ensures { result ≡ (if good then number else 1) }
{
    if good { number as u32 } else { 1 }
}

/// An item that shows a value: Y12 at a mask that does not fit.
#[tactic(auto, using(bind_names::proofs::Joined::first_of_append))]
fn shows(
    alloc: Global,
    scene: &Scene<'_>,
    plain: bool,
    value: &Expression,
    mask: &Option<Word>,
    notes: &mut Notes,
) -> Result<BoundItem, BindFault>
    ensures { IfOk result (λ r. IsJudged (put_item (scene_of scene.now) plain (TheShows (expression_of value.now) mask.now)) (item_of r) notes.old notes.new) }
{
    let x = expression(alloc, scene, value, notes)?;
    match mask {
        None => {
            let mask = mask_of(alloc, scene, value, x.sort)?;
            Ok(BoundItem::Shows {
                value: x.expr,
                mask: put_mask(plain, mask),
            })
        }
        Some(mask) => {
            notes.unless(
                mask_fits(mask.spelling.as_slice(), x.sort),
                Rule::Y12,
                mask.at,
            );
            let mask = mask.spelling.copy()?;
            Ok(BoundItem::Shows {
                value: x.expr,
                mask: put_mask(plain, mask),
            })
        }
    }
}

/// An item of PUT.
fn put_item(
    alloc: Global,
    scene: &Scene<'_>,
    plain: bool,
    given: &PutItem,
    notes: &mut Notes,
) -> Result<BoundItem, BindFault>
    ensures { IfOk result (λ r. IsJudged (put_item (scene_of scene.now) plain (put_item_of given.now)) (item_of r) notes.old notes.new) }
{
    match given {
        PutItem::Shows { value, mask } => shows(alloc, scene, plain, value, mask, notes),
        PutItem::Skip(given) => {
            let number = count(given, notes);
            Ok(BoundItem::Skip(number))
        }
        PutItem::Space(given) => {
            let number = count(given, notes);
            Ok(BoundItem::Space(number))
        }
    }
}

/// The items of PUT.
fn put_items(
    alloc: Global,
    scene: &Scene<'_>,
    plain: bool,
    all: &[PutItem],
    notes: &mut Notes,
) -> Result<Vec<BoundItem>, BindFault>
    ensures { IfOk result (λ r. IsJudged (listed (put_item (scene_of scene.now) plain) (map put_item_of all.now)) (map item_of r.items) notes.old notes.new) }
{
    let mut bound = Vec::new(alloc);
    for one in all {
        let item = put_item(alloc, scene, plain, one, notes)?;
        bound.push(item)?;
    }
    Ok(bound)
}

/// The statement PUT with these items.
fn puts(stream: u32, items: Vec<BoundItem>) -> Stmt
    ensures { stmt_of result ≡ PutItems stream (map item_of items.items) }
{
    Stmt::Put { stream, items }
}

/// PUT.
#[tactic(auto, using(bind_names::proofs::Joined::first_of_append))]
pub fn put(
    alloc: Global,
    scene: &Scene<'_>,
    name: &Option<Word>,
    plain: bool,
    all: &[PutItem],
    notes: &mut Notes,
) -> Result<Stmt, BindFault>
    ensures { IfOk result (λ r. IsJudged (put (scene_of scene.now) name.now plain (map put_item_of all.now)) (does (scene_of scene.now) (stmt_of r)) notes.old notes.new) }
{
    let number = stream(scene, name, notes);
    let items = put_items(alloc, scene, plain, all, notes)?;
    Ok(puts(number, items))
}

/// Expressions, one by one.
pub fn expressions(
    alloc: Global,
    scene: &Scene<'_>,
    all: &[Expression],
    notes: &mut Notes,
) -> Result<Vec<Expr>, BindFault>
    ensures { IfOk result (λ r. IsJudged (listed (expr_in (scene_of scene.now)) (map expression_of all.now)) (map expr_of r.items) notes.old notes.new) }
{
    let mut bound = Vec::new(alloc);
    for one in all {
        let x = expression(alloc, scene, one, notes)?;
        bound.push(x.expr)?;
    }
    Ok(bound)
}

/// The statement MESSAGE with these values.
fn messages(values: Vec<Expr>) -> Stmt
    ensures { stmt_of result ≡ Message (map expr_of values.items) }
{
    Stmt::Message(values)
}

/// MESSAGE.
pub fn message(
    alloc: Global,
    scene: &Scene<'_>,
    all: &[Expression],
    notes: &mut Notes,
) -> Result<Stmt, BindFault>
    ensures { IfOk result (λ r. IsJudged (message (scene_of scene.now) (map expression_of all.now)) (does (scene_of scene.now) (stmt_of r)) notes.old notes.new) }
{
    let values = expressions(alloc, scene, all, notes)?;
    Ok(messages(values))
}
