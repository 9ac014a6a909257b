//! Operators: the sorts of their operands and of what they give.

ghost use Rattle.std.specs.Prelude.{◌≡◌, IfOk, if◌then◌else◌};
ghost use Rattle.std.specs.Option.{is_some};
ghost use Rattle.abl_base.specs.declared.rule.Rule.TheVariants.{Y4};
ghost use Rattle.bound_tree.specs.Bound.{expr_of};
ghost use Rattle.bound_tree.specs.Tree.{One};
ghost use Rattle.bound_tree.specs.declared.expression.Unary.TheVariants.{Negative, Not, Positive};
ghost use Rattle.bind_names.specs.Judged.{first_of, unless};
ghost use Rattle.bind_names.specs.Sorts.{branch_sort, if_sort, may_be_logical, may_be_number, negated, sort_or_broken};
ghost use Rattle.bind_expressions.specs.Expressions.{logical_unless_broken};
ghost use Rattle.bind_expressions.specs.Views.{IsChosen, IsSigned, bound_operator, operator_sort, same_sort, typed_of};

use crate::typed::Typed;
use abl_base::{Kind, Place, Rule};
use bind_names::sort::{both_logical, branch_sort, if_sort, result_sort, sort_or_broken};
use bind_names::{BindFault, Notes, Sort};
use bound_tree::{Expr, Unary};
use std::alloc::Global;
use syntax_tree::Operator;

/// A LOGICAL, and broken where the operand is.
fn logical_unless_broken(x: Sort) -> Sort
    ensures { result ≡ logical_unless_broken x }
{
    if x.is_broken() {
        Sort::Broken
    } else {
        Sort::Of(Kind::Logical)
    }
}

/// The sort, and broken where the operand is not good.
fn where_good(good: bool, sort: Sort) -> Sort
    ensures { result ≡ (if good then sort else Sort.Broken) }
{
    if good { sort } else { Sort::Broken }
}

/// One operand under its operator.
fn under(alloc: Global, operator: Unary, x: Expr, sort: Sort) -> Result<Typed, BindFault>
    ensures { IfOk result (λ r. typed_of r ≡ record { expr = One operator (expr_of x); sort = sort }) }
{
    Ok(Typed {
        expr: Expr::Unary(operator, Box::new(alloc, x)?),
        sort,
    })
}

/// The sign `+`: Y4 where its operand is no number.
pub fn plus(alloc: Global, at: Place, x: Typed, notes: &mut Notes) -> Result<Typed, BindFault>
    ensures { IfOk result (λ r. IsSigned (One Positive) may_be_number same_sort at (typed_of x) (typed_of r) notes.old notes.new) }
{
    let good = x.sort.may_be_number();
    notes.unless(good, Rule::Y4, at);
    under(alloc, Unary::Positive, x.expr, where_good(good, x.sort))
}

/// The sign `-`: Y4 where its operand is no number.
pub fn minus(alloc: Global, at: Place, x: Typed, notes: &mut Notes) -> Result<Typed, BindFault>
    ensures { IfOk result (λ r. IsSigned (One Negative) may_be_number negated at (typed_of x) (typed_of r) notes.old notes.new) }
{
    let good = x.sort.may_be_number();
    notes.unless(good, Rule::Y4, at);
    under(
        alloc,
        Unary::Negative,
        x.expr,
        where_good(good, x.sort.negated()),
    )
}

/// NOT: Y4 where its operand is no LOGICAL.
pub fn not(alloc: Global, at: Place, x: Typed, notes: &mut Notes) -> Result<Typed, BindFault>
    ensures { IfOk result (λ r. IsSigned (One Not) may_be_logical logical_unless_broken at (typed_of x) (typed_of r) notes.old notes.new) }
{
    let good = x.sort.may_be_logical();
    notes.unless(good, Rule::Y4, at);
    under(
        alloc,
        Unary::Not,
        x.expr,
        where_good(good, logical_unless_broken(x.sort)),
    )
}

/// The operator of a bound chain.
pub fn bound_operator(operator: Operator) -> bound_tree::Operator
    ensures { result ≡ bound_operator operator }
{
    match operator {
        Operator::Two(two) => bound_tree::Operator::Binary(two),
        Operator::And => bound_tree::Operator::And,
        Operator::Or => bound_tree::Operator::Or,
    }
}

/// The sort that an operator makes of those of its operands, and none where they do not fit.
fn operator_sort(operator: Operator, a: Sort, b: Sort) -> Option<Sort>
    ensures { result ≡ operator_sort operator a b }
{
    match operator {
        Operator::Two(two) => result_sort(two, a, b),
        Operator::And | Operator::Or => both_logical(a, b),
    }
}

/// The sort of an operator with its operands: Y4 at the operator where they do not fit.
pub fn joined_sort(operator: Operator, at: Place, a: Sort, b: Sort, notes: &mut Notes) -> Sort
    ensures is { result ≡ sort_or_broken (operator_sort operator a b) }
    ensures first { notes.new.first ≡ first_of notes.old.first (unless (is_some (operator_sort operator a b)) Y4 at) }
    ensures names { notes.new.names ≡ notes.old.names }
{
    let sort = operator_sort(operator, a, b);
    notes.unless(sort.is_some(), Rule::Y4, at);
    sort_or_broken(sort)
}

/// IF with its condition and its branches: Y4 where the branches do not fit.
pub fn chosen(
    alloc: Global,
    at: Place,
    x: Typed,
    y: Typed,
    z: Typed,
    notes: &mut Notes,
) -> Result<Typed, BindFault>
    ensures { IfOk result (λ r. IsChosen at (typed_of x) (typed_of y) (typed_of z) (typed_of r) notes.old notes.new) }
{
    let branches = branch_sort(y.sort, z.sort);
    notes.unless(branches.is_some(), Rule::Y4, at);
    let sort = if_sort(x.sort, branches);
    let kind = sort.kind();
    let test = Box::new(alloc, x.expr)?;
    let then_value = Box::new(alloc, y.expr)?;
    let else_value = Box::new(alloc, z.expr)?;
    Ok(Typed {
        expr: Expr::If {
            test,
            then_value,
            else_value,
            kind,
        },
        sort,
    })
}
