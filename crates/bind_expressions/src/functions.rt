//! STRING, and the sorts of arguments.

ghost use Rattle.std.specs.Prelude.{◌≡◌, ◌==◌, ◌&&◌, IfOk, if◌then◌else◌, nat_lt, nat_le, not};
ghost use Rattle.abl_base.specs.declared.value.Kind.{Kind};
ghost use Rattle.bind_names.specs.declared.sort.Sort.{Sort};
ghost use Rattle.abl_base.specs.declared.rule.Rule.TheVariants.{Y7};
ghost use Rattle.bind_names.specs.Judged.{first_of, unless};
ghost use Rattle.bind_names.specs.Sorts.{fewest, is_broken, kind_of_function, most, takes};
ghost use Rattle.bind_expressions.specs.Views.{IsMade, text_breaks, text_of, typed_of};

use crate::typed::Typed;
use abl_base::{Kind, Place, Rule};
use bind_names::functions::{fewest, kind_of_function, mask_fits, most, takes};
use bind_names::{BindFault, Notes, Sort};
use bound_tree::{Expr, Unary};
use std::alloc::Global;
use syntax_tree::{Function, Word};

/// CHARACTER where the argument is good, and else broken.
fn text_sort(good: bool) -> Sort
    ensures { result ≡ (if good then Sort.Of Kind.Character else Sort.Broken) }
{
    if good {
        Sort::Of(Kind::Character)
    } else {
        Sort::Broken
    }
}

/// STRING: Y12 at a mask that does not fit.
pub fn text(
    alloc: Global,
    x: Typed,
    mask: &Option<Word>,
    notes: &mut Notes,
) -> Result<Typed, BindFault>
    ensures { IfOk result (λ r. IsMade (text_of mask.now) (text_breaks mask.now) (typed_of x) (typed_of r) notes.old notes.new) }
{
    let Some(mask) = mask else {
        return Ok(Typed {
            sort: text_sort(!x.sort.is_broken()),
            expr: Expr::Unary(Unary::ToText, Box::new(alloc, x.expr)?),
        });
    };
    let good = mask_fits(mask.spelling.as_slice(), x.sort);
    notes.unless(good, Rule::Y12, mask.at);
    Ok(Typed {
        sort: text_sort(good && !x.sort.is_broken()),
        expr: Expr::Masked {
            value: Box::new(alloc, x.expr)?,
            mask: mask.spelling.copy()?,
        },
    })
}

/// The argument of this number: Y7 at its place where it is of a wrong kind, or the first one too
/// many.
pub fn argument_fits(function: Function, number: usize, place: Place, sort: Sort, notes: &mut Notes)
    ensures first { notes.new.first ≡ first_of notes.old.first (unless (if nat_lt number (most function) then takes function number sort else not (number == most function)) Y7 place) }
    ensures names { notes.new.names ≡ notes.old.names }
{
    let most = most(function);
    let good = if number < most {
        takes(function, number, sort)
    } else {
        number != most
    };
    notes.unless(good, Rule::Y7, place);
}

/// What a function gives where its arguments are good, and else broken.
pub fn function_sort(function: Function, good: bool) -> Sort
    ensures { result ≡ (if good then Sort.Of (kind_of_function function) else Sort.Broken) }
{
    if good {
        Sort::Of(kind_of_function(function))
    } else {
        Sort::Broken
    }
}

/// Whether the arguments so far are good, and one more of this number is.
pub fn still_good(so_far: bool, function: Function, number: usize, sort: Sort) -> bool
    ensures { result ≡ (so_far && (takes function number sort && not (is_broken sort))) }
{
    so_far && (takes(function, number, sort) && !sort.is_broken())
}

/// Whether the function takes this number of arguments.
pub fn is_count(function: Function, count: usize) -> bool
    ensures { result ≡ (nat_le (fewest function) count && nat_le count (most function)) }
{
    fewest(function) <= count && count <= most(function)
}
