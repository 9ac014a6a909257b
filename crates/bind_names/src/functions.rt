//! The number of arguments of a function, their sorts, and the kind of its result (OpenEdge ABL
//! Reference, each function by its name).

ghost use Rattle.std.specs.Prelude.{◌≡◌};
ghost use Rattle.bind_names.specs.Sorts.{fewest, is_any_mask, kind_of_function, mask_fits, may_be_converted, most, takes, takes_first, takes_then};

use crate::sort::Sort;
use abl_base::Kind;
use syntax_tree::Function;

/// The fewest arguments that it takes.
pub fn fewest(function: Function) -> usize
    ensures { result ≡ fewest function }
{
    match function {
        Function::Substring | Function::Entry => 2,
        Function::Date => 3,
        _ => 1,
    }
}

/// The most arguments that it takes.
pub fn most(function: Function) -> usize
    ensures { result ≡ most function }
{
    match function {
        Function::Substring | Function::Entry | Function::Date => 3,
        Function::NumEntries => 2,
        _ => 1,
    }
}

/// A text or a number.
fn may_be_converted(sort: Sort) -> bool
    ensures { result ≡ may_be_converted sort }
{
    sort.may_be_text() || sort.may_be_number()
}

/// Whether its first argument may have the sort.
fn takes_first(function: Function, sort: Sort) -> bool
    ensures { result ≡ takes_first function sort }
{
    match function {
        Function::Integer | Function::Int64 | Function::Decimal => may_be_converted(sort),
        Function::Substring | Function::Length | Function::NumEntries => sort.may_be_text(),
        Function::Entry | Function::Date => sort.may_be_whole(),
        Function::Year | Function::Month | Function::Day => sort.may_be_date(),
    }
}

/// Whether a later argument may have the sort.
fn takes_then(function: Function, sort: Sort) -> bool
    ensures { result ≡ takes_then function sort }
{
    match function {
        Function::Substring | Function::Date => sort.may_be_whole(),
        _ => sort.may_be_text(),
    }
}

/// Whether its argument of this number, from 0, may have the sort.
pub fn takes(function: Function, number: usize, sort: Sort) -> bool
    ensures { result ≡ takes function number sort }
{
    if number == 0 {
        takes_first(function, sort)
    } else {
        takes_then(function, sort)
    }
}

/// The kind of its result.
pub fn kind_of_function(function: Function) -> Kind
    ensures { result ≡ kind_of_function function }
{
    match function {
        Function::Integer => Kind::Integer,
        Function::Int64
        | Function::Length
        | Function::NumEntries
        | Function::Year
        | Function::Month
        | Function::Day => Kind::Int64,
        Function::Decimal => Kind::Decimal,
        Function::Substring | Function::Entry => Kind::Character,
        Function::Date => Kind::Date,
    }
}

/// Whether the mask is one for any kind.
fn is_any_mask(mask: &[u8]) -> bool
    ensures { result ≡ is_any_mask mask.now }
{
    abl_values::mask_fits(mask, Kind::Character)
        || (abl_values::mask_fits(mask, Kind::Decimal)
            || (abl_values::mask_fits(mask, Kind::Logical)
                || abl_values::mask_fits(mask, Kind::Date)))
}

/// Whether the mask fits values of the sort.
pub fn mask_fits(mask: &[u8], sort: Sort) -> bool
    ensures { result ≡ mask_fits mask.now sort }
{
    match sort {
        Sort::Of(kind) => abl_values::mask_fits(mask, kind),
        Sort::Unknown => is_any_mask(mask),
        Sort::Broken => true,
    }
}
