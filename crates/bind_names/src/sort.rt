//! What is known of the values of an expression, and the sorts of operators' results.

ghost use Rattle.std.specs.Prelude.{◌≡◌};
ghost use Rattle.bind_names.specs.Sorts.{are_comparable, both_logical, branch_sort, branches_of, difference, fits, if_sort, is_broken, is_date, is_decimal, is_number_kind, is_unknown, is_whole_kind, kind_fits, kind_in, may_be_date, may_be_logical, may_be_number, may_be_text, may_be_whole, negated, number_sort, numbers, result_sort, result_of, same_kind, sort_of_value, sort_or_broken, sum, unless_broken, where_holds};

use abl_base::{Kind, Value};
use bound_tree::Binary;

/// The sort of an expression.
#[derive(Clone, Copy, PartialEq, Eq)]
pub enum Sort {
    /// Its values are of this kind, or `?`.
    Of(Kind),
    /// Its value is always `?`.
    Unknown,
    /// A part of it breaks a rule, so nothing more is asked of it.
    Broken,
}

/// Whether they are one kind.
pub fn same_kind(k: Kind, l: Kind) -> bool
    ensures { result ≡ same_kind k l }
{
    matches!(
        (k, l),
        (Kind::Character, Kind::Character)
            | (Kind::Integer, Kind::Integer)
            | (Kind::Int64, Kind::Int64)
            | (Kind::Decimal, Kind::Decimal)
            | (Kind::Logical, Kind::Logical)
            | (Kind::Date, Kind::Date)
    )
}

fn is_whole_kind(k: Kind) -> bool
    ensures { result ≡ is_whole_kind k }
{
    matches!(k, Kind::Integer | Kind::Int64)
}

/// INTEGER, INT64 or DECIMAL.
pub fn is_number_kind(k: Kind) -> bool
    ensures { result ≡ is_number_kind k }
{
    is_whole_kind(k) || same_kind(k, Kind::Decimal)
}

/// Whether a value of the first kind fits a target of the second.
fn kind_fits(k: Kind, target: Kind) -> bool
    ensures { result ≡ kind_fits k target }
{
    same_kind(k, target) || (is_number_kind(k) && is_number_kind(target))
}

impl Sort {
    pub fn is_unknown(self) -> bool
        ensures { result ≡ is_unknown self }
    {
        matches!(self, Sort::Unknown)
    }

    pub fn is_broken(self) -> bool
        ensures { result ≡ is_broken self }
    {
        matches!(self, Sort::Broken)
    }

    fn is_date(self) -> bool
        ensures { result ≡ is_date self }
    {
        match self {
            Sort::Of(k) => same_kind(Kind::Date, k),
            _ => false,
        }
    }

    fn is_decimal(self) -> bool
        ensures { result ≡ is_decimal self }
    {
        match self {
            Sort::Of(k) => same_kind(Kind::Decimal, k),
            _ => false,
        }
    }

    pub fn may_be_text(self) -> bool
        ensures { result ≡ may_be_text self }
    {
        match self {
            Sort::Of(k) => same_kind(Kind::Character, k),
            _ => true,
        }
    }

    pub fn may_be_whole(self) -> bool
        ensures { result ≡ may_be_whole self }
    {
        match self {
            Sort::Of(k) => is_whole_kind(k),
            _ => true,
        }
    }

    pub fn may_be_number(self) -> bool
        ensures { result ≡ may_be_number self }
    {
        match self {
            Sort::Of(k) => is_number_kind(k),
            _ => true,
        }
    }

    pub fn may_be_logical(self) -> bool
        ensures { result ≡ may_be_logical self }
    {
        match self {
            Sort::Of(k) => same_kind(Kind::Logical, k),
            _ => true,
        }
    }

    pub fn may_be_date(self) -> bool
        ensures { result ≡ may_be_date self }
    {
        match self {
            Sort::Of(k) => same_kind(Kind::Date, k),
            _ => true,
        }
    }

    /// Whether it fits a target of the kind.
    pub fn fits(self, target: Kind) -> bool
        ensures { result ≡ fits self target }
    {
        match self {
            Sort::Of(k) => kind_fits(k, target),
            _ => true,
        }
    }

    /// The kind, where there is one.
    pub fn kind(self) -> Option<Kind>
        ensures { result ≡ kind_in self }
    {
        match self {
            Sort::Of(k) => Some(k),
            _ => None,
        }
    }

    /// The sort of a value.
    pub fn of_value(value: &Value) -> Sort
        ensures { result ≡ sort_of_value value.now }
    {
        match value {
            Value::Text(_) => Sort::Of(Kind::Character),
            Value::Int(_) => Sort::Of(Kind::Integer),
            Value::Int64(_) => Sort::Of(Kind::Int64),
            Value::Dec(_) => Sort::Of(Kind::Decimal),
            Value::Logical(_) => Sort::Of(Kind::Logical),
            Value::Date(_) => Sort::Of(Kind::Date),
            Value::Unknown => Sort::Unknown,
        }
    }

    /// The sort that the sign `-` makes of it.
    pub fn negated(self) -> Sort
        ensures { result ≡ negated self }
    {
        match self {
            Sort::Of(k) => {
                if same_kind(k, Kind::Decimal) {
                    Sort::Of(Kind::Decimal)
                } else {
                    Sort::Of(Kind::Int64)
                }
            }
            _ => self,
        }
    }
}

/// The sort, where the condition holds.
fn where_holds(holds: bool, s: Sort) -> Option<Sort>
    ensures { result ≡ where_holds holds s }
{
    if holds { Some(s) } else { None }
}

fn number_sort(a: Sort, b: Sort) -> Sort
    ensures { result ≡ number_sort a b }
{
    if a.is_decimal() || b.is_decimal() {
        Sort::Of(Kind::Decimal)
    } else if a.is_unknown() || b.is_unknown() {
        Sort::Unknown
    } else {
        Sort::Of(Kind::Int64)
    }
}

fn numbers(a: Sort, b: Sort) -> Option<Sort>
    ensures { result ≡ numbers a b }
{
    where_holds(a.may_be_number() && b.may_be_number(), number_sort(a, b))
}

fn sum(a: Sort, b: Sort) -> Option<Sort>
    ensures { result ≡ sum a b }
{
    if a.may_be_text() && b.may_be_text() {
        if a.is_unknown() && b.is_unknown() {
            Some(Sort::Unknown)
        } else {
            Some(Sort::Of(Kind::Character))
        }
    } else if a.is_date() {
        where_holds(b.may_be_whole(), Sort::Of(Kind::Date))
    } else {
        numbers(a, b)
    }
}

fn difference(a: Sort, b: Sort) -> Option<Sort>
    ensures { result ≡ difference a b }
{
    if a.is_date() {
        if b.is_date() {
            Some(Sort::Of(Kind::Int64))
        } else if b.is_unknown() {
            where_holds(b.may_be_whole(), Sort::Unknown)
        } else {
            where_holds(b.may_be_whole(), Sort::Of(Kind::Date))
        }
    } else if b.is_date() {
        where_holds(a.is_unknown(), Sort::Of(Kind::Int64))
    } else {
        numbers(a, b)
    }
}

fn are_comparable(a: Sort, b: Sort) -> bool
    ensures { result ≡ are_comparable a b }
{
    match (a, b) {
        (Sort::Of(k), Sort::Of(l)) => kind_fits(k, l),
        _ => true,
    }
}

fn result_of(op: Binary, a: Sort, b: Sort) -> Option<Sort>
    ensures { result ≡ result_of op a b }
{
    match op {
        Binary::Add => sum(a, b),
        Binary::Subtract => difference(a, b),
        Binary::Multiply => numbers(a, b),
        Binary::Divide => where_holds(
            a.may_be_number() && b.may_be_number(),
            Sort::Of(Kind::Decimal),
        ),
        Binary::Modulo => where_holds(a.may_be_whole() && b.may_be_whole(), Sort::Of(Kind::Int64)),
        Binary::Equal
        | Binary::Unequal
        | Binary::Less
        | Binary::Greater
        | Binary::AtMost
        | Binary::AtLeast => where_holds(are_comparable(a, b), Sort::Of(Kind::Logical)),
        Binary::Begins => where_holds(a.may_be_text() && b.may_be_text(), Sort::Of(Kind::Logical)),
        Binary::NumEntries => where_holds(
            a.may_be_text() && b.may_be_text(),
            Sort::Of(Kind::Int64),
        ),
    }
}

fn unless_broken(broken: bool, s: Option<Sort>) -> Option<Sort>
    ensures { result ≡ unless_broken broken s }
{
    if broken { Some(Sort::Broken) } else { s }
}

/// The sort of what an operator makes of two operands, and none where they do not fit.
pub fn result_sort(op: Binary, a: Sort, b: Sort) -> Option<Sort>
    ensures { result ≡ result_sort op a b }
{
    unless_broken(a.is_broken() || b.is_broken(), result_of(op, a, b))
}

/// AND and OR.
pub fn both_logical(a: Sort, b: Sort) -> Option<Sort>
    ensures { result ≡ both_logical a b }
{
    unless_broken(
        a.is_broken() || b.is_broken(),
        where_holds(
            a.may_be_logical() && b.may_be_logical(),
            Sort::Of(Kind::Logical),
        ),
    )
}

fn branches_of(a: Sort, b: Sort) -> Option<Sort>
    ensures { result ≡ branches_of a b }
{
    match (a, b) {
        (Sort::Of(k), Sort::Of(l)) => {
            if same_kind(k, l) {
                Some(Sort::Of(k))
            } else if same_kind(k, Kind::Decimal) || same_kind(l, Kind::Decimal) {
                where_holds(
                    is_number_kind(k) && is_number_kind(l),
                    Sort::Of(Kind::Decimal),
                )
            } else {
                where_holds(
                    is_number_kind(k) && is_number_kind(l),
                    Sort::Of(Kind::Int64),
                )
            }
        }
        (Sort::Unknown, _) => Some(b),
        _ => Some(a),
    }
}

/// The branches of IF.
pub fn branch_sort(a: Sort, b: Sort) -> Option<Sort>
    ensures { result ≡ branch_sort a b }
{
    unless_broken(a.is_broken() || b.is_broken(), branches_of(a, b))
}

/// IF, with the sort of its condition.
pub fn if_sort(test: Sort, branches: Option<Sort>) -> Sort
    ensures { result ≡ if_sort test branches }
{
    if test.may_be_logical() && !test.is_broken() {
        sort_or_broken(branches)
    } else {
        Sort::Broken
    }
}

/// The sort, and broken where there is none.
pub fn sort_or_broken(s: Option<Sort>) -> Sort
    ensures { result ≡ sort_or_broken s }
{
    match s {
        Some(s) => s,
        None => Sort::Broken,
    }
}
