//! ENTRY and NUM-ENTRIES (OpenEdge ABL Reference, each by its name). A list is read from its front,
//! delimiter by delimiter; of its entries only the requested one is copied.

ghost use Rattle.std.specs.Prelude.{◌≡◌, ◌<◌, ◌∷◌, [], length, MatchOption, Ok, Err};
ghost use Rattle.expression_meaning.specs.declared.fault.RunFault.TheVariants.{Argument};
ghost use Rattle.expression_meaning.specs.Functions.{entry, num_entries, part_at, parts_after, parts_of, text_in, whole_in};
ghost use Rattle.evaluator.specs.Gives.{Gives};
ghost use Rattle.evaluator.specs.Parts.{IsSplit, part_from};

use crate::arguments::{text_in, whole_in};
use crate::fault::EvalFault;
use abl_base::{Items, Value};
use expression_meaning::RunFault;
use std::alloc::Global;

/// NUM-ENTRIES(list, delimiter).
pub(crate) fn num_entries(list: &Value, delimiter: &Value) -> Result<Value, EvalFault>
    ensures { Gives result (num_entries (text_in list.now) (text_in delimiter.now)) }
{
    match (text_in(list), text_in(delimiter)) {
        (Some(_), Some([])) => Err(EvalFault::Fault(RunFault::Argument)),
        (Some(list), Some(delimiter)) => match i64::try_from(count(list, delimiter)) {
            Ok(entries) => Ok(Value::Int64(entries)),
            // No memory holds so long a list.
            Err(_) => Err(EvalFault::NoMemory),
        },
        _ => Ok(Value::Unknown),
    }
}

/// ENTRY(number, list, delimiter).
pub(crate) fn entry(
    alloc: Global,
    number: &Value,
    list: &Value,
    delimiter: &Value,
) -> Result<Value, EvalFault>
    ensures { Gives result (entry (whole_in number.now) (text_in list.now) (text_in delimiter.now)) }
{
    match (whole_in(number), text_in(list), text_in(delimiter)) {
        (Some(_), Some(_), Some([])) => Err(EvalFault::Fault(RunFault::Argument)),
        (Some(number), Some(list), Some(delimiter)) => match entry_at(list, delimiter, number) {
            Some(entry) => Ok(Value::Text(Items::of(alloc, entry)?)),
            None => Err(EvalFault::Fault(RunFault::Argument)),
        },
        _ => Ok(Value::Unknown),
    }
}

/// How many entries a list has; an empty list has none.
fn count(list: &[u8], delimiter: &[u8]) -> usize
    requires { 0 < length delimiter.now }
    ensures { result ≡ length (parts_of delimiter.now list.now) }
{
    if list.is_empty() {
        return 0;
    }
    let mut entries = 1;
    let mut rest = list;
    while let Some(after) = split_first(rest, delimiter).1 {
        entries += 1;
        rest = after;
    }
    entries
}

/// The entry of this number, counted from 1.
#[tactic(auto, using(crate::proofs::Splits::part_at_none))]
fn entry_at<'a>(list: &'a [u8], delimiter: &[u8], number: i64) -> Option<&'a [u8]>
    requires { 0 < length delimiter.now }
    ensures { MatchOption result (part_at number (parts_of delimiter.now list.now) ≡ Err Argument)
        (λ entry. part_at number (parts_of delimiter.now list.now) ≡ Ok (Value.Text entry.now)) }
{
    if list.is_empty() || number < 1 {
        return None;
    }
    entry_after(list, delimiter, (number - 1) as usize)
}

/// The entry after `others` other ones of a list that is not empty.
#[tactic(auto, using(crate::proofs::Splits::part_more, crate::proofs::Splits::part_none))]
fn entry_after<'a>(list: &'a [u8], delimiter: &[u8], others: usize) -> Option<&'a [u8]>
    requires { 0 < length delimiter.now }
    ensures { MatchOption result (part_from (parts_after delimiter.now 0 list.now) others ≡ Err Argument)
        (λ entry. part_from (parts_after delimiter.now 0 list.now) others ≡ Ok (Value.Text entry.now)) }
{
    let mut rest = list;
    let mut left = others;
    while left > 0 {
        rest = split_first(rest, delimiter).1?;
        left -= 1;
    }
    Some(split_first(rest, delimiter).0)
}

/// The first entry of a list, and what follows its delimiter where there is one.
fn split_first<'a>(list: &'a [u8], delimiter: &[u8]) -> (&'a [u8], Option<&'a [u8]>)
    requires { 0 < length delimiter.now }
    ensures first { part_from (parts_after delimiter.now 0 list.now) 0 ≡ Ok (Value.Text result.0.now) }
    ensures rest { MatchOption result.1 (parts_after delimiter.now 0 list.now ≡ result.0.now ∷ [])
        (λ rest. IsSplit delimiter.now list.now result.0.now rest.now) }
{
    for end in 0..list.len() {
        if list[end..].starts_with(delimiter) {
            return (&list[..end], Some(&list[end + delimiter.len()..]));
        }
    }
    (list, None)
}
