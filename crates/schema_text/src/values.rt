//! The values of a line.

ghost use Rattle.std.specs.Prelude.{◌≡◌, ◌≤◌, ◌++◌, ◌∷◌, [], ℕ, List, Option, Some, drop, length, IfOk, MatchOption, MatchResult};
ghost use Rattle.abl_base.specs.declared.value.Value.{Value};
ghost use Rattle.abl_values.specs.declared.arithmetic.ArithFault.{ArithFault};
ghost use Rattle.abl_values.specs.Fit.{IsOfField, IsOfKind};
ghost use Rattle.abl_values.specs.Texts.{export_text};
ghost use Rattle.value_formats.specs.Imports.{line_at};
ghost use Rattle.abl_base.specs.text_forms.TextForms.{Elements};
ghost use Rattle.schema_text.specs.declared.unread.Unread.TheVariants.{NoMemory};

use crate::unread::Unread;
use abl_base::{Items, Kind, Value};
use abl_values::{ArithFault, fit};
use std::alloc::Global;
use value_formats::{ImportFault, import_line};

/// Values, and what follows their line.
#[derive(Drop)]
pub struct Values<'a> {
    pub values: Items<Option<Value>>,
    pub rest: &'a [u8],
}

/// The values of the first line, one for each of these kinds.
pub fn values_at<'a>(
    alloc: Global,
    kinds: &[Option<Kind>],
    text: &'a [u8],
) -> Result<Values<'a>, Unread>
    ensures values { (values : List (Option Value)) → (next : ℕ) → next ≤ length text.now → line_at text.now 0 kinds.now ≡ Elements values next → MatchResult result (λ read. (read.values ≡ values) × (read.rest.now ≡ drop next text.now)) (λ fault. fault ≡ NoMemory) }
    ensures within { IfOk result (λ read. length read.rest.now ≤ length text.now) }
{
    match import_line(alloc, text, 0, kinds) {
        Ok(line) => {
            if line.next > text.len() {
                return Err(Unread::NotCanonical);
            }
            let rest = &text[line.next..];
            Ok(Values {
                values: line.values,
                rest,
            })
        }
        Err(ImportFault::NoMemory) => Err(Unread::NoMemory),
        Err(ImportFault::AtEnd) | Err(ImportFault::BadField { .. }) => Err(Unread::NotCanonical),
    }
}

/// The value that a line of a field ends with, and what follows the line.
pub fn value_at(alloc: Global, kind: Option<Kind>, text: &[u8]) -> Result<(Value, &[u8]), Unread>
    ensures value { (value : Value) → (rest : List ℕ) → IsOfField kind value → text.now ≡ export_text value ++ 10 ∷ rest → MatchResult result (λ read. (read.0 ≡ value) × (read.1.now ≡ rest)) (λ fault. fault ≡ NoMemory) }
    ensures fits { IfOk result (λ read. IsOfField kind read.0) }
    ensures within { IfOk result (λ read. length read.1.now ≤ length text.now) }
{
    match kind {
        None => unknown_at(text),
        Some(kind) => of_kind_at(alloc, kind, text),
    }
}

/// The initial value `?` of a field that has no kind.
fn unknown_at(text: &[u8]) -> Result<(Value, &[u8]), Unread>
    ensures value { (rest : List ℕ) → text.now ≡ 63 ∷ 10 ∷ rest → MatchResult result (λ read. (read.0 ≡ Value.Unknown) × (read.1.now ≡ rest)) (λ fault. fault ≡ NoMemory) }
    ensures fits { IfOk result (λ read. read.0 ≡ Value.Unknown) }
    ensures within { IfOk result (λ read. length read.1.now ≤ length text.now) }
{
    match text {
        [b'?', b'\n', rest @ ..] => Ok((Value::Unknown, rest)),
        _ => Err(Unread::NotCanonical),
    }
}

/// The value of this kind alone on its line.
fn of_kind_at(alloc: Global, kind: Kind, text: &[u8]) -> Result<(Value, &[u8]), Unread>
    ensures value { (value : Value) → (rest : List ℕ) → IsOfKind kind value → text.now ≡ export_text value ++ 10 ∷ rest → MatchResult result (λ read. (read.0 ≡ value) × (read.1.now ≡ rest)) (λ fault. fault ≡ NoMemory) }
    ensures fits { IfOk result (λ read. IsOfKind kind read.0) }
    ensures within { IfOk result (λ read. length read.1.now ≤ length text.now) }
{
    let Values { values, rest } = values_at(alloc, &[Some(kind)], text)?;
    let Some(value) = alone(values.as_slice()) else {
        return Err(Unread::NotCanonical);
    };
    Ok((fitting(alloc, kind, value)?, rest))
}

/// The value of a line that has one alone.
fn alone(values: &[Option<Value>]) -> Option<&Value>
    ensures { (value : Value) → values.now ≡ Some value ∷ [] → MatchOption result ⊥ (λ read. read.now ≡ value) }
{
    match values {
        [Some(value)] => Some(value),
        _ => None,
    }
}

/// The value, where it is one of the kind or becomes one.
fn fitting(alloc: Global, kind: Kind, value: &Value) -> Result<Value, Unread>
    ensures value { IsOfKind kind value.now → MatchResult result (λ fitted. fitted ≡ value.now) (λ fault. fault ≡ NoMemory) }
    ensures fits { IfOk result (λ fitted. IsOfKind kind fitted) }
{
    match fit(alloc, value, kind) {
        Ok(fitted) => Ok(fitted),
        Err(fault) => Err(why_not(fault)),
    }
}

/// Why a value that does not fit is not read.
fn why_not(fault: ArithFault) -> Unread
    ensures { fault ≡ ArithFault.NoMemory → result ≡ NoMemory }
{
    match fault {
        ArithFault::NoMemory => Unread::NoMemory,
        ArithFault::Overflow => Unread::NotCanonical,
    }
}
