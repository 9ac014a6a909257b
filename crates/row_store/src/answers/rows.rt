//! Whether values are a row of a table, and how many bytes and fragments they take.

ghost use Rattle.std.specs.Prelude.{◌≡◌, ◌<◌, ◌≤◌, ◌↔◌, IsTrue, MatchOption, ℕ, length, None, true};
ghost use Rattle.abl_values.specs.Arithmetic.{fits_bits};
ghost use Rattle.abl_values.specs.Fit.{IsOfKind, IsOfField};
ghost use Rattle.abl_values.specs.Rows.{FitsFields, field_bytes, fragments_of};
ghost use Rattle.abl_values.specs.Schema.{field_kinds};
ghost use Rattle.database_meaning.specs.Setting.{row_size};

use abl_base::limits::FRAGMENT_BYTES;
use abl_base::{Kind, MAX_TEXT_BYTES, Value};
use abl_values::FieldDef;

/// Whether the value is one of the kind, or `?`.
pub fn is_of_kind(kind: Kind, value: &Value) -> bool
    ensures { IsTrue result ↔ IsOfKind kind value.now }
{
    match value {
        Value::Unknown => match kind {
            Kind::Character
            | Kind::Integer
            | Kind::Int64
            | Kind::Decimal
            | Kind::Logical
            | Kind::Date => true,
        },
        Value::Text(text) => match kind {
            Kind::Character => text.len() <= MAX_TEXT_BYTES as usize,
            Kind::Integer | Kind::Int64 | Kind::Decimal | Kind::Logical | Kind::Date => false,
        },
        Value::Int(n) => match kind {
            Kind::Integer => is_small(*n),
            Kind::Character | Kind::Int64 | Kind::Decimal | Kind::Logical | Kind::Date => false,
        },
        Value::Int64(n) => match kind {
            Kind::Int64 => is_whole(*n),
            Kind::Character | Kind::Integer | Kind::Decimal | Kind::Logical | Kind::Date => false,
        },
        Value::Dec(n) => match kind {
            Kind::Decimal => is_decimal(*n),
            Kind::Character | Kind::Integer | Kind::Int64 | Kind::Logical | Kind::Date => false,
        },
        Value::Logical(_) => match kind {
            Kind::Logical => true,
            Kind::Character | Kind::Integer | Kind::Int64 | Kind::Decimal | Kind::Date => false,
        },
        Value::Date(day) => match kind {
            Kind::Date => *day >= -719_162 && *day <= 2_932_896,
            Kind::Character | Kind::Integer | Kind::Int64 | Kind::Decimal | Kind::Logical => false,
        },
    }
}

/// Each number of its type is in range.
fn is_small(n: i32) -> bool
    ensures value { result ≡ true }
    ensures fits { IsTrue (fits_bits 31 n) }
{
    true
}

/// Each number of its type is in range.
fn is_whole(n: i64) -> bool
    ensures value { result ≡ true }
    ensures fits { IsTrue (fits_bits 63 n) }
{
    true
}

/// Each number of its type is in range.
fn is_decimal(n: i128) -> bool
    ensures value { result ≡ true }
    ensures fits { IsTrue (fits_bits 127 n) }
{
    true
}

/// Whether the value is one that a field of the kind holds.
pub fn is_of_field(kind: Option<Kind>, value: &Value) -> bool
    ensures { IsTrue result ↔ IsOfField kind value.now }
{
    match kind {
        Some(kind) => is_of_kind(kind, value),
        None => match value {
            Value::Unknown => true,
            Value::Text(_)
            | Value::Int(_)
            | Value::Int64(_)
            | Value::Dec(_)
            | Value::Logical(_)
            | Value::Date(_) => false,
        },
    }
}

/// Whether the values are a row of these fields.
pub fn fits(fields: &[FieldDef], values: &[Value]) -> bool
    ensures { IsTrue result ↔ FitsFields (field_kinds fields.now) values.now }
{
    match fields.split_first() {
        None => values.is_empty(),
        Some((field, fields)) => match values.split_first() {
            None => false,
            Some((value, values)) => is_of_field(field.kind, value) && fits(fields, values),
        },
    }
}

/// How many bytes the value takes in a row.
fn field_size(value: &Value) -> u64
    ensures { result ≡ length (field_bytes value.now) }
{
    match value {
        Value::Unknown => 1,
        Value::Logical(_) => 2,
        Value::Int(_) => 5,
        Value::Date(_) => 5,
        Value::Int64(_) => 9,
        Value::Dec(_) => 17,
        Value::Text(text) => text.as_slice().len() as u64 + 3,
    }
}

/// How many bytes the values take as a row, if these are no more than the limit.
#[tactic(auto, using(crate::proofs::AnswersLemmas::Sizes::sizes))]
pub fn size_within(values: &[Value], limit: u64) -> Option<u64>
    ensures { MatchOption result (limit < row_size values.now) (λ n. (n ≡ row_size values.now) × (n ≤ limit)) }
{
    match values.split_first() {
        None => Some(0),
        Some((value, values)) => {
            let first = field_size(value);
            if first > limit {
                return None;
            }
            let rest = size_within(values, limit - first)?;
            Some(first + rest)
        }
    }
}

/// How many fragments hold this number of bytes.
pub fn fragments_for(bytes: u64) -> u64
    ensures { result ≡ fragments_of bytes }
{
    let most = FRAGMENT_BYTES as u64;
    if bytes <= most {
        1
    } else {
        (bytes - 1) / most + 1
    }
}
