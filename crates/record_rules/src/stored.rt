//! Which rows may be stored, and the values of a new record.

ghost use Rattle.std.specs.Prelude.{◌≡◌, ◌+◌, ◌<◌, ◌^◌, nat_lt, length, IfOk};
ghost use Rattle.abl_base.specs.declared.limits.TheConstants.{MAX_ROW_BYTES};
ghost use Rattle.expression_meaning.specs.Operators.{is_unknown};
ghost use Rattle.abl_values.specs.Rows.{bytes_of_row, field_bytes};
ghost use Rattle.block_meaning.specs.Buffers.{missing_field};
ghost use Rattle.block_meaning.specs.Changes.{initial_values};
ghost use Rattle.block_meaning.specs.Program.{Program};
ghost use Rattle.record_rules.specs.lines.Complaints.{complaint_if};
ghost use Rattle.record_rules.specs.Storing.{complaint_about};

use crate::lines::Complaint;
use crate::lines::names::fields_of;
use abl_base::limits::MAX_ROW_BYTES;
use abl_base::{Items, Row, Value};
use abl_values::{FieldDef, Schema};
use std::alloc::{AllocError, Global};

/// The values of a new record: the initial value of each field (OpenEdge ABL Reference, CREATE
/// statement). Out of memory is the only error.
pub fn initial_row(alloc: Global, fields: &[FieldDef]) -> Result<Row, AllocError>
    ensures { IfOk result (λ row. row ≡ initial_values fields.now) }
{
    let mut values = Vec::with_capacity(alloc, fields.len())?;
    for field in fields {
        values.push(field.initial.copy()?)?;
    }
    Ok(Items::from_vec(values))
}

/// Why a row of the table may not be stored, if so: its first mandatory field that is `?`, else that
/// it has too many bytes.
pub fn unstorable(schema: &Schema, table: u16, values: &[Value]) -> Option<Complaint>
    ensures { (p : Program) → p.tables ≡ schema.now.tables → complaint_if result ≡ complaint_about p table values.now }
{
    match missing_field(fields_of(schema, table), values) {
        Some(field) => Some(Complaint::Mandatory { table, field }),
        None => {
            if is_too_long(values) {
                Some(Complaint::RecordTooLong(table))
            } else {
                None
            }
        }
    }
}

/// The number of the first mandatory field whose value is `?` (OpenEdge ABL Reference, mandatory
/// fields). Fields without a value, and values without a field, are not looked at.
fn missing_field(fields: &[FieldDef], values: &[Value]) -> Option<usize>
    ensures { result ≡ missing_field 0 fields.now values.now }
{
    for (number, field) in fields.iter().enumerate() {
        match values.get(number) {
            None => return None,
            Some(value) if field.mandatory && is_unknown(value) => return Some(number),
            Some(_) => {}
        }
    }
    None
}

/// Whether the value is `?`.
fn is_unknown(value: &Value) -> bool
    ensures { result ≡ is_unknown value.now }
{
    match value {
        Value::Unknown => true,
        Value::Text(_)
        | Value::Int(_)
        | Value::Int64(_)
        | Value::Dec(_)
        | Value::Logical(_)
        | Value::Date(_) => false,
    }
}

/// Whether the row has more than `MAX_ROW_BYTES` bytes. The bytes are counted and not made. (This
/// project's choice.)
fn is_too_long(values: &[Value]) -> bool
    ensures { result ≡ nat_lt MAX_ROW_BYTES (length (bytes_of_row values.now)) }
{
    let limit = MAX_ROW_BYTES as usize;
    let mut bytes = 0usize;
    for value in values {
        bytes += field_length(value);
        if bytes > limit {
            return true;
        }
    }
    false
}

/// How many bytes the value of a field has in a row.
#[tactic(auto, using(crate::proofs::RowLengths::number_lengths))]
fn field_length(value: &Value) -> usize
    ensures bytes { result ≡ length (field_bytes value.now) }
    ensures small { result < 2 ^ 63 + 3 }
{
    match value {
        Value::Unknown => 1,
        Value::Logical(_) => 2,
        Value::Int(_) | Value::Date(_) => 5,
        Value::Int64(_) => 9,
        Value::Dec(_) => 17,
        Value::Text(text) => text.as_slice().len() + 3,
    }
}
