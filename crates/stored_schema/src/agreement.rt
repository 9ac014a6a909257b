//! Whether two schemas agree.

ghost use Rattle.std.specs.Prelude.{◌≡◌, slice_index_or};
ghost use Rattle.std.specs.List.{list_all};
ghost use Rattle.abl_values.specs.Schema.{no_field, no_index};
ghost use Rattle.stored_schema.specs.Agreement.{agree, has_field, has_index, same_field, same_fields, same_index, same_indexes, same_kind, same_part, same_parts, same_primary_in, same_sequence, same_sequences, same_table, same_tables, same_truth, same_value};

use abl_base::{Kind, Value};
use abl_values::canonical::kind_text;
use abl_values::{
    FieldDef, IndexDef, KeyPart, Named, Schema, SequenceDef, TableDef, same_bytes, same_name,
};

/// Says whether the two schemas agree: they have the same tables and the same sequences in order, and
/// in each table the same fields and indexes, in any order. The same names, in any case; of a field
/// its kind, MANDATORY and initial value; of an index UNIQUE, PRIMARY and its components in order; of
/// a sequence its initial value and increment. Masks do not count. (This project's choice.)
#[tactic(auto, unfolding(crate::specs::Agreement::agree))]
pub fn agree(a: &Schema, b: &Schema) -> bool
    ensures { result ≡ agree a.now b.now }
{
    same_tables(a.table_defs(), b.table_defs()) && same_sequences(a.sequences(), b.sequences())
}

fn same_tables(a: &[TableDef], b: &[TableDef]) -> bool
    ensures { result ≡ same_tables a.now b.now }
{
    if a.len() != b.len() {
        return false;
    }
    for i in 0..a.len() {
        if !same_table(&a[i], &b[i]) {
            return false;
        }
    }
    true
}

fn same_table(a: &TableDef, b: &TableDef) -> bool
    ensures { result ≡ same_table a.now b.now }
{
    same_name(a.name.as_slice(), b.name.as_slice())
        && (same_fields(&a.fields, &b.fields) && same_indexes(a, b))
}

/// Each field of the one is one of the other, and the other way round.
fn same_fields(a: &Named<FieldDef>, b: &Named<FieldDef>) -> bool
    ensures { result ≡ same_fields a.now b.now }
{
    are_among(a.as_slice(), b) && are_among(b.as_slice(), a)
}

/// Each of these fields is one of the others.
fn are_among(fields: &[FieldDef], others: &Named<FieldDef>) -> bool
    ensures { result ≡ list_all (has_field others.now) fields.now }
{
    fields.iter().all(|field| has_field(others, field))
}

/// One of these fields has its name, in any case, and is the same.
fn has_field(fields: &Named<FieldDef>, field: &FieldDef) -> bool
    ensures { result ≡ has_field fields.now field.now }
{
    match fields.find(field.name.as_slice()) {
        None => false,
        Some(number) => same_field(field, &fields.as_slice()[number]),
    }
}

fn same_field(a: &FieldDef, b: &FieldDef) -> bool
    ensures { result ≡ same_field a.now b.now }
{
    same_kind(a.kind, b.kind)
        && (same_truth(a.mandatory, b.mandatory) && same_value(&a.initial, &b.initial))
}

/// Each index of the one is one of the other, and the other way round; the primary one is the same.
fn same_indexes(a: &TableDef, b: &TableDef) -> bool
    ensures { result ≡ same_indexes a.now b.now }
{
    (has_indexes(a, b) && has_indexes(b, a))
        && same_primary(
            a.indexes.as_slice(),
            b.indexes.as_slice(),
            a.primary,
            b.primary,
        )
}

/// Each index of table `a` is one of table `b`.
fn has_indexes(a: &TableDef, b: &TableDef) -> bool
    ensures { result ≡ list_all (has_index a.now b.now) a.now.indexes }
{
    let indexes = a.indexes.as_slice();
    indexes.iter().all(|index| has_index(a, b, index))
}

/// Table `b` has an index of its name, in any case, that is the same as this one of table `a`.
fn has_index(a: &TableDef, b: &TableDef, index: &IndexDef) -> bool
    ensures { result ≡ has_index a.now b.now index.now }
{
    match b.indexes.find(index.name.as_slice()) {
        None => false,
        Some(number) => same_index(a, b, index, &b.indexes.as_slice()[number]),
    }
}

fn same_index(a: &TableDef, b: &TableDef, i: &IndexDef, j: &IndexDef) -> bool
    ensures { result ≡ same_index a.now b.now i.now j.now }
{
    same_truth(i.unique, j.unique)
        && same_parts(
            a.fields.as_slice(),
            b.fields.as_slice(),
            i.parts.as_slice(),
            j.parts.as_slice(),
        )
}

/// The same components in order.
fn same_parts(a: &[FieldDef], b: &[FieldDef], p: &[KeyPart], q: &[KeyPart]) -> bool
    ensures { result ≡ same_parts a.now b.now p.now q.now }
{
    if p.len() != q.len() {
        return false;
    }
    for i in 0..p.len() {
        if !same_part(a, b, p[i], q[i]) {
            return false;
        }
    }
    true
}

/// Two components name the same field, and have the same direction.
fn same_part(a: &[FieldDef], b: &[FieldDef], p: KeyPart, q: KeyPart) -> bool
    ensures { result ≡ same_part a.now b.now p q }
{
    same_name(name_at(a, p.field), name_at(b, q.field)) && same_truth(p.descending, q.descending)
}

/// The name of the field with this number, empty where there is none.
pub(crate) fn name_at(fields: &[FieldDef], number: u16) -> &[u8]
    ensures { result.now ≡ (slice_index_or fields.now number no_field).name }
{
    match fields.get(usize::from(number)) {
        None => &[],
        Some(field) => field.name.as_slice(),
    }
}

/// The primary indexes have one name, or neither table has one.
fn same_primary(a: &[IndexDef], b: &[IndexDef], p: Option<u16>, q: Option<u16>) -> bool
    ensures { result ≡ same_primary_in a.now b.now p q }
{
    match (p, q) {
        (None, None) => true,
        (Some(p), Some(q)) => same_name(index_name_at(a, p), index_name_at(b, q)),
        _ => false,
    }
}

/// The name of the index with this number, empty where there is none.
fn index_name_at(indexes: &[IndexDef], number: u16) -> &[u8]
    ensures { result.now ≡ (slice_index_or indexes.now number no_index).name }
{
    match indexes.get(usize::from(number)) {
        None => &[],
        Some(index) => index.name.as_slice(),
    }
}

fn same_sequences(a: &[SequenceDef], b: &[SequenceDef]) -> bool
    ensures { result ≡ same_sequences a.now b.now }
{
    if a.len() != b.len() {
        return false;
    }
    for i in 0..a.len() {
        if !same_sequence(&a[i], &b[i]) {
            return false;
        }
    }
    true
}

fn same_sequence(a: &SequenceDef, b: &SequenceDef) -> bool
    ensures { result ≡ same_sequence a.now b.now }
{
    same_name(a.name.as_slice(), b.name.as_slice())
        && (a.initial == b.initial && a.increment == b.increment)
}

fn same_kind(a: Option<Kind>, b: Option<Kind>) -> bool
    ensures { result ≡ same_kind a b }
{
    same_bytes(kind_text(a), kind_text(b))
}

fn same_truth(a: bool, b: bool) -> bool
    ensures { result ≡ same_truth a b }
{
    if a { b } else { !b }
}

/// Says whether two values are one.
fn same_value(a: &Value, b: &Value) -> bool
    ensures { result ≡ same_value a.now b.now }
{
    match (a, b) {
        (Value::Text(a), Value::Text(b)) => same_bytes(a.as_slice(), b.as_slice()),
        (Value::Int(a), Value::Int(b)) => *a == *b,
        (Value::Int64(a), Value::Int64(b)) => *a == *b,
        (Value::Dec(a), Value::Dec(b)) => *a == *b,
        (Value::Logical(a), Value::Logical(b)) => same_truth(*a, *b),
        (Value::Date(a), Value::Date(b)) => *a == *b,
        (Value::Unknown, Value::Unknown) => true,
        _ => false,
    }
}
