//! The answer to a schema file.

use abl_values::Schema;
use schema_reader::{SchemaRefusal, read_df};
use std::alloc::{AllocError, Global};
use test_words::push_lines;

/// The canonical text of the file, or the rule that it breaks.
pub fn answer(alloc: Global, name: &str, text: &[u8]) -> Result<String, AllocError> {
    match read_df(alloc, text) {
        Ok(schema) => meaning(alloc, name, &schema),
        Err(SchemaRefusal::NoMemory) => Err(AllocError),
        Err(SchemaRefusal::Broken { rule, line }) => format!(in alloc; "{rule:?} at line {line}"),
    }
}

/// The answer to a file that breaks no rule.
fn meaning(alloc: Global, name: &str, schema: &Schema) -> Result<String, AllocError> {
    let canonical = schema.canonical()?;
    if name.ends_with("size") {
        return size(alloc, canonical.as_slice());
    }
    let mut answer = String::new(alloc);
    push_lines(&mut answer, canonical.as_slice())?;
    if name.ends_with("spelt") {
        push_spelt(&mut answer, alloc, schema)?;
    }
    answer.push_str("end")?;
    Ok(answer)
}

/// The length of a text and its last line.
fn size(alloc: Global, text: &[u8]) -> Result<String, AllocError> {
    let length = text.len();
    let mut answer = format!(in alloc; "{length} bytes, last ")?;
    if let Some(last) = text.split(|byte| *byte == b'\n').rev().nth(1) {
        push_lines(&mut answer, last)?;
    }
    Ok(answer)
}

/// Writes the names of a schema as they are spelt, with the numbers that they are found by, and the
/// masks: a line a table and a sequence.
fn push_spelt(answer: &mut String, alloc: Global, schema: &Schema) -> Result<(), AllocError> {
    for table in 0..schema.tables() {
        push_table(answer, alloc, schema, table)?;
    }
    for sequence in schema.sequences() {
        answer.push_str("s ")?;
        push_lines(answer, sequence.name.as_slice())?;
        answer.push('\n')?;
    }
    Ok(())
}

/// Writes the line of a table, and nothing where the schema has none of this number.
fn push_table(
    answer: &mut String,
    alloc: Global,
    schema: &Schema,
    table: u16,
) -> Result<(), AllocError> {
    if table >= schema.tables() {
        return Ok(());
    }
    answer.push_str("t ")?;
    let name = schema.table_name(table);
    push_lines(answer, name)?;
    push_found(
        answer,
        alloc,
        schema.table(capitals(alloc, name)?.as_slice()),
    )?;
    for field in schema.fields(table) {
        let name = field.name.as_slice();
        answer.push(' ')?;
        push_lines(answer, name)?;
        push_found(
            answer,
            alloc,
            schema.field(table, capitals(alloc, name)?.as_slice()),
        )?;
        answer.push_str(" [")?;
        push_lines(answer, field.mask.as_slice())?;
        answer.push(']')?;
    }
    for index in schema.indexes(table) {
        answer.push_str(" i ")?;
        push_lines(answer, index.name.as_slice())?;
    }
    answer.push('\n')
}

/// Writes the number that a name was found by.
fn push_found(answer: &mut String, alloc: Global, number: Option<u16>) -> Result<(), AllocError> {
    match number {
        Some(number) => answer.push_str(format!(in alloc; "={number}")?.as_str()),
        None => answer.push_str("=none"),
    }
}

/// A name in capitals.
fn capitals(alloc: Global, name: &[u8]) -> Result<Vec<u8>, AllocError> {
    let mut capitals = Vec::new(alloc);
    for byte in name {
        capitals.push(byte.to_ascii_uppercase())?;
    }
    Ok(capitals)
}
