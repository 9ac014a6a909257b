//! What EXPORT writes, and the plain text of a value.

ghost use Rattle.std.specs.Prelude.{◌≡◌, ◌++◌, ◌∷◌, [], IfOk, OnOk, flat_map};
ghost use Rattle.abl_values.specs.Texts.{export_text, plain_text};
ghost use Rattle.value_masks.specs.Export.{export};

use abl_base::{Bytes, Items, Row, Value};
use abl_values::export_value;
use std::alloc::{AllocError, Global};

/// The plain text of a value, as MESSAGE, PUT UNFORMATTED and STRING write it: a text as it is, and
/// any other value as EXPORT writes it. Out of memory is the only error. (OpenEdge ABL Reference,
/// STRING; the form of dates is this project's choice.)
#[tactic(auto, unfolding(abl_values::specs::Texts::plain_text, abl_values::specs::Texts::export_text))]
pub fn plain(alloc: Global, value: &Value) -> Result<Bytes, AllocError>
    ensures { IfOk result (λ bytes. bytes ≡ plain_text value.now) }
{
    match value {
        Value::Text(text) => Items::of(alloc, text.as_slice()),
        Value::Int(_)
        | Value::Int64(_)
        | Value::Dec(_)
        | Value::Logical(_)
        | Value::Date(_)
        | Value::Unknown => export_value(alloc, value),
    }
}

/// The line that EXPORT writes of a row: its values in order with one blank between, texts in `"`
/// with inner ones doubled, and a line feed. Out of memory is the only error. (OpenEdge ABL
/// Reference, EXPORT.)
pub fn export_line(alloc: Global, row: &Row) -> Result<Bytes, AllocError>
    ensures { IfOk result (λ bytes. bytes ≡ export row.now) }
{
    let mut line = Vec::new(alloc);
    if let [first, rest @ ..] = row.as_slice() {
        line.extend_from_slice(export_value(alloc, first)?.as_slice())?;
        push_after_blanks(alloc, &mut line, rest)?;
    }
    line.push(b'\n')?;
    Ok(Items::from_vec(line))
}

/// Writes the texts of values with a blank before each.
fn push_after_blanks(alloc: Global, line: &mut Vec<u8>, values: &[Value]) -> Result<(), AllocError>
    ensures { OnOk result (line.new.items ≡ line.old.items
        ++ flat_map (λ v. (32 ∷ []) ++ export_text v) values.now) }
{
    for value in values {
        line.push(b' ')?;
        line.extend_from_slice(export_value(alloc, value)?.as_slice())?;
    }
    Ok(())
}
