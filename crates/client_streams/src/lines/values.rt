//! The text of one value, at the end of a text.

ghost use Rattle.std.specs.Prelude.{◌≡◌, ◌++◌, OnOk, option_copied};
ghost use Rattle.abl_values.specs.Texts.{plain_text};
ghost use Rattle.client_streams.specs.lines.Writes.{item_text, text_in};

use abl_base::{Bytes, Value};
use abl_values::export_value;
use std::alloc::{AllocError, Global};
use value_formats::masked;
use value_masks::plain;

/// The form of a value in a line.
#[derive(Clone, Copy, Debug)]
pub enum Form {
    /// As MESSAGE writes it.
    Plain,
    /// As EXPORT writes it: a text in `"`.
    Export,
}

/// Appends the text of a value. A text is not copied first.
pub(crate) fn push_value(
    alloc: Global,
    text: &mut Vec<u8>,
    form: Form,
    value: &Value,
) -> Result<(), AllocError>
    ensures { OnOk result (text.new.items ≡ text.old.items ++ text_in form value.now) }
{
    match form {
        Form::Plain => push_plain(alloc, text, value),
        Form::Export => text.extend_from_slice(export_value(alloc, value)?.as_slice()),
    }
}

/// Appends the text of an item of PUT, under its mask if it has one.
pub(crate) fn push_item(
    alloc: Global,
    text: &mut Vec<u8>,
    mask: Option<&Bytes>,
    value: &Value,
) -> Result<(), AllocError>
    ensures { OnOk result (text.new.items ≡ text.old.items ++ item_text (option_copied mask.entry) value.now) }
{
    match mask {
        None => push_plain(alloc, text, value),
        Some(mask) => text.extend_from_slice(masked(alloc, mask.as_slice(), value)?.as_slice()),
    }
}

/// Appends the plain text of a value.
#[tactic(auto, unfolding(abl_values::specs::Texts::plain_text))]
fn push_plain(alloc: Global, text: &mut Vec<u8>, value: &Value) -> Result<(), AllocError>
    ensures { OnOk result (text.new.items ≡ text.old.items ++ plain_text value.now) }
{
    match value {
        Value::Text(bytes) => text.extend_from_slice(bytes.as_slice()),
        Value::Int(_)
        | Value::Int64(_)
        | Value::Dec(_)
        | Value::Logical(_)
        | Value::Date(_)
        | Value::Unknown => text.extend_from_slice(plain(alloc, value)?.as_slice()),
    }
}
