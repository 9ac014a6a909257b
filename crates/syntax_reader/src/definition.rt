//! Definitions.

ghost use Rattle.std.specs.Prelude.{◌≡◌, ◌<◌, IfOk, IfSome, pos};
ghost use Rattle.abl_base.specs.declared.value.Value.TheVariants as value;
ghost use Rattle.syntax_tree.specs.Typed.{definition_of};
ghost use Rattle.syntax_reader.specs.Definitions.{AreVariableOptions, IsDefinition, IsDirection, IsKind, IsLiteral, IsNumber, IsVariableOption};
ghost use Rattle.syntax_reader.specs.Nodes.{signed};
ghost use Rattle.syntax_reader.specs.Views.{source_of};

use crate::constant::{date_value, scaled, whole};
use crate::nodes::{ReadFault, Reader, name, needs, place, text, uses, word_there};
use abl_base::{Kind, Place, Value};
use parse_tree::production::{
    DATA_TYPE_CHARACTER, DATA_TYPE_DATE, DATA_TYPE_DECIMAL, DATA_TYPE_INT64, DATA_TYPE_INTEGER,
    DATA_TYPE_LOGICAL, DEFINITION_BUFFER, DEFINITION_DIRECTION, DEFINITION_STREAM,
    DEFINITION_VARIABLE, DIRECTION_INPUT, DIRECTION_INPUT_OUTPUT, DIRECTION_OUTPUT,
    FORMAT_OR_LABEL_FORMAT, FORMAT_OR_LABEL_LABEL, LITERAL_DATE_LITERAL, LITERAL_FALSE,
    LITERAL_LITERAL_SIGN, LITERAL_NO, LITERAL_NUMBER_DECIMAL_NUMBER, LITERAL_NUMBER_WHOLE_NUMBER,
    LITERAL_QUESTION_MARK, LITERAL_SIGN_MINUS, LITERAL_SIGN_NONE, LITERAL_TEXT_LITERAL,
    LITERAL_TRUE, LITERAL_YES, VARIABLE_OPTION_FORMAT_OR_LABEL, VARIABLE_OPTION_INITIAL,
    VARIABLE_OPTION_NO_UNDO, VARIABLE_OPTIONS_NONE, VARIABLE_OPTIONS_VARIABLE_OPTION,
};
use std::alloc::Global;
use syntax_tree::{Definition, Direction, VariableOption};

/// The kind that a data type names.
fn kind(reader: &Reader<'_>, n: usize) -> Result<Kind, ReadFault>
    ensures { IfOk result (λ r. IsKind (source_of reader.now) n r) }
{
    if let Some(k) = uses(reader, n, DATA_TYPE_CHARACTER) {
        return Ok(Kind::Character);
    }
    if let Some(k) = uses(reader, n, DATA_TYPE_INTEGER) {
        return Ok(Kind::Integer);
    }
    if let Some(k) = uses(reader, n, DATA_TYPE_INT64) {
        return Ok(Kind::Int64);
    }
    if let Some(k) = uses(reader, n, DATA_TYPE_DECIMAL) {
        return Ok(Kind::Decimal);
    }
    if let Some(k) = uses(reader, n, DATA_TYPE_LOGICAL) {
        return Ok(Kind::Logical);
    }
    if let Some(k) = uses(reader, n, DATA_TYPE_DATE) {
        return Ok(Kind::Date);
    }
    Err(ReadFault::Malformed)
}

/// The direction of a parameter.
fn direction(reader: &Reader<'_>, n: usize) -> Result<Direction, ReadFault>
    ensures { IfOk result (λ r. IsDirection (source_of reader.now) n r) }
{
    if let Some(k) = uses(reader, n, DIRECTION_INPUT) {
        return Ok(Direction::Input);
    }
    if let Some(k) = uses(reader, n, DIRECTION_OUTPUT) {
        return Ok(Direction::Output);
    }
    if let Some(k) = uses(reader, n, DIRECTION_INPUT_OUTPUT) {
        return Ok(Direction::InputOutput);
    }
    Err(ReadFault::Malformed)
}

/// A whole number as a value, negative after a minus sign.
fn whole_value(minus: bool, x: u64) -> Result<Value, ReadFault>
    ensures { IfOk result (λ v. v ≡ value.Int64 (signed minus x)) }
{
    match i64::try_from(x) {
        Ok(n) if minus => Ok(Value::Int64(-n)),
        Ok(n) => Ok(Value::Int64(n)),
        Err(_) => Err(ReadFault::Malformed),
    }
}

/// A decimal number times 10^10 as a value, negative after a minus sign.
fn scaled_value(minus: bool, x: u128) -> Result<Value, ReadFault>
    ensures { IfOk result (λ v. v ≡ value.Dec (signed minus x)) }
{
    match i128::try_from(x) {
        Ok(n) if minus => Ok(Value::Dec(-n)),
        Ok(n) => Ok(Value::Dec(n)),
        Err(_) => Err(ReadFault::Malformed),
    }
}

/// A number after a minus sign or none.
fn number(reader: &Reader<'_>, n: usize, minus: bool) -> Result<Value, ReadFault>
    ensures { IfOk result (λ v. IsNumber (source_of reader.now) n minus v) }
{
    if let Some(k) = uses(reader, n, LITERAL_NUMBER_WHOLE_NUMBER) {
        let x = whole(reader, k)?;
        let value = whole_value(minus, x)?;
        return Ok(value);
    }
    let k = needs(reader, n, LITERAL_NUMBER_DECIMAL_NUMBER)?;
    let x = scaled(reader, k)?;
    let value = scaled_value(minus, x)?;
    Ok(value)
}

/// A literal after INITIAL.
fn literal(reader: &Reader<'_>, n: usize) -> Result<(Value, Place, usize), ReadFault>
    ensures is { IfOk result (λ r. IsLiteral (source_of reader.now) n r.2 r.0 r.1) }
    ensures after { IfOk result (λ r. n < r.2) }
{
    if let Some(k) = uses(reader, n, LITERAL_LITERAL_SIGN) {
        let at = place(reader, k)?;
        let minus = word_there(reader, n + 1, LITERAL_SIGN_MINUS, LITERAL_SIGN_NONE)?;
        let value = number(reader, n + 2, minus)?;
        return Ok((value, at, n + 3));
    }
    if let Some(k) = uses(reader, n, LITERAL_TEXT_LITERAL) {
        let word = text(reader, k)?;
        return Ok((Value::Text(word.spelling), word.at, n + 1));
    }
    if let Some(k) = uses(reader, n, LITERAL_DATE_LITERAL) {
        let value = date_value(reader, k)?;
        let at = place(reader, k)?;
        return Ok((value, at, n + 1));
    }
    word_literal(reader, n)
}

/// YES, NO, TRUE, FALSE or `?`.
fn word_literal(reader: &Reader<'_>, n: usize) -> Result<(Value, Place, usize), ReadFault>
    ensures is { IfOk result (λ r. IsLiteral (source_of reader.now) n r.2 r.0 r.1) }
    ensures after { IfOk result (λ r. n < r.2) }
{
    if let Some(k) = uses(reader, n, LITERAL_YES) {
        let at = place(reader, k)?;
        return Ok((Value::Logical(true), at, n + 1));
    }
    if let Some(k) = uses(reader, n, LITERAL_NO) {
        let at = place(reader, k)?;
        return Ok((Value::Logical(false), at, n + 1));
    }
    if let Some(k) = uses(reader, n, LITERAL_TRUE) {
        let at = place(reader, k)?;
        return Ok((Value::Logical(true), at, n + 1));
    }
    if let Some(k) = uses(reader, n, LITERAL_FALSE) {
        let at = place(reader, k)?;
        return Ok((Value::Logical(false), at, n + 1));
    }
    let k = needs(reader, n, LITERAL_QUESTION_MARK)?;
    let at = place(reader, k)?;
    Ok((Value::Unknown, at, n + 1))
}

/// An option of a variable.
fn variable_option(
    alloc: Global,
    reader: &Reader<'_>,
    n: usize,
) -> Result<(VariableOption, usize), ReadFault>
    ensures is { IfOk result (λ r. IsVariableOption (source_of reader.now) n r.1 r.0) }
    ensures after { IfOk result (λ r. n < r.1) }
{
    if let Some(k) = uses(reader, n, VARIABLE_OPTION_NO_UNDO) {
        let at = place(reader, k)?;
        return Ok((VariableOption::NoUndo { at }, n + 1));
    }
    if let Some(k) = uses(reader, n, VARIABLE_OPTION_INITIAL) {
        let at = place(reader, k)?;
        let (value, literal_at, end) = literal(reader, n + 1)?;
        let made = VariableOption::Initial {
            at,
            value,
            literal_at,
        };
        return Ok((made, end));
    }
    let k = needs(reader, n, VARIABLE_OPTION_FORMAT_OR_LABEL)?;
    let at = place(reader, k)?;
    if let Some(j) = uses(reader, n + 1, FORMAT_OR_LABEL_FORMAT) {
        let mask = text(reader, k + 1)?;
        return Ok((VariableOption::Format { at, mask }, n + 2));
    }
    let j = needs(reader, n + 1, FORMAT_OR_LABEL_LABEL)?;
    Ok((VariableOption::Label { at }, n + 2))
}

/// The options of a variable.
fn variable_options(
    alloc: Global,
    reader: &Reader<'_>,
    begun: usize,
) -> Result<(Vec<VariableOption>, usize), ReadFault>
    ensures is { IfOk result (λ r. AreVariableOptions (source_of reader.now) begun r.1 (r.0.items)) }
    ensures after { IfOk result (λ r. begun < r.1) }
{
    let mut found = Vec::new(alloc);
    let mut n = begun;
    while let Some(k) = uses(reader, n, VARIABLE_OPTIONS_VARIABLE_OPTION) {
        let (one, end) = variable_option(alloc, reader, n + 1)?;
        found.push(one)?;
        n = end;
    }
    let k = needs(reader, n, VARIABLE_OPTIONS_NONE)?;
    Ok((found, n + 1))
}

/// A definition.
pub(crate) fn definition(
    alloc: Global,
    reader: &Reader<'_>,
    n: usize,
) -> Result<(Definition, usize), ReadFault>
    ensures is { IfOk result (λ r. IsDefinition (source_of reader.now) n r.1 (definition_of r.0)) }
    ensures after { IfOk result (λ r. n < r.1) }
{
    if let Some(k) = uses(reader, n, DEFINITION_VARIABLE) {
        let word = name(reader, k + 1)?;
        let kind = kind(reader, n + 1)?;
        let (options, end) = variable_options(alloc, reader, n + 2)?;
        let made = Definition::Variable {
            name: word,
            kind,
            options,
        };
        return Ok((made, end));
    }
    if let Some(k) = uses(reader, n, DEFINITION_BUFFER) {
        let buffer = name(reader, k + 1)?;
        let table = name(reader, k + 3)?;
        let made = Definition::Buffer {
            name: buffer,
            table,
        };
        return Ok((made, n + 1));
    }
    if let Some(k) = uses(reader, n, DEFINITION_STREAM) {
        let word = name(reader, k + 1)?;
        return Ok((Definition::Stream(word), n + 1));
    }
    parameter(alloc, reader, n)
}

/// A definition of a parameter.
fn parameter(alloc: Global, reader: &Reader<'_>, n: usize) -> Result<(Definition, usize), ReadFault>
    ensures is { IfOk result (λ r. IsDefinition (source_of reader.now) n r.1 (definition_of r.0)) }
    ensures after { IfOk result (λ r. n < r.1) }
{
    let k = needs(reader, n, DEFINITION_DIRECTION)?;
    let direction = direction(reader, n + 1)?;
    let at = place(reader, k + 1)?;
    let word = name(reader, k + 2)?;
    let kind = kind(reader, n + 2)?;
    let (options, end) = variable_options(alloc, reader, n + 3)?;
    let made = Definition::Parameter {
        direction,
        at,
        name: word,
        kind,
        options,
    };
    Ok((made, end))
}
