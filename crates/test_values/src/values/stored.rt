//! The answers of rows about texts, stored rows, keys and names.

use crate::values::shown::text;
use abl_base::{Items, Kind, Row, Value, copy_row};
use abl_values::{FieldDef, HasName, KeyPart, NameFault, Named, key_bytes, row_bytes, row_of};
use std::alloc::{AllocError, Global};
use test_words::{bytes_of, kind_of, value_of, word_of};
use text_values::value_in;

/// The value of a kind that a text denotes, from the kind and the text.
pub fn value(alloc: Global, arguments: &str) -> Result<Option<String>, AllocError> {
    let Some((kind, word)) = arguments.split_once(' ') else {
        return Ok(None);
    };
    match kind_of(kind) {
        Some(kind) => denoted(alloc, kind, bytes_of(alloc, word.as_bytes())?.as_slice()),
        None => Ok(None),
    }
}

/// The text of this number of letters `a`.
pub fn run(alloc: Global, length: &str) -> Result<Option<String>, AllocError> {
    match length.parse::<u16>() {
        Ok(length) => {
            let text = vec![in alloc; b'a'; usize::from(length)]?;
            denoted(alloc, Kind::Character, text.as_slice())
        }
        Err(_) => Ok(None),
    }
}

/// The value of a kind that a text denotes.
fn denoted(alloc: Global, kind: Kind, text: &[u8]) -> Result<Option<String>, AllocError> {
    match value_in(alloc, kind, text)? {
        Some(value) => Ok(Some(word_of(alloc, &value)?)),
        None => Ok(Some(String::from_str(alloc, "no value")?)),
    }
}

/// The values of a row, from the kinds of its fields with commas between and its bytes.
pub fn read(alloc: Global, arguments: &str) -> Result<Option<String>, AllocError> {
    let Some((kinds, word)) = arguments.split_once(' ') else {
        return Ok(None);
    };
    let fields = fields_of(alloc, kinds)?;
    match row_of(
        alloc,
        fields.as_slice(),
        bytes_of(alloc, word.as_bytes())?.as_slice(),
    )? {
        Some(row) => Ok(Some(words(alloc, &copy_row(&row)?)?)),
        None => Ok(Some(String::from_str(alloc, "no row of them")?)),
    }
}

/// The bytes of the row without fields.
pub fn empty_row(alloc: Global) -> Result<Option<String>, AllocError> {
    let bytes = row_bytes(alloc, &[], &Items::empty(alloc))?;
    Ok(Some(text(alloc, bytes.as_slice())?))
}

/// The key bytes of a row, from the components with commas between, as `0,2d` for the first field
/// ascending and the third descending, and the values of the row.
pub fn key(alloc: Global, arguments: &str) -> Result<Option<String>, AllocError> {
    let Some((components, rest)) = arguments.split_once(' ') else {
        return Ok(None);
    };
    let Some(row) = row_in(alloc, rest)? else {
        return Ok(None);
    };
    let mut parts = Vec::new(alloc);
    for component in components.split(',') {
        match part_of(component) {
            Some(part) => parts.push(part)?,
            None => return Ok(None),
        }
    }
    let bytes = key_bytes(alloc, parts.as_slice(), &row)?;
    Ok(Some(text(alloc, bytes.as_slice())?))
}

/// The component of a word.
fn part_of(word: &str) -> Option<KeyPart> {
    let (number, descending) = match word.strip_suffix("d") {
        Some(number) => (number, true),
        None => (word, false),
    };
    Some(KeyPart {
        field: number.parse::<u16>().ok()?,
        descending,
    })
}

/// The result of adding fields of these names one after the other: the number by which the name is
/// found afterwards, or why it was refused.
pub fn names(alloc: Global, arguments: &str) -> Result<Option<String>, AllocError> {
    let mut fields = Named::empty(alloc);
    let mut answer = String::new(alloc);
    for name in arguments.split(' ') {
        let field = field_of(alloc, name.as_bytes(), None)?;
        match fields.push(field) {
            Ok(()) => push_number(&mut answer, alloc, &fields, name)?,
            Err(NameFault::Taken) => answer.push_str("taken ")?,
            Err(NameFault::TooLong) => answer.push_str("too-long ")?,
            Err(NameFault::NoMemory) => return Err(AllocError),
        }
    }
    answer.push_str("end")?;
    Ok(Some(answer))
}

/// Writes the number by which a name is found.
fn push_number<T: HasName>(
    answer: &mut String,
    alloc: Global,
    list: &Named<T>,
    name: &str,
) -> Result<(), AllocError> {
    match list.find(capitals(alloc, name.as_bytes())?.as_slice()) {
        Some(number) => answer.push_str(format!(in alloc; "{number} ")?.as_str()),
        None => answer.push_str("lost "),
    }
}

/// A name in capitals.
fn capitals(alloc: Global, name: &[u8]) -> Result<Vec<u8>, AllocError> {
    let mut capitals = Vec::new(alloc);
    for byte in name {
        capitals.push(byte.to_ascii_uppercase())?;
    }
    Ok(capitals)
}

/// A field with this name and kind.
fn field_of(alloc: Global, name: &[u8], kind: Option<Kind>) -> Result<FieldDef, AllocError> {
    Ok(FieldDef {
        name: Items::of(alloc, name)?,
        kind,
        initial: Value::Unknown,
        mandatory: false,
        mask: Items::empty(alloc),
    })
}

/// Fields of these kinds, an unsupported one for a word that names no kind.
fn fields_of(alloc: Global, kinds: &str) -> Result<Vec<FieldDef>, AllocError> {
    let mut fields = Vec::new(alloc);
    for kind in kinds.split(',') {
        fields.push(field_of(alloc, b"f", kind_of(kind))?)?;
    }
    Ok(fields)
}

/// The row of values with blanks between.
fn row_in(alloc: Global, words: &str) -> Result<Option<Row>, AllocError> {
    let mut values = Vec::new(alloc);
    for word in words.split(' ') {
        match value_of(alloc, word)? {
            Some(value) => values.push(value)?,
            None => return Ok(None),
        }
    }
    Ok(Some(Items::from_vec(values)))
}

/// The words of a row, with a blank after each.
fn words(alloc: Global, row: &Row) -> Result<String, AllocError> {
    let mut words = String::new(alloc);
    for value in row.as_slice() {
        words.push_str(word_of(alloc, value)?.as_str())?;
        words.push(' ')?;
    }
    words.push_str("end")?;
    Ok(words)
}
