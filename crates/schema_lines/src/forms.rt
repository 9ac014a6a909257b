//! What a line says.

ghost use Rattle.std.specs.Prelude.{◌≡◌, IfOk, Some};
ghost use Rattle.schema_lines.specs.Lines.{quote_of, quoted_bytes, word_of};
ghost use Rattle.schema_lines.specs.Forms.{added, attribute_line, component, field_head, given, index_head, index_or_sequence_line, kind_named, quoted_given, said, sequence_head, table_head, text_given, word_given};
ghost use Rattle.schema_lines.specs.Numbers.{long_number};

use crate::item::{Attribute, Component, Given, Head, Line};
use crate::lines::{after_quote, after_word, begins, past_word, quoted_bytes, word_of};
use crate::numbers::{long_number, small_number};
use abl_base::{Bytes, Items, Kind};
use abl_values::same_name;
use std::alloc::{AllocError, Global};

/// What the line says: it begins an item, gives an attribute, or is skipped.
#[tactic(auto, unfolding(crate::specs::Forms::said))]
pub fn said(alloc: Global, line: &[u8]) -> Result<Line, AllocError>
    ensures { IfOk result (λ said_line. said_line ≡ said line.now) }
{
    if begins(b"ADD", line) {
        Ok(Line::Begins(added(alloc, after_word(line))?))
    } else if begins(b"UPDATE", line) || (begins(b"DROP", line) || begins(b"RENAME", line)) {
        Ok(Line::Begins(Head::Malformed))
    } else {
        attribute_line(alloc, line)
    }
}

/// The item of the words after ADD.
fn added(alloc: Global, rest: &[u8]) -> Result<Head, AllocError>
    ensures { IfOk result (λ head. head ≡ added rest.now) }
{
    if begins(b"TABLE", rest) {
        table_head(alloc, after_word(rest))
    } else if begins(b"FIELD", rest) {
        field_head(alloc, after_word(rest))
    } else if begins(b"INDEX", rest) {
        index_head(alloc, after_word(rest))
    } else if begins(b"SEQUENCE", rest) {
        sequence_head(alloc, after_word(rest))
    } else {
        Ok(Head::Malformed)
    }
}

/// `"t"`
fn table_head(alloc: Global, rest: &[u8]) -> Result<Head, AllocError>
    ensures { IfOk result (λ head. head ≡ table_head rest.now) }
{
    match after_quote(rest) {
        Some([]) => Ok(Head::Table {
            name: quoted_bytes(alloc, rest)?,
        }),
        _ => Ok(Head::Malformed),
    }
}

/// `"s"`
fn sequence_head(alloc: Global, rest: &[u8]) -> Result<Head, AllocError>
    ensures { IfOk result (λ head. head ≡ sequence_head rest.now) }
{
    match after_quote(rest) {
        Some([]) => Ok(Head::Sequence {
            name: quoted_bytes(alloc, rest)?,
        }),
        _ => Ok(Head::Malformed),
    }
}

/// `"i" ON "t"`
fn index_head(alloc: Global, rest: &[u8]) -> Result<Head, AllocError>
    ensures { IfOk result (λ head. head ≡ index_head rest.now) }
{
    let Some(then_on) = after_quote(rest) else {
        return Ok(Head::Malformed);
    };
    let Some(on_table) = past_word(b"ON", then_on) else {
        return Ok(Head::Malformed);
    };
    let Some(end) = after_quote(on_table) else {
        return Ok(Head::Malformed);
    };
    if !end.is_empty() {
        return Ok(Head::Malformed);
    }
    Ok(Head::Index {
        name: quoted_bytes(alloc, rest)?,
        table: quoted_bytes(alloc, on_table)?,
    })
}

/// `"f" OF "t" AS type`
fn field_head(alloc: Global, rest: &[u8]) -> Result<Head, AllocError>
    ensures { IfOk result (λ head. head ≡ field_head rest.now) }
{
    let Some(then_of) = after_quote(rest) else {
        return Ok(Head::Malformed);
    };
    let Some(of_table) = past_word(b"OF", then_of) else {
        return Ok(Head::Malformed);
    };
    let Some(then_as) = after_quote(of_table) else {
        return Ok(Head::Malformed);
    };
    let Some(typed) = past_word(b"AS", then_as) else {
        return Ok(Head::Malformed);
    };
    let word = word_of(typed);
    if word.is_empty() || !after_word(typed).is_empty() {
        return Ok(Head::Malformed);
    }
    Ok(Head::Field {
        name: quoted_bytes(alloc, rest)?,
        table: quoted_bytes(alloc, of_table)?,
        kind: kind_named(word),
    })
}

/// The kind with this name, in any case; any other type is unsupported.
fn kind_named(name: &[u8]) -> Option<Kind>
    ensures { result ≡ kind_named name.now }
{
    if same_name(name, b"character") {
        Some(Kind::Character)
    } else if same_name(name, b"integer") {
        Some(Kind::Integer)
    } else if same_name(name, b"int64") {
        Some(Kind::Int64)
    } else if same_name(name, b"decimal") {
        Some(Kind::Decimal)
    } else if same_name(name, b"logical") {
        Some(Kind::Logical)
    } else if same_name(name, b"date") {
        Some(Kind::Date)
    } else {
        None
    }
}

/// A text in quotation marks or a word, where the line begins with either.
fn given(alloc: Global, rest: &[u8]) -> Result<Option<Given>, AllocError>
    ensures { IfOk result (λ text. text ≡ given rest.now) }
{
    match rest {
        [] => Ok(None),
        [first, ..] => {
            if *first == b'"' {
                quoted_given(alloc, rest)
            } else {
                word_given(alloc, rest)
            }
        }
    }
}

/// A text in quotation marks, where it is closed.
fn quoted_given(alloc: Global, rest: &[u8]) -> Result<Option<Given>, AllocError>
    ensures { IfOk result (λ text. text ≡ quoted_given (quote_of rest.now)) }
{
    if after_quote(rest).is_none() {
        return Ok(None);
    }
    Ok(Some(Given {
        quoted: true,
        text: quoted_bytes(alloc, rest)?,
    }))
}

/// The word at the head, where there is one.
fn word_given(alloc: Global, rest: &[u8]) -> Result<Option<Given>, AllocError>
    ensures { IfOk result (λ text. text ≡ word_given (word_of rest.now)) }
{
    let word = word_of(rest);
    if word.is_empty() {
        return Ok(None);
    }
    Ok(Some(Given {
        quoted: false,
        text: Items::of(alloc, word)?,
    }))
}

/// The text that is given, empty where none is.
fn text_given(alloc: Global, rest: &[u8]) -> Result<Bytes, AllocError>
    ensures { IfOk result (λ text. text ≡ text_given (given rest.now)) }
{
    match given(alloc, rest)? {
        None => Ok(Items::empty(alloc)),
        Some(text) => {
            let Given { quoted: _, text } = text;
            Ok(text)
        }
    }
}

/// The number of a sequence, in quotation marks or as a word.
fn number_given(alloc: Global, rest: &[u8]) -> Result<Option<i64>, AllocError>
    ensures { IfOk result (λ number. number ≡ long_number (text_given (given rest.now))) }
{
    let text = text_given(alloc, rest)?;
    Ok(long_number(text.as_slice()))
}

/// A field in quotation marks and its direction.
fn component(alloc: Global, rest: &[u8]) -> Result<Option<Component>, AllocError>
    ensures { IfOk result (λ part. part ≡ component (quote_of rest.now)) }
{
    let Some(direction) = after_quote(rest) else {
        return Ok(None);
    };
    if begins(b"ASCENDING", direction) {
        directed(alloc, rest, false)
    } else if begins(b"DESCENDING", direction) {
        directed(alloc, rest, true)
    } else {
        Ok(None)
    }
}

/// The field in quotation marks, with this direction.
fn directed(alloc: Global, rest: &[u8], descending: bool) -> Result<Option<Component>, AllocError>
    ensures { IfOk result (λ part. part ≡ Some (record { field = quoted_bytes rest.now; descending = descending })) }
{
    Ok(Some(Component {
        field: quoted_bytes(alloc, rest)?,
        descending,
    }))
}

/// What a line says that begins no item.
fn attribute_line(alloc: Global, line: &[u8]) -> Result<Line, AllocError>
    ensures { IfOk result (λ said_line. said_line ≡ attribute_line line.now) }
{
    let rest = after_word(line);
    if begins(b"INITIAL", line) {
        Ok(Line::Says(Attribute::Initial(given(alloc, rest)?)))
    } else if begins(b"FORMAT", line) {
        Ok(Line::Says(Attribute::Format(text_given(alloc, rest)?)))
    } else if begins(b"MANDATORY", line) {
        Ok(Line::Says(Attribute::Mandatory))
    } else if begins(b"ORDER", line) {
        Ok(Line::Says(Attribute::Order(small_number(word_of(rest)))))
    } else if begins(b"EXTENT", line) {
        Ok(Line::Says(Attribute::Extent(small_number(word_of(rest)))))
    } else {
        index_or_sequence_line(alloc, line)
    }
}

/// What a line says that gives no attribute of a field alone.
fn index_or_sequence_line(alloc: Global, line: &[u8]) -> Result<Line, AllocError>
    ensures { IfOk result (λ said_line. said_line ≡ index_or_sequence_line line.now) }
{
    let rest = after_word(line);
    if begins(b"UNIQUE", line) {
        Ok(Line::Says(Attribute::Unique))
    } else if begins(b"PRIMARY", line) {
        Ok(Line::Says(Attribute::Primary))
    } else if begins(b"WORD", line) {
        Ok(Line::Says(Attribute::Word))
    } else if begins(b"INDEX-FIELD", line) {
        Ok(Line::Says(Attribute::IndexField(component(alloc, rest)?)))
    } else if begins(b"INCREMENT", line) {
        Ok(Line::Says(Attribute::Increment(number_given(alloc, rest)?)))
    } else {
        Ok(Line::Skipped)
    }
}
