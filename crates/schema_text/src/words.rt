//! The words at the head of a text. `None` comes exactly where the text begins with none of the form.

ghost use Rattle.std.specs.Prelude.{◌≡◌, ◌<◌, ◌≤◌, length, IfSome, MatchOption, None, Some, true};
ghost use Rattle.abl_values.specs.Masks.{after_run};
ghost use Rattle.abl_values.specs.Names.{is_name};
ghost use Rattle.schema_text.specs.Words.{begins, field_head, flag_at, index_head, is_word_byte, kind_said, name_after, name_before, past, word_before};

use abl_base::Kind;
use abl_values::{is_name, same_bytes};

/// A word, and what follows the byte after it.
#[derive(Clone, Copy)]
pub struct Word<'a> {
    pub word: &'a [u8],
    pub rest: &'a [u8],
}

/// Which of two letters stands there, and what follows it.
#[derive(Clone, Copy)]
pub struct Flag<'a> {
    pub is_set: bool,
    pub rest: &'a [u8],
}

/// The line of a field up to its initial value.
#[derive(Clone, Copy)]
pub struct FieldHead<'a> {
    pub name: &'a [u8],
    pub kind: Option<Kind>,
    pub mandatory: bool,
    pub rest: &'a [u8],
}

/// The line of an index up to its components.
#[derive(Clone, Copy)]
pub struct IndexHead<'a> {
    pub name: &'a [u8],
    pub unique: bool,
    pub primary: bool,
    pub rest: &'a [u8],
}

/// Whether the text begins with this byte.
pub fn begins(byte: u8, text: &[u8]) -> bool
    ensures { result ≡ begins byte text.now }
{
    match text {
        [] => false,
        [first, ..] => *first == byte,
    }
}

/// What follows this byte.
pub fn past(byte: u8, text: &[u8]) -> Option<&[u8]>
    ensures past { MatchOption result (past byte text.now ≡ None) (λ rest. past byte text.now ≡ Some rest.now) }
    ensures shorter { IfSome result (λ rest. length rest.now < length text.now) }
{
    match text {
        [] => None,
        [first, rest @ ..] => { if *first == byte { Some(rest) } else { None } }
    }
}

/// A byte of a word: all above the blank.
fn is_word_byte(byte: u8) -> bool
    ensures { result ≡ is_word_byte byte }
{
    byte > b' '
}

/// The text from the end of its first word on.
fn after_word(text: &[u8]) -> &[u8]
    ensures rest { result.now ≡ after_run is_word_byte text.now }
    ensures within { length result.now ≤ length text.now }
{
    let mut rest = text;
    while let [first, tail @ ..] = rest {
        if !is_word_byte(*first) {
            break;
        }
        rest = tail;
    }
    rest
}

/// The first word, where it ends before this byte.
pub fn word_before(end: u8, text: &[u8]) -> Option<Word<'_>>
    ensures word { MatchOption result (word_before end text.now ≡ None) (λ read. word_before end text.now ≡ Some (record { word = read.word.now; rest = read.rest.now })) }
    ensures shorter { IfSome result (λ read. length read.rest.now < length text.now) }
{
    let from_end = after_word(text);
    let word = &text[..text.len() - from_end.len()];
    let rest = past(end, from_end)?;
    Some(Word { word, rest })
}

/// The first word, where it is a name and ends before this byte.
pub fn name_before(end: u8, text: &[u8]) -> Option<Word<'_>>
    ensures name { MatchOption result (name_before end text.now ≡ None) (λ read. name_before end text.now ≡ Some (record { word = read.word.now; rest = read.rest.now })) }
    ensures is_name { IfSome result (λ read. is_name read.word.now ≡ true) }
    ensures shorter { IfSome result (λ read. length read.rest.now < length text.now) }
{
    let read = word_before(end, text)?;
    if is_name(read.word) { Some(read) } else { None }
}

/// The name after this letter and a blank, where it ends before this byte.
pub fn name_after(letter: u8, end: u8, text: &[u8]) -> Option<Word<'_>>
    ensures name { MatchOption result (name_after letter end text.now ≡ None) (λ read. name_after letter end text.now ≡ Some (record { word = read.word.now; rest = read.rest.now })) }
    ensures is_name { IfSome result (λ read. is_name read.word.now ≡ true) }
    ensures shorter { IfSome result (λ read. length read.rest.now < length text.now) }
{
    let blank = past(letter, text)?;
    let name = past(b' ', blank)?;
    name_before(end, name)
}

/// Whether the first of two letters stands there, where one of them does.
pub fn flag_at(on: u8, off: u8, text: &[u8]) -> Option<Flag<'_>>
    ensures flag { MatchOption result (flag_at on off text.now ≡ None) (λ read. flag_at on off text.now ≡ Some (record { is_set = read.is_set; rest = read.rest.now })) }
    ensures shorter { IfSome result (λ read. length read.rest.now < length text.now) }
{
    match text {
        [] => None,
        [first, rest @ ..] => {
            if *first == on {
                Some(Flag { is_set: true, rest })
            } else if *first == off {
                Some(Flag {
                    is_set: false,
                    rest,
                })
            } else {
                None
            }
        }
    }
}

/// The kind that a word says, where it says one; a field with `-` has none.
fn kind_said(word: &[u8]) -> Option<Option<Kind>>
    ensures { result ≡ kind_said word.now }
{
    if same_bytes(word, b"-") {
        Some(None)
    } else if same_bytes(word, b"CHARACTER") {
        Some(Some(Kind::Character))
    } else if same_bytes(word, b"INTEGER") {
        Some(Some(Kind::Integer))
    } else if same_bytes(word, b"INT64") {
        Some(Some(Kind::Int64))
    } else if same_bytes(word, b"DECIMAL") {
        Some(Some(Kind::Decimal))
    } else if same_bytes(word, b"LOGICAL") {
        Some(Some(Kind::Logical))
    } else if same_bytes(word, b"DATE") {
        Some(Some(Kind::Date))
    } else {
        None
    }
}

/// `F name kind M|O ` at the head of a field's line.
pub fn field_head(text: &[u8]) -> Option<FieldHead<'_>>
    ensures head { MatchOption result (field_head text.now ≡ None) (λ head. field_head text.now ≡ Some (record { name = head.name.now; kind = head.kind; mandatory = head.mandatory; rest = head.rest.now })) }
    ensures is_name { IfSome result (λ head. is_name head.name.now ≡ true) }
    ensures shorter { IfSome result (λ head. length head.rest.now < length text.now) }
{
    let name = name_after(b'F', b' ', text)?;
    let word = word_before(b' ', name.rest)?;
    let kind = kind_said(word.word)?;
    let mandatory = flag_at(b'M', b'O', word.rest)?;
    let rest = past(b' ', mandatory.rest)?;
    Some(FieldHead {
        name: name.word,
        kind,
        mandatory: mandatory.is_set,
        rest,
    })
}

/// `I name U|N P|N` at the head of an index's line.
pub fn index_head(text: &[u8]) -> Option<IndexHead<'_>>
    ensures head { MatchOption result (index_head text.now ≡ None) (λ head. index_head text.now ≡ Some (record { name = head.name.now; unique = head.unique; primary = head.primary; rest = head.rest.now })) }
    ensures is_name { IfSome result (λ head. is_name head.name.now ≡ true) }
    ensures shorter { IfSome result (λ head. length head.rest.now < length text.now) }
{
    let name = name_after(b'I', b' ', text)?;
    let unique = flag_at(b'U', b'N', name.rest)?;
    let blank = past(b' ', unique.rest)?;
    let primary = flag_at(b'P', b'N', blank)?;
    Some(IndexHead {
        name: name.word,
        unique: unique.is_set,
        primary: primary.is_set,
        rest: primary.rest,
    })
}
