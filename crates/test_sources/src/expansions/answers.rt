//! The answer to a row of an expansion.

ghost use Rattle.std.specs.Prelude.{◌≡◌, ◌≤◌, length, true, ℕ};
ghost use Rattle.abl_base.specs.declared.limits.TheConstants.{MAX_FILE_BYTES};
ghost use Rattle.preprocessor.specs.Texts.{AreTexts, bytes_at};

use abl_base::limits::MAX_FILE_BYTES;
use abl_base::{Place, Rule};
use abl_values::Schema;
use preprocessor::{Expansion, NamedText, Origin, PreFault, expand};
use source_reader::{SourceFault, read_source};
use std::alloc::{AllocError, Global};
use test_words::{push_bytes, push_lines};

/// What is asked of the expansion of the texts, by the name of the row, or what is in its place.
pub fn answer(
    alloc: Global,
    name: &str,
    schema: &Option<Schema>,
    texts: &[NamedText],
) -> Result<String, AllocError> {
    if !are_texts(texts) {
        return String::from_str(alloc, "no row");
    }
    match expand(alloc, texts) {
        Ok(expansion) => asked(alloc, name, schema, texts, &expansion),
        Err(PreFault::Broken { rule, text, place }) => {
            broken(alloc, texts, rule, Origin { text, place })
        }
        Err(PreFault::Need { name }) => {
            let mut answer = String::from_str(alloc, "needs ")?;
            push_bytes(&mut answer, name.as_slice())?;
            Ok(answer)
        }
        Err(PreFault::NoMemory) => Err(AllocError),
    }
}

/// Whether the texts can be expanded.
fn are_texts(texts: &[NamedText]) -> bool
    ensures { result ≡ true → AreTexts texts.now }
{
    texts.len() < 1_000 && are_short(texts)
}

/// Whether no text is longer than a file may be.
#[tactic(auto, using(crate::proofs::Shorts::none_short, crate::proofs::Shorts::more_short))]
fn are_short(texts: &[NamedText]) -> bool
    ensures { result ≡ true → (i : ℕ) → length (bytes_at texts.now i) ≤ MAX_FILE_BYTES }
{
    let mut rest = texts;
    while let [text, tail @ ..] = rest {
        if text.bytes.len() as u64 > MAX_FILE_BYTES {
            return false;
        }
        rest = tail;
    }
    true
}

/// What is asked of an expansion.
fn asked(
    alloc: Global,
    name: &str,
    schema: &Option<Schema>,
    texts: &[NamedText],
    expansion: &Expansion,
) -> Result<String, AllocError> {
    if name.ends_with("places") {
        return pieces(alloc, texts, expansion);
    }
    if name.ends_with("size") {
        return size(alloc, texts, expansion);
    }
    if name.ends_with("judged") {
        return judged(alloc, schema, texts, expansion);
    }
    let mut answer = String::new(alloc);
    push_lines(&mut answer, expansion.bytes.as_slice())?;
    answer.push_str("<end>")?;
    Ok(answer)
}

/// The pieces of an expansion: each with its origin, and the bytes that follow it in its text without a
/// gap, a line each. The last line has the end of the source.
fn pieces(alloc: Global, texts: &[NamedText], expansion: &Expansion) -> Result<String, AllocError> {
    let mut answer = String::from_str(alloc, "pieces")?;
    let mut follows = None;
    let mut at: u32 = 0;
    for byte in expansion.bytes.as_slice() {
        let origin = expansion.origin(at);
        if !is_at(&follows, origin) {
            answer.push('\n')?;
            push_origin(alloc, &mut answer, texts, origin)?;
            answer.push(' ')?;
        }
        push_bytes(&mut answer, &[*byte])?;
        follows = Some(after(origin, *byte));
        at = at.wrapping_add(1);
    }
    answer.push_str("\nend ")?;
    push_origin(alloc, &mut answer, texts, expansion.origin(at))?;
    Ok(answer)
}

/// Whether the origin is the expected one.
fn is_at(expected: &Option<Origin>, origin: Origin) -> bool {
    match expected {
        Some(expected) => expected.text == origin.text && expected.place == origin.place,
        None => false,
    }
}

/// The origin of the byte that follows this one in its text.
fn after(origin: Origin, byte: u8) -> Origin {
    let place = if byte == b'\n' {
        Place {
            line: origin.place.line.wrapping_add(1),
            column: 1,
        }
    } else {
        Place {
            line: origin.place.line,
            column: origin.place.column.wrapping_add(1),
        }
    };
    Origin {
        text: origin.text,
        place,
    }
}

/// The length of an expansion, and where its last byte was taken from.
fn size(alloc: Global, texts: &[NamedText], expansion: &Expansion) -> Result<String, AllocError> {
    let length = expansion.bytes.len();
    let mut answer = format!(in alloc; "{length} bytes, last from ")?;
    let mut last = expansion.origin(0);
    for origin in expansion.origins.as_slice() {
        last = *origin;
    }
    push_origin(alloc, &mut answer, texts, last)?;
    Ok(answer)
}

/// `ok`, or the first rule of L to U that the source breaks, at its place in the texts.
fn judged(
    alloc: Global,
    schema: &Option<Schema>,
    texts: &[NamedText],
    expansion: &Expansion,
) -> Result<String, AllocError> {
    let bytes = expansion.bytes.as_slice();
    let Some(schema) = schema else {
        return String::from_str(alloc, "no schema");
    };
    if bytes.len() as u64 > MAX_FILE_BYTES {
        return Err(AllocError);
    }
    match read_source(alloc, schema, bytes) {
        Ok(_) => String::from_str(alloc, "ok"),
        Err(SourceFault::Broken { rule, place }) => {
            broken(alloc, texts, rule, expansion.origin_at(place))
        }
        Err(SourceFault::NoMemory) => Err(AllocError),
    }
}

/// The rule that is broken, with the file and the place.
fn broken(
    alloc: Global,
    texts: &[NamedText],
    rule: Rule,
    at: Origin,
) -> Result<String, AllocError> {
    let mut answer = format!(in alloc; "{rule:?} at ")?;
    push_origin(alloc, &mut answer, texts, at)?;
    Ok(answer)
}

/// Writes the name of a text and a place in it.
fn push_origin(
    alloc: Global,
    answer: &mut String,
    texts: &[NamedText],
    origin: Origin,
) -> Result<(), AllocError> {
    if let Some(text) = texts.get(origin.text as usize) {
        push_bytes(answer, text.name.as_slice())?;
    }
    let place = origin.place;
    answer.push_str(format!(in alloc; ":{}:{}", place.line, place.column)?.as_str())
}
