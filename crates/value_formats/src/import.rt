//! What IMPORT reads.

ghost use Rattle.std.specs.Prelude.{◌≡◌, ◌≤◌, [], ◌∷◌, IfOk, length};
ghost use Rattle.abl_values.specs.Masks.{same_bytes};
ghost use Rattle.value_formats.specs.Imports.{Answers, given, line_at, taken, values_from};

use crate::answer::{ImportFault, Imported};
use crate::element::Element;
use crate::line::{first_line, is_input_end};
use abl_base::{Items, Kind, Value};
use std::alloc::{AllocError, Global};
use text_values::value_in;

/// Reads the line that begins at `from`, for targets of these kinds; a target without a kind skips
/// its element. Elements are set apart by blanks or tabs. One in `"` ends at a `"` that is not
/// doubled, or at the end of the input, and may hold line feeds. The line ends at the first line
/// feed outside quotation marks, and a carriage return before it is dropped. A bare `?` is unknown,
/// and a bare `-` leaves the target; elements beyond the targets are passed over.
///
/// Refusals: `AtEnd` exactly where no byte is left or the line is a `.` alone; `BadField` exactly
/// at the first element that is no text of its target's kind; else out of memory. (OpenEdge ABL
/// Reference, IMPORT; the texts of each kind are this project's choice.)
#[tactic(auto, unfolding(crate::specs::Imports::line_at))]
pub fn import_line(
    alloc: Global,
    input: &[u8],
    from: usize,
    kinds: &[Option<Kind>],
) -> Result<Imported, ImportFault>
    requires { from ≤ length input.now }
    ensures { Answers result (line_at input.now from kinds.now) }
{
    let line = &input[from..];
    if is_input_end(line) {
        return Err(ImportFault::AtEnd);
    }
    let (elements, rest) = first_line(alloc, line)?;
    let next = input.len() - rest.len();
    match values(alloc, kinds, elements.as_slice())? {
        Ok(values) => Ok(Imported { values, next }),
        Err(number) => Err(ImportFault::BadField { number, next }),
    }
}

/// The values that the elements of a line give to targets of these kinds, or the number of the
/// first bad element.
fn values(
    alloc: Global,
    kinds: &[Option<Kind>],
    elements: &[Element],
) -> Result<Result<Items<Option<Value>>, usize>, AllocError>
    ensures { IfOk result (λ got. got ≡ values_from 1 kinds.now elements.now) }
{
    let mut values = Vec::with_capacity(alloc, kinds.len())?;
    for (i, kind) in kinds.iter().enumerate() {
        if i < elements.len() {
            match taken(alloc, *kind, &elements[i])? {
                Some(value) => values.push(value)?,
                None => return Ok(Err(i + 1)),
            }
        } else {
            values.push(None)?;
        }
    }
    Ok(Ok(Items::from_vec(values)))
}

/// What a target gets of an element, and `None` where the element is no text of its kind.
fn taken(
    alloc: Global,
    kind: Option<Kind>,
    element: &Element,
) -> Result<Option<Option<Value>>, AllocError>
    ensures { IfOk result (λ got. got ≡ taken kind element.now) }
{
    let Some(kind) = kind else {
        return Ok(Some(None));
    };
    match element {
        Element::Bare(word) => {
            if is_alone(word.as_slice(), b'?') {
                return Ok(Some(Some(Value::Unknown)));
            }
            if is_alone(word.as_slice(), b'-') {
                return Ok(Some(None));
            }
            given(alloc, kind, word.as_slice())
        }
        Element::Quoted(text) => given(alloc, kind, text.as_slice()),
    }
}

/// Whether the text is this byte alone.
fn is_alone(word: &[u8], byte: u8) -> bool
    ensures { result ≡ same_bytes word.now (byte ∷ []) }
{
    match word {
        [] => false,
        [only] => *only == byte,
        [_, _, ..] => false,
    }
}

/// What a target gets of a text, and `None` where it is no text of its kind.
fn given(alloc: Global, kind: Kind, text: &[u8]) -> Result<Option<Option<Value>>, AllocError>
    ensures { IfOk result (λ got. got ≡ given kind text.now) }
{
    Ok(value_in(alloc, kind, text)?.map(Some))
}
