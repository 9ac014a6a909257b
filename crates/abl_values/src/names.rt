//! Names: which texts are one, and which are the same in any case.

ghost use Rattle.std.specs.Prelude.{◌≡◌};
ghost use Rattle.std.specs.List.{list_all};
ghost use Rattle.abl_values.specs.Masks.{is_digit};
ghost use Rattle.abl_values.specs.Names.{is_letter, is_name, is_name_byte};
ghost use Rattle.abl_values.specs.Schema.{same_name};

use crate::order::folded_byte;
use abl_base::MAX_NAME_BYTES;

/// Says whether two names are the same but for the case of ASCII letters. (OpenEdge ABL Reference,
/// Names.)
pub fn same_name(a: &[u8], b: &[u8]) -> bool
    ensures { result ≡ same_name a.now b.now }
{
    if a.len() != b.len() {
        return false;
    }
    for i in 0..a.len() {
        if folded_byte(a[i]) != folded_byte(b[i]) {
            return false;
        }
    }
    true
}

/// Says whether the text is a name: a letter, then letters, digits and the signs `# $ % & - _`, at
/// most 32 bytes. (OpenEdge ABL Reference, Names.)
pub fn is_name(text: &[u8]) -> bool
    ensures { result ≡ is_name text.now }
{
    match text {
        [] => false,
        [first, rest @ ..] => {
            is_letter(*first) && (are_name_bytes(rest) && text.len() <= MAX_NAME_BYTES)
        }
    }
}

/// A digit of ASCII.
pub fn is_digit(byte: u8) -> bool
    ensures { result ≡ is_digit byte }
{
    b'0' <= byte && byte <= b'9'
}

/// A letter of ASCII.
fn is_letter(byte: u8) -> bool
    ensures { result ≡ is_letter byte }
{
    (b'A' <= byte && byte <= b'Z') || (b'a' <= byte && byte <= b'z')
}

/// Letters, digits and `# $ % & - _`.
fn is_name_byte(byte: u8) -> bool
    ensures { result ≡ is_name_byte byte }
{
    (is_letter(byte) || is_digit(byte))
        || ((b'#' <= byte && byte <= b'&') || (byte == b'-' || byte == b'_'))
}

fn are_name_bytes(bytes: &[u8]) -> bool
    ensures { result ≡ list_all is_name_byte bytes.now }
{
    bytes.iter().all(|byte| is_name_byte(*byte))
}
