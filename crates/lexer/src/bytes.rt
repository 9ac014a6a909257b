//! Classes of the bytes of a source.

ghost use Rattle.std.specs.Prelude.{◌≡◌, ◌≤◌, drop, length};
ghost use Rattle.lexer.specs.Bytes.{is_digit, is_letter, is_name_byte, is_quote, is_symbol_byte, is_white, starts, starts_letter};
ghost use Rattle.lexer.specs.Texts.{bytes_of};

/// Blank, tab, line feed, carriage return and form feed.
pub fn is_white(b: u8) -> bool
    ensures { result ≡ is_white b }
{
    b == b' ' || b == b'\t' || b == b'\n' || b == b'\r' || b == 12
}

/// A letter of ASCII.
pub fn is_letter(b: u8) -> bool
    ensures { result ≡ is_letter b }
{
    (b >= b'A' && b <= b'Z') || (b >= b'a' && b <= b'z')
}

/// A digit of ASCII.
pub fn is_digit(b: u8) -> bool
    ensures { result ≡ is_digit b }
{
    b >= b'0' && b <= b'9'
}

/// Whether the byte may follow the first letter of a name: letters, digits and `# $ % & - _`.
pub fn is_name_byte(b: u8) -> bool
    ensures { result ≡ is_name_byte b }
{
    is_letter(b) || is_digit(b) || (b >= b'#' && b <= b'&') || b == b'-' || b == b'_'
}

/// `"` and `'`.
pub fn is_quote(b: u8) -> bool
    ensures { result ≡ is_quote b }
{
    b == b'"' || b == b'\''
}

/// `( ) * + , - . / < = > ? : ^`.
pub fn is_symbol_byte(b: u8) -> bool
    ensures { result ≡ is_symbol_byte b }
{
    (b >= b'(' && b <= b'/') || (b >= b'<' && b <= b'?') || b == b':' || b == b'^'
}

/// The text from this place on.
pub fn rest_from(text: &[u8], at: usize) -> &[u8]
    requires { at ≤ length text.now }
    ensures { result.now ≡ drop at text.now }
{
    &text[at..]
}

/// The bytes from `start` up to and without `end`.
pub fn piece(text: &[u8], start: usize, end: usize) -> &[u8]
    requires order { start ≤ end }
    requires within { end ≤ length text.now }
    ensures { result.now ≡ bytes_of text.now start end }
{
    &text[start..end]
}

/// Whether this byte is at this place.
pub fn has_byte_at(text: &[u8], i: usize, b: u8) -> bool
    requires { i ≤ length text.now }
    ensures { result ≡ starts b (drop i text.now) }
{
    if i < text.len() { text[i] == b } else { false }
}

/// Whether the text begins with a letter.
pub fn starts_letter(text: &[u8]) -> bool
    ensures { result ≡ starts_letter text.now }
{
    if text.len() > 0 {
        is_letter(text[0])
    } else {
        false
    }
}
