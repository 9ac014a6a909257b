//! The forms of tokens.

/// A form of tokens, as the table of forms has it: a name or keyword, a qualified name, digits,
/// digits with a point, a date, a text between quotes, a symbol.
#[derive(Clone, Copy, Debug, PartialEq, Eq)]
pub enum Form {
    Word,
    Qualified,
    Digits,
    Fractional,
    Dated,
    Quoted,
    Symbol,
}
