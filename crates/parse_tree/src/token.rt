//! Tokens, and the list of a source's tokens.

ghost use Rattle.std.specs.Prelude.{◌≡◌, IsTrue, length};
ghost use Rattle.parse_tree.specs.Tokens.{ends_once};

use abl_base::{Bytes, Place};
use std::marker::Model;

/// What a token is: a form of tokens, a keyword or a symbol (OpenEdge ABL Reference, Syntax).
/// `Name` comes first, then the other forms, the keywords in the order of the alphabet, the
/// symbols, and the end of the source.
#[derive(Clone, Copy, Debug, PartialEq, Eq)]
pub enum TokenKind {
    /// A name that is no keyword.
    Name,
    /// A name that is no keyword, a point and a name: `customer.num`.
    QualifiedName,
    /// Digits.
    WholeNumber,
    /// Digits, a point and digits.
    DecimalNumber,
    /// Month, day and year, set apart by `/`.
    DateLiteral,
    /// Bytes between two quotes.
    TextLiteral,
    And,
    Append,
    As,
    Assign,
    Available,
    Begins,
    Buffer,
    By,
    Character,
    Close,
    Create,
    Current,
    CurrentValue,
    Date,
    Day,
    Decimal,
    Define,
    Delete,
    Do,
    Each,
    Else,
    End,
    Endkey,
    Entry,
    Eq,
    Error,
    ErrorStatus,
    ExclusiveLock,
    Export,
    False,
    Find,
    First,
    For,
    Format,
    From,
    Ge,
    Gt,
    If,
    Import,
    Initial,
    Input,
    InputOutput,
    Int64,
    Integer,
    Label,
    Last,
    Le,
    Leave,
    Length,
    Locked,
    Logical,
    Lt,
    Message,
    Modulo,
    Month,
    Ne,
    Next,
    NextValue,
    No,
    NoError,
    NoLock,
    NoUndo,
    NoWait,
    Not,
    NumEntries,
    On,
    Or,
    Output,
    Parameter,
    Prev,
    Procedure,
    Put,
    Release,
    Repeat,
    Retry,
    Return,
    ReturnValue,
    Run,
    ShareLock,
    Skip,
    Space,
    Stop,
    Stream,
    String,
    Substring,
    Then,
    To,
    Transaction,
    True,
    Undo,
    Unformatted,
    UseIndex,
    Variable,
    Where,
    While,
    Year,
    Yes,
    /// `:`
    Colon,
    /// `,`
    Comma,
    /// `(`
    LeftParenthesis,
    /// `)`
    RightParenthesis,
    /// `=`
    Equals,
    /// `<>`
    NotEqual,
    /// `<`
    Less,
    /// `>`
    Greater,
    /// `<=`
    LessOrEqual,
    /// `>=`
    GreaterOrEqual,
    /// `+`
    Plus,
    /// `-`
    Minus,
    /// `*`
    Star,
    /// `/`
    Slash,
    /// `?`
    QuestionMark,
    /// `^`
    Caret,
    /// `.`
    Period,
    /// After the last byte of the source.
    EndOfSource,
}

/// What a token means beyond its kind.
#[derive(Drop)]
pub enum Meaning {
    /// A keyword, a symbol or the end: the kind is the whole meaning.
    KindAlone,
    /// The name as the source spells it.
    Spelling(Bytes),
    /// The two parts of a qualified name as the source spells them.
    Parts(Bytes, Bytes),
    /// The whole number, below 10^18.
    Whole(u64),
    /// The decimal number times 10^10, below 10^28.
    Scaled(u128),
    /// A date of the years 1 to 9999.
    Day(CivilDate),
    /// The bytes between the quotes, with doubled quotes and `~` taken away.
    TextBytes(Bytes),
}

/// A date: the month from 1 to 12, the day of the month from 1, the year from 1 to 9999.
#[derive(Clone, Copy, Debug, PartialEq, Eq)]
pub struct CivilDate {
    pub month: u8,
    pub day: u8,
    pub year: u16,
}

/// A token: its kind, the bytes of the source from `start` up to and without `end`, the line and
/// column of its first byte, and its meaning.
#[derive(Drop)]
pub struct Token {
    pub kind: TokenKind,
    pub start: u32,
    pub end: u32,
    pub place: Place,
    pub meaning: Meaning,
}

/// The tokens of a source in order. The end token is the last and occurs nowhere else.
#[derive(Drop)]
pub struct Tokens {
    items: Vec<Token>,
}

impl Model for Tokens {
    ghost use Rattle.std.specs.Prelude.{List, IsTrue};
    ghost use Rattle.parse_tree.specs.declared.token.Token.{Token};
    ghost use Rattle.parse_tree.specs.Tokens.{ends_once};

    ghost Value = { List Token };

    ghost view = { λ tokens. tokens.items.items };

    ghost invariant = { λ tokens. IsTrue (ends_once tokens.items.items) };
}

impl Tokens {
    /// The tokens of the vector, which ends in its one end token.
    pub fn from_vec(items: Vec<Token>) -> Tokens
        requires { IsTrue (ends_once items.items) }
        ensures { result ≡ items.items }
    {
        Tokens { items }
    }

    /// The tokens in order.
    pub fn as_slice(&self) -> &[Token]
        ensures items { result.now ≡ self.now }
        ensures ends { IsTrue (ends_once self.now) }
    {
        self.items.as_slice()
    }

    /// How many tokens there are, the end token among them.
    pub fn len(&self) -> usize
        ensures count { result ≡ length self.now }
        ensures ends { IsTrue (ends_once self.now) }
    {
        self.items.len()
    }
}
