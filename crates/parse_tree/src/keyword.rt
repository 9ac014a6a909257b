//! The words that are reserved.

ghost use Rattle.std.specs.Prelude.{◌≡◌};
ghost use Rattle.parse_tree.specs.Keywords.{abbreviated, abbreviation, capitals, keyword_of, reserved, spelled_in_full, spelled_short, spells};

use crate::token::TokenKind;

/// The kinds of the reserved words, in the order of the alphabet.
pub static RESERVED: [TokenKind; 97] = [
    TokenKind::And,
    TokenKind::Append,
    TokenKind::As,
    TokenKind::Assign,
    TokenKind::Available,
    TokenKind::Begins,
    TokenKind::Buffer,
    TokenKind::By,
    TokenKind::Character,
    TokenKind::Close,
    TokenKind::Create,
    TokenKind::Current,
    TokenKind::CurrentValue,
    TokenKind::Date,
    TokenKind::Day,
    TokenKind::Decimal,
    TokenKind::Define,
    TokenKind::Delete,
    TokenKind::Do,
    TokenKind::Each,
    TokenKind::Else,
    TokenKind::End,
    TokenKind::Endkey,
    TokenKind::Entry,
    TokenKind::Eq,
    TokenKind::Error,
    TokenKind::ErrorStatus,
    TokenKind::ExclusiveLock,
    TokenKind::Export,
    TokenKind::False,
    TokenKind::Find,
    TokenKind::First,
    TokenKind::For,
    TokenKind::Format,
    TokenKind::From,
    TokenKind::Ge,
    TokenKind::Gt,
    TokenKind::If,
    TokenKind::Import,
    TokenKind::Initial,
    TokenKind::Input,
    TokenKind::InputOutput,
    TokenKind::Int64,
    TokenKind::Integer,
    TokenKind::Label,
    TokenKind::Last,
    TokenKind::Le,
    TokenKind::Leave,
    TokenKind::Length,
    TokenKind::Locked,
    TokenKind::Logical,
    TokenKind::Lt,
    TokenKind::Message,
    TokenKind::Modulo,
    TokenKind::Month,
    TokenKind::Ne,
    TokenKind::Next,
    TokenKind::NextValue,
    TokenKind::No,
    TokenKind::NoError,
    TokenKind::NoLock,
    TokenKind::NoUndo,
    TokenKind::NoWait,
    TokenKind::Not,
    TokenKind::NumEntries,
    TokenKind::On,
    TokenKind::Or,
    TokenKind::Output,
    TokenKind::Parameter,
    TokenKind::Prev,
    TokenKind::Procedure,
    TokenKind::Put,
    TokenKind::Release,
    TokenKind::Repeat,
    TokenKind::Retry,
    TokenKind::Return,
    TokenKind::ReturnValue,
    TokenKind::Run,
    TokenKind::ShareLock,
    TokenKind::Skip,
    TokenKind::Space,
    TokenKind::Stop,
    TokenKind::Stream,
    TokenKind::String,
    TokenKind::Substring,
    TokenKind::Then,
    TokenKind::To,
    TokenKind::Transaction,
    TokenKind::True,
    TokenKind::Undo,
    TokenKind::Unformatted,
    TokenKind::UseIndex,
    TokenKind::Variable,
    TokenKind::Where,
    TokenKind::While,
    TokenKind::Year,
    TokenKind::Yes,
];

/// The kinds of the reserved words that have an abbreviation, in the order of the abbreviations.
pub static ABBREVIATED: [TokenKind; 13] = [
    TokenKind::Available,
    TokenKind::Character,
    TokenKind::Decimal,
    TokenKind::Define,
    TokenKind::ExclusiveLock,
    TokenKind::Initial,
    TokenKind::Integer,
    TokenKind::Logical,
    TokenKind::Parameter,
    TokenKind::Procedure,
    TokenKind::ShareLock,
    TokenKind::Transaction,
    TokenKind::Variable,
];

fn reserved() -> &'static [TokenKind]
    ensures { result.now ≡ reserved }
{
    &RESERVED
}

fn abbreviated() -> &'static [TokenKind]
    ensures { result.now ≡ abbreviated }
{
    &ABBREVIATED
}

/// The reserved word in capitals, and no bytes where the kind is that of no reserved word.
pub fn capitals(kind: TokenKind) -> &'static [u8]
    ensures { result.now ≡ capitals kind }
{
    match kind {
        TokenKind::And => b"AND",
        TokenKind::Append => b"APPEND",
        TokenKind::As => b"AS",
        TokenKind::Assign => b"ASSIGN",
        TokenKind::Available => b"AVAILABLE",
        TokenKind::Begins => b"BEGINS",
        TokenKind::Buffer => b"BUFFER",
        TokenKind::By => b"BY",
        TokenKind::Character => b"CHARACTER",
        TokenKind::Close => b"CLOSE",
        TokenKind::Create => b"CREATE",
        TokenKind::Current => b"CURRENT",
        TokenKind::CurrentValue => b"CURRENT-VALUE",
        TokenKind::Date => b"DATE",
        TokenKind::Day => b"DAY",
        TokenKind::Decimal => b"DECIMAL",
        TokenKind::Define => b"DEFINE",
        TokenKind::Delete => b"DELETE",
        TokenKind::Do => b"DO",
        TokenKind::Each => b"EACH",
        TokenKind::Else => b"ELSE",
        TokenKind::End => b"END",
        TokenKind::Endkey => b"ENDKEY",
        TokenKind::Entry => b"ENTRY",
        TokenKind::Eq => b"EQ",
        TokenKind::Error => b"ERROR",
        TokenKind::ErrorStatus => b"ERROR-STATUS",
        TokenKind::ExclusiveLock => b"EXCLUSIVE-LOCK",
        TokenKind::Export => b"EXPORT",
        TokenKind::False => b"FALSE",
        TokenKind::Find => b"FIND",
        TokenKind::First => b"FIRST",
        TokenKind::For => b"FOR",
        TokenKind::Format => b"FORMAT",
        TokenKind::From => b"FROM",
        TokenKind::Ge => b"GE",
        TokenKind::Gt => b"GT",
        TokenKind::If => b"IF",
        TokenKind::Import => b"IMPORT",
        TokenKind::Initial => b"INITIAL",
        TokenKind::Input => b"INPUT",
        TokenKind::InputOutput => b"INPUT-OUTPUT",
        TokenKind::Int64 => b"INT64",
        TokenKind::Integer => b"INTEGER",
        TokenKind::Label => b"LABEL",
        TokenKind::Last => b"LAST",
        TokenKind::Le => b"LE",
        TokenKind::Leave => b"LEAVE",
        TokenKind::Length => b"LENGTH",
        TokenKind::Locked => b"LOCKED",
        TokenKind::Logical => b"LOGICAL",
        TokenKind::Lt => b"LT",
        TokenKind::Message => b"MESSAGE",
        TokenKind::Modulo => b"MODULO",
        TokenKind::Month => b"MONTH",
        TokenKind::Ne => b"NE",
        TokenKind::Next => b"NEXT",
        TokenKind::NextValue => b"NEXT-VALUE",
        TokenKind::No => b"NO",
        TokenKind::NoError => b"NO-ERROR",
        TokenKind::NoLock => b"NO-LOCK",
        TokenKind::NoUndo => b"NO-UNDO",
        TokenKind::NoWait => b"NO-WAIT",
        TokenKind::Not => b"NOT",
        TokenKind::NumEntries => b"NUM-ENTRIES",
        TokenKind::On => b"ON",
        TokenKind::Or => b"OR",
        TokenKind::Output => b"OUTPUT",
        TokenKind::Parameter => b"PARAMETER",
        TokenKind::Prev => b"PREV",
        TokenKind::Procedure => b"PROCEDURE",
        TokenKind::Put => b"PUT",
        TokenKind::Release => b"RELEASE",
        TokenKind::Repeat => b"REPEAT",
        TokenKind::Retry => b"RETRY",
        TokenKind::Return => b"RETURN",
        TokenKind::ReturnValue => b"RETURN-VALUE",
        TokenKind::Run => b"RUN",
        TokenKind::ShareLock => b"SHARE-LOCK",
        TokenKind::Skip => b"SKIP",
        TokenKind::Space => b"SPACE",
        TokenKind::Stop => b"STOP",
        TokenKind::Stream => b"STREAM",
        TokenKind::String => b"STRING",
        TokenKind::Substring => b"SUBSTRING",
        TokenKind::Then => b"THEN",
        TokenKind::To => b"TO",
        TokenKind::Transaction => b"TRANSACTION",
        TokenKind::True => b"TRUE",
        TokenKind::Undo => b"UNDO",
        TokenKind::Unformatted => b"UNFORMATTED",
        TokenKind::UseIndex => b"USE-INDEX",
        TokenKind::Variable => b"VARIABLE",
        TokenKind::Where => b"WHERE",
        TokenKind::While => b"WHILE",
        TokenKind::Year => b"YEAR",
        TokenKind::Yes => b"YES",
        _ => b"",
    }
}

/// The abbreviation of the reserved word in capitals, and no bytes where it has none. That these
/// abbreviations and no others are taken is this project's choice.
pub fn abbreviation(kind: TokenKind) -> &'static [u8]
    ensures { result.now ≡ abbreviation kind }
{
    match kind {
        TokenKind::Available => b"AVAIL",
        TokenKind::Character => b"CHAR",
        TokenKind::Decimal => b"DEC",
        TokenKind::Define => b"DEF",
        TokenKind::ExclusiveLock => b"EXCLUSIVE",
        TokenKind::Initial => b"INIT",
        TokenKind::Integer => b"INT",
        TokenKind::Logical => b"LOG",
        TokenKind::Parameter => b"PARAM",
        TokenKind::Procedure => b"PROCE",
        TokenKind::ShareLock => b"SHARE",
        TokenKind::Transaction => b"TRANS",
        TokenKind::Variable => b"VAR",
        _ => b"",
    }
}

// The word is these capitals, in any case.
fn spells(capitals: &[u8], word: &[u8]) -> bool
    ensures { result ≡ spells capitals.now word.now }
{
    if capitals.len() != word.len() {
        return false;
    }
    for i in 0..word.len() {
        if capitals[i] != word[i].to_ascii_uppercase() {
            return false;
        }
    }
    true
}

fn spelled_in_full(word: &[u8]) -> Option<TokenKind>
    ensures { result ≡ spelled_in_full reserved word.now }
{
    for kind in reserved() {
        if spells(capitals(*kind), word) {
            return Some(*kind);
        }
    }
    None
}

fn spelled_short(word: &[u8]) -> Option<TokenKind>
    ensures { result ≡ spelled_short abbreviated word.now }
{
    for kind in abbreviated() {
        if spells(abbreviation(*kind), word) {
            return Some(*kind);
        }
    }
    None
}

/// The kind of the reserved word or its abbreviation, in any case, or none where the word is not
/// reserved.
pub fn keyword_of(word: &[u8]) -> Option<TokenKind>
    ensures { result ≡ keyword_of word.now }
{
    match spelled_in_full(word) {
        Some(kind) => Some(kind),
        None => spelled_short(word),
    }
}
