//! Expressions (OpenEdge ABL Reference, Expressions; and each operator and function by its name).

use abl_base::{Bytes, Kind, Value};

/// A variable or parameter: of the procedure that contains the expression, or of the external one.
#[derive(Clone, Copy, PartialEq, Eq)]
pub struct Variable {
    /// Whether it is the external procedure's, named in an internal one.
    pub external: bool,
    /// Whether an UNDO restores it: it is defined without NO-UNDO.
    pub undoable: bool,
    /// Its number from 0 among the undoable ones, or among the others, of its procedure, in the
    /// order of their definitions.
    pub number: u32,
    pub kind: Kind,
}

/// An operator or function of one value.
#[derive(Clone, Copy, PartialEq, Eq)]
pub enum Unary {
    /// The sign `+`.
    Positive,
    /// The sign `-`.
    Negative,
    /// NOT.
    Not,
    /// INTEGER(v).
    ToInteger,
    /// INT64(v).
    ToInt64,
    /// DECIMAL(v).
    ToDecimal,
    /// STRING(v), the plain text.
    ToText,
    /// LENGTH(text), in bytes.
    Length,
    /// YEAR(date).
    Year,
    /// MONTH(date).
    Month,
    /// DAY(date).
    Day,
}

/// An operator or function of two values.
#[derive(Clone, Copy, PartialEq, Eq)]
pub enum Binary {
    /// `+`, of numbers, of texts, or of a date and a whole number.
    Add,
    /// `-`, of numbers, of a date and a whole number, or of dates.
    Subtract,
    /// `*`.
    Multiply,
    /// `/`.
    Divide,
    /// MODULO.
    Modulo,
    /// `=` or EQ.
    Equal,
    /// `<>` or NE.
    Unequal,
    /// `<` or LT.
    Less,
    /// `>` or GT.
    Greater,
    /// `<=` or LE.
    AtMost,
    /// `>=` or GE.
    AtLeast,
    /// BEGINS.
    Begins,
    /// NUM-ENTRIES(list, delimiter); a delimiter that is left out is a comma here.
    NumEntries,
}

/// The operator of a link: one of two values, or AND or OR, which may skip its right operand.
#[derive(Clone, Copy, PartialEq, Eq)]
pub enum Operator {
    Binary(Binary),
    /// AND.
    And,
    /// OR.
    Or,
}

/// A function of three values.
#[derive(Clone, Copy, PartialEq, Eq)]
pub enum Ternary {
    /// SUBSTRING(text, first, count); a count that is left out is -1 here, the rest of the text.
    Substring,
    /// ENTRY(number, list, delimiter); a delimiter that is left out is a comma here.
    Entry,
    /// DATE(month, day, year).
    DateOf,
}

/// An operator of a chain, and its right operand. Its left one is the chain before it.
#[derive(Drop)]
#[cycle(expression)]
pub struct Link {
    pub operator: Operator,
    pub operand: Expr,
}

/// An expression.
#[derive(Drop)]
#[cycle(expression)]
pub enum Expr {
    Literal(Value),
    Variable(Variable),
    /// A field of the record in a buffer of the procedure.
    Field {
        buffer: u32,
        field: u16,
        kind: Kind,
    },
    Unary(Unary, Box<Expr>),
    /// `first op operand op operand ..`, evaluated from the left: the operators of a source that
    /// have one precedence. NUM-ENTRIES is a chain with one link. A chain is a list, not a nest of
    /// pairs, since a source may have half a million operators in a row: its depth is that of its
    /// deepest operand, plus one.
    Chain {
        first: Box<Expr>,
        rest: Vec<Link>,
    },
    Ternary(Ternary, Box<Expr>, Box<Expr>, Box<Expr>),
    /// IF test THEN one ELSE other, with the kind of both branches: DECIMAL where both are numbers
    /// and one is DECIMAL, and none where both are the literal `?`.
    If {
        test: Box<Expr>,
        then_value: Box<Expr>,
        else_value: Box<Expr>,
        kind: Option<Kind>,
    },
    /// STRING(v, mask). The mask fits the kind of the value.
    Masked {
        value: Box<Expr>,
        mask: Bytes,
    },
    /// AVAILABLE of a buffer.
    Available(u32),
    /// LOCKED of a buffer.
    Locked(u32),
    /// RETRY.
    Retry,
    /// ERROR-STATUS:ERROR.
    ErrorStatus,
    /// RETURN-VALUE.
    ReturnValue,
}
