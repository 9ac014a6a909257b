//! Expressions.

use crate::name::{Named, Word};
use crate::word::Function;
use abl_base::{Place, Value};
use bound_tree::Binary;

/// An operator between two operands.
#[derive(Clone, Copy, PartialEq, Eq)]
pub enum Operator {
    /// An operator of arithmetic, a comparison or BEGINS.
    Two(Binary),
    And,
    Or,
}

/// An operator with its place, and the operand to its right.
#[derive(Drop)]
#[cycle(expression)]
pub struct Link {
    pub operator: Operator,
    pub at: Place,
    pub operand: Expression,
}

/// An expression. What begins with a keyword or a sign has the place of this token.
#[derive(Drop)]
#[cycle(expression)]
pub enum Expression {
    Literal {
        value: Value,
        at: Place,
    },
    Name(Named),
    /// In parentheses.
    Grouped {
        at: Place,
        inner: Box<Expression>,
    },
    Plus {
        at: Place,
        operand: Box<Expression>,
    },
    Minus {
        at: Place,
        operand: Box<Expression>,
    },
    Not {
        at: Place,
        operand: Box<Expression>,
    },
    /// Operands with operators between them, taken from the left: `a - b - c` is `(a - b) - c`.
    Chain {
        first: Box<Expression>,
        rest: Vec<Link>,
    },
    If {
        at: Place,
        test: Box<Expression>,
        one: Box<Expression>,
        other: Box<Expression>,
    },
    Available {
        at: Place,
        buffer: Word,
    },
    Locked {
        at: Place,
        buffer: Word,
    },
    Retry {
        at: Place,
    },
    ReturnValue {
        at: Place,
    },
    ErrorStatus {
        at: Place,
    },
    /// STRING, with a mask or without.
    Text {
        at: Place,
        value: Box<Expression>,
        mask: Option<Word>,
    },
    Call {
        function: Function,
        at: Place,
        arguments: Vec<Expression>,
    },
}

impl Expression {
    ghost use Rattle.std.specs.Prelude.{◌≡◌};
    ghost use Rattle.syntax_tree.specs.Syntax.{starts_at};
    ghost use Rattle.syntax_tree.specs.Typed.{expression_of};

    /// The place of its first token.
    pub fn starts_at(&self) -> Place
        ensures { result ≡ starts_at (expression_of self.now) }
    {
        match self {
            Expression::Literal { at, .. } => *at,
            Expression::Name(name) => name.at(),
            Expression::Grouped { at, .. } => *at,
            Expression::Plus { at, .. } => *at,
            Expression::Minus { at, .. } => *at,
            Expression::Not { at, .. } => *at,
            Expression::Chain { first, .. } => first.starts_at(),
            Expression::If { at, .. } => *at,
            Expression::Available { at, .. } => *at,
            Expression::Locked { at, .. } => *at,
            Expression::Retry { at } => *at,
            Expression::ReturnValue { at } => *at,
            Expression::ErrorStatus { at } => *at,
            Expression::Text { at, .. } => *at,
            Expression::Call { at, .. } => *at,
        }
    }
}
