//! What productions and derivations are made of.

use crate::nonterminal::Nonterminal;
use parse_tree::TokenKind;

/// A symbol of a production: a token, or a nonterminal.
#[derive(Clone, Copy, Debug, PartialEq, Eq)]
pub enum Symbol {
    Take(TokenKind),
    Open(Nonterminal),
}

/// How many more statements, and how many more expressions, NOTs and signs, may be opened at a
/// place inside those that are open there.
#[derive(Clone, Copy, Debug, PartialEq, Eq)]
pub struct Room {
    pub statements: u8,
    pub expressions: u8,
}

/// An entry of the stack: a token that is expected, or a nonterminal to be derived and the room at its place.
#[derive(Clone, Copy, Debug, PartialEq, Eq)]
pub enum Entry {
    Await(TokenKind),
    Derive(Nonterminal, Room),
}

/// Where a production is opened: its number, the number of the token before which it is, and
/// whether it finds no room.
#[derive(Clone, Copy, Debug, PartialEq, Eq)]
pub struct Opening {
    pub production: u16,
    pub first: u32,
    pub deep: bool,
}
