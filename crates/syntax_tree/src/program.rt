//! Whole sources.

use crate::name::Word;
use crate::statement::Statement;
use abl_base::Place;

/// An internal procedure, or a statement of the external one. The place of a procedure is that of
/// the keyword PROCEDURE.
#[derive(Drop)]
pub enum Item {
    Procedure {
        at: Place,
        name: Word,
        body: Vec<Statement>,
    },
    Alone(Statement),
}

/// A source.
#[derive(Drop)]
pub struct Program {
    pub items: Vec<Item>,
}
