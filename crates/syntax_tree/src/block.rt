//! Headers of blocks.

use crate::expression::Expression;
use crate::name::{Named, Word};
use crate::record::RecordOption;
use crate::word::BlockWord;
use abl_base::Place;
use bound_tree::FetchWord;

/// What follows an UNDO. LEAVE, NEXT and RETRY may name a label.
#[derive(Drop)]
pub enum Action {
    Leave {
        at: Place,
        label: Option<Word>,
    },
    Next {
        at: Place,
        label: Option<Word>,
    },
    Retry {
        at: Place,
        label: Option<Word>,
    },
    Return {
        at: Place,
        error: bool,
        value: Option<Expression>,
    },
}

/// A phrase of a header. The place is that of its first token.
#[derive(Drop)]
pub enum Phrase {
    While {
        at: Place,
        test: Expression,
    },
    Transaction {
        at: Place,
    },
    /// ON ERROR UNDO, with the label of the undone block.
    OnError {
        at: Place,
        label: Option<Word>,
        action: Option<Action>,
    },
    /// ON ENDKEY UNDO, with the label of the undone block.
    OnEndkey {
        at: Place,
        label: Option<Word>,
        action: Option<Action>,
    },
}

/// variable = start TO end BY by.
#[derive(Drop)]
pub struct Counting {
    pub variable: Named,
    pub start: Expression,
    pub end: Expression,
    pub by: Option<Expression>,
}

/// The first words of a header.
#[derive(Drop)]
pub enum Opening {
    /// DO or REPEAT, with the buffers after FOR.
    Plainly {
        word: BlockWord,
        buffers: Vec<Word>,
    },
    /// FOR EACH, FIRST or LAST.
    ForRecords {
        which: FetchWord,
        buffer: Word,
        options: Vec<RecordOption>,
    },
}

/// The header of a block, with its label. The place is that of its first keyword, after the label.
#[derive(Drop)]
pub struct Head {
    pub label: Option<Word>,
    pub at: Place,
    pub opening: Opening,
    pub counting: Option<Counting>,
    pub phrases: Vec<Phrase>,
}
