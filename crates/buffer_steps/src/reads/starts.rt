//! Where the reading of a FIND or a FOR begins.

ghost use Rattle.std.specs.Prelude.{◌≡◌, Bool, List, IfOk, None, Some};
ghost use Rattle.bound_tree.specs.Bound.{reading_of};
ghost use Rattle.bound_tree.specs.Tree.{Fetch};
ghost use Rattle.block_meaning.specs.Program.{Program};
ghost use Rattle.block_meaning.specs.State.{State};
ghost use Rattle.block_meaning.specs.Reads.{is_forward};
ghost use Rattle.flat_machine.specs.Config.{Execute, Searches, StackEntry};
ghost use Rattle.flat_machine.specs.Steps.{config, find_step};
ghost use Rattle.buffer_steps.specs.reads.Steps.{FetchGoes};

use crate::reads::buffers::RecordBuffers;
use bound_tree::{FetchWord, FindWord, Reading};
use database_protocol::Cursor;
use std::alloc::AllocError;

/// The search of a FIND: its direction, whether it fails where a second record matches, and the
/// place after which it begins.
#[derive(Drop)]
pub struct FindStart {
    pub forward: bool,
    pub only: bool,
    pub from: Option<Cursor>,
}

/// The search of a FIND (OpenEdge ABL Reference, FIND statement). Out of memory is the only error.
pub fn find_start<B: RecordBuffers>(
    buffers: &B,
    word: FindWord,
    reading: &Reading,
) -> Result<FindStart, AllocError>
    ensures { IfOk result (λ start. (p : Program) (rest : State) (wait retry : Bool) (ks : List StackEntry) → B.fits p rest buffers.now → find_step word (reading_of reading.now) wait retry ks (B.state rest buffers.now) ≡ config (Execute (Searches (reading_of reading.now) start.forward start.only wait retry start.from)) ks (B.state rest buffers.now)) }
{
    match word {
        FindWord::Only => Ok(from_end(true, true)),
        FindWord::First => Ok(from_end(true, false)),
        FindWord::Last => Ok(from_end(false, false)),
        FindWord::Next => Ok(FindStart {
            forward: true,
            only: false,
            from: buffers.place(reading)?,
        }),
        FindWord::Previous => Ok(FindStart {
            forward: false,
            only: false,
            from: buffers.place(reading)?,
        }),
    }
}

/// A search from an end of the index.
fn from_end(forward: bool, only: bool) -> FindStart
    ensures { result ≡ record { forward = forward; only = only; from = None } }
{
    FindStart {
        forward,
        only,
        from: None,
    }
}

/// Where the reading of a FOR begins in an iteration.
#[derive(Drop)]
pub enum FetchStart {
    /// With a search.
    Search { forward: bool, from: Option<Cursor> },
    /// With the record of the iteration, which is read again.
    Again(Cursor),
    /// There is no further record.
    End,
}

/// Where the reading of a FOR begins: in the first iteration at an end of the index, in later ones of
/// FOR EACH after its own last record, and in a retry with that record. FOR FIRST and FOR LAST read
/// one record. (OpenEdge ABL Reference, FOR statement.)
pub fn fetch_start(word: FetchWord, again: bool, own: Option<Cursor>) -> FetchStart
    ensures { (f : Fetch) (retry : Bool) → f.word ≡ word → FetchGoes result again f retry own }
{
    match own {
        None => FetchStart::Search {
            forward: is_forward(word),
            from: None,
        },
        Some(cursor) => after_own(word, again, cursor),
    }
}

/// The same where the FOR has read a record.
fn after_own(word: FetchWord, again: bool, own: Cursor) -> FetchStart
    ensures { (f : Fetch) (retry : Bool) → f.word ≡ word → FetchGoes result again f retry (Some own) }
{
    if again {
        return FetchStart::Again(own);
    }
    match word {
        FetchWord::Each => FetchStart::Search {
            forward: true,
            from: Some(own),
        },
        FetchWord::First | FetchWord::Last => FetchStart::End,
    }
}

/// EACH and FIRST.
fn is_forward(word: FetchWord) -> bool
    ensures { result ≡ is_forward word }
{
    match word {
        FetchWord::Each | FetchWord::First => true,
        FetchWord::Last => false,
    }
}
