//! The readings in the code: those of the FIND, FIND CURRENT and FOR at a place.

ghost use Rattle.std.specs.Prelude.{◌≡◌, ℕ, IfSome};
ghost use Rattle.bound_tree.specs.Bound.{reading_of, fetch_of, stmt_of};
ghost use Rattle.flat_machine.specs.Flat as flat;
ghost use Rattle.client_machine.specs.Config.{instr_at, header_at, reading_at as reading_there, fetch_at as fetch_there};
ghost use Rattle.client_machine.specs.Statements.{fetch_in, find_word_in, reading_in, wait_in};

use block_code::{Code, Instr};
use bound_tree::{Fetch, FetchWord, FindWord, Header, LockWanted, Reading, Stmt};

/// The reading of the FIND, FIND CURRENT or FOR at the place.
pub(crate) fn reading_at(code: &Code, place: usize) -> Option<&Reading>
    ensures { IfSome result (λ reading. reading_of reading.now ≡ reading_there code.now.instrs.items place) }
{
    match code.instrs.get(place) {
        Some(Instr::Block { header, .. }) => reading_of_for(&header.fetch),
        Some(Instr::Simple { stmt, .. }) => reading_of_find(stmt),
        _ => None,
    }
}

/// The reading of a FOR.
fn reading_of_for(fetch: &Option<Fetch>) -> Option<&Reading>
    ensures { IfSome result (λ reading. reading_of reading.now ≡ (fetch_in (fetch_of fetch.now)).reading) }
{
    match fetch {
        Some(fetch) => Some(&fetch.reading),
        None => None,
    }
}

/// The reading of a FIND or a FIND CURRENT.
fn reading_of_find(stmt: &Stmt) -> Option<&Reading>
    ensures { IfSome result (λ reading. (next : ℕ) → reading_of reading.now ≡ reading_in (flat.Plain (stmt_of stmt.now) next)) }
{
    match stmt {
        Stmt::Find { reading, .. } => Some(&**reading),
        Stmt::FindCurrent { reading, .. } => Some(&**reading),
        _ => None,
    }
}

/// The lock of the reading at the place.
pub(crate) fn lock_at(code: &Code, place: usize) -> Option<LockWanted>
    ensures { IfSome result (λ lock. lock ≡ (reading_there code.now.instrs.items place).lock) }
{
    let reading = reading_at(code, place)?;
    Some(reading.lock)
}

/// The buffer of the reading at the place.
pub(crate) fn buffer_at(code: &Code, place: usize) -> Option<u32>
    ensures { IfSome result (λ buffer. buffer ≡ (reading_there code.now.instrs.items place).buffer) }
{
    let reading = reading_at(code, place)?;
    Some(reading.buffer)
}

/// EACH, FIRST or LAST of the FOR at the place.
pub(crate) fn fetch_word_at(code: &Code, place: usize) -> Option<FetchWord>
    ensures word { IfSome result (λ word. word ≡ (fetch_there code.now.instrs.items place).word) }
    ensures reading { IfSome result (λ _. reading_there code.now.instrs.items place ≡ (fetch_there code.now.instrs.items place).reading) }
{
    match code.instrs.get(place) {
        Some(Instr::Block { header, .. }) => word_of_for(&header.fetch),
        _ => None,
    }
}

/// EACH, FIRST or LAST of a FOR.
fn word_of_for(fetch: &Option<Fetch>) -> Option<FetchWord>
    ensures { IfSome result (λ word. word ≡ (fetch_in (fetch_of fetch.now)).word) }
{
    match fetch {
        Some(fetch) => Some(fetch.word),
        None => None,
    }
}

/// The word of the FIND at the place.
pub(crate) fn find_word_at(code: &Code, place: usize) -> Option<FindWord>
    ensures { IfSome result (λ word. word ≡ find_word_in (instr_at code.now.instrs.items place)) }
{
    match code.instrs.get(place) {
        Some(
            Instr::Simple {
                stmt: Stmt::Find { word, .. },
                ..
            },
        ) => Some(*word),
        _ => None,
    }
}

/// Whether the FIND or FIND CURRENT at the place waits for a lock.
pub(crate) fn waits_at(code: &Code, place: usize) -> Option<bool>
    ensures { IfSome result (λ wait. wait ≡ wait_in (instr_at code.now.instrs.items place)) }
{
    match code.instrs.get(place) {
        Some(
            Instr::Simple {
                stmt: Stmt::Find { wait, .. },
                ..
            },
        ) => Some(*wait),
        Some(
            Instr::Simple {
                stmt: Stmt::FindCurrent { wait, .. },
                ..
            },
        ) => Some(*wait),
        _ => None,
    }
}
