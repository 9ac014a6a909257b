//! The change of a row in its indexes.

ghost use Rattle.std.specs.Prelude.{◌≡◌, ◌≢◌, ◌<◌, ◌≤◌, ◌++◌, ◌∷◌, [], ℕ, length, take, drop, IfOk, OnErr};
ghost use Rattle.row_indexes.specs.Places.{AreWithin, Keepers, Places, keepers_of, places_of};
ghost use Rattle.row_indexes.specs.Making.{CanMake, kept_after, made};
ghost use Rattle.row_indexes.specs.index_changes.Entering.{AreBefore};
ghost use Rattle.row_indexes.specs.index_changes.Leaving.{AreLeaves};
ghost use Rattle.row_moves.specs.Moved.{HasRoom, moved_in};
ghost use Rattle.row_moves.specs.Started.{IsStarted};

use crate::client_moves::ClientMoves;
use key_index::Index;
use row_indexes::index_changes::{Before, can_leave, enter_all, forget_all, leave_all};
use row_indexes::{Move, Moved};
use row_keys::RowMoves;
use std::alloc::{AllocError, Global};

/// A change of a row whose first moves are made, as many as enter, with what was before each.
#[derive(Drop)]
pub struct Started {
    pub row: u32,
    pub moves: Vec<Move>,
    pub enters: usize,
    pub before: Vec<Before>,
    ghost few: { enters ≤ length moves.items },
}

/// Makes the moves of a change of the row that enter, and checks those that leave. After an error,
/// which means out of memory or that a move may not be made, nothing has changed.
pub fn start(
    alloc: Global,
    indexes: &mut Vec<Index>,
    client: u16,
    row: u32,
    moves: RowMoves,
) -> Result<Started, AllocError>
    requires enters { moves.enters ≤ length moves.moves.items }
    ensures started { IfOk result (λ s. IsStarted client s.row (length indexes.old.items) s.enters s.moves.items s.before.items
        (places_of indexes.old.items) (keepers_of indexes.old.items) (places_of indexes.new.items) (keepers_of indexes.new.items)) }
    ensures of_row { IfOk result (λ s. s.row ≡ row) }
    ensures moves { IfOk result (λ s. s.moves ≡ moves.moves) }
    ensures same_places { OnErr result (places_of indexes.new.items ≡ places_of indexes.old.items) }
    ensures same_keepers { OnErr result (keepers_of indexes.new.items ≡ keepers_of indexes.old.items) }
    ensures count { length indexes.new.items ≡ length indexes.old.items }
{
    let RowMoves { moves, enters } = moves;
    let before = enter_first(alloc, indexes, client, row, moves.as_slice(), enters)?;
    Ok(Started {
        row,
        moves,
        enters,
        before,
    })
}

/// Makes the first moves, as many as enter, and checks the others.
fn enter_first(
    alloc: Global,
    indexes: &mut Vec<Index>,
    client: u16,
    row: u32,
    moves: &[Move],
    enters: usize,
) -> Result<Vec<Before>, AllocError>
    requires enters { enters ≤ length moves.now }
    ensures started { IfOk result (λ before. IsStarted client row (length indexes.old.items) enters moves.now before.items
        (places_of indexes.old.items) (keepers_of indexes.old.items) (places_of indexes.new.items) (keepers_of indexes.new.items)) }
    ensures same_places { OnErr result (places_of indexes.new.items ≡ places_of indexes.old.items) }
    ensures same_keepers { OnErr result (keepers_of indexes.new.items ≡ keepers_of indexes.old.items) }
    ensures count { length indexes.new.items ≡ length indexes.old.items }
{
    let (first, later) = moves.split_at(enters);
    let before = enter_all(alloc, indexes, client, row, first)?;
    if can_leave(indexes, client, row, later) {
        return Ok(before);
    }
    forget_all(indexes, client, row, first, before.as_slice());
    Err(AllocError)
}

/// Makes the moves of the change that leave, and notes the change for the client. It takes no memory.
pub fn finish(
    indexes: &mut Vec<Index>,
    clients: &mut Vec<ClientMoves>,
    client: u16,
    started: Started,
)
    requires client { client < length clients.old.items }
    requires room { HasRoom clients.old.items client }
    requires within { AreWithin (length indexes.old.items) (drop started.enters started.moves.items) }
    requires can { CanMake client started.row (drop started.enters started.moves.items) (places_of indexes.old.items) (keepers_of indexes.old.items) }
    requires leaves { AreLeaves (drop started.enters started.moves.items) }
    ensures places { places_of indexes.new.items ≡ made client started.row (drop started.enters started.moves.items) (places_of indexes.old.items) }
    ensures keepers { keepers_of indexes.new.items ≡ kept_after client (drop started.enters started.moves.items) (keepers_of indexes.old.items) }
    ensures count { length indexes.new.items ≡ length indexes.old.items }
    ensures own { moved_in clients.new.items client ≡ moved_in clients.old.items client ++ record { row = started.row; moves = started.moves } ∷ [] }
    ensures others { (c : ℕ) → c ≢ client → moved_in clients.new.items c ≡ moved_in clients.old.items c }
    ensures clients { length clients.new.items ≡ length clients.old.items }
{
    let Started {
        row,
        moves,
        enters,
        before: _,
    } = started;
    let (_, later) = moves.as_slice().split_at(enters);
    leave_all(indexes, client, row, later);
    note(clients, client, Moved { row, moves });
}

/// Notes a change of the client, for which there is memory.
fn note(clients: &mut Vec<ClientMoves>, client: u16, change: Moved)
    requires client { client < length clients.old.items }
    requires room { HasRoom clients.old.items client }
    ensures own { moved_in clients.new.items client ≡ moved_in clients.old.items client ++ change ∷ [] }
    ensures others { (c : ℕ) → c ≢ client → moved_in clients.new.items c ≡ moved_in clients.old.items c }
    ensures count { length clients.new.items ≡ length clients.old.items }
{
    let own = &mut clients[client as usize];
    own.add(change);
}

/// Undoes what `start` made: places and keepers are those from before it. It takes no memory.
pub fn cancel(indexes: &mut Vec<Index>, client: u16, started: Started)
    ensures forgotten { (P : Places) (K : Keepers) → AreBefore client started.row (take started.enters started.moves.items) started.before.items P K →
        places_of indexes.old.items ≡ made client started.row (take started.enters started.moves.items) P →
        keepers_of indexes.old.items ≡ kept_after client (take started.enters started.moves.items) K →
        (places_of indexes.new.items ≡ P) × (keepers_of indexes.new.items ≡ K) }
    ensures count { length indexes.new.items ≡ length indexes.old.items }
{
    let (first, _) = started.moves.as_slice().split_at(started.enters);
    forget_all(
        indexes,
        client,
        started.row,
        first,
        started.before.as_slice(),
    );
}
