//! The return to an earlier change, and the end of a client.

ghost use Rattle.std.specs.Prelude.{◌≡◌, ◌≢◌, ◌<◌, ◌≤◌, ℕ, [], length, take, drop};
ghost use Rattle.row_indexes.specs.Places.{keepers_of, places_of};
ghost use Rattle.row_indexes.specs.Changes.{AreAllKept, AreAllWithin, CanUndoAll, all_undone};
ghost use Rattle.row_indexes.specs.index_changes.Ending.{ended, freed};
ghost use Rattle.row_moves.specs.Moved.{moved_in};

use crate::client_moves::ClientMoves;
use key_index::Index;
use row_indexes::back::back;
use row_indexes::index_changes::end_all;

/// Undoes the moves of the client's changes after the mark. Keys stay reserved. It takes no memory.
pub fn go_back(indexes: &mut Vec<Index>, clients: &mut Vec<ClientMoves>, client: u16, mark: usize)
    requires client { client < length clients.old.items }
    requires mark { mark ≤ length (moved_in clients.old.items client) }
    requires within { AreAllWithin (length indexes.old.items) (moved_in clients.old.items client) }
    requires can { CanUndoAll client (moved_in clients.old.items client) (places_of indexes.old.items) }
    requires reserved { AreAllKept client (moved_in clients.old.items client) (keepers_of indexes.old.items) }
    ensures places { places_of indexes.new.items ≡ all_undone client (drop mark (moved_in clients.old.items client)) (places_of indexes.old.items) }
    ensures keepers { keepers_of indexes.new.items ≡ keepers_of indexes.old.items }
    ensures count { length indexes.new.items ≡ length indexes.old.items }
    ensures own { moved_in clients.new.items client ≡ take mark (moved_in clients.old.items client) }
    ensures others { (c : ℕ) → c ≢ client → moved_in clients.new.items c ≡ moved_in clients.old.items c }
    ensures clients { length clients.new.items ≡ length clients.old.items }
{
    let own = &mut clients[client as usize];
    back(indexes, client, &mut own.changes, mark);
}

/// Ends the client's transaction, whose changes stay: it reserves no key then. It takes no memory.
pub fn end(indexes: &mut Vec<Index>, clients: &mut Vec<ClientMoves>, client: u16)
    requires client { client < length clients.old.items }
    ensures places { places_of indexes.new.items ≡ ended client (places_of indexes.old.items) }
    ensures keepers { keepers_of indexes.new.items ≡ freed client (keepers_of indexes.old.items) }
    ensures count { length indexes.new.items ≡ length indexes.old.items }
    ensures own { moved_in clients.new.items client ≡ [] }
    ensures others { (c : ℕ) → c ≢ client → moved_in clients.new.items c ≡ moved_in clients.old.items c }
    ensures clients { length clients.new.items ≡ length clients.old.items }
{
    end_all(indexes, client);
    let own = &mut clients[client as usize];
    own.changes.clear();
}

/// Undoes the moves of all the client's changes, and ends its transaction. It takes no memory.
pub fn give_up(indexes: &mut Vec<Index>, clients: &mut Vec<ClientMoves>, client: u16)
    requires client { client < length clients.old.items }
    requires within { AreAllWithin (length indexes.old.items) (moved_in clients.old.items client) }
    requires can { CanUndoAll client (moved_in clients.old.items client) (places_of indexes.old.items) }
    requires reserved { AreAllKept client (moved_in clients.old.items client) (keepers_of indexes.old.items) }
    ensures places { places_of indexes.new.items ≡ ended client (all_undone client (moved_in clients.old.items client) (places_of indexes.old.items)) }
    ensures keepers { keepers_of indexes.new.items ≡ freed client (keepers_of indexes.old.items) }
    ensures count { length indexes.new.items ≡ length indexes.old.items }
    ensures own { moved_in clients.new.items client ≡ [] }
    ensures others { (c : ℕ) → c ≢ client → moved_in clients.new.items c ≡ moved_in clients.old.items c }
    ensures clients { length clients.new.items ≡ length clients.old.items }
{
    go_back(indexes, clients, client, 0);
    end(indexes, clients, client);
}
