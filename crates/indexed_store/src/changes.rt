//! The change of a row in its indexes, begun before the row is written.

ghost use Rattle.std.specs.Prelude.{◌≡◌, ◌<◌, ℕ, length, IfOk, OnOk, OnErr};
ghost use Rattle.std.specs.Option.{option_copied};
ghost use Rattle.database_meaning.specs.Setting.{HasTable};
ghost use Rattle.row_indexes.specs.Places.{keepers_of, places_of};
ghost use Rattle.row_keys.specs.Numbers.{index_count};
ghost use Rattle.row_keys.specs.Entries.{FitsIfThere, stored_in};
ghost use Rattle.row_keys.specs.Moves.{AreMovesOf};
ghost use Rattle.row_moves.specs.Moved.{HasRoom, moved_in};
ghost use Rattle.row_moves.specs.Started.{IsStarted};

use abl_base::{Row, RowId};
use abl_values::Schema;
use key_index::Index;
use row_keys::moves_of;
use row_moves::{ClientMoves, Started, reserve, start};
use std::alloc::{AllocError, Global};

/// Takes the memory for a change of the row of the table from the old values to the new ones, and
/// makes the moves that enter. After an error, which means out of memory, nothing has changed.
pub(crate) fn prepare(
    alloc: Global,
    schema: &Schema,
    indexes: &mut Vec<Index>,
    clients: &mut Vec<ClientMoves>,
    client: u16,
    row: RowId,
    table: u16,
    old: Option<&Row>,
    new: Option<&Row>,
) -> Result<Started, AllocError>
    requires client { client < length clients.old.items }
    requires table { HasTable schema.now table }
    requires count { length indexes.old.items ≡ index_count schema.now }
    requires old { FitsIfThere schema.now table (option_copied old) }
    requires new { FitsIfThere schema.now table (option_copied new) }
    ensures started { IfOk result (λ s. IsStarted client s.row (length indexes.old.items) s.enters s.moves.items s.before.items
        (places_of indexes.old.items) (keepers_of indexes.old.items) (places_of indexes.new.items) (keepers_of indexes.new.items)) }
    ensures of_row { IfOk result (λ s. s.row ≡ row.0) }
    ensures moves { IfOk result (λ s. AreMovesOf schema.now (stored_in table (option_copied old.entry)) (stored_in table (option_copied new.entry)) s.moves.items) }
    ensures room { OnOk result (HasRoom clients.new.items client) }
    ensures same_places { OnErr result (places_of indexes.new.items ≡ places_of indexes.old.items) }
    ensures same_keepers { OnErr result (keepers_of indexes.new.items ≡ keepers_of indexes.old.items) }
    ensures count { length indexes.new.items ≡ length indexes.old.items }
    ensures same_clients { (c : ℕ) → moved_in clients.new.items c ≡ moved_in clients.old.items c }
    ensures clients { length clients.new.items ≡ length clients.old.items }
{
    reserve(clients, client)?;
    let moves = moves_of(alloc, schema, table, old, new)?;
    let started = start(alloc, indexes, client, row.0, moves)?;
    Ok(started)
}
