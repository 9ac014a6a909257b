//! The store.

ghost use Rattle.std.specs.Prelude.{◌≡◌, ◌≤◌, length, IsTrue};
ghost use Rattle.row_moves.specs.Indexed.{IsIndexed};
ghost use Rattle.row_moves.proofs.Props.{IsIndexed-prop};
ghost use Rattle.row_moves.specs.Moved.{moved_in};
ghost use Rattle.sequence_slots.specs.Values.{HoldValues};
ghost use Rattle.indexed_store.specs.State.{Have64Bits-prop, store_state};
ghost use Rattle.std.proofs.Props.{props};

use key_index::Index;
use row_moves::ClientMoves;
use slot_rows::StoredRows;
use std::alloc::Global;
use storage::Slots;

/// Rows in slots with the indexes of their tables, the sequence values, and at most one transaction
/// of each of the clients 0 to 15.
#[derive(Drop)]
pub struct RecordStore<S: Slots + Drop> {
    pub(crate) alloc: Global,
    pub(crate) rows: StoredRows<S>,
    /// The indexes of all tables, one table after the other.
    pub(crate) indexes: Vec<Index>,
    /// The moves of each client's changes.
    pub(crate) clients: Vec<ClientMoves>,
    /// The sequence values that the last commit stored.
    pub(crate) sequences: Vec<i64>,
    ghost sixteen: { length clients.items ≡ 16 },
    ghost values: { length sequences.items ≡ length rows.schema.sequences },
    ghost few: { length sequences.items ≤ 256 },
    ghost held: { IsTrue (S.Slots.state rows.chains.slots).observable → HoldValues (S.Slots.state rows.chains.slots).committed sequences.items } by { Prim.hlevel (props, Have64Bits-prop) },
    ghost indexed: { IsIndexed (store_state rows.schema indexes.items sequences.items (S.Slots.state rows.chains.slots) rows.opens.items) (moved_in clients.items) indexes.items } by { Prim.hlevel (props, IsIndexed-prop) },
}
