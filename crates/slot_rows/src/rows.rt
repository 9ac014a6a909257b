//! Rows of values in slots: `StoredRows`.

ghost use Rattle.std.specs.Prelude.{◌≡◌, length};
ghost use Rattle.storage.specs.Slots.{IsReadable};
ghost use Rattle.slot_rows.specs.Opens.{log_in, touched_in};
ghost use Rattle.slot_rows.specs.Chained.{HaveChains};
ghost use Rattle.slot_rows.specs.Counted.{AreCounted};
ghost use Rattle.slot_rows.specs.Decoded.{decoded};
ghost use Rattle.slot_rows.specs.Quiet.{IsQuiet};
ghost use Rattle.slot_rows.specs.Stored.{AreMarks-prop, AreWeighed-prop, IsStored};
ghost use Rattle.std.proofs.Props.{props};

use crate::open::Open;
use abl_values::Schema;
use byte_rows::Chains;
use std::alloc::Global;
use storage::Slots;

/// Rows of values in slots, with at most one transaction of each of the clients 0 to 15. A row has
/// up to 30,000 bytes; its identity is its first slot.
#[derive(Drop)]
pub struct StoredRows<S: Slots + Drop> {
    pub(crate) alloc: Global,
    pub(crate) chains: Chains<S>,
    pub(crate) schema: Schema,
    /// The transactions of the clients.
    pub(crate) opens: Vec<Open>,
    /// The number of fragments of the committed rows.
    pub(crate) used: u64,
    ghost sixteen: { length opens.items ≡ 16 },
    ghost stored: { IsStored schema (S.Slots.state chains.slots) (log_in opens.items) (touched_in opens.items) } by { Prim.hlevel (props, AreMarks-prop, AreWeighed-prop) },
    ghost quiet: { IsQuiet (S.Slots.state chains.slots) } by { Prim.hlevel props },
    ghost laid: { HaveChains (S.Slots.state chains.slots) (S.Slots.stop chains.slots) } by { Prim.hlevel props },
    ghost counted: { IsReadable (S.Slots.state chains.slots) → AreCounted (decoded schema (S.Slots.state chains.slots).committed) used } by { Prim.hlevel props },
}
