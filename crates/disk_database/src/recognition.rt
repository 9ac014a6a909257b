//! Whether slots hold a database, of whatever schema.

ghost use Rattle.std.specs.Prelude.{◌≡◌, false, IfOk, IsTrue};
ghost use Rattle.storage.specs.Slots.{IsReadable};
ghost use Rattle.abl_values.specs.Schema.{canonical_text};
ghost use Rattle.indexed_store.specs.Opened.{CanOpen};
ghost use Rattle.row_fragments.specs.Chains.{AreChains};
ghost use Rattle.schema_text.specs.Written.{IsHeld};
ghost use Rattle.slot_rows.specs.Chained.{StayChains};
ghost use Rattle.database_layout.specs.stored_text.Held.{HoldText};
ghost use Rattle.disk_database.specs.Inside.{HoldDatabase, HoldDatabaseWith};

use crate::text::slots_of_text;
use crate::unused::are_unused_left;
use abl_values::Schema;
use database_layout::stored_text::stored_text;
use indexed_store::{OpenError, RecordStore};
use schema_text::read_canonical;
use std::alloc::Global;
use storage::{SlotFault, Slots};

/// What an error of the store says of a database: unsound slots hold none.
fn found(error: OpenError) -> Result<bool, SlotFault>
    ensures { IfOk result (λ held. (held ≡ false) × (error ≡ OpenError.Unsound)) }
{
    match error {
        OpenError::Unsound => Ok(false),
        OpenError::Disk => Err(SlotFault::Disk),
        OpenError::NoMemory => Err(SlotFault::NoMemory),
    }
}

/// Whether the slots, which hold the text of this schema, hold a database of it.
fn hold_database_of<S: Slots + Drop>(
    alloc: Global,
    mut slots: S,
    schema: Schema,
) -> Result<bool, SlotFault>
    requires can { CanOpen (S.Slots.state slots) }
    requires stops { (IsTrue (S.Slots.state slots).observable → ∥ AreChains (S.Slots.state slots).committed ∥₁) → StayChains (S.Slots.stop slots) (S.Slots.state slots).since }
    requires held { IsHeld schema }
    requires text { IsReadable (S.Slots.state slots) → HoldText (S.Slots.state slots).reads (canonical_text schema) }
    ensures yes { IfOk result (λ held. IsTrue held → IsReadable (S.Slots.state slots) → HoldDatabaseWith (canonical_text schema) (S.Slots.state slots).reads) }
    ensures no { IfOk result (λ held. held ≡ false → IsReadable (S.Slots.state slots) → ¬ HoldDatabase (S.Slots.state slots).reads) }
{
    schema.soundness();
    let Some(text) = slots_of_text(&schema) else {
        return Err(SlotFault::NoMemory);
    };
    match are_unused_left(&mut slots, text) {
        Ok(true) => {}
        Ok(false) => return Ok(false),
        Err(fault) => return Err(fault),
    }
    match RecordStore::open(alloc, slots, schema) {
        Ok(_) => Ok(true),
        Err((error, _)) => found(error),
    }
}

/// Whether the slots, which hold this text as that of their schema, hold a database.
pub(crate) fn hold_database_with<S: Slots + Drop>(
    alloc: Global,
    slots: S,
    text: &[u8],
) -> Result<bool, SlotFault>
    requires can { CanOpen (S.Slots.state slots) }
    requires stops { (IsTrue (S.Slots.state slots).observable → ∥ AreChains (S.Slots.state slots).committed ∥₁) → StayChains (S.Slots.stop slots) (S.Slots.state slots).since }
    requires text { IsReadable (S.Slots.state slots) → HoldText (S.Slots.state slots).reads text.now }
    ensures yes { IfOk result (λ held. IsTrue held → IsReadable (S.Slots.state slots) → HoldDatabaseWith text.now (S.Slots.state slots).reads) }
    ensures no { IfOk result (λ held. held ≡ false → IsReadable (S.Slots.state slots) → ¬ HoldDatabase (S.Slots.state slots).reads) }
{
    match read_canonical(alloc, text) {
        Ok(Some(schema)) => hold_database_of(alloc, slots, schema),
        Ok(None) => Ok(false),
        Err(_) => Err(SlotFault::NoMemory),
    }
}

/// Whether the slots hold a database.
pub(crate) fn hold_database<S: Slots + Drop>(alloc: Global, mut slots: S) -> Result<bool, SlotFault>
    requires can { CanOpen (S.Slots.state slots) }
    requires stops { (IsTrue (S.Slots.state slots).observable → ∥ AreChains (S.Slots.state slots).committed ∥₁) → StayChains (S.Slots.stop slots) (S.Slots.state slots).since }
    ensures yes { IfOk result (λ held. IsTrue held → IsReadable (S.Slots.state slots) → HoldDatabase (S.Slots.state slots).reads) }
    ensures no { IfOk result (λ held. held ≡ false → IsReadable (S.Slots.state slots) → ¬ HoldDatabase (S.Slots.state slots).reads) }
{
    match stored_text(&mut slots, alloc) {
        Ok(Some(text)) => hold_database_with(alloc, slots, text.as_slice()),
        Ok(None) => Ok(false),
        Err(fault) => Err(fault),
    }
}
