//! The text of a schema: whether a database can have it, and the stored one compared with it.

ghost use Rattle.std.specs.Prelude.{◌≡◌, ◌≤◌, length, IfErr, IfOk, IfSome, IsTrue, OnOk};
ghost use Rattle.storage.specs.Slots.{IsReadable};
ghost use Rattle.abl_values.specs.Schema.{canonical_text};
ghost use Rattle.byte_rows.specs.Still.{Still};
ghost use Rattle.indexed_store.specs.Opened.{CanOpen};
ghost use Rattle.row_fragments.specs.Chains.{AreChains};
ghost use Rattle.database_layout.specs.contents.Contents.{text_slots};
ghost use Rattle.slot_rows.specs.Chained.{StayChains};
ghost use Rattle.database_layout.specs.stored_text.Held.{HoldText};
ghost use Rattle.disk_database.specs.Inside.{IsSlotRefusal, of_slots};
ghost use Rattle.disk_database.specs.Parts.{LeaveUnused};

use crate::recognition::hold_database_with;
use crate::refusals::OpenRefusal;
use crate::unused::are_unused_left;
use abl_base::limits::{MAX_CANONICAL_BYTES, MAX_SEQUENCES};
use abl_values::Schema;
use database_layout::fresh::text_slots::slot_count;
use database_layout::stored_text::stored_text;
use std::alloc::Global;
use storage::{SlotFault, Slots};

/// Whether the schema is one that a database can have.
pub(crate) fn fits(schema: &Schema) -> Option<bool>
    ensures { IfSome result (λ fits. IsTrue fits → (length (canonical_text schema.now) ≤ 1048576) × (length schema.now.sequences ≤ 256)) }
{
    let Ok(text) = schema.canonical() else {
        return None;
    };
    Some(text.as_slice().len() <= MAX_CANONICAL_BYTES && schema.sequences().len() <= MAX_SEQUENCES)
}

/// How many slots the text of this schema takes, if it is one that a database can have. None also means
/// out of memory.
pub(crate) fn slots_of_text(schema: &Schema) -> Option<u32>
    ensures { IfSome result (λ count. count ≡ text_slots schema.now) }
{
    let Ok(text) = schema.canonical() else {
        return None;
    };
    let bytes = text.as_slice().len();
    if MAX_CANONICAL_BYTES < bytes {
        return None;
    }
    Some(slot_count(bytes))
}

/// What a refusal of the slots means.
fn of_slots(fault: SlotFault) -> OpenRefusal
    ensures { result ≡ of_slots fault }
{
    match fault {
        SlotFault::Disk => OpenRefusal::Disk,
        SlotFault::TxFull | SlotFault::NoMemory => OpenRefusal::NoMemory,
    }
}

/// The slots, where they hold the text of this schema. Another text refuses it only where they hold a
/// database of a schema with that text; otherwise they hold none.
fn compare_text<S: Slots + Drop>(
    alloc: Global,
    mut slots: S,
    schema: &Schema,
) -> Result<S, OpenRefusal>
    requires can { CanOpen (S.Slots.state slots) }
    requires stops { (IsTrue (S.Slots.state slots).observable → ∥ AreChains (S.Slots.state slots).committed ∥₁) → StayChains (S.Slots.stop slots) (S.Slots.state slots).since }
    ensures same { OnOk result (IsReadable (S.Slots.state slots) → HoldText (S.Slots.state slots).reads (canonical_text schema.now)) }
    ensures refused { IfErr result (IsSlotRefusal schema.now (S.Slots.state slots)) }
    ensures still { IfOk result (λ s. Still (S.Slots.state slots) (S.Slots.state s) (S.Slots.stop slots) (S.Slots.stop s)) }
{
    let Ok(given) = schema.canonical() else {
        return Err(OpenRefusal::NoMemory);
    };
    let stored = match stored_text(&mut slots, alloc) {
        Ok(Some(stored)) => stored,
        Ok(None) => return Err(OpenRefusal::NotCreated),
        Err(fault) => return Err(of_slots(fault)),
    };
    if stored.as_slice() == given.as_slice() {
        return Ok(slots);
    }
    match hold_database_with(alloc, slots, stored.as_slice()) {
        Ok(true) => Err(OpenRefusal::SchemaDiffers { stored, given }),
        Ok(false) => Err(OpenRefusal::NotCreated),
        Err(fault) => Err(of_slots(fault)),
    }
}

/// The slots, where they hold the text of this schema, and zeros where nothing belongs.
pub(crate) fn test_slots<S: Slots + Drop>(
    alloc: Global,
    slots: S,
    schema: &Schema,
) -> Result<S, OpenRefusal>
    requires can { CanOpen (S.Slots.state slots) }
    requires stops { (IsTrue (S.Slots.state slots).observable → ∥ AreChains (S.Slots.state slots).committed ∥₁) → StayChains (S.Slots.stop slots) (S.Slots.state slots).since }
    ensures same { OnOk result (IsReadable (S.Slots.state slots) → HoldText (S.Slots.state slots).reads (canonical_text schema.now)) }
    ensures unused { OnOk result (IsReadable (S.Slots.state slots) → LeaveUnused schema.now (S.Slots.state slots).reads) }
    ensures refused { IfErr result (IsSlotRefusal schema.now (S.Slots.state slots)) }
    ensures still { IfOk result (λ s. Still (S.Slots.state slots) (S.Slots.state s) (S.Slots.stop slots) (S.Slots.stop s)) }
{
    let Some(text) = slots_of_text(schema) else {
        return Err(OpenRefusal::NoMemory);
    };
    let mut slots = match compare_text(alloc, slots, schema) {
        Ok(slots) => slots,
        Err(refusal) => return Err(refusal),
    };
    match are_unused_left(&mut slots, text) {
        Ok(true) => Ok(slots),
        Ok(false) => Err(OpenRefusal::NotCreated),
        Err(fault) => Err(of_slots(fault)),
    }
}
