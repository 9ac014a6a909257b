//! Opening and closing a store of rows.

ghost use Rattle.std.specs.Prelude.{◌≡◌, ◌<◌, ◌≤◌, ◌^◌, ℕ, [], length, false, Some, None, Err, IfErr, IfOk, IsTrue, MatchOption, ⊤};
ghost use Rattle.storage.specs.Slots.{AreBlankFrom, IsReadable};
ghost use Rattle.row_fragments.specs.Calls.{Looked};
ghost use Rattle.byte_rows.specs.Places.{HoldNothing};
ghost use Rattle.byte_rows.specs.Still.{Still};
ghost use Rattle.row_fragments.specs.Chains.{AreChains};
ghost use Rattle.row_fragments.specs.Fragments.{row_at};
ghost use Rattle.slot_rows.specs.Chained.{HaveChains, StayChains};
ghost use Rattle.slot_rows.specs.Counted.{AreCounted, IsWeight};
ghost use Rattle.slot_rows.specs.Decoded.{AreRead, decoded};
ghost use Rattle.slot_rows.specs.Opens.{no_open, open_in};
ghost use Rattle.slot_rows.specs.State.{slot_fault};

use crate::decode::decode;
use crate::fault::{OpenFault, refusal_of};
use crate::open::Open;
use crate::rows::StoredRows;
use abl_base::limits::FIRST_ROW;
use abl_values::Schema;
use byte_rows::Chains;
use row_fragments::StoredRow;
use row_fragments::read::read_row;
use std::alloc::{AllocError, Global};
use storage::{SlotFault, Slots};

/// Sixteen clients without a transaction.
fn idle_opens(alloc: Global) -> Result<Vec<Open>, AllocError>
    ensures sixteen { IfOk result (λ opens. length opens.items ≡ 16) }
    ensures idle { IfOk result (λ opens. (c : ℕ) → open_in opens.items c ≡ no_open) }
{
    let mut opens = Vec::new(alloc);
    for _ in 0..16u32 {
        opens.push(Open::idle(alloc))?;
    }
    Ok(opens)
}

/// A number from 8,192 to 1,048,576: each slot from there on reads zeros.
fn rows_end<S: Slots>(slots: &S) -> u32
    ensures low { 8192 ≤ result }
    ensures high { result ≤ 1048576 }
    ensures blank { IsReadable (S.Slots.state slots.now) → AreBlankFrom result (S.Slots.state slots.now).reads }
{
    let end = slots.end();
    if end < FIRST_ROW {
        return FIRST_ROW;
    }
    end
}

/// The number of fragments of the row that the bytes are, if they are one of a table of the schema.
fn row_fragments(
    alloc: Global,
    schema: &Schema,
    stored: &StoredRow,
) -> Result<Option<u32>, AllocError>
    ensures found { IfOk result (λ found. IsWeight schema.now (Some (record { table = stored.now.table; bytes = stored.now.bytes.items })) found) }
    ensures few { IfOk result (λ found. MatchOption found ⊤ (λ many. many ≤ 125)) }
{
    match decode(alloc, schema, stored.table, stored.bytes.as_slice())? {
        Some(found) => Ok(Some(found.fragments)),
        None => Ok(None),
    }
}

/// The number of fragments of the row that begins in the slot, 0 where none begins; none where a row
/// that begins is no row of its table.
fn weigh_row<S: Slots>(
    alloc: Global,
    slots: &mut S,
    schema: &Schema,
    row: u32,
) -> Result<Option<u32>, SlotFault>
    ensures found { IfOk result (λ found. IsReadable (S.Slots.state slots.old) → IsWeight schema.now (row_at (S.Slots.state slots.old).reads row) found) }
    ensures few { IfOk result (λ found. MatchOption found ⊤ (λ many. many ≤ 125)) }
    ensures looked { Looked (S.Slots.state slots.old) (S.Slots.state slots.new) (S.Slots.stop slots.old) (S.Slots.stop slots.new) result }
{
    match read_row(alloc, slots, row) {
        Ok(None) => Ok(Some(0)),
        Ok(Some(stored)) => match row_fragments(alloc, schema, &stored) {
            Ok(found) => Ok(found),
            Err(_) => Err(SlotFault::NoMemory),
        },
        Err(fault) => Err(fault),
    }
}

/// The number of fragments of all rows; none where one that begins is no row of its table.
fn count_rows<S: Slots>(
    alloc: Global,
    slots: &mut S,
    schema: &Schema,
) -> Result<Option<u64>, SlotFault>
    ensures broken { IfOk result (λ found. MatchOption found (IsReadable (S.Slots.state slots.old) → ¬ AreRead schema.now (S.Slots.state slots.old).reads) (λ used. ⊤)) }
    ensures read { IfOk result (λ found. MatchOption found ⊤ (λ used. IsReadable (S.Slots.state slots.old) → AreRead schema.now (S.Slots.state slots.old).reads)) }
    ensures counted { IfOk result (λ found. MatchOption found ⊤ (λ used. IsReadable (S.Slots.state slots.old) → AreCounted (decoded schema.now (S.Slots.state slots.old).reads) used)) }
    ensures looked { Looked (S.Slots.state slots.old) (S.Slots.state slots.new) (S.Slots.stop slots.old) (S.Slots.stop slots.new) result }
{
    let end = rows_end(slots);
    let mut used = 0u64;
    for at in FIRST_ROW..end {
        let found = weigh_row(alloc, slots, schema, at)?;
        let Some(many) = found else {
            return Ok(None);
        };
        used += u64::from(many);
    }
    Ok(Some(used))
}

impl<S: Slots + Drop> StoredRows<S> {
    /// The rows of these slots, with no transaction. Each is a row of a table of the schema, and each
    /// slot for rows is free or in the chain of just one row. Broken comes only where this is not so;
    /// the refusals of the slots are Disk and NoMemory.
    pub fn open(
        mut slots: S,
        schema: Schema,
        alloc: Global,
    ) -> Result<StoredRows<S>, (OpenFault, S)>
        requires idle { (c : ℕ) → ((S.Slots.state slots).transaction c).begun ≡ false }
        requires clean { (c : ℕ) → ((S.Slots.state slots).transaction c).undo ≡ [] }
        requires fine { (S.Slots.state slots).failed ≡ false }
        requires settled { IsReadable (S.Slots.state slots) → (k : ℕ) → (S.Slots.state slots).committed k ≡ (S.Slots.state slots).reads k }
        requires certain { IsReadable (S.Slots.state slots) → (k : ℕ) → (S.Slots.state slots).doubt k ≡ (S.Slots.state slots).committed k }
        requires stops { (IsTrue (S.Slots.state slots).observable → ∥ AreChains (S.Slots.state slots).committed ∥₁) → StayChains (S.Slots.stop slots) (S.Slots.state slots).since }
        ensures same { IfOk result (λ rows. Still (S.Slots.state slots) (S.Slots.state rows.chains.slots) (S.Slots.stop slots) (S.Slots.stop rows.chains.slots)) }
        ensures schema { IfOk result (λ rows. rows.schema ≡ schema) }
        ensures read { IfOk result (λ rows. IsReadable (S.Slots.state slots) → AreRead schema (S.Slots.state slots).reads) }
        ensures chains { IfOk result (λ rows. IsReadable (S.Slots.state slots) → AreChains (S.Slots.state slots).reads) }
        ensures err { IfErr result (λ e. Looked {T = ℕ} (S.Slots.state slots) (S.Slots.state e.1) (S.Slots.stop slots) (S.Slots.stop e.1) (Err (slot_fault e.0))) }
        ensures broken { IfErr result (λ e. e.0 ≡ OpenFault.Broken → IsReadable (S.Slots.state slots) → ¬ (AreRead schema (S.Slots.state slots).reads × AreChains (S.Slots.state slots).reads)) }
        ensures none { IfOk result (λ rows. (c : ℕ) → open_in rows.opens.items c ≡ no_open) }
    {
        let opens = match idle_opens(alloc) {
            Ok(opens) => opens,
            Err(_) => return Err((OpenFault::Slot(SlotFault::NoMemory), slots)),
        };
        let used = match count_rows(alloc, &mut slots, &schema) {
            Ok(Some(used)) => used,
            Ok(None) => return Err((OpenFault::Broken, slots)),
            Err(fault) => return Err((OpenFault::Slot(fault), slots)),
        };
        match Chains::open(slots, alloc) {
            Ok(chains) => Ok(StoredRows {
                alloc,
                chains,
                schema,
                opens,
                used,
            }),
            Err((fault, slots)) => Err((refusal_of(fault), slots)),
        }
    }

    /// The rows of slots that hold nothing: none, and no transaction. It reads no slot. The error is
    /// out of memory.
    pub fn new(alloc: Global, slots: S, schema: Schema) -> Result<StoredRows<S>, AllocError>
        requires idle { (c : ℕ) → ((S.Slots.state slots).transaction c).begun ≡ false }
        requires clean { (c : ℕ) → ((S.Slots.state slots).transaction c).undo ≡ [] }
        requires fine { (S.Slots.state slots).failed ≡ false }
        requires empty { IsReadable (S.Slots.state slots) → HoldNothing (S.Slots.state slots).reads }
        requires settled { IsReadable (S.Slots.state slots) → (k : ℕ) → (S.Slots.state slots).committed k ≡ (S.Slots.state slots).reads k }
        requires certain { IsReadable (S.Slots.state slots) → (k : ℕ) → (S.Slots.state slots).doubt k ≡ (S.Slots.state slots).committed k }
        requires stops { (IsTrue (S.Slots.state slots).observable → ∥ AreChains (S.Slots.state slots).committed ∥₁) → StayChains (S.Slots.stop slots) (S.Slots.state slots).since }
        ensures same { IfOk result (λ rows. rows.chains.slots ≡ slots) }
        ensures schema { IfOk result (λ rows. rows.schema ≡ schema) }
        ensures none { IfOk result (λ rows. (c : ℕ) → open_in rows.opens.items c ≡ no_open) }
        ensures rows { IfOk result (λ rows. (k : ℕ) → IsReadable (S.Slots.state slots) → decoded schema (S.Slots.state slots).reads k ≡ None) }
        ensures committed { IfOk result (λ rows. (k : ℕ) → IsReadable (S.Slots.state slots) → decoded schema (S.Slots.state slots).committed k ≡ None) }
        ensures chains { IfOk result (λ rows. IsReadable (S.Slots.state slots) → AreChains (S.Slots.state slots).reads) }
    {
        let opens = idle_opens(alloc)?;
        let chains = Chains::new(alloc, slots)?;
        Ok(StoredRows {
            alloc,
            chains,
            schema,
            opens,
            used: 0,
        })
    }

    /// The slots again. Where no transaction is begun, they can be opened once more. What is committed
    /// in them, and what a stop leaves of them, are chains of rows, unless a stop at the first moment
    /// left the same.
    pub fn close(self) -> S
        ensures same { result ≡ self.chains.slots }
        ensures idle { (S.Slots.state result).failed ≡ false → ((c : ℕ) → c < 16 → ((S.Slots.state result).transaction c).begun ≡ false) → (c : ℕ) → (((S.Slots.state result).transaction c).begun ≡ false) × (((S.Slots.state result).transaction c).undo ≡ []) }
        ensures chains { HaveChains (S.Slots.state result) (S.Slots.stop result) }
        ensures settled { IsReadable (S.Slots.state result) → ((c : ℕ) → ((S.Slots.state result).transaction c).undo ≡ []) → (k : ℕ) → (S.Slots.state result).committed k ≡ (S.Slots.state result).reads k }
    {
        let StoredRows {
            alloc: _,
            chains,
            schema: _,
            opens: _,
            used: _,
        } = self;
        chains.close()
    }
}
