//! Changing a row in chains, and noting what undoes that.

ghost use Rattle.std.specs.Prelude.{◌≡◌, ◌≤◌, ◌<◌, ℕ, List, length, take, true, false, Some, None, IfOk, OnOk, OnErr, IsErrOf};
ghost use Rattle.storage.specs.Slots.{Begins, Ends, Goes, GoesBack, HasCause, IsReadable, OnlyDisk, Rests, wrote};
ghost use Rattle.abl_values.specs.Rows.{fragments_of};
ghost use Rattle.row_fragments.specs.Calls.{Touched};
ghost use Rattle.row_fragments.specs.Fragments.{begins, ends, table_in};
ghost use Rattle.byte_rows.specs.Rows.{ChangesRow, of_slots};
ghost use Rattle.sequence_slots.specs.Values.{HoldValues};
ghost use Rattle.slot_rows.specs.Commits.{CommitsValues, FailsValues};
ghost use Rattle.slot_rows.specs.Quiet.{IsQuiet};
ghost use Rattle.slot_rows.specs.Opens.{no_open, view_of, with_change};
ghost use Rattle.slot_rows.specs.Stored.{mark_or};

use crate::log::{Undone, mark_at};
use crate::open::Open;
use abl_base::RowId;
use byte_rows::{ChainFault, Chains};
use database_meaning::StoredRow;
use sequence_slots::writes::store_values;
use storage::{Mark, SlotFault, Slots};

/// The number of fragments that hold this many bytes.
pub(crate) fn fragments(bytes: usize) -> u32
    requires { bytes ≤ 30000 }
    ensures few { result ≤ 125 }
    ensures is { result ≡ fragments_of bytes }
{
    if bytes <= 240 {
        1
    } else {
        ((bytes + 239) / 240) as u32
    }
}

/// Begins the client's transaction.
pub fn begin<S: Slots + Drop>(
    chains: &mut Chains<S>,
    transaction: &mut Open,
    client: u16,
) -> Result<(), ChainFault>
    requires client { client < 16 }
    requires idle { ((S.Slots.state chains.old.slots).transaction client).begun ≡ false }
    ensures ok { OnOk result (Begins (S.Slots.state chains.old.slots) (S.Slots.state chains.new.slots) client) }
    ensures none { OnOk result (view_of transaction.new ≡ no_open) }
    ensures err { OnErr result (Rests (S.Slots.state chains.old.slots) (S.Slots.state chains.new.slots)) }
    ensures same { OnErr result (view_of transaction.new ≡ view_of transaction.old) }
    ensures time { Goes (S.Slots.state chains.old.slots) (S.Slots.state chains.new.slots) (S.Slots.stop chains.old.slots) (S.Slots.stop chains.new.slots) }
    ensures cause { HasCause (S.Slots.state chains.old.slots) (S.Slots.state chains.new.slots) (of_slots result) }
{
    match chains.begin(client) {
        Ok(()) => {
            transaction.end();
            Ok(())
        }
        Err(fault) => Err(fault),
    }
}

/// Inserts a row of these bytes at the identity that `fresh` of the chains gives.
pub fn insert<S: Slots + Drop>(
    chains: &mut Chains<S>,
    transaction: &mut Open,
    client: u16,
    row: RowId,
    table: u16,
    bytes: &[u8],
) -> Result<(), ChainFault>
    requires client { client < 16 }
    requires begun { ((S.Slots.state chains.old.slots).transaction client).begun ≡ true }
    requires size { length bytes.now ≤ 30000 }
    ensures ok { OnOk result ((slots : List ℕ)
        × ChangesRow (S.Slots.state chains.old.slots) (S.Slots.state chains.new.slots) client row.0 slots (Some (record { table = table; bytes = bytes.now }))
        × (view_of transaction.new ≡ with_change (view_of transaction.old) (record { row = row.0; old = None; mark = length ((S.Slots.state chains.old.slots).transaction client).undo; before = 0; after = fragments_of (length bytes.now) }))) }
    ensures touched { Touched (S.Slots.state chains.old.slots) (S.Slots.state chains.new.slots) (S.Slots.stop chains.old.slots) (S.Slots.stop chains.new.slots) client (of_slots result) }
    ensures refused { (IsErrOf result (ChainFault.Slot SlotFault.Disk) → ⊥) → OnErr result (Rests (S.Slots.state chains.old.slots) (S.Slots.state chains.new.slots)) }
    ensures same { OnErr result (view_of transaction.new ≡ view_of transaction.old) }
{
    match transaction.reserve() {
        Ok(()) => {}
        Err(_) => return Err(ChainFault::Slot(SlotFault::NoMemory)),
    }
    let mark = chains.mark(client).at;
    let many = fragments(bytes.len());
    match chains.insert_at(client, row, table, bytes) {
        Ok(()) => {
            transaction.note(Undone {
                row: row.0,
                old: None,
                mark,
                before: 0,
                after: many,
            });
            Ok(())
        }
        Err(fault) => Err(fault),
    }
}

/// Replaces the bytes of the row, whose value is `old`, of `had` fragments.
pub fn put<S: Slots + Drop>(
    chains: &mut Chains<S>,
    transaction: &mut Open,
    client: u16,
    row: RowId,
    bytes: &[u8],
    old: Option<StoredRow>,
    had: u32,
) -> Result<(), ChainFault>
    requires client { client < 16 }
    requires begun { ((S.Slots.state chains.old.slots).transaction client).begun ≡ true }
    requires size { length bytes.now ≤ 30000 }
    requires there { IsReadable (S.Slots.state chains.old.slots) → begins (S.Slots.state chains.old.slots).reads row.0 ≡ true }
    requires few { had ≤ 125 }
    ensures ok { OnOk result ((slots : List ℕ)
        × ChangesRow (S.Slots.state chains.old.slots) (S.Slots.state chains.new.slots) client row.0 slots (Some (record { table = table_in ((S.Slots.state chains.old.slots).reads row.0); bytes = bytes.now }))
        × (view_of transaction.new ≡ with_change (view_of transaction.old) (record { row = row.0; old = old; mark = length ((S.Slots.state chains.old.slots).transaction client).undo; before = had; after = fragments_of (length bytes.now) }))) }
    ensures touched { Touched (S.Slots.state chains.old.slots) (S.Slots.state chains.new.slots) (S.Slots.stop chains.old.slots) (S.Slots.stop chains.new.slots) client (of_slots result) }
    ensures refused { (IsErrOf result (ChainFault.Slot SlotFault.Disk) → ⊥) → OnErr result (Rests (S.Slots.state chains.old.slots) (S.Slots.state chains.new.slots)) }
    ensures same { OnErr result (view_of transaction.new ≡ view_of transaction.old) }
{
    match transaction.reserve() {
        Ok(()) => {}
        Err(_) => return Err(ChainFault::Slot(SlotFault::NoMemory)),
    }
    let mark = chains.mark(client).at;
    let many = fragments(bytes.len());
    match chains.put(client, row, bytes) {
        Ok(()) => {
            transaction.note(Undone {
                row: row.0,
                old,
                mark,
                before: had,
                after: many,
            });
            Ok(())
        }
        Err(fault) => Err(fault),
    }
}

/// Deletes the row, whose value is `old`, of `had` fragments.
pub fn delete<S: Slots + Drop>(
    chains: &mut Chains<S>,
    transaction: &mut Open,
    client: u16,
    row: RowId,
    old: Option<StoredRow>,
    had: u32,
) -> Result<(), ChainFault>
    requires client { client < 16 }
    requires begun { ((S.Slots.state chains.old.slots).transaction client).begun ≡ true }
    requires there { IsReadable (S.Slots.state chains.old.slots) → begins (S.Slots.state chains.old.slots).reads row.0 ≡ true }
    requires few { had ≤ 125 }
    ensures ok { OnOk result ((slots : List ℕ)
        × ChangesRow (S.Slots.state chains.old.slots) (S.Slots.state chains.new.slots) client row.0 slots None
        × (view_of transaction.new ≡ with_change (view_of transaction.old) (record { row = row.0; old = old; mark = length ((S.Slots.state chains.old.slots).transaction client).undo; before = had; after = 0 }))) }
    ensures touched { Touched (S.Slots.state chains.old.slots) (S.Slots.state chains.new.slots) (S.Slots.stop chains.old.slots) (S.Slots.stop chains.new.slots) client (of_slots result) }
    ensures refused { (IsErrOf result (ChainFault.Slot SlotFault.Disk) → ⊥) → OnErr result (Rests (S.Slots.state chains.old.slots) (S.Slots.state chains.new.slots)) }
    ensures same { OnErr result (view_of transaction.new ≡ view_of transaction.old) }
{
    match transaction.reserve() {
        Ok(()) => {}
        Err(_) => return Err(ChainFault::Slot(SlotFault::NoMemory)),
    }
    let mark = chains.mark(client).at;
    match chains.delete(client, row) {
        Ok(()) => {
            transaction.note(Undone {
                row: row.0,
                old,
                mark,
                before: had,
                after: 0,
            });
            Ok(())
        }
        Err(fault) => Err(fault),
    }
}

/// Undoes the changes from this number on. It takes no memory.
pub fn back<S: Slots + Drop>(
    chains: &mut Chains<S>,
    transaction: &mut Open,
    client: u16,
    number: usize,
) -> Result<(), ChainFault>
    requires client { client < 16 }
    requires begun { ((S.Slots.state chains.old.slots).transaction client).begun ≡ true }
    requires mark { let all = length ((S.Slots.state chains.old.slots).transaction client).undo in mark_or transaction.old.log.items number all ≤ all }
    ensures ok { OnOk result (GoesBack (S.Slots.state chains.old.slots) (S.Slots.state chains.new.slots) client (mark_or transaction.old.log.items number (length ((S.Slots.state chains.old.slots).transaction client).undo))) }
    ensures cut { OnOk result (view_of transaction.new ≡ record { log = take number transaction.old.log.items; touched = transaction.old.touched.items; drawn = transaction.old.drawn; written = transaction.old.written }) }
    ensures err { OnErr result (Rests (S.Slots.state chains.old.slots) (S.Slots.state chains.new.slots)) }
    ensures same { OnErr result (view_of transaction.new ≡ view_of transaction.old) }
    ensures time { Goes (S.Slots.state chains.old.slots) (S.Slots.state chains.new.slots) (S.Slots.stop chains.old.slots) (S.Slots.stop chains.new.slots) }
    ensures cause { HasCause (S.Slots.state chains.old.slots) (S.Slots.state chains.new.slots) (of_slots result) }
    ensures only { (IsErrOf result ChainFault.Full → ⊥) × OnlyDisk (of_slots result) }
{
    let end = chains.mark(client);
    let at = mark_at(transaction.log.as_slice(), number, end.at);
    match chains.back(client, Mark { at }) {
        Ok(()) => {
            transaction.cut(number);
            Ok(())
        }
        Err(fault) => Err(fault),
    }
}

/// Undoes all changes and ends the transaction. It has no error.
pub fn abandon<S: Slots + Drop>(chains: &mut Chains<S>, transaction: &mut Open, client: u16)
    requires client { client < 16 }
    requires begun { ((S.Slots.state chains.old.slots).transaction client).begun ≡ true }
    ensures ended { Ends (S.Slots.state chains.old.slots) (S.Slots.state chains.new.slots) client }
    ensures none { view_of transaction.new ≡ no_open }
    ensures time { Goes (S.Slots.state chains.old.slots) (S.Slots.state chains.new.slots) (S.Slots.stop chains.old.slots) (S.Slots.stop chains.new.slots) }
{
    chains.abandon(client);
    transaction.end();
}

/// Commits the client's transaction with these sequence values, of which `stored` are held, and ends
/// it. After an error it is still begun.
pub fn commit<S: Slots + Drop>(
    chains: &mut Chains<S>,
    transaction: &mut Open,
    client: u16,
    stored: &[i64],
    values: &[i64],
) -> Result<u64, ChainFault>
    requires client { client < 16 }
    requires begun { ((S.Slots.state chains.old.slots).transaction client).begun ≡ true }
    requires fine { (S.Slots.state chains.old.slots).failed ≡ false }
    requires quiet { IsQuiet (S.Slots.state chains.old.slots) }
    requires none { (k : ℕ) → ends k ≡ true → wrote ((S.Slots.state chains.old.slots).transaction client).undo k ≡ false }
    requires few { length values.now ≤ 270 }
    requires held { IsReadable (S.Slots.state chains.old.slots) → HoldValues (S.Slots.state chains.old.slots).committed stored.now }
    ensures ok { OnOk result (CommitsValues (S.Slots.state chains.old.slots) (S.Slots.state chains.new.slots) client values.now) }
    ensures none { OnOk result (view_of transaction.new ≡ no_open) }
    ensures moment { IfOk result (λ moment. moment ≡ (S.Slots.state chains.new.slots).moment) }
    ensures acknowledged { OnOk result ((slots : ℕ → List ℕ) → S.Slots.stop chains.new.slots (S.Slots.state chains.new.slots).moment slots → slots ≡ (S.Slots.state chains.new.slots).committed) }
    ensures err { OnErr result (FailsValues (S.Slots.state chains.old.slots) (S.Slots.state chains.new.slots) client values.now) }
    ensures same { OnErr result (view_of transaction.new ≡ view_of transaction.old) }
    ensures time { Goes (S.Slots.state chains.old.slots) (S.Slots.state chains.new.slots) (S.Slots.stop chains.old.slots) (S.Slots.stop chains.new.slots) }
    ensures cause { HasCause (S.Slots.state chains.old.slots) (S.Slots.state chains.new.slots) (of_slots result) }
    ensures only { (IsErrOf result ChainFault.Full → ⊥) × OnlyDisk (of_slots result) }
{
    match store_values(chains, client, stored, values) {
        Ok(()) => match chains.commit(client) {
            Ok(moment) => {
                transaction.end();
                Ok(moment)
            }
            Err(fault) => Err(fault),
        },
        Err(fault) => Err(fault),
    }
}
