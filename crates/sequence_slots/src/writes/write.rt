//! Writing the sequence values that a commit changes.

ghost use Rattle.std.specs.Prelude.{◌≡◌, ◌≢◌, ◌<◌, ◌≤◌, ◌+◌, ℕ, List, length, true, false, OnOk, IsErrOf};
ghost use Rattle.storage.specs.Slots.{IsAlone, IsReadable, OnlyDisk, wrote};
ghost use Rattle.row_fragments.specs.Calls.{Touched};
ghost use Rattle.row_fragments.specs.Fragments.{ends};
ghost use Rattle.byte_rows.specs.Rows.{of_slots};
ghost use Rattle.sequence_slots.specs.Values.{HoldValues, part, slot_bytes};
ghost use Rattle.sequence_slots.specs.writes.Wrote.{WroteLow, committed_by};

use crate::{have_64_bits, slot_of};
use byte_rows::{ChainFault, Chains};
use storage::Slots;

/// The first slot of sequence values.
const FIRST_SLOT: u32 = 5000;

/// The number of values in a slot.
const VALUES: usize = 30;

/// The values of the slot with this number, counted from the first one.
fn part(values: &[i64], number: u32) -> &[i64]
    requires { number < 9 }
    ensures is { result.now ≡ part number values.now }
    ensures short { length result.now ≤ 30 }
{
    let from = values.len().min(VALUES * number as usize);
    let rest = &values[from..];
    &rest[..rest.len().min(VALUES)]
}

/// Writes the values into the slot with this number, unless they are those that it holds.
fn write_part<S: Slots + Drop>(
    chains: &mut Chains<S>,
    client: u16,
    number: u32,
    stored: &[i64],
    values: &[i64],
) -> Result<(), ChainFault>
    requires client { client < 16 }
    requires number { number < 9 }
    requires begun { ((S.Slots.state chains.old.slots).transaction client).begun ≡ true }
    requires alone { IsAlone (S.Slots.state chains.old.slots) client (5000 + number) }
    requires few { ((S.Slots.state chains.old.slots).transaction client).low < 10 }
    requires short { length values.now ≤ 30 }
    ensures ok { OnOk result (WroteLow (S.Slots.state chains.old.slots) (S.Slots.state chains.new.slots) client) }
    ensures low { OnOk result (((S.Slots.state chains.new.slots).transaction client).low ≤ ((S.Slots.state chains.old.slots).transaction client).low + 1) }
    ensures here { OnOk result (IsReadable (S.Slots.state chains.old.slots) → committed_by (S.Slots.state chains.old.slots) client (5000 + number) ≡ slot_bytes stored.now →
        committed_by (S.Slots.state chains.new.slots) client (5000 + number) ≡ slot_bytes values.now) }
    ensures others { OnOk result (IsReadable (S.Slots.state chains.old.slots) → (k : ℕ) → k ≢ 5000 + number →
        committed_by (S.Slots.state chains.new.slots) client k ≡ committed_by (S.Slots.state chains.old.slots) client k) }
    ensures touched { Touched (S.Slots.state chains.old.slots) (S.Slots.state chains.new.slots) (S.Slots.stop chains.old.slots) (S.Slots.stop chains.new.slots) client (of_slots result) }
    ensures only { (IsErrOf result ChainFault.Full → ⊥) × OnlyDisk (of_slots result) }
{
    if stored == values {
        return Ok(());
    }
    chains.write(client, FIRST_SLOT + number, &slot_of(values))
}

/// Writes the sequence values, of which `stored` are held, into their slots: each slot whose values
/// change. No other transaction has written such a slot, nor has this one. Disk is the only error, and
/// it takes no memory. A commit of the client then leaves these values.
pub fn store_values<S: Slots + Drop>(
    chains: &mut Chains<S>,
    client: u16,
    stored: &[i64],
    values: &[i64],
) -> Result<(), ChainFault>
    requires client { client < 16 }
    requires begun { ((S.Slots.state chains.old.slots).transaction client).begun ≡ true }
    requires alone { (k : ℕ) → ends k ≡ true → IsAlone (S.Slots.state chains.old.slots) client k }
    requires none { ((S.Slots.state chains.old.slots).transaction client).low ≡ 0 }
    requires few { length values.now ≤ 270 }
    ensures ok { OnOk result (WroteLow (S.Slots.state chains.old.slots) (S.Slots.state chains.new.slots) client) }
    ensures held { OnOk result (IsReadable (S.Slots.state chains.old.slots) →
        ((k : ℕ) → ends k ≡ true → wrote ((S.Slots.state chains.old.slots).transaction client).undo k ≡ false) →
        HoldValues (S.Slots.state chains.old.slots).committed stored.now → HoldValues (committed_by (S.Slots.state chains.new.slots) client) values.now) }
    ensures touched { Touched (S.Slots.state chains.old.slots) (S.Slots.state chains.new.slots) (S.Slots.stop chains.old.slots) (S.Slots.stop chains.new.slots) client (of_slots result) }
    ensures only { (IsErrOf result ChainFault.Full → ⊥) × OnlyDisk (of_slots result) }
{
    have_64_bits(values);
    for number in 0..9u32 {
        let before = part(stored, number);
        let after = part(values, number);
        write_part(chains, client, number, before, after)?;
    }
    Ok(())
}
