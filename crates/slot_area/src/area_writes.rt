//! Slots written to area 0.

ghost use Rattle.std.specs.Prelude.{◌≡◌, ◌≢◌, ◌⊎◌, ◌+◌, ◌*◌, ◌<◌, ◌≤◌, ◌^◌, ℕ, List, length, IsTrue, IfOk, OnOk, OnErr, is_ok};
ghost use Rattle.storage.specs.Disk.{Others, HasCause};
ghost use Rattle.storage.specs.Slots.{put};
ghost use Rattle.log_meaning.specs.steps.Steps.{Image, Run};
ghost use Rattle.log_meaning.specs.declared.note.Note.{Note as LogNote};
ghost use Rattle.log_meaning.specs.Images.{slot_of};
ghost use Rattle.log_meaning.specs.LogState.{MayWrite, HasNotesTo, WritesNoted};
ghost use Rattle.slot_area.specs.Area.{below, zeros, IsWhole};

use storage::{Disk, DiskFailed};

/// Writes a slot to area 0, which has all slots before it.
fn write_slot<D: Disk>(disk: &mut D, slot: u32, bytes: &[u8; 256]) -> Result<(), DiskFailed>
    requires { slot < 2 ^ 20 }
    ensures same_observable { D.observable disk.new ≡ D.observable disk.old }
    ensures past { Run (D.time disk.old) (D.time disk.new) (D.left disk.old) (D.left disk.new) (Others 0) }
    ensures time { (extent : ℕ) (batches : List (List LogNote)) → ((image : Image) → D.left disk.old (D.time disk.old) image → 256 * extent ≤ length (image 0))
        → MayWrite extent batches (256 * slot) 256 → Run (D.time disk.old) (D.time disk.new) (D.left disk.old) (D.left disk.new) (WritesNoted batches) }
    ensures reads { OnOk result (IsTrue (D.observable disk.old) → (s : ℕ) → slot_of (D.seen disk.new 0) s ≡ put (slot_of (D.seen disk.old 0)) slot bytes.now s) }
    ensures elsewhere { IsTrue (D.observable disk.old) → 256 * slot ≤ length (D.seen disk.old 0) → (s : ℕ) → s ≢ slot → slot_of (D.seen disk.new 0) s ≡ slot_of (D.seen disk.old 0) s }
    ensures no_shorter { IsTrue (D.observable disk.old) → length (D.seen disk.old 0) ≤ length (D.seen disk.new 0) }
    ensures reaches { OnOk result (IsTrue (D.observable disk.old) → 256 * slot + 256 ≤ length (D.seen disk.new 0)) }
    ensures others { IsTrue (D.observable disk.old) → Others 0 (D.seen disk.old) (D.seen disk.new) }
    ensures cause { HasCause (D.failures disk.old) (D.failures disk.new) (is_ok result) }
{
    disk.write(0, 256 * slot as u64, bytes)
}

/// Writes zeros to the slots of area 0 from its end up to a slot, one after the other, so that a
/// write that fails changes no other slot.
pub fn extend<D: Disk>(disk: &mut D, end: u32, slot: u32) -> Result<(), DiskFailed>
    requires { slot ≤ 2 ^ 20 }
    ensures same_observable { D.observable disk.new ≡ D.observable disk.old }
    ensures past { Run (D.time disk.old) (D.time disk.new) (D.left disk.old) (D.left disk.new) (Others 0) }
    ensures time { (extent : ℕ) (batches : List (List LogNote)) → ((image : Image) → D.left disk.old (D.time disk.old) image → 256 * extent ≤ length (image 0))
        → ((k : ℕ) → end ≤ k → k < slot → MayWrite extent batches (256 * k) 256) → Run (D.time disk.old) (D.time disk.new) (D.left disk.old) (D.left disk.new) (WritesNoted batches) }
    ensures elsewhere { IsTrue (D.observable disk.old) → 256 * end ≤ length (D.seen disk.old 0) → (s : ℕ) → s < end → slot_of (D.seen disk.new 0) s ≡ slot_of (D.seen disk.old 0) s }
    ensures zeros { OnOk result (IsTrue (D.observable disk.old) → 256 * end ≤ length (D.seen disk.old 0) → (s : ℕ) → end ≤ s → s < slot → slot_of (D.seen disk.new 0) s ≡ zeros) }
    ensures after { OnOk result (IsTrue (D.observable disk.old) → 256 * end ≤ length (D.seen disk.old 0) → (s : ℕ) → slot ≤ s → slot_of (D.seen disk.new 0) s ≡ slot_of (D.seen disk.old 0) s) }
    ensures no_shorter { IsTrue (D.observable disk.old) → length (D.seen disk.old 0) ≤ length (D.seen disk.new 0) }
    ensures reaches { OnOk result (IsTrue (D.observable disk.old) → 256 * end ≤ length (D.seen disk.old 0) → end ≤ slot → 256 * slot ≤ length (D.seen disk.new 0)) }
    ensures others { IsTrue (D.observable disk.old) → Others 0 (D.seen disk.old) (D.seen disk.new) }
    ensures cause { HasCause (D.failures disk.old) (D.failures disk.new) (is_ok result) }
{
    let mut k = end;
    'zeros: while k < slot {
        write_slot(disk, k, &[0; 256])?;
        k += 1;
    }
    Ok(())
}

/// The end, once this slot was written.
fn end_after(end: u32, slot: u32) -> u32
    requires { slot < 2 ^ 20 }
    ensures { ((slot < end) × (result ≡ end)) ⊎ ((end ≤ slot) × (result ≡ slot + 1)) }
{
    if slot < end { end } else { slot + 1 }
}

/// Writes a slot to area 0, of which the slots below `end` count. The others up to this slot get
/// zeros first. Returns the new end. Where it fails, each slot below the end but this one stays.
pub fn write_within<D: Disk>(
    disk: &mut D,
    end: u32,
    slot: u32,
    bytes: &[u8; 256],
) -> Result<u32, DiskFailed>
    requires slot { slot < 2 ^ 20 }
    requires end { end ≤ 2 ^ 20 }
    ensures same_observable { D.observable disk.new ≡ D.observable disk.old }
    ensures past { Run (D.time disk.old) (D.time disk.new) (D.left disk.old) (D.left disk.new) (Others 0) }
    ensures time { (extent : ℕ) (batches : List (List LogNote)) → extent ≤ end → ((image : Image) → D.left disk.old (D.time disk.old) image → 256 * extent ≤ length (image 0))
        → HasNotesTo extent batches slot → Run (D.time disk.old) (D.time disk.new) (D.left disk.old) (D.left disk.new) (WritesNoted batches) }
    ensures ok { IfOk result (λ next. IsTrue (D.observable disk.old) → 256 * end ≤ length (D.seen disk.old 0) → (s : ℕ) → below next (D.seen disk.new 0) s ≡ put (below end (D.seen disk.old 0)) slot bytes.now s) }
    ensures err { OnErr result (IsTrue (D.observable disk.old) → 256 * end ≤ length (D.seen disk.old 0) → (s : ℕ) → s ≢ slot → below end (D.seen disk.new 0) s ≡ below end (D.seen disk.old 0) s) }
    ensures there { IfOk result (λ next. IsTrue (D.observable disk.old) → 256 * end ≤ length (D.seen disk.old 0) → 256 * next ≤ length (D.seen disk.new 0)) }
    ensures whole { IfOk result (λ next. IsTrue (D.observable disk.old) → 256 * end ≤ length (D.seen disk.old 0) → IsWhole end (D.seen disk.old 0) → IsWhole next (D.seen disk.new 0)) }
    ensures end { IfOk result (λ next. (end ≤ next) × (slot < next) × (next ≤ 2 ^ 20)) }
    ensures no_shorter { IsTrue (D.observable disk.old) → length (D.seen disk.old 0) ≤ length (D.seen disk.new 0) }
    ensures others { IsTrue (D.observable disk.old) → Others 0 (D.seen disk.old) (D.seen disk.new) }
    ensures cause { HasCause (D.failures disk.old) (D.failures disk.new) (is_ok result) }
{
    extend(disk, end, slot)?;
    write_slot(disk, slot, bytes)?;
    Ok(end_after(end, slot))
}
