//! A new database.

ghost use Rattle.std.specs.Prelude.{◌≡◌, ◌⊎◌, ◌-◌, ◌<◌, ◌≤◌, ◌^◌, ℕ, List, [], true, replicate, IsTrue, IfOk, OnOk, is_ok};
ghost use Rattle.storage.specs.Disk.{Stays, Others, HasCause};
ghost use Rattle.storage.specs.Slots.{wrote, undone};
ghost use Rattle.log_meaning.specs.steps.Steps.{Image, Run};
ghost use Rattle.log_meaning.specs.Images.{IsOpened, slot_of};
ghost use Rattle.log_meaning.specs.LogState.{LogState};
ghost use Rattle.bi_log.specs.Generations.{IsClosed};
ghost use Rattle.bi_log.specs.Lengths.{WithinLog};
ghost use Rattle.bi_recovery.specs.Creating.{Back, Creates, zeros};

use crate::slots_written::{put_back, sync_all, write_slot};
use bi_log::generation::{close_area, open_area, write_header};
use bi_log::reader::find;
use storage::{Disk, DiskFailed, Undo};

/// The area whose log is not the disk's.
fn older_area<D: Disk>(disk: &mut D) -> Result<u8, DiskFailed>
    ensures place { IfOk result (λ r. (1 ≤ r) × (r ≤ 2)) }
    ensures older { IfOk result (λ r. IsTrue (D.observable disk.old) → (g h : ℕ) → IsOpened (D.seen disk.old (3 - r)) g → IsOpened (D.seen disk.old r) h → (h < g) ⊎ ((h ≡ g) × (3 - r ≡ 1))) }
    ensures rest { Stays (D.observable disk.old) (D.observable disk.new) (D.seen disk.old) (D.seen disk.new) (D.time disk.old) (D.time disk.new) (D.left disk.old) (D.left disk.new) }
    ensures cause { HasCause (D.failures disk.old) (D.failures disk.new) (is_ok result) }
{
    match find(disk)? {
        None => Ok(1),
        Some((area, _)) => Ok(3 - area),
    }
}

/// Closes areas 1 and 2, the one with the log last.
fn close_logs<D: Disk>(disk: &mut D) -> Result<(), DiskFailed>
    ensures same_observable { D.observable disk.new ≡ D.observable disk.old }
    ensures time { Run (D.time disk.old) (D.time disk.new) (D.left disk.old) (D.left disk.new) Back }
    ensures ok { OnOk result ((image : Image) → D.left disk.new (D.time disk.new) image → IsClosed (image 1) × IsClosed (image 2)) }
    ensures within { Run (D.time disk.old) (D.time disk.new) (D.left disk.old) (D.left disk.new) (WithinLog 1) }
    ensures cause { HasCause (D.failures disk.old) (D.failures disk.new) (is_ok result) }
{
    sync_all(disk)?;
    let first = older_area(disk)?;
    close_area(disk, first)?;
    close_area(disk, 3 - first)
}

/// Writes zeros into the slots below `count`.
fn write_zeros<D: Disk>(disk: &mut D, count: u32) -> Result<(), DiskFailed>
    requires small { count ≤ 2 ^ 20 }
    ensures same_observable { D.observable disk.new ≡ D.observable disk.old }
    ensures time { Run (D.time disk.old) (D.time disk.new) (D.left disk.old) (D.left disk.new) (Others 0) }
    ensures laid { OnOk result (IsTrue (D.observable disk.old) → (s : ℕ) → s < count → slot_of (D.seen disk.new 0) s ≡ zeros) }
    ensures left { OnOk result (IsTrue (D.observable disk.old) → (s : ℕ) → count ≤ s → slot_of (D.seen disk.new 0) s ≡ slot_of (D.seen disk.old 0) s) }
    ensures cause { HasCause (D.failures disk.old) (D.failures disk.new) (is_ok result) }
{
    let mut k: u32 = 0;
    'zeros: while k < count {
        let slot = Undo {
            slot: k,
            old: [0u8; 256],
        };
        write_slot(disk, &slot)?;
        k += 1;
    }
    Ok(())
}

/// How many slots of area 0 get zeros: those below 8,192 and all that begin below its length.
fn zero_count<D: Disk>(disk: &mut D) -> Result<u32, DiskFailed>
    ensures small { IfOk result (λ n. (8192 ≤ n) × (n ≤ 2 ^ 20)) }
    ensures all { IfOk result (λ n. IsTrue (D.observable disk.old) → (s : ℕ) → n ≤ s → s < 2 ^ 20 → slot_of (D.seen disk.old 0) s ≡ zeros) }
    ensures rest { Stays (D.observable disk.old) (D.observable disk.new) (D.seen disk.old) (D.seen disk.new) (D.time disk.old) (D.time disk.new) (D.left disk.old) (D.left disk.new) }
    ensures cause { HasCause (D.failures disk.old) (D.failures disk.new) (is_ok result) }
{
    let length = disk.length(0)?;
    let slots = length / 256;
    if slots < 8191 {
        return Ok(8192);
    }
    if slots >= 1_048_575 {
        return Ok(1_048_576);
    }
    Ok(slots as u32 + 1)
}

/// Writes these slots and zeros else into area 0 and syncs it.
fn fill_area<D: Disk>(disk: &mut D, slots: &[Undo]) -> Result<(), DiskFailed>
    requires small { (s : ℕ) → wrote slots.now s ≡ true → s < 2 ^ 20 }
    ensures same_observable { D.observable disk.new ≡ D.observable disk.old }
    ensures time { Run (D.time disk.old) (D.time disk.new) (D.left disk.old) (D.left disk.new) (Others 0) }
    ensures ok { OnOk result ((image : Image) → D.left disk.new (D.time disk.new) image → (s : ℕ) → s < 2 ^ 20 → slot_of (image 0) s ≡ undone slots.now (λ k. zeros) s) }
    ensures cause { HasCause (D.failures disk.old) (D.failures disk.new) (is_ok result) }
{
    let count = zero_count(disk)?;
    write_zeros(disk, count)?;
    put_back(disk, slots)
}

/// Makes a database of these slots, with zeros in all others. At each moment each image recovers to
/// nothing, to what an image at the start recovers to, or to these.
pub fn create<D: Disk>(disk: &mut D, slots: &[Undo]) -> Result<(), DiskFailed>
    requires small { (s : ℕ) → wrote slots.now s ≡ true → s < 2 ^ 20 }
    ensures same_observable { D.observable disk.new ≡ D.observable disk.old }
    ensures time { Run (D.time disk.old) (D.time disk.new) (D.left disk.old) (D.left disk.new) (Creates slots.now) }
    ensures ok { OnOk result ((image : Image) → D.left disk.new (D.time disk.new) image → LogState 1 1 0 [] (slot_of (image 0)) image) }
    ensures are { OnOk result ((image : Image) → D.left disk.new (D.time disk.new) image → (s : ℕ) → s < 2 ^ 20 → slot_of (image 0) s ≡ undone slots.now (λ k. zeros) s) }
    ensures within { Run (D.time disk.old) (D.time disk.new) (D.left disk.old) (D.left disk.new) (WithinLog 33) }
    ensures cause { HasCause (D.failures disk.old) (D.failures disk.new) (is_ok result) }
{
    close_logs(disk)?;
    fill_area(disk, slots)?;
    write_header(disk, 1, 1)?;
    open_area(disk, 1)
}
