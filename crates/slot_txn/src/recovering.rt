//! The disk recovered.

ghost use Rattle.std.specs.Prelude.{◌≡◌, ◌*◌, ◌<◌, ◌≤◌, ◌^◌, ℕ, List, length, IsTrue, IfOk, IsErrOf};
ghost use Rattle.log_meaning.specs.steps.Steps.{Run};
ghost use Rattle.log_meaning.specs.Images.{Recovers};
ghost use Rattle.bi_log.specs.Lengths.{WithinLog};
ghost use Rattle.bi_recovery.specs.Reopening.{IsReadAs, SameRecovery, Reopens};
ghost use Rattle.bi_recovery.specs.Causes.{HasOpenCause};

use crate::torn_slot::{MOST_BYTES, note_slot, torn_slot};
use bi_recovery::recovery_run::{Reopened, recover, recover_read};
use bi_recovery::{OpenFault, ReadLog, read_log};
use std::alloc::Global;
use storage::Disk;

/// The place of the first gate of a log: after its header.
const FIRST_GATE: u64 = 32;

/// This log, if its next gate is the first one.
fn without_notes(opened: Reopened) -> Result<Reopened, OpenFault>
    ensures ok { IfOk result (λ r. (r ≡ opened) × (r.gate ≡ 32)) }
    ensures never { IsErrOf result OpenFault.NotCreated → ⊥ }
    ensures never_disk { IsErrOf result OpenFault.Disk → ⊥ }
{
    if opened.gate == FIRST_GATE {
        return Ok(opened);
    }
    Err(OpenFault::NoMemory)
}

/// Recovers the disk, of which this log was read, so that its log has no notes. The first recovery of an image that a stranger
/// made may carry slots as notes: then it is recovered once more.
fn recover_all<D: Disk>(disk: &mut D, log: &ReadLog, alloc: Global) -> Result<Reopened, OpenFault>
    requires log { IsTrue (D.observable disk.old) → IsReadAs (D.seen disk.old) log.now.area log.now.generation log.now.slots.items }
    ensures same_observable { D.observable disk.new ≡ D.observable disk.old }
    ensures time { Run (D.time disk.old) (D.time disk.new) (D.left disk.old) (D.left disk.new) SameRecovery }
    ensures ok { IfOk result (λ r. IsTrue (D.observable disk.old) → Reopens (D.seen disk.old) (D.left disk.new (D.time disk.new)) r.area r.generation r.extent r.gate) }
    ensures gate { IfOk result (λ r. r.gate ≡ 32) }
    ensures within { Run (D.time disk.old) (D.time disk.new) (D.left disk.old) (D.left disk.new) (WithinLog 167772160) }
    ensures none { IsErrOf result OpenFault.NotCreated → IsTrue (D.observable disk.old) → (slots : ℕ → List ℕ) → Recovers (D.seen disk.old) slots → ⊥ }
    ensures cause { HasOpenCause (D.failures disk.old) (D.failures disk.new) result }
{
    let opened = recover_read(disk, log, alloc)?;
    if opened.gate == FIRST_GATE {
        return Ok(opened);
    }
    match recover(disk, alloc) {
        Ok(again) => without_notes(again),
        Err(fault) => Err(fault),
    }
}

/// The same for a disk of which no log was read.
fn recover_again<D: Disk>(disk: &mut D, alloc: Global) -> Result<Reopened, OpenFault>
    ensures same_observable { D.observable disk.new ≡ D.observable disk.old }
    ensures time { Run (D.time disk.old) (D.time disk.new) (D.left disk.old) (D.left disk.new) SameRecovery }
    ensures ok { IfOk result (λ r. IsTrue (D.observable disk.old) → Reopens (D.seen disk.old) (D.left disk.new (D.time disk.new)) r.area r.generation r.extent r.gate) }
    ensures gate { IfOk result (λ r. r.gate ≡ 32) }
    ensures within { Run (D.time disk.old) (D.time disk.new) (D.left disk.old) (D.left disk.new) (WithinLog 167772160) }
    ensures none { IsErrOf result OpenFault.NotCreated → IsTrue (D.observable disk.old) → (slots : ℕ → List ℕ) → Recovers (D.seen disk.old) slots → ⊥ }
    ensures cause { HasOpenCause (D.failures disk.old) (D.failures disk.new) result }
{
    let log = read_log(disk, alloc)?;
    recover_all(disk, &log, alloc)
}

/// The disk once it is recovered: its log, which has no notes, and how many slots area 0 has.
#[derive(Clone, Copy)]
pub struct Whole {
    pub opened: Reopened,
    pub end: u32,
}

/// How many slots an area 0 of so many bytes has. It is refused where it has more than 1,048,576,
/// as no image of a run of this program has, and where it ends within a slot.
fn whole_slots(length: u64) -> Result<u32, OpenFault>
    ensures small { IfOk result (λ n. n ≤ 2 ^ 20) }
    ensures whole { IfOk result (λ n. length ≡ 256 * n) }
    ensures never { IsErrOf result OpenFault.NotCreated → ⊥ }
    ensures never_disk { IsErrOf result OpenFault.Disk → ⊥ }
{
    if length > MOST_BYTES {
        return Err(OpenFault::NoMemory);
    }
    if length % 256 != 0 {
        return Err(OpenFault::NoMemory);
    }
    Ok((length / 256) as u32)
}

/// Recovers a disk of which area 0 ends within this slot, where its log has no notes: the slot is
/// noted with its bytes, and zeros past the end of area 0, so that recovery writes it whole.
fn recover_torn<D: Disk>(
    disk: &mut D,
    opened: &Reopened,
    slot: u32,
    alloc: Global,
) -> Result<Whole, OpenFault>
    requires slot { slot < 2 ^ 20 }
    requires gate { opened.now.gate ≡ 32 }
    requires log { IsTrue (D.observable disk.old) → Reopens (D.seen disk.old) (D.left disk.old (D.time disk.old)) opened.now.area opened.now.generation opened.now.extent opened.now.gate }
    ensures same_observable { D.observable disk.new ≡ D.observable disk.old }
    ensures time { Run (D.time disk.old) (D.time disk.new) (D.left disk.old) (D.left disk.new) SameRecovery }
    ensures ok { IfOk result (λ w. IsTrue (D.observable disk.old) → Reopens (D.seen disk.old) (D.left disk.new (D.time disk.new)) w.opened.area w.opened.generation w.opened.extent w.opened.gate) }
    ensures gate { IfOk result (λ w. w.opened.gate ≡ 32) }
    ensures small { IfOk result (λ w. w.end ≤ 2 ^ 20) }
    ensures whole { IfOk result (λ w. IsTrue (D.observable disk.old) → length (D.seen disk.new 0) ≡ 256 * w.end) }
    ensures within { Run (D.time disk.old) (D.time disk.new) (D.left disk.old) (D.left disk.new) (WithinLog 167772160) }
    ensures none { IsErrOf result OpenFault.NotCreated → IsTrue (D.observable disk.old) → (slots : ℕ → List ℕ) → Recovers (D.seen disk.old) slots → ⊥ }
    ensures cause { HasOpenCause (D.failures disk.old) (D.failures disk.new) result }
{
    note_slot(disk, opened, slot, alloc)?;
    let again = recover_again(disk, alloc)?;
    let length = disk.length(0)?;
    let end = whole_slots(length)?;
    Ok(Whole { opened: again, end })
}

/// Recovers the disk, of which this log was read, so that its log has no notes and area 0 does not
/// end within a slot.
pub fn recover_whole<D: Disk>(
    disk: &mut D,
    log: &ReadLog,
    alloc: Global,
) -> Result<Whole, OpenFault>
    requires log { IsTrue (D.observable disk.old) → IsReadAs (D.seen disk.old) log.now.area log.now.generation log.now.slots.items }
    ensures same_observable { D.observable disk.new ≡ D.observable disk.old }
    ensures time { Run (D.time disk.old) (D.time disk.new) (D.left disk.old) (D.left disk.new) SameRecovery }
    ensures ok { IfOk result (λ w. IsTrue (D.observable disk.old) → Reopens (D.seen disk.old) (D.left disk.new (D.time disk.new)) w.opened.area w.opened.generation w.opened.extent w.opened.gate) }
    ensures gate { IfOk result (λ w. w.opened.gate ≡ 32) }
    ensures small { IfOk result (λ w. w.end ≤ 2 ^ 20) }
    ensures whole { IfOk result (λ w. IsTrue (D.observable disk.old) → length (D.seen disk.new 0) ≡ 256 * w.end) }
    ensures within { Run (D.time disk.old) (D.time disk.new) (D.left disk.old) (D.left disk.new) (WithinLog 167772160) }
    ensures none { IsErrOf result OpenFault.NotCreated → IsTrue (D.observable disk.old) → (slots : ℕ → List ℕ) → Recovers (D.seen disk.old) slots → ⊥ }
    ensures cause { HasOpenCause (D.failures disk.old) (D.failures disk.new) result }
{
    let opened = recover_all(disk, log, alloc)?;
    let length = disk.length(0)?;
    match torn_slot(length) {
        Some(slot) => recover_torn(disk, &opened, slot, alloc),
        None => {
            let end = whole_slots(length)?;
            Ok(Whole { opened, end })
        }
    }
}
