//! The slot within which area 0 ends, as in a file that was cut.

ghost use Rattle.std.specs.Prelude.{◌≡◌, ◌+◌, ◌*◌, ◌%◌, ◌<◌, ◌≤◌, ◌^◌, [], ◌∷◌, IsTrue, IfSome, IfNone, OnOk, IsErrOf};
ghost use Rattle.log_meaning.specs.steps.Steps.{Image, Run};
ghost use Rattle.log_meaning.specs.Images.{slot_of};
ghost use Rattle.bi_log.specs.Lengths.{WithinLog};
ghost use Rattle.bi_recovery.specs.Carried.{still};
ghost use Rattle.bi_recovery.specs.ReadNotes.{HoldsNotes};
ghost use Rattle.bi_recovery.specs.Reopening.{SameRecovery, Reopens};
ghost use Rattle.bi_recovery.specs.Causes.{HasOpenCause};

use crate::log_area::log_area;
use bi_log::Log;
use bi_recovery::OpenFault;
use bi_recovery::carried_slots::slot_bytes;
use bi_recovery::recovery_run::Reopened;
use log_meaning::{Change, Note};
use std::alloc::Global;
use storage::Disk;

/// The most bytes that area 0 has: 1,048,576 slots.
pub const MOST_BYTES: u64 = 268_435_456;

/// The slot within which an area 0 of so many bytes ends. There is none where it has a whole number
/// of slots or more than 1,048,576.
pub fn torn_slot(length: u64) -> Option<u32>
    ensures small { IfSome result (λ slot. slot < 2 ^ 20) }
    ensures place { IfSome result (λ slot. (256 * slot < length) × (length < 256 * slot + 256)) }
    ensures whole { IfNone result (length ≤ 2 ^ 28 → length % 256 ≡ 0) }
{
    if length > MOST_BYTES {
        return None;
    }
    if length % 256 == 0 {
        return None;
    }
    Some((length / 256) as u32)
}

/// Appends a batch with one note to a log without notes: a change of the slot from the bytes that
/// it recovers to, to the same bytes. At each moment each image recovers to what an image at the
/// start recovers to. After Ok the slot has a note, so the next recovery writes it whole.
pub fn note_slot<D: Disk>(
    disk: &mut D,
    opened: &Reopened,
    slot: u32,
    alloc: Global,
) -> Result<(), OpenFault>
    requires slot { slot < 2 ^ 20 }
    requires gate { opened.now.gate ≡ 32 }
    requires log { IsTrue (D.observable disk.old) → Reopens (D.seen disk.old) (D.left disk.old (D.time disk.old)) opened.now.area opened.now.generation opened.now.extent opened.now.gate }
    ensures same_observable { D.observable disk.new ≡ D.observable disk.old }
    ensures time { Run (D.time disk.old) (D.time disk.new) (D.left disk.old) (D.left disk.new) SameRecovery }
    ensures noted { OnOk result (IsTrue (D.observable disk.old) → (image : Image) → D.left disk.new (D.time disk.new) image → HoldsNotes (image opened.now.area) opened.now.generation (still (slot_of (D.seen disk.old 0)) slot ∷ [])) }
    ensures within { Run (D.time disk.old) (D.time disk.new) (D.left disk.old) (D.left disk.new) (WithinLog 167772160) }
    ensures never { IsErrOf result OpenFault.NotCreated → ⊥ }
    ensures cause { HasOpenCause (D.failures disk.old) (D.failures disk.new) result }
{
    let bytes = slot_bytes(disk, &[], slot)?;
    let mut log = Log::new(log_area(opened.area), opened.gate, alloc)?;
    log.append(&Note::Change(Change {
        tx: 0,
        slot,
        old: bytes,
        new: bytes,
    }));
    log.flush(disk)?;
    Ok(())
}
