//! A new generation that carries slots.

ghost use Rattle.std.specs.Prelude.{◌≡◌, ◌<◌, ◌≤◌, ◌^◌, ℕ, List, IsTrue, IfOk, IsErrOf};
ghost use Rattle.storage.specs.Disk.{Others};
ghost use Rattle.storage.specs.Slots.{undone};
ghost use Rattle.log_meaning.specs.steps.Steps.{Image, Run};
ghost use Rattle.log_meaning.specs.Images.{slot_of};
ghost use Rattle.bi_log.specs.Lengths.{WithinLog};
ghost use Rattle.bi_recovery.specs.NoteSlots.{IsAscending};
ghost use Rattle.bi_recovery.specs.Carried.{stills, IsOpenLog, CarriesTo};
ghost use Rattle.bi_recovery.specs.Causes.{HasOpenCause};

use crate::OpenFault;
use crate::carried_slots::carry_slots;
use bi_log::generation::{close_area, open_area, write_header};
use std::alloc::Global;
use storage::{Disk, Undo};

/// Opens a generation in an area of the log that is not in use. It carries the first `count` slots,
/// each as a note of the bytes that it recovers to, before and after. Returns the place of its next
/// gate.
pub fn carried_generation<D: Disk>(
    disk: &mut D,
    area: u8,
    generation: u64,
    slots: &[Undo],
    count: u32,
    alloc: Global,
) -> Result<u64, OpenFault>
    requires area { area < 3 }
    requires other { (1 ≤ area) × (count ≤ 2 ^ 20) }
    requires ascending { IsAscending slots.now }
    requires fits { generation < 2 ^ 63 }
    requires synced { (image : Image) → D.left disk.old (D.time disk.old) image → image area ≡ D.seen disk.old area }
    ensures same_observable { D.observable disk.new ≡ D.observable disk.old }
    ensures past { Run (D.time disk.old) (D.time disk.new) (D.left disk.old) (D.left disk.new) (Others area) }
    ensures time { IsTrue (D.observable disk.old) → Run (D.time disk.old) (D.time disk.new) (D.left disk.old) (D.left disk.new) (CarriesTo area generation (stills (undone slots.now (slot_of (D.seen disk.old 0))) count)) }
    ensures ok { IfOk result (λ gate. IsTrue (D.observable disk.old) → IsOpenLog (D.left disk.new (D.time disk.new)) area gate generation (stills (undone slots.now (slot_of (D.seen disk.old 0))) count)) }
    ensures never { IsErrOf result OpenFault.NotCreated → ⊥ }
    ensures seen { IsTrue (D.observable disk.old) → Others area (D.seen disk.old) (D.seen disk.new) }
    ensures within { count ≤ 300000 → Run (D.time disk.old) (D.time disk.new) (D.left disk.old) (D.left disk.new) (WithinLog 167772160) }
    ensures cause { HasOpenCause (D.failures disk.old) (D.failures disk.new) result }
{
    close_area(disk, area)?;
    write_header(disk, area, generation)?;
    let gate = carry_slots(disk, area, slots, count, alloc)?;
    open_area(disk, area)?;
    Ok(gate)
}
