//! Recovery.

ghost use Rattle.std.specs.Prelude.{◌≡◌, ◌+◌, ◌-◌, ◌*◌, ◌<◌, ◌≤◌, ◌^◌, ℕ, List, IsTrue, IfOk, IsErrOf};
ghost use Rattle.log_meaning.specs.steps.Steps.{Image, Run};
ghost use Rattle.log_meaning.specs.Images.{Recovers};
ghost use Rattle.bi_log.specs.Lengths.{WithinLog};
ghost use Rattle.bi_recovery.specs.Reopening.{SameAreas, SameRecovery, IsReadAs, Reopens};
ghost use Rattle.bi_recovery.specs.Causes.{HasOpenCause};

use crate::OpenFault;
use crate::carried_recovery::reopen_carrying;
use crate::filling::is_filled;
use crate::log_read::{ReadLog, read_log};
use crate::rebuilding::rebuild;
use crate::slots_written::sync_all;
use std::alloc::Global;
use storage::Disk;

/// The log of a database that was opened: its area, its generation, the number of slots that area 0
/// had, and the place of its next gate.
#[derive(Clone, Copy)]
pub struct Reopened {
    pub area: u8,
    pub generation: u64,
    pub extent: u64,
    pub gate: u64,
}

/// Opens a generation over the slots of this log.
fn reopen<D: Disk>(disk: &mut D, log: &ReadLog, alloc: Global) -> Result<Reopened, OpenFault>
    requires synced { (image : Image) → D.left disk.old (D.time disk.old) image → SameAreas (D.seen disk.old) image }
    requires log { IsTrue (D.observable disk.old) → IsReadAs (D.seen disk.old) log.now.area log.now.generation log.now.slots.items }
    ensures same_observable { D.observable disk.new ≡ D.observable disk.old }
    ensures time { Run (D.time disk.old) (D.time disk.new) (D.left disk.old) (D.left disk.new) SameRecovery }
    ensures ok { IfOk result (λ r. IsTrue (D.observable disk.old) → Reopens (D.seen disk.old) (D.left disk.new (D.time disk.new)) r.area r.generation r.extent r.gate) }
    ensures never { IsErrOf result OpenFault.NotCreated → ⊥ }
    ensures within { Run (D.time disk.old) (D.time disk.new) (D.left disk.old) (D.left disk.new) (WithinLog 167772160) }
    ensures cause { HasOpenCause (D.failures disk.old) (D.failures disk.new) result }
{
    let length = disk.length(0)?;
    let extent = length / 256;
    if log.generation >= 9_223_372_036_854_775_807 {
        return Err(OpenFault::NoMemory);
    }
    if !is_filled(&log.slots, extent) {
        let gate = reopen_carrying(disk, log.area, log.generation, &log.slots, alloc)?;
        return Ok(Reopened {
            area: 3 - log.area,
            generation: log.generation + 1,
            extent,
            gate,
        });
    }
    rebuild(disk, log.area, log.generation, &log.slots)?;
    let after = disk.length(0)?;
    Ok(Reopened {
        area: 3 - log.area,
        generation: log.generation + 1,
        extent: after / 256,
        gate: 32,
    })
}

/// Puts the slots that the disk's log gives into area 0, and opens a new generation over them. At
/// each moment each image recovers to what an image at the start recovers to, also where this
/// fails. After Ok each image recovers to the slots of the disk as it read at the start. NotCreated
/// comes only where the disk recovers to nothing.
pub fn recover<D: Disk>(disk: &mut D, alloc: Global) -> Result<Reopened, OpenFault>
    ensures same_observable { D.observable disk.new ≡ D.observable disk.old }
    ensures time { Run (D.time disk.old) (D.time disk.new) (D.left disk.old) (D.left disk.new) SameRecovery }
    ensures ok { IfOk result (λ r. IsTrue (D.observable disk.old) → Reopens (D.seen disk.old) (D.left disk.new (D.time disk.new)) r.area r.generation r.extent r.gate) }
    ensures none { IsErrOf result OpenFault.NotCreated → IsTrue (D.observable disk.old) → (slots : ℕ → List ℕ) → Recovers (D.seen disk.old) slots → ⊥ }
    ensures within { Run (D.time disk.old) (D.time disk.new) (D.left disk.old) (D.left disk.new) (WithinLog 167772160) }
    ensures cause { HasOpenCause (D.failures disk.old) (D.failures disk.new) result }
{
    sync_all(disk)?;
    let log = read_log(disk, alloc)?;
    reopen(disk, &log, alloc)
}

/// The same for a disk of which the log was read: it is not read again. The disk was not written
/// since then. NotCreated never comes.
pub fn recover_read<D: Disk>(
    disk: &mut D,
    log: &ReadLog,
    alloc: Global,
) -> Result<Reopened, OpenFault>
    requires log { IsTrue (D.observable disk.old) → IsReadAs (D.seen disk.old) log.now.area log.now.generation log.now.slots.items }
    ensures same_observable { D.observable disk.new ≡ D.observable disk.old }
    ensures time { Run (D.time disk.old) (D.time disk.new) (D.left disk.old) (D.left disk.new) SameRecovery }
    ensures ok { IfOk result (λ r. IsTrue (D.observable disk.old) → Reopens (D.seen disk.old) (D.left disk.new (D.time disk.new)) r.area r.generation r.extent r.gate) }
    ensures never { IsErrOf result OpenFault.NotCreated → ⊥ }
    ensures within { Run (D.time disk.old) (D.time disk.new) (D.left disk.old) (D.left disk.new) (WithinLog 167772160) }
    ensures cause { HasOpenCause (D.failures disk.old) (D.failures disk.new) result }
{
    sync_all(disk)?;
    reopen(disk, log, alloc)
}
