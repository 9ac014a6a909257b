//! A new generation of the log, in the area that is not in use.

ghost use Rattle.std.specs.Prelude.{◌≡◌, ◌≢◌, ◌⊎◌, true, false, get_or, IsTrue, IfOk, ◌+◌, ◌-◌, ◌<◌, ◌≤◌, ◌^◌, ◌++◌, ◌∷◌, [], ℕ, List, length, OnOk, is_ok};
ghost use Rattle.storage.specs.Disk.{Stays, Others, HasCause};
ghost use Rattle.log_meaning.specs.steps.Steps.{Image, Run};
ghost use Rattle.log_meaning.specs.declared.note.Note.{Note as LogNote};
ghost use Rattle.log_meaning.specs.Bytes.{after_gate, IsBatch};
ghost use Rattle.bi_log.specs.Appending.{Held, with_batch, fresh, RestsAt};
ghost use Rattle.bi_log.specs.Generations.{Closes, IsClosed, AfterGate, IsPrepared, Opens};
ghost use Rattle.bi_log.specs.Lengths.{WithinLog};

use crate::header::new_header;
use log_meaning::steps::write_through;
use storage::{Disk, DiskFailed};

/// Whether the gate of the area reads 1 or the area is empty.
fn is_open_or_empty<D: Disk>(disk: &mut D, area: u8) -> Result<bool, DiskFailed>
    requires area { area < 3 }
    ensures wants { IfOk result (λ yes. IsTrue (D.observable disk.old) → yes ≡ true → (get_or (D.seen disk.old area) 0 0 ≡ 1) ⊎ (length (D.seen disk.old area) ≡ 0)) }
    ensures closed { IfOk result (λ yes. IsTrue (D.observable disk.old) → yes ≡ false → IsClosed (D.seen disk.old area)) }
    ensures rest { Stays (D.observable disk.old) (D.observable disk.new) (D.seen disk.old) (D.seen disk.new) (D.time disk.old) (D.time disk.new) (D.left disk.old) (D.left disk.new) }
    ensures cause { HasCause (D.failures disk.old) (D.failures disk.new) (is_ok result) }
{
    let mut gate = [0u8; 1];
    disk.read(area, 0, &mut gate)?;
    if gate[0] == 1 {
        return Ok(true);
    }
    let length = disk.length(area)?;
    Ok(length == 0)
}

/// Closes an area of the log that is not in use: writes its gate where it reads 1 or the area is
/// empty.
pub fn close_area<D: Disk>(disk: &mut D, area: u8) -> Result<(), DiskFailed>
    requires area { area < 3 }
    requires synced { (image : Image) → D.left disk.old (D.time disk.old) image → image area ≡ D.seen disk.old area }
    ensures same_observable { D.observable disk.new ≡ D.observable disk.old }
    ensures time { Run (D.time disk.old) (D.time disk.new) (D.left disk.old) (D.left disk.new) (Closes area) }
    ensures ok { OnOk result ((image : Image) → D.left disk.new (D.time disk.new) image → IsClosed (image area)) }
    ensures within { Run (D.time disk.old) (D.time disk.new) (D.left disk.old) (D.left disk.new) (WithinLog 1) }
    ensures seen { IsTrue (D.observable disk.old) → Others area (D.seen disk.old) (D.seen disk.new) }
    ensures cause { HasCause (D.failures disk.old) (D.failures disk.new) (is_ok result) }
{
    if is_open_or_empty(disk, area)? {
        return write_through(disk, area, 0, &[0]);
    }
    Ok(())
}

/// Writes the header of a generation and the closed gate of its first batch, after the area's
/// closed gate.
pub fn write_header<D: Disk>(disk: &mut D, area: u8, generation: u64) -> Result<(), DiskFailed>
    requires area { area < 3 }
    requires fits { generation < 2 ^ 63 }
    requires closed { (image : Image) → D.left disk.old (D.time disk.old) image → IsClosed (image area) }
    ensures same_observable { D.observable disk.new ≡ D.observable disk.old }
    ensures time { Run (D.time disk.old) (D.time disk.new) (D.left disk.old) (D.left disk.new) (AfterGate area) }
    ensures ok { OnOk result ((image : Image) → D.left disk.new (D.time disk.new) image → IsPrepared (image area) (fresh generation) 32) }
    ensures within { Run (D.time disk.old) (D.time disk.new) (D.left disk.old) (D.left disk.new) (WithinLog 33) }
    ensures seen { IsTrue (D.observable disk.old) → Others area (D.seen disk.old) (D.seen disk.new) }
    ensures cause { HasCause (D.failures disk.old) (D.failures disk.new) (is_ok result) }
{
    write_through(disk, area, 1, &new_header(generation))
}

/// Carries a batch into the generation: it and the next closed gate are written after the gate,
/// and then the gate open, while the area's own gate is closed. The clause on the log holds for
/// every log that the area is prepared for, and every batch that these bytes are.
pub fn carry<D: Disk>(disk: &mut D, area: u8, gate: u64, bytes: &[u8]) -> Result<(), DiskFailed>
    requires area { area < 3 }
    requires gate { 1 ≤ gate }
    requires end { gate + 1 + length bytes.now < 2 ^ 40 }
    requires closed { (image : Image) → D.left disk.old (D.time disk.old) image → IsClosed (image area) }
    ensures same_observable { D.observable disk.new ≡ D.observable disk.old }
    ensures time { Run (D.time disk.old) (D.time disk.new) (D.left disk.old) (D.left disk.new) (AfterGate area) }
    ensures ok { OnOk result ((log : Held) (batch : List LogNote) → bytes.now ≡ after_gate batch → IsBatch batch
        → ((image : Image) → D.left disk.old (D.time disk.old) image → IsPrepared (image area) log gate)
        → (image : Image) → D.left disk.new (D.time disk.new) image → IsPrepared (image area) (with_batch log batch) (gate + length bytes.now)) }
    ensures within { Run (D.time disk.old) (D.time disk.new) (D.left disk.old) (D.left disk.new) (WithinLog (gate + 1 + length bytes.now)) }
    ensures seen { IsTrue (D.observable disk.old) → Others area (D.seen disk.old) (D.seen disk.new) }
    ensures cause { HasCause (D.failures disk.old) (D.failures disk.new) (is_ok result) }
{
    write_through(disk, area, gate + 1, bytes)?;
    write_through(disk, area, gate, &[1])
}

/// Opens the generation. The clauses on the log hold for every log that the area is prepared for.
pub fn open_area<D: Disk>(disk: &mut D, area: u8) -> Result<(), DiskFailed>
    requires area { area < 3 }
    ensures same_observable { D.observable disk.new ≡ D.observable disk.old }
    ensures past { Run (D.time disk.old) (D.time disk.new) (D.left disk.old) (D.left disk.new) (Others area) }
    ensures time { (log : Held) (gate : ℕ) → ((image : Image) → D.left disk.old (D.time disk.old) image → IsPrepared (image area) log gate)
        → Run (D.time disk.old) (D.time disk.new) (D.left disk.old) (D.left disk.new) (Opens area log) }
    ensures ok { OnOk result ((log : Held) (gate : ℕ) → ((image : Image) → D.left disk.old (D.time disk.old) image → IsPrepared (image area) log gate)
        → (image : Image) → D.left disk.new (D.time disk.new) image → RestsAt (image area) log gate) }
    ensures within { Run (D.time disk.old) (D.time disk.new) (D.left disk.old) (D.left disk.new) (WithinLog 1) }
    ensures seen { IsTrue (D.observable disk.old) → Others area (D.seen disk.old) (D.seen disk.new) }
    ensures cause { HasCause (D.failures disk.old) (D.failures disk.new) (is_ok result) }
{
    write_through(disk, area, 0, &[1])
}
