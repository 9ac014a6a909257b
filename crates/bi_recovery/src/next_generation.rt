//! A new generation that carries nothing.

ghost use Rattle.std.specs.Prelude.{◌≡◌, ◌<◌, ◌^◌, ℕ, List, IsTrue, OnOk, is_ok};
ghost use Rattle.storage.specs.Disk.{Others, HasCause};
ghost use Rattle.log_meaning.specs.steps.Steps.{Image, Run};
ghost use Rattle.bi_log.specs.Appending.{fresh, RestsAt};
ghost use Rattle.bi_log.specs.Lengths.{WithinLog};
ghost use Rattle.bi_recovery.specs.Reopening.{StepsTo};

use bi_log::generation::{close_area, open_area, write_header};
use storage::{Disk, DiskFailed};

/// Opens a generation without notes in an area of the log that is not in use.
pub fn next_generation<D: Disk>(disk: &mut D, area: u8, generation: u64) -> Result<(), DiskFailed>
    requires area { area < 3 }
    requires fits { generation < 2 ^ 63 }
    requires synced { (image : Image) → D.left disk.old (D.time disk.old) image → image area ≡ D.seen disk.old area }
    ensures same_observable { D.observable disk.new ≡ D.observable disk.old }
    ensures time { Run (D.time disk.old) (D.time disk.new) (D.left disk.old) (D.left disk.new) (StepsTo area generation) }
    ensures ok { OnOk result ((image : Image) → D.left disk.new (D.time disk.new) image → RestsAt (image area) (fresh generation) 32) }
    ensures seen { IsTrue (D.observable disk.old) → Others area (D.seen disk.old) (D.seen disk.new) }
    ensures within { Run (D.time disk.old) (D.time disk.new) (D.left disk.old) (D.left disk.new) (WithinLog 33) }
    ensures cause { HasCause (D.failures disk.old) (D.failures disk.new) (is_ok result) }
{
    close_area(disk, area)?;
    write_header(disk, area, generation)?;
    open_area(disk, area)
}
