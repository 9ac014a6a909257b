//! The next generation, opened.

ghost use Rattle.std.specs.Prelude.{◌≡◌, ◌<◌, ◌≤◌, ◌^◌, [], ℕ, List, length, IsTrue, IfOk, OnOk, is_ok};
ghost use Rattle.storage.specs.Disk.{Others, HasCause};
ghost use Rattle.log_meaning.specs.steps.Steps.{Image, Run};
ghost use Rattle.log_meaning.specs.Images.{slot_of};
ghost use Rattle.bi_log.specs.Buffer.{content};
ghost use Rattle.bi_log.specs.Lengths.{WithinLog};
ghost use Rattle.bi_recovery.specs.Carried.{IsOpenLog, CarriesTo};
ghost use Rattle.open_transactions.specs.Clients.{list_in, number_in};
ghost use Rattle.checkpoint.specs.next.Carrying.{notes_below};

use crate::carried::carrying::carry_all;
use bi_log::NoteBuffer;
use bi_log::generation::{close_area, open_area, write_header};
use open_transactions::Transactions;
use storage::{Disk, DiskFailed};

/// Opens a generation in the area of the log that is not in use. It carries the writes of all
/// clients, each as a note of the bytes before it and of those that area 0 has. Returns the place of
/// its next gate.
pub fn turn<D: Disk>(
    disk: &mut D,
    area: u8,
    generation: u64,
    transactions: &Transactions,
    buffer: &mut NoteBuffer,
) -> Result<u64, DiskFailed>
    requires area { (1 ≤ area) × (area < 3) }
    requires fits { generation < 2 ^ 63 }
    requires few { (client : ℕ) → client < 16 → length (list_in transactions.now.clients.items client) ≤ 7999 }
    requires empty { content buffer.old ≡ [] }
    requires synced { (image : Image) → D.left disk.old (D.time disk.old) image → image area ≡ D.seen disk.old area }
    ensures same_observable { D.observable disk.new ≡ D.observable disk.old }
    ensures past { Run (D.time disk.old) (D.time disk.new) (D.left disk.old) (D.left disk.new) (Others area) }
    ensures time { IsTrue (D.observable disk.old) → Run (D.time disk.old) (D.time disk.new) (D.left disk.old) (D.left disk.new)
        (CarriesTo area generation (notes_below (number_in transactions.now.clients.items) (slot_of (D.seen disk.old 0)) (list_in transactions.now.clients.items) 16)) }
    ensures ok { IfOk result (λ gate. IsTrue (D.observable disk.old) → IsOpenLog (D.left disk.new (D.time disk.new)) area gate generation
        (notes_below (number_in transactions.now.clients.items) (slot_of (D.seen disk.old 0)) (list_in transactions.now.clients.items) 16)) }
    ensures empty { OnOk result (content buffer.new ≡ []) }
    ensures within { Run (D.time disk.old) (D.time disk.new) (D.left disk.old) (D.left disk.new) (WithinLog 167772160) }
    ensures seen { IsTrue (D.observable disk.old) → Others area (D.seen disk.old) (D.seen disk.new) }
    ensures cause { HasCause (D.failures disk.old) (D.failures disk.new) (is_ok result) }
{
    close_area(disk, area)?;
    write_header(disk, area, generation)?;
    let gate = carry_all(disk, area, transactions, buffer)?;
    open_area(disk, area)?;
    Ok(gate)
}
