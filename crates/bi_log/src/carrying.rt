//! Notes carried into a new generation before it is opened.

ghost use Rattle.std.specs.Prelude.{◌≡◌, ◌+◌, ◌*◌, ◌<◌, ◌≤◌, ◌^◌, [], ℕ, List, length, IsTrue, IfOk, OnOk, is_ok};
ghost use Rattle.storage.specs.Disk.{Others, HasCause};
ghost use Rattle.log_meaning.specs.steps.Steps.{Image, Run};
ghost use Rattle.log_meaning.specs.declared.note.Note.{Note as LogNote};
ghost use Rattle.bi_log.specs.Buffer.{content};
ghost use Rattle.bi_log.specs.Generations.{IsClosed, AfterGate};
ghost use Rattle.bi_log.specs.Carrying.{Carries};
ghost use Rattle.bi_log.specs.Lengths.{WithinLog};

use crate::buffer::{MAX_BATCH_BYTES, MAX_NOTE_BYTES};
use crate::generation::carry;
use crate::note_buffer::NoteBuffer;
use storage::{Disk, DiskFailed};

/// Carries the notes of the buffer, if it has any, as one batch. Returns the place of the next
/// gate.
pub fn carry_buffer<D: Disk>(
    disk: &mut D,
    area: u8,
    gate: u64,
    buffer: &mut NoteBuffer,
) -> Result<u64, DiskFailed>
    requires area { area < 3 }
    requires gate { 1 ≤ gate }
    requires end { gate < 2 ^ 39 }
    requires closed { (image : Image) → D.left disk.old (D.time disk.old) image → IsClosed (image area) }
    ensures same_observable { D.observable disk.new ≡ D.observable disk.old }
    ensures time { Run (D.time disk.old) (D.time disk.new) (D.left disk.old) (D.left disk.new) (AfterGate area) }
    ensures ok { IfOk result (λ next. (generation : ℕ) (notes : List LogNote) → Carries (D.left disk.old (D.time disk.old)) area gate buffer.old generation notes
        → Carries (D.left disk.new (D.time disk.new)) area next buffer.new generation notes) }
    ensures empty { OnOk result (content buffer.new ≡ []) }
    ensures place { IfOk result (λ next. (gate ≤ next) × (next ≤ gate + 6 * length (content buffer.old))) }
    ensures near { IfOk result (λ next. next ≤ gate + 5 + length (content buffer.old)) }
    ensures within { Run (D.time disk.old) (D.time disk.new) (D.left disk.old) (D.left disk.new) (WithinLog (gate + 6 + length (content buffer.old))) }
    ensures seen { IsTrue (D.observable disk.old) → Others area (D.seen disk.old) (D.seen disk.new) }
    ensures cause { HasCause (D.failures disk.old) (D.failures disk.new) (is_ok result) }
{
    let n = buffer.len() as u64;
    if n == 0 {
        return Ok(gate);
    }
    carry(disk, area, gate, buffer.sealed())?;
    buffer.clear();
    Ok(gate + 5 + n)
}

/// Makes room for one note in the buffer: carries its notes where it has none. Returns the place of
/// the next gate.
pub fn make_room<D: Disk>(
    disk: &mut D,
    area: u8,
    gate: u64,
    buffer: &mut NoteBuffer,
) -> Result<u64, DiskFailed>
    requires area { area < 3 }
    requires gate { 1 ≤ gate }
    requires end { gate < 2 ^ 39 }
    requires closed { (image : Image) → D.left disk.old (D.time disk.old) image → IsClosed (image area) }
    ensures same_observable { D.observable disk.new ≡ D.observable disk.old }
    ensures time { Run (D.time disk.old) (D.time disk.new) (D.left disk.old) (D.left disk.new) (AfterGate area) }
    ensures ok { IfOk result (λ next. (generation : ℕ) (notes : List LogNote) → Carries (D.left disk.old (D.time disk.old)) area gate buffer.old generation notes
        → Carries (D.left disk.new (D.time disk.new)) area next buffer.new generation notes) }
    ensures room { OnOk result (length (content buffer.new) + 525 ≤ 1048576) }
    ensures place { IfOk result (λ next. (gate ≤ next) × (next + 6 * length (content buffer.new) ≤ gate + 6 * length (content buffer.old))) }
    ensures near { IfOk result (λ next. 20 * next + 21 * length (content buffer.new) ≤ 20 * gate + 21 * length (content buffer.old)) }
    ensures within { Run (D.time disk.old) (D.time disk.new) (D.left disk.old) (D.left disk.new) (WithinLog (gate + 6 + length (content buffer.old))) }
    ensures seen { IsTrue (D.observable disk.old) → Others area (D.seen disk.old) (D.seen disk.new) }
    ensures cause { HasCause (D.failures disk.old) (D.failures disk.new) (is_ok result) }
{
    if buffer.len() + MAX_NOTE_BYTES > MAX_BATCH_BYTES {
        return carry_buffer(disk, area, gate, buffer);
    }
    Ok(gate)
}
