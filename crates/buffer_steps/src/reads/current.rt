//! FIND CURRENT, which tests no WHERE.

ghost use Rattle.std.specs.Prelude.{◌≡◌};
ghost use Rattle.bound_tree.specs.Bound.{reading_of};
ghost use Rattle.block_meaning.specs.Program.{Program};
ghost use Rattle.block_meaning.specs.State.{State};
ghost use Rattle.buffer_steps.specs.reads.Steps.{CurrentGoes, CurrentRead};

use crate::reads::buffers::{Current, RecordBuffers};
use abl_base::{Row, RowId};
use bound_tree::Reading;

/// FIND CURRENT begins: LOCKED becomes no, unless the buffer is empty. Answers what the buffer
/// holds: an empty one is a fault, a pending record stays as it is, a row is locked and read again.
/// (OpenEdge ABL Reference, FIND statement, CURRENT.)
pub fn begin_current<B: RecordBuffers>(buffers: &mut B, reading: &Reading) -> Current
    ensures fits { (p : Program) (rest : State) → B.fits p rest buffers.old → B.fits p rest buffers.new }
    ensures fixed { B.fixed buffers.new ≡ B.fixed buffers.old }
    ensures goes { (p : Program) (rest : State) → B.fits p rest buffers.old → CurrentGoes result (reading_of reading.now) (B.state rest buffers.old) (B.state rest buffers.new) }
{
    let current = buffers.current(reading.buffer);
    match current {
        Current::Empty => {}
        Current::Pending | Current::Record { .. } => buffers.set_locked(reading.buffer, false),
    }
    current
}

/// After the row was read: the buffer holds it under the lock of the reading. Answers no, with an
/// empty buffer, where the row is gone: no record is found then.
pub fn read_current<B: RecordBuffers>(
    buffers: &mut B,
    reading: &Reading,
    row: RowId,
    made: Option<u64>,
    values: Option<Row>,
) -> bool
    ensures fits { (p : Program) (rest : State) → B.fits p rest buffers.old → B.fits p rest buffers.new }
    ensures fixed { B.fixed buffers.new ≡ B.fixed buffers.old }
    ensures goes { (p : Program) (rest : State) → B.fits p rest buffers.old → CurrentRead result values (reading_of reading.now) row made (B.state rest buffers.old) (B.state rest buffers.new) }
{
    match values {
        None => {
            buffers.empty(reading.buffer);
            false
        }
        Some(values) => {
            buffers.hold(reading.buffer, row, values, reading.lock, made);
            true
        }
    }
}
