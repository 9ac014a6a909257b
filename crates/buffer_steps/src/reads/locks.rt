//! The lock of a record that is read, and the second reading under it.

ghost use Rattle.std.specs.Prelude.{◌≡◌};
ghost use Rattle.bound_tree.specs.Bound.{reading_of};
ghost use Rattle.block_meaning.specs.Program.{Program};
ghost use Rattle.block_meaning.specs.State.{State};
ghost use Rattle.buffer_steps.specs.reads.Steps.{GrantGoes, ReadGoes};

use crate::reads::buffers::RecordBuffers;
use crate::reads::tests::test;
use abl_base::{Row, RowId};
use bound_tree::{LockWanted, Reading};
use evaluator::EvalFault;
use record_rules::Grant;
use std::alloc::Global;

/// After the answer to Lock. A granted lock changes nothing yet: the row is read again next. Where
/// another client holds the row, the buffer becomes empty and LOCKED; where the row is gone, it
/// becomes empty. (OpenEdge ABL Reference, NO-WAIT option and LOCKED function.)
pub fn settle_grant<B: RecordBuffers>(buffers: &mut B, reading: &Reading, grant: Grant)
    ensures fits { (p : Program) (rest : State) → B.fits p rest buffers.old → B.fits p rest buffers.new }
    ensures fixed { B.fixed buffers.new ≡ B.fixed buffers.old }
    ensures goes { (p : Program) (rest : State) → B.fits p rest buffers.old → GrantGoes grant (reading_of reading.now) (B.state rest buffers.old) (B.state rest buffers.new) }
{
    match grant {
        Grant::Granted => {}
        Grant::Busy => {
            buffers.empty(reading.buffer);
            buffers.set_locked(reading.buffer, true);
        }
        Grant::Gone => buffers.empty(reading.buffer),
    }
}

/// After the row was read again under its lock: the buffer holds it if WHERE holds for its current
/// values. Returns false if the row is gone or WHERE fails; the search then continues. (OpenEdge
/// ABL Reference, FIND and FOR statements; that WHERE is tested again is this project's choice.)
pub fn read_again<B: RecordBuffers>(
    alloc: Global,
    buffers: &mut B,
    reading: &Reading,
    retry: bool,
    row: RowId,
    lock: LockWanted,
    values: Option<Row>,
) -> Result<bool, EvalFault>
    ensures fits { (p : Program) (rest : State) → B.fits p rest buffers.old → B.fits p rest buffers.new }
    ensures fixed { B.fixed buffers.new ≡ B.fixed buffers.old }
    ensures goes { (p : Program) (rest : State) → B.fits p rest buffers.old → ReadGoes result p values (reading_of reading.now) retry row lock (B.state rest buffers.old) (B.state rest buffers.new) }
{
    let Some(values) = values else {
        buffers.empty(reading.buffer);
        return Ok(false);
    };
    buffers.show(reading.buffer, row, values);
    let passes = test(alloc, buffers, reading, retry)?;
    if passes {
        buffers.lock(reading.buffer, lock);
    }
    Ok(passes)
}
