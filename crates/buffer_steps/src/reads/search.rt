//! What follows a Next: the buffer shows the record, and WHERE is tested.

ghost use Rattle.std.specs.Prelude.{◌≡◌};
ghost use Rattle.bound_tree.specs.Bound.{reading_of};
ghost use Rattle.block_meaning.specs.Program.{Program};
ghost use Rattle.block_meaning.specs.State.{State};
ghost use Rattle.record_rules.specs.Answers.{found_row_in};
ghost use Rattle.buffer_steps.specs.reads.Steps.{NextGoes, SecondGoes};

use crate::reads::buffers::RecordBuffers;
use crate::reads::tests::test;
use bound_tree::Reading;
use database_protocol::Cursor;
use evaluator::EvalFault;
use record_rules::FoundRow;
use std::alloc::Global;

/// The place of the record that Next found, and whether WHERE holds of it.
#[derive(Drop)]
pub struct NextTest {
    pub cursor: Cursor,
    pub passes: bool,
}

/// After Next found a record: the buffer shows it and has its place, and WHERE is tested. A record
/// that fails is taken out of the buffer again. (OpenEdge ABL Reference, FIND and FOR statements.)
pub fn show_next<B: RecordBuffers>(
    alloc: Global,
    buffers: &mut B,
    reading: &Reading,
    retry: bool,
    found: FoundRow,
) -> Result<NextTest, EvalFault>
    ensures fits { (p : Program) (rest : State) → B.fits p rest buffers.old → B.fits p rest buffers.new }
    ensures fixed { B.fixed buffers.new ≡ B.fixed buffers.old }
    ensures goes { (p : Program) (rest : State) → B.fits p rest buffers.old → NextGoes result p (reading_of reading.now) retry (found_row_in found) (B.state rest buffers.old) (B.state rest buffers.new) }
{
    let FoundRow { cursor, values } = found;
    buffers.set_place(reading, cursor.copy()?);
    buffers.show(reading.buffer, cursor.row, values);
    let passes = test(alloc, buffers, reading, retry)?;
    Ok(NextTest { cursor, passes })
}

/// After the search for a second match found a record: the buffer shows it, and WHERE is tested. In
/// both cases the buffer is empty then; the place stays. (OpenEdge ABL Reference, FIND statement.)
pub fn show_second<B: RecordBuffers>(
    alloc: Global,
    buffers: &mut B,
    reading: &Reading,
    retry: bool,
    found: FoundRow,
) -> Result<NextTest, EvalFault>
    ensures fits { (p : Program) (rest : State) → B.fits p rest buffers.old → B.fits p rest buffers.new }
    ensures fixed { B.fixed buffers.new ≡ B.fixed buffers.old }
    ensures goes { (p : Program) (rest : State) → B.fits p rest buffers.old → SecondGoes result p (reading_of reading.now) retry (found_row_in found) (B.state rest buffers.old) (B.state rest buffers.new) }
{
    let FoundRow { cursor, values } = found;
    buffers.show(reading.buffer, cursor.row, values);
    let passes = test(alloc, buffers, reading, retry)?;
    if passes {
        buffers.empty(reading.buffer);
    }
    Ok(NextTest { cursor, passes })
}
