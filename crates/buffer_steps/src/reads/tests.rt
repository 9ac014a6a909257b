//! WHERE on the record that a buffer shows.

ghost use Rattle.std.specs.Prelude.{◌≡◌, true};
ghost use Rattle.bound_tree.specs.Bound.{reading_of};
ghost use Rattle.block_meaning.specs.Program.{Program};
ghost use Rattle.block_meaning.specs.State.{State};
ghost use Rattle.buffer_steps.specs.reads.Steps.{Tested};

use crate::reads::buffers::RecordBuffers;
use bound_tree::Reading;
use evaluator::EvalFault;
use std::alloc::Global;

/// Whether WHERE holds of the record in the buffer, which is emptied where it does not.
pub(crate) fn test<B: RecordBuffers>(
    alloc: Global,
    buffers: &mut B,
    reading: &Reading,
    retry: bool,
) -> Result<bool, EvalFault>
    ensures fits { (p : Program) (rest : State) → B.fits p rest buffers.old → B.fits p rest buffers.new }
    ensures fixed { B.fixed buffers.new ≡ B.fixed buffers.old }
    ensures tested { (p : Program) (rest : State) → B.fits p rest buffers.old → Tested result p (reading_of reading.now) retry (B.state rest buffers.old) (B.state rest buffers.new) }
    ensures kept { (rest : State) → result ≡ Ok true → B.state rest buffers.new ≡ B.state rest buffers.old }
{
    match buffers.passes(alloc, &reading.test, retry) {
        Ok(true) => Ok(true),
        Ok(false) => {
            buffers.empty(reading.buffer);
            Ok(false)
        }
        Err(fault) => {
            buffers.empty(reading.buffer);
            Err(fault)
        }
    }
}
