//! An iteration is closed, and its level is left.

ghost use Rattle.std.specs.Prelude.{◌≡◌, List, IfOk, OnOk, OnErr, None, Some};
ghost use Rattle.block_meaning.specs.State.{Copy};
ghost use Rattle.client_memory.specs.Buffers.{rows_kept};
ghost use Rattle.client_machine.specs.declared.mode.Completion.{Completion};
ghost use Rattle.client_machine.specs.declared.mode.StackEntry.{StackEntry};
ghost use Rattle.client_machine.specs.declared.mode.Task.{Task};
ghost use Rattle.client_machine.specs.declared.mode.ends.EndEntry.{EndEntry};
ghost use Rattle.client_machine.specs.declared.mode.ends.EndTask.{EndTask};
ghost use Rattle.client_machine.specs.Config.{buffers_of, completion_of};
ghost use Rattle.client_machine.specs.Order.{first_in};
ghost use Rattle.client_ends.specs.Closings.{closed_of, completion_in};
ghost use Rattle.client_machine.specs.Step.{KeepsEntry, KeepsTask};
ghost use Rattle.client_output.specs.Written.{IsUnchanged};

use crate::lists::{buffers_in, own_places, scoped_at};
use client_machine::machine::Machine;
use client_machine::mode::ends::{BufferList, EndEntry, EndTask};
use client_machine::mode::{
    Completion, IterationData, LineFault, Mode, OnAnswer, StackEntry, Task, TurnData,
};
use database_protocol::{Op, RowIds, StopWhy};
use std::alloc::AllocError;

/// Closes an iteration of the block at the place: inserts the pending records of its buffers, releases
/// the buffers, at the end of the transaction inserts every other pending record, and leaves its
/// level.
pub fn close(machine: &mut Machine, place: usize, depth: Option<u32>) -> Result<(), AllocError>
    ensures ok { OnOk result (KeepsTask (Task.End (EndTask.Closing place depth)) machine.old machine.new) }
    ensures err { OnErr result (IsUnchanged machine.old.output machine.new.output) }
{
    let places = own_places(machine.alloc, scoped_at(&machine.code, place))?;
    machine.stack.push(StackEntry::Then(Task::End(EndTask::LeavesIf { depth, place })))?;
    machine
        .stack
        .push(StackEntry::Then(Task::End(EndTask::EntersRest(depth))))?;
    machine.stack.push(StackEntry::Then(Task::End(EndTask::Releases { place, from: 0 })))?;
    machine.set_mode(Mode::Execute(Task::End(EndTask::Enters { places, from: 0 })));
    Ok(())
}

/// Leaves the level of an iteration of the block at the place, if it has one. The entry of the
/// iteration is then replaced by its completion, since nothing can fail any more.
pub fn leave_if(machine: &mut Machine, depth: Option<u32>, place: usize) -> Result<(), AllocError>
    ensures ok { OnOk result (KeepsTask (Task.End (EndTask.LeavesIf depth place)) machine.old machine.new) }
    ensures err { OnErr result (IsUnchanged machine.old.output machine.new.output) }
{
    match depth {
        None => {
            machine.set_mode(Mode::Unwind(Completion::Normal));
            Ok(())
        }
        Some(level) => leave_level(machine, level, place),
    }
}

/// The same where the iteration has a level.
fn leave_level(machine: &mut Machine, level: u32, place: usize) -> Result<(), AllocError>
    ensures ok { OnOk result (KeepsTask (Task.End (EndTask.LeavesIf (Some level) place)) machine.old machine.new) }
    ensures err { OnErr result (IsUnchanged machine.old.output machine.new.output) }
{
    let _ = level;
    match machine.stack.pop() {
        Some(StackEntry::End(entry)) => {
            let completion = completion_closed(machine, entry);
            machine
                .stack
                .push(StackEntry::Then(Task::Completes(completion)))?;
            machine.set_mode(Mode::Execute(Task::End(EndTask::LeavesNow(BufferList::Scoped(
                place,
            )))));
            Ok(())
        }
        _ => Err(AllocError),
    }
}

/// The completion after the iteration that the entry closes.
fn completion_closed(machine: &Machine, entry: EndEntry) -> Completion
    ensures same { (cs : List Copy) → completion_of machine.now.code.instrs.items cs result ≡ closed_of machine.now.code.instrs.items cs entry }
    ensures plain { first_in (completion_in entry) ≡ None → first_in result ≡ None }
{
    match entry {
        EndEntry::AfterClosing {
            place,
            iteration,
            completion,
        } => machine.completion_after(place, iteration.turn, completion),
    }
}

/// Leaves the innermost level. The database drops the locks but those that buffers outside of `but`
/// hold.
pub fn leave_now(machine: &mut Machine, but: BufferList) -> Result<(), AllocError>
    ensures ok { OnOk result (KeepsTask (Task.End (EndTask.LeavesNow but)) machine.old machine.new) }
    ensures err { OnErr result (IsUnchanged machine.old.output machine.new.output) }
{
    let keep = kept_rows(machine, &but)?;
    machine.ask(Op::Leave { keep }, OnAnswer::WasLeft);
    Ok(())
}

/// The rows that remain locked. Out of memory is the only error.
fn kept_rows(machine: &Machine, but: &BufferList) -> Result<RowIds, AllocError>
    ensures { IfOk result (λ rows. rows ≡ rows_kept (buffers_of machine.now.code.instrs.items but.now) machine.now.memory.buffers) }
{
    machine.memory.rows_kept(buffers_in(&machine.code, but))
}

/// Releases the buffers of an iteration that was undone, and ends it.
pub fn close_undone(
    machine: &mut Machine,
    place: usize,
    turn: TurnData,
    completion: Completion,
) -> Result<(), AllocError>
    ensures ok { OnOk result (KeepsTask (Task.End (EndTask.Closes place turn completion)) machine.old machine.new) }
    ensures err { OnErr result (IsUnchanged machine.old.output machine.new.output) }
{
    let completion = machine.completion_after(place, turn, completion);
    machine
        .stack
        .push(StackEntry::Then(Task::Completes(completion)))?;
    machine.set_mode(Mode::Execute(Task::End(EndTask::Releases { place, from: 0 })));
    Ok(())
}

/// An iteration that is closed, and how its body has completed.
#[derive(Drop)]
pub struct Closing {
    pub place: usize,
    pub iteration: IterationData,
    pub completion: Completion,
}

/// The iteration that the entry closes.
pub fn closing_of(entry: EndEntry) -> Closing
    ensures { EndEntry.AfterClosing result.place result.iteration result.completion ≡ entry }
{
    match entry {
        EndEntry::AfterClosing {
            place,
            iteration,
            completion,
        } => Closing {
            place,
            iteration,
            completion,
        },
    }
}

/// The closing of an iteration has completed. Its level is left already, or it has none; a fault is
/// one of the iteration.
pub fn closed(
    machine: &mut Machine,
    place: usize,
    iteration: IterationData,
    completion: Completion,
    reached: Completion,
) -> Result<(), AllocError>
    ensures ok { OnOk result (KeepsEntry (StackEntry.End (EndEntry.AfterClosing place iteration completion)) reached machine.old machine.new) }
    ensures err { OnErr result (IsUnchanged machine.old.output machine.new.output) }
{
    match reached {
        Completion::Normal => closed_normally(machine, place, iteration, completion),
        Completion::Faults(fault) => closing_failed(machine, place, iteration, completion, fault),
        Completion::Stops(why) => closing_stopped(machine, place, iteration, completion, why),
        _ => Err(AllocError),
    }
}

/// It has completed normally.
fn closed_normally(
    machine: &mut Machine,
    place: usize,
    iteration: IterationData,
    completion: Completion,
) -> Result<(), AllocError>
    ensures ok { OnOk result (KeepsEntry (StackEntry.End (EndEntry.AfterClosing place iteration completion)) Completion.Normal machine.old machine.new) }
    ensures err { OnErr result (IsUnchanged machine.old.output machine.new.output) }
{
    let depth = iteration.depth;
    match depth {
        Some(_) => Err(AllocError),
        None => {
            let completion = machine.completion_after(place, iteration.turn, completion);
            machine.set_mode(Mode::Unwind(completion));
            Ok(())
        }
    }
}

/// It has failed: the line is written, and ERROR is raised in the iteration.
fn closing_failed(
    machine: &mut Machine,
    place: usize,
    iteration: IterationData,
    completion: Completion,
    fault: Option<LineFault>,
) -> Result<(), AllocError>
    ensures ok { OnOk result (KeepsEntry (StackEntry.End (EndEntry.AfterClosing place iteration completion)) (Completion.Faults fault) machine.old machine.new) }
    ensures err { OnErr result (IsUnchanged machine.old.output machine.new.output) }
{
    let _ = completion;
    machine.stack.push(StackEntry::In { place, iteration })?;
    machine.complain(fault)
}

/// The client stops.
fn closing_stopped(
    machine: &mut Machine,
    place: usize,
    iteration: IterationData,
    completion: Completion,
    why: StopWhy,
) -> Result<(), AllocError>
    ensures ok { OnOk result (KeepsEntry (StackEntry.End (EndEntry.AfterClosing place iteration completion)) (Completion.Stops why) machine.old machine.new) }
    ensures err { OnErr result (IsUnchanged machine.old.output machine.new.output) }
{
    let _ = (place, iteration, completion);
    machine.set_mode(Mode::Unwind(Completion::Stops(why)));
    Ok(())
}
