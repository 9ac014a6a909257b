//! RUN (OpenEdge ABL Reference, RUN statement): the statement, the procedure that begins, and its
//! end.

ghost use Rattle.std.specs.Prelude.{◌≡◌, ℕ, List, IfOk, OnOk, OnErr, false, true, reverse};
ghost use Rattle.block_meaning.specs.State.{State, Copy};
ghost use Rattle.block_meaning.specs.Values.{EvaluatedAll};
ghost use Rattle.flat_machine.specs.Flat as flat;
ghost use Rattle.block_code.specs.declared.code.Instr.{Instr};
ghost use Rattle.client_output.specs.Written.{IsUnchanged};
ghost use Rattle.client_machine.specs.declared.mode.Completion.{Completion};
ghost use Rattle.client_machine.specs.declared.mode.StackEntry.{StackEntry};
ghost use Rattle.client_machine.specs.declared.mode.Task.{Task};
ghost use Rattle.client_machine.specs.Config.{mode_of};
ghost use Rattle.client_machine.specs.Order.{Nesting, InOrder, ModeInOrder};
ghost use Rattle.client_machine.specs.Step.{KeepsTask, KeepsEntry};
ghost use Rattle.client_calls.specs.Calls.{EvaluatesAll};
ghost use Rattle.client_calls.specs.Steps.{status_after, values_step, EvaluatesRun};

use crate::runs::{RunAt, begin_procedure, end_procedure, run_at, values_at};
use abl_base::Row;
use client_machine::machine::Machine;
use client_machine::mode::{Completion, LineFault, Mode, StackEntry, Task};
use client_values::value::Status;
use database_protocol::StopWhy;
use evaluator::EvalFault;
use std::alloc::AllocError;

/// Executes the RUN at the place: ERROR-STATUS:ERROR is cleared under NO-ERROR, the arguments are
/// evaluated, and the procedure begins next. Where there is no RUN it is out of memory.
pub fn run_statement(
    machine: &mut Machine,
    place: usize,
    left: u32,
    retry: bool,
) -> Result<(), AllocError>
    ensures ok { OnOk result (KeepsTask (Task.RunsFrom place left retry) machine.old machine.new) }
    ensures err { OnErr result (IsUnchanged machine.old.output machine.new.output) }
{
    let Some(run) = run_at(&machine.code, place) else {
        return Err(AllocError);
    };
    if !machine.charge() {
        return Ok(());
    }
    let status = cleared(machine.status, run.no_error);
    machine.status = status;
    evaluate_arguments(machine, run, place, left, retry)
}

/// ERROR-STATUS:ERROR when a statement begins.
fn cleared(status: bool, no_error: bool) -> bool
    ensures { result ≡ status_after no_error status }
{
    if no_error { false } else { status }
}

/// Evaluates the arguments of the RUN at the place, above the entries that follow it.
fn evaluate_arguments(
    machine: &mut Machine,
    run: RunAt,
    place: usize,
    left: u32,
    retry: bool,
) -> Result<(), AllocError>
    ensures ok { OnOk result (EvaluatesRun run place left retry machine.old machine.new) }
    ensures order { OnOk result ((n : Nesting) → InOrder n (reverse machine.old.stack.items) → ModeInOrder n machine.new.mode (reverse machine.new.stack.items)) }
    ensures moved { OnOk result (machine.new ≡ record machine.old { mode = machine.new.mode; stack = machine.new.stack }) }
    ensures err { OnErr result (IsUnchanged machine.old.output machine.new.output) }
{
    machine.stack.push(StackEntry::Then(Task::RunsFrom {
        place: run.next,
        left,
        retry,
    }))?;
    machine.stack.push(StackEntry::Handles(run.no_error))?;
    let status = Status {
        retry,
        error: machine.status,
        returned: machine.returned.as_slice(),
    };
    let values = values_at(
        machine.alloc,
        &machine.code,
        &machine.memory,
        place,
        &status,
    );
    let mode = mode_with(values, place, left)?;
    machine.set_mode(mode);
    Ok(())
}

/// The procedure begins where the arguments have values, else the statement has a fault.
fn mode_with(values: Result<Row, EvalFault>, place: usize, left: u32) -> Result<Mode, AllocError>
    ensures same { IfOk result (λ mode. (code : List Instr) (cs : List Copy) (ks : List flat.StackEntry) (s : State) (e : EvaluatedAll) → EvaluatesAll values e → flat.config (mode_of code cs mode) ks s ≡ values_step code place left e ks s) }
    ensures order { IfOk result (λ mode. (n : Nesting) (ks : List StackEntry) → InOrder n ks → ModeInOrder n mode ks) }
{
    match values {
        Ok(values) => Ok(Mode::Execute(Task::Calls {
            place,
            left,
            values,
        })),
        Err(EvalFault::Fault(fault)) => Ok(Mode::Unwind(Completion::Faults(Some(
            LineFault::Expression(fault),
        )))),
        Err(EvalFault::NoMemory) => Err(AllocError),
    }
}

/// Runs the procedure of the RUN at the place with these values, or stops the client where 32 RUNs
/// are open.
pub fn call(machine: &mut Machine, place: usize, left: u32, values: Row) -> Result<(), AllocError>
    ensures ok { OnOk result (KeepsTask (Task.Calls place left values) machine.old machine.new) }
    ensures err { OnErr result (IsUnchanged machine.old.output machine.new.output) }
{
    let Some(left) = left.checked_sub(1) else {
        machine.set_mode(Mode::Unwind(Completion::Stops(StopWhy::Depth)));
        return Ok(());
    };
    let begun = begin_procedure(&machine.code, &mut machine.memory, place, values)?;
    machine.procedures.push(begun.number)?;
    machine.stack.push(StackEntry::Called(place))?;
    machine.set_mode(Mode::Execute(Task::Blocks {
        place: begun.place,
        outer: false,
        left,
    }));
    Ok(())
}

/// The block of the procedure that the RUN at the place runs completed so. A procedure that is
/// well made completes normally, by RETURN or with a stop; at any other completion it is out of
/// memory.
pub fn called(
    machine: &mut Machine,
    place: usize,
    completion: &Completion,
) -> Result<(), AllocError>
    ensures ok { OnOk result (KeepsEntry (StackEntry.Called place) completion.now machine.old machine.new) }
    ensures err { OnErr result (IsUnchanged machine.old.output machine.new.output) }
{
    match completion {
        Completion::Normal => return_normally(machine, place),
        Completion::Returns(error) => return_with(machine, place, *error),
        Completion::Stops(why) => stop_called(machine, place, *why),
        _ => Err(AllocError),
    }
}

/// RETURN, with ERROR or not.
fn return_with(machine: &mut Machine, place: usize, error: bool) -> Result<(), AllocError>
    ensures ok { OnOk result (KeepsEntry (StackEntry.Called place) (Completion.Returns error) machine.old machine.new) }
    ensures err { OnErr result (IsUnchanged machine.old.output machine.new.output) }
{
    if error {
        return_error(machine, place)
    } else {
        return_plainly(machine, place)
    }
}

/// RETURN ERROR: nothing is copied, and the RUN has a fault without a line.
fn return_error(machine: &mut Machine, place: usize) -> Result<(), AllocError>
    ensures ok { OnOk result (KeepsEntry (StackEntry.Called place) (Completion.Returns true) machine.old machine.new) }
    ensures err { OnErr result (IsUnchanged machine.old.output machine.new.output) }
{
    let _ = place;
    machine.memory.end();
    machine.procedures.pop();
    machine.set_mode(Mode::Unwind(Completion::Faults(None)));
    Ok(())
}

/// RETURN: the outputs are copied.
fn return_plainly(machine: &mut Machine, place: usize) -> Result<(), AllocError>
    ensures ok { OnOk result (KeepsEntry (StackEntry.Called place) (Completion.Returns false) machine.old machine.new) }
    ensures err { OnErr result (IsUnchanged machine.old.output machine.new.output) }
{
    end_procedure(machine.alloc, &machine.code, &mut machine.memory, place)?;
    machine.procedures.pop();
    machine.set_mode(Mode::Unwind(Completion::Normal));
    Ok(())
}

/// The end of the procedure: the outputs are copied.
fn return_normally(machine: &mut Machine, place: usize) -> Result<(), AllocError>
    ensures ok { OnOk result (KeepsEntry (StackEntry.Called place) Completion.Normal machine.old machine.new) }
    ensures err { OnErr result (IsUnchanged machine.old.output machine.new.output) }
{
    end_procedure(machine.alloc, &machine.code, &mut machine.memory, place)?;
    machine.procedures.pop();
    machine.set_mode(Mode::Unwind(Completion::Normal));
    Ok(())
}

/// A stop leaves everything open.
fn stop_called(machine: &mut Machine, place: usize, why: StopWhy) -> Result<(), AllocError>
    ensures ok { OnOk result (KeepsEntry (StackEntry.Called place) (Completion.Stops why) machine.old machine.new) }
    ensures err { OnErr result (IsUnchanged machine.old.output machine.new.output) }
{
    let _ = place;
    machine.set_mode(Mode::Unwind(Completion::Stops(why)));
    Ok(())
}
