//! How a statement of a stream ends.

ghost use Rattle.std.specs.Prelude.{◌≡◌, ℕ, Err, OnOk, OnErr, ◌∷◌, ◌++◌, [], Bool, true, false};
ghost use Rattle.flat_machine.specs.Flat as flat;
ghost use Rattle.block_meaning.specs.Program.{Program};
ghost use Rattle.block_meaning.specs.State.{State, EndKeys, nothing_passed};
ghost use Rattle.block_meaning.specs.Values.{Text};
ghost use Rattle.client_output.specs.Written.{IsUnchanged};
ghost use Rattle.client_streams.specs.lines.Writes.{WritesText};
ghost use Rattle.client_machine.specs.Config.{complaint_in};
ghost use Rattle.client_machine.specs.Machine.{state_in};
ghost use Rattle.client_machine.specs.Step.{FitsIn};
ghost use Rattle.client_machine.specs.declared.mode.Completion.{Completion};
ghost use Rattle.client_machine.specs.declared.mode.Mode.{Mode};
ghost use Rattle.client_machine.specs.declared.mode.StackEntry.{StackEntry};
ghost use Rattle.client_machine.specs.declared.mode.Task.{Task};
ghost use Rattle.database_protocol.specs.declared.ends.StopWhy.{StopWhy};
ghost use Rattle.client_machine.specs.KeepsFrom.{KeepsFrom};
ghost use Rattle.client_streams.specs.Statements.{section_in, under};

use abl_base::Bytes;
use client_machine::inputs::Stream;
use client_machine::machine::Machine;
use client_machine::mode::ends::BufferList;
use client_machine::mode::{Completion, LineFault, Mode, PassedLevels, StackEntry, Task};
use database_protocol::StopWhy;
use evaluator::EvalFault;
use std::alloc::AllocError;

/// The section that a stream writes to, and None for the default one.
fn section_of(streams: &[Stream], stream: u32) -> Option<u32>
    ensures { result ≡ section_in streams.now stream }
{
    match streams.get(stream as usize) {
        Some(stream) => stream.output,
        None => None,
    }
}

/// Continues execution at the place after the statement.
pub(crate) fn go_on(machine: &mut Machine, next: usize, left: u32, retry: bool)
    ensures { machine.new ≡ record machine.old { mode = Mode.Execute (Task.RunsFrom next left retry) } }
{
    machine.set_mode(Mode::Execute(Task::RunsFrom {
        place: next,
        left,
        retry,
    }));
}

/// The output is full.
pub(crate) fn stop(machine: &mut Machine)
    ensures { machine.new ≡ record machine.old { mode = Mode.Unwind (Completion.Stops StopWhy.OutputFull) } }
{
    machine.set_mode(Mode::Unwind(Completion::Stops(StopWhy::OutputFull)));
}

/// Writes the text of a statement to the current section of its stream, or does what its fault
/// asks for.
pub(crate) fn write_or_fail(
    machine: &mut Machine,
    text: Result<Bytes, EvalFault>,
    stream: u32,
    next: usize,
    left: u32,
    retry: bool,
) -> Result<(), AllocError>
    ensures ok { OnOk result ((wanted : Program → State → Text) → ((p : Program) (rest : State) → FitsIn p rest (Mode.Unwind Completion.Normal) machine.old → WritesText text (wanted p (state_in rest machine.old))) → KeepsFrom (λ p s. flat.given_text_step (wanted p s) stream (under machine.old false next left retry) s) machine.old machine.new) }
    ensures err { OnErr result (IsUnchanged machine.old.output machine.new.output) }
{
    match text {
        Ok(text) => write(machine, text.as_slice(), stream, next, left, retry),
        Err(fault) => fail_without_text(machine, fault, stream, next, left, retry),
    }
}

/// Does what the fault of a statement asks for, whose text has no value.
fn fail_without_text(
    machine: &mut Machine,
    fault: EvalFault,
    stream: u32,
    next: usize,
    left: u32,
    retry: bool,
) -> Result<(), AllocError>
    ensures ok { OnOk result ((wanted : Program → State → Text) → ((p : Program) (rest : State) → FitsIn p rest (Mode.Unwind Completion.Normal) machine.old → WritesText (Err fault) (wanted p (state_in rest machine.old))) → KeepsFrom (λ p s. flat.given_text_step (wanted p s) stream (under machine.old false next left retry) s) machine.old machine.new) }
    ensures err { OnErr result (IsUnchanged machine.old.output machine.new.output) }
{
    let _ = stream;
    match fault {
        EvalFault::Fault(fault) => {
            fail(
                machine,
                LineFault::Expression(fault),
                false,
                next,
                left,
                retry,
            )
        }
        EvalFault::NoMemory => Err(AllocError),
    }
}

/// Writes a text to the current section of a stream.
fn write(
    machine: &mut Machine,
    text: &[u8],
    stream: u32,
    next: usize,
    left: u32,
    retry: bool,
) -> Result<(), AllocError>
    ensures ok { OnOk result (KeepsFrom (λ p s. flat.ends_as (flat.wrote_to stream text.now s) (under machine.old false next left retry)) machine.old machine.new) }
    ensures err { OnErr result (IsUnchanged machine.old.output machine.new.output) }
{
    let section = section_of(machine.streams.as_slice(), stream);
    if machine.output.write(section, text)? {
        go_on(machine, next, left, retry);
        return Ok(());
    }
    stop(machine);
    Ok(())
}

/// A statement has a fault.
pub(crate) fn fail(
    machine: &mut Machine,
    fault: LineFault,
    quiet: bool,
    next: usize,
    left: u32,
    retry: bool,
) -> Result<(), AllocError>
    ensures ok { OnOk result (KeepsFrom (λ p s. flat.fault (complaint_in fault) (under machine.old quiet next left retry) s) machine.old machine.new) }
    ensures err { OnErr result (IsUnchanged machine.old.output machine.new.output) }
{
    push_statement(machine, quiet, next, left, retry)?;
    machine.set_mode(Mode::Unwind(Completion::Faults(Some(fault))));
    Ok(())
}

/// A statement reads at the end of its input: it raises ENDKEY.
pub(crate) fn end_input(
    machine: &mut Machine,
    quiet: bool,
    next: usize,
    left: u32,
    retry: bool,
) -> Result<(), AllocError>
    ensures ok { OnOk result (KeepsFrom (λ p s. flat.config (flat.Unwind (EndKeys nothing_passed)) (under machine.old quiet next left retry) s) machine.old machine.new) }
    ensures err { OnErr result (IsUnchanged machine.old.output machine.new.output) }
{
    push_statement(machine, quiet, next, left, retry)?;
    machine.set_mode(Mode::Unwind(Completion::EndKeys(PassedLevels {
        first: None,
        buffers: BufferList::None,
    })));
    Ok(())
}

/// Pushes the continuation after a statement, and the handler of its fault.
pub(crate) fn push_statement(
    machine: &mut Machine,
    quiet: bool,
    next: usize,
    left: u32,
    retry: bool,
) -> Result<(), AllocError>
    ensures moved { OnOk result (machine.new ≡ record machine.old { stack = machine.new.stack }) }
    ensures pushed { OnOk result (machine.new.stack.items ≡ (machine.old.stack.items ++ StackEntry.Then (Task.RunsFrom next left retry) ∷ []) ++ StackEntry.Handles quiet ∷ []) }
    ensures err { OnErr result (IsUnchanged machine.old.output machine.new.output) }
{
    machine.stack.push(StackEntry::Then(Task::RunsFrom {
        place: next,
        left,
        retry,
    }))?;
    machine.stack.push(StackEntry::Handles(quiet))?;
    Ok(())
}
