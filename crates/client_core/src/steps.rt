//! One step of a client: the machine takes it, or one of the families of statements above it.

ghost use Rattle.std.specs.Prelude.{◌≡◌, ℕ, Bool, [], OnOk, OnErr};
ghost use Rattle.client_output.specs.Written.{IsUnchanged};
ghost use Rattle.client_machine.specs.declared.mode.Completion.{Completion};
ghost use Rattle.client_machine.specs.declared.mode.Mode.{Mode};
ghost use Rattle.client_machine.specs.declared.mode.StackEntry.{StackEntry};
ghost use Rattle.client_core.specs.declared.steps.StepKind.{StepKind};
ghost use Rattle.client_machine.specs.declared.mode.Task.{Task};
ghost use Rattle.client_machine.specs.Step.{KeepsRun, KeepsTask, KeepsCompletion, KeepsEntry};

use block_code::{Code, Instr};
use bound_tree::Stmt;
use client_calls::steps::{call, called, run_statement};
use client_machine::machine::Machine;
use client_machine::mode::{Completion, Mode, StackEntry, Task};
use client_streams::{
    close_input, close_output, export, export_record, import, message, open_input, open_output, put,
};
use std::alloc::AllocError;
use std::mem;

/// Who executes an instruction.
#[derive(Clone, Copy, Debug)]
enum Family {
    Machine,
    Run,
    Put,
    Export,
    ExportRecord,
    Message,
    OutputTo,
    OutputClose,
    Import,
    InputFrom,
    InputClose,
}

/// What a step begins with.
#[derive(Clone, Copy)]
enum StepKind {
    /// The instruction at the place.
    Instruction {
        place: usize,
        left: u32,
        retry: bool,
    },
    Task,
    Completion,
    /// The machine awaits an answer.
    Nothing,
}

/// What a step from the mode begins with.
fn step_kind(mode: &Mode) -> StepKind
    ensures { (place left : ℕ) (retry : Bool) → result ≡ StepKind.Instruction place left retry → mode.now ≡ Mode.Execute (Task.RunsFrom place left retry) }
{
    match mode {
        Mode::Execute(Task::RunsFrom { place, left, retry }) => StepKind::Instruction {
            place: *place,
            left: *left,
            retry: *retry,
        },
        Mode::Execute(_) => StepKind::Task,
        Mode::Unwind(_) => StepKind::Completion,
        Mode::Await { .. } => StepKind::Nothing,
    }
}

/// One step. A mode is a large value, and a function clears its locals when it is called: so each kind
/// of step has a function of its own, and an instruction is executed without a move of the mode.
pub fn step(machine: &mut Machine) -> Result<(), AllocError>
    ensures ok { OnOk result (KeepsRun [] machine.old machine.new) }
    ensures err { OnErr result (IsUnchanged machine.old.output machine.new.output) }
{
    match step_kind(&machine.mode) {
        StepKind::Instruction { place, left, retry } => run_from(machine, place, left, retry),
        StepKind::Task => take_task(machine),
        StepKind::Completion => take_completion(machine),
        StepKind::Nothing => Ok(()),
    }
}

/// One step, where it is about to execute a task.
fn take_task(machine: &mut Machine) -> Result<(), AllocError>
    ensures ok { OnOk result (KeepsRun [] machine.old machine.new) }
    ensures err { OnErr result (IsUnchanged machine.old.output machine.new.output) }
{
    match mem::replace(&mut machine.mode, Mode::Unwind(Completion::Normal)) {
        Mode::Execute(task) => execute(machine, task),
        mode => {
            machine.set_mode(mode);
            Ok(())
        }
    }
}

/// One step, where it unwinds.
fn take_completion(machine: &mut Machine) -> Result<(), AllocError>
    ensures ok { OnOk result (KeepsRun [] machine.old machine.new) }
    ensures err { OnErr result (IsUnchanged machine.old.output machine.new.output) }
{
    match mem::replace(&mut machine.mode, Mode::Unwind(Completion::Normal)) {
        Mode::Unwind(completion) => unwind(machine, completion),
        mode => {
            machine.set_mode(mode);
            Ok(())
        }
    }
}

/// Executes a task.
fn execute(machine: &mut Machine, task: Task) -> Result<(), AllocError>
    ensures ok { OnOk result (KeepsTask task machine.old machine.new) }
    ensures err { OnErr result (IsUnchanged machine.old.output machine.new.output) }
{
    if is_machine_task(&task) {
        machine.execute(task)
    } else {
        execute_above(machine, task)
    }
}

/// Whether the machine executes the task, and no layer above it.
fn is_machine_task(task: &Task) -> bool {
    !matches!(
        task,
        Task::RunsFrom { .. } | Task::Calls { .. } | Task::End(_) | Task::Read(_) | Task::Change(_)
    )
}

/// Executes a task of the layers above the machine.
fn execute_above(machine: &mut Machine, task: Task) -> Result<(), AllocError>
    ensures ok { OnOk result (KeepsTask task machine.old machine.new) }
    ensures err { OnErr result (IsUnchanged machine.old.output machine.new.output) }
{
    match task {
        Task::RunsFrom { place, left, retry } => run_from(machine, place, left, retry),
        Task::Calls {
            place,
            left,
            values,
        } => call(machine, place, left, values),
        Task::End(task) => client_ends::execute(machine, task),
        Task::Read(task) => client_finds::execute(machine, task),
        Task::Change(task) => client_records::execute(machine, task),
        _ => machine.execute(task),
    }
}

/// Executes the instruction at the place.
fn run_from(machine: &mut Machine, place: usize, left: u32, retry: bool) -> Result<(), AllocError>
    ensures ok { OnOk result (KeepsTask (Task.RunsFrom place left retry) machine.old machine.new) }
    ensures err { OnErr result (IsUnchanged machine.old.output machine.new.output) }
{
    match family_at(&machine.code, place) {
        Family::Machine => machine.run_from(place, left, retry),
        Family::Run => run_statement(machine, place, left, retry),
        Family::Put => put(machine, place, left, retry),
        Family::Export => export(machine, place, left, retry),
        Family::ExportRecord => export_record(machine, place, left, retry),
        Family::Message => message(machine, place, left, retry),
        Family::OutputTo => open_output(machine, place, left, retry),
        Family::OutputClose => close_output(machine, place, left, retry),
        Family::Import => import(machine, place, left, retry),
        Family::InputFrom => open_input(machine, place, left, retry),
        Family::InputClose => close_input(machine, place, left, retry),
    }
}

/// Who executes the instruction at the place. Each family looks its statement up once more.
fn family_at(code: &Code, place: usize) -> Family {
    match code.instrs.get(place) {
        Some(Instr::Simple { stmt, .. }) => family_of(stmt),
        _ => Family::Machine,
    }
}

/// Who executes the statement.
fn family_of(stmt: &Stmt) -> Family {
    match stmt {
        Stmt::Run { .. } => Family::Run,
        Stmt::Put { .. } => Family::Put,
        Stmt::Export { .. } => Family::Export,
        Stmt::ExportRecord { .. } => Family::ExportRecord,
        Stmt::Message(_) => Family::Message,
        Stmt::OutputTo { .. } => Family::OutputTo,
        Stmt::OutputClose(_) => Family::OutputClose,
        Stmt::Import { .. } => Family::Import,
        Stmt::InputFrom { .. } => Family::InputFrom,
        Stmt::InputClose(_) => Family::InputClose,
        Stmt::Block { .. }
        | Stmt::If { .. }
        | Stmt::Assign { .. }
        | Stmt::Find { .. }
        | Stmt::FindCurrent { .. }
        | Stmt::Create { .. }
        | Stmt::Delete { .. }
        | Stmt::Release { .. }
        | Stmt::Undo { .. }
        | Stmt::Leave(_)
        | Stmt::Next(_)
        | Stmt::Return(_)
        | Stmt::ReturnError { .. }
        | Stmt::Stop => Family::Machine,
    }
}

/// Unwinds to the innermost entry of the stack.
fn unwind(machine: &mut Machine, completion: Completion) -> Result<(), AllocError>
    ensures ok { OnOk result (KeepsCompletion completion machine.old machine.new) }
    ensures err { OnErr result (IsUnchanged machine.old.output machine.new.output) }
{
    match machine.stack.pop() {
        None => {
            machine.set_mode(Mode::Unwind(completion));
            Ok(())
        }
        Some(entry) => unwind_to(machine, entry, completion),
    }
}

/// The completion reaches the entry, which was the innermost one.
fn unwind_to(
    machine: &mut Machine,
    entry: StackEntry,
    completion: Completion,
) -> Result<(), AllocError>
    ensures ok { OnOk result (KeepsEntry entry completion machine.old machine.new) }
    ensures err { OnErr result (IsUnchanged machine.old.output machine.new.output) }
{
    if is_machine_entry(&entry) {
        machine.unwind_to(entry, completion)
    } else {
        unwind_to_above(machine, entry, completion)
    }
}

/// Whether the entry is one of the machine, and of no layer above it.
fn is_machine_entry(entry: &StackEntry) -> bool {
    !matches!(
        entry,
        StackEntry::Called(_) | StackEntry::End(_) | StackEntry::Read(_) | StackEntry::Change(_)
    )
}

/// The same for an entry of the layers above the machine.
fn unwind_to_above(
    machine: &mut Machine,
    entry: StackEntry,
    completion: Completion,
) -> Result<(), AllocError>
    ensures ok { OnOk result (KeepsEntry entry completion machine.old machine.new) }
    ensures err { OnErr result (IsUnchanged machine.old.output machine.new.output) }
{
    match entry {
        StackEntry::Called(place) => called(machine, place, &completion),
        StackEntry::End(entry) => client_ends::unwind_to(machine, entry, completion),
        StackEntry::Read(entry) => client_finds::unwind_to(machine, entry, completion),
        StackEntry::Change(entry) => client_records::unwind_to(machine, entry, completion),
        _ => machine.unwind_to(entry, completion),
    }
}
