//! IMPORT into variables and fields (OpenEdge ABL Reference, IMPORT): one line of the stream's input
//! is read, and its elements are assigned to the targets.

ghost use Rattle.std.specs.Prelude.{◌≡◌, ◌∷◌, OnOk, OnErr, IfSome};
ghost use Rattle.bound_tree.specs.Tree.{Import};
ghost use Rattle.block_meaning.specs.Lines.{BadField};
ghost use Rattle.block_meaning.specs.Streams.{pairs_of, read_to};
ghost use Rattle.flat_machine.specs.Flat as flat;
ghost use Rattle.client_output.specs.Written.{IsUnchanged};
ghost use Rattle.client_machine.specs.Config.{instr_at};
ghost use Rattle.client_machine.specs.KeepsFrom.{KeepsFrom};
ghost use Rattle.client_machine.specs.Machine.{stack_in};
ghost use Rattle.client_machine.specs.Step.{KeepsTask};
ghost use Rattle.client_machine.specs.declared.mode.Task.{Task};
ghost use Rattle.client_streams.specs.Imports.{targets_in};
ghost use Rattle.client_streams.specs.Statements.{under};

use crate::given::{are_variables_at, assign_at, given_values};
use crate::inputs::{line_at, read_up_to, targets_at};
use crate::statement::{end_input, fail, go_on, push_statement};
use abl_base::Value;
use block_code::Instr;
use bound_tree::Stmt;
use client_machine::machine::Machine;
use client_machine::mode::changes::{AssignmentList, ChangeTask};
use client_machine::mode::{LineFault, Mode, Task};
use evaluator::EvalFault;
use record_rules::lines::Complaint;
use std::alloc::AllocError;
use value_formats::ImportFault;

/// The stream that an IMPORT reads, whether it has NO-ERROR, and the place after it.
#[derive(Clone, Copy, Debug)]
pub(crate) struct Reader {
    pub(crate) stream: u32,
    pub(crate) no_error: bool,
    pub(crate) next: usize,
}

/// IMPORT at the place. At the end of the input it raises ENDKEY. An element that is no text of its
/// target's kind is a fault, and so is a value that does not fit; the line is read all the same, and
/// what was assigned to variables before the fault stays. Where a target is a field, the assignments
/// are a task of the machine.
pub fn import(machine: &mut Machine, place: usize, left: u32, retry: bool) -> Result<(), AllocError>
    ensures ok { OnOk result (KeepsTask (Task.RunsFrom place left retry) machine.old machine.new) }
    ensures err { OnErr result (IsUnchanged machine.old.output machine.new.output) }
{
    let Some(reader) = import_at(machine, place) else {
        return Err(AllocError);
    };
    if !machine.charge() {
        return Ok(());
    }
    import_paid(machine, place, reader, left, retry)
}

/// The same after the unit was charged.
fn import_paid(
    machine: &mut Machine,
    place: usize,
    reader: Reader,
    left: u32,
    retry: bool,
) -> Result<(), AllocError>
    ensures ok { OnOk result (KeepsFrom (λ p s. flat.stmt_step p (Import reader.stream (targets_in (instr_at machine.old.code.instrs.items place)) reader.no_error) left retry (flat.ThenDo (flat.RunsFrom reader.next left retry) ∷ stack_in machine.old) s) machine.old machine.new) }
    ensures err { OnErr result (IsUnchanged machine.old.output machine.new.output) }
{
    machine.clear_status(reader.no_error);
    import_cleared(machine, place, reader, left, retry)
}

/// The same after ERROR-STATUS:ERROR was cleared.
fn import_cleared(
    machine: &mut Machine,
    place: usize,
    reader: Reader,
    left: u32,
    retry: bool,
) -> Result<(), AllocError>
    ensures ok { OnOk result (KeepsFrom (λ p s. flat.config (flat.Execute (flat.Imports reader.stream (targets_in (instr_at machine.old.code.instrs.items place)) retry)) (under machine.old reader.no_error reader.next left retry) s) machine.old machine.new) }
    ensures err { OnErr result (IsUnchanged machine.old.output machine.new.output) }
{
    match line_at(machine, place, reader.stream) {
        Ok(line) => assign_line(
            machine,
            place,
            line.values.into_vec(),
            line.next,
            reader,
            left,
            retry,
        ),
        Err(ImportFault::AtEnd) => end_input(machine, reader.no_error, reader.next, left, retry),
        Err(ImportFault::BadField { number, next }) => {
            refuse_line(machine, number, next, reader, left, retry)
        }
        Err(ImportFault::NoMemory) => Err(AllocError),
    }
}

/// The line up to `next` has an element, of this number, that is no text of its target's kind.
fn refuse_line(
    machine: &mut Machine,
    number: usize,
    next: usize,
    reader: Reader,
    left: u32,
    retry: bool,
) -> Result<(), AllocError>
    ensures ok { OnOk result (KeepsFrom (λ p s. flat.fault (BadField number) (under machine.old reader.no_error reader.next left retry) (read_to reader.stream next s)) machine.old machine.new) }
    ensures err { OnErr result (IsUnchanged machine.old.output machine.new.output) }
{
    let Ok(number) = u32::try_from(number) else {
        return Err(AllocError);
    };
    read_up_to(machine, reader.stream, next);
    fail(
        machine,
        LineFault::Complaint(Complaint::BadField(number)),
        reader.no_error,
        reader.next,
        left,
        retry,
    )
}

/// The line up to `next` has these values for the targets.
fn assign_line(
    machine: &mut Machine,
    place: usize,
    values: Vec<Option<Value>>,
    next: usize,
    reader: Reader,
    left: u32,
    retry: bool,
) -> Result<(), AllocError>
    ensures ok { OnOk result (KeepsFrom (λ p s. flat.config (flat.Execute (flat.Assigns (pairs_of (targets_in (instr_at machine.old.code.instrs.items place)) values.items) retry)) (under machine.old reader.no_error reader.next left retry) (read_to reader.stream next s)) machine.old machine.new) }
    ensures err { OnErr result (IsUnchanged machine.old.output machine.new.output) }
{
    read_up_to(machine, reader.stream, next);
    assign_values(machine, place, values, reader, left, retry)
}

/// The values are assigned to the targets: to variables at once, and else as a task.
fn assign_values(
    machine: &mut Machine,
    place: usize,
    values: Vec<Option<Value>>,
    reader: Reader,
    left: u32,
    retry: bool,
) -> Result<(), AllocError>
    ensures ok { OnOk result (KeepsFrom (λ p s. flat.config (flat.Execute (flat.Assigns (pairs_of (targets_in (instr_at machine.old.code.instrs.items place)) values.items) retry)) (under machine.old reader.no_error reader.next left retry) s) machine.old machine.new) }
    ensures err { OnErr result (IsUnchanged machine.old.output machine.new.output) }
{
    if !are_variables_at(machine, place) {
        return give_values(machine, place, values, reader, left, retry);
    }
    match assign_at(machine, place, values) {
        Ok(_) => {
            go_on(machine, reader.next, left, retry);
            Ok(())
        }
        Err(EvalFault::Fault(fault)) => {
            machine.fail_before(reader.next, reader.no_error, left, retry, fault)
        }
        Err(EvalFault::NoMemory) => Err(AllocError),
    }
}

/// The values are assigned to variables and fields, as a task.
fn give_values(
    machine: &mut Machine,
    place: usize,
    values: Vec<Option<Value>>,
    reader: Reader,
    left: u32,
    retry: bool,
) -> Result<(), AllocError>
    ensures ok { OnOk result (KeepsFrom (λ p s. flat.config (flat.Execute (flat.Assigns (pairs_of (targets_in (instr_at machine.old.code.instrs.items place)) values.items) retry)) (under machine.old reader.no_error reader.next left retry) s) machine.old machine.new) }
    ensures err { OnErr result (IsUnchanged machine.old.output machine.new.output) }
{
    let Some(targets) = targets_at(machine, place) else {
        return Err(AllocError);
    };
    let given = given_values(machine.alloc, targets, values)?;
    push_statement(machine, reader.no_error, reader.next, left, retry)?;
    machine.set_mode(Mode::Execute(Task::Change(ChangeTask::Assigns {
        pairs: AssignmentList::Given(given),
        retry,
    })));
    Ok(())
}

/// The IMPORT at the place.
fn import_at(machine: &Machine, place: usize) -> Option<Reader>
    ensures { IfSome result (λ reader. instr_at machine.now.code.instrs.items place ≡ flat.Plain (Import reader.stream (targets_in (instr_at machine.now.code.instrs.items place)) reader.no_error) reader.next) }
{
    match machine.code.instrs.get(place) {
        Some(
            Instr::Simple {
                stmt: Stmt::Import {
                    stream,
                    no_error,
                    ..
                },
                next,
            },
        ) => Some(Reader {
            stream: *stream,
            no_error: *no_error,
            next: *next,
        }),
        _ => None,
    }
}
