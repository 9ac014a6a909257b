//! Assignments to variables and fields, also from sequences (OpenEdge ABL Reference, Assignment
//! statement and ASSIGN statement): the assignments from left to right, then the locks of the changed
//! buffers, then each of them is stored.

ghost use Rattle.std.specs.Prelude.{◌≡◌, ◌∷◌, ℤ, MatchOption, None, OnErr, OnOk, Some};
ghost use Rattle.abl_base.specs.declared.value.Value.{Value};
ghost use Rattle.block_meaning.specs.Changes.{stored};
ghost use Rattle.block_meaning.specs.Views.{number_in};
ghost use Rattle.flat_machine.specs.Flat as flat;
ghost use Rattle.database_protocol.specs.declared.operation.Op.{Op};
ghost use Rattle.client_machine.specs.AnswerClass.{IsOfAnswerClass, KeepsAnswer};
ghost use Rattle.client_machine.specs.Config.{assignments_of};
ghost use Rattle.client_machine.specs.KeepsFrom.{KeepsFrom};
ghost use Rattle.client_machine.specs.Machine.{stack_in};
ghost use Rattle.client_machine.specs.Order.{IsNotOnLevels};
ghost use Rattle.client_machine.specs.Step.{KeepsTask};
ghost use Rattle.client_machine.specs.declared.answers.AnswerClass.{AnswerClass};
ghost use Rattle.client_machine.specs.declared.mode.OnAnswer.{OnAnswer};
ghost use Rattle.client_machine.specs.declared.mode.Task.{Task};
ghost use Rattle.client_machine.specs.declared.mode.changes.AssignmentList.{AssignmentList};
ghost use Rattle.client_machine.specs.declared.mode.changes.ChangeAnswer.{ChangeAnswer};
ghost use Rattle.client_machine.specs.declared.mode.changes.ChangeTask.{ChangeTask};
ghost use Rattle.client_output.specs.Written.{IsUnchanged};
ghost use Rattle.client_records.specs.Rights.{right_step};

use crate::completions::{complain, complete, fail};
use crate::entries::{push_locks, push_stores};
use crate::memory::assign;
use crate::rights::{NextAssignment, RightSide, next_assignment};
use crate::targets::changed_buffers;
use abl_base::Value;
use bound_tree::Target;
use client_machine::machine::Machine;
use client_machine::mode::changes::{AssignmentList, ChangeAnswer, ChangeTask, GivenValue};
use client_machine::mode::{LineFault, Mode, OnAnswer, StackEntry, Task};
use database_protocol::{Answer, Op};
use evaluator::EvalFault;
use record_rules::lines::Complaint;
use record_rules::sequence_value;
use std::alloc::AllocError;

/// The statement begins: what follows its assignments is pushed.
pub(crate) fn assigns(
    machine: &mut Machine,
    pairs: AssignmentList,
    retry: bool,
) -> Result<(), AllocError>
    ensures ok { OnOk result (KeepsTask (Task.Change (ChangeTask.Assigns pairs retry)) machine.old machine.new) }
    ensures err { OnErr result (IsUnchanged machine.old.output machine.new.output) }
{
    let buffers = changed_buffers(machine.alloc, &machine.code, &pairs)?;
    push_stores(&mut machine.stack, &machine.memory, buffers.as_slice())?;
    push_locks(&mut machine.stack, buffers.as_slice())?;
    machine.set_mode(Mode::Execute(Task::Change(ChangeTask::AssignsEach { pairs, retry })));
    Ok(())
}

/// The next assignment, before the others.
pub(crate) fn assigns_each(
    machine: &mut Machine,
    pairs: AssignmentList,
    retry: bool,
) -> Result<(), AllocError>
    ensures ok { OnOk result (KeepsTask (Task.Change (ChangeTask.AssignsEach pairs retry)) machine.old machine.new) }
    ensures err { OnErr result (IsUnchanged machine.old.output machine.new.output) }
{
    match pairs {
        AssignmentList::Statement { place, from } => assign_next(machine, place, from, retry),
        AssignmentList::Given(values) => give_next(machine, values, retry),
    }
}

/// The assignment of this index in the statement at the place.
fn assign_next(
    machine: &mut Machine,
    place: usize,
    from: usize,
    retry: bool,
) -> Result<(), AllocError>
    ensures ok { OnOk result (KeepsTask (Task.Change (ChangeTask.AssignsEach (AssignmentList.Statement place from) retry)) machine.old machine.new) }
    ensures err { OnErr result (IsUnchanged machine.old.output machine.new.output) }
{
    match next_assignment(machine, place, from, retry) {
        Ok(None) => {
            complete(machine);
            Ok(())
        }
        Ok(Some(next)) => {
            let NextAssignment {
                target,
                right,
                after,
            } = next;
            let rest = AssignmentList::Statement { place, from: after };
            assign_right(machine, target, right, rest, retry)
        }
        Err(EvalFault::Fault(fault)) => {
            fail(machine, LineFault::Expression(fault));
            Ok(())
        }
        Err(EvalFault::NoMemory) => Err(AllocError),
    }
}

/// The next value of a line of input.
fn give_next(machine: &mut Machine, values: Vec<GivenValue>, retry: bool) -> Result<(), AllocError>
    ensures ok { OnOk result (KeepsTask (Task.Change (ChangeTask.AssignsEach (AssignmentList.Given values) retry)) machine.old machine.new) }
    ensures err { OnErr result (IsUnchanged machine.old.output machine.new.output) }
{
    let mut values = values;
    match values.pop() {
        None => {
            complete(machine);
            Ok(())
        }
        Some(next) => {
            let GivenValue { target, value } = next;
            assign_then(machine, target, value, AssignmentList::Given(values), retry)
        }
    }
}

/// Assigns a right side to the target, before the rest of the assignments.
fn assign_right(
    machine: &mut Machine,
    target: Target,
    right: RightSide,
    rest: AssignmentList,
    retry: bool,
) -> Result<(), AllocError>
    ensures ok { OnOk result (KeepsFrom (λ p s. right_step right target (flat.ThenDo (flat.AssignsEach (assignments_of machine.old.code.instrs.items rest) retry) ∷ stack_in machine.old) s) machine.old machine.new) }
    ensures err { OnErr result (IsUnchanged machine.old.output machine.new.output) }
{
    match right {
        RightSide::Value(value) => assign_then(machine, target, value, rest, retry),
        RightSide::NextValue(sequence) => {
            count_then(machine, Op::NextValue { sequence }, target, rest, retry)
        }
        RightSide::CurrentValue(sequence) => {
            count_then(machine, Op::CurrentValue { sequence }, target, rest, retry)
        }
    }
}

/// Assigns the value, before the rest of the assignments.
fn assign_then(
    machine: &mut Machine,
    target: Target,
    value: Value,
    rest: AssignmentList,
    retry: bool,
) -> Result<(), AllocError>
    ensures ok { OnOk result (KeepsFrom (λ p s. flat.ends_as (stored target value s) (flat.ThenDo (flat.AssignsEach (assignments_of machine.old.code.instrs.items rest) retry) ∷ stack_in machine.old)) machine.old machine.new) }
    ensures err { OnErr result (IsUnchanged machine.old.output machine.new.output) }
{
    match assign(machine, target, value) {
        Ok(()) => {
            machine.set_mode(Mode::Execute(Task::Change(ChangeTask::AssignsEach {
                pairs: rest,
                retry,
            })));
            Ok(())
        }
        Err(EvalFault::Fault(fault)) => {
            fail(machine, LineFault::Expression(fault));
            Ok(())
        }
        Err(EvalFault::NoMemory) => Err(AllocError),
    }
}

/// Asks for the value of a sequence, before the rest of the assignments.
fn count_then(
    machine: &mut Machine,
    op: Op,
    target: Target,
    rest: AssignmentList,
    retry: bool,
) -> Result<(), AllocError>
    requires sequence { IsNotOnLevels op }
    ensures ok { OnOk result (KeepsFrom (λ p s. flat.ask op (flat.WasCounted target) (flat.ThenDo (flat.AssignsEach (assignments_of machine.old.code.instrs.items rest) retry) ∷ stack_in machine.old) s) machine.old machine.new) }
    ensures err { OnErr result (IsUnchanged machine.old.output machine.new.output) }
{
    machine.stack.push(StackEntry::Then(Task::Change(ChangeTask::AssignsEach {
        pairs: rest,
        retry,
    })))?;
    machine.ask(op, OnAnswer::Change(ChangeAnswer::WasCounted(target)));
    Ok(())
}

/// After NEXT-VALUE or CURRENT-VALUE: the value is assigned. A sequence at its end is out of range.
pub(crate) fn was_counted(
    machine: &mut Machine,
    op: Op,
    answer: Answer,
    target: Target,
) -> Result<(), AllocError>
    requires { IsOfAnswerClass AnswerClass.Done answer }
    ensures ok { OnOk result (KeepsAnswer op (OnAnswer.Change (ChangeAnswer.WasCounted target)) answer machine.old machine.new) }
    ensures err { OnErr result (IsUnchanged machine.old.output machine.new.output) }
{
    let _ = op;
    match counted_in(&answer) {
        Some(value) => assign_last(machine, target, value),
        None => {
            complain(machine, Complaint::OutOfRange);
            Ok(())
        }
    }
}

/// The value of a sequence that the answer has, if it has one.
fn counted_in(answer: &Answer) -> Option<Value>
    ensures { MatchOption result (number_in answer.now ≡ None) (λ value. (number : ℤ) × (number_in answer.now ≡ Some number) × (value ≡ Value.Int64 number)) }
{
    match sequence_value(answer) {
        Some(number) => Some(Value::Int64(number)),
        None => None,
    }
}

/// Assigns the value, and completes.
fn assign_last(machine: &mut Machine, target: Target, value: Value) -> Result<(), AllocError>
    ensures ok { OnOk result (KeepsFrom (λ p s. flat.ends_as (stored target value s) (stack_in machine.old)) machine.old machine.new) }
    ensures err { OnErr result (IsUnchanged machine.old.output machine.new.output) }
{
    match assign(machine, target, value) {
        Ok(()) => {
            complete(machine);
            Ok(())
        }
        Err(EvalFault::Fault(fault)) => {
            fail(machine, LineFault::Expression(fault));
            Ok(())
        }
        Err(EvalFault::NoMemory) => Err(AllocError),
    }
}
