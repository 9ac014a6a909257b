//! The steps of the ends of iterations, for the layer that chooses a step.

ghost use Rattle.std.specs.Prelude.{OnOk, OnErr};
ghost use Rattle.client_machine.specs.declared.mode.OnAnswer.{OnAnswer};
ghost use Rattle.client_machine.specs.declared.mode.StackEntry.{StackEntry};
ghost use Rattle.client_machine.specs.declared.mode.Task.{Task};
ghost use Rattle.client_machine.specs.AnswerClass.{KeepsAnswer};
ghost use Rattle.client_machine.specs.Step.{KeepsEntry, KeepsTask};
ghost use Rattle.client_output.specs.Written.{IsUnchanged};

use crate::answers::{was_back, was_dropped, was_got, was_inserted};
use crate::backs::{empty_all, go_back, restore, update_from, update_one};
use crate::closes::{Closing, close, close_undone, closed, closing_of, leave_if, leave_now};
use crate::enters::{enter_from, enter_one, enter_rest};
use crate::releases::{drop_record, release_from};
use client_machine::answers::{AnswerClass, answer_class};
use client_machine::machine::Machine;
use client_machine::mode::ends::{EndAnswer, EndEntry, EndTask};
use client_machine::mode::{Completion, OnAnswer};
use database_protocol::{Answer, Op};
use std::alloc::AllocError;

/// Executes a task. Out of memory is the only error.
pub fn execute(machine: &mut Machine, task: EndTask) -> Result<(), AllocError>
    ensures ok { OnOk result (KeepsTask (Task.End task) machine.old machine.new) }
    ensures err { OnErr result (IsUnchanged machine.old.output machine.new.output) }
{
    match task {
        EndTask::EntersOne(place) => enter_one(machine, place),
        EndTask::Enters { places, from } => enter_from(machine, places, from),
        EndTask::Drops(buffer) => drop_record(machine, buffer),
        EndTask::Releases { place, from } => release_from(machine, place, from),
        EndTask::EntersRest(depth) => enter_rest(machine, depth),
        EndTask::LeavesIf { depth, place } => leave_if(machine, depth, place),
        EndTask::LeavesNow(but) => leave_now(machine, but),
        EndTask::Closing { place, depth } => close(machine, place, depth),
        EndTask::GoesBack { depth, but } => go_back(machine, depth, but),
        EndTask::AfterBack { depth, but } => restore(machine, depth, but),
        EndTask::UpdatesOne { made, place } => update_one(machine, made, place),
        EndTask::Updates {
            made,
            but,
            places,
            from,
        } => update_from(machine, made, but, places, from),
        EndTask::Empties(but) => empty_all(machine, but),
        EndTask::Closes {
            place,
            turn,
            completion,
        } => close_undone(machine, place, turn, completion),
    }
}

/// The completion reaches the entry, which was the innermost one. Out of memory is the only error.
pub fn unwind_to(
    machine: &mut Machine,
    entry: EndEntry,
    completion: Completion,
) -> Result<(), AllocError>
    ensures ok { OnOk result (KeepsEntry (StackEntry.End entry) completion machine.old machine.new) }
    ensures err { OnErr result (IsUnchanged machine.old.output machine.new.output) }
{
    let Closing {
        place,
        iteration,
        completion: closing,
    } = closing_of(entry);
    closed(machine, place, iteration, closing, completion)
}

/// Takes the answer to the operation. Out of memory is the only error.
pub fn answer(
    machine: &mut Machine,
    op: Op,
    on_answer: EndAnswer,
    answer: Answer,
) -> Result<(), AllocError>
    ensures ok { OnOk result (KeepsAnswer op (OnAnswer.End on_answer) answer machine.old machine.new) }
    ensures err { OnErr result (IsUnchanged machine.old.output machine.new.output) }
{
    match answer_class(&answer) {
        AnswerClass::NoMemory => Err(AllocError),
        AnswerClass::Blocked => machine.await_again(op, OnAnswer::End(on_answer), answer),
        AnswerClass::Stops(why) => machine.stop(op, OnAnswer::End(on_answer), answer, why),
        AnswerClass::Done => match on_answer {
            EndAnswer::WasInserted { place, made } => was_inserted(
                machine, op, answer, place, made,
            ),
            EndAnswer::WasDropped => was_dropped(machine, op, answer),
            EndAnswer::WasBack { depth, but } => was_back(machine, op, answer, depth, but),
            EndAnswer::WasGot {
                place,
                row,
                held,
                made,
            } => was_got(machine, op, answer, place, row, held, made),
        },
    }
}
