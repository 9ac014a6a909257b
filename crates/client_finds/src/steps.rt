//! One step of a reading, for the dispatcher of the client.

ghost use Rattle.std.specs.Prelude.{OnOk, OnErr};
ghost use Rattle.client_output.specs.Written.{IsUnchanged};
ghost use Rattle.client_machine.specs.declared.answers.AnswerClass.{AnswerClass};
ghost use Rattle.client_machine.specs.declared.mode.OnAnswer.{OnAnswer};
ghost use Rattle.client_machine.specs.declared.mode.StackEntry.{StackEntry};
ghost use Rattle.client_machine.specs.declared.mode.Task.{Task};
ghost use Rattle.client_machine.specs.AnswerClass.{IsOfAnswerClass, KeepsAnswer};
ghost use Rattle.client_machine.specs.Step.{KeepsEntry, KeepsTask};

use crate::answers::{
    hear_current, hear_current_grant, hear_grant, hear_next, hear_read, hear_second,
};
use crate::current::finds_current;
use crate::fetch::{fetch_from, fetched_as, fetches};
use crate::find::{find_as, finds, found_as, or_do, quiet};
use crate::tasks::{looks, searches, takes_as};
use client_machine::machine::Machine;
use client_machine::mode::Completion;
use client_machine::mode::reads::{ReadAnswer, ReadEntry, ReadTask};
use database_protocol::{Answer, Op};
use std::alloc::AllocError;

/// Executes a task of a reading. Out of memory is the only error; the output is then as before.
pub fn execute(machine: &mut Machine, task: ReadTask) -> Result<(), AllocError>
    ensures ok { OnOk result (KeepsTask (Task.Read task) machine.old machine.new) }
    ensures err { OnErr result (IsUnchanged machine.old.output machine.new.output) }
{
    match task {
        ReadTask::TakesAs {
            place,
            wait,
            retry,
            row,
        } => takes_as(machine, place, wait, retry, row),
        ReadTask::Looks { fuel, search, from } => looks(machine, fuel, search, from),
        ReadTask::Searches {
            place,
            forward,
            only,
            wait,
            retry,
            from,
        } => searches(machine, place, forward, only, wait, retry, from),
        ReadTask::FetchesFrom {
            place,
            again,
            retry,
            own,
        } => fetch_from(machine, place, again, retry, own),
        ReadTask::Fetches {
            place,
            again,
            retry,
            own,
        } => fetches(machine, place, again, retry, own),
        ReadTask::FindsAs { place, retry } => find_as(machine, place, retry),
        ReadTask::Finds { place, retry } => finds(machine, place, retry),
        ReadTask::FindsCurrent(place) => finds_current(machine, place),
    }
}

/// The completion reaches an entry of a reading, which was the innermost one. Out of memory is the
/// only error; the output is then as before.
pub fn unwind_to(
    machine: &mut Machine,
    entry: ReadEntry,
    completion: Completion,
) -> Result<(), AllocError>
    ensures ok { OnOk result (KeepsEntry (StackEntry.Read entry) completion machine.old machine.new) }
    ensures err { OnErr result (IsUnchanged machine.old.output machine.new.output) }
{
    match entry {
        ReadEntry::OrDo(task) => or_do(machine, task, completion),
        ReadEntry::FoundAs(place) => found_as(machine, place, completion),
        ReadEntry::FetchedAs {
            place,
            depth,
            turn,
            retry,
            left,
        } => fetched_as(machine, place, depth, turn, retry, left, completion),
        ReadEntry::Quiet(no_error) => quiet(machine, no_error, completion),
    }
}

/// Takes the answer to an operation of a reading, where it is not Blocked and the client does not
/// stop. Out of memory is the only error; the output is then as before.
pub fn answer(
    machine: &mut Machine,
    op: Op,
    on_answer: ReadAnswer,
    answer: Answer,
) -> Result<(), AllocError>
    requires { IsOfAnswerClass AnswerClass.Done answer }
    ensures ok { OnOk result (KeepsAnswer op (OnAnswer.Read on_answer) answer machine.old machine.new) }
    ensures err { OnErr result (IsUnchanged machine.old.output machine.new.output) }
{
    match on_answer {
        ReadAnswer::WasNext { fuel, search } => hear_next(machine, op, fuel, search, answer),
        ReadAnswer::WasSecond {
            fuel,
            search,
            cursor,
            values,
        } => hear_second(machine, op, fuel, search, cursor, values, answer),
        ReadAnswer::WasGranted { place, retry, row } => {
            hear_grant(machine, op, place, retry, row, answer)
        }
        ReadAnswer::WasRead {
            place,
            retry,
            row,
            held,
        } => hear_read(machine, op, place, retry, row, held, answer),
        ReadAnswer::CurrentGranted { place, row, made } => {
            hear_current_grant(machine, op, place, row, made, answer)
        }
        ReadAnswer::WasCurrent { place, row, made } => {
            hear_current(machine, op, place, row, made, answer)
        }
    }
}
