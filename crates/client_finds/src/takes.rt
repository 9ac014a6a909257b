//! A record that passed WHERE is taken: where it must be the only one, a second match is searched;
//! then it is locked and read again, where the reading wants a lock.

ghost use Rattle.std.specs.Prelude.{◌≡◌, ◌∷◌, List, OnOk, OnErr, Some, true, false, reverse};
ghost use Rattle.abl_base.specs.declared.value.Value.{Value};
ghost use Rattle.block_meaning.specs.Lines.{MoreThanOne};
ghost use Rattle.block_meaning.specs.Reads.{shows};
ghost use Rattle.block_meaning.specs.State as state;
ghost use Rattle.flat_machine.specs.Flat as flat;
ghost use Rattle.client_output.specs.Written.{IsUnchanged};
ghost use Rattle.record_rules.specs.Answers.{found_if, found_row_in};
ghost use Rattle.client_machine.specs.Config.{reading_at as reading_there, search_of};
ghost use Rattle.client_machine.specs.declared.mode.Completion.{Completion};
ghost use Rattle.client_machine.specs.declared.mode.StackEntry.{StackEntry};
ghost use Rattle.client_machine.specs.declared.mode.Task.{Task};
ghost use Rattle.client_machine.specs.declared.mode.reads.ReadEntry.{ReadEntry};
ghost use Rattle.client_machine.specs.declared.mode.reads.ReadTask.{ReadTask};
ghost use Rattle.client_machine.specs.KeepsFrom.{KeepsFrom};
ghost use Rattle.client_machine.specs.Machine.{stack_in};
ghost use Rattle.client_finds.specs.Steps.{instrs_in, KeepsExecuted};

use crate::goes::{ask, complete, fail, find, push, stop};
use crate::locks::take_as;
use crate::ops::next_op;
use crate::places::{buffer_at, lock_at};
use crate::readings::{show, show_other};
use abl_base::{Row, copy_row};
use bound_tree::LockWanted;
use client_machine::machine::Machine;
use client_machine::mode::reads::{ReadAnswer, ReadEntry, ReadTask, SearchData};
use client_machine::mode::{Completion, LineFault, StackEntry, Task};
use database_protocol::Cursor;
use evaluator::EvalFault;
use record_rules::FoundRow;
use record_rules::lines::Complaint;
use std::alloc::AllocError;

/// A match is taken, where any will do. Without a lock it is found at once.
pub(crate) fn take_any(
    machine: &mut Machine,
    fuel: u64,
    search: SearchData,
    cursor: Cursor,
) -> Result<(), AllocError>
    requires { search.only ≡ false }
    ensures ok { OnOk result ((values : List Value) → KeepsFrom (λ p s. flat.config (flat.Execute (flat.Takes (search_of (instrs_in machine.old) search) cursor values)) (flat.OrDo (flat.Looks fuel (search_of (instrs_in machine.old) search) (Some cursor)) ∷ stack_in machine.old) s) machine.old machine.new) }
    ensures err { OnErr result (IsUnchanged machine.old.output machine.new.output) }
{
    match lock_at(&machine.code, search.place) {
        None => Err(AllocError),
        Some(LockWanted::NoLock) => {
            find(machine, cursor);
            Ok(())
        }
        Some(LockWanted::Share) => take_locked(machine, fuel, search, cursor),
        Some(LockWanted::Exclusive) => take_locked(machine, fuel, search, cursor),
    }
}

/// The same under a lock: where the record is lost then, the search goes on after it.
fn take_locked(
    machine: &mut Machine,
    fuel: u64,
    search: SearchData,
    cursor: Cursor,
) -> Result<(), AllocError>
    requires { search.only ≡ false }
    ensures ok { OnOk result ((values : List Value) → KeepsFrom (λ p s. flat.config (flat.Execute (flat.Takes (search_of (instrs_in machine.old) search) cursor values)) (flat.OrDo (flat.Looks fuel (search_of (instrs_in machine.old) search) (Some cursor)) ∷ stack_in machine.old) s) machine.old machine.new) }
    ensures err { OnErr result (IsUnchanged machine.old.output machine.new.output) }
{
    let (place, wait, retry, row) = (search.place, search.wait, search.retry, cursor.row);
    let from = cursor.copy()?;
    push_look(machine, fuel, search, from)?;
    push_found(machine, cursor)?;
    take_as(machine, place, wait, retry, row)
}

/// A match is taken, where a second one is a fault: it is searched from here on.
pub(crate) fn take_only(
    machine: &mut Machine,
    fuel: u64,
    search: SearchData,
    cursor: Cursor,
    values: Row,
) -> Result<(), AllocError>
    requires { search.only ≡ true }
    ensures ok { OnOk result (KeepsFrom (λ p s. flat.config (flat.Execute (flat.Takes (search_of (instrs_in machine.old) search) cursor values)) (flat.OrDo (flat.Looks fuel (search_of (instrs_in machine.old) search) (Some cursor)) ∷ stack_in machine.old) s) machine.old machine.new) }
    ensures err { OnErr result (IsUnchanged machine.old.output machine.new.output) }
{
    let from = cursor.copy()?;
    let prefix = copy_row(&search.prefix)?;
    let again = SearchData {
        place: search.place,
        forward: search.forward,
        only: search.only,
        wait: search.wait,
        retry: search.retry,
        prefix,
    };
    push_look(machine, fuel, again, from)?;
    let found = cursor.copy()?;
    push_found(machine, found)?;
    push_take(machine, &search, &cursor)?;
    let start = cursor.copy()?;
    let fuel = machine.units;
    look_for_second(machine, fuel, search, cursor, values, start)
}

/// Below the taking of a match: where it is lost, the search goes on from `from`.
fn push_look(
    machine: &mut Machine,
    fuel: u64,
    search: SearchData,
    from: Cursor,
) -> Result<(), AllocError>
    ensures moved { OnOk result (machine.new ≡ record machine.old { stack = machine.new.stack }) }
    ensures top { OnOk result (reverse machine.new.stack.items ≡ StackEntry.Read (ReadEntry.OrDo (ReadTask.Looks fuel search (Some from))) ∷ reverse machine.old.stack.items) }
    ensures err { OnErr result (IsUnchanged machine.old.output machine.new.output) }
{
    push(
        machine,
        StackEntry::Read(ReadEntry::OrDo(ReadTask::Looks {
            fuel,
            search,
            from: Some(from),
        })),
    )
}

/// Below the taking of a match: it is found then.
pub(crate) fn push_found(machine: &mut Machine, cursor: Cursor) -> Result<(), AllocError>
    ensures moved { OnOk result (machine.new ≡ record machine.old { stack = machine.new.stack }) }
    ensures top { OnOk result (reverse machine.new.stack.items ≡ StackEntry.Then (Task.Completes (Completion.Found cursor)) ∷ reverse machine.old.stack.items) }
    ensures err { OnErr result (IsUnchanged machine.old.output machine.new.output) }
{
    push(
        machine,
        StackEntry::Then(Task::Completes(Completion::Found(cursor))),
    )
}

/// Below the search for a second match: the first one is locked then.
fn push_take(machine: &mut Machine, search: &SearchData, cursor: &Cursor) -> Result<(), AllocError>
    ensures moved { OnOk result (machine.new ≡ record machine.old { stack = machine.new.stack }) }
    ensures top { OnOk result (reverse machine.new.stack.items ≡ StackEntry.Then (Task.Read (ReadTask.TakesAs search.now.place search.now.wait search.now.retry cursor.now.row)) ∷ reverse machine.old.stack.items) }
    ensures err { OnErr result (IsUnchanged machine.old.output machine.new.output) }
{
    push(
        machine,
        StackEntry::Then(Task::Read(ReadTask::TakesAs {
            place: search.place,
            wait: search.wait,
            retry: search.retry,
            row: cursor.row,
        })),
    )
}

/// Looks for a second match after `from`.
pub(crate) fn look_for_second(
    machine: &mut Machine,
    fuel: u64,
    search: SearchData,
    cursor: Cursor,
    values: Row,
    from: Cursor,
) -> Result<(), AllocError>
    ensures ok { OnOk result (KeepsExecuted (flat.Seconds fuel (search_of (instrs_in machine.old) search) cursor values from) machine.old machine.new) }
    ensures err { OnErr result (IsUnchanged machine.old.output machine.new.output) }
{
    let Some(fuel) = fuel.checked_sub(1) else {
        stop(machine);
        return Ok(());
    };
    let prefix = copy_row(&search.prefix)?;
    let Some(op) = next_op(machine, search.place, prefix, Some(from), true) else {
        return Err(AllocError);
    };
    ask(
        machine,
        op,
        ReadAnswer::WasSecond {
            fuel,
            search,
            cursor,
            values,
        },
    );
    Ok(())
}

/// After Next, where a second match is searched: the first one is shown again where there is none.
pub(crate) fn was_second(
    machine: &mut Machine,
    fuel: u64,
    search: SearchData,
    cursor: Cursor,
    values: Row,
    found: Option<FoundRow>,
) -> Result<(), AllocError>
    ensures ok { OnOk result (KeepsFrom (λ p s. flat.second_answered p (found_if found) fuel (search_of (instrs_in machine.old) search) cursor values (stack_in machine.old) s) machine.old machine.new) }
    ensures err { OnErr result (IsUnchanged machine.old.output machine.new.output) }
{
    match found {
        None => show_first(machine, search.place, &cursor, values),
        Some(found) => judge_second(machine, fuel, search, cursor, values, found),
    }
}

/// There is no second match.
fn show_first(
    machine: &mut Machine,
    place: usize,
    cursor: &Cursor,
    values: Row,
) -> Result<(), AllocError>
    ensures ok { OnOk result (KeepsFrom (λ p s. flat.config (flat.Unwind state.Normal) (stack_in machine.old) (shows (reading_there (instrs_in machine.old) place).buffer cursor.now.row values s)) machine.old machine.new) }
    ensures err { OnErr result (IsUnchanged machine.old.output machine.new.output) }
{
    let Some(buffer) = buffer_at(&machine.code, place) else {
        return Err(AllocError);
    };
    show(machine, buffer, cursor.row, values);
    complete(machine);
    Ok(())
}

/// Next found another record.
fn judge_second(
    machine: &mut Machine,
    fuel: u64,
    search: SearchData,
    cursor: Cursor,
    values: Row,
    found: FoundRow,
) -> Result<(), AllocError>
    ensures ok { OnOk result (KeepsFrom (λ p s. flat.second_answered p (Some (found_row_in found)) fuel (search_of (instrs_in machine.old) search) cursor values (stack_in machine.old) s) machine.old machine.new) }
    ensures err { OnErr result (IsUnchanged machine.old.output machine.new.output) }
{
    match show_other(machine, search.place, search.retry, found) {
        Ok(found) => {
            if found.passes {
                refuse_second(machine, search.place)
            } else {
                look_for_second(machine, fuel, search, cursor, values, found.cursor)
            }
        }
        Err(EvalFault::Fault(fault)) => {
            fail(machine, LineFault::Expression(fault));
            Ok(())
        }
        Err(EvalFault::NoMemory) => Err(AllocError),
    }
}

/// More than one record matches.
fn refuse_second(machine: &mut Machine, place: usize) -> Result<(), AllocError>
    ensures ok { OnOk result (KeepsFrom (λ p s. flat.fault (MoreThanOne (reading_there (instrs_in machine.old) place).buffer) (stack_in machine.old) s) machine.old machine.new) }
    ensures err { OnErr result (IsUnchanged machine.old.output machine.new.output) }
{
    let Some(buffer) = buffer_at(&machine.code, place) else {
        return Err(AllocError);
    };
    fail(
        machine,
        LineFault::Complaint(Complaint::MoreThanOne(buffer)),
    );
    Ok(())
}
