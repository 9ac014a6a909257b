//! FIND (OpenEdge ABL Reference, FIND statement): the old record is released, and a record is searched.

ghost use Rattle.std.specs.Prelude.{◌≡◌, ◌∷◌, ℕ, List, IfSome, OnOk, OnErr, reverse};
ghost use Rattle.block_meaning.specs.State.{State, Copy};
ghost use Rattle.block_meaning.specs.Buffers.{own};
ghost use Rattle.flat_machine.specs.Flat as flat;
ghost use Rattle.block_code.specs.declared.code.Instr.{Instr};
ghost use Rattle.client_output.specs.Written.{IsUnchanged};
ghost use Rattle.client_machine.specs.declared.mode.Completion.{Completion};
ghost use Rattle.client_machine.specs.declared.mode.StackEntry.{StackEntry};
ghost use Rattle.client_machine.specs.declared.mode.Task.{Task};
ghost use Rattle.client_machine.specs.declared.mode.reads.ReadEntry.{ReadEntry};
ghost use Rattle.client_machine.specs.declared.mode.reads.ReadTask.{ReadTask};
ghost use Rattle.client_machine.specs.Config.{completion_of, mode_of, reading_at as reading_there, read_task_of};
ghost use Rattle.client_machine.specs.KeepsFrom.{KeepsFrom};
ghost use Rattle.client_machine.specs.Machine.{stack_in};
ghost use Rattle.client_machine.specs.Order.{CompletesInOrder, InOrder, ModeInOrder, Nesting};
ghost use Rattle.client_machine.specs.Step.{KeepsEntry, KeepsTask};
ghost use Rattle.client_finds.specs.Steps.{instrs_in, KeepsExecuted};

use crate::goes::push;
use crate::places::{buffer_at, find_word_at, waits_at};
use crate::readings::{start_find, unlock};
use crate::search::search;
use bound_tree::FindWord;
use client_machine::machine::Machine;
use client_machine::mode::ends::{BufferList, EndTask};
use client_machine::mode::reads::{ReadEntry, ReadTask};
use client_machine::mode::{Completion, LineFault, Mode, PassedLevels, StackEntry, Task};
use client_memory::Place;
use record_rules::lines::Complaint;
use std::alloc::AllocError;

/// The FIND at the place begins: LOCKED becomes no, a pending record is inserted, and the old record
/// is released.
pub(crate) fn finds(machine: &mut Machine, place: usize, retry: bool) -> Result<(), AllocError>
    ensures ok { OnOk result (KeepsTask (Task.Read (ReadTask.Finds place retry)) machine.old machine.new) }
    ensures err { OnErr result (IsUnchanged machine.old.output machine.new.output) }
{
    let Some(buffer) = buffer_at(&machine.code, place) else {
        return Err(AllocError);
    };
    unlock(machine, buffer);
    push(machine, StackEntry::Read(ReadEntry::FoundAs(place)))?;
    release(machine, buffer, ReadTask::FindsAs { place, retry })
}

/// Releases the record of a buffer, and then executes the task.
pub(crate) fn release(machine: &mut Machine, buffer: u32, task: ReadTask) -> Result<(), AllocError>
    ensures ok { OnOk result (KeepsFrom (λ p s. flat.config (flat.Execute (flat.EntersOne (own buffer))) (flat.ThenDo (flat.Drops buffer) ∷ flat.ThenDo (read_task_of (instrs_in machine.old) task) ∷ stack_in machine.old) s) machine.old machine.new) }
    ensures err { OnErr result (IsUnchanged machine.old.output machine.new.output) }
{
    push(machine, StackEntry::Then(Task::Read(task)))?;
    push(machine, StackEntry::Then(Task::End(EndTask::Drops(buffer))))?;
    enter_own(machine, buffer);
    Ok(())
}

/// Inserts the record of a buffer of the running procedure, if it is pending.
fn enter_own(machine: &mut Machine, buffer: u32)
    ensures { KeepsExecuted (flat.EntersOne (own buffer)) machine.old machine.new }
{
    machine.set_mode(Mode::Execute(Task::End(EndTask::EntersOne(Place::own(buffer as usize)))));
}

/// The search of the FIND at the place.
pub(crate) fn find_as(machine: &mut Machine, place: usize, retry: bool) -> Result<(), AllocError>
    ensures ok { OnOk result (KeepsTask (Task.Read (ReadTask.FindsAs place retry)) machine.old machine.new) }
    ensures err { OnErr result (IsUnchanged machine.old.output machine.new.output) }
{
    let Some(word) = find_word_at(&machine.code, place) else {
        return Err(AllocError);
    };
    let Some(wait) = waits_at(&machine.code, place) else {
        return Err(AllocError);
    };
    let start = start_find(machine, place, word)?;
    search(
        machine,
        place,
        start.forward,
        start.only,
        wait,
        retry,
        start.from,
    )
}

/// A completion reaches the entry below the taking of a record: where the record was lost, the task
/// follows.
pub(crate) fn or_do(
    machine: &mut Machine,
    task: ReadTask,
    completion: Completion,
) -> Result<(), AllocError>
    ensures ok { OnOk result (KeepsEntry (StackEntry.Read (ReadEntry.OrDo task)) completion machine.old machine.new) }
    ensures err { OnErr result (IsUnchanged machine.old.output machine.new.output) }
{
    let mode = mode_or(task, completion);
    machine.set_mode(mode);
    Ok(())
}

/// The task follows where the record was lost.
fn mode_or(task: ReadTask, completion: Completion) -> Mode
    ensures order { (n : Nesting) (os : List StackEntry) → CompletesInOrder n completion (StackEntry.Read (ReadEntry.OrDo task) ∷ os) → ModeInOrder n result os }
    ensures same { (code : List Instr) (cs : List Copy) (ks : List flat.StackEntry) (s : State) → flat.config (mode_of code cs result) ks s ≡ flat.or_step (completion_of code cs completion) (read_task_of code task) ks s }
{
    match completion {
        Completion::Lost => Mode::Execute(Task::Read(task)),
        _ => Mode::Unwind(completion),
    }
}

/// The FIND at the place completes so: a record is found, or none is.
pub(crate) fn found_as(
    machine: &mut Machine,
    place: usize,
    completion: Completion,
) -> Result<(), AllocError>
    ensures ok { OnOk result (KeepsEntry (StackEntry.Read (ReadEntry.FoundAs place)) completion machine.old machine.new) }
    ensures err { OnErr result (IsUnchanged machine.old.output machine.new.output) }
{
    let Some(word) = find_word_at(&machine.code, place) else {
        return Err(AllocError);
    };
    let Some(buffer) = buffer_at(&machine.code, place) else {
        return Err(AllocError);
    };
    let mode = mode_found(word, buffer, place, completion);
    machine.set_mode(mode);
    Ok(())
}

/// What follows a FIND of a buffer that completes so.
fn mode_found(word: FindWord, buffer: u32, place: usize, completion: Completion) -> Mode
    ensures order { (n : Nesting) (os : List StackEntry) → CompletesInOrder n completion (StackEntry.Read (ReadEntry.FoundAs place) ∷ os) → ModeInOrder n result os }
    ensures same { (code : List Instr) (cs : List Copy) (ks : List flat.StackEntry) (s : State) → flat.config (mode_of code cs result) ks s ≡ flat.found_step (completion_of code cs completion) word buffer ks s }
{
    match completion {
        Completion::Found(_) => Mode::Unwind(Completion::Normal),
        Completion::NotFound => Mode::Unwind(none_found(word, buffer)),
        _ => Mode::Unwind(completion),
    }
}

/// How a FIND of a buffer completes where there is no such record: FIND NEXT and FIND PREV raise
/// ENDKEY, the others fail. (OpenEdge ABL Reference, FIND statement.)
fn none_found(word: FindWord, buffer: u32) -> Completion
    ensures order { (n : Nesting) (os : List StackEntry) → InOrder n os → CompletesInOrder n result os }
    ensures same { (code : List Instr) (cs : List Copy) (ks : List flat.StackEntry) (s : State) → flat.config (flat.Unwind (completion_of code cs result)) ks s ≡ flat.not_found_step word buffer ks s }
{
    match word {
        FindWord::Next | FindWord::Previous => Completion::EndKeys(PassedLevels {
            first: None,
            buffers: BufferList::None,
        }),
        FindWord::Only | FindWord::First | FindWord::Last => {
            Completion::Faults(Some(LineFault::Complaint(Complaint::NoRecordFound(buffer))))
        }
    }
}

/// A completion reaches the entry of a FIND: under NO-ERROR a FIND NEXT or FIND PREV that finds none
/// fails without a line. (OpenEdge ABL Reference, FIND statement, NO-ERROR option.)
pub(crate) fn quiet(
    machine: &mut Machine,
    no_error: bool,
    completion: Completion,
) -> Result<(), AllocError>
    ensures ok { OnOk result (KeepsEntry (StackEntry.Read (ReadEntry.Quiet no_error)) completion machine.old machine.new) }
    ensures err { OnErr result (IsUnchanged machine.old.output machine.new.output) }
{
    let Some(mode) = mode_quiet(no_error, completion) else {
        return Err(AllocError);
    };
    machine.set_mode(mode);
    Ok(())
}

/// What follows a FIND with or without NO-ERROR. None comes only where ENDKEY has passed a level, and
/// a FIND opens none.
fn mode_quiet(no_error: bool, completion: Completion) -> Option<Mode>
    ensures order { IfSome result (λ mode. (n : Nesting) (os : List StackEntry) → CompletesInOrder n completion (StackEntry.Read (ReadEntry.Quiet no_error) ∷ os) → ModeInOrder n mode os) }
    ensures same { IfSome result (λ mode. (code : List Instr) (cs : List Copy) (ks : List flat.StackEntry) (s : State) → flat.config (mode_of code cs mode) ks s ≡ flat.quiet_step (completion_of code cs completion) no_error ks s) }
{
    match completion {
        Completion::EndKeys(passed) => mode_after_endkey(no_error, passed),
        _ => Some(Mode::Unwind(completion)),
    }
}

/// The same where the FIND raises ENDKEY.
fn mode_after_endkey(no_error: bool, passed: PassedLevels) -> Option<Mode>
    ensures order { IfSome result (λ mode. (n : Nesting) (os : List StackEntry) → CompletesInOrder n (Completion.EndKeys passed) os → ModeInOrder n mode os) }
    ensures same { IfSome result (λ mode. (code : List Instr) (cs : List Copy) (ks : List flat.StackEntry) (s : State) → flat.config (mode_of code cs mode) ks s ≡ flat.quiet_step (completion_of code cs (Completion.EndKeys passed)) no_error ks s) }
{
    if no_error {
        match passed.first {
            None => Some(Mode::Unwind(Completion::Faults(None))),
            Some(_) => None,
        }
    } else {
        Some(Mode::Unwind(Completion::EndKeys(passed)))
    }
}
