//! The record of a FOR (OpenEdge ABL Reference, FOR statement): the old one is released, and the next
//! one is searched; a retry of an iteration reads its own record again.

ghost use Rattle.std.specs.Prelude.{◌≡◌, ◌∷◌, OnOk, OnErr, Some, true, false};
ghost use Rattle.block_meaning.specs.State as state;
ghost use Rattle.block_meaning.specs.Reads.{is_forward};
ghost use Rattle.flat_machine.specs.Flat as flat;
ghost use Rattle.database_protocol.specs.declared.row_order.Cursor.{Cursor};
ghost use Rattle.client_output.specs.Written.{IsUnchanged};
ghost use Rattle.client_machine.specs.declared.mode.Completion.{Completion};
ghost use Rattle.client_machine.specs.declared.mode.LineFault.{LineFault};
ghost use Rattle.client_machine.specs.declared.mode.Mode.{Mode};
ghost use Rattle.client_machine.specs.declared.mode.StackEntry.{StackEntry};
ghost use Rattle.client_machine.specs.declared.mode.Task.{Task};
ghost use Rattle.client_machine.specs.declared.mode.ends.BufferList.{BufferList};
ghost use Rattle.client_machine.specs.declared.mode.ends.EndTask.{EndTask};
ghost use Rattle.client_machine.specs.declared.mode.reads.ReadEntry.{ReadEntry};
ghost use Rattle.client_machine.specs.declared.mode.reads.ReadTask.{ReadTask};
ghost use Rattle.client_machine.specs.Config.{reading_at as reading_there};
ghost use Rattle.client_machine.specs.KeepsFrom.{KeepsFrom};
ghost use Rattle.client_machine.specs.Machine.{stack_in};
ghost use Rattle.client_machine.specs.Step.{KeepsEntry, KeepsTask};
ghost use Rattle.client_finds.specs.Steps.{instrs_in};

use crate::find::release;
use crate::goes::{find_none, push};
use crate::locks::take_again;
use crate::places::{buffer_at, fetch_word_at};
use crate::readings::{empty, unlock};
use crate::search::search;
use crate::takes::push_found;
use bound_tree::FetchWord;
use buffer_steps::reads::{FetchStart, fetch_start};
use client_machine::machine::Machine;
use client_machine::mode::ends::{BufferList, EndTask};
use client_machine::mode::reads::{ReadEntry, ReadTask};
use client_machine::mode::{
    Completion, IterationData, LineFault, Mode, StackEntry, Task, TurnData,
};
use database_protocol::{Cursor, StopWhy};
use std::alloc::AllocError;

/// The reading of the FOR at the place begins: LOCKED becomes no, a pending record is inserted, and
/// the old record is released.
pub(crate) fn fetches(
    machine: &mut Machine,
    place: usize,
    again: bool,
    retry: bool,
    own: Option<Cursor>,
) -> Result<(), AllocError>
    ensures ok { OnOk result (KeepsTask (Task.Read (ReadTask.Fetches place again retry own)) machine.old machine.new) }
    ensures err { OnErr result (IsUnchanged machine.old.output machine.new.output) }
{
    let Some(_) = fetch_word_at(&machine.code, place) else {
        return Err(AllocError);
    };
    let Some(buffer) = buffer_at(&machine.code, place) else {
        return Err(AllocError);
    };
    unlock(machine, buffer);
    release(
        machine,
        buffer,
        ReadTask::FetchesFrom {
            place,
            again,
            retry,
            own,
        },
    )
}

/// The search of the FOR at the place, or the second reading of its record.
pub(crate) fn fetch_from(
    machine: &mut Machine,
    place: usize,
    again: bool,
    retry: bool,
    own: Option<Cursor>,
) -> Result<(), AllocError>
    ensures ok { OnOk result (KeepsTask (Task.Read (ReadTask.FetchesFrom place again retry own)) machine.old machine.new) }
    ensures err { OnErr result (IsUnchanged machine.old.output machine.new.output) }
{
    let Some(word) = fetch_word_at(&machine.code, place) else {
        return Err(AllocError);
    };
    match fetch_start(word, again, own) {
        FetchStart::Search { forward, from } => {
            search(machine, place, forward, false, true, retry, from)
        }
        FetchStart::Again(cursor) => fetch_again(machine, place, word, retry, cursor),
        FetchStart::End => {
            find_none(machine);
            Ok(())
        }
    }
}

/// Reads the record of the iteration again. Where it is lost, the search goes on after it.
fn fetch_again(
    machine: &mut Machine,
    place: usize,
    word: FetchWord,
    retry: bool,
    cursor: Cursor,
) -> Result<(), AllocError>
    ensures ok { OnOk result (KeepsFrom (λ p s. flat.config (flat.Execute (flat.TakesAgain (reading_there (instrs_in machine.old) place) retry cursor.row)) (flat.ThenDo (flat.Completes (state.Found cursor)) ∷ flat.OrDo (flat.Searches (reading_there (instrs_in machine.old) place) (is_forward word) false true retry (Some cursor)) ∷ stack_in machine.old) s) machine.old machine.new) }
    ensures err { OnErr result (IsUnchanged machine.old.output machine.new.output) }
{
    let row = cursor.row;
    let from = cursor.copy()?;
    push(
        machine,
        StackEntry::Read(ReadEntry::OrDo(ReadTask::Searches {
            place,
            forward: reads_forward(word),
            only: false,
            wait: true,
            retry,
            from: Some(from),
        })),
    )?;
    push_found(machine, cursor)?;
    take_again(machine, place, retry, row)
}

/// EACH and FIRST.
fn reads_forward(word: FetchWord) -> bool
    ensures { result ≡ is_forward word }
{
    match word {
        FetchWord::Each | FetchWord::First => true,
        FetchWord::Last => false,
    }
}

/// The reading of the FOR at the place completes so: its body is executed with the record, a fault
/// undoes what was done in the level, and without a record the FOR is over.
pub(crate) fn fetched_as(
    machine: &mut Machine,
    place: usize,
    depth: Option<u32>,
    turn: TurnData,
    retry: bool,
    left: u32,
    completion: Completion,
) -> Result<(), AllocError>
    ensures ok { OnOk result (KeepsEntry (StackEntry.Read (ReadEntry.FetchedAs place depth turn retry left)) completion machine.old machine.new) }
    ensures err { OnErr result (IsUnchanged machine.old.output machine.new.output) }
{
    match completion {
        Completion::Found(own) => fetched(machine, place, depth, turn, retry, left, own),
        Completion::NotFound => fetched_none(machine, place, depth, turn, retry, left),
        Completion::Faults(fault) => fetch_fails(machine, place, depth, turn, retry, left, fault),
        Completion::Stops(why) => fetch_stops(machine, place, depth, turn, retry, left, why),
        _ => Err(AllocError),
    }
}

/// The body of the FOR is executed with the record.
fn fetched(
    machine: &mut Machine,
    place: usize,
    depth: Option<u32>,
    turn: TurnData,
    retry: bool,
    left: u32,
    own: Cursor,
) -> Result<(), AllocError>
    ensures ok { OnOk result (KeepsEntry (StackEntry.Read (ReadEntry.FetchedAs place depth turn retry left)) (Completion.Found own) machine.old machine.new) }
    ensures err { OnErr result (IsUnchanged machine.old.output machine.new.output) }
{
    let TurnData {
        retry: again,
        start,
        by,
        ..
    } = turn;
    let turn = TurnData {
        retry: again,
        start,
        by,
        own: Some(own),
    };
    push(
        machine,
        StackEntry::In {
            place,
            iteration: IterationData { depth, turn },
        },
    )?;
    let body = machine.body_at(place);
    machine.set_mode(Mode::Execute(Task::RunsFrom {
        place: body,
        left,
        retry,
    }));
    Ok(())
}

/// There is no further record: the buffer becomes empty, and the level is left.
fn fetched_none(
    machine: &mut Machine,
    place: usize,
    depth: Option<u32>,
    turn: TurnData,
    retry: bool,
    left: u32,
) -> Result<(), AllocError>
    ensures ok { OnOk result (KeepsEntry (StackEntry.Read (ReadEntry.FetchedAs place depth turn retry left)) Completion.NotFound machine.old machine.new) }
    ensures err { OnErr result (IsUnchanged machine.old.output machine.new.output) }
{
    let _ = (turn, retry, left);
    let Some(_) = fetch_word_at(&machine.code, place) else {
        return Err(AllocError);
    };
    let Some(buffer) = buffer_at(&machine.code, place) else {
        return Err(AllocError);
    };
    empty(machine, buffer);
    match depth {
        None => {
            machine.set_mode(Mode::Unwind(Completion::Normal));
            Ok(())
        }
        Some(_) => {
            leave_level(machine, place);
            Ok(())
        }
    }
}

/// The innermost level is left, which is that of the FOR at the place.
fn leave_level(machine: &mut Machine, place: usize)
    ensures { machine.new ≡ record machine.old { mode = Mode.Execute (Task.End (EndTask.LeavesNow (BufferList.Scoped place))) } }
{
    machine.set_mode(Mode::Execute(Task::End(EndTask::LeavesNow(BufferList::Scoped(place)))));
}

/// The reading has a fault: what was done in the level is undone, and the fault goes on.
fn fetch_fails(
    machine: &mut Machine,
    place: usize,
    depth: Option<u32>,
    turn: TurnData,
    retry: bool,
    left: u32,
    fault: Option<LineFault>,
) -> Result<(), AllocError>
    ensures ok { OnOk result (KeepsEntry (StackEntry.Read (ReadEntry.FetchedAs place depth turn retry left)) (Completion.Faults fault) machine.old machine.new) }
    ensures err { OnErr result (IsUnchanged machine.old.output machine.new.output) }
{
    let _ = (turn, retry, left);
    push(
        machine,
        StackEntry::Then(Task::Completes(Completion::Faults(fault))),
    )?;
    machine.set_mode(Mode::Execute(Task::End(EndTask::GoesBack {
        depth,
        but: BufferList::Scoped(place),
    })));
    Ok(())
}

/// A stop leaves everything open.
fn fetch_stops(
    machine: &mut Machine,
    place: usize,
    depth: Option<u32>,
    turn: TurnData,
    retry: bool,
    left: u32,
    why: StopWhy,
) -> Result<(), AllocError>
    ensures ok { OnOk result (KeepsEntry (StackEntry.Read (ReadEntry.FetchedAs place depth turn retry left)) (Completion.Stops why) machine.old machine.new) }
    ensures err { OnErr result (IsUnchanged machine.old.output machine.new.output) }
{
    let _ = (place, depth, turn, retry, left);
    machine.set_mode(Mode::Unwind(Completion::Stops(why)));
    Ok(())
}
