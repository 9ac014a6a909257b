//! UNDO: the client goes back to a level, refreshes the buffers of larger scope, leaves the level, and
//! empties the buffers of the blocks that were undone.

ghost use Rattle.std.specs.Prelude.{◌≡◌, IfOk, OnOk, OnErr};
ghost use Rattle.block_meaning.specs.Buffers.{is_left_out};
ghost use Rattle.client_memory.specs.Buffers.{denoted_place};
ghost use Rattle.client_memory.specs.Memory.{buffer_at};
ghost use Rattle.client_machine.specs.declared.mode.Task.{Task};
ghost use Rattle.client_machine.specs.declared.mode.ends.EndTask.{EndTask};
ghost use Rattle.client_machine.specs.Step.{KeepsTask};
ghost use Rattle.client_output.specs.Written.{IsUnchanged};
ghost use Rattle.client_ends.specs.Emptied.{all_emptied};
ghost use Rattle.client_ends.specs.Refreshes.{UpdatesAs};

use crate::enters::place_at;
use crate::lists::{buffers_in, copy_list};
use crate::refresh::{Refresh, refresh_of};
use abl_base::Items;
use client_machine::machine::Machine;
use client_machine::mode::ends::{BufferList, EndAnswer, EndTask};
use client_machine::mode::{Completion, Mode, OnAnswer, StackEntry, Task};
use client_memory::rows::is_in;
use client_memory::{Content, Memory, Place};
use database_protocol::Op;
use std::alloc::AllocError;

/// Goes back to a level, if there is one.
pub fn go_back(machine: &mut Machine, depth: Option<u32>, but: BufferList) -> Result<(), AllocError>
    ensures ok { OnOk result (KeepsTask (Task.End (EndTask.GoesBack depth but)) machine.old machine.new) }
    ensures err { OnErr result (IsUnchanged machine.old.output machine.new.output) }
{
    match depth {
        None => machine.set_mode(Mode::Unwind(Completion::Normal)),
        Some(depth) => machine.ask(
            Op::Back { depth },
            OnAnswer::End(EndAnswer::WasBack { depth, but }),
        ),
    }
    Ok(())
}

/// After Back: restores the copy of the level, and refreshes the buffers outside of `but`; then the
/// level is left, and those of `but` are emptied.
pub fn restore(machine: &mut Machine, depth: u32, but: BufferList) -> Result<(), AllocError>
    ensures ok { OnOk result (KeepsTask (Task.End (EndTask.AfterBack depth but)) machine.old machine.new) }
    ensures err { OnErr result (IsUnchanged machine.old.output machine.new.output) }
{
    let emptied = copy_list(&but)?;
    let released = copy_list(&but)?;
    machine.memory.leave_to(depth);
    machine.memory.back()?;
    let made = machine.memory.made_before();
    let places = machine.memory.places()?;
    machine
        .stack
        .push(StackEntry::Then(Task::End(EndTask::Empties(emptied))))?;
    machine
        .stack
        .push(StackEntry::Then(Task::End(EndTask::LeavesNow(released))))?;
    machine.set_mode(Mode::Execute(Task::End(EndTask::Updates {
        made,
        but,
        places: Items::from_vec(places),
        from: 0,
    })));
    Ok(())
}

/// Refreshes the buffers outside of `but`, from this one of the list on.
pub fn update_from(
    machine: &mut Machine,
    made: u64,
    but: BufferList,
    places: Items<Place>,
    from: usize,
) -> Result<(), AllocError>
    ensures ok { OnOk result (KeepsTask (Task.End (EndTask.Updates made but places from)) machine.old machine.new) }
    ensures err { OnErr result (IsUnchanged machine.old.output machine.new.output) }
{
    let Some(place) = place_at(places.as_slice(), from) else {
        machine.set_mode(Mode::Unwind(Completion::Normal));
        return Ok(());
    };
    let skipped = is_skipped(buffers_in(&machine.code, &but), place);
    let next = from + 1;
    machine.stack.push(StackEntry::Then(Task::End(EndTask::Updates {
        made,
        but,
        places,
        from: next,
    })))?;
    if skipped {
        machine.set_mode(Mode::Unwind(Completion::Normal));
        return Ok(());
    }
    machine.set_mode(Mode::Execute(Task::End(EndTask::UpdatesOne { made, place })));
    Ok(())
}

/// Whether the place is one of these buffers of the running procedure.
fn is_skipped(buffers: &[u32], place: Place) -> bool
    ensures { result ≡ is_left_out buffers.now (denoted_place place) }
{
    place.out == 0 && is_in(place.number, buffers)
}

/// Refreshes the buffer at the place; `made` CREATEs preceded the copy of the level.
pub fn update_one(machine: &mut Machine, made: u64, place: Place) -> Result<(), AllocError>
    ensures ok { OnOk result (KeepsTask (Task.End (EndTask.UpdatesOne made place)) machine.old machine.new) }
    ensures err { OnErr result (IsUnchanged machine.old.output machine.new.output) }
{
    match refresh_at(&machine.memory, made, place) {
        Refresh::Stays => machine.set_mode(Mode::Unwind(Completion::Normal)),
        Refresh::Empties => {
            let _ = machine.memory.replace(place, Content::Empty);
            machine.set_mode(Mode::Unwind(Completion::Normal));
        }
        Refresh::Reads {
            table,
            row,
            held,
            made,
        } => machine.ask(
            Op::Get { table, row },
            OnAnswer::End(EndAnswer::WasGot {
                place,
                row,
                held,
                made,
            }),
        ),
    }
    Ok(())
}

/// What becomes of the record in the buffer at the place.
fn refresh_at(memory: &Memory, made: u64, place: Place) -> Refresh
    ensures { UpdatesAs result made (buffer_at (denoted_place place) memory.now) }
{
    match memory.buffer(place) {
        Some(buffer) => refresh_of(made, buffer),
        None => Refresh::Stays,
    }
}

/// Empties the buffers of a list.
pub fn empty_all(machine: &mut Machine, but: BufferList) -> Result<(), AllocError>
    ensures ok { OnOk result (KeepsTask (Task.End (EndTask.Empties but)) machine.old machine.new) }
    ensures err { OnErr result (IsUnchanged machine.old.output machine.new.output) }
{
    empty_buffers(&mut machine.memory, buffers_in(&machine.code, &but));
    machine.set_mode(Mode::Unwind(Completion::Normal));
    Ok(())
}

/// Empties buffers of the running procedure.
fn empty_buffers(memory: &mut Memory, buffers: &[u32])
    ensures { memory.new ≡ all_emptied buffers.now memory.old }
{
    for buffer in buffers {
        let _ = memory.replace(Place::own(*buffer as usize), Content::Empty);
    }
}
