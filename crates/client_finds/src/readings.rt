//! The steps of a reading on a machine: those of `buffer_steps::reads` on the buffers of its running
//! procedure, for the reading at a place of the code. Where there is no reading, they answer that
//! there is no memory.

ghost use Rattle.std.specs.Prelude.{◌≡◌, ℕ, Bool, List, None, false, IfOk, OnOk};
ghost use Rattle.block_meaning.specs.Program.{Program};
ghost use Rattle.block_meaning.specs.State.{State};
ghost use Rattle.block_meaning.specs.Frames.{emptied, marked_locked, with_spot};
ghost use Rattle.block_meaning.specs.Reads.{shows};
ghost use Rattle.flat_machine.specs.Flat as flat;
ghost use Rattle.record_rules.specs.readings.Reading.{Brackets};
ghost use Rattle.record_rules.specs.Answers.{found_row_in};
ghost use Rattle.buffer_steps.specs.reads.Steps.{CurrentGoes, CurrentRead, GrantGoes, NextGoes, ReadGoes, SecondGoes};
ghost use Rattle.client_machine.specs.Config.{reading_at as reading_there};
ghost use Rattle.client_finds.specs.Stays.{ReadsIn, StaysIn, state_under};
ghost use Rattle.client_finds.specs.Steps.{instrs_in};

use crate::places::reading_at;
use abl_base::{Row, RowId};
use bound_tree::{FindWord, LockWanted};
use buffer_steps::buffers::RunningBuffers;
use buffer_steps::reads::{
    Current, FindStart, NextTest, RecordBuffers, begin_current, find_start, read_again,
    read_current, settle_grant, show_next, show_second,
};
use client_machine::machine::Machine;
use evaluator::EvalFault;
use record_rules::{FoundRow, Grant};
use std::alloc::AllocError;

/// The values by which a search is bracketed.
pub(crate) fn bracket(machine: &mut Machine, place: usize, retry: bool) -> Result<Row, EvalFault>
    ensures same { machine.new ≡ machine.old }
    ensures goes { (p : Program) (rest : State) → ReadsIn p rest machine.old → Brackets result p (reading_there (instrs_in machine.old) place) retry (state_under rest machine.old) }
{
    let Some(reading) = reading_at(&machine.code, place) else {
        return Err(EvalFault::NoMemory);
    };
    let buffers = RunningBuffers {
        memory: &mut machine.memory,
        procedures: machine.procedures.as_slice(),
        error: machine.status,
        returned: machine.returned.as_slice(),
    };
    buffers.bracket(machine.alloc, reading, retry)
}

/// Where the search of a FIND begins.
pub(crate) fn start_find(
    machine: &mut Machine,
    place: usize,
    word: FindWord,
) -> Result<FindStart, AllocError>
    ensures same { machine.new ≡ machine.old }
    ensures goes { IfOk result (λ start. (p : Program) (rest : State) (wait retry : Bool) (ks : List flat.StackEntry) → ReadsIn p rest machine.old → flat.find_step word (reading_there (instrs_in machine.old) place) wait retry ks (state_under rest machine.old) ≡ flat.config (flat.Execute (flat.Searches (reading_there (instrs_in machine.old) place) start.forward start.only wait retry start.from)) ks (state_under rest machine.old)) }
{
    let Some(reading) = reading_at(&machine.code, place) else {
        return Err(AllocError);
    };
    let buffers = RunningBuffers {
        memory: &mut machine.memory,
        procedures: machine.procedures.as_slice(),
        error: machine.status,
        returned: machine.returned.as_slice(),
    };
    find_start(&buffers, word, reading)
}

/// After Next found a record: the buffer shows it and has its place, and WHERE is tested.
pub(crate) fn show_found(
    machine: &mut Machine,
    place: usize,
    retry: bool,
    found: FoundRow,
) -> Result<NextTest, EvalFault>
    ensures moved { machine.new ≡ record machine.old { memory = machine.new.memory } }
    ensures stays { StaysIn machine.old machine.new.memory }
    ensures goes { (p : Program) (rest : State) → ReadsIn p rest machine.old → NextGoes result p (reading_there (instrs_in machine.old) place) retry (found_row_in found) (state_under rest machine.old) (state_under rest machine.new) }
{
    let Some(reading) = reading_at(&machine.code, place) else {
        return Err(EvalFault::NoMemory);
    };
    let mut buffers = RunningBuffers {
        memory: &mut machine.memory,
        procedures: machine.procedures.as_slice(),
        error: machine.status,
        returned: machine.returned.as_slice(),
    };
    show_next(machine.alloc, &mut buffers, reading, retry, found)
}

/// After the search for a second match found a record: WHERE is tested of it.
pub(crate) fn show_other(
    machine: &mut Machine,
    place: usize,
    retry: bool,
    found: FoundRow,
) -> Result<NextTest, EvalFault>
    ensures moved { machine.new ≡ record machine.old { memory = machine.new.memory } }
    ensures stays { StaysIn machine.old machine.new.memory }
    ensures goes { (p : Program) (rest : State) → ReadsIn p rest machine.old → SecondGoes result p (reading_there (instrs_in machine.old) place) retry (found_row_in found) (state_under rest machine.old) (state_under rest machine.new) }
{
    let Some(reading) = reading_at(&machine.code, place) else {
        return Err(EvalFault::NoMemory);
    };
    let mut buffers = RunningBuffers {
        memory: &mut machine.memory,
        procedures: machine.procedures.as_slice(),
        error: machine.status,
        returned: machine.returned.as_slice(),
    };
    show_second(machine.alloc, &mut buffers, reading, retry, found)
}

/// After the answer to Lock.
pub(crate) fn settle(machine: &mut Machine, place: usize, grant: Grant) -> Result<(), AllocError>
    ensures moved { machine.new ≡ record machine.old { memory = machine.new.memory } }
    ensures stays { StaysIn machine.old machine.new.memory }
    ensures goes { OnOk result ((p : Program) (rest : State) → ReadsIn p rest machine.old → GrantGoes grant (reading_there (instrs_in machine.old) place) (state_under rest machine.old) (state_under rest machine.new)) }
{
    let Some(reading) = reading_at(&machine.code, place) else {
        return Err(AllocError);
    };
    let mut buffers = RunningBuffers {
        memory: &mut machine.memory,
        procedures: machine.procedures.as_slice(),
        error: machine.status,
        returned: machine.returned.as_slice(),
    };
    settle_grant(&mut buffers, reading, grant);
    Ok(())
}

/// After the row was read again under its lock: WHERE is tested of the values that it has now.
pub(crate) fn show_again(
    machine: &mut Machine,
    place: usize,
    retry: bool,
    row: RowId,
    lock: LockWanted,
    values: Option<Row>,
) -> Result<bool, EvalFault>
    ensures moved { machine.new ≡ record machine.old { memory = machine.new.memory } }
    ensures stays { StaysIn machine.old machine.new.memory }
    ensures goes { (p : Program) (rest : State) → ReadsIn p rest machine.old → ReadGoes result p values (reading_there (instrs_in machine.old) place) retry row lock (state_under rest machine.old) (state_under rest machine.new) }
{
    let Some(reading) = reading_at(&machine.code, place) else {
        return Err(EvalFault::NoMemory);
    };
    let mut buffers = RunningBuffers {
        memory: &mut machine.memory,
        procedures: machine.procedures.as_slice(),
        error: machine.status,
        returned: machine.returned.as_slice(),
    };
    read_again(
        machine.alloc,
        &mut buffers,
        reading,
        retry,
        row,
        lock,
        values,
    )
}

/// FIND CURRENT begins.
pub(crate) fn start_current(machine: &mut Machine, place: usize) -> Result<Current, AllocError>
    ensures moved { machine.new ≡ record machine.old { memory = machine.new.memory } }
    ensures stays { StaysIn machine.old machine.new.memory }
    ensures goes { IfOk result (λ current. (p : Program) (rest : State) → ReadsIn p rest machine.old → CurrentGoes current (reading_there (instrs_in machine.old) place) (state_under rest machine.old) (state_under rest machine.new)) }
{
    let Some(reading) = reading_at(&machine.code, place) else {
        return Err(AllocError);
    };
    let mut buffers = RunningBuffers {
        memory: &mut machine.memory,
        procedures: machine.procedures.as_slice(),
        error: machine.status,
        returned: machine.returned.as_slice(),
    };
    Ok(begin_current(&mut buffers, reading))
}

/// After the row of a FIND CURRENT was read.
pub(crate) fn show_current(
    machine: &mut Machine,
    place: usize,
    row: RowId,
    made: Option<u64>,
    values: Option<Row>,
) -> Result<bool, AllocError>
    ensures moved { machine.new ≡ record machine.old { memory = machine.new.memory } }
    ensures stays { StaysIn machine.old machine.new.memory }
    ensures goes { IfOk result (λ found. (p : Program) (rest : State) → ReadsIn p rest machine.old → CurrentRead found values (reading_there (instrs_in machine.old) place) row made (state_under rest machine.old) (state_under rest machine.new)) }
{
    let Some(reading) = reading_at(&machine.code, place) else {
        return Err(AllocError);
    };
    let mut buffers = RunningBuffers {
        memory: &mut machine.memory,
        procedures: machine.procedures.as_slice(),
        error: machine.status,
        returned: machine.returned.as_slice(),
    };
    Ok(read_current(&mut buffers, reading, row, made, values))
}

/// A buffer shows a row, without a lock so far.
pub(crate) fn show(machine: &mut Machine, buffer: u32, row: RowId, values: Row)
    ensures moved { machine.new ≡ record machine.old { memory = machine.new.memory } }
    ensures stays { StaysIn machine.old machine.new.memory }
    ensures goes { (p : Program) (rest : State) → ReadsIn p rest machine.old → state_under rest machine.new ≡ shows buffer row values (state_under rest machine.old) }
{
    let mut buffers = RunningBuffers {
        memory: &mut machine.memory,
        procedures: machine.procedures.as_slice(),
        error: machine.status,
        returned: machine.returned.as_slice(),
    };
    buffers.show(buffer, row, values);
}

/// A buffer becomes empty.
pub(crate) fn empty(machine: &mut Machine, buffer: u32)
    ensures moved { machine.new ≡ record machine.old { memory = machine.new.memory } }
    ensures stays { StaysIn machine.old machine.new.memory }
    ensures goes { (p : Program) (rest : State) → ReadsIn p rest machine.old → state_under rest machine.new ≡ emptied buffer (state_under rest machine.old) }
{
    let mut buffers = RunningBuffers {
        memory: &mut machine.memory,
        procedures: machine.procedures.as_slice(),
        error: machine.status,
        returned: machine.returned.as_slice(),
    };
    buffers.empty(buffer);
}

/// LOCKED of a buffer becomes no.
pub(crate) fn unlock(machine: &mut Machine, buffer: u32)
    ensures moved { machine.new ≡ record machine.old { memory = machine.new.memory } }
    ensures stays { StaysIn machine.old machine.new.memory }
    ensures goes { (p : Program) (rest : State) → ReadsIn p rest machine.old → state_under rest machine.new ≡ marked_locked buffer false (state_under rest machine.old) }
{
    let mut buffers = RunningBuffers {
        memory: &mut machine.memory,
        procedures: machine.procedures.as_slice(),
        error: machine.status,
        returned: machine.returned.as_slice(),
    };
    buffers.set_locked(buffer, false);
}

/// A buffer has no place in an index.
pub(crate) fn clear_place(machine: &mut Machine, buffer: u32)
    ensures moved { machine.new ≡ record machine.old { memory = machine.new.memory } }
    ensures stays { StaysIn machine.old machine.new.memory }
    ensures goes { (p : Program) (rest : State) → ReadsIn p rest machine.old → state_under rest machine.new ≡ with_spot buffer None (state_under rest machine.old) }
{
    let mut buffers = RunningBuffers {
        memory: &mut machine.memory,
        procedures: machine.procedures.as_slice(),
        error: machine.status,
        returned: machine.returned.as_slice(),
    };
    buffers.clear_place(buffer);
}
