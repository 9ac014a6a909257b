//! Pending records are inserted.

ghost use Rattle.std.specs.Prelude.{◌≡◌, ◌∷◌, ◌+◌, ◌<◌, ◌^◌, [], ℕ, IfOk, MatchOption, OnOk, OnErr, Some, drop};
ghost use Rattle.block_meaning.specs.Program.{Program};
ghost use Rattle.client_memory.specs.Buffers.{denoted_place};
ghost use Rattle.client_memory.specs.Memory.{buffer_at};
ghost use Rattle.client_machine.specs.declared.mode.Task.{Task};
ghost use Rattle.client_machine.specs.declared.mode.ends.EndTask.{EndTask};
ghost use Rattle.client_machine.specs.Step.{KeepsTask};
ghost use Rattle.client_output.specs.Written.{IsUnchanged};
ghost use Rattle.client_ends.specs.Insertions.{EntersAs};

use crate::insertion::{Insertion, insertion_of};
use abl_base::Items;
use client_machine::machine::Machine;
use client_machine::mode::ends::{EndAnswer, EndTask};
use client_machine::mode::{Completion, LineFault, Mode, OnAnswer, StackEntry, Task};
use client_memory::Place;
use database_protocol::Op;
use std::alloc::AllocError;

/// Inserts the record in the buffer at the place, if it is pending.
pub fn enter_one(machine: &mut Machine, place: Place) -> Result<(), AllocError>
    ensures ok { OnOk result (KeepsTask (Task.End (EndTask.EntersOne place)) machine.old machine.new) }
    ensures err { OnErr result (IsUnchanged machine.old.output machine.new.output) }
{
    match insertion_at(machine, place)? {
        Insertion::Nothing => machine.set_mode(Mode::Unwind(Completion::Normal)),
        Insertion::Fails(complaint) => machine.set_mode(Mode::Unwind(Completion::Faults(Some(
            LineFault::Complaint(complaint),
        )))),
        Insertion::Inserts {
            table,
            values,
            made,
        } => machine.ask(
            Op::Insert { table, values },
            OnAnswer::End(EndAnswer::WasInserted { place, made }),
        ),
    }
    Ok(())
}

/// What becomes of the record in the buffer at the place.
fn insertion_at(machine: &Machine, place: Place) -> Result<Insertion, AllocError>
    ensures { IfOk result (λ step. (p : Program) → p.tables ≡ machine.now.inputs.schema.tables → EntersAs step p (buffer_at (denoted_place place) machine.now.memory)) }
{
    match machine.memory.buffer(place) {
        Some(buffer) => insertion_of(&machine.inputs.schema, buffer),
        None => Ok(Insertion::Nothing),
    }
}

/// Inserts the pending records of buffers, from this one of the list on.
pub fn enter_from(
    machine: &mut Machine,
    places: Items<Place>,
    from: usize,
) -> Result<(), AllocError>
    ensures ok { OnOk result (KeepsTask (Task.End (EndTask.Enters places from)) machine.old machine.new) }
    ensures err { OnErr result (IsUnchanged machine.old.output machine.new.output) }
{
    let Some(place) = place_at(places.as_slice(), from) else {
        machine.set_mode(Mode::Unwind(Completion::Normal));
        return Ok(());
    };
    let next = from + 1;
    machine.stack.push(StackEntry::Then(Task::End(EndTask::Enters { places, from: next })))?;
    machine.set_mode(Mode::Execute(Task::End(EndTask::EntersOne(place))));
    Ok(())
}

/// The place of this index.
pub fn place_at(places: &[Place], index: usize) -> Option<Place>
    ensures { MatchOption result (drop index places.now ≡ []) (λ place. (index + 1 < 2 ^ 64) × ((next : ℕ) → next ≡ index + 1 → drop index places.now ≡ place ∷ drop next places.now)) }
{
    let place = places.get(index)?;
    Some(*place)
}

/// At the end of the transaction inserts every pending record of the client.
pub fn enter_rest(machine: &mut Machine, depth: Option<u32>) -> Result<(), AllocError>
    ensures ok { OnOk result (KeepsTask (Task.End (EndTask.EntersRest depth)) machine.old machine.new) }
    ensures err { OnErr result (IsUnchanged machine.old.output machine.new.output) }
{
    match depth {
        None => {
            machine.set_mode(Mode::Unwind(Completion::Normal));
            Ok(())
        }
        Some(level) => enter_rest_at(machine, level),
    }
}

/// The same where the iteration has a level.
fn enter_rest_at(machine: &mut Machine, level: u32) -> Result<(), AllocError>
    ensures ok { OnOk result (KeepsTask (Task.End (EndTask.EntersRest (Some level))) machine.old machine.new) }
    ensures err { OnErr result (IsUnchanged machine.old.output machine.new.output) }
{
    if level != 1 {
        machine.set_mode(Mode::Unwind(Completion::Normal));
        return Ok(());
    }
    let places = machine.memory.places()?;
    machine.set_mode(Mode::Execute(Task::End(EndTask::Enters {
        places: Items::from_vec(places),
        from: 0,
    })));
    Ok(())
}
