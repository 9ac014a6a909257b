//! What the steps of a change do to the variables and buffers in the machine's memory. Each call
//! lends the memory to one step of the crates below, and says what that does to the state.

ghost use Rattle.std.specs.Prelude.{◌≡◌, [], IfOk, OnOk, ℕ, List, Option};
ghost use Rattle.abl_base.specs.declared.row.RowId.{RowId};
ghost use Rattle.abl_base.specs.declared.value.Value.{Value};
ghost use Rattle.block_meaning.specs.Changes.{as_before, initial_values, stored};
ghost use Rattle.block_meaning.specs.Frames.{content_of, holding, table_of};
ghost use Rattle.block_meaning.specs.Program.{Program, table_at};
ghost use Rattle.block_meaning.specs.State.{Pending, Record, State, Held as HeldMeant};
ghost use Rattle.buffer_steps.specs.changes.Buffers.{Fits, HasTables, state_of};
ghost use Rattle.buffer_steps.specs.changes.Steps.{DeleteGoes, SettleGoes};
ghost use Rattle.client_machine.specs.Machine.{state_in};
ghost use Rattle.client_memory.specs.Buffers.{denoted_content};
ghost use Rattle.client_values.specs.Ends.{Assigns};
ghost use Rattle.client_records.specs.Locks.{LockIs, StoresRow};
ghost use Rattle.client_records.specs.Reads.{ReadsOf};

use abl_base::{Items, Row, RowId, Value, copy_row};
use bound_tree::Target;
use buffer_steps::buffers::RunningBuffers;
use buffer_steps::changes::{ChangeLock, DeleteStep, StoreStep};
use client_machine::machine::Machine;
use client_memory::Content;
use client_values::assign::assign_value;
use database_protocol::Op;
use evaluator::EvalFault;
use std::alloc::{AllocError, Global};

/// The lock before a change, with what the buffer holds where it is asked for.
#[derive(Drop)]
pub(crate) enum LockStep {
    /// No lock is missing.
    Enough,
    /// The record was read NO-LOCK.
    ReadNoLock,
    /// The share lock is upgraded.
    Asks {
        op: Op,
        row: RowId,
        values: Row,
        made: Option<u64>,
    },
}

/// A row that a buffer holds.
#[derive(Drop)]
struct HeldRow {
    values: Row,
    made: Option<u64>,
}

/// The lock before a change of the record in the buffer. Out of memory is the only error.
pub(crate) fn lock_step(machine: &mut Machine, buffer: u32) -> Result<LockStep, AllocError>
    ensures same { machine.new ≡ machine.old }
    ensures goes { IfOk result (λ step. (p : Program) (rest : State) → ReadsOf p rest machine.old → LockIs step buffer (state_in rest machine.old)) }
{
    let buffers = RunningBuffers {
        memory: &mut machine.memory,
        procedures: machine.procedures.as_slice(),
        error: machine.status,
        returned: machine.returned.as_slice(),
    };
    locked(machine.alloc, &buffers, buffer)
}

/// The same of the buffers.
fn locked(alloc: Global, buffers: &RunningBuffers<'_>, buffer: u32) -> Result<LockStep, AllocError>
    ensures { IfOk result (λ step. (p : Program) (rest : State) → Fits p rest buffers.now → LockIs step buffer (state_of rest buffers.now)) }
{
    match buffer_steps::changes::lock_for_change(buffers, buffer) {
        ChangeLock::Enough => Ok(LockStep::Enough),
        ChangeLock::ReadNoLock => Ok(LockStep::ReadNoLock),
        ChangeLock::Asks(op, row) => {
            let HeldRow { values, made } = held_row(alloc, buffers, buffer)?;
            Ok(LockStep::Asks {
                op,
                row,
                values,
                made,
            })
        }
    }
}

/// A copy of the row that the buffer holds; an empty one where it holds none.
fn held_row(alloc: Global, buffers: &RunningBuffers<'_>, buffer: u32) -> Result<HeldRow, AllocError>
    ensures { IfOk result (λ found. (p : Program) (rest : State) (row : RowId) (values : List Value) (held : HeldMeant) (made : Option ℕ) → Fits p rest buffers.now → content_of buffer (state_of rest buffers.now) ≡ Record row values held made → (found.values ≡ values) × (found.made ≡ made)) }
{
    let empty = Ok(HeldRow {
        values: Items::empty(alloc),
        made: None,
    });
    let Some(found) = buffers.own(buffer) else {
        return empty;
    };
    match &found.content {
        Content::Empty => empty,
        Content::Pending { .. } => empty,
        Content::Record { values, made, .. } => Ok(HeldRow {
            values: copy_row(values)?,
            made: *made,
        }),
    }
}

/// How the record in the buffer is stored. Out of memory is the only error.
pub(crate) fn store_step(machine: &mut Machine, buffer: u32) -> Result<StoreStep, AllocError>
    ensures same { machine.new ≡ machine.old }
    ensures goes { IfOk result (λ step. (p : Program) (rest : State) → HasTables p machine.old.inputs.schema → ReadsOf p rest machine.old → SettleGoes step p buffer (state_in rest machine.old)) }
    ensures stores { IfOk result (λ step. (p : Program) (rest : State) → HasTables p machine.old.inputs.schema → ReadsOf p rest machine.old → StoresRow step) }
{
    buffer_steps::changes::settle(
        &RunningBuffers {
            memory: &mut machine.memory,
            procedures: machine.procedures.as_slice(),
            error: machine.status,
            returned: machine.returned.as_slice(),
        },
        &machine.inputs.schema,
        buffer,
    )
}

/// The number of the buffer's table.
pub(crate) fn table(machine: &mut Machine, buffer: u32) -> u16
    ensures same { machine.new ≡ machine.old }
    ensures table { (p : Program) (rest : State) → ReadsOf p rest machine.old → result ≡ table_of buffer (state_in rest machine.old) }
{
    let buffers = RunningBuffers {
        memory: &mut machine.memory,
        procedures: machine.procedures.as_slice(),
        error: machine.status,
        returned: machine.returned.as_slice(),
    };
    match buffers.own(buffer) {
        Some(found) => found.table,
        None => 0,
    }
}

/// The buffer holds another content.
pub(crate) fn hold(machine: &mut Machine, buffer: u32, content: Content)
    ensures moved { machine.new ≡ record machine.old { memory = machine.new.memory } }
    ensures copies { machine.new.memory.copies ≡ machine.old.memory.copies }
    ensures reads { (p : Program) (rest : State) → ReadsOf p rest machine.old → ReadsOf p rest machine.new }
    ensures state { (p : Program) (rest : State) → ReadsOf p rest machine.old → state_in rest machine.new ≡ holding buffer (denoted_content content) (state_in rest machine.old) }
{
    let mut buffers = RunningBuffers {
        memory: &mut machine.memory,
        procedures: machine.procedures.as_slice(),
        error: machine.status,
        returned: machine.returned.as_slice(),
    };
    let _ = buffers.replace(buffer, content);
}

/// After a fault the buffer holds its values from before the statement again, with its present lock.
pub(crate) fn restore(machine: &mut Machine, buffer: u32, before: Content)
    ensures moved { machine.new ≡ record machine.old { memory = machine.new.memory } }
    ensures copies { machine.new.memory.copies ≡ machine.old.memory.copies }
    ensures reads { (p : Program) (rest : State) → ReadsOf p rest machine.old → ReadsOf p rest machine.new }
    ensures state { (p : Program) (rest : State) → ReadsOf p rest machine.old → state_in rest machine.new ≡ holding buffer (as_before (denoted_content before) (content_of buffer (state_in rest machine.old))) (state_in rest machine.old) }
{
    let mut buffers = RunningBuffers {
        memory: &mut machine.memory,
        procedures: machine.procedures.as_slice(),
        error: machine.status,
        returned: machine.returned.as_slice(),
    };
    let now = buffers.replace(buffer, Content::Empty);
    let _ = buffers.replace(buffer, content_before(before, now));
}

/// The values of a content, with the lock of the present one; the present one where they are not of
/// one kind.
fn content_before(before: Content, now: Content) -> Content
    ensures { denoted_content result ≡ as_before (denoted_content before) (denoted_content now) }
{
    match now {
        Content::Empty => Content::Empty,
        Content::Record {
            row,
            values,
            held,
            made,
        } => match before {
            Content::Record { values, .. } => Content::Record {
                row,
                values,
                held,
                made,
            },
            _ => Content::Record {
                row,
                values,
                held,
                made,
            },
        },
        Content::Pending {
            values,
            since,
            made,
        } => match before {
            Content::Pending { values, since, .. } => Content::Pending {
                values,
                since,
                made,
            },
            _ => Content::Pending {
                values,
                since,
                made,
            },
        },
    }
}

/// DELETE begins: a pending record is dropped.
pub(crate) fn begin_delete(machine: &mut Machine, buffer: u32) -> DeleteStep
    ensures moved { machine.new ≡ record machine.old { memory = machine.new.memory } }
    ensures copies { machine.new.memory.copies ≡ machine.old.memory.copies }
    ensures reads { (p : Program) (rest : State) → ReadsOf p rest machine.old → ReadsOf p rest machine.new }
    ensures goes { (p : Program) (rest : State) → ReadsOf p rest machine.old → DeleteGoes result buffer (state_in rest machine.old) (state_in rest machine.new) }
{
    let mut buffers = RunningBuffers {
        memory: &mut machine.memory,
        procedures: machine.procedures.as_slice(),
        error: machine.status,
        returned: machine.returned.as_slice(),
    };
    buffer_steps::changes::begin_delete(&mut buffers, buffer)
}

/// The buffer holds a new pending record. `made` is the number of this CREATE. Out of memory is the
/// only error.
pub(crate) fn new_record(machine: &mut Machine, buffer: u32, made: u64) -> Result<(), AllocError>
    ensures moved { machine.new ≡ record machine.old { memory = machine.new.memory } }
    ensures copies { machine.new.memory.copies ≡ machine.old.memory.copies }
    ensures reads { (p : Program) (rest : State) → ReadsOf p rest machine.old → ReadsOf p rest machine.new }
    ensures state { OnOk result ((p : Program) (rest : State) → HasTables p machine.old.inputs.schema → ReadsOf p rest machine.old → state_in rest machine.new ≡ holding buffer (Pending (initial_values (table_at p (table_of buffer (state_in rest machine.old))).fields) [] made) (state_in rest machine.old)) }
{
    let mut buffers = RunningBuffers {
        memory: &mut machine.memory,
        procedures: machine.procedures.as_slice(),
        error: machine.status,
        returned: machine.returned.as_slice(),
    };
    buffer_steps::changes::new_record(
        machine.alloc,
        &mut buffers,
        &machine.inputs.schema,
        buffer,
        made,
    )
}

/// Assigns a value to a variable, or to a field of the record in a buffer.
pub(crate) fn assign(machine: &mut Machine, target: Target, value: Value) -> Result<(), EvalFault>
    ensures moved { machine.new ≡ record machine.old { memory = machine.new.memory } }
    ensures copies { machine.new.memory.copies ≡ machine.old.memory.copies }
    ensures reads { (p : Program) (rest : State) → ReadsOf p rest machine.old → ReadsOf p rest machine.new }
    ensures assigns { (p : Program) (rest : State) → ReadsOf p rest machine.old → Assigns result (stored target value (state_in rest machine.old)) (state_in rest machine.new) }
{
    match target {
        Target::Variable(variable) => {
            assign_value(machine.alloc, &mut machine.memory, variable, value)
        }
        Target::Field {
            buffer,
            field,
            kind,
        } => {
            let mut buffers = RunningBuffers {
                memory: &mut machine.memory,
                procedures: machine.procedures.as_slice(),
                error: machine.status,
                returned: machine.returned.as_slice(),
            };
            buffer_steps::changes::set_field(
                machine.alloc,
                &mut buffers,
                buffer,
                field,
                kind,
                value,
            )
        }
    }
}
