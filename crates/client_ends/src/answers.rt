//! What follows the answers at the end of an iteration.

ghost use Rattle.std.specs.Prelude.{◌≡◌, IfOk, OnOk, OnErr};
ghost use Rattle.block_meaning.specs.Views.{values_in};
ghost use Rattle.block_meaning.specs.Buffers.{got_content};
ghost use Rattle.database_protocol.specs.declared.answer.Answer.{Answer};
ghost use Rattle.client_memory.specs.Buffers.{denoted_content, denoted_held};
ghost use Rattle.client_machine.specs.declared.answers.AnswerClass.{AnswerClass};
ghost use Rattle.client_machine.specs.AnswerClass.{IsOfAnswerClass, KeepsAnswer};
ghost use Rattle.client_machine.specs.Statements.{inserted_table, inserted_values};
ghost use Rattle.client_machine.specs.declared.mode.OnAnswer.{OnAnswer};
ghost use Rattle.client_machine.specs.declared.mode.ends.EndAnswer.{EndAnswer};
ghost use Rattle.client_output.specs.Written.{IsUnchanged};

use abl_base::{Items, Row, RowId};
use client_machine::machine::Machine;
use client_machine::mode::ends::{BufferList, EndTask};
use client_machine::mode::{Completion, LineFault, Mode, Task};
use client_memory::buffer::Held;
use client_memory::{Content, Place};
use database_protocol::{Answer, Op};
use record_rules::{inserted_row, refusal_in, values_in};
use std::alloc::{AllocError, Global};

/// The table and the values of an Insert.
#[derive(Drop)]
struct InsertedRow {
    table: u16,
    values: Row,
}

/// After Insert: the buffer holds the row exclusively, or the insertion has failed.
pub fn was_inserted(
    machine: &mut Machine,
    op: Op,
    answer: Answer,
    place: Place,
    made: u64,
) -> Result<(), AllocError>
    requires { IsOfAnswerClass AnswerClass.Done answer }
    ensures ok { OnOk result (KeepsAnswer op (OnAnswer.End (EndAnswer.WasInserted place made)) answer machine.old machine.new) }
    ensures err { OnErr result (IsUnchanged machine.old.output machine.new.output) }
{
    let InsertedRow { table, values } = inserted(machine.alloc, op);
    let number = number_of(place.number)?;
    let Some(row) = inserted_row(&answer) else {
        match refusal_in(number, table, &answer) {
            Some(complaint) => {
                let fault = Some(LineFault::Complaint(complaint));
                machine.set_mode(Mode::Unwind(Completion::Faults(fault)));
                return Ok(());
            }
            None => {
                machine.set_mode(Mode::Unwind(Completion::Normal));
                return Ok(());
            }
        }
    };
    let content = Content::Record {
        row,
        values,
        held: Held::Exclusive,
        made: Some(made),
    };
    let _ = machine.memory.replace(place, content);
    machine.set_mode(Mode::Unwind(Completion::Normal));
    Ok(())
}

/// The number of a buffer.
fn number_of(number: usize) -> Result<u32, AllocError>
    ensures { IfOk result (λ same. same ≡ number) }
{
    match u32::try_from(number) {
        Ok(number) => Ok(number),
        Err(_) => Err(AllocError),
    }
}

/// What an Insert inserts. No other operation is answered so.
fn inserted(alloc: Global, op: Op) -> InsertedRow
    ensures table { result.table ≡ inserted_table op }
    ensures values { result.values ≡ inserted_values op }
{
    match op {
        Op::Insert { table, values } => InsertedRow { table, values },
        _ => InsertedRow {
            table: 0,
            values: Items::empty(alloc),
        },
    }
}

/// After Drop.
pub fn was_dropped(machine: &mut Machine, op: Op, answer: Answer) -> Result<(), AllocError>
    requires { IsOfAnswerClass AnswerClass.Done answer }
    ensures ok { OnOk result (KeepsAnswer op (OnAnswer.End EndAnswer.WasDropped) answer machine.old machine.new) }
    ensures err { OnErr result (IsUnchanged machine.old.output machine.new.output) }
{
    let _ = (op, answer);
    machine.set_mode(Mode::Unwind(Completion::Normal));
    Ok(())
}

/// After Back: the copy of the level is restored next.
pub fn was_back(
    machine: &mut Machine,
    op: Op,
    answer: Answer,
    depth: u32,
    but: BufferList,
) -> Result<(), AllocError>
    requires { IsOfAnswerClass AnswerClass.Done answer }
    ensures ok { OnOk result (KeepsAnswer op (OnAnswer.End (EndAnswer.WasBack depth but)) answer machine.old machine.new) }
    ensures err { OnErr result (IsUnchanged machine.old.output machine.new.output) }
{
    let _ = (op, answer);
    machine.set_mode(Mode::Execute(Task::End(EndTask::AfterBack { depth, but })));
    Ok(())
}

/// After Get: the buffer holds the values that the row has now, or nothing where the row is gone.
pub fn was_got(
    machine: &mut Machine,
    op: Op,
    answer: Answer,
    place: Place,
    row: RowId,
    held: Held,
    made: Option<u64>,
) -> Result<(), AllocError>
    requires { IsOfAnswerClass AnswerClass.Done answer }
    ensures ok { OnOk result (KeepsAnswer op (OnAnswer.End (EndAnswer.WasGot place row held made)) answer machine.old machine.new) }
    ensures err { OnErr result (IsUnchanged machine.old.output machine.new.output) }
{
    let _ = op;
    let content = content_read(answer, row, held, made);
    let _ = machine.memory.replace(place, content);
    machine.set_mode(Mode::Unwind(Completion::Normal));
    Ok(())
}

/// The row with the values that were read.
fn content_read(answer: Answer, row: RowId, held: Held, made: Option<u64>) -> Content
    ensures { denoted_content result ≡ got_content (values_in answer) row (denoted_held held) made }
{
    match values_in(answer) {
        Some(values) => Content::Record {
            row,
            values,
            held,
            made,
        },
        None => Content::Empty,
    }
}
