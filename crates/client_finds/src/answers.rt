//! What follows an answer: what it carries is moved out of it.

ghost use Rattle.std.specs.Prelude.{OnOk, OnErr};
ghost use Rattle.client_output.specs.Written.{IsUnchanged};
ghost use Rattle.client_machine.specs.declared.answers.AnswerClass.{AnswerClass};
ghost use Rattle.client_machine.specs.declared.mode.OnAnswer.{OnAnswer};
ghost use Rattle.client_machine.specs.declared.mode.reads.ReadAnswer.{ReadAnswer};
ghost use Rattle.client_machine.specs.AnswerClass.{IsOfAnswerClass, KeepsAnswer};

use crate::current::{current_granted, was_current};
use crate::locks::{was_granted, was_read};
use crate::search::was_next;
use crate::takes::was_second;
use abl_base::{Row, RowId};
use client_machine::machine::Machine;
use client_machine::mode::reads::SearchData;
use client_memory::Held;
use database_protocol::{Answer, Cursor, Op};
use record_rules::{found_in, grant_in, values_in};
use std::alloc::AllocError;

/// After Next of a search.
pub(crate) fn hear_next(
    machine: &mut Machine,
    op: Op,
    fuel: u64,
    search: SearchData,
    answer: Answer,
) -> Result<(), AllocError>
    requires { IsOfAnswerClass AnswerClass.Done answer }
    ensures ok { OnOk result (KeepsAnswer op (OnAnswer.Read (ReadAnswer.WasNext fuel search)) answer machine.old machine.new) }
    ensures err { OnErr result (IsUnchanged machine.old.output machine.new.output) }
{
    let _ = op;
    let found = found_in(answer);
    was_next(machine, fuel, search, found)
}

/// After Next of the search for a second match.
pub(crate) fn hear_second(
    machine: &mut Machine,
    op: Op,
    fuel: u64,
    search: SearchData,
    cursor: Cursor,
    values: Row,
    answer: Answer,
) -> Result<(), AllocError>
    requires { IsOfAnswerClass AnswerClass.Done answer }
    ensures ok { OnOk result (KeepsAnswer op (OnAnswer.Read (ReadAnswer.WasSecond fuel search cursor values)) answer machine.old machine.new) }
    ensures err { OnErr result (IsUnchanged machine.old.output machine.new.output) }
{
    let _ = op;
    let found = found_in(answer);
    was_second(machine, fuel, search, cursor, values, found)
}

/// After Lock of a match.
pub(crate) fn hear_grant(
    machine: &mut Machine,
    op: Op,
    place: usize,
    retry: bool,
    row: RowId,
    answer: Answer,
) -> Result<(), AllocError>
    requires { IsOfAnswerClass AnswerClass.Done answer }
    ensures ok { OnOk result (KeepsAnswer op (OnAnswer.Read (ReadAnswer.WasGranted place retry row)) answer machine.old machine.new) }
    ensures err { OnErr result (IsUnchanged machine.old.output machine.new.output) }
{
    let _ = op;
    let grant = grant_in(&answer);
    was_granted(machine, place, retry, row, grant)
}

/// After the second reading of a match.
pub(crate) fn hear_read(
    machine: &mut Machine,
    op: Op,
    place: usize,
    retry: bool,
    row: RowId,
    held: Held,
    answer: Answer,
) -> Result<(), AllocError>
    requires { IsOfAnswerClass AnswerClass.Done answer }
    ensures ok { OnOk result (KeepsAnswer op (OnAnswer.Read (ReadAnswer.WasRead place retry row held)) answer machine.old machine.new) }
    ensures err { OnErr result (IsUnchanged machine.old.output machine.new.output) }
{
    let _ = op;
    let values = values_in(answer);
    was_read(machine, place, retry, row, held, values)
}

/// After Lock of a FIND CURRENT.
pub(crate) fn hear_current_grant(
    machine: &mut Machine,
    op: Op,
    place: usize,
    row: RowId,
    made: Option<u64>,
    answer: Answer,
) -> Result<(), AllocError>
    requires { IsOfAnswerClass AnswerClass.Done answer }
    ensures ok { OnOk result (KeepsAnswer op (OnAnswer.Read (ReadAnswer.CurrentGranted place row made)) answer machine.old machine.new) }
    ensures err { OnErr result (IsUnchanged machine.old.output machine.new.output) }
{
    let _ = op;
    let grant = grant_in(&answer);
    current_granted(machine, place, row, made, grant)
}

/// After the reading of a FIND CURRENT.
pub(crate) fn hear_current(
    machine: &mut Machine,
    op: Op,
    place: usize,
    row: RowId,
    made: Option<u64>,
    answer: Answer,
) -> Result<(), AllocError>
    requires { IsOfAnswerClass AnswerClass.Done answer }
    ensures ok { OnOk result (KeepsAnswer op (OnAnswer.Read (ReadAnswer.WasCurrent place row made)) answer machine.old machine.new) }
    ensures err { OnErr result (IsUnchanged machine.old.output machine.new.output) }
{
    let _ = op;
    let values = values_in(answer);
    was_current(machine, place, row, made, values)
}
