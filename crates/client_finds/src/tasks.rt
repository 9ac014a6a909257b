//! The tasks of a search that are left on the stack.

ghost use Rattle.std.specs.Prelude.{OnOk, OnErr};
ghost use Rattle.client_output.specs.Written.{IsUnchanged};
ghost use Rattle.client_machine.specs.declared.mode.Task.{Task};
ghost use Rattle.client_machine.specs.declared.mode.reads.ReadTask.{ReadTask};
ghost use Rattle.client_machine.specs.Step.{KeepsTask};

use crate::locks::take_as;
use crate::search::{look, search};
use abl_base::RowId;
use client_machine::machine::Machine;
use client_machine::mode::reads::SearchData;
use database_protocol::Cursor;
use std::alloc::AllocError;

/// The search goes on from `from`.
pub(crate) fn looks(
    machine: &mut Machine,
    fuel: u64,
    search: SearchData,
    from: Option<Cursor>,
) -> Result<(), AllocError>
    ensures ok { OnOk result (KeepsTask (Task.Read (ReadTask.Looks fuel search from)) machine.old machine.new) }
    ensures err { OnErr result (IsUnchanged machine.old.output machine.new.output) }
{
    look(machine, fuel, search, from)
}

/// The search of a FOR whose record was lost goes on from `from`.
pub(crate) fn searches(
    machine: &mut Machine,
    place: usize,
    forward: bool,
    only: bool,
    wait: bool,
    retry: bool,
    from: Option<Cursor>,
) -> Result<(), AllocError>
    ensures ok { OnOk result (KeepsTask (Task.Read (ReadTask.Searches place forward only wait retry from)) machine.old machine.new) }
    ensures err { OnErr result (IsUnchanged machine.old.output machine.new.output) }
{
    search(machine, place, forward, only, wait, retry, from)
}

/// A match is locked.
pub(crate) fn takes_as(
    machine: &mut Machine,
    place: usize,
    wait: bool,
    retry: bool,
    row: RowId,
) -> Result<(), AllocError>
    ensures ok { OnOk result (KeepsTask (Task.Read (ReadTask.TakesAs place wait retry row)) machine.old machine.new) }
    ensures err { OnErr result (IsUnchanged machine.old.output machine.new.output) }
{
    take_as(machine, place, wait, retry, row)
}
