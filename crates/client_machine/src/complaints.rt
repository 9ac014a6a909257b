//! The faults of statements: the line about each, NO-ERROR, and ERROR.

ghost use Rattle.std.specs.Prelude.{◌≡◌, ◌-◌, IfOk, IfSome, OnOk, OnErr, Some, None, true, false, length, slice_get};
ghost use Rattle.block_meaning.specs.Lines.{line_of};
ghost use Rattle.block_meaning.specs.Program.{Program, procedure_at};
ghost use Rattle.block_meaning.specs.State.{State};
ghost use Rattle.block_meaning.specs.Frames.{own_frame};
ghost use Rattle.record_rules.specs.lines.Complaints as complaints;
ghost use Rattle.client_output.specs.Written.{IsUnchanged};
ghost use Rattle.client_machine.specs.declared.mode.Completion.{Completion};
ghost use Rattle.client_machine.specs.declared.mode.StackEntry.{StackEntry};
ghost use Rattle.client_machine.specs.Config.{complaint_in, AreEven};
ghost use Rattle.client_machine.specs.Inputs.{IsProcedureOf, IsProgramOf};
ghost use Rattle.client_machine.specs.Machine.{state_in};
ghost use Rattle.client_machine.specs.declared.mode.ends.BufferList.{BufferList};
ghost use Rattle.client_machine.specs.declared.mode.LineFault.{LineFault};
ghost use Rattle.client_machine.specs.declared.mode.Mode.{Mode};
ghost use Rattle.client_machine.specs.Order.{IsNoFault};
ghost use Rattle.client_machine.specs.Step.{KeepsComplaint, KeepsEntry};

use crate::machine::Machine;
use crate::mode::ends::BufferList;
use crate::mode::{Completion, LineFault, Mode, PassedLevels};
use block_code::{Code, ProcedureCode};
use database_protocol::StopWhy;
use record_rules::lines::{Complaint, complaint_about, complaint_line};
use std::alloc::AllocError;

impl Machine {
    /// A completion reaches the entry that handles the fault of a statement: under NO-ERROR it sets
    /// ERROR-STATUS:ERROR, else its line is written and ERROR is raised (OpenEdge ABL Reference,
    /// NO-ERROR option).
    pub fn handles(&mut self, quiet: bool, completion: Completion) -> Result<(), AllocError>
        ensures ok { OnOk result (KeepsEntry (StackEntry.Handles quiet) completion self.old self.new) }
        ensures err { OnErr result (IsUnchanged self.old.output self.new.output) }
    {
        match completion {
            Completion::Faults(fault) => self.handles_fault(quiet, fault),
            _ => self.passes_by(quiet, completion),
        }
    }

    /// The same for a fault.
    fn handles_fault(&mut self, quiet: bool, fault: Option<LineFault>) -> Result<(), AllocError>
        ensures ok { OnOk result (KeepsEntry (StackEntry.Handles quiet) (Completion.Faults fault) self.old self.new) }
        ensures err { OnErr result (IsUnchanged self.old.output self.new.output) }
    {
        if quiet {
            self.status = true;
            self.set_mode(Mode::Unwind(Completion::Normal));
            Ok(())
        } else {
            self.complain(fault)
        }
    }

    /// The same for a completion that is no fault: unwinding continues with it.
    fn passes_by(&mut self, quiet: bool, completion: Completion) -> Result<(), AllocError>
        requires other { IsNoFault completion }
        ensures ok { OnOk result (KeepsEntry (StackEntry.Handles quiet) completion self.old self.new) }
        ensures err { OnErr result (IsUnchanged self.old.output self.new.output) }
    {
        let _ = quiet;
        self.set_mode(Mode::Unwind(completion));
        Ok(())
    }

    /// Writes the line about a fault, if it has one, and raises ERROR. The client stops where the
    /// output would be too long.
    pub fn complain(&mut self, fault: Option<LineFault>) -> Result<(), AllocError>
        ensures ok { OnOk result (KeepsComplaint fault self.old self.new) }
        ensures err { OnErr result (IsUnchanged self.old.output self.new.output) }
    {
        match fault {
            None => {
                self.raise();
                Ok(())
            }
            Some(fault) => self.write_line(fault),
        }
    }

    /// Raises ERROR.
    fn raise(&mut self)
        ensures { self.new ≡ record self.old { mode = Mode.Unwind (Completion.Raises (record { first = None; buffers = BufferList.None })) } }
    {
        self.set_mode(Mode::Unwind(Completion::Raises(PassedLevels {
            first: None,
            buffers: BufferList::None,
        })));
    }

    /// Writes the line about a fault, and raises ERROR.
    fn write_line(&mut self, fault: LineFault) -> Result<(), AllocError>
        ensures ok { OnOk result (KeepsComplaint (Some fault) self.old self.new) }
        ensures err { OnErr result (IsUnchanged self.old.output self.new.output) }
    {
        let line = self.line_about(fault)?;
        if self.output.write(None, line.as_slice())? {
            self.raise();
            return Ok(());
        }
        self.set_mode(Mode::Unwind(Completion::Stops(StopWhy::OutputFull)));
        Ok(())
    }

    /// The line about a fault. Its buffers are those of the running procedure.
    fn line_about(&self, fault: LineFault) -> Result<Vec<u8>, AllocError>
        ensures { IfOk result (λ line. (p : Program) (rest : State) → IsProgramOf p self.now.code self.now.inputs → AreEven self.now.procedures.items self.now.memory → line.items ≡ line_of p (own_frame (state_in rest self.now).frames).procedure (complaint_in fault)) }
    {
        let Some(procedure) = self.running_procedure() else {
            return Err(AllocError);
        };
        complaint_line(
            self.alloc,
            &self.inputs.schema,
            procedure.buffers.as_slice(),
            complaint_of(fault),
        )
    }

    /// The code of the running procedure.
    pub fn running_procedure(&self) -> Option<&ProcedureCode>
        ensures { IfSome result (λ procedure. (p : Program) (rest : State) → IsProgramOf p self.now.code self.now.inputs → AreEven self.now.procedures.items self.now.memory → IsProcedureOf self.now.code.instrs.items procedure.now (procedure_at p (own_frame (state_in rest self.now).frames).procedure)) }
    {
        let Some(number) = last_of(self.procedures.as_slice()) else {
            return None;
        };
        procedure_code(&self.code, number)
    }
}

/// The last number.
fn last_of(numbers: &[u32]) -> Option<u32>
    ensures { IfSome result (λ n. slice_get numbers.now (length numbers.now - 1) ≡ Some n) }
{
    let last = numbers.len().checked_sub(1)?;
    match numbers.get(last) {
        Some(number) => Some(*number),
        None => None,
    }
}

/// The code of the procedure of this number.
fn procedure_code<'a>(code: &'a Code, number: u32) -> Option<&'a ProcedureCode>
    ensures { IfSome result (λ found. slice_get code.now.procedures.items number ≡ Some found.now) }
{
    code.procedures.get(number as usize)
}

/// What the line about a fault reports.
fn complaint_of(fault: LineFault) -> Complaint
    ensures { complaints.complaint_in result ≡ complaint_in fault }
{
    match fault {
        LineFault::Expression(fault) => complaint_about(fault),
        LineFault::Complaint(complaint) => complaint,
    }
}
