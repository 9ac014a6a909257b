//! How a step of a change completes.

ghost use Rattle.std.specs.Prelude.{◌≡◌, Some};
ghost use Rattle.client_machine.specs.declared.mode.Completion.{Completion};
ghost use Rattle.client_machine.specs.declared.mode.LineFault.{LineFault};
ghost use Rattle.client_machine.specs.declared.mode.Mode.{Mode};

use client_machine::machine::Machine;
use client_machine::mode::{Completion, LineFault, Mode};
use record_rules::lines::Complaint;

/// The step completes normally.
pub(crate) fn complete(machine: &mut Machine)
    ensures { machine.new ≡ record machine.old { mode = Mode.Unwind Completion.Normal } }
{
    machine.set_mode(Mode::Unwind(Completion::Normal));
}

/// The statement fails with this fault.
pub(crate) fn fail(machine: &mut Machine, fault: LineFault)
    ensures { machine.new ≡ record machine.old { mode = Mode.Unwind (Completion.Faults (Some fault)) } }
{
    machine.set_mode(Mode::Unwind(Completion::Faults(Some(fault))));
}

/// The statement fails with this complaint.
pub(crate) fn complain(machine: &mut Machine, complaint: Complaint)
    ensures { machine.new ≡ record machine.old { mode = Mode.Unwind (Completion.Faults (Some (LineFault.Complaint complaint))) } }
{
    fail(machine, LineFault::Complaint(complaint));
}
