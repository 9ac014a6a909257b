//! IF (OpenEdge ABL Reference, IF statement), and the fault of a statement.

ghost use Rattle.std.specs.Prelude.{◌≡◌, ℕ, List, ◌∷◌, ◌++◌, [], OnOk, OnErr, Some};
ghost use Rattle.expression_meaning.specs.Operators.{holds as holds_here};
ghost use Rattle.flat_machine.specs.Flat as flat;
ghost use Rattle.block_meaning.specs.Program.{Program};
ghost use Rattle.block_meaning.specs.State.{State};
ghost use Rattle.block_meaning.specs.Values.{value_now};
ghost use Rattle.client_output.specs.Written.{IsUnchanged};
ghost use Rattle.client_values.specs.Ends.{Evaluates};
ghost use Rattle.client_values.specs.Reads.{Reads};
ghost use Rattle.client_values.specs.Variables.{state_with};
ghost use Rattle.client_machine.specs.Config.{instr_at};
ghost use Rattle.client_machine.specs.KeepsFrom.{KeepsFrom, place_if, test_in};
ghost use Rattle.client_machine.specs.Machine.{stack_in};
ghost use Rattle.client_machine.specs.Step.{KeepsTask};
ghost use Rattle.client_machine.specs.declared.mode.Completion.{Completion};
ghost use Rattle.client_machine.specs.declared.mode.LineFault.{LineFault};
ghost use Rattle.client_machine.specs.declared.mode.Mode.{Mode};
ghost use Rattle.client_machine.specs.declared.mode.StackEntry.{StackEntry};
ghost use Rattle.client_machine.specs.declared.mode.Task.{Task};

use crate::machine::Machine;
use crate::mode::{Completion, LineFault, Mode, StackEntry, Task};
use abl_base::Value;
use block_code::Instr;
use client_values::value::{Status, value_of};
use evaluator::{EvalFault, holds};
use expression_meaning::RunFault;
use std::alloc::AllocError;

impl Machine {
    /// IF: charges a unit, and continues at the branch that the value of the test chooses. A fault of
    /// the test raises ERROR, with its line.
    pub fn test(
        &mut self,
        place: usize,
        one: usize,
        other: usize,
        left: u32,
        retry: bool,
    ) -> Result<(), AllocError>
        requires is { instr_at self.old.code.instrs.items place ≡ flat.Tests (test_in (instr_at self.old.code.instrs.items place)) one other }
        ensures ok { OnOk result (KeepsTask (Task.RunsFrom place left retry) self.old self.new) }
        ensures err { OnErr result (IsUnchanged self.old.output self.new.output) }
    {
        if !self.charge() {
            return Ok(());
        }
        self.test_paid(place, one, other, left, retry)
    }

    /// The same after the unit was charged.
    fn test_paid(
        &mut self,
        place: usize,
        one: usize,
        other: usize,
        left: u32,
        retry: bool,
    ) -> Result<(), AllocError>
        ensures ok { OnOk result (KeepsFrom (λ p s. flat.choose_step (value_now p (test_in (instr_at self.old.code.instrs.items place)) retry s) p one other left retry (stack_in self.old) s) self.old self.new) }
        ensures err { OnErr result (IsUnchanged self.old.output self.new.output) }
    {
        match self.test_at(place, retry) {
            Ok(value) => {
                self.choose(&value, one, other, left, retry);
                Ok(())
            }
            Err(EvalFault::Fault(fault)) => self.fail(false, fault),
            Err(EvalFault::NoMemory) => Err(AllocError),
        }
    }

    /// The value of the test of the IF at the place.
    fn test_at(&self, place: usize, retry: bool) -> Result<Value, EvalFault>
        ensures { (p : Program) (rest : State) (ns : List ℕ) → Reads p rest ns self.now.memory self.now.status self.now.returned → Evaluates result (value_now p (test_in (instr_at self.now.code.instrs.items place)) retry (state_with rest ns self.now.memory)) }
    {
        match self.code.instrs.get(place) {
            Some(Instr::If { test, .. }) => value_of(
                self.alloc,
                &self.memory,
                test,
                &Status {
                    retry,
                    error: self.status,
                    returned: self.returned.as_slice(),
                },
            ),
            _ => Err(EvalFault::NoMemory),
        }
    }

    /// Continues at the branch that the value chooses.
    fn choose(&mut self, value: &Value, one: usize, other: usize, left: u32, retry: bool)
        ensures { self.new ≡ record self.old { mode = Mode.Execute (Task.RunsFrom (place_if (holds_here value.now) one other) left retry) } }
    {
        let place = chosen(holds(value), one, other);
        self.set_mode(Mode::Execute(Task::RunsFrom { place, left, retry }));
    }

    /// The statement fails: its fault reaches the entry that handles it.
    pub fn fail(&mut self, no_error: bool, fault: RunFault) -> Result<(), AllocError>
        ensures moved { OnOk result (self.new ≡ record self.old { mode = Mode.Unwind (Completion.Faults (Some (LineFault.Expression fault))); stack = self.new.stack }) }
        ensures pushed { OnOk result (self.new.stack.items ≡ self.old.stack.items ++ StackEntry.Handles no_error ∷ []) }
        ensures err { OnErr result (IsUnchanged self.old.output self.new.output) }
    {
        self.stack.push(StackEntry::Handles(no_error))?;
        self.set_mode(Mode::Unwind(Completion::Faults(Some(LineFault::Expression(fault)))));
        Ok(())
    }
}

/// The place of the branch that is chosen.
fn chosen(holds: bool, one: usize, other: usize) -> usize
    ensures { result ≡ place_if holds one other }
{
    if holds { one } else { other }
}
