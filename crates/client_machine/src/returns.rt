//! RETURN and RETURN ERROR.

ghost use Rattle.std.specs.Prelude.{◌≡◌, ◌∷◌, ℕ, List, None, OnOk, OnErr, reverse, false};
ghost use Rattle.block_meaning.specs.State.{State};
ghost use Rattle.block_meaning.specs.Program.{Program};
ghost use Rattle.block_meaning.specs.Blocks.{returns_with};
ghost use Rattle.flat_machine.specs.Flat as flat;
ghost use Rattle.evaluator.specs.Forms.{AreForms};
ghost use Rattle.client_output.specs.Written.{IsUnchanged};
ghost use Rattle.client_machine.specs.Actions.{returned_in};
ghost use Rattle.client_machine.specs.Order.{Nesting, InOrder, first_in, ModeInOrder};
ghost use Rattle.client_machine.specs.Config.{completion_of, instr_at, AreEven};
ghost use Rattle.client_machine.specs.Machine.{config_of, stack_in, state_in};
ghost use Rattle.client_machine.specs.declared.mode.ReturnSource.{ReturnSource};

use crate::machine::Machine;
use crate::mode::{Completion, Mode, ReturnSource, StackEntry, Task};
use std::alloc::AllocError;

impl Machine {
    /// The statement RETURN or RETURN ERROR: sets RETURN-VALUE, and completes so.
    pub fn return_as(
        &mut self,
        place: usize,
        completion: Completion,
        next: usize,
        left: u32,
        retry: bool,
    ) -> Result<(), AllocError>
        ensures moved { OnOk result (self.new ≡ record self.old { mode = self.new.mode; stack = self.new.stack; units = self.new.units; returned = self.new.returned }) }
        ensures order { OnOk result (first_in completion ≡ None → (n : Nesting) → InOrder n (reverse self.old.stack.items) → ModeInOrder n self.new.mode (reverse self.new.stack.items)) }
        ensures err { OnErr result (IsUnchanged self.old.output self.new.output) }
        ensures ok { OnOk result (AreEven self.old.procedures.items self.old.memory → (rest : State) (p : Program) → AreForms p.forms → rest.status ≡ self.old.status → rest.returned ≡ self.old.returned
            → config_of (record rest { returned = self.new.returned }) self.new
            ≡ flat.costing self.old.units (λ s. flat.config (flat.Unwind (completion_of self.old.code.instrs.items self.old.memory.copies completion)) (flat.Handles false ∷ flat.ThenDo (flat.RunsFrom next left retry) ∷ stack_in self.old) (returns_with p (returned_in ReturnSource.Statement (instr_at self.old.code.instrs.items place)) retry s)) (stack_in self.old) (state_in rest self.old)) }
    {
        if !self.charge() {
            return Ok(());
        }
        let text = self.text_to_return(place, ReturnSource::Statement, retry)?;
        self.stack.push(StackEntry::Then(Task::RunsFrom {
            place: next,
            left,
            retry,
        }))?;
        self.stack.push(StackEntry::Handles(false))?;
        self.set_return_value(text);
        self.set_mode(Mode::Unwind(completion));
        Ok(())
    }
}
