//! Assignments to variables (OpenEdge ABL Reference, Assignment statement and ASSIGN statement). They
//! complete at once, and push nothing unless one fails.

ghost use Rattle.std.specs.Prelude.{◌≡◌, ℕ, List, ◌∷◌, ◌++◌, [], OnOk, OnErr, Some};
ghost use Rattle.flat_machine.specs.Flat as flat;
ghost use Rattle.bound_tree.specs.Tree.{Assign};
ghost use Rattle.database_protocol.specs.declared.answer.Answer.{Answer};
ghost use Rattle.block_meaning.specs.Changes.{assigns_each, buffers_in};
ghost use Rattle.block_meaning.specs.Program.{Program};
ghost use Rattle.block_meaning.specs.State.{State};
ghost use Rattle.client_output.specs.Written.{IsUnchanged};
ghost use Rattle.client_values.specs.Ends.{Ends, HasNoBuffers};
ghost use Rattle.client_values.specs.Reads.{Reads};
ghost use Rattle.client_values.specs.Variables.{HasSameShape, state_with};
ghost use Rattle.client_machine.specs.Config.{instr_at};
ghost use Rattle.client_machine.specs.KeepsFrom.{KeepsFrom, pairs_in, status_if};
ghost use Rattle.client_machine.specs.Machine.{stack_in};
ghost use Rattle.client_machine.specs.Step.{KeepsTask};
ghost use Rattle.client_machine.specs.declared.mode.Completion.{Completion};
ghost use Rattle.client_machine.specs.declared.mode.LineFault.{LineFault};
ghost use Rattle.client_machine.specs.declared.mode.Mode.{Mode};
ghost use Rattle.client_machine.specs.declared.mode.StackEntry.{StackEntry};
ghost use Rattle.client_machine.specs.declared.mode.Task.{Task};

use crate::machine::Machine;
use crate::mode::{Mode, StackEntry, Task};
use block_code::Instr;
use bound_tree::Stmt;
use client_values::assign::{are_variables, assign_pairs};
use client_values::value::Status;
use evaluator::EvalFault;
use expression_meaning::RunFault;
use std::alloc::AllocError;

impl Machine {
    /// Assigns the values of the assignments at the place, from left to right. Under NO-ERROR a
    /// fault sets ERROR-STATUS:ERROR, else it raises ERROR, with its line. What was assigned before
    /// it stays. Assignments to fields and from sequences return out of memory: `client_records` has them.
    pub fn assign(
        &mut self,
        place: usize,
        next: usize,
        no_error: bool,
        left: u32,
        retry: bool,
    ) -> Result<(), AllocError>
        requires is { instr_at self.old.code.instrs.items place ≡ flat.Plain (Assign (pairs_in (instr_at self.old.code.instrs.items place)) no_error) next }
        ensures ok { OnOk result (KeepsTask (Task.RunsFrom place left retry) self.old self.new) }
        ensures err { OnErr result (IsUnchanged self.old.output self.new.output) }
    {
        if !self.charge() {
            return Ok(());
        }
        self.assign_paid(place, next, no_error, left, retry)
    }

    /// The same after the unit was charged.
    fn assign_paid(
        &mut self,
        place: usize,
        next: usize,
        no_error: bool,
        left: u32,
        retry: bool,
    ) -> Result<(), AllocError>
        ensures ok { OnOk result (KeepsFrom (λ p s. flat.stmt_step p (Assign (pairs_in (instr_at self.old.code.instrs.items place)) no_error) left retry (flat.ThenDo (flat.RunsFrom next left retry) ∷ stack_in self.old) s) self.old self.new) }
        ensures err { OnErr result (IsUnchanged self.old.output self.new.output) }
    {
        self.clear_status(no_error);
        self.assign_cleared(place, next, no_error, left, retry)
    }

    /// A statement with NO-ERROR clears ERROR-STATUS:ERROR first.
    pub fn clear_status(&mut self, no_error: bool)
        ensures { self.new ≡ record self.old { status = status_if no_error self.old.status } }
    {
        if no_error {
            self.status = false;
        }
    }

    /// The same after ERROR-STATUS:ERROR was cleared.
    fn assign_cleared(
        &mut self,
        place: usize,
        next: usize,
        no_error: bool,
        left: u32,
        retry: bool,
    ) -> Result<(), AllocError>
        ensures ok { OnOk result (KeepsFrom (λ p s. flat.config (flat.Execute (flat.Assigns (pairs_in (instr_at self.old.code.instrs.items place)) retry)) (flat.Handles no_error ∷ flat.ThenDo (flat.RunsFrom next left retry) ∷ stack_in self.old) s) self.old self.new) }
        ensures err { OnErr result (IsUnchanged self.old.output self.new.output) }
    {
        match self.assign_at(place, retry) {
            Ok(_) => {
                self.set_mode(Mode::Execute(Task::RunsFrom {
                    place: next,
                    left,
                    retry,
                }));
                Ok(())
            }
            Err(EvalFault::Fault(fault)) => self.fail_before(next, no_error, left, retry, fault),
            Err(EvalFault::NoMemory) => Err(AllocError),
        }
    }

    /// Assigns the values of the assignments at the place. Their targets are all variables.
    fn assign_at(&mut self, place: usize, retry: bool) -> Result<(), EvalFault>
        ensures moved { self.new ≡ record self.old { memory = self.new.memory } }
        ensures shape { HasSameShape self.old.memory self.new.memory }
        ensures variables { HasNoBuffers result (buffers_in (pairs_in (instr_at self.old.code.instrs.items place))) }
        ensures assigns { (p : Program) (rest : State) (ns : List ℕ) (ans : List Answer) → Reads p rest ns self.old.memory self.old.status self.old.returned → Ends result (assigns_each p (pairs_in (instr_at self.old.code.instrs.items place)) retry (state_with rest ns self.old.memory) ans) (state_with rest ns self.new.memory) ans }
    {
        match self.code.instrs.get(place) {
            Some(
                Instr::Simple {
                    stmt: Stmt::Assign { pairs, .. },
                    ..
                },
            ) => {
                if !are_variables(pairs.as_slice()) {
                    return Err(EvalFault::NoMemory);
                }
                assign_pairs(
                    self.alloc,
                    &mut self.memory,
                    pairs.as_slice(),
                    &Status {
                        retry,
                        error: self.status,
                        returned: self.returned.as_slice(),
                    },
                )
            }
            _ => Err(EvalFault::NoMemory),
        }
    }

    /// The statement before the place fails.
    pub fn fail_before(
        &mut self,
        next: usize,
        no_error: bool,
        left: u32,
        retry: bool,
        fault: RunFault,
    ) -> Result<(), AllocError>
        ensures moved { OnOk result (self.new ≡ record self.old { mode = Mode.Unwind (Completion.Faults (Some (LineFault.Expression fault))); stack = self.new.stack }) }
        ensures pushed { OnOk result (self.new.stack.items ≡ (self.old.stack.items ++ StackEntry.Then (Task.RunsFrom next left retry) ∷ []) ++ StackEntry.Handles no_error ∷ []) }
        ensures err { OnErr result (IsUnchanged self.old.output self.new.output) }
    {
        self.stack.push(StackEntry::Then(Task::RunsFrom {
            place: next,
            left,
            retry,
        }))?;
        self.fail(no_error, fault)
    }
}
